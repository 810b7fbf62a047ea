// What a run over a sound cache comes to, and what it leaves there.
ghost use Rattle.std.specs.Prelude.{◌≡◌, List, ℕ};
ghost use Rattle.cache_store.specs.Seen.{SeenCache};
ghost use Rattle.run_course.specs.Answers.{IsRefused};
ghost use Rattle.run_course.specs.Outside.{Keeps, Outside};
ghost use Rattle.run_texts.specs.declared.status.Status.TheVariants.{WantOfMemory};
ghost use Rattle.cached_course.specs.Promises.{ReusePromises};
ghost use Rattle.cached_course.specs.inner.Laws.{MeantLaw, SoundLaw};

use kept_results::given_law;
use kept_results::saved_meaning::saved_law;
use key_meaning::key_meaning_law;
use run_course::build_law::direct_meaning::meaning_law;
use run_course::script_loading::inputs_law;

/// Over a sound cache, whatever was found, what is run means what the script means. And where that
/// has no trap, the cache that has what is kept is sound.
pub(crate) fn reuse_law()
    ensures meant { MeantLaw }
    ensures sound { SoundLaw }
{
    meaning_law();
    inputs_law();
    given_law();
    saved_law();
    key_meaning_law();
}

/// What a call promises that found no memory before it asked for anything.
pub fn memory_law()
    ensures { (words : List (List ℕ)) (before after : Outside) (cache : SeenCache) →
        IsRefused WantOfMemory before after → Keeps before after → after.source ≡ before.source →
        after.hosts ≡ before.hosts → ReusePromises words before after cache cache WantOfMemory }
{
    reuse_law();
}
