// The course of a run that reuses what was kept: every growth comes first, then the output files,
// then what is kept, then the screen.
ghost use Rattle.std.specs.Prelude.{◌≡◌, ◌≤◌, ◌<◌, List, None, Some, ℕ, drop, is_some, length, map, slice_get};
ghost use Rattle.std.specs.Option.{option_map};
ghost use Rattle.command_words.specs.declared.words.Command.TheVariants.{Run};
ghost use Rattle.outside.specs.Saves.{output_file};
ghost use Rattle.run_course.specs.Asked.{AskFor};
ghost use Rattle.run_course.specs.Outside.{world};
ghost use Rattle.cached_course.specs.Kept.{HasKept};
ghost use Rattle.cached_course.specs.Promises.{ReusePromises};
ghost use Rattle.cached_course.specs.inner.Course.{DeliversKept};

use crate::laws::reuse_law;
use crate::saving::{Reused, prepare};
use cache_store::{Cache, CacheEntry};
use flume_value::Str;
use kept_results::keep_each;
use outside::{Host, Output, Screen, Shelf, Source, save_all, say};
use run_course::stop_told;
use run_settings::Settings;
use run_texts::{Place, Status, tell};
use std::alloc::Global;
use std::thread::Threads;

/// Runs the script of that name with these settings, reuses what the cache has kept, and answers
/// how that ended. What is promised is said of words that ask for the same run without a cache.
pub fn run_cached<X: Threads + Sync, R: Source, H: Host + Send, K: Shelf, P: Screen, C: Cache>(
    rt: &X,
    alloc: Global,
    settings: &Settings,
    name: &str,
    source: &mut R,
    hosts: &mut [H],
    shelf: &mut K,
    screen: &mut P,
    cache: &mut C,
) -> Status
    requires { length hosts.old ≡ 16 }
    ensures promises { (words : List (List ℕ)) → AskFor words (Run settings.now None) name.now →
        ReusePromises words
        (world (R.seen source.old) (K.seen shelf.old) (P.seen screen.old) (map H.account hosts.old))
        (world (R.seen source.new) (K.seen shelf.new) (P.seen screen.new) (map H.account hosts.new))
        (C.seen cache.old) (C.seen cache.new) result }
    ensures hosts { drop settings.now.workers hosts.new ≡ drop settings.now.workers hosts.old }
{
    reuse_law();
    match prepare(rt, alloc, settings, name, source, hosts, cache) {
        Ok(reused) => deliver(reused, shelf, screen, cache),
        Err(stop) => stop_told(stop, screen),
    }
}

// Writes the files, keeps what was not found, and then writes the text of the screen. It takes no
// memory.
fn deliver<K: Shelf, P: Screen, C: Cache>(
    reused: Reused,
    shelf: &mut K,
    screen: &mut P,
    cache: &mut C,
) -> Status
    ensures delivered { DeliversKept (map output_file reused.written.outputs.items)
        reused.written.screen.items reused.kept.items (K.seen shelf.old) (K.seen shelf.new)
        (P.seen screen.old) (P.seen screen.new) (C.seen cache.old) (C.seen cache.new) result }
    ensures shelf { (K.seen shelf.old).faults ≤ (K.seen shelf.new).faults }
    ensures screen { (P.seen screen.old).faults ≤ (P.seen screen.new).faults }
    ensures cache { (C.seen cache.old).faults ≤ (C.seen cache.new).faults }
    ensures tells { is_some (C.seen cache.new).entries ≡ is_some (C.seen cache.old).entries }
{
    let Reused { written, kept } = reused;
    if let Err(place) = save_all(shelf, &written.outputs) {
        let status = Status::WriteFault {
            place: Place::File(name_of(written.outputs, place)),
        };
        tell(screen, &status);
        return status;
    }
    keep_behind(&kept, cache);
    if say(screen, &written.screen).is_err() {
        return Status::WriteFault {
            place: Place::Screen,
        };
    }
    Status::Done
}

// Keeps these one after the other, as far as the cache takes them.
fn keep_behind<C: Cache>(kept: &[CacheEntry], cache: &mut C)
    ensures kept { HasKept kept.now (C.seen cache.old) (C.seen cache.new) }
    ensures later { (C.seen cache.old).faults ≤ (C.seen cache.new).faults }
    ensures tells { is_some (C.seen cache.new).entries ≡ is_some (C.seen cache.old).entries }
{
    keep_each(kept, cache);
}

// The name of one of the outputs. It takes no memory.
fn name_of(mut outputs: Vec<Output>, place: usize) -> Str
    requires { place < length outputs.items }
    ensures { option_map (λ file. file.name) (slice_get (map output_file outputs.items) place)
        ≡ Some result }
{
    outputs.swap_remove(place).name.into_text()
}
