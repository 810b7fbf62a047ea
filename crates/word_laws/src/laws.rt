//! What the words of the grammar ask for.
ghost use Rattle.std.specs.Prelude.{◌≡◌, ◌≤◌, ◌∷◌, [], List, Some, codes, decimal, true, ℕ};
ghost use Rattle.word_laws.specs.CachedWords.{HasPlainWords, TakesCached};
ghost use Rattle.word_laws.specs.Grammar.{TakesGrammar};
ghost use Rattle.command_words.specs.Cached.{CachedRun, cached_for};
ghost use Rattle.command_words.specs.Words.{is_operand, most_made, workload, workload_for};

/// Words of the grammar are never refused, and ask for what they say: each command with a script,
/// `plan` with one of its flags before the script or behind it, and `run` with any of its options,
/// each once and with a value of its kind, in any order and with the script among them. A script,
/// or the file of a plan, is a word that is not empty and does not begin with `-`.
pub fn grammar_law(script: &str)
    requires { is_operand script.now ≡ true }
    ensures { TakesGrammar script.now }
{}

/// Words of `make` with two numbers, neither of them too great, are never refused, and ask for what
/// they say.
pub fn make_law()
    ensures { (program : List ℕ) (start rows : ℕ) → start ≤ most_made → rows ≤ most_made →
        workload_for (program ∷ codes "make" ∷ decimal start ∷ decimal rows ∷ [])
        ≡ Some (workload start rows) }
{}

/// Words of a cached run of a script are never refused, with the flag before the script or behind
/// it. A script is a word that is not empty and does not begin with `-`.
pub fn cached_law(script: &str)
    requires { is_operand script.now ≡ true }
    ensures { TakesCached script.now }
{}

/// Each run that words of a cached run ask for, some words ask for without a cache.
pub fn plain_law()
    ensures { (words : List (List ℕ)) (run : CachedRun) → cached_for words ≡ Some run →
        HasPlainWords run }
{}
