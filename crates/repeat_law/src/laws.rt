// The laws of repeats: what the turns of a repeat come to in the meaning of a script.
ghost use Rattle.std.specs.Prelude.{◌≡◌, ℕ, suc, ◌<◌, ◌≤◌, ◌-◌, List, [], ◌∷◌, ◌++◌, Ok, Option};
ghost use Rattle.std.specs.Prelude.{Some, IsTrue, map, slice_get, take};
ghost use Rattle.std.specs.Option.{option_map};
ghost use Rattle.flume_value.specs.declared.value.Value.{Value};
ghost use Rattle.flume_collection.specs.Collection.{Collection};
ghost use Rattle.flume_grammar.specs.declared.tree.Repeat.{Repeat as WrittenRepeat};
ghost use Rattle.flume_grammar.specs.declared.tree.Statement.{Statement};
ghost use Rattle.written_types.specs.Named.{Named};
ghost use Rattle.script_program.specs.Needed.{is_needed};
ghost use Rattle.script_program.specs.Script.{Function, Node, Script, State};
ghost use Rattle.script_rules.specs.Repeats.{Repeat, name_in_turn, last_gives, unrolled};
ghost use Rattle.script_rules.specs.Rules.{Repeated, repeated, script_of};
ghost use Rattle.script_laws.specs.Fitting.{RepeatFits};
ghost use Rattle.script_laws.specs.WellFormed.{AllFit, IsWellFormed};
ghost use Rattle.direct_meaning.specs.Direct.{made_at, meaning};
ghost use Rattle.repeat_law.specs.Reading.{HasRepeat, IsClosedRepeat, IsUnrolled, let_repeat, let_number};
ghost use Rattle.repeat_law.specs.Turns.{MeansTurns, turn_over, turns};
ghost use Rattle.repeat_law.specs.Worked.{called_nodes, calls, doubled_nodes, doubles, sevens};

/// The body of a repeat is checked once: what the rules accept fits, it then reads what stands in
/// front of it alone, and the collections of all its turns fit.
pub fn fitting_law()
    ensures rules { (line : ℕ) (names : List (List ℕ)) (written : WrittenRepeat) (s : State)
        (it : Repeated) → repeated line names written s ≡ Ok it →
        RepeatFits s.functions s.nodes it.repeat }
    ensures sound { (functions : Named Function) (before : Named Node) (repeat : Repeat) →
        RepeatFits functions before repeat → IsClosedRepeat repeat }
    ensures unrolled { (functions : Named Function) (before : Named Node) (repeat : Repeat) →
        RepeatFits functions before repeat → AllFit functions before (unrolled repeat) }
{}

/// The turns of a repeat: what enters where none is left, and else what the later ones make of what
/// the first gives.
pub fn turns_law()
    ensures ended { (functions : Named Function) (origin : ℕ → ℕ → ℕ) (repeat : Repeat)
        (outside : List (Option Collection)) (turn last : ℕ)
        (entering : List (Option Collection)) → last < turn →
        turns functions origin repeat outside turn last entering ≡ entering }
    ensures goes_on { (functions : Named Function) (origin : ℕ → ℕ → ℕ) (repeat : Repeat)
        (outside : List (Option Collection)) (turn last : ℕ)
        (entering : List (Option Collection)) → turn ≤ last →
        turns functions origin repeat outside turn last entering
        ≡ turns functions origin repeat outside (suc turn) last
        (turn_over functions origin repeat outside turn entering) }
{}

/// In the meaning of a script each needed collection that the last turn of a repeat gives is what
/// the turns make of the collections that enter the first one. Each let with repeat of an accepted
/// script is such a repeat.
pub fn repeat_law()
    ensures means { (script : Script) (repeat : Repeat) → IsWellFormed script →
        IsClosedRepeat repeat → HasRepeat script repeat → MeansTurns script repeat }
    ensures accepted { (before after : List Statement) (line : ℕ) (names : List (List ℕ))
        (written : WrittenRepeat) (script : Script) →
        script_of (before ++ let_repeat line names written ∷ after) ≡ Ok script →
        (let_ : IsUnrolled before line names written script)
        × MeansTurns script let_.it.repeat }
{}

/// The collection whose number own traps of a let in a turn carry is the one of that let in that
/// turn; of a call with several outputs that of its first.
pub fn origin_law()
    ensures named { (script : Script) (repeat : Repeat) (turn place : ℕ) (entry : List ℕ × Node) →
        HasRepeat script repeat → 1 ≤ turn → turn ≤ repeat.turns →
        slice_get repeat.body place ≡ Some entry →
        option_map (λ (node : List ℕ × Node). node.0)
        (slice_get script.nodes (let_number repeat turn place))
        ≡ Some (name_in_turn turn entry.0) }
    ensures first { (repeat : Repeat) (turn place output : ℕ) → output ≤ place →
        let_number repeat turn place - output ≡ let_number repeat turn (place - output) }
{}

/// Three calls one after another, and a collection put together with itself three times.
pub fn worked_law()
    ensures calls { unrolled calls ≡ called_nodes }
    ensures gives { last_gives calls ≡ 3 ∷ [] }
    ensures doubles { unrolled doubles ≡ doubled_nodes }
    ensures eight { turns [] (let_number doubles) doubles (sevens 1) 1 3 (sevens 1) ≡ sevens 8 }
{}
