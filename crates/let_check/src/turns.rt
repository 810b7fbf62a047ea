// The turns of a repeat, each a copy of its body behind the collections there are.
ghost use Rattle.std.specs.Prelude.{◌≡◌, ◌≤◌, ◌<◌, ◌+◌, ◌-◌, ◌*◌, ◌++◌, ◌∷◌, [], length, map};
ghost use Rattle.std.specs.Prelude.{IfOk, OnOk};
ghost use Rattle.std.specs.List.{All, range_with_len};
ghost use Rattle.script_program.specs.Script.{with_copies};
ghost use Rattle.script_program.specs.inner.Tables.{node_of};
ghost use Rattle.script_rules.specs.Repeats as spec;
ghost use Rattle.script_rules.specs.Rules.{with_repeat};
ghost use Rattle.let_check.specs.inner.Held.{repeat_in};

use crate::renumbering::{renumbered, stand_for_all};
use flume_value::{Pile, Str};
use itoa::Buffer;
use script_program::Node;
use script_state::State;
use std::alloc::{AllocError, Global};

/// A repeat: how many collections stand outside it, how many turns it has, what enters the first,
/// the lets of its body, and what a turn gives, by the body's own order.
#[derive(Drop)]
pub struct Repeat {
    pub outside: usize,
    pub turns: u32,
    pub from: Pile<usize>,
    pub body: Pile<(Str, Node)>,
    pub gives: Pile<usize>,
}

/// Puts the turns of a repeat behind the collections outside it. Of the names from that place on
/// the first stand for what the last turn gives, and those behind them for nothing.
pub fn unroll(
    alloc: Global,
    first: usize,
    repeat: Repeat,
    state: &mut State,
) -> Result<(), AllocError>
    requires outside { length state.old.state.nodes ≡ repeat.outside }
    requires few { repeat.outside + repeat.turns * length repeat.body ≤ 1024 }
    requires typed { All (λ entry. entry.1.ty < length state.old.types) repeat.body }
    ensures { OnOk result (state.new.state
        ≡ with_repeat (repeat_in state.old.types repeat) first state.old.state) }
{
    let last = add_turns(alloc, &repeat, state)?;
    state.give(first, last.as_slice());
    Ok(())
}

/// The collections of all turns; what the last one gives is answered.
fn add_turns(alloc: Global, repeat: &Repeat, state: &mut State) -> Result<Pile<usize>, AllocError>
    requires outside { length state.old.state.nodes ≡ repeat.now.outside }
    requires few { repeat.now.outside + repeat.now.turns * length repeat.now.body ≤ 1024 }
    requires typed { All (λ entry. entry.1.ty < length state.old.types) repeat.now.body }
    ensures last { IfOk result (λ last.
        last ≡ spec.last_gives (repeat_in state.old.types repeat.now)) }
    ensures state { OnOk result (state.new.state
        ≡ with_copies (spec.unrolled (repeat_in state.old.types repeat.now)) state.old.state) }
    ensures types { state.new.types ≡ state.old.types }
{
    let mut entering = Pile::from_vec(Vec::from_slice(alloc, repeat.from.as_slice())?);
    for turn in 0..repeat.turns {
        entering = add_turn(alloc, turn + 1, repeat, entering.as_slice(), state)?;
    }
    Ok(entering)
}

/// The collections of a turn that these enter; what it gives is answered.
fn add_turn(
    alloc: Global,
    turn: u32,
    repeat: &Repeat,
    entering: &[usize],
    state: &mut State,
) -> Result<Pile<usize>, AllocError>
    requires few { length state.old.state.nodes + length repeat.now.body ≤ 1024 }
    requires typed { All (λ entry. entry.1.ty < length state.old.types) repeat.now.body }
    ensures gives { IfOk result (λ given. given ≡ spec.turn_gives
        (repeat_in state.old.types repeat.now) entering.now (length state.old.state.nodes)) }
    ensures state { OnOk result (state.new.state ≡ with_copies (spec.turn_nodes
        (repeat_in state.old.types repeat.now) entering.now (length state.old.state.nodes) turn)
        state.old.state) }
    ensures types { state.new.types ≡ state.old.types }
{
    let start = state.node_count();
    let seen = seen(alloc, entering, start, start + repeat.body.len())?;
    add_copies(alloc, turn, repeat, seen.as_slice(), state)?;
    let gives = repeat.gives.as_slice();
    stand_for_all(alloc, repeat.outside, seen.as_slice(), gives)
}

/// What a turn sees beside the collections outside: those that enter it, and its own lets, of these
/// numbers.
fn seen(
    alloc: Global,
    entering: &[usize],
    start: usize,
    end: usize,
) -> Result<Pile<usize>, AllocError>
    requires { start ≤ end }
    ensures { IfOk result (λ seen.
        seen ≡ entering.now ++ range_with_len start (end - start)) }
{
    let mut seen = Vec::from_slice(alloc, entering)?;
    for number in start..end {
        seen.push(number)?;
    }
    Ok(Pile::from_vec(seen))
}

/// The copies of a body's lets in a turn.
fn add_copies(
    alloc: Global,
    turn: u32,
    repeat: &Repeat,
    seen: &[usize],
    state: &mut State,
) -> Result<(), AllocError>
    requires { All (λ entry. entry.1.ty < length state.old.types) repeat.now.body }
    ensures state { OnOk result (state.new.state ≡ with_copies
        (map (spec.copied_let turn (spec.stands_for repeat.now.outside seen.now))
        (map (node_of state.old.types) repeat.now.body)) state.old.state) }
    ensures types { state.new.types ≡ state.old.types }
{
    for entry in repeat.body.as_slice() {
        add_copy(alloc, turn, repeat.outside, seen, entry, state)?;
    }
    Ok(())
}

/// The copy of a let in a turn.
fn add_copy(
    alloc: Global,
    turn: u32,
    outside: usize,
    seen: &[usize],
    entry: &(Str, Node),
    state: &mut State,
) -> Result<(), AllocError>
    requires { entry.now.1.ty < length state.old.types }
    ensures state { OnOk result (state.new.state ≡ with_copies
        (spec.copied_let turn (spec.stands_for outside seen.now) (node_of state.old.types entry.now)
        ∷ []) state.old.state) }
    ensures types { state.new.types ≡ state.old.types }
{
    let (name, node) = entry;
    let name = in_turn(alloc, name, turn)?;
    let made = renumbered(alloc, outside, seen, &node.made)?;
    state.add_copy(
        name,
        Node {
            made,
            ty: node.ty,
            statement: node.statement,
        },
    )
}

/// The name of a let in a turn.
fn in_turn(alloc: Global, name: &Str, turn: u32) -> Result<Str, AllocError>
    ensures { IfOk result (λ text. text ≡ spec.name_in_turn turn name.now) }
{
    let mut text = Vec::from_slice(alloc, name.as_bytes())?;
    text.push(b'@')?;
    text.extend_from_slice(Buffer::new().format(turn).as_bytes())?;
    Str::from_vec(text)
}
