// The rules of a let with repeat: what enters it, the lets of its body, and what it gives.
ghost use Rattle.std.specs.Prelude.{◌≡◌, ◌≤◌, ◌<◌, ◌+◌, ◌*◌, List, drop, length, map, IfOk, OnOk};
ghost use Rattle.std.specs.List.{All};
ghost use Rattle.flume_types.specs.declared.types.Ty.{Ty};
ghost use Rattle.type_table.specs.Table.{Extends};
ghost use Rattle.operation_check.specs.of_written_types.Answer.{Gives, or_fault, unless};
ghost use Rattle.operation_check.specs.of_expression_check.Numbers.{number_within as within};
ghost use Rattle.script_program.specs.Program.{making_in};
ghost use Rattle.script_state.specs.Held.{operand_in};
ghost use Rattle.script_program.specs.Script.{Making as Meant, with_front, with_hidden, with_nodes};
ghost use Rattle.script_rules.specs.Rules as spec;
ghost use Rattle.let_check.specs.inner.Held.{entry_in, repeat_in};
ghost use Rattle.let_check.specs.inner.Names.{AreFree, AreNew};

use crate::definitions::room;
use crate::lets::{add_all, add_let, all_fresh};
use crate::turns::{Repeat, unroll};
use combine_table::Comb;
use flume_grammar::{Repeat as Written, ScriptFault, ScriptKind, TurnLet};
use flume_value::{Pile, Str};
use operation_check::expression_check::number_within;
use operation_check::written_types::refused;
use operation_check::{collections, numbers};
use script_program::{MOST_COLLECTIONS, Made, Making};
use script_state::{Operand, State};
use std::alloc::{AllocError, Global};
use type_table::Types;

/// What enters the first turn of a repeat, and how many turns it has.
#[derive(Drop)]
pub struct Entry {
    pub from: Pile<Operand>,
    pub turns: u32,
}

/// A let with repeat.
pub fn rule_repeat(
    alloc: Global,
    line: u32,
    names: Pile<Str>,
    written: Written,
    state: &mut State,
) -> Result<(), ScriptFault>
    ensures { Gives (λ _. state.new.state) result
        (spec.rule_repeat line names written state.old.state) }
{
    let first = state.name_count();
    let repeat = repeated(alloc, line, names.as_slice(), written, state)?;
    unroll(alloc, first, repeat, state)?;
    Ok(())
}

/// The repeat of a let of these names, behind which its body stands no more.
fn repeated(
    alloc: Global,
    line: u32,
    names: &[Str],
    written: Written,
    state: &mut State,
) -> Result<Repeat, ScriptFault>
    ensures gives { Gives (λ repeat. record {
      repeat = repeat_in state.new.types repeat;
      behind = state.new.state;
    }) result (spec.repeated line names.now written state.old.state) }
    ensures outside { IfOk result (λ repeat.
        length state.new.state.nodes ≡ repeat.outside) }
    ensures few { IfOk result (λ repeat.
        repeat.outside + repeat.turns * length repeat.body ≤ 1024) }
    ensures typed { IfOk result (λ repeat.
        All (λ entry. entry.1.ty < length state.new.types) repeat.body) }
{
    let outside = state.node_count();
    let entry = entry_for(alloc, line, names, &written, state)?;
    let Written {
        turns: _turns,
        from: _from,
        entering,
        lets,
        gives,
    } = written;
    enter(alloc, entering, entry.from.as_slice(), state)?;
    after_entry(alloc, line, lets, gives, entry, outside, state)
}

/// What enters a repeat, whose let's names are taken from here on.
fn entry_for(
    alloc: Global,
    line: u32,
    names: &[Str],
    written: &Written,
    state: &mut State,
) -> Result<Entry, ScriptFault>
    ensures gives { Gives (entry_in state.new.types) result
        (spec.repeat_entry line names.now written.now state.old.state) }
    ensures new { OnOk result ((makings : List Meant) →
        AreNew written.now.entering makings state.new.state) }
    ensures within { IfOk result (λ entry.
        All (λ source. source.ty < length state.new.types) entry.from) }
    ensures state { OnOk result (state.new.state ≡ with_hidden names.now state.old.state) }
    ensures types { state.new.types ≡ state.old.types }
{
    all_fresh(line, names, state)?;
    hide_all(alloc, names, state)?;
    all_fresh(line, written.entering.as_slice(), state)?;
    let from = collections(alloc, line, written.from.as_slice(), state)?;
    let turns = turns_for(line, &written.turns)?;
    as_many(line, names.len(), written)?;
    Ok(Entry { from, turns })
}

/// Takes these names, which then stand for no collection.
fn hide_all(alloc: Global, names: &[Str], state: &mut State) -> Result<(), AllocError>
    requires { AreFree names.now state.old.state }
    ensures state { OnOk result (state.new.state ≡ with_hidden names.now state.old.state) }
    ensures types { state.new.types ≡ state.old.types }
{
    for name in names {
        state.hide(alloc, name)?;
    }
    Ok(())
}

/// How many turns there are, from 1 to 256.
fn turns_for(line: u32, digits: &Str) -> Result<u32, ScriptFault>
    ensures { Gives (λ turns. turns) result
        (or_fault line ScriptKind.BadNumber (within 1 256 digits.now)) }
{
    match number_within(1, 256, digits) {
        Some(turns) => Ok(turns),
        None => Err(refused(line, ScriptKind::BadNumber)),
    }
}

/// As many names in each place as in front of the `=`.
fn as_many(line: u32, count: usize, written: &Written) -> Result<(), ScriptFault>
    ensures { Gives (λ _. tt) result
        (unless line ScriptKind.Mistyped (spec.as_many count written.now)) }
{
    if written.from.len() == count
        && written.entering.len() == count
        && written.gives.len() == count
    {
        Ok(())
    } else {
        Err(refused(line, ScriptKind::Mistyped))
    }
}

/// Gives what enters its names in the body.
fn enter(
    alloc: Global,
    entering: Pile<Str>,
    from: &[Operand],
    state: &mut State,
) -> Result<(), AllocError>
    requires new { (makings : List Meant) → AreNew entering makings state.old.state }
    requires within { All (λ source. source.ty < length state.old.types) from.now }
    ensures state { OnOk result (state.new.state ≡ with_nodes entering
        (map spec.entered (map (operand_in state.old.types) from.now)) state.old.state) }
    ensures types { state.new.types ≡ state.old.types }
{
    let makings = entered(alloc, from)?;
    add_all(alloc, entering, makings, state)
}

/// What enters a turn, as the body sees it.
fn entered(alloc: Global, from: &[Operand]) -> Result<Pile<Making>, AllocError>
    ensures made { (types : List Ty) → IfOk result (λ makings.
        map (making_in types) makings ≡ map spec.entered (map (operand_in types) from.now)) }
    ensures within { (types : List Ty) →
        All (λ source. source.ty < length types) from.now →
        IfOk result (All (λ making. making.ty < length types)) }
{
    let mut makings = Pile::new(alloc);
    for source in from {
        makings.push(entered_one(alloc, source)?)?;
    }
    Ok(makings)
}

fn entered_one(alloc: Global, source: &Operand) -> Result<Making, AllocError>
    ensures made { (types : List Ty) → IfOk result (λ making.
        making_in types making ≡ spec.entered (operand_in types source.now)) }
    ensures same { IfOk result (λ making. making.ty ≡ source.now.ty) }
{
    let made = again(alloc, source.is_object, source.number)?;
    Ok(Making {
        made,
        ty: source.ty,
    })
}

/// The collection of this number again.
fn again(alloc: Global, is_object: bool, number: usize) -> Result<Made, AllocError>
    ensures { IfOk result (λ made. made ≡ spec.again is_object number) }
{
    if is_object {
        return Ok(Made::CombineAll {
            source: number,
            by: Comb::Min,
        });
    }
    let mut sources = Pile::new(alloc);
    sources.push(number)?;
    Ok(Made::Flatten { sources })
}

/// The repeat whose lets and given names are these, behind what enters it.
fn after_entry(
    alloc: Global,
    line: u32,
    lets: Pile<TurnLet>,
    gives: Pile<Str>,
    entry: Entry,
    outside: usize,
    state: &mut State,
) -> Result<Repeat, ScriptFault>
    requires outside { outside ≤ length state.old.state.nodes }
    requires within { All (λ source. source.ty < length state.old.types) entry.from }
    ensures gives { Gives (λ repeat. record {
      repeat = repeat_in state.new.types repeat;
      behind = state.new.state;
    }) result (spec.after_entry line lets gives (entry_in state.old.types entry) outside
        state.old.state) }
    ensures outside { IfOk result (λ repeat.
        length state.new.state.nodes ≡ repeat.outside) }
    ensures few { IfOk result (λ repeat.
        repeat.outside + repeat.turns * length repeat.body ≤ 1024) }
    ensures typed { IfOk result (λ repeat.
        All (λ entry. entry.1.ty < length state.new.types) repeat.body) }
{
    let front = state.node_count();
    add_lets(alloc, lets, state)?;
    repeat_for(alloc, line, gives.as_slice(), entry, outside, front, state)
}

/// The lets of a body in order, each on its own line.
fn add_lets(alloc: Global, lets: Pile<TurnLet>, state: &mut State) -> Result<(), ScriptFault>
    ensures gives { Gives (λ _. state.new.state) result
        (spec.all_named lets state.old.state) }
    ensures extends { Extends state.old.types state.new.types }
{
    for it in lets.into_vec() {
        add_let(alloc, it, state)?;
    }
    Ok(())
}

/// The repeat whose body stands behind so many collections, and is taken out.
fn repeat_for(
    alloc: Global,
    line: u32,
    gives: &[Str],
    entry: Entry,
    outside: usize,
    front: usize,
    state: &mut State,
) -> Result<Repeat, ScriptFault>
    requires outside { outside ≤ front }
    requires front { front ≤ length state.old.state.nodes }
    requires within { All (λ source. source.ty < length state.old.types) entry.from }
    ensures gives { Gives (repeat_in state.new.types) result (spec.repeat_of line gives.now
        (entry_in state.old.types entry) outside front state.old.state) }
    ensures outside { IfOk result (λ repeat. repeat.outside ≡ outside) }
    ensures few { IfOk result (λ repeat.
        repeat.outside + repeat.turns * length repeat.body ≤ 1024) }
    ensures typed { IfOk result (λ repeat.
        All (λ entry. entry.1.ty < length state.new.types) repeat.body) }
    ensures state { OnOk result (state.new.state ≡ with_front outside state.old.state) }
    ensures types { state.new.types ≡ state.old.types }
{
    let gives = gives_for(alloc, line, gives, entry.from.as_slice(), state)?;
    room_for(line, outside, entry.turns, state.node_count() - front)?;
    let from = numbers(alloc, entry.from.as_slice())?;
    let body = state.cut(alloc, outside, front)?;
    Ok(Repeat {
        outside,
        turns: entry.turns,
        from,
        body,
        gives,
    })
}

/// The numbers of the collections of these names, each of the type and the kind of the one that
/// enters.
fn gives_for(
    alloc: Global,
    line: u32,
    names: &[Str],
    from: &[Operand],
    state: &State,
) -> Result<Pile<usize>, ScriptFault>
    requires { All (λ source. source.ty < length state.now.types) from.now }
    ensures { Gives (λ gives. gives) result (spec.repeat_gives line names.now
        (map (operand_in state.now.types) from.now) state.now.state) }
{
    let given = collections(alloc, line, names, state)?;
    if !alike(from, given.as_slice(), state.types()) {
        return Err(refused(line, ScriptKind::Mistyped));
    }
    Ok(numbers(alloc, given.as_slice())?)
}

/// Whether these are as many collections, each like the other.
fn alike(from: &[Operand], given: &[Operand], types: &Types) -> bool
    requires from { All (λ source. source.ty < length types.now) from.now }
    requires given { All (λ source. source.ty < length types.now) given.now }
    ensures { result ≡ spec.alike (map (operand_in types.now) from.now)
        (map (operand_in types.now) given.now) }
{
    if from.len() != given.len() {
        return false;
    }
    for place in 0..from.len() {
        let like = same_kind(from[place].is_object, given[place].is_object);
        if !types.same(from[place].ty, given[place].ty) || !like {
            return false;
        }
    }
    true
}

/// Whether both are objects or none is.
fn same_kind(one: bool, other: bool) -> bool
    ensures { result ≡ spec.same_kind one other }
{
    if one { other } else { !other }
}

/// Room for so many turns of so many lets.
fn room_for(line: u32, outside: usize, turns: u32, lets: usize) -> Result<(), ScriptFault>
    ensures gives { Gives (λ _. tt) result (spec.room_for line outside turns lets) }
    ensures few { OnOk result (outside + turns * lets ≤ 1024) }
{
    match (turns as usize).checked_mul(lets) {
        Some(more) => room(line, more, outside, MOST_COLLECTIONS),
        None => Err(refused(line, ScriptKind::TooMany)),
    }
}
