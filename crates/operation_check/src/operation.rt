// The check of each operation: the collections that it makes, or its first fault.
ghost use Rattle.std.specs.Prelude.{◌≡◌, ℕ, ◌<◌, List, length, map, not, IfOk};
ghost use Rattle.std.specs.List.{All};
ghost use Rattle.flume_types.specs.declared.types.Ty.{Ty};
ghost use Rattle.type_table.specs.Table.{type_at, Extends};
ghost use Rattle.script_program.specs.of_written_types.Answer.{Checked, Gives, unless};
ghost use Rattle.script_program.specs.of_expression_types.Held.{AreTypes};
ghost use Rattle.script_rules.specs.Operations as spec;
ghost use Rattle.script_program.specs.Program.{HasTypes, making_in};
ghost use Rattle.script_state.specs.Held.{operand_in, callee_in};
ghost use Rattle.script_program.specs.Script.{Making as Meant};

use crate::combiner::{comb_of, combined};
use crate::flatten::flatten;
use crate::objects::{combined_whole, done_beside, operated};
use crate::pairs::{member_of, pair_of};
use crate::sides::sides;
use crate::top::top_number;
use combine_table::Comb;
use flume_grammar::{Combiner, Operation, ScriptFault, ScriptKind};
use flume_value::{Pile, Str};
use script_program::written_types::refused;
use script_program::{Made, Making};
use script_state::{Callee, Operand, State};
use std::alloc::{AllocError, Global};
use type_table::{Shape, TypeId};

/// The collections that an operation makes, one for each name. Nothing else changes.
pub fn made_by(
    alloc: Global,
    line: u32,
    by: &Operation,
    state: &mut State,
) -> Result<Pile<Making>, ScriptFault>
    ensures gives { Gives (map (making_in state.new.types)) result
        (spec.made_by line by.now state.old.state) }
    ensures within { IfOk result (All (λ making. making.ty < length state.new.types)) }
    ensures extends { Extends state.old.types state.new.types }
    ensures state { state.new.state ≡ state.old.state }
{
    match by {
        Operation::Do(source, function) => done(alloc, line, source, function, state),
        Operation::Group(source) => alone(alloc, grouped(alloc, line, source, state)),
        Operation::Combine(source, combiner) => {
            alone(alloc, combination(alloc, line, source, combiner, state))
        }
        Operation::Flatten(sources) => {
            alone(alloc, flatten(alloc, line, sources.as_slice(), state))
        }
        Operation::Count(source) => alone(alloc, counted(alloc, line, source, state)),
        Operation::Join(left, right) => alone(alloc, joined(alloc, line, left, right, state)),
        Operation::Top(digits, source) => alone(alloc, greatest(line, digits, source, state)),
        Operation::CombineAll(source, combiner) => {
            alone(alloc, combined_whole(line, source, combiner, state))
        }
        Operation::Operate(objects, function) => {
            alone(
                alloc,
                operated(alloc, line, objects.as_slice(), function, state),
            )
        }
        Operation::DoWith(source, function, object) => {
            alone(alloc, done_beside(line, source, function, object, state))
        }
    }
}

/// The one collection that an operation makes.
fn alone(alloc: Global, making: Result<Making, ScriptFault>) -> Result<Pile<Making>, ScriptFault>
    ensures gives { (types : List Ty) (meant : Checked Meant) →
        Gives (making_in types) making meant →
        Gives (map (making_in types)) result (spec.one_making meant) }
    ensures within { (n : ℕ) → IfOk making (λ making. making.ty < n) →
        IfOk result (All (λ making. making.ty < n)) }
{
    let making = making?;
    let mut makings = Pile::new(alloc);
    makings.push(making)?;
    Ok(makings)
}

/// The collection of a name.
pub fn collection(line: u32, name: &Str, state: &State) -> Result<Operand, ScriptFault>
    ensures gives { Gives (operand_in state.now.types) result
        (spec.operand_named line name.now state.now.state) }
    ensures within { IfOk result (λ source. source.ty < length state.now.types) }
{
    match state.node(name) {
        Some(source) => Ok(source),
        None => Err(refused(line, ScriptKind::Unknown)),
    }
}

/// A collection that is no object: whether it is one is told.
pub fn plain(line: u32, is_object: bool) -> Result<(), ScriptFault>
    ensures { Gives (λ _. tt) result (unless line ScriptKind.Mistyped (not is_object)) }
{
    if is_object {
        Err(refused(line, ScriptKind::Mistyped))
    } else {
        Ok(())
    }
}

/// The function of a name.
pub fn callee<'a>(line: u32, name: &Str, state: &'a State) -> Result<Callee<'a>, ScriptFault>
    ensures gives { Gives (callee_in state.now.types) result
        (spec.callee line name.now state.now.state) }
    ensures within { IfOk result (λ callee. HasTypes state.now.types callee.signature.now) }
{
    match state.function(name) {
        Some(callee) => Ok(callee),
        None => Err(refused(line, ScriptKind::Unknown)),
    }
}

/// What a function emits from each member of a collection, by their names.
fn done(
    alloc: Global,
    line: u32,
    source: &Str,
    function: &Str,
    state: &State,
) -> Result<Pile<Making>, ScriptFault>
    ensures gives { Gives (map (making_in state.now.types)) result
        (spec.done line source.now function.now state.now.state) }
    ensures within { IfOk result (All (λ making. making.ty < length state.now.types)) }
{
    let source = collection(line, source, state)?;
    let function = callee(line, function, state)?;
    do_of(alloc, line, source, function, state)
}

/// What a function emits from each member, to each of its outputs in order.
fn do_of(
    alloc: Global,
    line: u32,
    source: Operand,
    function: Callee<'_>,
    state: &State,
) -> Result<Pile<Making>, ScriptFault>
    requires source { source.ty < length state.now.types }
    requires function { HasTypes state.now.types function.signature.now }
    ensures gives { Gives (map (making_in state.now.types)) result (spec.do_of line
        (operand_in state.now.types source) (callee_in state.now.types function.entry)) }
    ensures within { IfOk result (All (λ making. making.ty < length state.now.types)) }
{
    if source.is_object || !state.types().same(source.ty, function.signature.takes) {
        return Err(refused(line, ScriptKind::Mistyped));
    }
    let gives = function.signature.gives.as_slice();
    Ok(outputs(alloc, source.number, function.number, gives)?)
}

/// What a function emits from each member, to outputs of these types.
fn outputs(
    alloc: Global,
    source: usize,
    function: usize,
    gives: &[TypeId],
) -> Result<Pile<Making>, AllocError>
    ensures makings { (types : List Ty) → IfOk result (λ makings. map (making_in types) makings
        ≡ spec.outputs_from source function 0 (map (type_at types) gives.now)) }
    ensures within { (n : ℕ) → AreTypes n gives.now →
        IfOk result (All (λ making. making.ty < n)) }
{
    let mut makings = Pile::new(alloc);
    for output in 0..gives.len() {
        let made = Made::Do {
            source,
            function,
            output,
        };
        let ty = gives[output];
        makings.push(Making { made, ty })?;
    }
    Ok(makings)
}

/// The groups of a table, by its name.
fn grouped(alloc: Global, line: u32, source: &Str, state: &mut State) -> Result<Making, ScriptFault>
    ensures gives { Gives (making_in state.new.types) result
        (spec.group_rule line source.now state.old.state) }
    ensures within { IfOk result (λ making. making.ty < length state.new.types) }
    ensures extends { Extends state.old.types state.new.types }
    ensures state { state.new.state ≡ state.old.state }
{
    let source = collection(line, source, state)?;
    group_of(alloc, line, source, state)
}

/// The combined lists of groups, by their name.
fn combination(
    alloc: Global,
    line: u32,
    source: &Str,
    combiner: &Combiner,
    state: &mut State,
) -> Result<Making, ScriptFault>
    ensures gives { Gives (making_in state.new.types) result
        (spec.combine_rule line source.now combiner.now state.old.state) }
    ensures within { IfOk result (λ making. making.ty < length state.new.types) }
    ensures extends { Extends state.old.types state.new.types }
    ensures state { state.new.state ≡ state.old.state }
{
    let source = collection(line, source, state)?;
    let by = comb_of(line, combiner)?;
    combine_of(alloc, line, source, by, state)
}

/// The distinct members of a collection, by its name, with how often each occurs.
fn counted(alloc: Global, line: u32, source: &Str, state: &mut State) -> Result<Making, ScriptFault>
    ensures gives { Gives (making_in state.new.types) result
        (spec.count_rule line source.now state.old.state) }
    ensures within { IfOk result (λ making. making.ty < length state.new.types) }
    ensures extends { Extends state.old.types state.new.types }
    ensures state { state.new.state ≡ state.old.state }
{
    let source = collection(line, source, state)?;
    plain(line, source.is_object)?;
    let making = count_of(alloc, source, state)?;
    Ok(making)
}

/// The lists of both sides, by key, by the names of the sides.
fn joined(
    alloc: Global,
    line: u32,
    left: &Str,
    right: &Str,
    state: &mut State,
) -> Result<Making, ScriptFault>
    ensures gives { Gives (making_in state.new.types) result
        (spec.join_rule line left.now right.now state.old.state) }
    ensures within { IfOk result (λ making. making.ty < length state.new.types) }
    ensures extends { Extends state.old.types state.new.types }
    ensures state { state.new.state ≡ state.old.state }
{
    let left = collection(line, left, state)?;
    let right = collection(line, right, state)?;
    join_of(alloc, line, left, right, state)
}

/// So many of the greatest members of a collection, by its name.
fn greatest(line: u32, digits: &Str, source: &Str, state: &State) -> Result<Making, ScriptFault>
    ensures gives { Gives (making_in state.now.types) result
        (spec.top_rule line digits.now source.now state.now.state) }
    ensures within { IfOk result (λ making. making.ty < length state.now.types) }
{
    let source = collection(line, source, state)?;
    let number = top_number(line, digits)?;
    plain(line, source.is_object)?;
    Ok(top_of(number, source))
}

/// The groups of a table.
fn group_of(
    alloc: Global,
    line: u32,
    source: Operand,
    state: &mut State,
) -> Result<Making, ScriptFault>
    requires { source.ty < length state.old.types }
    ensures gives { Gives (making_in state.new.types) result
        (spec.group_making line (operand_in state.old.types source)) }
    ensures within { IfOk result (λ making. making.ty < length state.new.types) }
    ensures extends { Extends state.old.types state.new.types }
    ensures state { state.new.state ≡ state.old.state }
{
    let pair = pair_of(line, source.ty, state.types())?;
    plain(line, source.is_object)?;
    let values = state.intern(Shape::List(pair.value))?;
    let ty = state.table(alloc, pair.key, values)?;
    let made = Made::Group {
        source: source.number,
    };
    Ok(Making { made, ty })
}

/// The combined lists of groups.
fn combine_of(
    alloc: Global,
    line: u32,
    source: Operand,
    by: Comb,
    state: &mut State,
) -> Result<Making, ScriptFault>
    requires { source.ty < length state.old.types }
    ensures gives { Gives (making_in state.new.types) result
        (spec.combine_of line (operand_in state.old.types source) by) }
    ensures within { IfOk result (λ making. making.ty < length state.new.types) }
    ensures extends { Extends state.old.types state.new.types }
    ensures state { state.new.state ≡ state.old.state }
{
    let pair = pair_of(line, source.ty, state.types())?;
    let member = member_of(line, pair.value, state.types())?;
    plain(line, source.is_object)?;
    let value = combined(line, by, member, state)?;
    let ty = state.table(alloc, pair.key, value)?;
    let made = Made::Combine {
        source: source.number,
        by,
    };
    Ok(Making { made, ty })
}

/// The distinct members, with how often each occurs.
fn count_of(alloc: Global, source: Operand, state: &mut State) -> Result<Making, AllocError>
    requires { source.ty < length state.old.types }
    ensures ok { IfOk result (λ making. making_in state.new.types making
        ≡ spec.count_making (operand_in state.old.types source)) }
    ensures within { IfOk result (λ making. making.ty < length state.new.types) }
    ensures extends { Extends state.old.types state.new.types }
    ensures state { state.new.state ≡ state.old.state }
{
    let count = state.intern(Shape::Int)?;
    let ty = state.table(alloc, source.ty, count)?;
    let made = Made::Count {
        source: source.number,
    };
    Ok(Making { made, ty })
}

/// The lists of both sides, by key.
fn join_of(
    alloc: Global,
    line: u32,
    left: Operand,
    right: Operand,
    state: &mut State,
) -> Result<Making, ScriptFault>
    requires left { left.ty < length state.old.types }
    requires right { right.ty < length state.old.types }
    ensures gives { Gives (making_in state.new.types) result (spec.join_of line
        (operand_in state.old.types left) (operand_in state.old.types right)) }
    ensures within { IfOk result (λ making. making.ty < length state.new.types) }
    ensures extends { Extends state.old.types state.new.types }
    ensures state { state.new.state ≡ state.old.state }
{
    let lefts = pair_of(line, left.ty, state.types())?;
    let rights = pair_of(line, right.ty, state.types())?;
    if left.is_object || right.is_object || !state.types().same(lefts.key, rights.key) {
        return Err(refused(line, ScriptKind::Mistyped));
    }
    let sides = sides(alloc, lefts.value, rights.value, state)?;
    let ty = state.table(alloc, lefts.key, sides)?;
    let made = Made::Join {
        left: left.number,
        right: right.number,
    };
    Ok(Making { made, ty })
}

/// So many of the greatest members.
fn top_of(number: u32, source: Operand) -> Making
    ensures made { (types : List Ty) →
        making_in types result ≡ spec.top_of number (operand_in types source) }
    ensures same { result.ty ≡ source.ty }
{
    let made = Made::Top {
        number,
        source: source.number,
    };
    Making {
        made,
        ty: source.ty,
    }
}
