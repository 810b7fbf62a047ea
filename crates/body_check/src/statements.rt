// The check of statements, form by form, with slots in place of names.
ghost use Rattle.std.specs.Prelude.{◌≡◌, ◌<◌, [], None, length, IfOk, OnOk};
ghost use Rattle.flume_types.specs.declared.types.Ty.{out-Ty};
ghost use Rattle.expression_check.specs.of_type_table.Table.{type_at, Extends};
ghost use Rattle.expression_check.specs.of_written_types.Answer.{Gives};
ghost use Rattle.expression_check.specs.of_written_types.Named.{find, fresh};
ghost use Rattle.expression_check.specs.of_expression_types.Sight.{with_name};
ghost use Rattle.expression_check.specs.Slots.{slots_typed};
ghost use Rattle.expression_check.specs.of_expression_types.Types.{is_bool as is_bool_type};
ghost use Rattle.body_check.specs.inner.Frames.{IsBehind};
ghost use Rattle.body_check.specs.inner.Slots as spec;
ghost use Rattle.body_check.specs.inner.Slots.{placed_of};

use crate::emitted::{output_of, wanted};
use crate::frame::Frame;
use dofn_eval::{Block, Expr as Slots, Stmt};
use expression_check::Typed;
use expression_check::expression_types::{Sides, is_bool, member_of, sides_of};
use expression_check::type_table::TypeId;
use expression_check::written_types::refused;
use flume_grammar::{Body, Expr, ScriptFault, ScriptKind};
use flume_value::{Pile, Str};
use std::alloc::Global;

/// The two blocks of a statement.
#[derive(Clone, Copy)]
struct Branches<'a> {
    first: &'a Pile<Body>,
    second: &'a Pile<Body>,
}

/// The slots of two blocks.
#[derive(Drop)]
struct BothBlocks {
    first: Block,
    second: Block,
}

/// The names of the contents of an either's sides.
#[derive(Clone, Copy)]
struct SideNames<'a> {
    left: &'a Str,
    right: &'a Str,
}

/// Statements with slots in place of names; or their first fault. What they name stays in sight.
#[cycle(block)]
pub fn block(
    alloc: Global,
    statements: &[Body],
    frame: &mut Frame<'_>,
) -> Result<Block, ScriptFault>
    ensures gives { Gives (λ k. (k, frame.new.sight)) result
        (spec.block_slots (placed_of frame.old.gives) statements.now frame.old.sight []) }
    ensures extends { Extends frame.old.types frame.new.types }
    ensures known { frame.new.sight.known ≡ frame.old.sight.known }
    ensures kept { OnOk result (IsBehind frame.old.sight.names frame.new.sight.names) }
    ensures emits { frame.new.gives ≡ frame.old.gives }
{
    let mut slots = Pile::new(alloc);
    for statement in statements {
        let one = placed(alloc, statement, frame)?;
        slots.push(one)?;
    }
    Ok(slots)
}

// One statement with slots in place of names. What it names stays in sight.
#[cycle(block)]
#[tactic(auto, using(crate::proofs::PlacedLemmas::placed_rules))]
fn placed(alloc: Global, statement: &Body, frame: &mut Frame<'_>) -> Result<Stmt, ScriptFault>
    ensures gives { Gives (λ k. (k, frame.new.sight)) result
        (placed_of frame.old.gives statement.now frame.old.sight) }
    ensures extends { Extends frame.old.types frame.new.types }
    ensures known { frame.new.sight.known ≡ frame.old.sight.known }
    ensures kept { OnOk result (IsBehind frame.old.sight.names frame.new.sight.names) }
    ensures emits { frame.new.gives ≡ frame.old.gives }
{
    match statement {
        Body::Let(line, name, e) => place_let(alloc, *line, name, e, frame),
        Body::Emit(line, to, e) => place_emit(alloc, *line, to, e, frame),
        Body::If(line, e, a, b) => {
            let blocks = Branches {
                first: a,
                second: b,
            };
            place_if(alloc, *line, e, blocks, frame)
        }
        Body::For(line, name, e, body) => place_for(alloc, *line, name, e, body, frame),
        Body::Case(line, e, left, a, right, b) => {
            let names = SideNames { left, right };
            let blocks = Branches {
                first: a,
                second: b,
            };
            place_case(alloc, *line, e, names, blocks, frame)
        }
    }
}

fn place_let(
    alloc: Global,
    line: u32,
    name: &Str,
    e: &Expr,
    frame: &mut Frame<'_>,
) -> Result<Stmt, ScriptFault>
    ensures gives { Gives (λ k. (k, frame.new.sight)) result
        (spec.let_slots line name.now e.now frame.old.sight) }
    ensures extends { Extends frame.old.types frame.new.types }
    ensures known { frame.new.sight.known ≡ frame.old.sight.known }
    ensures kept { OnOk result (IsBehind frame.old.sight.names frame.new.sight.names) }
    ensures emits { frame.new.gives ≡ frame.old.gives }
{
    let x = new_value(alloc, line, name, e, frame)?;
    match frame.add(alloc, name, x.ty) {
        Ok(()) => Ok(Stmt::Let(x.expr)),
        Err(_) => {
            drop(x);
            Err(ScriptFault::Memory)
        }
    }
}

fn place_emit(
    alloc: Global,
    line: u32,
    to: &Option<Str>,
    e: &Expr,
    frame: &mut Frame<'_>,
) -> Result<Stmt, ScriptFault>
    ensures gives { Gives (λ k. (k, frame.new.sight)) result
        (spec.emit_slots line frame.old.gives to.now e.now frame.old.sight) }
    ensures extends { Extends frame.old.types frame.new.types }
    ensures sight { frame.new.sight ≡ frame.old.sight }
    ensures emits { frame.new.gives ≡ frame.old.gives }
{
    let output = output_of(line, to, frame)?;
    let wanted = wanted(line, output, frame)?;
    let x = frame.resolve(alloc, line, e)?;
    if frame.types().same(x.ty, wanted) {
        Ok(Stmt::Emit(output, x.expr))
    } else {
        drop(x);
        Err(refused(line, ScriptKind::Mistyped))
    }
}

#[cycle(block)]
fn place_if(
    alloc: Global,
    line: u32,
    e: &Expr,
    blocks: Branches<'_>,
    frame: &mut Frame<'_>,
) -> Result<Stmt, ScriptFault>
    ensures gives { Gives (λ k. (k, frame.new.sight)) result (spec.if_slots line e.now
        (spec.slots_in (placed_of frame.old.gives) blocks.entry.first.now)
        (spec.slots_in (placed_of frame.old.gives) blocks.entry.second.now) frame.old.sight) }
    ensures extends { Extends frame.old.types frame.new.types }
    ensures known { frame.new.sight.known ≡ frame.old.sight.known }
    ensures sight { OnOk result (frame.new.sight ≡ frame.old.sight) }
    ensures emits { frame.new.gives ≡ frame.old.gives }
{
    let test = truth(alloc, line, e, frame)?;
    match inner(alloc, blocks.first, frame) {
        Ok(a) => match inner(alloc, blocks.second, frame) {
            Ok(b) => Ok(Stmt::If(test, a, b)),
            Err(fault) => {
                drop(a);
                drop(test);
                Err(fault)
            }
        },
        Err(fault) => {
            drop(test);
            Err(fault)
        }
    }
}

#[cycle(block)]
fn place_for(
    alloc: Global,
    line: u32,
    name: &Str,
    e: &Expr,
    body: &Pile<Body>,
    frame: &mut Frame<'_>,
) -> Result<Stmt, ScriptFault>
    ensures gives { Gives (λ k. (k, frame.new.sight)) result (spec.for_slots line name.now e.now
        (spec.slots_in (placed_of frame.old.gives) body.now) frame.old.sight) }
    ensures extends { Extends frame.old.types frame.new.types }
    ensures known { frame.new.sight.known ≡ frame.old.sight.known }
    ensures sight { OnOk result (frame.new.sight ≡ frame.old.sight) }
    ensures emits { frame.new.gives ≡ frame.old.gives }
{
    let x = new_value(alloc, line, name, e, frame)?;
    match member_of(line, x.ty, frame.types()) {
        Ok(member) => match named(alloc, name, member, body, frame) {
            Ok(turn) => Ok(Stmt::For(x.expr, turn)),
            Err(fault) => {
                drop(x);
                Err(fault)
            }
        },
        Err(fault) => {
            drop(x);
            Err(fault)
        }
    }
}

#[cycle(block)]
fn place_case(
    alloc: Global,
    line: u32,
    e: &Expr,
    names: SideNames<'_>,
    blocks: Branches<'_>,
    frame: &mut Frame<'_>,
) -> Result<Stmt, ScriptFault>
    ensures gives { Gives (λ k. (k, frame.new.sight)) result (spec.case_slots line e.now
        names.entry.left.now (spec.slots_in (placed_of frame.old.gives) blocks.entry.first.now)
        names.entry.right.now (spec.slots_in (placed_of frame.old.gives) blocks.entry.second.now)
        frame.old.sight) }
    ensures extends { Extends frame.old.types frame.new.types }
    ensures known { frame.new.sight.known ≡ frame.old.sight.known }
    ensures sight { OnOk result (frame.new.sight ≡ frame.old.sight) }
    ensures emits { frame.new.gives ≡ frame.old.gives }
{
    let x = frame.resolve(alloc, line, e)?;
    match sides_of(line, x.ty, frame.types()) {
        Ok(sides) => match both_sides(alloc, line, sides, names, blocks, frame) {
            Ok(both) => Ok(Stmt::Case(x.expr, both.first, both.second)),
            Err(fault) => {
                drop(x);
                Err(fault)
            }
        },
        Err(fault) => {
            drop(x);
            Err(fault)
        }
    }
}

// The blocks of both sides.
#[cycle(block)]
fn both_sides(
    alloc: Global,
    line: u32,
    sides: Sides,
    names: SideNames<'_>,
    blocks: Branches<'_>,
    frame: &mut Frame<'_>,
) -> Result<BothBlocks, ScriptFault>
    requires left { sides.left < length frame.old.types }
    requires right { sides.right < length frame.old.types }
    ensures gives { Gives (λ both. (both.first, both.second)) result (spec.both_slots line
        (type_at frame.old.types sides.left, type_at frame.old.types sides.right)
        names.entry.left.now (spec.slots_in (placed_of frame.old.gives) blocks.entry.first.now)
        names.entry.right.now (spec.slots_in (placed_of frame.old.gives) blocks.entry.second.now)
        frame.old.sight) }
    ensures extends { Extends frame.old.types frame.new.types }
    ensures known { frame.new.sight.known ≡ frame.old.sight.known }
    ensures sight { OnOk result (frame.new.sight ≡ frame.old.sight) }
    ensures emits { frame.new.gives ≡ frame.old.gives }
{
    let first = of_side(alloc, line, names.left, sides.left, blocks.first, frame)?;
    let second = of_side(alloc, line, names.right, sides.right, blocks.second, frame)?;
    Ok(BothBlocks { first, second })
}

// The block of a side, whose content a name that is not in sight yet stands for.
#[cycle(block)]
fn of_side(
    alloc: Global,
    line: u32,
    name: &Str,
    id: TypeId,
    body: &Pile<Body>,
    frame: &mut Frame<'_>,
) -> Result<Block, ScriptFault>
    requires { id < length frame.old.types }
    ensures gives { Gives (λ k. k) result (spec.side_slots line name.now
        (type_at frame.old.types id) (spec.slots_in (placed_of frame.old.gives) body.now)
        frame.old.sight) }
    ensures extends { Extends frame.old.types frame.new.types }
    ensures known { frame.new.sight.known ≡ frame.old.sight.known }
    ensures sight { OnOk result (frame.new.sight ≡ frame.old.sight) }
    ensures emits { frame.new.gives ≡ frame.old.gives }
{
    unseen(line, name, frame)?;
    named(alloc, name, id, body, frame)
}

// A block in which one name more is in sight.
#[cycle(block)]
fn named(
    alloc: Global,
    name: &Str,
    id: TypeId,
    body: &Pile<Body>,
    frame: &mut Frame<'_>,
) -> Result<Block, ScriptFault>
    requires new { find name.now frame.old.sight.names ≡ None }
    requires within { id < length frame.old.types }
    ensures gives { Gives (λ k. k) result (spec.slots_in (placed_of frame.old.gives) body.now
        (with_name name.now (type_at frame.old.types id) frame.old.sight)) }
    ensures extends { Extends frame.old.types frame.new.types }
    ensures known { frame.new.sight.known ≡ frame.old.sight.known }
    ensures sight { OnOk result (frame.new.sight ≡ frame.old.sight) }
    ensures emits { frame.new.gives ≡ frame.old.gives }
{
    let len = frame.len();
    frame.add(alloc, name, id)?;
    let slots = inner(alloc, body, frame)?;
    frame.leave(len);
    Ok(slots)
}

// A block by itself: what it names ends with it.
#[cycle(block)]
fn inner(alloc: Global, body: &Pile<Body>, frame: &mut Frame<'_>) -> Result<Block, ScriptFault>
    ensures gives { Gives (λ k. k) result
        (spec.slots_in (placed_of frame.old.gives) body.now frame.old.sight) }
    ensures extends { Extends frame.old.types frame.new.types }
    ensures known { frame.new.sight.known ≡ frame.old.sight.known }
    ensures sight { OnOk result (frame.new.sight ≡ frame.old.sight) }
    ensures emits { frame.new.gives ≡ frame.old.gives }
{
    let len = frame.len();
    let slots = block(alloc, body.as_slice(), frame)?;
    frame.leave(len);
    Ok(slots)
}

// The slots of a test.
fn truth(alloc: Global, line: u32, e: &Expr, frame: &mut Frame<'_>) -> Result<Slots, ScriptFault>
    ensures gives { Gives (λ k. k) result
        (spec.slots_as line (λ t. is_bool_type (out-Ty t)) e.now frame.old.sight) }
    ensures extends { Extends frame.old.types frame.new.types }
    ensures sight { frame.new.sight ≡ frame.old.sight }
    ensures emits { frame.new.gives ≡ frame.old.gives }
{
    let x = frame.resolve(alloc, line, e)?;
    if is_bool(frame.types(), x.ty) {
        Ok(x.expr)
    } else {
        drop(x);
        Err(refused(line, ScriptKind::Mistyped))
    }
}

// What a name that is not in sight yet is to stand for.
fn new_value(
    alloc: Global,
    line: u32,
    name: &Str,
    e: &Expr,
    frame: &mut Frame<'_>,
) -> Result<Typed, ScriptFault>
    ensures gives { Gives (slots_typed frame.new.types) result
        (spec.new_value line name.now e.now frame.old.sight) }
    ensures new { IfOk result (λ made. find name.now frame.old.sight.names ≡ None) }
    ensures within { IfOk result (λ made. made.ty < length frame.new.types) }
    ensures extends { Extends frame.old.types frame.new.types }
    ensures sight { frame.new.sight ≡ frame.old.sight }
    ensures emits { frame.new.gives ≡ frame.old.gives }
{
    unseen(line, name, frame)?;
    frame.resolve(alloc, line, e)
}

// A name that is not in sight yet.
fn unseen(line: u32, name: &Str, frame: &Frame<'_>) -> Result<(), ScriptFault>
    ensures gives { Gives (λ _. tt) result (fresh line name.now frame.now.sight.names) }
    ensures new { OnOk result (find name.now frame.now.sight.names ≡ None) }
{
    if frame.has(name) {
        Err(refused(line, ScriptKind::Twice))
    } else {
        Ok(())
    }
}
