//! The types of what operations give, from those of their operands.
ghost use Rattle.std.specs.Prelude.{◌≡◌, ◌<◌, List, length, IfOk};
ghost use Rattle.flume_types.specs.declared.types.Ty.{Ty};
ghost use Rattle.flume_grammar.specs.declared.fault.ScriptKind.TheVariants.{Mistyped};
ghost use Rattle.flume_grammar.specs.declared.tree.Unary.TheVariants as unary;
ghost use Rattle.dofn_eval.specs.declared.expr.Binary.TheVariants as two;
ghost use Rattle.type_table.specs.declared.shape.Shape.TheVariants as shape_;
ghost use Rattle.type_table.specs.Table.{type_at, tree_of, IsWithin, Extends};
ghost use Rattle.written_types.specs.Answer.{Gives, or_fault};
ghost use Rattle.written_types.specs.Written.{shallow as shallow_type};
ghost use Rattle.expression_types.specs.Held.{AreSides};
ghost use Rattle.expression_types.specs.Types as spec;

use crate::kinds::{is_bool, is_int, is_long, is_text};
use crate::operator::Operator;
use crate::parts::{Sides, member_of};
use crate::scope::Scope;
use dofn_eval::Binary;
use flume_grammar::{ScriptFault, ScriptKind, Side, Unary};
use type_table::{Shape, TypeId, Types};
use written_types::{refused, shallow};

/// The type of what an operation gives of one operand.
pub fn unary_type(
    line: u32,
    op: Unary,
    id: TypeId,
    scope: &mut Scope,
) -> Result<TypeId, ScriptFault>
    requires { id < length scope.old.types }
    ensures gives { Gives (type_at scope.new.types) result
        (or_fault line Mistyped (spec.unary_type op (type_at scope.old.types id))) }
    ensures within { IfOk result (λ id. id < length scope.new.types) }
    ensures extends { Extends scope.old.types scope.new.types }
    ensures sight { scope.new.sight ≡ scope.old.sight }
{
    match op {
        Unary::Not => where_true(line, is_bool(scope.types(), id), Shape::Bool, scope),
        Unary::Negate => where_true(line, is_int(scope.types(), id), Shape::Int, scope),
        Unary::Len => where_true(line, is_long(scope.types(), id), Shape::Int, scope),
        Unary::Words => words_type(line, id, scope),
        Unary::Text => where_true(line, is_int(scope.types(), id), Shape::Text, scope),
        Unary::Number => where_true(line, is_text(scope.types(), id), Shape::Int, scope),
    }
}

// The type that the shape stands for, where the test holds.
fn where_true(line: u32, test: bool, shape: Shape, scope: &mut Scope) -> Result<TypeId, ScriptFault>
    requires { IsWithin (length scope.old.types) shape }
    ensures gives { Gives (type_at scope.new.types) result
        (or_fault line Mistyped (spec.where_true test (tree_of scope.old.types shape))) }
    ensures within { IfOk result (λ id. id < length scope.new.types) }
    ensures extends { Extends scope.old.types scope.new.types }
    ensures sight { scope.new.sight ≡ scope.old.sight }
{
    if !test {
        return Err(refused(line, ScriptKind::Mistyped));
    }
    Ok(scope.intern(shape)?)
}

fn words_type(line: u32, id: TypeId, scope: &mut Scope) -> Result<TypeId, ScriptFault>
    requires { id < length scope.old.types }
    ensures gives { Gives (type_at scope.new.types) result
        (or_fault line Mistyped (spec.unary_type unary.Words (type_at scope.old.types id))) }
    ensures within { IfOk result (λ id. id < length scope.new.types) }
    ensures extends { Extends scope.old.types scope.new.types }
    ensures sight { scope.new.sight ≡ scope.old.sight }
{
    let test = is_text(scope.types(), id);
    let text = scope.intern(Shape::Text)?;
    where_true(line, test, Shape::List(text), scope)
}

/// The type of what an operation gives of two operands.
pub fn binary_type(
    line: u32,
    op: Operator,
    sides: Sides,
    scope: &mut Scope,
) -> Result<TypeId, ScriptFault>
    requires { AreSides (length scope.old.types) sides }
    ensures gives { Gives (type_at scope.new.types) result (or_fault line Mistyped (spec.binary_type
        op (type_at scope.old.types sides.left) (type_at scope.old.types sides.right))) }
    ensures within { IfOk result (λ id. id < length scope.new.types) }
    ensures extends { Extends scope.old.types scope.new.types }
    ensures sight { scope.new.sight ≡ scope.old.sight }
{
    match op {
        Operator::And => of_bools(line, sides, scope),
        Operator::Or => of_bools(line, sides, scope),
        Operator::Two(op) => match op {
            Binary::Arithmetic(_) => {
                let test = is_int(scope.types(), sides.left) && is_int(scope.types(), sides.right);
                where_true(line, test, Shape::Int, scope)
            }
            Binary::Comparison(_) => {
                let test = scope.types().same(sides.left, sides.right);
                where_true(line, test, Shape::Bool, scope)
            }
            Binary::Concat => joined(line, sides, scope.types()),
        },
    }
}

fn of_bools(line: u32, sides: Sides, scope: &mut Scope) -> Result<TypeId, ScriptFault>
    requires { AreSides (length scope.old.types) sides }
    ensures gives { Gives (type_at scope.new.types) result (or_fault line Mistyped (spec.bools_type
        (type_at scope.old.types sides.left) (type_at scope.old.types sides.right))) }
    ensures within { IfOk result (λ id. id < length scope.new.types) }
    ensures extends { Extends scope.old.types scope.new.types }
    ensures sight { scope.new.sight ≡ scope.old.sight }
{
    let test = is_bool(scope.types(), sides.left) && is_bool(scope.types(), sides.right);
    where_true(line, test, Shape::Bool, scope)
}

fn joined(line: u32, sides: Sides, types: &Types) -> Result<TypeId, ScriptFault>
    requires { AreSides (length types.now) sides }
    ensures gives { Gives (type_at types.now) result (or_fault line Mistyped
        (spec.two_type two.Concat (type_at types.now sides.left) (type_at types.now sides.right))) }
    ensures same { IfOk result (λ joined. joined ≡ sides.left) }
{
    let test = types.same(sides.left, sides.right) && is_long(types, sides.left);
    itself(line, test, sides.left)
}

// The type itself, where the test holds.
fn itself(line: u32, test: bool, id: TypeId) -> Result<TypeId, ScriptFault>
    ensures gives { (types : List Ty) → Gives (type_at types) result
        (or_fault line Mistyped (spec.where_true test (type_at types id))) }
    ensures same { IfOk result (λ itself. itself ≡ id) }
{
    if test {
        Ok(id)
    } else {
        Err(refused(line, ScriptKind::Mistyped))
    }
}

/// The type of a list's member at an index.
pub fn index_type(
    line: u32,
    list: TypeId,
    index: TypeId,
    types: &Types,
) -> Result<TypeId, ScriptFault>
    requires list_in { list < length types.now }
    requires index_in { index < length types.now }
    ensures gives { Gives (type_at types.now) result (or_fault line Mistyped
        (spec.index_type (type_at types.now list) (type_at types.now index))) }
    ensures within { IfOk result (λ id. id < length types.now) }
{
    if is_int(types, index) {
        member_of(line, list, types)
    } else {
        Err(refused(line, ScriptKind::Mistyped))
    }
}

/// The type of what a test picks of two values.
pub fn pick_type(line: u32, test: TypeId, both: Sides, types: &Types) -> Result<TypeId, ScriptFault>
    requires test_in { test < length types.now }
    requires both_in { AreSides (length types.now) both }
    ensures gives { Gives (type_at types.now) result (or_fault line Mistyped (spec.pick_type
        (type_at types.now test) (type_at types.now both.left) (type_at types.now both.right))) }
    ensures same { IfOk result (λ picked. picked ≡ both.left) }
{
    let same = is_bool(types, test) && types.same(both.left, both.right);
    itself(line, same, both.left)
}

/// The type of `empty` at a member's type.
pub fn list_of(line: u32, member: TypeId, scope: &mut Scope) -> Result<TypeId, ScriptFault>
    requires { member < length scope.old.types }
    ensures gives { Gives (type_at scope.new.types) result
        (shallow_type line (tree_of scope.old.types (shape_.List member))) }
    ensures within { IfOk result (λ id. id < length scope.new.types) }
    ensures extends { Extends scope.old.types scope.new.types }
    ensures sight { scope.new.sight ≡ scope.old.sight }
{
    made(line, Shape::List(member), scope)
}

/// A side of an either, and the type that its other side has.
#[derive(Clone, Copy)]
pub struct Half {
    pub side: Side,
    pub other: TypeId,
}

/// The type of the either of a half, where its own side has this type.
pub fn side_type(line: u32, of: Half, id: TypeId, scope: &mut Scope) -> Result<TypeId, ScriptFault>
    requires other_in { of.other < length scope.old.types }
    requires id_in { id < length scope.old.types }
    ensures gives { Gives (type_at scope.new.types) result
        (shallow_type line (spec.either_of of.side (type_at scope.old.types of.other)
        (type_at scope.old.types id))) }
    ensures within { IfOk result (λ id. id < length scope.new.types) }
    ensures extends { Extends scope.old.types scope.new.types }
    ensures sight { scope.new.sight ≡ scope.old.sight }
{
    match of.side {
        Side::Left => made(line, Shape::Either(id, of.other), scope),
        Side::Right => made(line, Shape::Either(of.other, id), scope),
    }
}

/// The type that a shape stands for, where it is at most 8 deep.
pub fn made(line: u32, shape: Shape, scope: &mut Scope) -> Result<TypeId, ScriptFault>
    requires { IsWithin (length scope.old.types) shape }
    ensures gives { Gives (type_at scope.new.types) result
        (shallow_type line (tree_of scope.old.types shape)) }
    ensures within { IfOk result (λ id. id < length scope.new.types) }
    ensures extends { Extends scope.old.types scope.new.types }
    ensures sight { scope.new.sight ≡ scope.old.sight }
{
    let id = scope.intern(shape)?;
    shallow(line, id, scope.types())
}
