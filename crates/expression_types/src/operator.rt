// The operation that each written operator stands for.
ghost use Rattle.std.specs.Prelude.{◌≡◌};
ghost use Rattle.expression_types.specs.Operators as spec;

use dofn_eval::{Arithmetic, Binary as Two, Comparison, Unary as One};
use flume_grammar::{Binary, Side, Unary};

/// What an operator does with two operands.
#[derive(Clone, Copy)]
pub enum Operator {
    /// True where both are.
    And,
    /// True where one is.
    Or,
    /// An operation that needs the values of both.
    Two(Two),
}

pub fn operator_of(op: Binary) -> Operator
    ensures { result ≡ spec.operator op }
{
    match op {
        Binary::Or => Operator::Or,
        Binary::And => Operator::And,
        Binary::Equal => Operator::Two(Two::Comparison(Comparison::Equal)),
        Binary::NotEqual => Operator::Two(Two::Comparison(Comparison::NotEqual)),
        Binary::Less => Operator::Two(Two::Comparison(Comparison::Less)),
        Binary::AtMost => Operator::Two(Two::Comparison(Comparison::LessEqual)),
        Binary::Greater => Operator::Two(Two::Comparison(Comparison::Greater)),
        Binary::AtLeast => Operator::Two(Two::Comparison(Comparison::GreaterEqual)),
        Binary::Add => Operator::Two(Two::Arithmetic(Arithmetic::Add)),
        Binary::Subtract => Operator::Two(Two::Arithmetic(Arithmetic::Subtract)),
        Binary::Multiply => Operator::Two(Two::Arithmetic(Arithmetic::Multiply)),
        Binary::Divide => Operator::Two(Two::Arithmetic(Arithmetic::Divide)),
        Binary::Remainder => Operator::Two(Two::Arithmetic(Arithmetic::Remainder)),
    }
}

pub fn one(op: Unary) -> One
    ensures { result ≡ spec.unary_slot op }
{
    match op {
        Unary::Not => One::Not,
        Unary::Negate => One::Negate,
        Unary::Len => One::Len,
        Unary::Words => One::Words,
        Unary::Text => One::Text,
        Unary::Number => One::Number,
    }
}

pub fn side_of(side: Side) -> One
    ensures { result ≡ spec.side_slot side }
{
    match side {
        Side::Left => One::Left,
        Side::Right => One::Right,
    }
}
