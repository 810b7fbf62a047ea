// The operators between operands, and how tight they bind.
ghost use Rattle.std.specs.Prelude.{◌≡◌, ◌≤◌};
ghost use Rattle.flume_grammar.specs.Operators as spec;

use flume_grammar::Binary;
use flume_tokens::{Keyword, Sign, TokenKind};

/// How tight an operand binds: 8. `-` before an operand has rank 7, `not` rank 3.
pub const OPERAND: u32 = 8;

pub const NEGATION: u32 = 7;

pub const NOT: u32 = 3;
/// The rank of any expression.
pub const ANY: u32 = 1;

/// The operator between two operands that a token is.
pub fn operator_of(kind: &TokenKind) -> Option<Binary>
    ensures { result ≡ spec.operator_of kind.now }
{
    match kind {
        TokenKind::Keyword(Keyword::Or) => Some(Binary::Or),
        TokenKind::Keyword(Keyword::And) => Some(Binary::And),
        TokenKind::Sign(sign) => sign_operator(*sign),
        _ => None,
    }
}

fn sign_operator(sign: Sign) -> Option<Binary>
    ensures { result ≡ spec.sign_operator sign }
{
    match sign {
        Sign::Equal => Some(Binary::Equal),
        Sign::NotEqual => Some(Binary::NotEqual),
        Sign::Less => Some(Binary::Less),
        Sign::AtMost => Some(Binary::AtMost),
        Sign::Greater => Some(Binary::Greater),
        Sign::AtLeast => Some(Binary::AtLeast),
        Sign::Plus => Some(Binary::Add),
        Sign::Minus => Some(Binary::Subtract),
        Sign::Times => Some(Binary::Multiply),
        Sign::Divide => Some(Binary::Divide),
        Sign::Remainder => Some(Binary::Remainder),
        _ => None,
    }
}

/// How tight an operator binds.
pub fn rank(operator: Binary) -> u32
    ensures value { result ≡ spec.rank operator }
    ensures small { result ≤ 6 }
{
    match operator {
        Binary::Or => 1,
        Binary::And => 2,
        Binary::Equal
        | Binary::NotEqual
        | Binary::Less
        | Binary::AtMost
        | Binary::Greater
        | Binary::AtLeast => 4,
        Binary::Add | Binary::Subtract => 5,
        Binary::Multiply | Binary::Divide | Binary::Remainder => 6,
    }
}

/// The least rank of its left operand: operators of one rank associate to the left, and a
/// comparison stands beside no other.
pub fn left_rank(operator: Binary) -> u32
    ensures { result ≡ spec.left_rank operator }
{
    let own = rank(operator);
    if own == 4 { 5 } else { own }
}
