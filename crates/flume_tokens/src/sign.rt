// The signs and how they are spelled.
ghost use Rattle.std.specs.Prelude.{◌≡◌, ◌≤◌, length, IfSome};
ghost use Rattle.flume_tokens.specs.Signs as spec;

/// A sign, the longer ones first.
#[derive(Clone, Copy, PartialEq, Eq)]
pub enum Sign {
    /// `==`
    Equal,
    /// `!=`
    NotEqual,
    /// `<=`
    AtMost,
    /// `>=`
    AtLeast,
    /// `->`
    Arrow,
    /// `{`
    OpenBrace,
    /// `}`
    CloseBrace,
    /// `(`
    Open,
    /// `)`
    Close,
    /// `[`
    OpenBracket,
    /// `]`
    CloseBracket,
    /// `<`
    Less,
    /// `>`
    Greater,
    /// `,`
    Comma,
    /// `:`
    Colon,
    /// `.`
    Dot,
    /// `=`
    Assign,
    /// `+`
    Plus,
    /// `-`
    Minus,
    /// `*`
    Times,
    /// `/`
    Divide,
    /// `%`
    Remainder,
}

const SIGNS: [Sign; 22] = [
    Sign::Equal,
    Sign::NotEqual,
    Sign::AtMost,
    Sign::AtLeast,
    Sign::Arrow,
    Sign::OpenBrace,
    Sign::CloseBrace,
    Sign::Open,
    Sign::Close,
    Sign::OpenBracket,
    Sign::CloseBracket,
    Sign::Less,
    Sign::Greater,
    Sign::Comma,
    Sign::Colon,
    Sign::Dot,
    Sign::Assign,
    Sign::Plus,
    Sign::Minus,
    Sign::Times,
    Sign::Divide,
    Sign::Remainder,
];

impl Sign {
    /// The bytes of the sign.
    pub fn spelling(self) -> &'static [u8]
        ensures { result.now ≡ spec.sign_spelling self }
    {
        match self {
            Sign::Equal => b"==",
            Sign::NotEqual => b"!=",
            Sign::AtMost => b"<=",
            Sign::AtLeast => b">=",
            Sign::Arrow => b"->",
            Sign::OpenBrace => b"{",
            Sign::CloseBrace => b"}",
            Sign::Open => b"(",
            Sign::Close => b")",
            Sign::OpenBracket => b"[",
            Sign::CloseBracket => b"]",
            Sign::Less => b"<",
            Sign::Greater => b">",
            Sign::Comma => b",",
            Sign::Colon => b":",
            Sign::Dot => b".",
            Sign::Assign => b"=",
            Sign::Plus => b"+",
            Sign::Minus => b"-",
            Sign::Times => b"*",
            Sign::Divide => b"/",
            Sign::Remainder => b"%",
        }
    }
}

/// The longest sign that the bytes begin with.
#[tactic(auto, unfolding(crate::specs::Signs::sign_of))]
pub fn sign_of(bytes: &[u8]) -> Option<Sign>
    ensures value { result ≡ spec.sign_of bytes.now }
    ensures within { IfSome result (λ s. length (spec.sign_spelling s) ≤ length bytes.now) }
{
    SIGNS
        .iter()
        .copied()
        .find(|sign| bytes.starts_with(sign.spelling()))
}
