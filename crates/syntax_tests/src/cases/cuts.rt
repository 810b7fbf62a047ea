//! Texts, cut into tokens.

use flume_tokens::{Keyword, Refusal, Sign, Token, TokenFault, TokenKind, tokens};
use std::alloc::Global;
use std::test::Fail;

/// What comes of a text: so many tokens up to this last line, or a fault on this line.
#[derive(Clone, Copy, PartialEq, Eq)]
enum Cut {
    Tokens(usize, u32),
    Refused(u32, Refusal),
    WantOfMemory,
}

fn told(alloc: Global, text: &[u8]) -> Cut {
    match tokens(alloc, text) {
        Ok(list) => Cut::Tokens(list.items.len(), list.last_line),
        Err(TokenFault::Refused { line, kind }) => Cut::Refused(line, kind),
        Err(TokenFault::Memory) => Cut::WantOfMemory,
    }
}

static CUTS: [(&[u8], Cut); 11] = [
    (b"", Cut::Tokens(0, 1)),
    (b"let x = a->b<=12 # no ; @\n\"q\\n\"\n", Cut::Tokens(9, 3)),
    (b"a==b=>=c", Cut::Tokens(6, 1)),
    (b"combineall operate with combine", Cut::Tokens(4, 1)),
    (b"a\n@", Cut::Refused(2, Refusal::Token)),
    (b"\n\"a\n\"", Cut::Refused(2, Refusal::Token)),
    (b"\"a\\r\"", Cut::Refused(1, Refusal::Token)),
    (b"@\n\xff", Cut::Refused(2, Refusal::Utf8)),
    (b"aaaaaaaaaaaaaaaaaaaaaaaaaaaaaaaa", Cut::Tokens(1, 1)),
    (
        b"\r\n\naaaaaaaaaaaaaaaaaaaaaaaaaaaaaaaaa",
        Cut::Refused(3, Refusal::TooLong),
    ),
    (b"# \xc3\xa9\n12ab", Cut::Tokens(2, 2)),
];

/// A token.
#[derive(Clone, Copy)]
enum Wanted {
    Name(&'static [u8]),
    Keyword(Keyword),
    Number(&'static [u8]),
    Text(&'static [u8]),
    Sign(Sign),
}

const LINES: &[u8] = b"in inx 007 <= \"a\\\"\"\n< combineall combine withs operate with";

/// The tokens of these lines, each with its line.
static TOKENS: [(Wanted, u32); 11] = [
    (Wanted::Keyword(Keyword::In), 1),
    (Wanted::Name(b"inx"), 1),
    (Wanted::Number(b"007"), 1),
    (Wanted::Sign(Sign::AtMost), 1),
    (Wanted::Text(b"a\""), 1),
    (Wanted::Sign(Sign::Less), 2),
    (Wanted::Keyword(Keyword::Combineall), 2),
    (Wanted::Keyword(Keyword::Combine), 2),
    (Wanted::Name(b"withs"), 2),
    (Wanted::Keyword(Keyword::Operate), 2),
    (Wanted::Keyword(Keyword::With), 2),
];

fn is_kind(kind: &TokenKind, wanted: Wanted) -> bool {
    match wanted {
        Wanted::Name(name) => matches!(kind, TokenKind::Name(word) if word.is(name)),
        Wanted::Keyword(keyword) => kind.is_keyword(keyword),
        Wanted::Number(digits) => matches!(kind, TokenKind::Number(word) if word.is(digits)),
        Wanted::Text(text) => matches!(kind, TokenKind::Text(content) if content.is(text)),
        Wanted::Sign(sign) => kind.is_sign(sign),
    }
}

fn are_tokens(tokens: &[Token], wanted: &[(Wanted, u32)]) -> bool {
    if tokens.len() != wanted.len() {
        return false;
    }
    for place in 0..wanted.len() {
        let (kind, line) = wanted[place];
        if tokens[place].line != line || !is_kind(&tokens[place].kind, kind) {
            return false;
        }
    }
    true
}

fn has_tokens(alloc: Global, text: &[u8], wanted: &[(Wanted, u32)]) -> bool {
    match tokens(alloc, text) {
        Ok(list) => are_tokens(list.items.as_slice(), wanted),
        Err(_) => false,
    }
}

#[test]
fn tokens_of_texts(rt: HostRuntime) -> Result<(), Fail> {
    let alloc = rt.alloc();
    let other = CUTS.iter().position(|row| told(alloc, row.0) != row.1);
    assert_eq!(rt; other, None);
    assert!(rt; has_tokens(alloc, LINES, &TOKENS));
    Ok(())
}
