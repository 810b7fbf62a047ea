// The texts of all statements, in one pass over the tokens.
ghost use Rattle.std.specs.Prelude.{◌≡◌, ◌++◌, ◌<◌, ◌+◌, ◌^◌, IfOk};
ghost use Rattle.statement_texts.specs.Texts as spec;
ghost use Rattle.statement_texts.specs.inner.Passing.{all_texts, finished};

use crate::written::push_written;
use flume_tokens::{Keyword, Sign, Token, TokenKind};
use flume_value::{Pile, Str};
use std::alloc::{AllocError, Global};

/// The texts of the statements that these are the tokens of, in order.
pub fn texts_of(alloc: Global, tokens: &[Token]) -> Result<Pile<Str>, AllocError>
    ensures { IfOk result (λ texts. texts ≡ spec.texts_of tokens.now) }
{
    let mut texts = with_front(alloc, tokens)?;
    texts.remove(0);
    Ok(Pile::from_vec(texts))
}

// What stands before the first statement, and the texts of all.
fn with_front(alloc: Global, tokens: &[Token]) -> Result<Vec<Str>, AllocError>
    ensures { IfOk result (λ texts. texts.items ≡ all_texts tokens.now) }
{
    let mut texts = Vec::new(alloc);
    let mut text = Vec::new(alloc);
    let mut depth = 0;
    for token in tokens {
        text = with_token(alloc, &token.kind, depth, &mut texts, text)?;
        depth = braces_behind(depth, &token.kind);
    }
    texts.push(Str::from_vec(text)?)?;
    Ok(texts)
}

// The text that a token belongs to: one of its own where it begins a statement, and then the one
// before is among the texts; else the one before with the token behind it.
fn with_token(
    alloc: Global,
    kind: &TokenKind,
    depth: usize,
    texts: &mut Vec<Str>,
    text: Vec<u8>,
) -> Result<Vec<u8>, AllocError>
    ensures { IfOk result (λ next. (rest : spec.StatementParts) →
        texts.new.items ++ finished next.items rest
        ≡ texts.old.items ++ finished text.items
        (spec.token_before kind.now (spec.is_beginning depth kind.now) rest)) }
{
    if depth == 0 && is_beginning_word(kind) {
        texts.push(Str::from_vec(text)?)?;
        let mut own = Vec::new(alloc);
        push_written(&mut own, kind)?;
        return Ok(own);
    }
    let mut longer = text;
    longer.push(b' ')?;
    push_written(&mut longer, kind)?;
    Ok(longer)
}

// Whether it is one of the words with which statements begin.
fn is_beginning_word(kind: &TokenKind) -> bool
    ensures { result ≡ spec.is_beginning_word kind.now }
{
    match kind {
        TokenKind::Keyword(Keyword::Type) => true,
        TokenKind::Keyword(Keyword::Input) => true,
        TokenKind::Keyword(Keyword::Fn) => true,
        TokenKind::Keyword(Keyword::Let) => true,
        TokenKind::Keyword(Keyword::Output) => true,
        _ => false,
    }
}

// How many braces are open behind a token, before which so many are.
fn braces_behind(depth: usize, kind: &TokenKind) -> usize
    requires { depth + 1 < 2 ^ 64 }
    ensures { result ≡ spec.braces_behind depth kind.now }
{
    match kind {
        TokenKind::Sign(Sign::OpenBrace) => depth + 1,
        TokenKind::Sign(Sign::CloseBrace) => depth.saturating_sub(1),
        _ => depth,
    }
}
