// What a script begins with: a line end, a gap, a token or a fault.
ghost use Rattle.std.specs.Prelude.{◌≡◌, ◌<◌, ◌≤◌, length, slice_index, take, drop, true, IfOk};
ghost use Rattle.std.specs.Char.{is_ascii_digit, is_ascii_alphabetic};
ghost use Rattle.std.specs.List.{prefix_len};
ghost use Rattle.flume_tokens.specs.Pieces as spec;

use crate::fault::Refusal;
use crate::keyword::keyword_of;
use crate::sign::sign_of;
use crate::text::closed_text;
use crate::token::TokenKind;
use flume_value::Str;
use std::alloc::{AllocError, Global};

/// The greatest length of a word.
const MAX_WORD: usize = 32;

/// What a script begins with.
#[derive(Drop)]
pub enum Piece {
    /// one LF
    LineEnd,
    /// so many bytes that part tokens: a blank, or a comment without the end of its line
    Gap(usize),
    /// a token, of so many bytes
    Token(TokenKind, usize),
    Fault(Refusal),
}

/// Bytes that a run of bytes is made of.
#[derive(Clone, Copy)]
enum Class {
    /// a letter, a digit or `_`
    Word,
    Digit,
    /// all but LF
    Comment,
}

/// What the bytes, at least one, begin with.
#[tactic(auto, unfolding(crate::specs::Pieces::piece_of))]
pub fn piece_of(alloc: Global, bytes: &[u8]) -> Result<Piece, AllocError>
    requires { 0 < length bytes.now }
    ensures value { IfOk result (λ p. p ≡ spec.piece_of bytes.now) }
    ensures within { IfOk result (λ p. spec.TakesWithin p (length bytes.now)) }
{
    let first = bytes[0];
    match first {
        b'\n' => Ok(Piece::LineEnd),
        b' ' | b'\t' | b'\r' => Ok(Piece::Gap(1)),
        b'#' => Ok(Piece::Gap(run_of(Class::Comment, bytes))),
        b'"' => text(alloc, bytes),
        b if b.is_ascii_alphabetic() => word(alloc, bytes),
        b if b.is_ascii_digit() => number(alloc, bytes),
        _ => Ok(sign(bytes)),
    }
}

/// The length of the longest run of bytes of the class at the beginning.
fn run_of(class: Class, bytes: &[u8]) -> usize
    ensures value { result ≡ prefix_len (spec.is_of_class class) bytes.now }
    ensures within { result ≤ length bytes.now }
    ensures moves { spec.is_of_class class (slice_index bytes.now 0) ≡ true → 0 < length bytes.now
        → 0 < result }
{
    let mut end = 0;
    while end < bytes.len() && is_in(class, bytes[end]) {
        end += 1;
    }
    end
}

fn is_in(class: Class, b: u8) -> bool
    ensures { result ≡ spec.is_of_class class b }
{
    match class {
        Class::Word => b.is_ascii_alphanumeric() || b == b'_',
        Class::Digit => b.is_ascii_digit(),
        Class::Comment => b != b'\n',
    }
}

fn text(alloc: Global, bytes: &[u8]) -> Result<Piece, AllocError>
    requires { 0 < length bytes.now }
    ensures value { IfOk result (λ p. p ≡ spec.quoted_piece bytes.now) }
    ensures within { IfOk result (λ p. spec.TakesWithin p (length bytes.now)) }
{
    match closed_text(alloc, &bytes[1..])? {
        Some((content, taken)) => Ok(Piece::Token(TokenKind::Text(content), taken + 1)),
        None => Ok(Piece::Fault(Refusal::Token)),
    }
}

fn word(alloc: Global, bytes: &[u8]) -> Result<Piece, AllocError>
    requires { is_ascii_alphabetic (slice_index bytes.now 0) ≡ true }
    ensures value { IfOk result (λ p. p ≡ spec.piece_of_word bytes.now) }
    ensures within { IfOk result (λ p. spec.TakesWithin p (length bytes.now)) }
{
    let end = run_of(Class::Word, bytes);
    let spelling = &bytes[..end];
    if end > MAX_WORD {
        return Ok(Piece::Fault(Refusal::TooLong));
    }
    match keyword_of(spelling) {
        Some(keyword) => Ok(Piece::Token(TokenKind::Keyword(keyword), end)),
        None => Ok(Piece::Token(TokenKind::Name(Str::from_slice(alloc, spelling)?), end)),
    }
}

fn number(alloc: Global, bytes: &[u8]) -> Result<Piece, AllocError>
    requires { is_ascii_digit (slice_index bytes.now 0) ≡ true }
    ensures value { IfOk result (λ p. p ≡ spec.digits_piece bytes.now) }
    ensures within { IfOk result (λ p. spec.TakesWithin p (length bytes.now)) }
{
    let end = run_of(Class::Digit, bytes);
    Ok(Piece::Token(
        TokenKind::Number(Str::from_slice(alloc, &bytes[..end])?),
        end,
    ))
}

fn sign(bytes: &[u8]) -> Piece
    ensures value { result ≡ spec.sign bytes.now }
    ensures within { spec.TakesWithin result (length bytes.now) }
{
    match sign_of(bytes) {
        Some(sign) => Piece::Token(TokenKind::Sign(sign), sign.spelling().len()),
        None => Piece::Fault(Refusal::Token),
    }
}
