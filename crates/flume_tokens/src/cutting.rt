// The cutting of a script into its tokens, each with its line.
ghost use Rattle.std.specs.Prelude.{◌≡◌, ◌≢◌, ◌+◌, ◌-◌, ◌<◌, ◌≤◌, drop, ◌++◌, ◌∷◌, [], ◌==◌, length, count_by, IfOk, IfErr, OnOk};
ghost use Rattle.flume_tokens.specs.Pieces.{piece_of as piece_of_bytes, TakesWithin};
ghost use Rattle.flume_tokens.specs.Tokens as spec;

use crate::fault::{Refusal, TokenFault};
use crate::piece::{Piece, piece_of};
use crate::token::{Token, TokenKind, TokenList};
use flume_value::Pile;
use std::alloc::{AllocError, Global};
use std::str::from_utf8;

/// The greatest length of a script.
const MAX_SCRIPT: usize = 65_536;

/// The tokens of a script, or its first fault: TooLong, line 0, where it has more than 65,536
/// bytes; Utf8 at the line of the first byte that is not part of UTF-8; else Token, where no token
/// begins or a text is not closed on its line, or TooLong, where a word has more than 32 bytes,
/// whichever comes first.
#[tactic(auto, using(crate::proofs::Whole::cut_rules), unfolding(crate::specs::Tokens::tokens_of))]
pub fn tokens(alloc: Global, bytes: &[u8]) -> Result<TokenList, TokenFault>
    ensures ok { IfOk result (λ ts. spec.tokens_of bytes.now ≡ Ok ts) }
    ensures err { IfErr result (λ e. e ≢ TokenFault.Memory → spec.tokens_of bytes.now ≡ Err e) }
{
    if bytes.len() > MAX_SCRIPT {
        return Err(TokenFault::Refused {
            line: 0,
            kind: Refusal::TooLong,
        });
    }
    match from_utf8(bytes) {
        Ok(_) => listed(alloc, bytes),
        Err(e) => Err(TokenFault::Refused {
            line: line_at(bytes, e.valid_up_to()),
            kind: Refusal::Utf8,
        }),
    }
}

/// The tokens and the last line.
fn listed(alloc: Global, bytes: &[u8]) -> Result<TokenList, TokenFault>
    requires { length bytes.now ≤ 65536 }
    ensures ok { IfOk result (λ ts. spec.token_list bytes.now ≡ Ok ts) }
    ensures err { IfErr result (λ e. e ≢ TokenFault.Memory → spec.token_list bytes.now ≡ Err e) }
{
    Ok(TokenList {
        items: Pile::from_vec(cut(alloc, bytes)?),
        last_line: line_at(bytes, bytes.len()),
    })
}

fn cut(alloc: Global, bytes: &[u8]) -> Result<Vec<Token>, TokenFault>
    requires { length bytes.now ≤ 65536 }
    ensures ok { IfOk result (λ ts. spec.tokens_from 0 1 bytes.now ≡ Ok ts.items) }
    ensures err { IfErr result (λ e. e ≢ TokenFault.Memory
        → spec.tokens_from 0 1 bytes.now ≡ Err e) }
{
    let mut tokens = Vec::new(alloc);
    let mut line = 1;
    let mut at = 0;
    while at < bytes.len() {
        match piece_at(alloc, bytes, at)? {
            Piece::LineEnd => {
                line += 1;
                at += 1;
            }
            Piece::Gap(taken) => at += taken,
            Piece::Token(kind, taken) => {
                put(&mut tokens, kind, line)?;
                at += taken;
            }
            Piece::Fault(kind) => return Err(TokenFault::Refused { line, kind }),
        }
    }
    Ok(tokens)
}

/// What the bytes from a place on begin with.
fn piece_at(alloc: Global, bytes: &[u8], at: usize) -> Result<Piece, AllocError>
    requires { at < length bytes.now }
    ensures value { IfOk result (λ p. p ≡ piece_of_bytes (drop at bytes.now)) }
    ensures within { IfOk result (λ p. TakesWithin p (length bytes.now - at)) }
{
    piece_of(alloc, &bytes[at..])
}

fn put(tokens: &mut Vec<Token>, kind: TokenKind, line: u32) -> Result<(), AllocError>
    ensures { OnOk result (tokens.new.items
        ≡ tokens.old.items ++ record { kind = kind; line = line } ∷ []) }
{
    tokens.push(Token { kind, line })?;
    Ok(())
}

/// The number of the line of the byte at a place.
fn line_at(bytes: &[u8], at: usize) -> u32
    requires place { at ≤ length bytes.now }
    requires small { length bytes.now ≤ 65536 }
    ensures { result ≡ spec.line_at bytes.now at }
{
    1 + line_ends(&bytes[..at]) as u32
}

fn line_ends(bytes: &[u8]) -> usize
    ensures value { result ≡ count_by (λ b. b == 10) bytes.now }
    ensures within { result ≤ length bytes.now }
{
    bytes.iter().filter(|b| **b == b'\n').count()
}
