// How a type is read, level after level within the depth that is allowed.
ghost use Rattle.std.specs.Prelude.{◌≡◌, ◌<◌, ◌≤◌, IfOk};
ghost use Rattle.flume_tokens.specs.declared.token.Token.{Token};
ghost use Rattle.flume_grammar.specs.Limits.{the_limits};
ghost use Rattle.flume_grammar.specs.Parts.{with_named_part};
ghost use Rattle.flume_grammar.specs.inner.Out.{one, all_of};
ghost use Rattle.flume_grammar.specs.inner.Reads.{Reads, ReadsSuch, PassesSuch, Within, Below};
ghost use Rattle.flume_grammar.specs.inner.Types as spec;

use crate::cursor::Cursor;
use crate::following::field_name;
use crate::reading::{at, comma, sign};
use flume_grammar::limits::{MAX_DEPTH, MAX_FIELDS};
use flume_grammar::parts::Parts;
use flume_grammar::start::TypeStart;
use flume_grammar::{ScriptKind, Stop, Type};
use flume_tokens::{Keyword, Sign, Token, TokenKind};
use flume_value::{Held, Str};
use std::alloc::{AllocError, Global};

/// A type, which may have the depth that is allowed.
pub fn whole_type(alloc: Global, tokens: &mut Cursor) -> Result<Type, Stop>
    ensures { Reads (spec.whole_type the_limits) tokens.old tokens.new result }
{
    let (whole, _) = type_of(alloc, tokens, MAX_DEPTH)?;
    Ok(whole)
}

/// A type and its depth.
#[cycle(types)]
#[tactic(auto, using(flume_grammar::proofs::Steps::type_step))]
fn type_of(alloc: Global, tokens: &mut Cursor, limit: u32) -> Result<(Type, u32), Stop>
    requires { 1 ≤ limit }
    ensures { ReadsSuch (Within limit) (spec.type_within the_limits limit)
        tokens.old tokens.new result }
{
    let start = next_start(tokens, limit)?;
    after_start(alloc, tokens, limit, start)
}

/// The type that begins so.
#[cycle(types)]
fn after_start(
    alloc: Global,
    tokens: &mut Cursor,
    limit: u32,
    start: TypeStart,
) -> Result<(Type, u32), Stop>
    requires limit { 1 ≤ limit }
    requires deep { spec.HasRoom start limit }
    ensures { PassesSuch (Within limit) (spec.after_start the_limits (spec.type_below limit) start)
        tokens.old tokens.new result }
{
    match start {
        TypeStart::Leaf(leaf) => Ok((leaf, 1)),
        TypeStart::List => {
            drop(start);
            list_type(alloc, tokens, limit)
        }
        TypeStart::Either => {
            drop(start);
            let (left, right, depth) = pair_type(alloc, tokens, limit)?;
            Ok((Type::Either(left, right), depth))
        }
        TypeStart::Table => {
            drop(start);
            let (key, value, depth) = pair_type(alloc, tokens, limit)?;
            Ok((Type::Table(key, value), depth))
        }
        TypeStart::Record => {
            drop(start);
            record_type(alloc, tokens, limit)
        }
    }
}

/// A part of a type, held while the rest is read, and its depth.
#[cycle(types)]
fn part(alloc: Global, tokens: &mut Cursor, limit: u32) -> Result<(Held<Type>, u32), Stop>
    requires { 2 ≤ limit }
    ensures { ReadsSuch (λ x. x.1 < limit) (spec.type_below limit) tokens.old tokens.new result }
{
    let (part, depth) = type_of(alloc, tokens, limit - 1)?;
    Ok((Held::new(alloc, part)?, depth))
}

#[cycle(types)]
fn list_type(alloc: Global, tokens: &mut Cursor, limit: u32) -> Result<(Type, u32), Stop>
    requires { 2 ≤ limit }
    ensures { ReadsSuch (Within limit) (spec.list_type (spec.type_below limit))
        tokens.old tokens.new result }
{
    sign(tokens, Sign::Less)?;
    let (member, depth) = part(alloc, tokens, limit)?;
    sign(tokens, Sign::Greater)?;
    Ok((Type::List(member), depth + 1))
}

#[cycle(types)]
fn pair_type(
    alloc: Global,
    tokens: &mut Cursor,
    limit: u32,
) -> Result<(Held<Type>, Held<Type>, u32), Stop>
    requires { 2 ≤ limit }
    ensures { ReadsSuch (λ x. x.2 ≤ limit) (spec.pair_type (spec.type_below limit))
        tokens.old tokens.new result }
{
    sign(tokens, Sign::Less)?;
    let (first, a) = part(alloc, tokens, limit)?;
    sign(tokens, Sign::Comma)?;
    let (second, b) = part(alloc, tokens, limit)?;
    sign(tokens, Sign::Greater)?;
    Ok((first, second, a.max(b) + 1))
}

#[cycle(types)]
fn field_type(
    alloc: Global,
    tokens: &mut Cursor,
    limit: u32,
    fields: Parts<Type>,
) -> Result<Parts<Type>, Stop>
    requires limit { 2 ≤ limit }
    requires depth { fields.depth < limit }
    ensures { ReadsSuch (Below limit) (spec.field_type (spec.type_below limit) fields)
        tokens.old tokens.new result }
{
    let name = field_name(alloc, tokens)?;
    let (part, depth) = type_of(alloc, tokens, limit - 1)?;
    Ok(with_field(fields, name, part, depth)?)
}

/// A comma and one more field.
#[cycle(types)]
fn next_field_type(
    alloc: Global,
    tokens: &mut Cursor,
    limit: u32,
    fields: Parts<Type>,
) -> Result<Parts<Type>, Stop>
    requires limit { 2 ≤ limit }
    requires depth { fields.depth < limit }
    ensures { ReadsSuch (Below limit)
        (spec.next_field_type the_limits (spec.type_below limit) fields)
        tokens.old tokens.new result }
{
    comma(tokens, fields.len(), MAX_FIELDS)?;
    field_type(alloc, tokens, limit, fields)
}

/// The fields after the first.
#[cycle(types)]
fn more_field_types(
    alloc: Global,
    tokens: &mut Cursor,
    limit: u32,
    first: Parts<Type>,
) -> Result<Parts<Type>, Stop>
    requires limit { 2 ≤ limit }
    requires depth { first.depth < limit }
    ensures { PassesSuch (Below limit)
        (all_of spec.at_comma (spec.next_field_type the_limits (spec.type_below limit)) first)
        tokens.old tokens.new result }
{
    let mut fields = first;
    'more: while tokens.is_at_sign(Sign::Comma) {
        fields = next_field_type(alloc, tokens, limit, fields)?;
    }
    Ok(fields)
}

#[cycle(types)]
fn record_type(alloc: Global, tokens: &mut Cursor, limit: u32) -> Result<(Type, u32), Stop>
    requires { 2 ≤ limit }
    ensures { ReadsSuch (Within limit) (spec.record_type the_limits (spec.type_below limit))
        tokens.old tokens.new result }
{
    let first = field_type(alloc, tokens, limit, Parts::new(alloc))?;
    let fields = more_field_types(alloc, tokens, limit, first)?;
    sign(tokens, Sign::CloseBrace)?;
    let (names, types, depth) = fields.into_parts();
    Ok((Type::Record(names, types), depth + 1))
}

/// The fields with one more.
fn with_field(
    fields: Parts<Type>,
    name: Str,
    part: Type,
    depth: u32,
) -> Result<Parts<Type>, AllocError>
    ensures { IfOk result (λ p. p ≡ with_named_part fields name part depth) }
{
    let mut fields = fields;
    fields.put(name, part, depth)?;
    Ok(fields)
}

fn next_start(tokens: &mut Cursor, limit: u32) -> Result<TypeStart, Stop>
    ensures { ReadsSuch (λ s. spec.HasRoom s limit) (one (spec.type_start limit))
        tokens.old tokens.new result }
{
    let token = tokens.token()?;
    type_start(token, limit)
}

/// A type begins, of at most that depth.
fn type_start(token: Token, limit: u32) -> Result<TypeStart, Stop>
    ensures value { result ≡ spec.type_start limit token }
    ensures deep { IfOk result (λ s. spec.HasRoom s limit) }
{
    let Token { kind, line } = token;
    match kind {
        TokenKind::Name(name) => Ok(TypeStart::Leaf(Type::Named(name))),
        TokenKind::Keyword(keyword) => keyword_type(keyword, line, limit),
        TokenKind::Sign(sign) => sign_type(sign, line, limit),
        other => {
            drop(other);
            Err(at(line, ScriptKind::Syntax))
        }
    }
}

fn sign_type(sign: Sign, line: u32, limit: u32) -> Result<TypeStart, Stop>
    ensures value { (t : Token) → t.line ≡ line
        → result ≡ spec.kind_type (TokenKind.Sign sign) limit t }
    ensures deep { IfOk result (λ s. spec.HasRoom s limit) }
{
    match sign {
        Sign::OpenBrace if limit > 1 => Ok(TypeStart::Record),
        Sign::OpenBrace => Err(at(line, ScriptKind::TooDeep)),
        _ => Err(at(line, ScriptKind::Syntax)),
    }
}

fn keyword_type(keyword: Keyword, line: u32, limit: u32) -> Result<TypeStart, Stop>
    ensures value { (t : Token) → t.line ≡ line → result ≡ spec.keyword_type keyword limit t }
    ensures deep { IfOk result (λ s. spec.HasRoom s limit) }
{
    let start = match keyword {
        Keyword::Int => return Ok(TypeStart::Leaf(Type::Int)),
        Keyword::Bool => return Ok(TypeStart::Leaf(Type::Bool)),
        Keyword::Text => return Ok(TypeStart::Leaf(Type::Text)),
        Keyword::List => TypeStart::List,
        Keyword::Either => TypeStart::Either,
        Keyword::Table => TypeStart::Table,
        _ => return Err(at(line, ScriptKind::Syntax)),
    };
    if limit > 1 {
        Ok(start)
    } else {
        drop(start);
        Err(at(line, ScriptKind::TooDeep))
    }
}
