// From the bytes of a script to its tree, or to its first fault.
ghost use Rattle.std.specs.Prelude.{◌≡◌, ◌≢◌, ℕ, IfOk, IfErr};
ghost use Rattle.flume_grammar.specs.declared.fault.ScriptKind.{ScriptKind as Kind};
ghost use Rattle.flume_grammar.specs.declared.tree.Ast.{Ast};
ghost use Rattle.flume_grammar.specs.Limits.{the_limits};
ghost use Rattle.flume_grammar.specs.Answer as spec;
ghost use Rattle.flume_grammar.specs.inner.Answer as inner;
ghost use Rattle.flume_grammar.specs.inner.Statements.{script_at};

use crate::statement::script;
use flume_grammar::{Ast, ScriptFault, ScriptKind, Stop};
use flume_reading::Cursor;
use flume_tokens::{Refusal, TokenFault, TokenList, tokens};
use std::alloc::Global;

/// The tree of a script, or its first fault: what `tokens` refuses; else Syntax, TooDeep or TooMany
/// at the first token, or at the end, where no script within the limits goes on.
pub fn parse(alloc: Global, bytes: &[u8]) -> Result<Ast, ScriptFault>
    // What is answered is the tree that the tokens spell,
    ensures accepted { IfOk result (λ ast. spec.Accepts bytes.now ast) }
    // and what they spell is answered, unless memory runs out.
    ensures only { (ast : Ast) → spec.Accepts bytes.now ast → spec.IsParsed result ast }
    // A refusal is the first fault of the bytes,
    ensures refused { IfErr result (λ e. spec.IsRefusalOf bytes.now e) }
    // and the first fault is answered, unless memory runs out.
    ensures only_refused { (line : ℕ) (kind : Kind) → spec.Refuses bytes.now line kind
        → spec.IsRefusedAs result line kind }
{
    parsed(alloc, bytes)
}

fn parsed(alloc: Global, bytes: &[u8]) -> Result<Ast, ScriptFault>
    ensures ok { IfOk result (λ ast. inner.parse_of bytes.now ≡ Ok ast) }
    ensures err { IfErr result (λ e. e ≢ ScriptFault.Memory → inner.parse_of bytes.now ≡ Err e) }
{
    match tokens(alloc, bytes) {
        Ok(list) => tree(alloc, list),
        Err(fault) => Err(token_fault(fault)),
    }
}

/// The tree of some tokens.
fn tree(alloc: Global, list: TokenList) -> Result<Ast, ScriptFault>
    ensures ok { IfOk result (λ ast. inner.tree_of list.last_line (script_at the_limits list.items)
        ≡ Ok ast) }
    ensures err { IfErr result (λ e. e ≢ ScriptFault.Memory
        → inner.tree_of list.last_line (script_at the_limits list.items) ≡ Err e) }
{
    let TokenList { items, last_line } = list;
    let mut left = Cursor::new(items);
    match script(alloc, &mut left) {
        Ok(statements) => Ok(Ast { statements }),
        Err(stop) => Err(stopped(stop, last_line)),
    }
}

fn stopped(stop: Stop, last_line: u32) -> ScriptFault
    ensures { result ≡ inner.stopped last_line stop }
{
    match stop {
        Stop::Fault {
            line: Some(line),
            kind,
        } => ScriptFault::Refused { line, kind },
        Stop::Fault { line: None, kind } => ScriptFault::Refused {
            line: last_line,
            kind,
        },
        Stop::Memory => ScriptFault::Memory,
    }
}

fn token_fault(fault: TokenFault) -> ScriptFault
    ensures { result ≡ spec.token_fault fault }
{
    match fault {
        TokenFault::Refused { line, kind } => ScriptFault::Refused {
            line,
            kind: refusal(kind),
        },
        TokenFault::Memory => ScriptFault::Memory,
    }
}

fn refusal(kind: Refusal) -> ScriptKind
    ensures { result ≡ spec.kind_of kind }
{
    match kind {
        Refusal::TooLong => ScriptKind::TooLong,
        Refusal::Utf8 => ScriptKind::Utf8,
        Refusal::Token => ScriptKind::Token,
    }
}
