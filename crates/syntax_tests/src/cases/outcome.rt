// What comes of the scripts of a table.
use super::made::repeated;
use flume_syntax::{Ast, ScriptFault, ScriptKind, parse};
use std::alloc::Global;

/// What comes of a script: so many statements, or its first fault with the line and the kind.
#[derive(Clone, Copy, PartialEq, Eq)]
pub enum Outcome {
    Statements(usize),
    Refused(u32, ScriptKind),
    WantOfMemory,
}

/// A script of a beginning, so many times a piece, and an end.
pub type Repeated<'a> = (&'a [u8], &'a [u8], usize, &'a [u8]);

/// The tree of the script that is made so.
pub fn parsed(alloc: Global, it: Repeated<'_>) -> Result<Ast, ScriptFault> {
    let (before, piece, times, after) = it;
    let script = repeated(alloc, before, piece, times, after)?;
    parse(alloc, &script)
}

/// A script as it stands.
pub fn as_it_is(script: &[u8]) -> Repeated<'_> {
    (script, b"", 0, b"")
}

/// What comes of the script that is made so.
pub fn told(alloc: Global, it: Repeated<'_>) -> Outcome {
    match parsed(alloc, it) {
        Ok(ast) => Outcome::Statements(ast.statements.len()),
        Err(ScriptFault::Refused { line, kind }) => Outcome::Refused(line, kind),
        Err(ScriptFault::Memory) => Outcome::WantOfMemory,
    }
}

/// The place of the first row that is wrong of its script.
pub fn first_wrong(alloc: Global, rows: &[(&[u8], Outcome)]) -> Option<usize> {
    rows.iter()
        .position(|row| told(alloc, as_it_is(row.0)) != row.1)
}
