// The script, as it is loaded, parsed and checked, with what keys need of it.
ghost use Rattle.std.specs.Prelude.{◌≡◌, ◌≤◌, ◌<◌, ◌∷◌, [], IfErr, IfOk, Ok, length};
ghost use Rattle.flume_tokens.specs.Tokens.{tokens_of};
ghost use Rattle.flume_tokens.specs.declared.token.TokenList.{TokenList as Cut};
ghost use Rattle.outside.specs.Asked.{Asks};
ghost use Rattle.script_loading.specs.Causes.{IsScriptCause};
ghost use Rattle.script_loading.specs.inner.Reading.{IsScriptFault};
ghost use Rattle.script_program.specs.Saved.{HasNoSaved};
ghost use Rattle.statement_law.specs.Outlined as outlined;
ghost use Rattle.statement_texts.specs.Texts as texted;
ghost use Rattle.keyed_loading.specs.Keyed.{IsKeyed, LoadsKeyed};

use flume_grammar::{ScriptFault, Statement};
use flume_syntax::parse;
use flume_tokens::tokens;
use flume_value::{Pile, Str};
use outside::{Pieces, Source};
use run_texts::Status;
use script_check::check;
use script_keys::{Outline, outline_of};
use script_loading::{ReadyProgram, SCRIPT_LIMIT, loaded};
use statement_law::statement_law;
use statement_texts::texts_of;
use std::alloc::{AllocError, Global};

/// A script, with what its statements are to keys, and their texts.
#[derive(Drop)]
pub struct KeyedScript {
    pub program: ReadyProgram,
    pub outlines: Pile<Outline>,
    pub texts: Pile<Str>,
}

/// Loads and checks the script of that name, in so many tries. No other file is asked for.
pub fn keyed_script<R: Source>(
    alloc: Global,
    name: &str,
    source: &mut R,
    tries: u32,
) -> Result<KeyedScript, Status>
    requires tries { 0 < tries }
    ensures files { (R.seen source.new).files ≡ (R.seen source.old).files }
    ensures ok { IfOk result (λ it. LoadsKeyed (R.seen source.old).files name.now it.program.script
        it.outlines it.texts) }
    ensures many { IfOk result (λ it. length it.texts ≡ length it.outlines) }
    ensures written { IfOk result (λ it. HasNoSaved it.program.script) }
    ensures err { IfErr result (IsScriptCause tries (R.seen source.old)
        (R.seen source.new) name.now) }
    ensures later { (R.seen source.old).faults ≤ (R.seen source.new).faults }
    ensures asked { Asks tries (name.now ∷ []) (R.seen source.old) (R.seen source.new) }
{
    let file = loaded(alloc, source, name, SCRIPT_LIMIT, tries)?;
    match script_in(alloc, file) {
        Ok(script) => Ok(script),
        Err(ScriptFault::Refused { line, kind }) => Err(Status::ScriptRefused { line, kind }),
        Err(ScriptFault::Memory) => Err(Status::WantOfMemory),
    }
}

// The script of a file, as it was loaded.
fn script_in(alloc: Global, file: Pieces) -> Result<KeyedScript, ScriptFault>
    ensures keyed { IfOk result (λ it.
        IsKeyed file it.program.script it.outlines it.texts) }
    ensures many { IfOk result (λ it. length it.texts ≡ length it.outlines) }
    ensures refused { IfErr result (IsScriptFault file) }
    ensures written { IfOk result (λ it. HasNoSaved it.program.script) }
{
    match file.into_vec(alloc) {
        Ok(bytes) => script_of(alloc, &bytes),
        Err(_) => Err(ScriptFault::Memory),
    }
}

// The script of these bytes.
fn script_of(alloc: Global, bytes: &[u8]) -> Result<KeyedScript, ScriptFault>
    ensures keyed { IfOk result (λ it.
        IsKeyed bytes.now it.program.script it.outlines it.texts) }
    ensures many { IfOk result (λ it. length it.texts ≡ length it.outlines) }
    ensures refused { IfErr result (IsScriptFault bytes.now) }
    ensures written { IfOk result (λ it. HasNoSaved it.program.script) }
{
    statement_law();
    let ast = parse(alloc, bytes)?;
    let outlines = outlines_of(alloc, ast.statements.as_slice())?;
    let texts = texts_in(alloc, bytes)?;
    let program = check(alloc, ast)?;
    Ok(KeyedScript {
        program: ReadyProgram::new(program),
        outlines,
        texts,
    })
}

// What statements are to keys.
fn outlines_of(alloc: Global, statements: &[Statement]) -> Result<Pile<Outline>, AllocError>
    ensures { IfOk result (λ outlines. outlines ≡ outlined.outlines_of statements.now) }
{
    let mut outlines = Pile::new(alloc);
    for statement in statements {
        outlines.push(outline_of(alloc, &statement.form)?)?;
    }
    Ok(outlines)
}

// The texts of a script's statements. Tokens that are refused have none: a script's are not.
fn texts_in(alloc: Global, bytes: &[u8]) -> Result<Pile<Str>, AllocError>
    ensures { IfOk result (λ texts. (list : Cut) → tokens_of bytes.now ≡ Ok list →
        texts ≡ texted.texts_of list.items) }
{
    match tokens(alloc, bytes) {
        Ok(list) => texts_of(alloc, list.items.as_slice()),
        Err(_) => Err(AllocError),
    }
}
