// A script and others, and whether a collection has the same key in both.
use flume_syntax::{Ast, parse};
use flume_tokens::tokens;
use flume_value::{Pile, Str};
use outside::File;
use script_keys::{Outline, key_of, key_parts, outline_of};
use statement_texts::texts_of;
use std::alloc::{AllocError, Global};
use std::test::Fail;

type Bytes = &'static [u8];

// A script beside another of these lines: one with another line at a place, or a text of its own.
#[derive(Clone, Copy)]
enum Other {
    Line(usize, Bytes),
    Text(Bytes),
}

static SCRIPT: [Bytes; 9] = [
    b"type row = {k: int}",
    b"input logs: row from \"logs.csv\"",
    b"input more: row from \"more.csv\"",
    b"fn keep(r: row) -> row { if r.k > 0 { emit r } }",
    b"fn pass(r: row) -> row { emit r }",
    b"let kept = do logs keep",
    b"let passed = do more pass",
    b"let both = flatten kept, passed",
    b"output both to \"both.csv\"",
];

/// The same but for blanks, comments and lines.
const SPACED: Other = Other::Text(
    b"# A comment.
type row={k:int}input logs:row from\"logs.csv\"
input more : row from \"more.csv\"   # more
fn keep(r: row) -> row {

if r.k > 0 { emit r } }
fn pass(r: row) -> row { emit r } let kept = do logs keep
let passed = do more pass let both = flatten kept, passed output both to \"both.csv\"",
);

/// Another body of `pass`.
const OTHER_BODY: Other = Other::Line(4, b"fn pass(r: row) -> row { if r.k > 1 { emit r } }");

/// Another file of `more`.
const OTHER_FILE: Other = Other::Line(2, b"input more: row from \"others.csv\"");

/// A type more before `passed`, and statements in another order.
const OTHER_TYPES: Other = Other::Text(
    b"type row = {k: int}
input logs: row from \"logs.csv\"
fn keep(r: row) -> row { if r.k > 0 { emit r } }
let kept = do logs keep
type other = {k: int}
input more: row from \"more.csv\"
fn pass(r: row) -> row { emit r }
let passed = do more pass
let both = flatten kept, passed
output both to \"other.csv\"
output kept to \"kept.csv\"
",
);

/// A repeat in place of a call.
const REPEATED: Other = Other::Line(
    6,
    b"let passed = repeat 2 from more as turn { let next = do turn pass give next }",
);

/// No line is another.
const THE_SAME: Other = Other::Line(usize::MAX, b"");

static OTHERS: [(Other, Bytes, bool); 14] = [
    (SPACED, b"kept", true),
    (SPACED, b"passed", true),
    (SPACED, b"both", true),
    (OTHER_BODY, b"kept", true),
    (OTHER_BODY, b"passed", false),
    (OTHER_BODY, b"both", false),
    (OTHER_FILE, b"kept", true),
    (OTHER_FILE, b"passed", false),
    (OTHER_TYPES, b"kept", true),
    (OTHER_TYPES, b"passed", false),
    (OTHER_TYPES, b"logs", true),
    (REPEATED, b"kept", true),
    (REPEATED, b"passed", false),
    (REPEATED, b"both", false),
];

/// A script with objects.
static OBJECTS: [Bytes; 11] = [
    b"type row = {k: int}",
    b"input logs: row from \"logs.csv\"",
    b"input more: row from \"more.csv\"",
    b"fn k_of(r: row) -> int { emit r.k }",
    b"fn twice(n: int) -> int { emit n * 2 }",
    b"fn part(p: {r: row, n: int}) -> row { emit p.r }",
    b"let numbers = do more k_of",
    b"let total = combineall numbers by sum",
    b"let double = operate total by twice",
    b"let parts = do logs part with double",
    b"output parts to \"parts.csv\"",
];

/// Another combiner of `total`.
const OTHER_COMBINER: Other = Other::Line(7, b"let total = combineall numbers by max");

/// Another body of what `double` is operated by.
const OTHER_OPERATED: Other = Other::Line(4, b"fn twice(n: int) -> int { emit n + n }");

/// Another body of what is called beside `double`.
const OTHER_PART: Other = Other::Line(5, b"fn part(p: {r: row, n: int}) -> row { emit {k: p.n} }");

static OTHER_OBJECTS: [(Other, Bytes, bool); 11] = [
    (THE_SAME, b"parts", true),
    (OTHER_COMBINER, b"numbers", true),
    (OTHER_COMBINER, b"total", false),
    (OTHER_COMBINER, b"double", false),
    (OTHER_COMBINER, b"parts", false),
    (OTHER_OPERATED, b"total", true),
    (OTHER_OPERATED, b"double", false),
    (OTHER_OPERATED, b"parts", false),
    (OTHER_PART, b"total", true),
    (OTHER_PART, b"double", true),
    (OTHER_PART, b"parts", false),
];

/// The bytes of two files.
static FILES: [(Bytes, Bytes); 2] = [(b"logs.csv", b"k\n1\n"), (b"more.csv", b"k\n2\n")];
/// The first file has other bytes, and the second is the first of two of its name.
static OTHER_LOGS: [(Bytes, Bytes); 3] = [
    (b"logs.csv", b"k\n3\n"),
    (b"more.csv", b"k\n2\n"),
    (b"more.csv", b"k\n1\n"),
];

static CHANGED: [(Bytes, bool); 5] = [
    (b"kept", false),
    (b"passed", true),
    (b"both", false),
    (b"logs", false),
    (b"more", true),
];

fn files_of(alloc: Global, table: &[(Bytes, Bytes)]) -> Result<Pile<File>, AllocError> {
    let mut files = Pile::new(alloc);
    for place in 0..table.len() {
        let (name, bytes) = table[place];
        files.push(File {
            name: Str::from_slice(alloc, name)?,
            bytes: Str::from_slice(alloc, bytes)?,
        })?;
    }
    Ok(files)
}

fn outlines_of(alloc: Global, ast: &Ast) -> Result<Vec<Outline>, AllocError> {
    let mut outlines = Vec::new(alloc);
    let statements = ast.statements.as_slice();
    for place in 0..statements.len() {
        outlines.push(outline_of(alloc, &statements[place].form)?)?;
    }
    Ok(outlines)
}

/// The script of these lines, of which the one at that place is another.
fn with_line(
    alloc: Global,
    lines: &[Bytes],
    place: usize,
    line: Bytes,
) -> Result<Vec<u8>, AllocError> {
    let mut script = Vec::new(alloc);
    for at in 0..lines.len() {
        script.extend_from_slice(if at == place { line } else { lines[at] })?;
        script.push(b'\n')?;
    }
    Ok(script)
}

/// The script beside that of these lines.
fn script_of(alloc: Global, lines: &[Bytes], other: Other) -> Result<Vec<u8>, AllocError> {
    match other {
        Other::Line(place, line) => with_line(alloc, lines, place, line),
        Other::Text(text) => Vec::from_slice(alloc, text),
    }
}

/// The texts of a script's statements.
fn texts_in(alloc: Global, script: &[u8]) -> Option<Pile<Str>> {
    let list = tokens(alloc, script).ok()?;
    let texts = texts_of(alloc, list.items.as_slice());
    drop(list);
    texts.ok()
}

/// What a script's statements are to keys.
fn outlines_in(alloc: Global, script: &[u8]) -> Option<Vec<Outline>> {
    let ast = parse(alloc, script).ok()?;
    let outlines = outlines_of(alloc, &ast);
    drop(ast);
    outlines.ok()
}

/// The key of a collection of a script, if it is one.
fn key(alloc: Global, script: &[u8], files: &[File], name: &[u8]) -> Option<Vec<u8>> {
    let texts = texts_in(alloc, script)?;
    let outlines = outlines_in(alloc, script)?;
    if texts.len() != outlines.len() {
        return None;
    }
    let name = Str::from_slice(alloc, name).ok()?;
    let parts = key_parts(alloc, outlines.as_slice(), texts.as_slice(), &name).ok()?;
    key_of(alloc, parts.as_slice(), files, &name).ok()
}

/// Whether a script and another beside it, each with its files, give a collection one key.
fn is_same(
    alloc: Global,
    lines: &[Bytes],
    files: &[File],
    other: Other,
    changed: &[File],
    name: &[u8],
) -> Option<bool> {
    let own = with_line(alloc, lines, lines.len(), b"").ok()?;
    let other = script_of(alloc, lines, other).ok()?;
    let own = key(alloc, &own, files, name)?;
    let other = key(alloc, &other, changed, name)?;
    Some(own.as_slice() == other.as_slice())
}

/// The place of the first of these cases, which are beside the script of these lines, that is
/// otherwise.
fn first_other_script(
    alloc: Global,
    files: &[File],
    lines: &[Bytes],
    others: &[(Other, Bytes, bool)],
) -> Option<usize> {
    for place in 0..others.len() {
        let (other, name, same) = others[place];
        if is_same(alloc, lines, files, other, files, name) != Some(same) {
            return Some(place);
        }
    }
    None
}

/// The place of the first case of the files that is otherwise.
fn first_other_file(alloc: Global, files: &[File], changed: &[File]) -> Option<usize> {
    for place in 0..CHANGED.len() {
        let (name, same) = CHANGED[place];
        if is_same(alloc, &SCRIPT, files, THE_SAME, changed, name) != Some(same) {
            return Some(place);
        }
    }
    None
}

#[test]
fn keys_of_other_scripts(rt: HostRuntime) -> Result<(), Fail> {
    let alloc = rt.alloc();
    let files = files_of(alloc, &FILES)?;
    assert_eq!(rt;
        first_other_script(alloc, files.as_slice(), &SCRIPT, &OTHERS),
        None
    );
    assert_eq!(rt;
        first_other_script(alloc, files.as_slice(), &OBJECTS, &OTHER_OBJECTS),
        None
    );
    Ok(())
}

#[test]
fn keys_of_other_files(rt: HostRuntime) -> Result<(), Fail> {
    let alloc = rt.alloc();
    let files = files_of(alloc, &FILES)?;
    let changed = files_of(alloc, &OTHER_LOGS)?;
    assert_eq!(rt;
        first_other_file(alloc, files.as_slice(), changed.as_slice()),
        None
    );
    Ok(())
}
