// Scripts, and the texts of their statements.
use flume_tokens::{TokenFault, tokens};
use flume_value::Str;
use statement_texts::texts_of;
use std::alloc::{AllocError, Global};
use std::test::Fail;

/// A script, and each text of its statements with a line end behind it.
static TEXTS: [(&[u8], &[u8]); 7] = [
    (b"", b""),
    (b"# none\n 12 } {", b""),
    (
        b"# one\n\ttype  row={k:\nint}#",
        b"type row = { k : int }\n",
    ),
    (
        b"let a,b=do c f output a to\"a.csv\"",
        b"let a , b = do c f\noutput a to \"a.csv\"\n",
    ),
    (
        b"fn f(x:text)->text{let y=\"a\\n\\\"\\\\\" emit y}let z=count y",
        b"fn f ( x : text ) -> text { let y = \"a\\n\\\"\\\\\" emit y }\nlet z = count y\n",
    ),
    (b"} = let a = count b", b"let a = count b\n"),
    (
        b"let a=combineall b by\nsum let c=operate a,a by f let d=do b g with c",
        b"let a = combineall b by sum\nlet c = operate a , a by f\nlet d = do b g with c\n",
    ),
];

fn lines(alloc: Global, texts: &[Str]) -> Result<Vec<u8>, AllocError> {
    let mut lines = Vec::new(alloc);
    for text in texts {
        lines.extend_from_slice(text.as_bytes())?;
        lines.push(b'\n')?;
    }
    Ok(lines)
}

fn has_texts(alloc: Global, script: &[u8], wanted: &[u8]) -> Result<bool, TokenFault> {
    let list = tokens(alloc, script)?;
    let texts = texts_of(alloc, list.items.as_slice())?;
    let lines = lines(alloc, texts.as_slice())?;
    Ok(lines.as_slice() == wanted)
}

/// The place of the first script that has other texts.
fn first_other(alloc: Global) -> Option<usize> {
    for place in 0..TEXTS.len() {
        let (script, wanted) = TEXTS[place];
        if !matches!(has_texts(alloc, script, wanted), Ok(true)) {
            return Some(place);
        }
    }
    None
}

#[test]
fn texts_of_scripts(rt: HostRuntime) -> Result<(), Fail> {
    assert_eq!(rt; first_other(rt.alloc()), None);
    Ok(())
}
