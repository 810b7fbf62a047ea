// A token as it is written, put behind a text.
ghost use Rattle.std.specs.Prelude.{◌≡◌, ◌++◌, OnOk};
ghost use Rattle.token_spelling.specs.Spelled.{token_written, escape, escaped};

use flume_tokens::TokenKind;
use std::alloc::AllocError;

/// Puts a token behind a text, as it is written.
pub fn push_written(text: &mut Vec<u8>, kind: &TokenKind) -> Result<(), AllocError>
    ensures { OnOk result (text.new.items ≡ text.old.items ++ token_written kind.now) }
{
    match kind {
        TokenKind::Name(name) => text.extend_from_slice(name.as_bytes()),
        TokenKind::Keyword(keyword) => text.extend_from_slice(keyword.spelling()),
        TokenKind::Number(digits) => text.extend_from_slice(digits.as_bytes()),
        TokenKind::Text(content) => push_quoted(text, content.as_bytes()),
        TokenKind::Sign(sign) => text.extend_from_slice(sign.spelling()),
    }
}

// The content of a text, in quotes.
fn push_quoted(text: &mut Vec<u8>, content: &[u8]) -> Result<(), AllocError>
    ensures { OnOk result (text.new.items
        ≡ text.old.items ++ token_written (TokenKind.Text content.now)) }
{
    text.push(b'"')?;
    push_escaped(text, content)?;
    text.push(b'"')?;
    Ok(())
}

fn push_escaped(text: &mut Vec<u8>, content: &[u8]) -> Result<(), AllocError>
    ensures { OnOk result (text.new.items ≡ text.old.items ++ escaped content.now) }
{
    for byte in content {
        push_byte(text, *byte)?;
    }
    Ok(())
}

fn push_byte(text: &mut Vec<u8>, byte: u8) -> Result<(), AllocError>
    ensures { OnOk result (text.new.items ≡ text.old.items ++ escape byte) }
{
    if byte == b'"' {
        return text.extend_from_slice(b"\\\"");
    }
    if byte == b'\\' {
        return text.extend_from_slice(b"\\\\");
    }
    if byte == b'\n' {
        return text.extend_from_slice(b"\\n");
    }
    text.push(byte)?;
    Ok(())
}
