// The escapes of bytes between quotes.
ghost use Rattle.std.specs.Prelude.{◌≡◌, ◌∷◌, [], MatchOption};
ghost use Rattle.printing.specs.Printed.{printed_byte};

/// The escape of a byte between quotes, or None where it stands as it is.
pub(crate) fn escape_of(byte: u8) -> Option<&'static [u8]>
    ensures { MatchOption result (printed_byte byte ≡ byte ∷ [])
        (λ escape. printed_byte byte ≡ escape.now) }
{
    match byte {
        b'\n' => Some(b"\\n"),
        b'\t' => Some(b"\\t"),
        b'\r' => Some(b"\\r"),
        b'\\' => Some(b"\\\\"),
        b'"' => Some(b"\\\""),
        _ => None,
    }
}
