// Rows of texts, and the int that each shows, if any.
use int_text::int_of_text;

/// Texts, and the int of each, if it shows one.
static TEXTS: [(&[u8], Option<i64>); 16] = [
    (b"-0", Some(0)),
    (b"007", Some(7)),
    (b"-12", Some(-12)),
    (b"9223372036854775807", Some(i64::MAX)),
    (b"-9223372036854775808", Some(i64::MIN)),
    (b"9223372036854775808", None),
    (b"-9223372036854775809", None),
    (b"", None),
    (b"-", None),
    (b"--1", None),
    (b"+1", None),
    (b" 1", None),
    (b"1\n", None),
    (b"12x", None),
    // a digit of another script, and no text at all
    (b"\xd9\xa1", None),
    (b"\xff", None),
];

#[test]
fn reads_ints_and_nothing_else(rt: HostRuntime) {
    assert_eq!(rt;
        TEXTS.iter().position(|row| int_of_text(row.0) != row.1),
        None
    );
}
