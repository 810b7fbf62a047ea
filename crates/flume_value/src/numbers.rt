// Bytes of a fixed length in order, read off three numbers of 64 bits: the first eight bytes, the
// next eight, and the last six with a length behind them.
ghost use Rattle.std.specs.Prelude.{◌≡◌, ◌++◌, ◌∷◌, [], ◌<◌, ◌≤◌, length, take, drop};
ghost use Rattle.std.specs.Ordering.{nat_cmp, ordering_then};
ghost use Rattle.std.specs.Cmp.Lexicographic.{slice_cmp};
ghost use Rattle.std.specs.List.{AllByRecursion};
ghost use Rattle.flume_value.specs.inner.Numbers.{number, IsFirst};

use std::cmp::Ordering;

/// How many bytes are read as three numbers, with a length of a byte behind them.
pub(crate) const ROOM: usize = 22;

/// How the bytes stand in order, and where they are the same, the two lengths.
pub(crate) fn order(a: &[u8; ROOM], a_len: u8, b: &[u8; ROOM], b_len: u8) -> Ordering
    ensures { result ≡ ordering_then (slice_cmp nat_cmp a.now b.now) (nat_cmp a_len b_len) }
{
    let (x, y) = (first(a), first(b));
    if x != y {
        return x.cmp(&y);
    }
    later_order(a, a_len, b, b_len)
}

/// The first eight bytes as a number. Each of the bytes is below 256, which a list of them does
/// not say.
pub(crate) fn first_in(bytes: &[u8; ROOM]) -> u64
    ensures number { result ≡ number (take 8 bytes.now) }
    ensures small { AllByRecursion (λ n. n < 256) bytes.now }
{
    first(bytes)
}

/// The first eight bytes of a longer text as a number.
pub(crate) fn first_of(bytes: &[u8]) -> u64
    requires { 8 ≤ length bytes.now }
    ensures { IsFirst result bytes.now }
{
    first_eight(bytes)
}

fn first_eight(b: &[u8]) -> u64
    requires { 8 ≤ length b.now }
    ensures number { result ≡ number (take 8 b.now) }
    ensures small { AllByRecursion (λ n. n < 256) (take 8 b.now) }
{
    u64::from_be_bytes([b[0], b[1], b[2], b[3], b[4], b[5], b[6], b[7]])
}

// The order of the bytes behind the first eight.
fn later_order(a: &[u8; ROOM], a_len: u8, b: &[u8; ROOM], b_len: u8) -> Ordering
    ensures { result ≡ ordering_then (slice_cmp nat_cmp (drop 8 a.now) (drop 8 b.now))
        (nat_cmp a_len b_len) }
{
    let (x, y) = (second(a), second(b));
    if x != y {
        return x.cmp(&y);
    }
    last_order(a, a_len, b, b_len)
}

// The order of the last six bytes.
fn last_order(a: &[u8; ROOM], a_len: u8, b: &[u8; ROOM], b_len: u8) -> Ordering
    ensures { result ≡ ordering_then
        (slice_cmp nat_cmp (drop 8 (drop 8 a.now)) (drop 8 (drop 8 b.now)))
        (nat_cmp a_len b_len) }
{
    third(a, a_len).cmp(&third(b, b_len))
}

fn first(b: &[u8; ROOM]) -> u64
    ensures { result ≡ number (take 8 b.now) }
{
    u64::from_be_bytes([b[0], b[1], b[2], b[3], b[4], b[5], b[6], b[7]])
}

fn second(b: &[u8; ROOM]) -> u64
    ensures { result ≡ number (take 8 (drop 8 b.now)) }
{
    u64::from_be_bytes([b[8], b[9], b[10], b[11], b[12], b[13], b[14], b[15]])
}

fn third(b: &[u8; ROOM], len: u8) -> u64
    ensures { result ≡ number (take 6 (drop 16 b.now) ++ 0 ∷ len ∷ []) }
{
    u64::from_be_bytes([b[16], b[17], b[18], b[19], b[20], b[21], 0, len])
}
