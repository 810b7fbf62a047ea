// Numbers of eight and of sixteen bytes, the highest byte first.
ghost use Rattle.std.specs.Prelude.{◌≡◌, ◌≤◌, length, take};
ghost use Rattle.flume_value.specs.inner.Numbers.{number};

/// The first eight bytes as a number.
pub fn first_eight(b: &[u8]) -> u64
    requires { 8 ≤ length b.now }
    ensures { result ≡ number (take 8 b.now) }
{
    u64::from_be_bytes([b[0], b[1], b[2], b[3], b[4], b[5], b[6], b[7]])
}

/// The first sixteen bytes as a number.
#[tactic(auto, using(crate::proofs::Digits::halves))]
pub fn first_sixteen(b: &[u8]) -> u128
    requires { 16 ≤ length b.now }
    ensures { result ≡ number (take 16 b.now) }
{
    let high = first_eight(b);
    let low = first_eight(&b[8..]);
    high as u128 * 0x1_0000_0000_0000_0000 + low as u128
}
