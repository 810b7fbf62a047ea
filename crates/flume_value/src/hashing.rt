// The partition of a key: FNV-1a of its canonical bytes, hashed while they are walked. A table of
// keys hashes them by it too, but for numbers and texts, which it takes in one piece.
#![tactic(auto, using(crate::proofs::CanonicalLemmas::canonical_rules))]

ghost use Rattle.std.specs.Prelude.{◌≡◌, ◌<◌, ◌≤◌, ◌++◌, length};
ghost use Rattle.std.specs.List.{fold, flat_map};
ghost use Rattle.flume_value.specs.Canonical.{canonical, length_bytes, int_bytes, wide_bytes};
ghost use Rattle.flume_value.specs.Partitions.{hash_step as step, fnv_1a, partition_of};

use crate::value::Value;
use std::hash::{Hash, Hasher};

// Where the hash of no bytes begins.
const START: u64 = 0xcbf29ce484222325;

/// The partition of the key, from 0 to p - 1: FNV-1a with 64 bits of its canonical bytes, modulo
/// p. Equal keys have one partition. It takes no memory: it hashes while it walks, and its stack
/// is as deep as the value, which for values of a script's types is 16 levels at most.
pub fn partition(key: &Value, p: u32) -> u32
    requires { 1 ≤ p }
    ensures part { result ≡ partition_of key.now p }
    ensures within { result < p }
{
    let hash = hash_value(START, key);
    (hash % u64::from(p)) as u32
}

impl Hash for Value {
    ghost use Rattle.std.proofs.Common.{ap};
    ghost use Rattle.flume_value.specs.inner.Exact.{found_equal};
    ghost use Rattle.flume_value.specs.inner.Hashes.{writes};

    ghost hash_input = { writes };

    ghost respects_eq = { λ x y same. ap writes (found_equal x y same) };

    fn hash<H: Hasher>(&self, state: &mut H) {
        match self {
            Value::Int(n) => state.write_i64(*n),
            Value::Text(s) => state.write(s.as_bytes()),
            _ => state.write_u64(hash_value(START, self)),
        }
    }
}

/// The hash with the value's canonical bytes hashed in.
#[cycle(hash)]
fn hash_value(hash: u64, value: &Value) -> u64
    ensures { result ≡ fold step hash (canonical value.now) }
{
    match value {
        Value::Int(n) => hash_int(hash_byte(hash, 1), *n),
        Value::Bool(b) => hash_byte(hash_byte(hash, 2), if *b { 1 } else { 0 }),
        Value::Text(s) => hash_text(hash_byte(hash, 3), s.as_bytes()),
        Value::List(items) => hash_items(hash_byte(hash, 4), items.as_slice()),
        Value::Rec(items) => hash_items(hash_byte(hash, 5), items.as_slice()),
        Value::Left(inner) => hash_value(hash_byte(hash, 6), inner.get()),
        Value::Right(inner) => hash_value(hash_byte(hash, 7), inner.get()),
        Value::Wide(n) => hash_wide(hash_byte(hash, 8), n),
    }
}

#[cycle(hash)]
fn hash_items(start: u64, items: &[Value]) -> u64
    ensures { result ≡
        fold step start (length_bytes (length items.now) ++ flat_map canonical items.now) }
{
    let mut hash = hash_length(start, items.len());
    for item in items {
        hash = hash_value(hash, item);
    }
    hash
}

fn hash_text(hash: u64, text: &[u8]) -> u64
    ensures { result ≡ fold step hash (length_bytes (length text.now) ++ text.now) }
{
    hash_bytes(hash_length(hash, text.len()), text)
}

#[tactic(auto, unfolding(crate::specs::Canonical::length_bytes))]
fn hash_length(hash: u64, n: usize) -> u64
    ensures { result ≡ fold step hash (length_bytes n) }
{
    hash_bytes(hash, &n.to_be_bytes())
}

#[tactic(auto, unfolding(crate::specs::Canonical::int_bytes))]
fn hash_int(hash: u64, n: i64) -> u64
    ensures { result ≡ fold step hash (int_bytes n) }
{
    hash_bytes(hash, &n.to_be_bytes())
}

#[tactic(auto, unfolding(crate::specs::Canonical::wide_bytes))]
fn hash_wide(hash: u64, n: &i128) -> u64
    ensures { result ≡ fold step hash (wide_bytes n.now) }
{
    let n = *n;
    hash_bytes(hash, &n.to_be_bytes())
}

fn hash_bytes(hash: u64, bytes: &[u8]) -> u64
    ensures { result ≡ fold step hash bytes.now }
{
    bytes.iter().fold(hash, |hash, byte| hash_byte(hash, *byte))
}

/// The hash with one byte more.
#[tactic(auto, unfolding(crate::specs::Partitions::hash_step))]
fn hash_byte(hash: u64, byte: u8) -> u64
    ensures { result ≡ step hash byte }
{
    (hash ^ u64::from(byte)).wrapping_mul(0x100000001b3)
}
