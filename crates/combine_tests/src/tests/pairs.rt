// The parts of a pair.
ghost use Rattle.bag_groups.specs.Pairs.{IsPair};

use super::tables::ints;
use super::wanted::is_int;
use bag_groups::{key, value};
use flume_value::Value;
use std::alloc::{AllocError, Global};
use std::test::Fail;

fn has_parts(pair: &Value, first: i64, second: i64) -> bool
    requires { IsPair pair.now }
{
    is_int(key(pair), first) && is_int(value(pair), second)
}

// Whether the parts of a pair are read as it was made.
fn is_read(alloc: Global, first: i64, second: i64) -> Result<bool, AllocError> {
    let pair = ints(alloc, first, second)?;
    let is_so = has_parts(&pair, first, second);
    drop(pair);
    Ok(is_so)
}

#[test]
fn reads_the_parts_of_a_pair(rt: HostRuntime) -> Result<(), Fail> {
    assert!(rt; is_read(rt.alloc(), 2, 7)?);
    Ok(())
}
