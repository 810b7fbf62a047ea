// Values of each variant that threads share, and that are sent through threads.
use super::samples::of_each_variant;
use flume_value::{Items, Pile, Str, Value, partition};
use std::alloc::{AllocError, Global};
use std::marker::Model;
use std::test::Fail;
use std::thread;
use std::thread::Threads;

/// How many of the values have the partition, of two.
fn count_of(values: &[Value], part: u32) -> usize {
    let mut count = 0usize;
    for value in values {
        if partition(value, 2) == part {
            count = count.saturating_add(1);
        }
    }
    count
}

/// How many values each partition of two has, each counted by a thread.
fn counts<R: Threads>(rt: &R, values: &[Value]) -> (usize, usize) {
    thread::join(rt, || count_of(values, 0), || count_of(values, 1))
}

/// A share of work over a list of values, which contracts see as the list.
#[derive(Drop)]
struct Share<'a> {
    values: &'a [Value],
}

impl<'a> Model for Share<'a> {
    ghost use Rattle.std.specs.Prelude.{List};
    ghost use Rattle.std.specs.Coded.{coded_list};
    ghost use Rattle.flume_value.specs.declared.value.Value.{Value as Plain};
    ghost use Rattle.flume_value.specs.contracts.value.Value as value;

    ghost Value = { List Plain };

    ghost coded = { coded_list value.the_row.coded };

    ghost view = { λ share. share.values.now };
}

trait Work {
    /// How many values the first partition of two has.
    fn count(&self) -> usize;
}

impl<'a> Work for Share<'a> {
    fn count(&self) -> usize {
        count_of(self.values, 0)
    }
}

/// One piece of work, done by two threads.
fn both<R: Threads, W: Work + Sync>(rt: &R, work: &W) -> (usize, usize) {
    thread::join(rt, || work.count(), || work.count())
}

/// A list and a text, each handed through a thread.
fn sent<R: Threads>(rt: &R, list: Items, text: Str) -> (Items, Str) {
    thread::join(rt, move || list, move || text)
}

/// The counts of the values of each variant.
fn counts_of_each<R: Threads>(rt: &R, alloc: Global) -> Result<(usize, usize), AllocError> {
    let values = of_each_variant(alloc)?;
    Ok(counts(rt, &values))
}

/// What two threads count that share the values of each variant.
fn shared<R: Threads>(rt: &R, alloc: Global) -> Result<(usize, usize), AllocError> {
    let values = of_each_variant(alloc)?;
    let share = Share { values: &values };
    Ok(both(rt, &share))
}

fn are_eight_and_hi(back: &(Items, Str)) -> bool {
    back.0.len() == 8 && back.1.is(b"hi")
}

/// Whether the list of each variant and the text hi come back from threads.
fn are_back<R: Threads>(rt: &R, alloc: Global) -> Result<bool, AllocError> {
    let list = Pile::from_vec(of_each_variant(alloc)?);
    let back = sent(rt, list, Str::from_slice(alloc, b"hi")?);
    Ok(are_eight_and_hi(&back))
}

#[test]
fn threads_share_values_and_send_them(rt: HostRuntime) -> Result<(), Fail> {
    let alloc = rt.alloc();
    assert!(rt; matches!(counts_of_each(&rt, alloc), Ok((3, 5))));
    assert!(rt; matches!(shared(&rt, alloc), Ok((3, 3))));
    assert!(rt; matches!(are_back(&rt, alloc), Ok(true)));
    Ok(())
}
