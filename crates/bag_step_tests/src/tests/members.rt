// Rows of counting members, and of keeping the greatest.
use super::bags::{ints, word, words};
use bag_groups::pair;
use bag_steps::{count, greatest};
use flume_value::Value;
use std::alloc::{AllocError, Global};
use std::test::Fail;

// A word with how often it is there.
fn count_of(alloc: Global, name: &str, times: i64) -> Result<Value, AllocError> {
    pair(alloc, word(alloc, name)?, Value::Int(times))
}

// Whether these words are counted so.
fn counts(alloc: Global, members: &[&str], wanted: &[(&str, i64)]) -> Result<bool, AllocError> {
    let bag = words(alloc, members)?;
    let made = count(alloc, &bag)?;
    let mut all = Vec::new(alloc);
    for one in wanted {
        all.push(count_of(alloc, one.0, one.1)?)?;
    }
    Ok(made == all)
}

#[test]
fn counts_words(rt: HostRuntime) -> Result<(), Fail> {
    let alloc = rt.alloc();
    assert!(rt;
        counts(
            alloc,
            &["elm", "ash", "elm", "elm"],
            &[("ash", 1), ("elm", 3)]
        )?
    );
    assert!(rt; counts(alloc, &[], &[])?);
    Ok(())
}

// Whether so many of the greatest of these ints are those.
fn keeps(alloc: Global, n: u32, members: &[i64], wanted: &[i64]) -> Result<bool, AllocError> {
    let bag = ints(alloc, members)?;
    let made = greatest(alloc, n, &bag)?;
    let all = ints(alloc, wanted)?;
    Ok(made == all)
}

#[test]
fn keeps_the_greatest(rt: HostRuntime) -> Result<(), Fail> {
    let alloc = rt.alloc();
    assert!(rt; keeps(alloc, 0, &[3, 1, 3], &[])?);
    assert!(rt; keeps(alloc, 2, &[3, 1, 3], &[3, 3])?);
    assert!(rt; keeps(alloc, 5, &[3, 1, 3], &[1, 3, 3])?);
    assert!(rt; keeps(alloc, 2, &[], &[])?);
    Ok(())
}
