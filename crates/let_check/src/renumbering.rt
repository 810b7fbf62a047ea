// The same way to make a collection, from other numbers: those that a turn of a repeat sees.
ghost use Rattle.std.specs.Prelude.{◌≡◌, ◌++◌, map, IfOk};
ghost use Rattle.script_rules.specs.Repeats as spec;

use flume_types::{Column, Columns};
use flume_value::Pile;
use script_program::Made;
use std::alloc::{AllocError, Global};

/// The same way to make a collection, where a turn sees these behind the collections outside.
pub fn renumbered(
    alloc: Global,
    outside: usize,
    seen: &[usize],
    how: &Made,
) -> Result<Made, AllocError>
    ensures { IfOk result (λ made.
        made ≡ spec.made_from_others (spec.stands_for outside seen.now) how.now) }
{
    match how {
        Made::Input { file, columns } => {
            let columns = copied_columns(alloc, columns.as_slice())?;
            let file = file.copy(alloc)?;
            Ok(Made::Input { file, columns })
        }
        Made::Do {
            source,
            function,
            output,
        } => Ok(Made::Do {
            source: stands_for(outside, seen, *source),
            function: *function,
            output: *output,
        }),
        Made::Group { source } => Ok(Made::Group {
            source: stands_for(outside, seen, *source),
        }),
        Made::Combine { source, by } => Ok(Made::Combine {
            source: stands_for(outside, seen, *source),
            by: *by,
        }),
        Made::Flatten { sources } => {
            let sources = stand_for_all(alloc, outside, seen, sources.as_slice())?;
            Ok(Made::Flatten { sources })
        }
        Made::Count { source } => Ok(Made::Count {
            source: stands_for(outside, seen, *source),
        }),
        Made::Join { left, right } => Ok(Made::Join {
            left: stands_for(outside, seen, *left),
            right: stands_for(outside, seen, *right),
        }),
        Made::Top { number, source } => Ok(Made::Top {
            number: *number,
            source: stands_for(outside, seen, *source),
        }),
        Made::CombineAll { source, by } => Ok(Made::CombineAll {
            source: stands_for(outside, seen, *source),
            by: *by,
        }),
        Made::Operate { objects, function } => {
            let objects = stand_for_all(alloc, outside, seen, objects.as_slice())?;
            Ok(Made::Operate {
                objects,
                function: *function,
            })
        }
        Made::DoWith {
            source,
            function,
            object,
        } => Ok(Made::DoWith {
            source: stands_for(outside, seen, *source),
            function: *function,
            object: stands_for(outside, seen, *object),
        }),
        Made::Saved { is_object, call } => Ok(Made::Saved {
            is_object: *is_object,
            call: *call,
        }),
    }
}

/// What these numbers of a body stand for.
pub fn stand_for_all(
    alloc: Global,
    outside: usize,
    seen: &[usize],
    numbers: &[usize],
) -> Result<Pile<usize>, AllocError>
    ensures { IfOk result (λ all. all ≡ map (spec.stands_for outside seen.now) numbers.now) }
{
    let mut all = Pile::new(alloc);
    for number in numbers {
        all.push(stands_for(outside, seen, *number))?;
    }
    Ok(all)
}

/// For which collection a number of a body stands.
fn stands_for(outside: usize, seen: &[usize], number: usize) -> usize
    ensures { result ≡ spec.stands_for outside seen.now number }
{
    if number < outside {
        return number;
    }
    match seen.get(number - outside) {
        Some(other) => *other,
        None => 0,
    }
}

fn copied_columns(alloc: Global, columns: &[Column]) -> Result<Columns, AllocError>
    ensures { IfOk result (λ copies. copies ≡ columns.now) }
{
    let mut copies = Pile::new(alloc);
    for column in columns {
        copies.push(copied_column(alloc, column)?)?;
    }
    Ok(copies)
}

fn copied_column(alloc: Global, column: &Column) -> Result<Column, AllocError>
    ensures { IfOk result (λ copy. copy ≡ column.now) }
{
    let name = column.name.copy(alloc)?;
    Ok(Column {
        name,
        kind: column.kind,
    })
}
