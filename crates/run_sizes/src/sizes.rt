// The sizes of the needed collections, by what a run has counted.
ghost use Rattle.std.specs.Prelude.{◌≡◌, ◌<◌, ◌++◌, ◌-◌, ◌^◌, [], IfOk, List, OnOk, Option, Some, length, map};
ghost use Rattle.flume_collection.specs.Collection.{Collection};
ghost use Rattle.flume_value.specs.declared.value.Value.{Value};
ghost use Rattle.build_law.specs.of_direct_meaning.Direct.{meaning, sizes_of};
ghost use Rattle.run_sizes.specs.Counts.{AreOwnCounts};
ghost use Rattle.run_sizes.specs.inner.Along.{behind as behind_is, count_at as count_is, kept, list_count as list_is, named_sizes, size_at as size_is, size_line, sized_as, sizes_along, together as together_is};

use flume_value::Str;
use script_program::{Made, Program, source_at, source_numbers};
use std::alloc::{AllocError, Global};

/// The name of each needed collection in order, and how many members it has, where the lists of the
/// needed sources have so many, and a run has counted so much for each collection by its number.
pub fn needed_sizes(
    alloc: Global,
    program: &Program,
    members: &[u64],
    counts: &[u64],
) -> Result<Vec<(Str, u64)>, AllocError>
    ensures { IfOk result (λ sizes. (lists : List (List Value))
        (made : List (Option Collection)) → members.now ≡ map length lists →
        meaning program.now.script lists ≡ Some made →
        AreOwnCounts program.now.script made counts.now →
        sizes.items ≡ sizes_of program.now.script made) }
{
    let numbers = source_numbers(alloc, program)?;
    let sizes = sizes_by_number(alloc, program, members, numbers.as_slice(), counts)?;
    named(alloc, program, sizes.as_slice())
}

/// The size of each collection by its number, where it is needed. The lists of its sources, of so
/// many members, stand by these numbers.
fn sizes_by_number(
    alloc: Global,
    program: &Program,
    members: &[u64],
    numbers: &[u32],
    counts: &[u64],
) -> Result<Vec<Option<u64>>, AllocError>
    ensures along { IfOk result (λ sizes. sizes.items
        ≡ sizes_along program.now.script members.now numbers.now counts.now
        program.now.script.nodes 0 []) }
    ensures count { IfOk result (λ sizes.
        length sizes.items ≡ length program.now.script.nodes) }
{
    let mut source = 0;
    let mut sizes = Vec::new(alloc);
    for number in 0..program.node_count() {
        let size = if program.is_needed(number) {
            let made = &program.node(number).made;
            let size = size_of(
                made,
                number,
                members,
                numbers,
                source,
                counts,
                sizes.as_slice(),
            );
            source = behind(made, source);
            Some(size)
        } else {
            None
        };
        sizes.push(size)?;
    }
    Ok(sizes)
}

/// The size of the collection of a number that is made so, behind collections of these sizes, where
/// the next source has that place.
fn size_of(
    made: &Made,
    number: usize,
    members: &[u64],
    numbers: &[u32],
    source: usize,
    counts: &[u64],
    sizes: &[Option<u64>],
) -> u64
    ensures { result
        ≡ sized_as members.now numbers.now counts.now number made.now source sizes.now }
{
    match made {
        Made::Input { .. } | Made::Saved { .. } => list_count(members, numbers, source),
        Made::Flatten { sources } => together(sources.as_slice(), sizes),
        Made::Do { .. }
        | Made::Group { .. }
        | Made::Combine { .. }
        | Made::Count { .. }
        | Made::Join { .. }
        | Made::Top { .. }
        | Made::CombineAll { .. }
        | Made::Operate { .. }
        | Made::DoWith { .. } => count_at(counts, number),
    }
}

/// How many members the source of that place has.
fn list_count(members: &[u64], numbers: &[u32], source: usize) -> u64
    ensures { result ≡ list_is members.now numbers.now source }
{
    match members.get(source_at(numbers, source) as usize) {
        Some(count) => *count,
        None => 0,
    }
}

/// What was counted for a number.
fn count_at(counts: &[u64], number: usize) -> u64
    ensures { result ≡ count_is counts.now number }
{
    match counts.get(number) {
        Some(count) => *count,
        None => 0,
    }
}

/// The size of collections together.
fn together(sources: &[usize], sizes: &[Option<u64>]) -> u64
    ensures { result ≡ kept (together_is sizes.now sources.now) }
{
    let mut total: u64 = 0;
    for source in sources {
        total = total.saturating_add(size_at(sizes, *source));
    }
    total
}

/// The size of the collection of a number, where it is made.
fn size_at(sizes: &[Option<u64>], number: usize) -> u64
    ensures { result ≡ size_is sizes.now number }
{
    match sizes.get(number) {
        Some(Some(size)) => *size,
        _ => 0,
    }
}

/// The place of the next source, behind a collection that is made so.
fn behind(made: &Made, source: usize) -> usize
    requires { source < 2 ^ 64 - 1 }
    ensures { result ≡ behind_is made.now source }
{
    match made {
        Made::Input { .. } | Made::Saved { .. } => source + 1,
        _ => source,
    }
}

/// The names and the sizes of the collections that are made, in order.
fn named(
    alloc: Global,
    program: &Program,
    sizes: &[Option<u64>],
) -> Result<Vec<(Str, u64)>, AllocError>
    requires { length sizes.now ≡ length program.now.script.nodes }
    ensures { IfOk result (λ named.
        named.items ≡ named_sizes program.now.script.nodes sizes.now) }
{
    let mut named = Vec::new(alloc);
    for (number, size) in sizes.iter().enumerate() {
        push_size(alloc, program.node_name(number), size, &mut named)?;
    }
    Ok(named)
}

/// Puts the name and the size of a collection behind others, where it is made.
fn push_size(
    alloc: Global,
    name: &Str,
    size: &Option<u64>,
    named: &mut Vec<(Str, u64)>,
) -> Result<(), AllocError>
    ensures { OnOk result (named.new.items ≡ named.old.items ++ size_line name.now size.now) }
{
    match size {
        Some(size) => {
            named.push((name.copy(alloc)?, *size))?;
            Ok(())
        }
        None => Ok(()),
    }
}
