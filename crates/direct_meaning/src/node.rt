// What a node makes.
ghost use Rattle.std.specs.Prelude.{◌≡◌, ℕ, ◌+◌, ◌<◌, ◌^◌, ◌++◌, ◌∷◌, [], false, IfOk, IsTrue, List, Some, length};
ghost use Rattle.std.specs.Vec.Iter.{into_iter_items};
ghost use Rattle.flume_value.specs.Bag.{bag_of};
ghost use Rattle.flume_value.specs.declared.value.Value.{Value as Value_};
ghost use Rattle.script_laws.specs.WellFormed.{IsWellFormed};
ghost use Rattle.script_program.specs.Needed.{is_needed};
ghost use Rattle.direct_meaning.specs.inner.Stands.{Stands};

use crate::beside::done_beside;
use crate::calls::done;
use crate::combining::combined;
use crate::flatten::together;
use crate::kept::{Kept, kept_at};
use crate::objects::combined_whole;
use crate::operate::operated;
use crate::sorting::ascending_rows;
use crate::steps::{counted, grouped, joined, topped};
use flume_collection::Trap;
use flume_value::{Items, Pile};
use script_program::{Made, Program};
use std::alloc::{AllocError, Global};
use std::vec::IntoIter;

/// What the node of a number makes of the rows to come and of the collections before it. The traps
/// of its own go behind those found.
pub(crate) fn make(
    alloc: Global,
    program: &Program,
    number: usize,
    table: &[Option<Kept>],
    inputs: &mut IntoIter<Items>,
    traps: &mut Vec<Trap>,
) -> Result<Kept, AllocError>
    requires well_formed { IsWellFormed program.now.script }
    requires stands { (rows : List (List Value_))
        × Stands program.now.script rows number (into_iter_items inputs.old) table.now
        traps.old.items }
    requires below { number < length program.now.script.nodes }
    requires few { number < 2 ^ 32 }
    requires needed { IsTrue (is_needed program.now.script number) }
    ensures { (rows : List (List Value_))
        → Stands program.now.script rows number (into_iter_items inputs.old) table.now
        traps.old.items
        → IfOk result (λ kept. Stands program.now.script rows (number + 1)
        (into_iter_items inputs.new) (table.now ++ Some kept ∷ []) traps.new.items) }
{
    match &program.node(number).made {
        Made::Input { .. } => rows(alloc, inputs),
        Made::Do {
            source,
            function,
            output,
        } => {
            let source = kept_at(table, *source);
            done(alloc, program, number, *function, *output, source, traps)
        }
        Made::Group { source } => grouped(alloc, kept_at(table, *source)),
        Made::Combine { source, by } => {
            combined(alloc, number as u32, *by, kept_at(table, *source), traps)
        }
        Made::Flatten { sources } => together(alloc, table, sources.as_slice()),
        Made::Count { source } => counted(alloc, kept_at(table, *source)),
        Made::Join { left, right } => joined(alloc, kept_at(table, *left), kept_at(table, *right)),
        Made::Top { number, source } => topped(alloc, *number, kept_at(table, *source)),
        Made::CombineAll { source, by } => {
            combined_whole(alloc, number as u32, *by, kept_at(table, *source), traps)
        }
        Made::Operate { objects, function } => {
            let objects = objects.as_slice();
            operated(alloc, program, number, table, objects, *function, traps)
        }
        Made::DoWith {
            source,
            function,
            object,
        } => {
            let source = kept_at(table, *source);
            let object = kept_at(table, *object);
            done_beside(alloc, program, number, *function, source, object, traps)
        }
        Made::Saved { .. } => rows(alloc, inputs),
    }
}

/// The list of the next source.
fn rows(alloc: Global, inputs: &mut IntoIter<Items>) -> Result<Kept, AllocError>
    requires { 0 < length (into_iter_items inputs.old) }
    ensures members { IfOk result (λ kept. (rows : List Value_)
        × (into_iter_items inputs.old ≡ rows ∷ into_iter_items inputs.new)
        × (kept.members ≡ bag_of rows)) }
    ensures trapped { IfOk result (λ kept. kept.trapped ≡ false) }
{
    match inputs.next() {
        Some(rows) => Ok(Kept {
            members: Pile::from_vec(ascending_rows(alloc, rows.into_vec())?),
            trapped: false,
        }),
        None => unreachable!(),
    }
}
