// Lists that are taken away. The others stay.
ghost use Rattle.std.specs.Prelude.{◌≡◌, ℕ, [], false, length, slice_get};
ghost use Rattle.flume_collection.specs.Calls.{or_none};
ghost use Rattle.flume_types.specs.Typing.{AllHave};
ghost use Rattle.flume_types.specs.declared.types.Ty.{Ty as GhostTy};
ghost use Rattle.exec_plan.specs.declared.plan.PlanPlace.{PlanPlace as GhostPlace};
ghost use Rattle.exec_plan.specs.declared.plan.PlanPlace.TheVariants.{Result as AtResult, Source as AtSource};
ghost use Rattle.stage_results.specs.of_map_shard.Tables.{table};
ghost use Rattle.stage_exec.specs.inner.Places as spec;

use exec_plan::PlanPlace;
use flume_value::{Items, Pile};
use stage_results::map_shard::take_list;
use std::alloc::Global;
use std::mem;

/// Whether a collection is one of these.
pub(crate) fn is_among(places: &[PlanPlace], place: PlanPlace) -> bool
    ensures { result ≡ spec.is_among places.now place }
{
    places.iter().any(|other| is_same(*other, place))
}

/// Whether two collections are one.
pub(crate) fn is_same(one: PlanPlace, other: PlanPlace) -> bool
    ensures { result ≡ spec.is_same one other }
{
    match (one, other) {
        (PlanPlace::Source(one), PlanPlace::Source(other)) => one == other,
        (
            PlanPlace::Result { stage, number },
            PlanPlace::Result {
                stage: other_stage,
                number: other_number,
            },
        ) => stage == other_stage && number == other_number,
        _ => false,
    }
}

/// Takes the list of a collection away. What has a type keeps it.
pub(crate) fn taken(
    alloc: Global,
    sources: &mut Vec<Items>,
    results: &mut Vec<Pile<Items>>,
    place: PlanPlace,
) -> Items
    ensures list { result ≡ table sources.old.items results.old.items place }
    ensures others { (q : GhostPlace) → spec.is_same q place ≡ false →
        table sources.new.items results.new.items q
        ≡ table sources.old.items results.old.items q }
    ensures typed { (type : GhostTy) (q : GhostPlace) →
        AllHave type (table sources.old.items results.old.items q) →
        AllHave type (table sources.new.items results.new.items q) }
    ensures count { length results.new.items ≡ length results.old.items }
{
    match place {
        PlanPlace::Source(number) => taken_rows(alloc, sources, results.as_slice(), number),
        PlanPlace::Result { stage, number } => {
            taken_result(alloc, sources.as_slice(), results, stage, number)
        }
    }
}

// Takes the rows of a source away.
fn taken_rows(
    alloc: Global,
    sources: &mut Vec<Items>,
    _results: &[Pile<Items>],
    number: u32,
) -> Items
    ensures list { result ≡ table sources.old.items _results.now (AtSource number) }
    ensures others { (q : GhostPlace) → spec.is_same q (AtSource number) ≡ false →
        table sources.new.items _results.now q ≡ table sources.old.items _results.now q }
    ensures typed { (type : GhostTy) (q : GhostPlace) →
        AllHave type (table sources.old.items _results.now q) →
        AllHave type (table sources.new.items _results.now q) }
{
    let at = number as usize;
    if at >= sources.len() {
        return Pile::new(alloc);
    }
    mem::replace(&mut sources[at], Pile::new(alloc))
}

// Takes a result of a stage away.
fn taken_result(
    alloc: Global,
    _sources: &[Items],
    results: &mut Vec<Pile<Items>>,
    stage: u32,
    number: u32,
) -> Items
    ensures list { result ≡ table _sources.now results.old.items (AtResult stage number) }
    ensures others { (q : GhostPlace) → spec.is_same q (AtResult stage number) ≡ false →
        table _sources.now results.new.items q ≡ table _sources.now results.old.items q }
    ensures typed { (type : GhostTy) (q : GhostPlace) →
        AllHave type (table _sources.now results.old.items q) →
        AllHave type (table _sources.now results.new.items q) }
    ensures count { length results.new.items ≡ length results.old.items }
{
    let at = stage as usize;
    if at == 0 || at > results.len() {
        return Pile::new(alloc);
    }
    take_list(alloc, &mut results[at - 1], number as usize)
}
