// A map task in legs: what the steps give of some of its elements goes to the output channels
// before the steps go on, so that the pairs of a whole task never stand side by side.
ghost use Rattle.std.specs.Prelude.{◌≡◌, ◌<◌, ◌++◌, List, true, IfOk, length, map};
ghost use Rattle.std.specs.List.{AllByRecursion, AllZip, list_all};
ghost use Rattle.flume_value.specs.declared.value.Value.{Value as GhostValue};
ghost use Rattle.exec_plan.specs.declared.plan.Take.{Take as GhostTake};
ghost use Rattle.map_shard.specs.inner.Fillings.{IsFilled, sent_of};
ghost use Rattle.map_shard.specs.inner.Legs.{CanRun, HaveRun, IsWholeIn, count_with, each_with, own_world};
ghost use Rattle.map_shard.specs.inner.Sending.{CanSend, taken};
ghost use Rattle.map_shard.specs.inner.Single.{is_single};
ghost use Rattle.map_shard.specs.inner.Takes.{AreTakes};

use crate::filling::Filling;
use crate::joining::join_counts;
use crate::send::{all_sent, nothing_sent, send_more};
use crate::single::are_single;
use crate::takes::Takes;
use exec_graph::Roots;
use exec_plan::OutChannel;
use flume_collection::Trap;
use flume_value::{Pile, Value};
use forest_run::run_part;
use forest_steps::{Functions, Outputs};
use shuffle_parts::MapOut;
use std::alloc::{AllocError, Global};

/// How many elements a leg has at most.
const LEG: usize = 256;

/// What legs came to so far: what each output channel was given, and the counts of the steps.
#[derive(Drop)]
pub(crate) struct Legs {
    pub(crate) fillings: Vec<Filling>,
    pub(crate) counts: Vec<u64>,
}

/// What a map task does with its elements: the steps of input channel m, and the output channels
/// that take what they give.
#[derive(Drop)]
pub(crate) struct Steps<'a, F: Functions> {
    pub(crate) functions: &'a F,
    pub(crate) does: &'a Option<Roots>,
    pub(crate) channels: &'a [OutChannel],
    pub(crate) takes: &'a Takes,
    pub(crate) m: u32,
    pub(crate) partitions: u32,
}

impl<'a, F: Functions> Steps<'a, F> {
    /// What the steps on the elements give the output channels, or the first trap.
    pub(crate) fn run(
        &self,
        alloc: Global,
        elements: &[Value],
    ) -> Result<Result<MapOut, Trap>, AllocError>
        requires { CanRun F.called self.now F.can_call elements.now }
        ensures { IfOk result
            (IsWholeIn (own_world F.called self.now) self.now elements.now) }
    {
        match self.run_all(alloc, elements)? {
            Ok(legs) => Ok(Ok(whole(alloc, legs)?)),
            Err(trap) => Ok(Err(trap)),
        }
    }

    // Where a channel takes two lists of the input channel, the first list is sent whole before the
    // second, so there is one leg. So there is where no channel groups: nothing is won then.
    fn run_all(&self, alloc: Global, elements: &[Value]) -> Result<Result<Legs, Trap>, AllocError>
        requires { CanRun F.called self.now F.can_call elements.now }
        ensures { IfOk result (HaveRun F.called self.now elements.now) }
    {
        if some_group(self.channels) && are_single(self.channels, self.m) {
            return self.run_legs(alloc, elements);
        }
        self.run_leg(alloc, elements)
    }

    fn run_legs(&self, alloc: Global, elements: &[Value]) -> Result<Result<Legs, Trap>, AllocError>
        requires can { CanRun F.called self.now F.can_call elements.now }
        requires single { list_all (is_single self.now.m) self.now.channels.now ≡ true }
        ensures { IfOk result (HaveRun F.called self.now elements.now) }
    {
        let (first, others) = cut(elements);
        let mut legs = self.run_leg(alloc, first)?;
        let mut left = others;
        'turns: while !left.is_empty() {
            let (next, behind) = cut(left);
            let more = self.add_leg(alloc, next, legs)?;
            legs = more;
            left = behind;
        }
        Ok(legs)
    }

    fn run_leg(&self, alloc: Global, leg: &[Value]) -> Result<Result<Legs, Trap>, AllocError>
        requires { CanRun F.called self.now F.can_call leg.now }
        ensures { IfOk result (HaveRun F.called self.now leg.now) }
    {
        match run_part(alloc, self.functions, self.does, leg)? {
            Ok(given) => {
                let fillings = nothing_sent(alloc, self.channels, self.partitions)?;
                Ok(Ok(self.send_given(alloc, given, fillings)?))
            }
            Err(trap) => Ok(Err(trap)),
        }
    }

    // The next leg behind those before it, of which none goes on behind a trap.
    fn add_leg(
        &self,
        alloc: Global,
        leg: &[Value],
        before: Result<Legs, Trap>,
    ) -> Result<Result<Legs, Trap>, AllocError>
        requires can { CanRun F.called self.now F.can_call leg.now }
        requires single { list_all (is_single self.now.m) self.now.channels.now ≡ true }
        requires stands { (done : List GhostValue) × HaveRun F.called self.now done before }
        ensures { (done : List GhostValue) → HaveRun F.called self.now done before →
            IfOk result (HaveRun F.called self.now (done ++ leg.now)) }
    {
        match before {
            Ok(legs) => self.go_on(alloc, leg, legs),
            Err(trap) => Ok(Err(trap)),
        }
    }

    // The next leg behind those before it, which came to this.
    fn go_on(
        &self,
        alloc: Global,
        leg: &[Value],
        legs: Legs,
    ) -> Result<Result<Legs, Trap>, AllocError>
        requires can { CanRun F.called self.now F.can_call leg.now }
        requires single { list_all (is_single self.now.m) self.now.channels.now ≡ true }
        requires stands { (done : List GhostValue) × HaveRun F.called self.now done (Ok legs) }
        ensures { (done : List GhostValue) → HaveRun F.called self.now done (Ok legs) →
            IfOk result (HaveRun F.called self.now (done ++ leg.now)) }
    {
        let Legs { fillings, counts } = legs;
        match run_part(alloc, self.functions, self.does, leg)? {
            Ok(given) => {
                let more = self.send_given(alloc, given, fillings)?;
                Ok(Ok(with_counts(alloc, counts, more)?))
            }
            Err(trap) => Ok(Err(trap)),
        }
    }

    // What steps gave goes to the output channels, behind what those were given.
    fn send_given(
        &self,
        alloc: Global,
        given: Outputs,
        fillings: Vec<Filling>,
    ) -> Result<Legs, AllocError>
        requires some { 0 < self.now.partitions }
        requires taken { AreTakes self.now.m self.now.channels.now self.now.takes.now }
        requires fit { AllByRecursion (CanSend self.now.m given.lists) self.now.channels.now }
        requires stands { (before : List GhostTake → List GhostValue)
            × AllZip (IsFilled self.now.partitions before) self.now.channels.now fillings.items }
        ensures filled { (before : List GhostTake → List GhostValue) →
            AllZip (IsFilled self.now.partitions before) self.now.channels.now fillings.items →
            IfOk result (λ legs. AllZip (IsFilled self.now.partitions
            (λ takes. before takes ++ taken self.now.m given.lists takes)) self.now.channels.now
            legs.fillings.items) }
        ensures counts { IfOk result (λ legs. legs.counts.items ≡ given.counts) }
    {
        let (lists, counts) = given.into_parts();
        let fillings = send_more(
            alloc,
            self.channels,
            self.takes,
            self.m,
            lists,
            self.partitions,
            fillings,
        )?;
        Ok(Legs { fillings, counts })
    }
}

fn some_group(channels: &[OutChannel]) -> bool {
    channels.iter().any(is_group)
}

fn is_group(channel: &OutChannel) -> bool {
    match channel {
        OutChannel::Pass(_, _) => false,
        OutChannel::Group(_) => true,
    }
}

// The first leg of these elements, and those behind it.
fn cut(elements: &[Value]) -> (&[Value], &[Value])
    ensures whole { result.0.now ++ result.1.now ≡ elements.now }
    ensures fewer { 0 < length elements.now → length result.1.now < length elements.now }
{
    let count = if elements.len() < LEG {
        elements.len()
    } else {
        LEG
    };
    elements.split_at(count)
}

// Legs with these counts before their own.
fn with_counts(alloc: Global, counts: Vec<u64>, legs: Legs) -> Result<Legs, AllocError>
    ensures fillings { IfOk result (λ all. all.fillings.items ≡ legs.fillings.items) }
    ensures counts { IfOk result (λ all.
        all.counts.items ≡ each_with count_with counts.items legs.counts.items) }
{
    let Legs {
        fillings,
        counts: more,
    } = legs;
    let counts = join_counts(alloc, counts, more)?;
    Ok(Legs { fillings, counts })
}

// What the output channels get in the end, with the counts.
fn whole(alloc: Global, legs: Legs) -> Result<MapOut, AllocError>
    ensures sent { IfOk result (λ out. out.sent ≡ map sent_of legs.fillings.items) }
    ensures counts { IfOk result (λ out. out.counts ≡ legs.counts.items) }
{
    let Legs { fillings, counts } = legs;
    let sent = all_sent(alloc, fillings)?;
    let counts = Pile::from_vec(counts);
    Ok(MapOut { sent, counts })
}
