// The map tasks of a stage.
ghost use Rattle.std.specs.Prelude.{◌≡◌, ◌<◌, IfOk};
ghost use Rattle.forest_steps.specs.Functions.{world_of};
ghost use Rattle.map_shard.specs.Work.{CanWork, IsWorkValue, task_at, work_count, work_of};

use crate::beside::run_beside;
use crate::legs::Steps;
use crate::reading::{called_on, object_value};
use crate::takes::takes_from;
use crew::{Attempt, Spot, Tasks};
use exec_plan::Mscr;
use flume_collection::Trap;
use flume_value::{Items, Pile, Value};
use forest_run::ask_for;
use forest_steps::Functions;
use outside::{Down, Host};
use shards::shard_of;
use shuffle_parts::MapOut;
use std::alloc::{AllocError, Global};
use std::marker::Model;

/// The map tasks of a stage: shard i of input channel m is task m * shards + i. Contracts see all
/// that they read as a `Work`, whose tasks can be made.
#[derive(Drop)]
pub struct MapTasks<'a, F: Functions> {
    functions: &'a F,
    sources: &'a [Items],
    results: &'a [Pile<Items>],
    stage: &'a Mscr,
    shards: u32,
    partitions: u32,
}

impl<'a, F: Functions> Model for MapTasks<'a, F> {
    ghost use Rattle.forest_steps.specs.Functions.{world_of};
    ghost use Rattle.map_shard.specs.Work.{CanWork, Work, work_code, work_of};

    ghost Value = { Work F };

    ghost coded = { work_code F.code };

    ghost view = { λ s. work_of s.functions.now s.sources.now
        s.results.now s.stage.now s.shards s.partitions };

    ghost invariant = { λ s.
        CanWork (world_of (F.called s.functions.now)) (F.can_call s.functions.now)
        (work_of s.functions.now s.sources.now s.results.now s.stage.now s.shards
        s.partitions) };
}

impl<'a, F: Functions> MapTasks<'a, F> {
    /// The map tasks of a stage over the lists of the sources and of the results of earlier
    /// stages, of so many shards and partitions.
    pub fn new(
        functions: &'a F,
        sources: &'a [Items],
        results: &'a [Pile<Items>],
        stage: &'a Mscr,
        shards: u32,
        partitions: u32,
    ) -> MapTasks<'a, F>
        requires { CanWork (world_of (F.called functions.now)) (F.can_call functions.now)
            (work_of functions.now sources.now results.now stage.now shards partitions) }
        ensures { result
            ≡ work_of functions.now sources.now results.now stage.now shards partitions }
    {
        MapTasks {
            functions,
            sources,
            results,
            stage,
            shards,
            partitions,
        }
    }

    // The elements of a task, on which its steps are called.
    fn elements_of(&self, task: u32) -> &[Value]
        requires { task < work_count self.now }
        ensures { result.now ≡ (task_at self.now task).elements }
    {
        let channel = &self.stage.inputs.as_slice()[(task / self.shards) as usize];
        let list = called_on(self.sources, self.results, channel);
        shard_of(list, self.shards, task % self.shards)
    }

    // What a task comes to.
    fn value_of(&self, alloc: Global, task: u32) -> Result<Result<MapOut, Trap>, AllocError>
        requires { task < work_count self.now }
        ensures { IfOk result (IsWorkValue (F.called self.now.functions) self.now task) }
    {
        let channel = &self.stage.inputs.as_slice()[(task / self.shards) as usize];
        let list = called_on(self.sources, self.results, channel);
        let elements = shard_of(list, self.shards, task % self.shards);
        let channels = self.stage.outputs.as_slice();
        let m = task / self.shards;
        let takes = takes_from(alloc, channels, m)?;
        let object = object_value(self.sources, self.results, channel.beside);
        let steps = Steps {
            functions: self.functions,
            does: &channel.does,
            channels,
            takes: &takes,
            m,
            partitions: self.partitions,
        };
        run_beside(alloc, &steps, object, elements)
    }
}

impl<'a, F: Functions + Sync> Tasks for MapTasks<'a, F> {
    ghost use Rattle.map_shard.specs.Work.{IsWorkValue, work_count, work_places};

    type Out = Result<MapOut, Trap>;

    ghost count_of = { work_count };

    ghost is_value = { λ s. IsWorkValue (F.called s.functions) s };

    ghost places = { work_places };

    fn count(&self) -> u32 {
        self.stage.inputs.len() as u32 * self.shards
    }

    fn attempt<H: Host>(
        &self,
        alloc: Global,
        task: u32,
        host: &mut H,
        at: &Spot,
    ) -> Result<Attempt<Result<MapOut, Trap>>, AllocError> {
        match ask_for(self.elements_of(task), host, at, task) {
            Ok(()) => {}
            Err(Down) => return Ok(Attempt::Down),
        }
        let out = self.value_of(alloc, task)?;
        Ok(Attempt::Made(out))
    }
}
