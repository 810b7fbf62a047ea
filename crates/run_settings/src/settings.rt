// How a script is run: its workers, shards, partitions, tries and drill, within limits.
ghost use Rattle.std.specs.Prelude.{◌≡◌};

use crew::Drill;
use flume_value::Pile;
use std::alloc::Global;
use std::marker::Model;

/// How a script is run, within the limits of runs. Contracts see all of it.
#[derive(Drop)]
pub struct Settings {
    workers: u32,
    shards: u32,
    partitions: u32,
    tries: u32,
    drill: Drill,
}

impl Model for Settings {
    ghost use Rattle.run_settings.specs.Settings.{AreWithinLimits, RunSettings};

    ghost Value = { RunSettings };

    ghost view = { λ s. record {
      workers = s.workers;
      shards = s.shards;
      partitions = s.partitions;
      tries = s.tries;
      drill = s.drill;
    } };

    ghost invariant = { λ s. AreWithinLimits (record {
      workers = s.workers;
      shards = s.shards;
      partitions = s.partitions;
      tries = s.tries;
      drill = s.drill;
    }) };
}

impl Settings {
    ghost use Rattle.run_settings.specs.Limits.{IsDrill, IsUpTo};
    ghost use Rattle.run_settings.specs.Limits.{most_partitions, most_shards};
    ghost use Rattle.run_settings.specs.Limits.{most_tries, most_workers};
    ghost use Rattle.run_settings.specs.Settings.{AreWithinLimits, standard};

    /// A run by so many workers, in so many shards and partitions, with so many tries for each task
    /// and with these attempts lost on purpose.
    pub fn new(workers: u32, shards: u32, partitions: u32, tries: u32, drill: Drill) -> Settings
        requires { AreWithinLimits (record {
          workers = workers;
          shards = shards;
          partitions = partitions;
          tries = tries;
          drill = drill;
        }) }
        ensures { result ≡ record {
          workers = workers;
          shards = shards;
          partitions = partitions;
          tries = tries;
          drill = drill;
        } }
    {
        Settings {
            workers,
            shards,
            partitions,
            tries,
            drill,
        }
    }

    /// Two of each, and no attempt lost on purpose: what holds where nothing else is asked for. It
    /// takes no memory.
    pub fn standard(alloc: Global) -> Settings
        ensures { result ≡ standard }
    {
        Settings::new(2, 2, 2, 2, Drill::new(Pile::new(alloc)))
    }

    /// How many workers there are.
    pub fn workers(&self) -> u32
        ensures value { result ≡ self.now.workers }
        ensures within { IsUpTo most_workers result }
    {
        self.workers
    }

    /// Into how many shards an input is cut.
    pub fn shards(&self) -> u32
        ensures value { result ≡ self.now.shards }
        ensures within { IsUpTo most_shards result }
    {
        self.shards
    }

    /// Into how many partitions groups are cut.
    pub fn partitions(&self) -> u32
        ensures value { result ≡ self.now.partitions }
        ensures within { IsUpTo most_partitions result }
    {
        self.partitions
    }

    /// How often a task is tried at most.
    pub fn tries(&self) -> u32
        ensures value { result ≡ self.now.tries }
        ensures within { IsUpTo most_tries result }
    {
        self.tries
    }

    /// The attempts that are lost on purpose.
    pub fn drill(&self) -> &Drill
        ensures value { result.now ≡ self.now.drill }
        ensures within { IsDrill result.now }
    {
        &self.drill
    }
}
