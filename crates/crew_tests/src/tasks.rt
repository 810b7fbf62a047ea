// Tasks whose values are known.
ghost use Rattle.std.specs.Prelude.{◌≡◌, ◌*◌, ◌+◌, ◌<◌, [], ◌∷◌};

use crew::{Attempt, Spot, Tasks};
use outside::{Down, Host};
use std::alloc::{AllocError, Global};

/// Tasks without elements, the value of each being twice its number.
#[derive(Drop)]
pub struct Doubles {
    pub count: u32,
}

impl Tasks for Doubles {
    ghost use Rattle.std.specs.Prelude.{◌≡◌, ◌*◌};

    type Out = u64;

    ghost count_of = { λ s. s.count };

    ghost is_value = { λ s task out. out ≡ 2 * task };

    ghost places = { λ s task. 0 };

    fn count(&self) -> u32 {
        self.count
    }

    fn attempt<H: Host>(
        &self,
        _alloc: Global,
        task: u32,
        host: &mut H,
        at: &Spot,
    ) -> Result<Attempt<u64>, AllocError> {
        match at.ask(host, task, 0) {
            Ok(()) => Ok(Attempt::Made(2 * u64::from(task))),
            Err(Down) => Ok(Attempt::Down),
        }
    }
}
