// One worker.
ghost use Rattle.std.specs.Prelude.{◌≡◌, ◌<◌, true, IfOk, OnErr, OnOk};
ghost use Rattle.std.specs.Option.{option_to_list};
ghost use Rattle.claim_board.specs.Boards.{IsOpenDraw};
ghost use Rattle.crew.specs.Hosts.{Grew};
ghost use Rattle.crew.specs.Work.{Took, Worked};
ghost use Rattle.crew.specs.inner.Turns.{TookOne, Turned};

use crate::attempts::Attempt;
use crate::kept::{Kept, KeptOut};
use crate::settings::PhaseSettings;
use crate::tasks::Tasks;
use claim_board::{Board, Draw, Pass, Won};
use outside::Host;
use std::alloc::{AllocError, Global};

/// Draws attempts until there is none left, makes each on the host, and keeps what it wins.
///
/// A draw whose task has a winner is passed over. An attempt whose host is down, or that the drill
/// names, is lost; any other is committed, and where it won its out is kept.
pub fn work<T: Tasks, H: Host>(
    alloc: Global,
    board: &Board,
    pass: &mut Pass,
    tasks: &T,
    host: &mut H,
    phase: &PhaseSettings<'_>,
) -> Result<Kept<T::Out>, AllocError>
    requires board { pass.old.board ≡ board.now }
    requires count { board.now.tasks ≡ T.count_of tasks.now }
    requires tries { board.now.tries ≡ phase.now.tries }
    requires some { 0 < board.now.tasks }
    ensures same { pass.new.board ≡ pass.old.board }
    ensures grew { Grew (H.account host.old) (H.account host.new) }
    ensures asked { Took (T.count_of tasks.now) phase.now (T.places tasks.now) pass.old.state
        pass.new.state (H.account host.old) (H.account host.new) }
    ensures worked { IfOk result (Worked (T.count_of tasks.now) phase.now
        (T.is_value tasks.now) (T.places tasks.now) pass.old.state pass.new.state
        (H.account host.old) (H.account host.new)) }
    ensures ended { OnOk result (pass.new.state.ended ≡ true) }
{
    let mut kept = Kept::new(alloc);
    'draws: loop {
        match board.draw(pass) {
            None => return Ok(kept),
            Some(draw) => {
                let won = turn(alloc, board, pass, tasks, host, phase, draw)?;
                kept.add(won)?;
            }
        }
    }
}

// What is done with one draw.
fn turn<T: Tasks, H: Host>(
    alloc: Global,
    board: &Board,
    pass: &mut Pass,
    tasks: &T,
    host: &mut H,
    phase: &PhaseSettings<'_>,
    draw: Draw,
) -> Result<Option<KeptOut<T::Out>>, AllocError>
    requires board { pass.old.board ≡ board.now }
    requires count { board.now.tasks ≡ T.count_of tasks.now }
    requires tries { board.now.tries ≡ phase.now.tries }
    requires some { 0 < board.now.tasks }
    requires open { IsOpenDraw board.now pass.old.state draw }
    ensures same { pass.new.board ≡ pass.old.board }
    ensures grew { Grew (H.account host.old) (H.account host.new) }
    ensures early { OnErr result (TookOne (T.count_of tasks.now) phase.now (T.places tasks.now)
        draw.number pass.old.state pass.new.state (H.account host.old) (H.account host.new)) }
    ensures turned { IfOk result (λ won. Turned (T.count_of tasks.now) phase.now
        (T.is_value tasks.now) (T.places tasks.now) draw.number pass.old.state pass.new.state
        (H.account host.old) (H.account host.new) (option_to_list won)) }
{
    let task = draw.task();
    let attempt = draw.attempt();
    match board.look(pass, task) {
        Some(_) => Ok(None),
        None => match tasks.attempt(alloc, task, host, &phase.spot(attempt))? {
            Attempt::Down => Ok(None),
            Attempt::Made(out) => {
                if phase.is_drilled(task, attempt) {
                    drop(out);
                    return Ok(None);
                }
                match board.commit(pass, draw) {
                    Ok(Won) => Ok(Some(KeptOut { task, attempt, out })),
                    Err(_) => {
                        drop(out);
                        Ok(None)
                    }
                }
            }
        },
    }
}
