// The claim board by itself: draws, claims, and what its tally says.
ghost use Rattle.std.specs.Prelude.{◌≡◌, ◌<◌};

use claim_board::{Board, Pass, Won};
use std::process::Abort;
use std::test::Fail;

// Four draws of two tasks, a fifth that finds none left, and two claims of the first task.
fn draws_all_and_claims_twice<R: Abort>(rt: &R, board: &Board, pass: &mut Pass)
    requires board { pass.old.board ≡ board.now }
    requires tasks { 0 < board.now.tasks }
    ensures { pass.new.board ≡ board.now }
{
    let first = board.draw(pass).expect(rt, "the first draw");
    let second = board.draw(pass).expect(rt, "the second draw");
    let third = board.draw(pass).expect(rt, "the third draw");
    let fourth = board.draw(pass).expect(rt, "the fourth draw");
    assert!(rt; board.draw(pass).is_none());
    assert!(rt; first.number() == 0);
    assert!(rt; third.number() == 2);
    assert!(rt; first.task() == 0 && first.attempt() == 1);
    assert!(rt; second.task() == 1 && second.attempt() == 1);
    assert!(rt; third.task() == 0 && third.attempt() == 2);
    assert!(rt; fourth.task() == 1 && fourth.attempt() == 2);
    let task = first.task();
    assert!(rt; board.look(pass, task).is_none());
    assert!(rt; board.commit(pass, first).is_ok());
    assert!(rt; board.look(pass, task) == Some(1));
    match board.commit(pass, third) {
        Ok(Won) => assert!(rt; false, "the task is won twice"),
        Err(lost) => assert!(rt; lost.attempt() == 1),
    }
}

#[test]
fn four_draws_of_two_tasks(rt: HostRuntime) -> Result<(), Fail> {
    let (board, mut passes) = Board::new(rt.alloc(), 2, 2, 1)?;
    assert!(rt; passes.as_slice().len() == 1);
    draws_all_and_claims_twice(&rt, &board, &mut passes.as_mut_slice()[0]);
    let tally = board.close(passes);
    assert!(rt; tally.draws() == 5);
    assert!(rt; tally.winner(0) == 1 && tally.winner(1) == 0);
    Ok(())
}
