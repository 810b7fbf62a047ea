// The six kinds of step of a board: draw, look, win, lose, make and join.
ghost use Rattle.claim_board.specs.Steps.{DrawSteps, LookSteps, WinSteps, LoseSteps, MakeSteps, JoinSteps};

/// The laws of a running board: each kind of step keeps the rule of its table, under which the
/// words and the views of the seats are a good state of the protocol, and each step of a pass is
/// the protocol's. It does nothing: its contract is the laws.
pub fn board_steps()
    ensures draw { DrawSteps }
    ensures look { LookSteps }
    ensures win { WinSteps }
    ensures lose { LoseSteps }
    ensures make { MakeSteps }
    ensures join { JoinSteps }
{}
