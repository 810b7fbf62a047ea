// What holds along every list of events of the protocol.
ghost use Rattle.claim_board.specs.Laws.{EveryStateIsGood, WordsStay, EachTaskIsWonOnce, UndecidedWereDrawn, EndedMeansUsedUp, WordsAreTries};

/// The laws of the claim protocol, over its definitions alone. It does nothing: its contract is the
/// laws.
pub fn protocol_laws()
    ensures good { EveryStateIsGood }
    ensures stay { WordsStay }
    ensures once { EachTaskIsWonOnce }
    ensures undecided { UndecidedWereDrawn }
    ensures used_up { EndedMeansUsedUp }
    ensures tries { WordsAreTries }
{}
