// What is claimed of a book, over every lawful history.
ghost use Rattle.model.specs.Balance.{AlwaysBalanced};
ghost use Rattle.model.specs.Closing.{ClosingHolds};
ghost use Rattle.model.specs.Imports.{ImportsHold};
ghost use Rattle.model.specs.Laws.{LawsHold};
ghost use Rattle.model.specs.Limits.{LimitsHold};
ghost use Rattle.model.specs.Moves.{MovesHold};
ghost use Rattle.model.specs.Numbers.{RowsNumbered};
ghost use Rattle.model.specs.Value.{AlwaysValued};

/// Both claims hold of every lawful history, over every world.
pub fn claims_hold()
    ensures balanced { AlwaysBalanced }
    ensures valued { AlwaysValued }
{}

/// The laws of lawful histories, what moves in them, how large it gets, and what a close and an import
/// come to; the numbers of the rows of each call.
pub fn laws_hold()
    ensures laws { LawsHold }
    ensures moves { MovesHold }
    ensures limits { LimitsHold }
    ensures closing { ClosingHolds }
    ensures imports { ImportsHold }
    ensures rows { RowsNumbered }
{}
