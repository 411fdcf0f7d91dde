// Example histories with their figures, calls at their edges, and wrong books: that the definitions of
// the model say something.
#![tactic(auto)]

ghost use Rattle.examples.specs.Answers.{AnswersHold};
ghost use Rattle.examples.specs.Edges.{EdgesHold};
ghost use Rattle.examples.specs.FullTolerance.{FullTolerance};
ghost use Rattle.examples.specs.MonthToItsEnd.{MonthToItsEnd};
ghost use Rattle.examples.specs.SeveralMonths.{SeveralMonths};
ghost use Rattle.examples.specs.SheetEdges.{SheetEdges};
ghost use Rattle.examples.specs.TwoLayers.{TwoLayers};
ghost use Rattle.examples.specs.WrongBooks.{WrongBooks};

/// Lawful histories with their figures: a month to its end; two months with day trades, a late account,
/// a late month and a session after an expiry, and one session in which the order of trades tells; one
/// in which rounding uses the tolerance of the second claim to the full; one beside which wrong books,
/// which balance, break that claim; one on a source with two layers. Then what accepted calls answer
/// and write, and every call at its edges, with sheets that are imported and written.
pub fn examples_hold()
    ensures month { MonthToItsEnd }
    ensures months { SeveralMonths }
    ensures tolerance { FullTolerance }
    ensures wrong { WrongBooks }
    ensures layers { TwoLayers }
    ensures answers { AnswersHold }
    ensures edges { EdgesHold }
    ensures sheets { SheetEdges }
{}
