ghost use Rattle.serving_reach_law.specs.Tapes.{AreLikeCells, TapesAnswer, ADecisionComesAbout};

// A function here does nothing: its contract shows that the laws are not of nothing. A device that
// keeps all that was ever on it is one of which all is known.

/// Such a device keeps what every cell keeps, so the laws are about it too.
pub fn tapes_are_like_cells()
    ensures { AreLikeCells }
{}

/// Over such devices calls that may answer are answered.
pub fn tapes_answer()
    ensures { TapesAnswer }
{}

/// So over them a decision comes about, from every history.
pub fn a_decision_comes_about()
    ensures { ADecisionComesAbout }
{}
