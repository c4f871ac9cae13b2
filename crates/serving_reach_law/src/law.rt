ghost use Rattle.fed_types.specs.Sites.{Membership};
ghost use Rattle.serving_reach_law.specs.Laws.{ADecisionIsWithinReach, WhatIsChosenIsWithinReach};
ghost use Rattle.serving_reach_law.specs.Laws.{WhatIsReportedIsWithinReach};
ghost use Rattle.serving_reach_law.specs.Laws.{TheyAgreeOnWhatWasReported};
ghost use Rattle.serving_reach_law.specs.Laws.{WhatIsWithinReachComesAbout};

use cell_device::Cell;

// A function here does nothing: its contract is the law, of every membership, and of every history
// of sites that serve over cells that tell their bytes.

/// A decision is always within reach of sites that serve. Whatever has happened, where the members
/// that run are a quorum, and one of them knows the version's bag, or has voted for one or has a
/// deposit, and has rounds left, it is enough that they are started, that a client has one of them
/// recover the version and asks for its bag, and that what they then say to one another arrives:
/// whatever else their turns do, after ten turns and starts for each of them and two more, at most,
/// in none of which memory runs out or a device fails, all of them know one bag. If a bag was
/// reported before, it is this one.
pub fn a_decision_is_within_reach_in_turns<C: Cell>()
    ensures { (members : Membership) → ADecisionIsWithinReach C.device members }
{}

/// What was chosen is within reach of every quorum of sites that serve and have rounds left,
/// whoever has deposited it, and whoever is lost.
pub fn what_is_chosen_is_within_reach_in_turns<C: Cell>()
    ensures { (members : Membership) → WhatIsChosenIsWithinReach C.device members }
{}

/// So is what any member ever reported, to anybody.
pub fn what_is_reported_is_within_reach_in_turns<C: Cell>()
    ensures { (members : Membership) → WhatIsReportedIsWithinReach C.device members }
{}

/// And the bag that was reported is the one that those that run know where they agree.
pub fn they_agree_on_what_was_reported<C: Cell>()
    ensures { (members : Membership) → TheyAgreeOnWhatWasReported C.device members }
{}

/// What is within reach comes about, where calls that may answer are answered.
pub fn what_is_within_reach_comes_about<C: Cell>()
    ensures { (members : Membership) → WhatIsWithinReachComesAbout C.device members }
{}
