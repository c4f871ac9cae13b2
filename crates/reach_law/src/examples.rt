ghost use Rattle.reach_law.specs.Examples.{CanBeUndisturbed, CanBeUndisturbedByTwo};
ghost use Rattle.reach_law.specs.Examples.{IsUndisturbedByOthers};

// A function here does nothing: its contract is an example, computed.

/// A ballot can be undisturbed: three sites, one of which has a deposit, and 18 datagrams.
pub fn a_ballot_may_be_undisturbed()
    ensures { CanBeUndisturbed }
{}

/// It can where the third site is down: what is sent to that one need not arrive.
pub fn a_ballot_of_two_may_be_undisturbed()
    ensures { CanBeUndisturbedByTwo }
{}

/// Nothing disturbs that ballot which is about another version, or no message. So it is whatever a
/// member that runs is called for, and whatever the third does.
pub fn others_disturb_no_ballot()
    ensures { IsUndisturbedByOthers }
{}
