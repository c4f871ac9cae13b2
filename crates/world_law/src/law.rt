ghost use Rattle.std.specs.Prelude.{List};
ghost use Rattle.fed_types.specs.Quorums.{QuorumSystem, AreQuorums};
ghost use Rattle.world_law.specs.Laws.{OneBagABallot, VotesWereAskedFor, VotesAreOnRecord};
ghost use Rattle.world_law.specs.Laws.{PromisesNameHighestVotes, ProposalsAreBacked};
ghost use Rattle.world_law.specs.Laws.{KnownWasChosen, ChosenStays};
ghost use Rattle.world_law.specs.Laws.{OneBagASlot, ReportWasChosen, SendersAreNamed};
ghost use Rattle.world_law.specs.Laws.{ReportsAgree, notices_of};
ghost use Rattle.schedule.specs.Plans.{Plan};
ghost use Rattle.world_law.specs.Headline.{LinesAgree, LinesStay, ReportsWereDeposited};
ghost use Rattle.world_law.specs.Headline.{BagsWereDeposited};
ghost use Rattle.world_law.specs.Networks.{Event, new_network, run};
ghost use Rattle.world_law.specs.WellFormed.{SentMessagesAreWellFormed};
ghost use Rattle.world_law.specs.Worlds.{run_of};

// A function here does nothing: its contract is the law.

// ---- of the network after any list of events, for any quorums that meet and grow

/// Two proposals of one ballot are for one bag.
pub fn one_bag_a_ballot()
    ensures { (q : QuorumSystem) (events : List Event) → AreQuorums q
        → OneBagABallot (run q new_network events) }
{}

/// Each vote was asked for, and a site that says that it voted has the vote on record.
pub fn votes_were_asked_for()
    ensures asked { (q : QuorumSystem) (events : List Event) → AreQuorums q
        → VotesWereAskedFor (run q new_network events) }
    ensures on_record { (q : QuorumSystem) (events : List Event) → AreQuorums q
        → VotesAreOnRecord (run q new_network events) }
{}

/// A promise names its site's highest vote below its ballot, whatever the site has voted for since.
pub fn priors_stay()
    ensures { (q : QuorumSystem) (events : List Event) → AreQuorums q
        → PromisesNameHighestVotes (run q new_network events) }
{}

/// Each proposal is backed by the promises of a quorum.
pub fn proposals_are_backed()
    ensures { (q : QuorumSystem) (events : List Event) → AreQuorums q
        → ProposalsAreBacked q (run q new_network events) }
{}

/// What is known, or is said to be, was chosen.
pub fn known_was_chosen()
    ensures { (q : QuorumSystem) (events : List Event) → AreQuorums q
        → KnownWasChosen q (run q new_network events) }
{}

/// A bag that is chosen in a ballot is the bag of every proposal of a greater one.
pub fn chosen_stays()
    ensures { (q : QuorumSystem) (events : List Event) → AreQuorums q
        → ChosenStays q (run q new_network events) }
{}

/// At most one bag is chosen for a slot.
pub fn one_bag_a_slot()
    ensures { (q : QuorumSystem) (events : List Event) → AreQuorums q
        → OneBagASlot q (run q new_network events) }
{}

/// What an event reports was chosen before it, and no two reports of a run name different bags for
/// one slot.
pub fn reports_agree()
    ensures chosen { (q : QuorumSystem) (events : List Event) (e : Event) → AreQuorums q
        → ReportWasChosen q (run q new_network events) e }
    ensures agree { (q : QuorumSystem) (events : List Event) → AreQuorums q
        → ReportsAgree (notices_of q new_network events) }
{}

/// What is sent names its sender.
pub fn senders_are_named()
    ensures { (q : QuorumSystem) (events : List Event) (e : Event) → AreQuorums q
        → SendersAreNamed q (run q new_network events) e }
{}

/// If the events bring in nothing else, each message that is sent is well-formed, so that its
/// datagram is read as this message; and it goes to the number of a site.
pub fn sent_messages_are_well_formed()
    ensures { SentMessagesAreWellFormed }
{}

// ---- of every schedule

/// No two lines of a run report different bags for one slot.
pub fn lines_agree()
    ensures { (plan : Plan) → LinesAgree (run_of plan).lines }
{}

/// What a line of a run reports was deposited for the slot by an earlier line of the schedule than
/// the one that prints it, from files that were a valid bag of this identity. What is printed is
/// added at the end, and stays.
pub fn reports_were_deposited()
    ensures deposited { (plan : Plan) → ReportsWereDeposited plan (run_of plan).lines }
    ensures lines { LinesStay }
{}

/// Each bag that was proposed, voted for or known was deposited for the slot.
pub fn bags_were_deposited()
    ensures { (plan : Plan) → BagsWereDeposited plan }
{}
