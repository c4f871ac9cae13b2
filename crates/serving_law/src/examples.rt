ghost use Rattle.serving_law.specs.Disks.{AreLikeCells};
ghost use Rattle.serving_law.specs.Examples.{FooledByAForgedKnown, KilledInADeposit};
ghost use Rattle.serving_law.specs.ExamplesAgreed.{ThreeSitesAgree, KilledInAVote, ARepeatedVote};
ghost use Rattle.serving_law.specs.ExamplesFailed.{FailsInADeposit};
ghost use Rattle.serving_law.specs.ExamplesRestarted.{RestartedSitesReport};
ghost use Rattle.serving_law.specs.ExamplesShown.{RepliesAreReports, DepositsAreValid};
ghost use Rattle.serving_law.specs.ExamplesShown.{NoiseIsDropped};

// A function here does nothing: its contract is an example, computed. No example takes a site's
// answer as given: its bytes are those of a `Vec`, which a proof can make.

/// The disk of the examples keeps what every cell keeps, so the laws are about it too.
pub fn disks_are_like_cells()
    ensures { AreLikeCells }
{}

/// A site that is killed while its deposit is being recorded has handed out nothing, whether the
/// record is lost or kept.
pub fn killed_in_a_deposit()
    ensures { KilledInADeposit }
{}

/// Without the premise on the network a site reports what nobody has deposited: a turn by the rules
/// in which it takes a forged message that a bag is known.
pub fn fooled_by_a_forged_known()
    ensures { FooledByAForgedKnown }
{}

/// Three sites that serve agree.
pub fn three_sites_agree()
    ensures { ThreeSitesAgree }
{}

/// A site that is killed in the call in which it votes has handed out nothing, whether its vote is
/// lost or on record.
pub fn killed_in_a_vote()
    ensures { KilledInAVote }
{}

/// A vote that is said again counts once, and comes to nothing once the bag is known.
pub fn a_repeated_vote()
    ensures { ARepeatedVote }
{}

/// What a client is told is a report, or a registration, as a printed line is.
pub fn replies_are_reports()
    ensures { RepliesAreReports }
{}

/// What is deposited is a valid bag, as its folder is read then, and is on record.
pub fn deposits_are_valid()
    ensures { DepositsAreValid }
{}

/// What is no message may come at any time, and so may a message in the name of a site that is no
/// member: a site drops both, and stays as it is.
pub fn noise_is_dropped()
    ensures { NoiseIsDropped }
{}

/// A site that has told a client that a bag is registered is killed in a call, started again, and
/// reports the bag as known; then it ends, and is started once more.
pub fn restarted_sites_report()
    ensures { RestartedSitesReport }
{}

/// A site whose device fails as it records a deposit says so, and ends; its record may be lost or
/// kept, and it is started again with what is left.
pub fn fails_in_a_deposit()
    ensures { FailsInADeposit }
{}
