ghost use Rattle.process_law.specs.Examples.{AProcessTakesADeposit};

// A function here does nothing: its contract is an example, computed.

/// There is a process of which the laws speak: it opens a new disk, takes a deposit, and ends.
pub fn a_process_takes_a_deposit()
    ensures { AProcessTakesADeposit }
{}
