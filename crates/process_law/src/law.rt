ghost use Rattle.fed_types.specs.Sites.{Membership};
ghost use Rattle.process_law.specs.Processes.{AccountsGoOn, ProcessesComeSoFar};
ghost use Rattle.process_law.specs.Processes.{ProcessesHaveAccounts};

use cell_device::Cell;

// A function here does nothing: its contract is the law.

/// A process that has come so far, and ends or is killed then, makes an account of its member: over
/// any cell that tells its bytes, at any moment after its start, in a sync or between two, and
/// after any part of what a batch hands out and writes.
pub fn processes_have_accounts<C: Cell>()
    ensures { (members : Membership) → ProcessesHaveAccounts C.device members }
{}

/// What `site_commands::open_and_serve` does, by its contract, is to come so far. So of a process
/// that is killed all that has to be believed is that it did a beginning of what a process does
/// that returns.
pub fn processes_come_so_far<C: Cell>()
    ensures { (members : Membership) → ProcessesComeSoFar C.device members }
{}

/// So one process after another makes an account of its member.
pub fn accounts_go_on()
    ensures { (members : Membership) → AccountsGoOn members }
{}
