ghost use Rattle.std.specs.Prelude.{◌≡◌};
ghost use Rattle.ledger_commands.specs.Answers.{status_of};

use ledger::Ending;

/// The exit status for a cell that ends so, as that of an opening.
pub(crate) fn status_of(ending: Ending) -> u8
    ensures { result ≡ status_of ending }
{
    match ending {
        Ending::Whole | Ending::Torn(_) => 0,
        Ending::Damaged(_) => 1,
    }
}
