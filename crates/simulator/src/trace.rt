ghost use Rattle.std.specs.Prelude.{◌≡◌};

use lines::Line;
use std::marker::Model;

/// What a run says, line by line.
#[derive(Drop)]
pub struct Trace {
    lines: Vec<Line>,
}

impl Model for Trace {
    ghost use Rattle.std.specs.Prelude.{List};
    ghost use Rattle.lines.specs.declared.line.Line.{Line};

    ghost Value = { List Line };

    ghost view = { λ t. t.lines.items };
}

impl Trace {
    /// The trace of these lines.
    pub(crate) fn new(lines: Vec<Line>) -> Trace
        ensures { result ≡ lines.items }
    {
        Trace { lines }
    }

    /// The lines: each event's own, and then those of the datagrams that it sent.
    pub fn lines(&self) -> &[Line]
        ensures { result.now ≡ self.now }
    {
        self.lines.as_slice()
    }
}
