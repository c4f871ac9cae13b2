//! Which lines of a batch are of which of its turns.

/// The most turns of a batch.
const MOST_TURNS: usize = 64;

/// How many lines there are after each turn of a batch. No clause speaks of them: they are for
/// logs.
#[derive(Clone, Copy, Debug)]
pub(crate) struct LineMarks {
    after: [usize; MOST_TURNS],
    turns: usize,
}

impl LineMarks {
    /// Those of a batch of which no turn was taken.
    pub(crate) fn new() -> LineMarks {
        LineMarks {
            after: [0; MOST_TURNS],
            turns: 0,
        }
    }

    /// A turn was taken, and there are so many lines now.
    pub(crate) fn turn_ends(&mut self, lines: usize) {
        if let Some(after) = self.after.get_mut(self.turns) {
            *after = lines;
            self.turns = self.turns.saturating_add(1);
        }
    }

    /// How many there are after each turn, in order.
    pub(crate) fn after(&self) -> &[usize] {
        match self.after.get(..self.turns) {
            Some(after) => after,
            None => &self.after,
        }
    }
}
