ghost use Rattle.std.specs.Prelude.{ℕ, List, [], ◌∷◌, Option, None};
ghost use Rattle.catch_up.specs.Times.{Beat, Read, Paused, Beats};

/// What says how long a site has been asked, and waits between two rounds of questions.
///
/// An implementation has the duty to wait for as long as it is told, which no clause can state.
pub trait Timer {
    // All that was done at it, in order, where that is known.
    ghost beats: { Self → Option (List Beat) } = { λ _. None };

    /// How many whole seconds have passed since it was started; none if that can't be read.
    fn seconds(&mut self) -> Option<u64>
        ensures { Beats (beats self.old) (beats self.new) (Read result ∷ []) };

    /// Waits for this many milliseconds.
    fn pause(&mut self, millis: u64)
        ensures { Beats (beats self.old) (beats self.new) (Paused millis ∷ []) };
}
