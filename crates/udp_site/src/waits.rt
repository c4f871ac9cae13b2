ghost use Rattle.std.specs.Prelude.{◌≡◌};

/// How long a port waits in a turn, in milliseconds.
#[derive(Clone, Copy, Debug, PartialEq, Eq)]
pub struct Waits {
    /// While things move: 1 or more.
    pub first: u32,
    /// At most, while nothing does. It is never less than the first.
    pub most: u32,
    /// How many idle turns a site needs to propose, which is its number, or 0: so many don't wait
    /// after a Deposit.
    pub prompt: u32,
}

impl Waits {
    /// Those of a client: it waits as long each time.
    pub fn always(wait: u32) -> Waits
        ensures { result ≡ record { first = wait; most = wait; prompt = 0 } }
    {
        Waits {
            first: wait,
            most: wait,
            prompt: 0,
        }
    }
}
