/// What is to come of deposits.
#[derive(Clone, Copy, Debug)]
pub enum Aim {
    /// The site registers them. It is told each once.
    Registered,
    /// The site knows their bags. That is waited for this many seconds, of a window of them.
    Known(u32),
}
