/// What is told how many deposits are done.
pub trait Watch {
    /// So many of all are done, and their lines are written.
    fn done(&mut self, done: usize, all: usize);

    /// Nothing else is done.
    fn end(&mut self);
}
