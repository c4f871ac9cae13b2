use crate::deposit::Deposit;
use crate::standing::Standing;

/// A deposit, and how it stands.
#[derive(Clone, Copy, Debug)]
pub struct Entry<'a> {
    pub deposit: &'a Deposit,
    pub standing: Standing,
}
