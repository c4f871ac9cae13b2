//! Laws of the definitions. The functions here do nothing: their contracts are the laws.

ghost use Rattle.tags.specs.Seals.{SealedAreOpened, OpenedAreSealed};

/// What was sealed is opened; and what is opened is a datagram and its tag, by one of the keys for
/// it.
pub fn seals_law()
    ensures opened { SealedAreOpened }
    ensures sealed { OpenedAreSealed }
{}
