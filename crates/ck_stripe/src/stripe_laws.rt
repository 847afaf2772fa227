//! The laws of doubling. The function does nothing: its contract is the laws.
ghost use Rattle.ck_stripe.specs.Laws.{DoublingKeepsSound, DoublingKeepsPairs, DoublingKeepsBindings, DoublingSendsEach};

/// A doubling keeps a content sound, with the same pairs, binds each name to what it was bound to,
/// and sends each entry to its bucket at the next power.
pub fn law_of_doubling<V>()
    ensures sound { DoublingKeepsSound V }
    ensures pairs { DoublingKeepsPairs V }
    ensures bindings { DoublingKeepsBindings V }
    ensures sends { DoublingSendsEach V }
{}
