//! One error for all refusals.
ghost use Rattle.std.specs.Prelude.{◌≡◌};

use crate::refusal::{
    Busy, DrainFault, GrowFault, KeysNotLocked, KeysRefused, KeysWithoutRoom, NoSlot, NotDrained,
    NotLocked, NotRenamed, OpenFault, Refused, RoomFault, Why,
};
use ck_key::KeyFault;
use ck_model::settings::OutOfRange;
use ck_pool::{AllLent, NoList, NoPool};
use std::alloc::AllocError;
use thiserror::Error;

/// Why a call was refused, whichever call it was. Each refusal becomes one, and so does a want of
/// memory, so `?` serves in a function that answers it. What a refusal gives back is
/// dropped then.
///
/// ```
/// fn pay(handle: &mut Handle<NumKey, u64>, account: u64, amount: u64) -> Result<(), Fault> {
///     handle.upsert(NumKey(account), |sum| sum.saturating_add(amount), amount)?;
///     handle.update(&NumKey(0), amount)?;
///     Ok(())
/// }
/// ```
#[derive(Debug, Clone, Copy, PartialEq, Eq, Error)]
pub enum Fault {
    /// This setting of a table to be opened is not in its range.
    #[error("a setting is not in its range: {0}")]
    Settings(OutOfRange),
    /// This stripe was found held in as many tries in a row as the settings allow.
    #[error("stripe {0} was held in all tries: try again, or open with more turns")]
    Busy(u32),
    /// There is no memory.
    #[error("no memory")]
    Memory,
    /// There is no room for the key, and the table may not grow beyond its greatest power.
    #[error("no room for the key in a table of the greatest size: open it with a greater max")]
    Full,
    /// There is no room for the key, and too few slots are taken for the table to grow.
    #[error("no room for the key, and too few slots are taken to grow: see MixedKey, min_load")]
    LoadTooLow,
    /// The table may not have as many buckets as it was to have.
    #[error("the table may not have so many buckets: open it with a greater max")]
    OverMax,
    /// The text of a key has more than 64 bytes.
    #[error("the key has more than 64 bytes")]
    TooLong,
    /// The key at this position of those of a call stands again behind it.
    #[error("the key at position {0} is named twice")]
    Twice(usize),
    /// No slot was free for a key among locked keys.
    #[error("no free slot for the key among its stripes: insert it unlocked, or lock it with room")]
    NoSlot,
    /// All items of the pool are lent.
    #[error("all items of the pool are lent: try again, or make it of more")]
    AllLent,
}

impl From<OpenFault> for Fault {
    ghost use Rattle.std.specs.Prelude.{◌≡◌};
    ghost use Rattle.ck_refusal.specs.Faults.{fault_of_open};

    ghost from_gives = { λ refused fault. fault ≡ fault_of_open refused };

    fn from(refused: OpenFault) -> Fault {
        match refused {
            OpenFault::Settings(which) => Fault::Settings(which),
            OpenFault::Memory => Fault::Memory,
        }
    }
}

impl From<Busy> for Fault {
    ghost use Rattle.std.specs.Prelude.{◌≡◌};
    ghost use Rattle.ck_refusal.specs.declared.fault.Fault.TheVariants as faults;

    ghost from_gives = { λ busy fault. fault ≡ faults.Busy busy.0 };

    fn from(busy: Busy) -> Fault {
        Fault::Busy(busy.0)
    }
}

/// Of a refused update.
impl<V: Drop> From<(V, Busy)> for Fault {
    ghost use Rattle.std.specs.Prelude.{◌≡◌};
    ghost use Rattle.ck_refusal.specs.declared.fault.Fault.TheVariants as faults;

    ghost from_gives = { λ back fault. fault ≡ faults.Busy back.1.0 };

    fn from(back: (V, Busy)) -> Fault {
        Fault::Busy(back.1.0)
    }
}

impl<C: Drop> From<NotLocked<C>> for Fault {
    ghost use Rattle.std.specs.Prelude.{◌≡◌};
    ghost use Rattle.ck_refusal.specs.declared.fault.Fault.TheVariants as faults;

    ghost from_gives = { λ back fault. fault ≡ faults.Busy back.busy.0 };

    fn from(back: NotLocked<C>) -> Fault {
        Fault::Busy(back.busy.0)
    }
}

impl From<KeysRefused> for Fault {
    ghost use Rattle.std.specs.Prelude.{◌≡◌};
    ghost use Rattle.ck_refusal.specs.Faults.{fault_of_keys};

    ghost from_gives = { λ refused fault. fault ≡ fault_of_keys refused };

    fn from(refused: KeysRefused) -> Fault {
        match refused {
            KeysRefused::Busy(stripe) => Fault::Busy(stripe),
            KeysRefused::Twice(position) => Fault::Twice(position),
        }
    }
}

impl<C: Drop> From<KeysNotLocked<C>> for Fault {
    ghost use Rattle.std.specs.Prelude.{◌≡◌};
    ghost use Rattle.ck_refusal.specs.Faults.{fault_of_keys};

    ghost from_gives = { λ back fault. fault ≡ fault_of_keys back.why };

    fn from(back: KeysNotLocked<C>) -> Fault {
        Fault::from(back.why)
    }
}

impl<K: Drop, V: Drop> From<NoSlot<K, V>> for Fault {
    ghost use Rattle.std.specs.Prelude.{◌≡◌};
    ghost use Rattle.ck_refusal.specs.declared.fault.Fault.TheVariants as faults;

    ghost from_gives = { λ _ fault. fault ≡ faults.NoSlot };

    fn from(_back: NoSlot<K, V>) -> Fault {
        Fault::NoSlot
    }
}

impl From<Why> for Fault {
    ghost use Rattle.std.specs.Prelude.{◌≡◌};
    ghost use Rattle.ck_refusal.specs.Faults.{fault_of_why};

    ghost from_gives = { λ why fault. fault ≡ fault_of_why why };

    fn from(why: Why) -> Fault {
        match why {
            Why::Busy(stripe) => Fault::Busy(stripe),
            Why::Memory => Fault::Memory,
            Why::Full => Fault::Full,
            Why::LoadTooLow => Fault::LoadTooLow,
        }
    }
}

impl<K: Drop, V: Drop> From<Refused<K, V>> for Fault {
    ghost use Rattle.std.specs.Prelude.{◌≡◌};
    ghost use Rattle.ck_refusal.specs.Faults.{fault_of_why};

    ghost from_gives = { λ back fault. fault ≡ fault_of_why back.why };

    fn from(back: Refused<K, V>) -> Fault {
        Fault::from(back.why)
    }
}

impl From<RoomFault> for Fault {
    ghost use Rattle.std.specs.Prelude.{◌≡◌};
    ghost use Rattle.ck_refusal.specs.Faults.{fault_of_room};

    ghost from_gives = { λ refused fault. fault ≡ fault_of_room refused };

    fn from(refused: RoomFault) -> Fault {
        match refused {
            RoomFault::Keys(why) => Fault::from(why),
            RoomFault::Room(why) => Fault::from(why),
        }
    }
}

impl<K: Drop> From<NotRenamed<K>> for Fault {
    ghost use Rattle.std.specs.Prelude.{◌≡◌};
    ghost use Rattle.ck_refusal.specs.Faults.{fault_of_room};

    ghost from_gives = { λ back fault. fault ≡ fault_of_room back.why };

    fn from(back: NotRenamed<K>) -> Fault {
        Fault::from(back.why)
    }
}

impl<C: Drop> From<KeysWithoutRoom<C>> for Fault {
    ghost use Rattle.std.specs.Prelude.{◌≡◌};
    ghost use Rattle.ck_refusal.specs.Faults.{fault_of_room};

    ghost from_gives = { λ back fault. fault ≡ fault_of_room back.why };

    fn from(back: KeysWithoutRoom<C>) -> Fault {
        Fault::from(back.why)
    }
}

impl From<GrowFault> for Fault {
    ghost use Rattle.std.specs.Prelude.{◌≡◌};
    ghost use Rattle.ck_refusal.specs.Faults.{fault_of_growth};

    ghost from_gives = { λ refused fault. fault ≡ fault_of_growth refused };

    fn from(refused: GrowFault) -> Fault {
        match refused {
            GrowFault::Busy(stripe) => Fault::Busy(stripe),
            GrowFault::Memory => Fault::Memory,
            GrowFault::OverMax => Fault::OverMax,
        }
    }
}

impl From<DrainFault> for Fault {
    ghost use Rattle.std.specs.Prelude.{◌≡◌};
    ghost use Rattle.ck_refusal.specs.Faults.{fault_of_drain};

    ghost from_gives = { λ refused fault. fault ≡ fault_of_drain refused };

    fn from(refused: DrainFault) -> Fault {
        match refused {
            DrainFault::Busy(stripe) => Fault::Busy(stripe),
            DrainFault::Memory => Fault::Memory,
        }
    }
}

impl<C: Drop> From<NotDrained<C>> for Fault {
    ghost use Rattle.std.specs.Prelude.{◌≡◌};
    ghost use Rattle.ck_refusal.specs.Faults.{fault_of_drain};

    ghost from_gives = { λ back fault. fault ≡ fault_of_drain back.why };

    fn from(back: NotDrained<C>) -> Fault {
        Fault::from(back.why)
    }
}

impl From<KeyFault> for Fault {
    ghost use Rattle.std.specs.Prelude.{◌≡◌};
    ghost use Rattle.ck_refusal.specs.Faults.{fault_of_key};

    ghost from_gives = { λ refused fault. fault ≡ fault_of_key refused };

    fn from(refused: KeyFault) -> Fault {
        match refused {
            KeyFault::TooLong => Fault::TooLong,
            KeyFault::Memory => Fault::Memory,
        }
    }
}

impl From<AllocError> for Fault {
    ghost use Rattle.std.specs.Prelude.{◌≡◌};
    ghost use Rattle.ck_refusal.specs.declared.fault.Fault.TheVariants as faults;

    ghost from_gives = { λ _ fault. fault ≡ faults.Memory };

    fn from(_error: AllocError) -> Fault {
        Fault::Memory
    }
}

impl From<AllLent> for Fault {
    ghost use Rattle.std.specs.Prelude.{◌≡◌};
    ghost use Rattle.ck_refusal.specs.declared.fault.Fault.TheVariants as faults;

    ghost from_gives = { λ _ fault. fault ≡ faults.AllLent };

    fn from(_refused: AllLent) -> Fault {
        Fault::AllLent
    }
}

impl<T: Drop> From<NoPool<T>> for Fault {
    ghost use Rattle.std.specs.Prelude.{◌≡◌};
    ghost use Rattle.ck_refusal.specs.declared.fault.Fault.TheVariants as faults;

    ghost from_gives = { λ _ fault. fault ≡ faults.Memory };

    fn from(_back: NoPool<T>) -> Fault {
        Fault::Memory
    }
}

impl<T: Drop> From<NoList<T>> for Fault {
    ghost use Rattle.std.specs.Prelude.{◌≡◌};
    ghost use Rattle.ck_refusal.specs.declared.fault.Fault.TheVariants as faults;

    ghost from_gives = { λ _ fault. fault ≡ faults.Memory };

    fn from(_back: NoList<T>) -> Fault {
        Fault::Memory
    }
}
