//! Why a table refuses.
ghost use Rattle.std.specs.Prelude.{◌≡◌};
ghost use Rattle.ck_refusal.specs.Faults.{why_of};

use ck_model::lack::Lack;
use ck_model::settings::OutOfRange;
use std::fmt::{self, Debug, Formatter};
use thiserror::Error;

/// Why no table was opened.
#[derive(Debug, Clone, Copy, PartialEq, Eq, Error)]
pub enum OpenFault {
    /// This setting is not in its range.
    #[error("a setting is not in its range: {0}")]
    Settings(OutOfRange),
    /// There is no memory for the table and its passes.
    #[error("no memory for the table")]
    Memory,
}

/// This stripe was found held in as many tries in a row as the settings allow, and the call changed
/// nothing. It is one of the call's keys; of a call that takes all stripes it is any, and of one
/// that asks for the power the stripe 0.
#[derive(Debug, Clone, Copy, PartialEq, Eq, Error)]
#[error("stripe {0} was held in all tries: try again, or open with more turns")]
pub struct Busy(pub u32);

/// Why a call on several keys was refused. It changed nothing.
#[derive(Debug, Clone, Copy, PartialEq, Eq, Error)]
pub enum KeysRefused {
    /// This stripe of one of the keys was found held in as many tries in a row as the settings
    /// allow.
    #[error("stripe {0} was held in all tries: try again, or open with more turns")]
    Busy(u32),
    /// The key at this position stands again behind it. No stripe was tried.
    #[error("the key at position {0} is named twice")]
    Twice(usize),
}

impl From<Busy> for KeysRefused {
    ghost use Rattle.std.specs.Prelude.{◌≡◌};
    ghost use Rattle.ck_refusal.specs.declared.refusal.KeysRefused.TheVariants as refusals;

    ghost from_gives = { λ busy refused. refused ≡ refusals.Busy busy.0 };

    fn from(busy: Busy) -> KeysRefused {
        KeysRefused::Busy(busy.0)
    }
}

/// Why the table was not made to grow.
#[derive(Debug, Clone, Copy, PartialEq, Eq, Error)]
pub enum GrowFault {
    /// This stripe was found held in as many tries in a row as the settings allow. The call changed
    /// nothing.
    #[error("stripe {0} was held in all tries: try again, or open with more turns")]
    Busy(u32),
    /// There is no memory to grow. The table may have doubled before that.
    #[error("no memory for the table to grow")]
    Memory,
    /// The table may not have so many buckets. The call changed nothing.
    #[error("the table may not have so many buckets: open it with a greater max")]
    OverMax,
}

impl From<Busy> for GrowFault {
    ghost use Rattle.std.specs.Prelude.{◌≡◌};
    ghost use Rattle.ck_refusal.specs.declared.refusal.GrowFault.TheVariants as faults;

    ghost from_gives = { λ busy fault. fault ≡ faults.Busy busy.0 };

    fn from(busy: Busy) -> GrowFault {
        GrowFault::Busy(busy.0)
    }
}

/// Why the pairs of a table were not taken out. No binding was changed.
#[derive(Debug, Clone, Copy, PartialEq, Eq, Error)]
pub enum DrainFault {
    /// This stripe was found held in as many tries in a row as the settings allow.
    #[error("stripe {0} was held in all tries: try again, or open with more turns")]
    Busy(u32),
    /// There is no memory for the list of the pairs.
    #[error("no memory for the pairs of the table")]
    Memory,
}

/// Why an entry was refused. The table may have grown all the same. A locked table refuses nothing
/// as `Busy`.
#[derive(Debug, Clone, Copy, PartialEq, Eq, Error)]
pub enum Why {
    /// This stripe was found held in as many tries in a row as the settings allow. It is one of the
    /// key, but where the key's buckets were found full.
    #[error("stripe {0} was held in all tries: try again, or open with more turns")]
    Busy(u32),
    /// No displacement makes room for the key, the table may grow, and there is no memory to.
    #[error("no room for the key, and no memory for the table to grow")]
    Memory,
    /// No displacement makes room for the key, and the table may not grow beyond its greatest
    /// power.
    #[error("no room for the key in a table of the greatest size: open it with a greater max")]
    Full,
    /// No displacement makes room for the key, and too few slots are taken for the table to grow.
    #[error("no room for the key, and too few slots are taken to grow: see MixedKey, min_load")]
    LoadTooLow,
}

impl From<Busy> for Why {
    ghost use Rattle.std.specs.Prelude.{◌≡◌};
    ghost use Rattle.ck_refusal.specs.declared.refusal.Why.TheVariants as whys;

    ghost from_gives = { λ busy why. why ≡ whys.Busy busy.0 };

    fn from(busy: Busy) -> Why {
        Why::Busy(busy.0)
    }
}

impl Why {
    /// Why a key is refused where the table lacks this to make room for it.
    pub fn of(lack: Lack) -> Why
        ensures { result ≡ why_of lack }
    {
        match lack {
            Lack::Memory => Why::Memory,
            Lack::Full => Why::Full,
            Lack::LoadTooLow => Why::LoadTooLow,
        }
    }
}

/// A key and a value that were refused, given back.
#[derive(Drop, Error)]
#[error("{why}")]
pub struct Refused<K, V> {
    /// The key that was to be bound.
    pub key: K,
    /// The value that it was to be bound to, or the closure that was to make it.
    pub value: V,
    /// Why it was not.
    pub why: Why,
}

// What came back needn't be shown for the reason to be.
impl<K, V> Debug for Refused<K, V> {
    fn fmt<W: fmt::Write>(&self, f: &mut Formatter<W>) -> fmt::Result {
        f.debug_struct("Refused")
            .field("why", &self.why)
            .finish_non_exhaustive()
    }
}

/// The table was not locked, and nothing was changed.
#[derive(Drop, Error)]
#[error("{busy}")]
pub struct NotLocked<C> {
    /// The caller that was to lock the table.
    pub caller: C,
    /// The stripe that it found held.
    pub busy: Busy,
}

impl<C> Debug for NotLocked<C> {
    fn fmt<W: fmt::Write>(&self, f: &mut Formatter<W>) -> fmt::Result {
        f.debug_struct("NotLocked")
            .field("busy", &self.busy)
            .finish_non_exhaustive()
    }
}

impl<C: Drop> From<NotLocked<C>> for Busy {
    ghost use Rattle.std.specs.Prelude.{◌≡◌};

    ghost from_gives = { λ back busy. busy ≡ back.busy };

    fn from(back: NotLocked<C>) -> Busy {
        let NotLocked { caller: _, busy } = back;
        busy
    }
}

/// The pairs of the table were not taken out, and no binding was changed.
#[derive(Drop, Error)]
#[error("{why}")]
pub struct NotDrained<C> {
    /// The caller that was to drain the table.
    pub caller: C,
    /// Why it did not.
    pub why: DrainFault,
}

impl<C> Debug for NotDrained<C> {
    fn fmt<W: fmt::Write>(&self, f: &mut Formatter<W>) -> fmt::Result {
        f.debug_struct("NotDrained")
            .field("why", &self.why)
            .finish_non_exhaustive()
    }
}

/// The keys were not locked, and nothing was changed.
#[derive(Drop, Error)]
#[error("{why}")]
pub struct KeysNotLocked<C> {
    /// The caller that was to lock the keys.
    pub caller: C,
    /// Why it did not.
    pub why: KeysRefused,
}

impl<C> Debug for KeysNotLocked<C> {
    fn fmt<W: fmt::Write>(&self, f: &mut Formatter<W>) -> fmt::Result {
        f.debug_struct("KeysNotLocked")
            .field("why", &self.why)
            .finish_non_exhaustive()
    }
}

/// The keys were not locked with room for each of them, and no binding was changed.
#[derive(Drop, Error)]
#[error("{why}")]
pub struct KeysWithoutRoom<C> {
    /// The caller that was to lock the keys.
    pub caller: C,
    /// Why it did not.
    pub why: RoomFault,
}

impl<C> Debug for KeysWithoutRoom<C> {
    fn fmt<W: fmt::Write>(&self, f: &mut Formatter<W>) -> fmt::Result {
        f.debug_struct("KeysWithoutRoom")
            .field("why", &self.why)
            .finish_non_exhaustive()
    }
}

/// A key and a value for which no slot was free among locked keys, given back.
#[derive(Drop, Error)]
#[error("no free slot for the key among its stripes: unlock the keys, and insert it")]
pub struct NoSlot<K, V> {
    /// The key that was to be bound.
    pub key: K,
    /// The value that it was to be bound to.
    pub value: V,
}

impl<K, V> Debug for NoSlot<K, V> {
    fn fmt<W: fmt::Write>(&self, f: &mut Formatter<W>) -> fmt::Result {
        f.debug_struct("NoSlot").finish_non_exhaustive()
    }
}

/// Why a call on several keys, which makes room for those that it binds, was refused. No binding was
/// changed.
#[derive(Debug, Clone, Copy, PartialEq, Eq, Error)]
pub enum RoomFault {
    /// A key stands twice, or a stripe of the keys was found held too often.
    #[error("{0}")]
    Keys(KeysRefused),
    /// There is no room for a key, or too little for all at once, and none could be made: as an
    /// insertion is refused. The table may have grown all the same.
    #[error("{0}")]
    Room(Why),
}

impl From<KeysRefused> for RoomFault {
    ghost use Rattle.std.specs.Prelude.{◌≡◌};
    ghost use Rattle.ck_refusal.specs.declared.refusal.RoomFault.TheVariants.{Keys};

    ghost from_gives = { λ refused fault. fault ≡ Keys refused };

    fn from(refused: KeysRefused) -> RoomFault {
        RoomFault::Keys(refused)
    }
}

/// A key to which another was to be renamed, given back.
#[derive(Drop, Error)]
#[error("{why}")]
pub struct NotRenamed<K> {
    /// The key that was to be bound.
    pub key: K,
    /// Why it was not.
    pub why: RoomFault,
}

impl<K> Debug for NotRenamed<K> {
    fn fmt<W: fmt::Write>(&self, f: &mut Formatter<W>) -> fmt::Result {
        f.debug_struct("NotRenamed")
            .field("why", &self.why)
            .finish_non_exhaustive()
    }
}
