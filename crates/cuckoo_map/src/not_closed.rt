//! That a table was not ended.
ghost use Rattle.std.specs.Prelude.{◌≡◌, IfNone, IfSome};
ghost use Rattle.ck_refusal.specs.declared.refusal.DrainFault.TheVariants as faults;

use ck_key::TableKey;
use ck_refusal::{DrainFault, Fault};
use ck_words::Pass;
use std::fmt::{self, Debug, Formatter};
use thiserror::Error;

/// The table was not ended, and no binding was changed.
#[derive(Drop, Error)]
#[error("{why}")]
pub struct NotClosed<C, K: TableKey, V> {
    /// The caller that was to end the table.
    pub caller: C,
    /// The passes of all other callers.
    pub others: Vec<Pass<K, V>>,
    /// Why it did not.
    pub why: DrainFault,
}

// Why a table was not ended where this stripe was found held, or none.
pub(crate) fn why_not_closed(held: Option<u32>) -> DrainFault
    ensures busy { IfSome held (λ t. result ≡ faults.Busy t) }
    ensures memory { IfNone held (result ≡ faults.Memory) }
{
    match held {
        Some(stripe) => DrainFault::Busy(stripe),
        None => DrainFault::Memory,
    }
}

impl<C, K: TableKey, V> Debug for NotClosed<C, K, V> {
    fn fmt<W: fmt::Write>(&self, f: &mut Formatter<W>) -> fmt::Result {
        f.debug_struct("NotClosed")
            .field("why", &self.why)
            .finish_non_exhaustive()
    }
}

impl<C: Drop, K: TableKey + Drop, V: Drop> From<NotClosed<C, K, V>> for Fault {
    ghost use Rattle.std.specs.Prelude.{◌≡◌};
    ghost use Rattle.ck_refusal.specs.Faults.{fault_of_drain};

    ghost from_gives = { λ back fault. fault ≡ fault_of_drain back.why };

    fn from(back: NotClosed<C, K, V>) -> Fault {
        Fault::from(back.why)
    }
}
