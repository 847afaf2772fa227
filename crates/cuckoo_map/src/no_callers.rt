//! That no list of callers was made.
use ck_key::TableKey;
use ck_refusal::Fault;
use ck_words::Pass;
use std::fmt::{self, Debug, Formatter};
use thiserror::Error;

/// There is no memory for a list of callers; their passes come back.
#[derive(Drop, Error)]
#[error("no memory for the callers")]
pub struct NoCallers<K: TableKey, V> {
    /// The passes of which callers were to be made.
    pub passes: Vec<Pass<K, V>>,
}

impl<K: TableKey, V> Debug for NoCallers<K, V> {
    fn fmt<W: fmt::Write>(&self, f: &mut Formatter<W>) -> fmt::Result {
        f.debug_struct("NoCallers").finish_non_exhaustive()
    }
}

impl<K: TableKey + Drop, V: Drop> From<NoCallers<K, V>> for Fault {
    ghost use Rattle.std.specs.Prelude.{◌≡◌};
    ghost use Rattle.ck_refusal.specs.declared.fault.Fault.TheVariants as faults;

    ghost from_gives = { λ _ fault. fault ≡ faults.Memory };

    fn from(_back: NoCallers<K, V>) -> Fault {
        Fault::Memory
    }
}
