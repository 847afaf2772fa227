//! A key of the program's own.
ghost use Rattle.std.specs.Prelude.{◌∷◌, []};
ghost use Rattle.ck_store.specs.SessionKeys.{session_hash};
ghost use Rattle.ck_store.specs.SessionKeyLaws.{session_names, session_hash_below};

use cuckoo_map::{MixedKey, TableKey};

/// A user's session on one of the devices.
#[derive(Clone, Copy, PartialEq, Eq, PartialOrd, Ord)]
pub struct SessionKey {
    pub user: u32,
    pub device: u32,
}

const HALF: u64 = 0x1_0000_0000;

impl TableKey for SessionKey {
    // The list of numbers by which contracts know a key.
    ghost name = { λ key. key.user ∷ key.device ∷ [] };

    ghost hash = { session_hash };

    /// Both numbers side by side, mixed: as they are, the few devices would choose few buckets.
    fn hash64(&self) -> u64 {
        MixedKey(self.user as u64 * HALF + self.device as u64).hash64()
    }

    ghost equal_names = { λ a b. session_names a.user b.user a.device b.device };

    ghost hash_below = { session_hash_below };
}
