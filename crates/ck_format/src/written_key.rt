//! Keys that a run can write.
ghost use Rattle.std.specs.Prelude.{◌≡◌, ◌++◌, OnOk, refl};
ghost use Rattle.ck_model.specs.Promise.{name_cmp};
ghost use Rattle.ck_model.proofs.Entries.{alone};
ghost use Rattle.ck_format.specs.declared.script.Keys.{Keys};
ghost use Rattle.ck_format.specs.declared.script.Keys.TheVariants.{Num, Text};
ghost use Rattle.ck_format.specs.Script.{hash_of};
ghost use Rattle.ck_format.specs.Text.{name_text};

use ck_key::{NumKey, TableKey, TextKey};
use itoa::Buffer;
use std::alloc::AllocError;

/// A key that a run can write. Keys are in the order of their names, and a clone is equal.
pub trait WrittenKey: TableKey + Clone + Drop {
    // Of which kind it is.
    ghost keys: { Keys };

    /// Adds the key to the text.
    fn add_to(&self, out: &mut Vec<u8>) -> Result<(), AllocError>
        ensures { OnOk result (
            out.new.items ≡ out.old.items ++ name_text keys (Self.name self.now)) };

    ghost hashed: { Self.hash ≡ hash_of keys };

    ghost in_order: { (a b : Self) → Self.cmp a b ≡ name_cmp (Self.name a) (Self.name b) };

    ghost clones: { (key copy : Self) → Self.is_clone key copy → copy ≡ key };
}

impl WrittenKey for NumKey {
    ghost keys = { Num };

    fn add_to(&self, out: &mut Vec<u8>) -> Result<(), AllocError> {
        let mut buffer = Buffer::new();
        out.extend_from_slice(buffer.format(self.0).as_bytes())
    }

    ghost hashed = { refl };

    ghost in_order = { λ a b. alone a.0 b.0 };

    ghost clones = { λ key copy same. same };
}

impl WrittenKey for TextKey {
    ghost keys = { Text };

    fn add_to(&self, out: &mut Vec<u8>) -> Result<(), AllocError> {
        out.extend_from_slice(self.as_bytes())
    }

    ghost hashed = { refl };

    ghost in_order = { λ a b. refl };

    ghost clones = { λ key copy same. same };
}
