//! All pairs of a locked table: how they are dropped or taken out, and how those stay that a closure
//! keeps.
ghost use Rattle.std.specs.Prelude.{◌≡◌, ℕ, OnOk, OnErr, IfOk};
ghost use Rattle.ck_model.specs.Listing.{ListsInOrder};
ghost use Rattle.ck_model.specs.Contents.{layout, Lawful, bindings};
ghost use Rattle.ck_stripe.specs.Stripes.{contents_of};
ghost use Rattle.ck_stripe.specs.Tables.{IsTable, AreSettled, AreAllHeld};
ghost use Rattle.ck_section.specs.Calls.{ChangesContents};
ghost use Rattle.ck_section.specs.Clearing.{ClearsBindings};
ghost use Rattle.ck_section.specs.Retaining.{AsksAboutStripes, RetainsBindings};
ghost use Rattle.cuckoo_map.specs.Locking.{map_of, Clears, Retains};

use crate::locked::LockedOn;
use crate::table_ref::TableRef;
use ck_key::TableKey;
use ck_section::{clear_all, drain_all, retain_all};
use ck_words::Whole;
use std::alloc::{AllocError, Global};

impl<T: TableRef<K, V> + Drop, K: TableKey + Drop, V: Drop> LockedOn<T, K, V> {
    /// Unbinds all keys, and drops them with their values.
    pub fn clear(&mut self)
        ensures { Clears self.old self.new }
    {
        clear_in(&mut self.whole);
    }

    /// Unbinds all keys, and gives them with their values, in rising order of the keys. It makes
    /// one request for memory; refused, it leaves the table as it was.
    pub fn drain(&mut self, alloc: Global) -> Result<Vec<(K, V)>, AllocError>
        ensures drained { IfOk result (λ pairs.
            ListsInOrder K.name K.cmp pairs.items (map_of self.old) × Clears self.old self.new) }
        ensures same { OnErr result (self.new ≡ self.old) }
    {
        drain_in(alloc, &mut self.whole)
    }

    /// Asks the closure about each key and its value once, in no order that is told, and unbinds
    /// the keys for which it answers false. These are dropped with their values.
    ///
    /// ```
    /// locked.retain(|_key, count| *count > 1);
    /// ```
    pub fn retain<F: FnMut(&K, &V) -> bool>(&mut self, mut f: F)
        requires call { F.IsAlwaysCallable f }
        ensures { Retains F.FnMut K.name f self.old self.new }
    {
        retain_in(&mut self.whole, &mut f);
    }
}

// Takes out the pairs of all stripes.
fn drain_in<K: TableKey + Drop, V: Drop>(
    alloc: Global,
    whole: &mut Whole<K, V>,
) -> Result<Vec<(K, V)>, AllocError>
    requires table { (s : ℕ) × IsTable s whole.old.stripes }
    requires settled { AreSettled whole.old.stripes }
    ensures pairs { IfOk result (λ pairs. (s max : ℕ)
        → Lawful (layout K.hash s max) (contents_of whole.old.stripes)
        → ListsInOrder K.name K.cmp pairs.items (bindings (contents_of whole.old.stripes))) }
    ensures cleared { OnOk result ((s max : ℕ) → IsTable s whole.old.stripes
        → ClearsBindings (layout K.hash s max) whole.old.stripes whole.new.stripes) }
    ensures changes { OnOk result (ChangesContents whole.old.stripes whole.new.stripes) }
    ensures left { OnErr result (whole.new ≡ whole.old) }
    ensures same { whole.new ≡ record whole.old { stripes = whole.new.stripes } }
{
    drain_all(alloc, whole.stripes.as_mut_slice())
}

// Asks the closure about each pair of all stripes, and drops those for which it answers false.
fn retain_in<K: TableKey + Drop, V: Drop, F: FnMut(&K, &V) -> bool>(
    whole: &mut Whole<K, V>,
    f: &mut F,
)
    requires settled { AreSettled whole.old.stripes }
    requires call { F.IsAlwaysCallable f.old }
    ensures asked { AsksAboutStripes F.FnMut K.name f.old whole.old.stripes whole.new.stripes
        f.new }
    ensures retained { (s max : ℕ) → IsTable s whole.old.stripes → RetainsBindings F.FnMut K.name
        f.old (layout K.hash s max) whole.old.stripes whole.new.stripes }
    ensures changes { ChangesContents whole.old.stripes whole.new.stripes }
    ensures same { whole.new ≡ record whole.old { stripes = whole.new.stripes } }
{
    retain_all(whole.stripes.as_mut_slice(), f);
}

// Drops all entries of all stripes.
fn clear_in<K: TableKey + Drop, V: Drop>(whole: &mut Whole<K, V>)
    requires settled { AreSettled whole.old.stripes }
    ensures held { (s : ℕ) → IsTable s whole.old.stripes → AreAllHeld s whole.new.stripes }
    ensures cleared { (s max : ℕ) → IsTable s whole.old.stripes
        → ClearsBindings (layout K.hash s max) whole.old.stripes whole.new.stripes }
    ensures changes { ChangesContents whole.old.stripes whole.new.stripes }
    ensures same { whole.new ≡ record whole.old { stripes = whole.new.stripes } }
{
    clear_all(whole.stripes.as_mut_slice());
}
