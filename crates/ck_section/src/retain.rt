//! Of the pairs of all stripes of a table, held as one slice, those stay that a closure keeps.
ghost use Rattle.std.specs.Prelude.{ℕ};
ghost use Rattle.ck_model.specs.Contents.{layout};
ghost use Rattle.ck_section.specs.Calls.{ChangesContents};
ghost use Rattle.ck_stripe.specs.Tables.{IsTable, AreSettled};
ghost use Rattle.ck_section.specs.Retaining.{AsksAboutStripes, RetainsBindings};

use ck_key::TableKey;
use ck_stripe::Stripe;

/// Asks the closure about each pair once, and drops those for which it answers false.
pub fn retain_all<K: TableKey + Drop, V: Drop, F: FnMut(&K, &V) -> bool>(
    stripes: &mut [Stripe<K, V>],
    f: &mut F,
)
    requires settled { AreSettled stripes.old }
    requires call { F.IsAlwaysCallable f.old }
    ensures asked { AsksAboutStripes F.FnMut K.name f.old stripes.old stripes.new f.new }
    ensures retained { (s max : ℕ) → IsTable s stripes.old
        → RetainsBindings F.FnMut K.name f.old (layout K.hash s max) stripes.old stripes.new }
    ensures changes { ChangesContents stripes.old stripes.new }
{
    for i in 0..stripes.len() {
        stripes[i].retain(f);
    }
}
