//! Growing the table, under all stripes.
ghost use Rattle.std.specs.Prelude.{◌≡◌, ℕ, ◌≤◌, ◌<◌, IfOk, OnErr, MatchBool};
ghost use Rattle.ck_model.specs.Contents.{layout};
ghost use Rattle.ck_stripe.specs.Tables.{AreAllHeld, IsTable, power_in, KeepsBindings};
ghost use Rattle.ck_words.specs.Retries.{Stays, as_doubled, FindsAmong};
ghost use Rattle.ck_words.specs.Closing.{IsCaller};
ghost use Rattle.cuckoo_map.specs.Refusals.{IsStripeIn};
ghost use Rattle.cuckoo_map.specs.Growth.{IsLeastPower, Rehashes, Reserves};

use crate::table::Table;
use ck_key::TableKey;
use ck_model::settings::Settings;
use ck_refusal::GrowFault;
use ck_section::double_all;
use ck_stripe::{Grower, Held, Stripe, one_stripe, settle_all};
use ck_words::{Pass, Whole, guard};
use std::alloc::AllocError;

impl<K: TableKey + Drop, V: Drop> Table<K, V> {
    /// `Caller::rehash`, by a pass. Refused for want of memory, the pass was told of fewer buckets
    /// than the table was to have.
    pub fn rehash(&self, pass: &mut Pass<K, V>, power: u32) -> Result<bool, GrowFault>
        requires caller { IsCaller self.now pass.old }
        ensures caller { IsCaller self.now pass.new }
        ensures stays { Stays (as_doubled pass.old pass.new).view pass.new.view }
        ensures rehashed { Rehashes self.now.settings power result pass.old pass.new }
        ensures found { FindsAmong (IsStripeIn self.now.settings) pass.old pass.new }
    {
        let Settings { s, max, .. } = self.words.settings();
        if max < power {
            return Err(GrowFault::OverMax);
        }
        self.lock_all(pass)?;
        let all = self.words.all();
        let mut grower = self.grower();
        let mut guard = guard!(&self.words, pass, all);
        let grown = double_to(&mut guard, s, power, &mut grower);
        guard.renew();
        match grown {
            Ok(grown) => Ok(grown),
            Err(_) => Err(GrowFault::Memory),
        }
    }

    /// `Caller::reserve`, by a pass.
    pub fn reserve(&self, pass: &mut Pass<K, V>, n: u64) -> Result<bool, GrowFault>
        requires caller { IsCaller self.now pass.old }
        ensures caller { IsCaller self.now pass.new }
        ensures stays { Stays (as_doubled pass.old pass.new).view pass.new.view }
        ensures reserved { Reserves self.now.settings n result pass.old pass.new }
        ensures found { FindsAmong (IsStripeIn self.now.settings) pass.old pass.new }
    {
        self.rehash(pass, least_power(n))
    }

    // Doubles a table of 2^s stripes, which one caller has in one list, until it has 2^power
    // buckets, and says whether it had fewer. All stripes are settled then.
    pub(crate) fn double_in(
        &self,
        whole: &mut Whole<K, V>,
        s: u32,
        power: u32,
    ) -> Result<bool, AllocError>
        requires held { AreAllHeld s whole.old.stripes }
        requires power { power ≤ 26 }
        ensures held { AreAllHeld s whole.new.stripes }
        ensures no_call { (max : ℕ) → power ≤ max
            → KeepsBindings (layout K.hash s max) whole.old.stripes whole.new.stripes }
        ensures reached { IfOk result (λ grown. MatchBool grown
            ((power_in whole.old.stripes < power) × (power_in whole.new.stripes ≡ power))
            ((power ≤ power_in whole.old.stripes) × (whole.new.stripes ≡ whole.old.stripes))) }
        ensures short { OnErr result ((power_in whole.old.stripes < power)
            × (power_in whole.new.stripes < power)) }
        ensures same { whole.new ≡ record whole.old { stripes = whole.new.stripes } }
    {
        let mut grower = self.grower();
        let grown = double_to(whole, s, power, &mut grower);
        settle_all(whole);
        grown
    }
}

// The least power of at least 1 with which a table has `n` slots.
pub(crate) fn least_power(n: u64) -> u32
    ensures { IsLeastPower n result }
{
    for power in 1..62 {
        if n <= 4 << power {
            return power;
        }
    }
    62
}

// Doubles a table of 2^s stripes until it has 2^power buckets, and says whether it had fewer. The
// last doubling is left to be carried out.
fn double_to<K: TableKey + Drop, V: Drop, H: Held<Stripe<K, V>>>(
    held: &mut H,
    s: u32,
    power: u32,
    grower: &mut Grower<K, V>,
) -> Result<bool, AllocError>
    requires table { IsTable s (H.stripes held.old) }
    requires power { power ≤ 26 }
    ensures table { IsTable s (H.stripes held.new) }
    ensures no_call { (max : ℕ) → power ≤ max
        → KeepsBindings (layout K.hash s max) (H.stripes held.old) (H.stripes held.new) }
    ensures reached { IfOk result (λ grown. MatchBool grown
        ((power_in (H.stripes held.old) < power) × (power_in (H.stripes held.new) ≡ power))
        ((power ≤ power_in (H.stripes held.old))
        × (H.stripes held.new ≡ H.stripes held.old))) }
    ensures short { OnErr result ((power_in (H.stripes held.old) < power)
        × (power_in (H.stripes held.new) < power)) }
    ensures stays { H.stays held.old held.new }
{
    let before = one_stripe::power(held, 0);
    'doublings: for _ in before..power {
        settle_all(held);
        double_all(held, s, grower)?;
    }
    Ok(before < power)
}
