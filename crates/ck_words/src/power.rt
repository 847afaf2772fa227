//! Reading the power of the table.
ghost use Rattle.std.specs.Prelude.{◌≡◌, ◌<◌, length, OnOk, IfOk, IfErr};
ghost use Rattle.ck_stripe.specs.Stripes.{stripe_at};
ghost use Rattle.ck_words.specs.Passes.{IsPassOf, IsIdle};
ghost use Rattle.ck_words.specs.Retries.{Stays, FindsAmong, IsBusy};

use crate::pass::Pass;
use crate::visits;
use crate::words::Words;
use ck_key::TableKey;
use ck_stripe::Stripe;

impl<K: TableKey + Drop, V: Drop> Words<K, V> {
    /// The power, as stripe 0 has it, of which the pass has then been told: the table has 2^power
    /// buckets, or more by now. Where another pass holds the stripe, it answers the number of that
    /// stripe, 0, which was found held `turns` times in a row.
    pub fn power(&self, pass: &mut Pass<K, V>) -> Result<u32, usize>
        requires own { IsPassOf self.now pass.old }
        requires idle { IsIdle pass.old }
        ensures own { IsPassOf self.now pass.new }
        ensures stays { Stays pass.old.view pass.new.view }
        ensures told { IfOk result (λ power. power ≡ pass.new.view.told) }
        ensures idle { OnOk result (IsIdle pass.new) }
        ensures found { FindsAmong (λ t. t ≡ 0) pass.old pass.new }
        ensures busy { IfErr result (λ t. (t ≡ 0)
            × IsBusy self.now.settings t pass.old pass.new) }
    {
        self.show_range();
        if !self.try_take(pass, 0) {
            return Err(0);
        }
        let power = self.power_of_only(pass);
        self.give_rest(pass, 0);
        Ok(power)
    }

    // The power of stripe 0, where the pass holds no other.
    fn power_of_only(&self, pass: &mut Pass<K, V>) -> u32
        requires own { IsPassOf self.now pass.old }
        requires count { length pass.old.stripes ≡ 1 }
        requires number { (stripe_at pass.old.stripes 0).number ≡ 0 }
        ensures value { result ≡ (stripe_at pass.old.stripes 0).content.power }
        ensures same { pass.new ≡ pass.old }
    {
        visits::visit_at(
            &self.table.shared,
            &mut pass.seat,
            1,
            0,
            0,
            |stripe: &mut Stripe<K, V>| stripe.power(),
        )
    }
}
