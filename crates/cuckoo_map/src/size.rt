//! How many keys are bound, how many buckets the table has, and what holds all stripes.
ghost use Rattle.std.specs.Prelude.{◌≡◌, ◌*◌, ◌^◌, ◌≤◌, ℕ, OnOk, IfOk, IfErr, nat_eq};
ghost use Rattle.ck_model.specs.declared.history.Call.TheVariants.{Len};
ghost use Rattle.ck_model.specs.declared.history.Reply.TheVariants.{Count};
ghost use Rattle.ck_words.specs.Retries.{Stays, FindsAmong};
ghost use Rattle.ck_words.specs.Answering.{IsAnswered};
ghost use Rattle.ck_words.specs.Closing.{IsCaller};
ghost use Rattle.cuckoo_map.specs.Refusals.{IsStripeIn, IsBusyAmong};

use crate::table::Table;
use ck_key::TableKey;
use ck_model::commit::Commit;
use ck_refusal::Busy;
use ck_stripe::len;
use ck_words::{Pass, guard};

impl<K: TableKey + Drop, V: Drop> Table<K, V> {
    /// `Caller::len`, by a pass. It is never more than the table has slots at its greatest power.
    pub fn len(&self, pass: &mut Pass<K, V>) -> Result<u64, Busy>
        requires caller { IsCaller self.now pass.old }
        ensures caller { IsCaller self.now pass.new }
        ensures answered { IfOk result (λ count. IsAnswered Len (Count count) pass.old pass.new) }
        ensures most { IfOk result (λ count. count ≤ 4 * 2 ^ self.now.settings.max) }
        ensures busy { IfErr result (λ busy. IsBusyAmong (IsStripeIn self.now.settings)
            self.now.settings busy.0 pass.old pass.new) }
        ensures found { FindsAmong (IsStripeIn self.now.settings) pass.old pass.new }
    {
        self.lock_all(pass)?;
        let all = self.words.all();
        let mut guard = guard!(&self.words, pass, all);
        let count = len(&mut guard, self.words.settings().s);
        guard.commit(Commit::Len);
        Ok(count)
    }

    /// `Caller::is_empty`, by a pass.
    pub fn is_empty(&self, pass: &mut Pass<K, V>) -> Result<bool, Busy>
        requires caller { IsCaller self.now pass.old }
        ensures caller { IsCaller self.now pass.new }
        ensures answered { IfOk result (λ empty. (count : ℕ) × (empty ≡ nat_eq count 0)
            × IsAnswered Len (Count count) pass.old pass.new) }
        ensures busy { IfErr result (λ busy. IsBusyAmong (IsStripeIn self.now.settings)
            self.now.settings busy.0 pass.old pass.new) }
        ensures found { FindsAmong (IsStripeIn self.now.settings) pass.old pass.new }
    {
        let count = self.len(pass)?;
        Ok(count == 0)
    }

    /// `Caller::capacity`, by a pass.
    pub fn capacity(&self, pass: &mut Pass<K, V>) -> Result<u64, Busy>
        requires caller { IsCaller self.now pass.old }
        ensures caller { IsCaller self.now pass.new }
        ensures stays { OnOk result (Stays pass.old.view pass.new.view) }
        ensures told { IfOk result (λ slots. slots ≡ 4 * 2 ^ pass.new.view.told) }
        ensures busy { IfErr result (λ busy. IsBusyAmong (λ t. t ≡ 0)
            self.now.settings busy.0 pass.old pass.new) }
        ensures found { FindsAmong (λ t. t ≡ 0) pass.old pass.new }
    {
        self.words.show_range();
        let power = self.power(pass)?;
        Ok(4 << power)
    }

    /// `Caller::power`, by a pass.
    pub fn power(&self, pass: &mut Pass<K, V>) -> Result<u32, Busy>
        requires caller { IsCaller self.now pass.old }
        ensures caller { IsCaller self.now pass.new }
        ensures stays { OnOk result (Stays pass.old.view pass.new.view) }
        ensures told { IfOk result (λ power. power ≡ pass.new.view.told) }
        ensures within { IfOk result (λ power. (self.now.settings.power ≤ power)
            × (power ≤ self.now.settings.max)) }
        ensures busy { IfErr result (λ busy. IsBusyAmong (λ t. t ≡ 0)
            self.now.settings busy.0 pass.old pass.new) }
        ensures found { FindsAmong (λ t. t ≡ 0) pass.old pass.new }
    {
        match self.words.power(pass) {
            Ok(power) => Ok(power),
            Err(stripe) => Err(Busy(stripe as u32)),
        }
    }
}
