//! An example: values by numbers, in a table with one handle, which is proved to be a plain map.
ghost use Rattle.std.specs.Prelude.{◌≡◌, ◌≢◌, ◌+◌, ℕ, ◌∷◌, [], IfOk, OnOk, IsOk, OnErr, Some, None};
ghost use Rattle.std.specs.Bool.{OnTrue};
ghost use Rattle.std.specs.FinMap.{empty, get, entries, insert};
ghost use Rattle.ck_model.specs.declared.history.Call.TheVariants.{ChangeTwo};
ghost use Rattle.ck_core.specs.Sums.{total};
ghost use Rattle.cuckoo_map.specs.Acts.{ChangesTwo};
ghost use Rattle.cuckoo_map.specs.Callers.{IsSameCaller, Replies};
ghost use Rattle.ck_laws.specs.Ledger.{moved_of};
ghost use Rattle.ck_laws.specs.Sole.{IsSole, HasMap, Maps, ChangesBoth};

use cuckoo_map::{Busy, Fault, Handle, NumKey, Settings};
use std::alloc::Global;

/// A handle without others.
pub type Ledger = Handle<NumKey, u64>;

/// An empty ledger.
pub fn open(alloc: Global) -> Result<Ledger, Fault>
    ensures sole { IfOk result IsSole }
    ensures empty { IfOk result (λ own. HasMap own empty) }
{
    let mut handles = Handle::open(alloc, Settings::for_keys(100, 1))?;
    match handles.pop() {
        Some(own) => Ok(own),
        None => unreachable!(),
    }
}

/// The value of the account. No call of a handle without others is busy.
pub fn value_of(own: &mut Ledger, account: u64) -> Option<u64>
    requires { IsSole own.old }
    ensures sole { IsSole own.new }
    ensures found { Maps own.old own.new (λ m m2. (m2 ≡ m) × (result ≡ get m (account ∷ []))) }
{
    match own.find(&NumKey(account)) {
        Ok(value) => value,
        Err(_) => unreachable!(),
    }
}

/// Gives the account this value, and tells the one that it had. Refused, it changes nothing.
pub fn put(own: &mut Ledger, account: u64, value: u64) -> Result<Option<u64>, Fault>
    requires { IsSole own.old }
    ensures sole { IsSole own.new }
    ensures put { IfOk result (λ old. Maps own.old own.new (λ m m2.
        (old ≡ get m (account ∷ [])) × (m2 ≡ insert m (account ∷ []) value))) }
    ensures refused { OnErr result (Maps own.old own.new (λ m m2. m2 ≡ m)) }
{
    let old = own.insert_or_assign(NumKey(account), value)?;
    Ok(old)
}

/// What two accounts have afterwards: as much of the amount is moved as is there, and as there is
/// room for.
pub fn moved(amount: u64, from: u64, to: u64) -> (u64, u64)
    ensures value { result ≡ moved_of amount from to }
    ensures sum { result.0 + result.1 ≡ from + to }
{
    let share = amount.min(from).min(u64::MAX - to);
    (from - share, to + share)
}

// Moves an amount, if both accounts are there, and says whether they are: the sum stays.
fn change_two(own: &mut Ledger, from: u64, to: u64, amount: u64) -> Result<bool, Busy>
    requires { from ≢ to }
    ensures answered { IfOk result (ChangesTwo (λ v w r. r ≡ moved_of amount v w)
        (Replies (ChangeTwo (from ∷ []) (to ∷ [])) own.old own.new)) }
    ensures sum { IfOk result (ChangesTwo (λ v w r. v + w ≡ r.0 + r.1)
        (Replies (ChangeTwo (from ∷ []) (to ∷ [])) own.old own.new)) }
    ensures kept { OnOk result (own.new.client.settings ≡ own.old.client.settings) }
    ensures same { IsSameCaller own.old own.new }
    ensures alone { own.old.table.settings.callers ≡ 1 → IsOk result }
{
    own.update_two(&NumKey(from), &NumKey(to), |less, more| {
        moved(amount, less, more)
    })
}

/// Moves as much of the amount as it can, if both accounts are there, and says whether they are. The
/// sum of all values stays.
pub fn transfer(own: &mut Ledger, from: u64, to: u64, amount: u64) -> bool
    requires sole { IsSole own.old }
    requires different { from ≢ to }
    ensures sole { IsSole own.new }
    ensures moved { Maps own.old own.new
        (ChangesBoth (moved_of amount) (from ∷ []) (to ∷ []) result) }
    ensures sum { Maps own.old own.new (λ m m2. total (entries m2) ≡ total (entries m)) }
{
    match change_two(own, from, to, amount) {
        Ok(both) => both,
        Err(_) => unreachable!(),
    }
}

/// Begins anew, in one session on the locked table: it has just accounts 1 and 2 then, unless there
/// was no memory, which the answer tells.
pub fn reset(own: Ledger, first: u64, second: u64) -> (Ledger, bool)
    requires { IsSole own }
    ensures sole { IsSole result.0 }
    ensures begun { OnTrue result.1 (HasMap result.0
        (insert (insert empty (1 ∷ []) first) (2 ∷ []) second)) }
{
    match own.lock() {
        Ok(mut locked) => {
            locked.clear();
            let done = locked.insert_or_assign(NumKey(1), first).is_ok()
                && locked.insert_or_assign(NumKey(2), second).is_ok();
            (locked.unlock_caller(), done)
        }
        Err(_) => unreachable!(),
    }
}
