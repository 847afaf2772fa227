//! Accounts that two threads share: one pays, each payment proved to keep the sum of all, while the
//! other locks the table again and again and finds all of it each time.
#![tactic(auto)]

ghost use Rattle.std.specs.Prelude.{◌≡◌, ◌≢◌, ℕ, ◌++◌, List};
ghost use Rattle.ck_model.specs.declared.history.Entry.{Entry};
ghost use Rattle.ck_core.specs.Sums.{EachKeepsTotal};

use anyhow::Result;
use ck_laws::ledger::moved;
use cuckoo_map::{Busy, Fault, Handle, LockedHandle, NumKey, Settings};
use std::alloc::Global;
use std::thread::{self, Threads};

/// The accounts are numbered from 0.
const ACCOUNTS: u64 = 10;

/// What each account begins with.
const FUND: u64 = 100;

/// How many payments are made.
const PAYMENTS: u64 = 1000;

/// How often the auditor adds up.
const AUDITS: u64 = 20;

/// Who pays, or audits.
type Teller = Handle<NumKey, u64>;

/// Opens the accounts.
fn open_accounts(teller: &mut Teller) -> Result<(), Fault> {
    for account in 0..ACCOUNTS {
        teller.insert(NumKey(account), FUND)?;
    }
    Ok(())
}

/// Moves an amount between two accounts, if both are open. What that adds to the history keeps the
/// sum of all accounts, whatever other handles do.
fn pay(teller: &mut Teller, from: u64, to: u64, amount: u64) -> Result<bool, Busy>
    requires { from ≢ to }
    ensures { (more : List (Entry ℕ)) × (teller.new.client.mine ≡ teller.old.client.mine ++ more)
        × EachKeepsTotal more }
{
    teller.update_two(&NumKey(from), &NumKey(to), |less, more| {
        moved(amount, less, more)
    })
}

/// Makes the payments, each between other accounts than the one before.
fn work(teller: &mut Teller) -> Result<(), Busy> {
    for step in 0..PAYMENTS {
        let from = step % ACCOUNTS;
        let to = (step * step + 1) % ACCOUNTS;
        if from != to {
            pay(teller, from, to, step % 7)?;
        }
    }
    Ok(())
}

/// The sum of all accounts of the locked table.
fn total(accounts: &LockedHandle<NumKey, u64>) -> u64 {
    let mut sum = 0u64;
    for (_, balance) in accounts.iter() {
        sum = sum.saturating_add(*balance);
    }
    sum
}

/// Locks the table and adds up, again and again. Whether nothing was ever missing.
fn audit(mut auditor: Teller) -> Result<bool, Fault> {
    let mut is_whole = true;
    for _ in 0..AUDITS {
        let accounts = auditor.lock()?;
        is_whole = is_whole && total(&accounts) == ACCOUNTS * FUND;
        auditor = accounts.unlock_caller();
    }
    Ok(is_whole)
}

/// Lets one handle pay, and the other audit meanwhile.
fn run(rt: &(impl Threads + Sync), alloc: Global) -> Result<bool, Fault> {
    let mut handles = Handle::open(alloc, Settings::for_keys(ACCOUNTS, 2))?;
    let (Some(mut teller), Some(auditor)) = (handles.pop(), handles.pop()) else {
        unreachable!()
    };
    open_accounts(&mut teller)?;
    let (paid, audited) = thread::join(rt, || work(&mut teller), || audit(auditor));
    paid?;
    audited
}

fn main(rt: HostRuntime) -> Result<()> {
    let is_whole = run(&rt, rt.alloc())?;
    println!(rt;
        "all of {} was there each time: {is_whole}",
        ACCOUNTS * FUND
    )?;
    Ok(())
}
