//! One command on the table.
ghost use Rattle.std.specs.Prelude.{◌≡◌, ◌-◌, ◌+◌};
ghost use Rattle.std.specs.FinMap.{entries};
ghost use Rattle.ck_format.specs.Script.{on_names};
ghost use Rattle.ck_script.specs.Output.{share};
ghost use Rattle.cuckoo_map.specs.Locking.{map_of};
ghost use Rattle.ck_format.specs.Answers.{answer_on_names};
ghost use Rattle.ck_script.specs.Answered.{printed, IsAnsweredBy, IsListOf};

use crate::job::Told;
use ck_format::{Answer, Command, WrittenKey};
use ck_key::TableKey;
use cuckoo_map::{Handle, LockedHandle, Why};
use std::alloc::Global;

// What a command that may need room is refused for.
fn refusal_of<K: TableKey + Drop>(why: Why) -> Told<K>
    ensures { answer_on_names K.name result ≡ printed why }
{
    match why {
        Why::Busy(_) => Answer::Busy,
        Why::Memory => Answer::Memory,
        Why::Full => Answer::Full,
        Why::LoadTooLow => Answer::Load,
    }
}

// A function for each command: it asks the table, and picks the word for the reply.

fn find<K: TableKey + Drop>(handle: &mut Handle<K, u64>, key: K) -> Told<K>
    ensures { IsAnsweredBy K.hash (Command.Find (K.name key)) (answer_on_names K.name result)
        handle.old handle.new }
{
    match handle.find(&key) {
        Ok(Some(value)) => Answer::Value(value),
        Ok(None) => Answer::Absent,
        Err(_) => Answer::Busy,
    }
}

fn has<K: TableKey + Drop>(handle: &mut Handle<K, u64>, key: K) -> Told<K>
    ensures { IsAnsweredBy K.hash (Command.Has (K.name key)) (answer_on_names K.name result)
        handle.old handle.new }
{
    match handle.contains(&key) {
        Ok(true) => Answer::Yes,
        Ok(false) => Answer::No,
        Err(_) => Answer::Busy,
    }
}

fn insert<K: TableKey + Drop>(handle: &mut Handle<K, u64>, key: K, value: u64) -> Told<K>
    ensures { IsAnsweredBy K.hash (Command.Insert (K.name key) value) (answer_on_names K.name result)
        handle.old handle.new }
{
    match handle.insert(key, value) {
        Ok(true) => Answer::New,
        Ok(false) => Answer::Old,
        Err(refused) => refusal_of(refused.why),
    }
}

fn assign<K: TableKey + Drop>(handle: &mut Handle<K, u64>, key: K, value: u64) -> Told<K>
    ensures { IsAnsweredBy K.hash (Command.Assign (K.name key) value) (answer_on_names K.name result)
        handle.old handle.new }
{
    match handle.insert_or_assign(key, value) {
        Ok(Some(_)) => Answer::Set,
        Ok(None) => Answer::New,
        Err(refused) => refusal_of(refused.why),
    }
}

fn update<K: TableKey + Drop>(handle: &mut Handle<K, u64>, key: K, value: u64) -> Told<K>
    ensures { IsAnsweredBy K.hash (Command.Update (K.name key) value) (answer_on_names K.name result)
        handle.old handle.new }
{
    match handle.update(&key, value) {
        Ok(Some(_)) => Answer::Set,
        Ok(None) => Answer::Absent,
        Err(_) => Answer::Busy,
    }
}

fn add<K: TableKey + Drop>(handle: &mut Handle<K, u64>, key: K, value: u64) -> Told<K>
    ensures { IsAnsweredBy K.hash (Command.Add (K.name key) value) (answer_on_names K.name result)
        handle.old handle.new }
{
    match handle.upsert(key, |bound| bound.saturating_add(value), value) {
        Ok(true) => Answer::New,
        Ok(false) => Answer::Set,
        Err(refused) => refusal_of(refused.why),
    }
}

fn erase<K: TableKey + Drop>(handle: &mut Handle<K, u64>, key: K) -> Told<K>
    ensures { IsAnsweredBy K.hash (Command.Erase (K.name key)) (answer_on_names K.name result)
        handle.old handle.new }
{
    match handle.erase(&key) {
        Ok(Some(_)) => Answer::Gone,
        Ok(None) => Answer::Absent,
        Err(_) => Answer::Busy,
    }
}

fn len<K: TableKey + Drop>(handle: &mut Handle<K, u64>) -> Told<K>
    ensures { IsAnsweredBy K.hash Command.Len (answer_on_names K.name result) handle.old handle.new }
{
    match handle.len() {
        Ok(count) => Answer::Count(count),
        Err(_) => Answer::Busy,
    }
}

// As much of the amount as the one number has goes to the other, as far as that can take it.
fn moved(amount: u64, from: u64, to: u64) -> (u64, u64)
    ensures from { result.0 ≡ from - share amount from to }
    ensures to { result.1 ≡ to + share amount from to }
{
    let share = amount.min(from).min(u64::MAX - to);
    (from - share, to + share)
}

// Nothing goes from a key to itself. No script that was read says so, and no call of the table does
// it.
fn transfer<K: TableKey + Drop>(handle: &mut Handle<K, u64>, from: K, to: K, amount: u64) -> Told<K>
    ensures { IsAnsweredBy K.hash (Command.Move (K.name from) (K.name to) amount)
        (answer_on_names K.name result) handle.old handle.new }
{
    if from == to {
        return Answer::Busy;
    }
    match handle.update_two(&from, &to, |less, more| moved(amount, less, more)) {
        Ok(true) => Answer::Set,
        Ok(false) => Answer::Absent,
        Err(_) => Answer::Busy,
    }
}

// The list of a locked table, where there is memory for it.
fn listed<K: WrittenKey>(alloc: Global, locked: &LockedHandle<K, u64>) -> Told<K>
    ensures { IsListOf (entries (map_of locked.now)) (answer_on_names K.name result) }
{
    match locked.export(alloc) {
        Ok(pairs) => Answer::Listed(pairs),
        Err(_) => Answer::Memory,
    }
}

// A session that changes nothing. Where there is no memory for the list, the table is unlocked all
// the same.
fn list<K: WrittenKey>(alloc: Global, handle: Handle<K, u64>) -> (Told<K>, Handle<K, u64>)
    ensures { IsAnsweredBy K.hash Command.List (answer_on_names K.name result.0)
        handle result.1 }
{
    match handle.lock() {
        Ok(locked) => {
            let answer = listed(alloc, &locked);
            (answer, locked.unlock_caller())
        }
        Err(refused) => (Answer::Busy, refused.caller),
    }
}

/// Does what the command says.
pub(crate) fn answer_of<K: WrittenKey>(
    alloc: Global,
    handle: Handle<K, u64>,
    command: Command<K>,
) -> (Told<K>, Handle<K, u64>)
    ensures { IsAnsweredBy K.hash (on_names K.name command) (answer_on_names K.name result.0)
        handle result.1 }
{
    let mut handle = handle;
    let answer = match command {
        Command::Find(key) => find(&mut handle, key),
        Command::Has(key) => has(&mut handle, key),
        Command::Insert(key, value) => insert(&mut handle, key, value),
        Command::Assign(key, value) => assign(&mut handle, key, value),
        Command::Update(key, value) => update(&mut handle, key, value),
        Command::Add(key, value) => add(&mut handle, key, value),
        Command::Erase(key) => erase(&mut handle, key),
        Command::Len => len(&mut handle),
        Command::List => return list(alloc, handle),
        Command::Move(from, to, amount) => transfer(&mut handle, from, to, amount),
    };
    (answer, handle)
}
