//! What calls are answered, and how it is printed.
use crate::line::MOST_KEYS;
use crate::watch::Watch;
use cuckoo_map::{
    Busy, GrowFault, KeysRefused, NoSlot, NumKey, Refused, Renamed, RoomFault, Uprased, Why,
};
use std::io;

/// What a call is answered.
#[derive(Clone, Copy)]
pub enum Answer {
    /// A value; `None` where the key is unbound.
    Value(Option<u64>),
    Yes(bool),
    /// Whether the key is bound anew.
    New(bool),
    Uprased(Uprased),
    Renamed(Renamed),
    Count(u64),
    /// So many values, and then none.
    Values(usize, Values),
    /// What a closure answered for several values, and those that it left.
    Left(Option<u64>, usize, Values),
    /// A closure failed with this.
    Failed(u64),
    Busy(u32),
    /// The value came back.
    ValueBack(u64, u32),
    /// Key and value came back.
    Back(u64, u64, Why),
    /// The key came back, and the closure that was to make a value.
    KeyBack(u64, Why),
    /// The new name of a key came back.
    NameBack(u64, RoomFault),
    /// No room is made.
    NoRoom(Why),
    /// The key at this position stands twice.
    Twice(usize),
    /// A growth is refused.
    NotGrown(GrowFault),
    /// Key and value came back for want of a free slot.
    NoSlot(u64, u64),
    /// The table or keys of it were locked.
    Locked,
    /// They were not.
    NotLocked(RoomFault),
}

/// The values of the keys of a call.
pub type Values = [Option<u64>; MOST_KEYS];

impl Answer {
    /// Whether the call was refused.
    pub fn is_refusal(self) -> bool {
        !matches!(
            self,
            Answer::Value(_)
                | Answer::Yes(_)
                | Answer::New(_)
                | Answer::Uprased(_)
                | Answer::Renamed(_)
                | Answer::Count(_)
                | Answer::Values(..)
                | Answer::Left(..)
                | Answer::Failed(_)
                | Answer::Locked
        )
    }
}

/// The answer of a call that may be refused for a stripe alone.
pub fn answered<T, F: FnOnce(T) -> Answer + Drop>(outcome: Result<T, Busy>, answer: F) -> Answer
    requires { F.IsAlwaysCallable answer }
{
    match outcome {
        Ok(told) => answer(told),
        Err(busy) => Answer::Busy(busy.0),
    }
}

/// The answer of a call that may bind the key to this value.
pub fn placed<T, F: FnOnce(T) -> Answer + Drop>(
    outcome: Result<T, Refused<NumKey, u64>>,
    answer: F,
) -> Answer
    requires { F.IsAlwaysCallable answer }
{
    match outcome {
        Ok(told) => answer(told),
        Err(Refused { key, value, why }) => Answer::Back(key.0, value, why),
    }
}

/// The answer of a call that may bind the key to what its closure makes.
pub fn placed_with<T, V: Drop, F: FnOnce(T) -> Answer + Drop>(
    outcome: Result<T, Refused<NumKey, V>>,
    answer: F,
) -> Answer
    requires { F.IsAlwaysCallable answer }
{
    match outcome {
        Ok(told) => answer(told),
        Err(Refused { key, why, .. }) => Answer::KeyBack(key.0, why),
    }
}

/// The answer of a call that may bind the key to this value where a slot is free.
pub fn placed_in_slot<T, F: FnOnce(T) -> Answer + Drop>(
    outcome: Result<T, NoSlot<NumKey, u64>>,
    answer: F,
) -> Answer
    requires { F.IsAlwaysCallable answer }
{
    match outcome {
        Ok(told) => answer(told),
        Err(NoSlot { key, value }) => Answer::NoSlot(key.0, value),
    }
}

/// The answer of a call by a closure that may fail.
pub fn ended(outcome: Result<bool, u64>) -> Answer {
    match outcome {
        Ok(new) => Answer::New(new),
        Err(with) => Answer::Failed(with),
    }
}

/// The answer of a call by which the table may grow.
pub fn grown(outcome: Result<bool, GrowFault>) -> Answer {
    match outcome {
        Ok(grown) => Answer::Yes(grown),
        Err(fault) => Answer::NotGrown(fault),
    }
}

/// The answer of a call on several keys.
pub fn answered_keys<T, F: FnOnce(T) -> Answer + Drop>(
    outcome: Result<T, KeysRefused>,
    answer: F,
) -> Answer
    requires { F.IsAlwaysCallable answer }
{
    match outcome {
        Ok(told) => answer(told),
        Err(KeysRefused::Busy(t)) => Answer::Busy(t),
        Err(KeysRefused::Twice(position)) => Answer::Twice(position),
    }
}

/// Prints the answer of a call, and how often its closures were called, where they were.
pub fn print(rt: &impl Print, answer: Answer, watch: &Watch) -> io::Result<()> {
    print_answer(rt, answer)?;
    match watch.calls() {
        0 => println!(rt; ""),
        1 => println!(rt; ", called"),
        many => println!(rt; ", called {many} times"),
    }
}

fn print_answer(rt: &impl Print, answer: Answer) -> io::Result<()> {
    match answer {
        Answer::Value(value) => print_value(rt, value),
        Answer::Yes(yes) => print!(rt; "{}", if yes { "yes" } else { "no" }),
        Answer::New(new) => print!(rt; "{}", if new { "new" } else { "bound" }),
        Answer::Uprased(uprased) => print!(rt; "{}", word_of(uprased)),
        Answer::Renamed(renamed) => print!(rt; "{}", word_of_name(renamed)),
        Answer::Count(count) => print!(rt; "{count}"),
        Answer::Locked => print!(rt; "locked"),
        Answer::Values(count, values) => print_values(rt, count, &values),
        Answer::Left(told, count, values) => {
            print_value(rt, told)?;
            print!(rt; ": ")?;
            print_values(rt, count, &values)
        }
        refusal => print_refusal(rt, refusal),
    }
}

fn print_refusal(rt: &impl Print, refusal: Answer) -> io::Result<()> {
    match refusal {
        Answer::Failed(with) => print!(rt; "failed {with}"),
        Answer::Busy(t) => print!(rt; "busy {t}"),
        Answer::Twice(position) => print!(rt; "twice {position}"),
        Answer::NoRoom(why) => print_reason(rt, why),
        Answer::NotGrown(fault) => print!(rt; "refused: {fault}"),
        Answer::NotLocked(fault) => print_fault(rt, fault),
        back => print_back(rt, back),
    }
}

/// Prints what came back.
fn print_back(rt: &impl Print, back: Answer) -> io::Result<()> {
    match back {
        Answer::ValueBack(value, t) => print!(rt; "busy {t}: {value} came back"),
        Answer::Back(key, value, why) => {
            print_reason(rt, why)?;
            print!(rt; ": {key} {value} came back")
        }
        Answer::KeyBack(key, why) => {
            print_reason(rt, why)?;
            print!(rt; ": {key} came back")
        }
        Answer::NameBack(key, fault) => {
            print_fault(rt, fault)?;
            print!(rt; ": {key} came back")
        }
        Answer::NoSlot(key, value) => print!(rt; "no slot: {key} {value} came back"),
        _ => Ok(()),
    }
}

fn print_value(rt: &impl Print, value: Option<u64>) -> io::Result<()> {
    match value {
        Some(value) => print!(rt; "{value}"),
        None => print!(rt; "unbound"),
    }
}

fn print_values(rt: &impl Print, count: usize, values: &Values) -> io::Result<()> {
    for (i, value) in values.iter().take(count).enumerate() {
        if i > 0 {
            print!(rt; " ")?;
        }
        print_value(rt, *value)?;
    }
    Ok(())
}

fn word_of(uprased: Uprased) -> &'static str {
    match uprased {
        Uprased::New => "new",
        Uprased::Changed => "changed",
        Uprased::Erased => "erased",
    }
}

fn word_of_name(renamed: Renamed) -> &'static str {
    match renamed {
        Renamed::Done => "renamed",
        Renamed::Unbound => "unbound",
        Renamed::Occupied => "occupied",
    }
}

/// Prints why an insertion is refused.
fn print_reason(rt: &impl Print, why: Why) -> io::Result<()> {
    match why {
        Why::Busy(t) => print!(rt; "busy {t}"),
        Why::Memory => print!(rt; "memory"),
        Why::Full => print!(rt; "full"),
        Why::LoadTooLow => print!(rt; "load"),
    }
}

/// Prints why there is no room for several keys.
fn print_fault(rt: &impl Print, fault: RoomFault) -> io::Result<()> {
    match fault {
        RoomFault::Keys(KeysRefused::Busy(t)) => print!(rt; "busy {t}"),
        RoomFault::Keys(KeysRefused::Twice(position)) => print!(rt; "twice {position}"),
        RoomFault::Room(why) => print_reason(rt, why),
    }
}
