//! The calls of a locked table.
use crate::answer::Answer;
use crate::line::Line;
use crate::watch::Watch;
use cuckoo_map::{LockedHandle, NumKey};

mod changes;
mod growth;
mod insertions;

/// A table of numbers under one handle.
pub type NumLocked = LockedHandle<NumKey, u64>;

/// Makes the call of the line; `None` where there is none of that name.
pub fn answer(locked: &mut NumLocked, line: &Line, watch: &Watch) -> Option<Answer> {
    if let Some(answer) = looked(locked, line) {
        return Some(answer);
    }
    if let Some(answer) = growth::answer(locked, line) {
        return Some(answer);
    }
    if let Some(answer) = insertions::answer(locked, line, watch) {
        return Some(answer);
    }
    changes::answer(locked, line, watch)
}

// Makes a call that changes nothing.
fn looked(locked: &NumLocked, line: &Line) -> Option<Answer> {
    let key = NumKey(line.numbers[0]);
    Some(match line.call {
        "find" => Answer::Value(locked.find(&key).copied()),
        "contains" => Answer::Yes(locked.contains(&key)),
        "len" => Answer::Count(locked.len()),
        "is_empty" => Answer::Yes(locked.is_empty()),
        "power" => Answer::Count(locked.power().into()),
        "capacity" => Answer::Count(locked.capacity()),
        "load_factor" => Answer::Count(locked.load_factor()),
        _ => return None,
    })
}

/// Half of the value, which is told as it was.
pub fn halve_and_tell(value: u64) -> (u64, u64) {
    (value / 2, value)
}

/// Seven less, or nothing and how much is lacking.
fn take_seven(left: u64) -> Result<u64, (u64, u64)> {
    left.checked_sub(7).ok_or((0, 7u64.saturating_sub(left)))
}
