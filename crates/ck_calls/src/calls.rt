//! The calls of a handle.
use crate::answer::{Answer, answered, placed};
use crate::line::Line;
use crate::watch::Watch;
use crate::{closures, several, size};
use cuckoo_map::{Handle, NumKey};

/// A handle of a table of numbers.
pub type NumHandle = Handle<NumKey, u64>;

/// Makes the call of the line; `None` where there is none of that name.
pub fn answer(handle: &mut NumHandle, line: &Line, watch: &Watch) -> Option<Answer> {
    one_key(handle, line)
        .or_else(|| closures::answer(handle, line, watch))
        .or_else(|| several::answer(handle, line, watch))
        .or_else(|| size::answer(handle, line))
}

// The calls on a key that have no closure.
fn one_key(handle: &mut NumHandle, line: &Line) -> Option<Answer> {
    let key = NumKey(line.numbers[0]);
    let value = line.numbers[1];
    Some(match line.call {
        "find" => answered(handle.find(&key), Answer::Value),
        "contains" => answered(handle.contains(&key), Answer::Yes),
        "insert" => placed(handle.insert(key, value), Answer::New),
        "insert_or_assign" => placed(handle.insert_or_assign(key, value), Answer::Value),
        "update" => update(handle, key, value),
        "erase" => answered(handle.erase(&key), Answer::Value),
        _ => return None,
    })
}

fn update(handle: &mut NumHandle, key: NumKey, value: u64) -> Answer {
    match handle.update(&key, value) {
        Ok(old) => Answer::Value(old),
        Err((back, busy)) => Answer::ValueBack(back, busy.0),
    }
}
