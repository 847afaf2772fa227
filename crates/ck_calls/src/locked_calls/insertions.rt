//! The calls of a locked table that may bind an unbound key.
use crate::answer::{Answer, ended, placed, placed_with};
use crate::line::Line;
use crate::locked_calls::{NumLocked, take_seven};
use crate::watch::Watch;
use cuckoo_map::NumKey;

/// Makes the call of the line; `None` where there is none of that name here.
pub fn answer(locked: &mut NumLocked, line: &Line, watch: &Watch) -> Option<Answer> {
    let key = NumKey(line.numbers[0]);
    let value = line.numbers[1];
    Some(match line.call {
        "insert" => placed(locked.insert(key, value), Answer::New),
        "insert_range" => insert_range(locked, key.0, value),
        "insert_or_assign" => placed(locked.insert_or_assign(key, value), Answer::Value),
        "upsert" => upsert(locked, key, value, watch),
        "uprase" => uprase(locked, key, value, watch),
        "try_upsert" => try_upsert(locked, key, value, watch),
        "try_upsert_with" => try_upsert_with(locked, key, value, watch),
        "insert_with" => insert_with(locked, key, value, watch),
        "get_or_insert_with" => get_or_insert_with(locked, key, value, watch),
        _ => return None,
    })
}

// Binds so many keys from the first on to themselves, and tells how many were unbound, or the first
// refusal.
fn insert_range(locked: &mut NumLocked, first: u64, count: u64) -> Answer {
    let mut new: u64 = 0;
    for key in first..first.saturating_add(count) {
        match locked.insert(NumKey(key), key) {
            Ok(is_new) => new = new.saturating_add(u64::from(is_new)),
            Err(back) => return Answer::Back(back.key.0, back.value, back.why),
        }
    }
    Answer::Count(new)
}

// Half of what the key is bound to, or this value.
fn upsert(locked: &mut NumLocked, key: NumKey, value: u64, watch: &Watch) -> Answer {
    let halve = |old: u64| watch.note(old / 2);
    placed(locked.upsert(key, halve, value), Answer::New)
}

// One less, until the key is unbound.
fn uprase(locked: &mut NumLocked, key: NumKey, value: u64, watch: &Watch) -> Answer {
    let take = |left: u64| watch.note(left.checked_sub(1));
    placed(locked.uprase(key, take, value), Answer::Uprased)
}

fn try_upsert(locked: &mut NumLocked, key: NumKey, value: u64, watch: &Watch) -> Answer {
    let take = |left: u64| watch.note(take_seven(left));
    placed(locked.try_upsert(key, take, value), ended)
}

fn try_upsert_with(locked: &mut NumLocked, key: NumKey, value: u64, watch: &Watch) -> Answer {
    let make = || watch.note(value);
    let take = |left: u64| watch.note(take_seven(left));
    placed_with(locked.try_upsert_with(key, make, take), ended)
}

fn insert_with(locked: &mut NumLocked, key: NumKey, value: u64, watch: &Watch) -> Answer {
    let make = || watch.note(value);
    placed_with(locked.insert_with(key, make), Answer::New)
}

fn get_or_insert_with(locked: &mut NumLocked, key: NumKey, value: u64, watch: &Watch) -> Answer {
    let make = || watch.note(value);
    let got = locked.get_or_insert_with(key, make);
    placed_with(got, |value| Answer::Value(Some(value)))
}
