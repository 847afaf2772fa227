//! The calls of a handle that have closures.
use crate::answer::{Answer, answered, ended, placed, placed_with};
use crate::calls::NumHandle;
use crate::line::Line;
use crate::watch::Watch;
use cuckoo_map::NumKey;

/// Makes the call of the line; `None` where there is none of that name.
pub fn answer(handle: &mut NumHandle, line: &Line, watch: &Watch) -> Option<Answer> {
    insertion(handle, line, watch).or_else(|| change(handle, line, watch))
}

// The calls that may bind an unbound key.
fn insertion(handle: &mut NumHandle, line: &Line, watch: &Watch) -> Option<Answer> {
    let key = NumKey(line.numbers[0]);
    let value = line.numbers[1];
    Some(match line.call {
        "upsert" => upsert(handle, key, value, watch),
        "try_upsert" => try_upsert(handle, key, value, watch),
        "try_upsert_with" => try_upsert_with(handle, key, value, line.numbers[2], watch),
        "insert_with" => insert_with(handle, key, value, watch),
        "uprase" => uprase(handle, key, value, watch),
        "get_or_insert_with" => get_or_insert_with(handle, key, value, watch),
        _ => return None,
    })
}

// The calls that bind no unbound key.
fn change(handle: &mut NumHandle, line: &Line, watch: &Watch) -> Option<Answer> {
    let key = NumKey(line.numbers[0]);
    let number = line.numbers[1];
    Some(match line.call {
        "find_tenth" => find_tenth(handle, key, watch),
        "update_fn" => update_fn(handle, key, watch),
        "modify" => modify(handle, key, number, watch),
        "erase_within" => erase_within(handle, key, number, line.numbers[2], watch),
        "take_if" => take_if(handle, key, number, watch),
        "try_take" => try_take(handle, key, number, watch),
        "transfer" => transfer(handle, key, NumKey(number), watch),
        _ => return None,
    })
}

// Adds one to the value of a bound key.
fn upsert(handle: &mut NumHandle, key: NumKey, value: u64, watch: &Watch) -> Answer {
    let add = |old: u64| watch.note(old.saturating_add(1));
    placed(handle.upsert(key, add, value), Answer::New)
}

// Takes one from the value of a bound key. Where there is none, it fails with 7, and the key is bound
// to 100.
fn try_upsert(handle: &mut NumHandle, key: NumKey, value: u64, watch: &Watch) -> Answer {
    let take = |left: u64| watch.note(left.checked_sub(1).ok_or((100, 7)));
    placed(handle.try_upsert(key, take, value), ended)
}

// Takes so many from the value of the key, or from the one that it makes. Where there are fewer, it
// fails with how many it was to take, and a bound key is bound to 100.
fn try_upsert_with(
    handle: &mut NumHandle,
    key: NumKey,
    made: u64,
    taken: u64,
    watch: &Watch,
) -> Answer {
    let make = || watch.note(made);
    let take = |left: u64| watch.note(left.checked_sub(taken).ok_or((100, taken)));
    placed_with(handle.try_upsert_with(key, make, take), ended)
}

fn insert_with(handle: &mut NumHandle, key: NumKey, value: u64, watch: &Watch) -> Answer {
    placed_with(handle.insert_with(key, || watch.note(value)), Answer::New)
}

// Takes one from the value of a bound key, and unbinds it where there is none.
fn uprase(handle: &mut NumHandle, key: NumKey, value: u64, watch: &Watch) -> Answer {
    let take = |old: u64| watch.note(old.checked_sub(1));
    placed(handle.uprase(key, take, value), Answer::Uprased)
}

fn get_or_insert_with(handle: &mut NumHandle, key: NumKey, value: u64, watch: &Watch) -> Answer {
    let got = handle.get_or_insert_with(key, || watch.note(value));
    placed_with(got, |value: u64| Answer::Value(Some(value)))
}

// Finds a tenth of the value.
fn find_tenth(handle: &mut NumHandle, key: NumKey, watch: &Watch) -> Answer {
    let tenth = handle.find_fn(&key, |value: &u64| watch.note(*value / 10));
    answered(tenth, Answer::Value)
}

// Adds one to the value.
fn update_fn(handle: &mut NumHandle, key: NumKey, watch: &Watch) -> Answer {
    let add = |old: u64| watch.note(old.saturating_add(1));
    answered(handle.update_fn(&key, add), Answer::Yes)
}

// Takes so many from the value, or all where there are fewer, and says how many.
fn modify(handle: &mut NumHandle, key: NumKey, most: u64, watch: &Watch) -> Answer {
    let take = |left: u64| watch.note((left.saturating_sub(most), left.min(most)));
    answered(handle.modify(&key, take), Answer::Value)
}

// Erases a value from the first to the second.
fn erase_within(handle: &mut NumHandle, key: NumKey, low: u64, high: u64, watch: &Watch) -> Answer {
    let within = |value: &u64| watch.note(low <= *value && *value <= high);
    answered(handle.erase_fn(&key, within), told)
}

// Takes so many from the value, where it has as many.
fn take_if(handle: &mut NumHandle, key: NumKey, count: u64, watch: &Watch) -> Answer {
    let take = |value: &u64| watch.note(value.checked_sub(count));
    answered(handle.replace_if(&key, take), told)
}

// Takes so many from the value. Where it has fewer, it takes all and fails with how many it lacks.
fn try_take(handle: &mut NumHandle, key: NumKey, count: u64, watch: &Watch) -> Answer {
    let take = |value: u64| {
        let left = value.checked_sub(count);
        watch.note(left.ok_or((0, count.saturating_sub(value))))
    };
    answered(handle.try_update(&key, take), tried)
}

// Moves one from the value of a key to that of another, where both are bound and there is one. Of a
// key with itself no call is made.
fn transfer(handle: &mut NumHandle, from: NumKey, to: NumKey, watch: &Watch) -> Answer {
    if from.0 == to.0 {
        return Answer::Yes(false);
    }
    let move_one = |less: u64, more: u64| {
        let moved = less.min(1);
        watch.note((less.saturating_sub(moved), more.saturating_add(moved)))
    };
    answered(handle.update_two(&from, &to, move_one), Answer::Yes)
}

// What the closure answered for the value of the key.
fn told(told: Option<bool>) -> Answer {
    match told {
        Some(yes) => Answer::Yes(yes),
        None => Answer::Value(None),
    }
}

// How the closure ended.
fn tried(tried: Option<Result<(), u64>>) -> Answer {
    match tried {
        Some(Ok(())) => Answer::Yes(true),
        Some(Err(with)) => Answer::Failed(with),
        None => Answer::Value(None),
    }
}
