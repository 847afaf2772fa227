//! The calls of a handle on several keys.
use crate::answer::{Answer, answered_keys};
use crate::calls::NumHandle;
use crate::line::{Line, MOST_KEYS};
use crate::watch::Watch;
use cuckoo_map::{NotRenamed, NumKey};

/// Makes the call of the line; `None` where there is none of that name, or none of so many keys.
pub fn answer(handle: &mut NumHandle, line: &Line, watch: &Watch) -> Option<Answer> {
    let numbers = line.numbers.map(NumKey);
    let keys = &numbers[..line.count.min(numbers.len())];
    match line.call {
        "find_all" => find_all(handle, keys),
        "find_all_into" => find_all_into(handle, keys),
        "update_all" => update_all(handle, keys, watch),
        "modify_all" => modify_all(handle, keys, watch),
        "compare_and_set" => compare_and_set(handle, keys),
        "rename" => rename(handle, keys),
        _ => None,
    }
}

fn find_all(handle: &mut NumHandle, keys: &[NumKey]) -> Option<Answer> {
    Some(match keys {
        [a, b] => answered_keys(handle.find_all([a, b]), values_of),
        [a, b, c] => answered_keys(handle.find_all([a, b, c]), values_of),
        [a, b, c, d, e, f, g, h] => {
            let found = handle.find_all([a, b, c, d, e, f, g, h]);
            answered_keys(found, values_of)
        }
        _ => return None,
    })
}

fn find_all_into(handle: &mut NumHandle, keys: &[NumKey]) -> Option<Answer> {
    let count = keys.len();
    if count == 0 || count > MOST_KEYS {
        return None;
    }
    let mut values = [None; MOST_KEYS];
    let found = handle.find_all_into(&refs_of(keys)[..count], &mut values[..count]);
    Some(answered_keys(found, |()| Answer::Values(count, values)))
}

// Gives each key the value of the next one, and the last one that of the first.
fn update_all(handle: &mut NumHandle, keys: &[NumKey], watch: &Watch) -> Option<Answer> {
    let turn = |values: &mut [u64]| watch.note(turn(values));
    match keys {
        [a, b, c] => Some(answered_keys(handle.update_all([a, b, c], turn), values_of)),
        _ => None,
    }
}

// The same, and the closure answers the value that the first one has then.
fn modify_all(handle: &mut NumHandle, keys: &[NumKey], watch: &Watch) -> Option<Answer> {
    let count = keys.len();
    if count == 0 || count > MOST_KEYS {
        return None;
    }
    let mut values = [0; MOST_KEYS];
    let turn = |values: &mut [u64]| {
        turn(values);
        watch.note(values.first().copied())
    };
    let told = handle.modify_all(&refs_of(keys)[..count], &mut values[..count], turn);
    Some(answered_keys(told, |told| match told {
        Some(first) => Answer::Left(first, count, values.map(Some)),
        None => Answer::Value(None),
    }))
}

// Of three keys: the keys, the values that are expected, and the new ones.
fn compare_and_set(handle: &mut NumHandle, numbers: &[NumKey]) -> Option<Answer> {
    match numbers {
        [a, b, c, x, y, z, i, j, k] => {
            let expected = [x.0, y.0, z.0];
            let set = handle.compare_and_set([a, b, c], expected, [i.0, j.0, k.0]);
            Some(answered_keys(set, Answer::Yes))
        }
        _ => None,
    }
}

fn rename(handle: &mut NumHandle, keys: &[NumKey]) -> Option<Answer> {
    match keys {
        [from, to] => Some(match handle.rename(from, *to) {
            Ok(renamed) => Answer::Renamed(renamed),
            Err(NotRenamed { key, why }) => Answer::NameBack(key.0, why),
        }),
        _ => None,
    }
}

fn turn(values: &mut [u64]) {
    if !values.is_empty() {
        values.rotate_left(1);
    }
}

// References to the keys, and to others behind them.
fn refs_of(keys: &[NumKey]) -> [&NumKey; MOST_KEYS] {
    let mut refs = [&NumKey(0); MOST_KEYS];
    for i in 0..keys.len().min(MOST_KEYS) {
        refs[i] = &keys[i];
    }
    refs
}

// The answer of so many values.
fn values_of<const N: usize>(found: [Option<u64>; N]) -> Answer {
    let mut values = [None; MOST_KEYS];
    for (value, found) in values.iter_mut().zip(&found) {
        *value = *found;
    }
    Answer::Values(N, values)
}
