//! The calls of a locked table that change or unbind bound keys.
use crate::answer::Answer;
use crate::line::Line;
use crate::locked_calls::{NumLocked, halve_and_tell, take_seven};
use crate::watch::Watch;
use cuckoo_map::NumKey;

/// Makes the call of the line; `None` where there is none of that name here.
pub fn answer(locked: &mut NumLocked, line: &Line, watch: &Watch) -> Option<Answer> {
    let key = NumKey(line.numbers[0]);
    Some(match line.call {
        "update" => Answer::Value(locked.update(&key, line.numbers[1])),
        "update_fn" => update_fn(locked, key, watch),
        "modify" => modify(locked, key, watch),
        "replace_if" => replace_if(locked, key, line.numbers[1], watch),
        "try_update" => try_update(locked, key, watch),
        "erase" => Answer::Value(locked.erase(&key)),
        "clear" => clear(locked),
        "retain_even" => retain_even(locked, watch),
        "retain_all" => retain_all(locked, watch),
        _ => return None,
    })
}

fn update_fn(locked: &mut NumLocked, key: NumKey, watch: &Watch) -> Answer {
    let halve = |old: u64| watch.note(old / 2);
    Answer::Yes(locked.update_fn(&key, halve))
}

fn modify(locked: &mut NumLocked, key: NumKey, watch: &Watch) -> Answer {
    let halve = |old: u64| watch.note(halve_and_tell(old));
    Answer::Value(locked.modify(&key, halve))
}

// So much less, where there is so much.
fn replace_if(locked: &mut NumLocked, key: NumKey, count: u64, watch: &Watch) -> Answer {
    let take = |old: &u64| watch.note(old.checked_sub(count));
    match locked.replace_if(&key, take) {
        Some(replaced) => Answer::Yes(replaced),
        None => Answer::Value(None),
    }
}

fn try_update(locked: &mut NumLocked, key: NumKey, watch: &Watch) -> Answer {
    let take = |left: u64| watch.note(take_seven(left));
    match locked.try_update(&key, take) {
        Some(Ok(())) => Answer::Yes(true),
        Some(Err(lacking)) => Answer::Failed(lacking),
        None => Answer::Value(None),
    }
}

// These three tell how many keys are left.

fn clear(locked: &mut NumLocked) -> Answer {
    locked.clear();
    Answer::Count(locked.len())
}

fn retain_even(locked: &mut NumLocked, watch: &Watch) -> Answer {
    locked.retain(|_key, value| watch.note(*value % 2 == 0));
    Answer::Count(locked.len())
}

fn retain_all(locked: &mut NumLocked, watch: &Watch) -> Answer {
    locked.retain(|_key, _value| watch.note(true));
    Answer::Count(locked.len())
}
