//! The calls of a handle on the size of its table, and on room in it.
use crate::answer::{Answer, answered, grown};
use crate::calls::NumHandle;
use crate::line::Line;
use cuckoo_map::NumKey;

/// Makes the call of the line; `None` where there is none of that name.
pub fn answer(handle: &mut NumHandle, line: &Line) -> Option<Answer> {
    Some(match line.call {
        "len" => answered(handle.len(), Answer::Count),
        "is_empty" => answered(handle.is_empty(), Answer::Yes),
        "power" => answered(handle.power(), |power: u32| Answer::Count(u64::from(power))),
        "capacity" => answered(handle.capacity(), Answer::Count),
        "rehash" => grown(handle.rehash(line.small(0))),
        "reserve" => grown(handle.reserve(line.numbers[0])),
        "make_room" => make_room(handle, NumKey(line.numbers[0])),
        _ => return None,
    })
}

fn make_room(handle: &mut NumHandle, key: NumKey) -> Answer {
    match handle.make_room(&key) {
        Ok(()) => Answer::Yes(true),
        Err(why) => Answer::NoRoom(why),
    }
}
