//! The calls by which a locked table grows.
use crate::answer::{Answer, grown};
use crate::line::Line;
use crate::locked_calls::NumLocked;

/// Makes the call of the line; `None` where there is none of that name here.
pub fn answer(locked: &mut NumLocked, line: &Line) -> Option<Answer> {
    let size = line.numbers[0];
    Some(match line.call {
        "rehash" => grown(locked.rehash(u32::try_from(size).unwrap_or(u32::MAX))),
        "reserve" => grown(locked.reserve(size)),
        _ => return None,
    })
}
