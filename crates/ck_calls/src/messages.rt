//! Two handles of a table, of which one hears what the other has seen.
ghost use Rattle.std.specs.Prelude.{◌≡◌};

use crate::answer::{Answer, answered, placed, print};
use crate::calls::NumHandle;
use crate::line::Line;
use crate::watch::Watch;
use anyhow::{Result, bail};
use cuckoo_map::{Handle, NumKey, Settings};
use std::alloc::Global;

/// Opens a table for two handles, which make the calls of the line, and prints their answers. That
/// both are of one table is known of new ones.
pub fn meet(rt: &impl Print, alloc: Global, line: &Line) -> Result<()> {
    let settings = Settings {
        callers: 2,
        ..Settings::DEFAULT
    };
    let mut handles = Handle::<NumKey, u64>::open(alloc, settings)?;
    let [first, second] = handles.as_mut_slice() else {
        bail!("no two handles");
    };
    for answer in tell(first, second, line) {
        print(rt, answer, &Watch::new())?;
    }
    Ok(())
}

// The first binds the key to a value, and the second meets and hears it. Then the second is to bind
// the key to another value, and finds it.
fn tell(first: &mut NumHandle, second: &mut NumHandle, line: &Line) -> [Answer; 3]
    requires { first.old.table ≡ second.old.table }
{
    let key = NumKey(line.numbers[0]);
    let bound = placed(first.insert(key, line.numbers[1]), Answer::New);
    first.meet(second);
    let mut message = first.tell();
    second.hear_copy(&mut message);
    second.hear(message);
    let again = placed(second.insert(key, line.numbers[2]), Answer::New);
    [bound, again, answered(second.find(&key), Answer::Value)]
}
