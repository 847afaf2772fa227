//! The calls of locked keys.
ghost use Rattle.std.specs.Prelude.{◌≡◌, ◌∷◌, [], ◌<◌, length, IfSome};
ghost use Rattle.cuckoo_map.specs.Numbered.{IsIn};
ghost use Rattle.cuckoo_map.specs.RoomForKeys.{names_of};

use crate::answer::{Answer, placed_in_slot};
use crate::line::Line;
use crate::locked_calls::halve_and_tell;
use crate::watch::Watch;
use cuckoo_map::{LockedKeysOn, NumKey, Table};
use std::alloc::Global;
use std::sync::Arc;

/// Keys of a table of numbers under one handle.
pub type NumLockedKeys<'k> = LockedKeysOn<
    'k,
    Arc<Table<NumKey, u64>, Global>,
    NumKey,
    u64,
    &'k NumKey,
>;

/// Such keys, and which they are: a call is made only on one of them.
pub struct NamedKeys<'k> {
    pub locked: NumLockedKeys<'k>,
    pub keys: &'k [&'k NumKey],
    ghost named: { locked.names ≡ names_of (λ k. k.0 ∷ []) keys.now },
}

impl NamedKeys<'_> {
    /// Makes the call of the line; `None` where there is none of that name, or it is on a key or a
    /// position that isn't locked.
    pub fn answer(&mut self, line: &Line, watch: &Watch) -> Option<Answer> {
        match line.call {
            "has_room" => Some(Answer::Yes(self.locked.has_room())),
            "take" => self.take(line.numbers[0]),
            "put" => self.put(line.numbers[0], line.numbers[1]),
            _ => self.on_key(line, watch),
        }
    }

    // By position.
    fn take(&mut self, at: u64) -> Option<Answer> {
        let i = self.position(at)?;
        Some(Answer::Value(self.locked.take(i)))
    }

    fn put(&mut self, at: u64, value: u64) -> Option<Answer> {
        let i = self.position(at)?;
        Some(placed_in_slot(self.locked.put(i, value), Answer::Value))
    }

    fn position(&self, at: u64) -> Option<usize>
        ensures { IfSome result (λ i. i < length self.now.locked.names) }
    {
        match usize::try_from(at) {
            Ok(i) if i < self.keys.len() => Some(i),
            _ => None,
        }
    }

    // Makes a call on a key.
    fn on_key(&mut self, line: &Line, watch: &Watch) -> Option<Answer> {
        let key = key_among(self.keys, line.numbers[0])?;
        let locked = &mut self.locked;
        Some(match line.call {
            "find" => Answer::Value(locked.find(key)),
            "contains" => Answer::Yes(locked.contains(key)),
            "find_fn" => Answer::Value(locked.find_fn(key, |old: &u64| watch.note(*old / 2))),
            "update" => Answer::Value(locked.update(key, line.numbers[1])),
            "update_fn" => Answer::Yes(locked.update_fn(key, |old| watch.note(old / 2))),
            "modify" => Answer::Value(locked.modify(key, |old| watch.note(halve_and_tell(old)))),
            "erase" => Answer::Value(locked.erase(key)),
            _ => return insertion(locked, *key, line, watch),
        })
    }
}

// Makes a call that may bind the key.
fn insertion(
    locked: &mut NumLockedKeys<'_>,
    key: NumKey,
    line: &Line,
    watch: &Watch,
) -> Option<Answer>
    requires { IsIn (key.0 ∷ []) locked.old.names }
    ensures { locked.new.names ≡ locked.old.names }
{
    let value = line.numbers[1];
    Some(match line.call {
        "insert" => placed_in_slot(locked.insert(key, value), Answer::New),
        "insert_or_assign" => placed_in_slot(locked.insert_or_assign(key, value), Answer::Value),
        "upsert" => {
            let halve = |old: u64| watch.note(old / 2);
            placed_in_slot(locked.upsert(key, halve, value), Answer::New)
        }
        _ => return None,
    })
}

// The key of this number, where it is one of these.
fn key_among<'k>(keys: &[&'k NumKey], number: u64) -> Option<&'k NumKey>
    ensures { IfSome result (λ key.
        IsIn (key.now.0 ∷ []) (names_of (λ k. k.0 ∷ []) keys.now)) }
{
    for i in 0..keys.len() {
        if keys[i].0 == number {
            return Some(keys[i]);
        }
    }
    None
}
