//! What a handle has locked, the table or some keys, and its calls.
ghost use Rattle.std.specs.Prelude.{◌≡◌, ◌∷◌, [], IfOk};
ghost use Rattle.cuckoo_map.specs.RoomForKeys.{names_of};

use crate::answer::print;
use crate::calls::NumHandle;
use crate::line::{Line, MOST_KEYS};
use crate::lists::{is_list, listed, print_pairs};
use crate::locked_calls::{self, NumLocked};
use crate::locked_keys_calls::{NamedKeys, NumLockedKeys};
use crate::watch::Watch;
use anyhow::{Context, Result};
use cuckoo_map::{KeysNotLocked, KeysRefused, KeysWithoutRoom, NumKey, RoomFault};
use std::alloc::Global;

/// What a handle has locked.
pub enum Session<'k> {
    Table(NumLocked),
    Keys(NamedKeys<'k>),
}

/// What a handle has locked; or the handle, and why it has not.
pub type Begun<'k> = Result<Session<'k>, KeysWithoutRoom<NumHandle>>;

impl<'k> Session<'k> {
    /// Locks what the line asks for; `None` where it asks for a number of keys that isn't locked.
    pub fn begin(handle: NumHandle, call: &str, keys: &'k [&'k NumKey]) -> Option<Begun<'k>> {
        match call {
            "lock" => Some(Session::of_table(handle)),
            "keys" => Session::of_keys(handle, keys),
            _ => Session::of_keys_with_room(handle, keys),
        }
    }

    fn of_table(handle: NumHandle) -> Begun<'k> {
        match handle.lock() {
            Ok(locked) => Ok(Session::Table(locked)),
            Err(back) => Err(KeysWithoutRoom {
                caller: back.caller,
                why: RoomFault::Keys(KeysRefused::Busy(back.busy.0)),
            }),
        }
    }

    fn of_keys(handle: NumHandle, keys: &'k [&'k NumKey]) -> Option<Begun<'k>> {
        if let Some(two) = keys.as_array::<2>() {
            return Some(Session::named(handle.lock_keys(two), two));
        }
        if let Some(three) = keys.as_array::<3>() {
            return Some(Session::named(handle.lock_keys(three), three));
        }
        match keys.as_array::<MOST_KEYS>() {
            Some(all) => Some(Session::named(handle.lock_keys(all), all)),
            None => None,
        }
    }

    // These keys, where they were locked.
    fn named(
        outcome: Result<NumLockedKeys<'k>, KeysNotLocked<NumHandle>>,
        keys: &'k [&'k NumKey],
    ) -> Begun<'k>
        requires { IfOk outcome (λ locked. locked.names ≡ names_of (λ k. k.0 ∷ []) keys.now) }
    {
        match outcome {
            Ok(locked) => Ok(Session::Keys(NamedKeys { locked, keys })),
            Err(KeysNotLocked { caller, why }) => Err(KeysWithoutRoom {
                caller,
                why: RoomFault::Keys(why),
            }),
        }
    }

    fn of_keys_with_room(handle: NumHandle, keys: &'k [&'k NumKey]) -> Option<Begun<'k>> {
        if keys.is_empty() || keys.len() > MOST_KEYS {
            return None;
        }
        Some(match handle.lock_keys_with_room(keys) {
            Ok(locked) => Ok(Session::Keys(NamedKeys { locked, keys })),
            Err(back) => Err(back),
        })
    }

    /// Makes the call of the line, and prints its answer.
    pub fn play(&mut self, rt: &impl Print, alloc: Global, line: &Line) -> Result<()> {
        let watch = Watch::new();
        let answer = match self {
            Session::Table(locked) if is_list(line.call) => {
                print_pairs(rt, &listed(alloc, locked, line.call)?)?;
                return Ok(());
            }
            Session::Table(locked) => locked_calls::answer(locked, line, &watch),
            Session::Keys(keys) => keys.answer(line, &watch),
        };
        print(rt, answer.context("no such call")?, &watch)?;
        Ok(())
    }

    /// Unlocks what was locked.
    pub fn end(self) -> NumHandle {
        match self {
            Session::Table(locked) => locked.unlock_caller(),
            Session::Keys(NamedKeys { locked, keys: _ }) => locked.unlock(),
        }
    }
}
