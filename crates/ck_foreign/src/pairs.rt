//! The pairs of a table at one moment, as C reads them.
ghost use Rattle.std.specs.Prelude.{◌≡◌, ◌≤◌, ◌-◌, ◌++◌, ℕ, length, replicate};
ghost use Rattle.ck_foreign.specs.Pairs.{TakesNext, TakesNextAt, TakesSome, TakesSomeAt, shown_pair, shown_text_pair};

use crate::code::Code;
use crate::keys::{BytesKey, NumberKey};
use ck_owned::{Holds, put, take};
use std::alloc::Global;
use std::marker::Model;
use std::vec::IntoIter;

/// A pair of a table whose keys are numbers.
#[repr(C)]
#[derive(Clone, Copy)]
pub struct CuckooPair {
    pub key: u64,
    pub value: u64,
}

/// A pair of a table whose keys are texts.
#[repr(C)]
#[derive(Clone, Copy)]
pub struct CuckooTextPair {
    /// The bytes of its key, and zeros.
    pub key: [u8; 64],
    /// So many bytes are of its key.
    pub length: u64,
    pub value: u64,
}

// What C is shown of a pair.
pub trait Shows<K>: Copy {
    ghost shown: { K × ℕ → Self };

    fn of(pair: (K, u64)) -> Self
        ensures { result ≡ shown pair };
}

impl Shows<NumberKey> for CuckooPair {
    ghost shown = { shown_pair };

    fn of(pair: (NumberKey, u64)) -> CuckooPair
        ensures { result ≡ shown_pair pair }
    {
        let (number, value) = pair;
        CuckooPair {
            key: number.0,
            value,
        }
    }
}

impl Shows<BytesKey> for CuckooTextPair {
    ghost shown = { shown_text_pair };

    fn of(pair: (BytesKey, u64)) -> CuckooTextPair
        ensures { result ≡ shown_text_pair pair }
    {
        let (text, value) = pair;
        let bytes = text.0.as_bytes();
        CuckooTextPair {
            key: filled_up(bytes),
            length: bytes.len() as u64,
            value,
        }
    }
}

// The bytes, and zeros behind them.
fn filled_up(bytes: &[u8]) -> [u8; 64]
    requires { length bytes.now ≤ 64 }
    ensures { result ≡ bytes.now ++ replicate (64 - length bytes.now) 0 }
{
    let mut key = [0; 64];
    key[..bytes.len()].copy_from_slice(bytes);
    key
}

/// Pairs that are read in their order. Contracts see those that are left.
#[derive(Drop)]
pub struct Pairs<K> {
    rest: IntoIter<(K, u64), Global>,
}

impl<K> Model for Pairs<K> {
    ghost use Rattle.std.specs.Prelude.{ℕ, List};
    ghost use Rattle.std.specs.Vec.Iter.{into_iter_items};

    ghost Value = { List (K × ℕ) };

    ghost view = { λ p. into_iter_items p.rest };
}

impl<K: Drop> Pairs<K> {
    /// These pairs.
    pub fn of(pairs: Vec<(K, u64)>) -> Pairs<K>
        ensures { result ≡ pairs.items }
    {
        Pairs {
            rest: pairs.into_iter(),
        }
    }

    /// The next pair.
    pub fn next(&mut self) -> Option<(K, u64)>
        ensures { TakesNext result self.old self.new }
    {
        self.rest.next()
    }

    /// Fills the places with the next pairs, as far as there are any, and says with how many.
    pub fn fill<T: Shows<K>>(&mut self, places: &mut [T]) -> usize
        ensures { TakesSome T.shown self.old self.new places.old places.new result }
    {
        for i in 0..places.len() {
            let Some(pair) = self.next() else {
                return i;
            };
            places[i] = T::of(pair);
        }
        places.len()
    }
}

/// The next pair of the list in this place, if there is one.
pub fn take_next<K: Drop, P: Holds<Pairs<K>>>(alloc: Global, place: &mut P) -> Option<(K, u64)>
    ensures { TakesNextAt result (P.held place.old) (P.held place.new) }
{
    let Some(list) = take(place, alloc) else {
        return None;
    };
    let mut list = list;
    let next = list.next();
    put(place, alloc, list);
    next
}

/// The next pairs of the list in this place, as many as there are places for.
pub fn take_some<K: Drop, P: Holds<Pairs<K>>, T: Shows<K>>(
    alloc: Global,
    place: &mut P,
    into: &mut [T],
    taken: &mut u64,
) -> Code
    ensures { TakesSomeAt T.shown (P.held place.old) (P.held place.new)
        into.old into.new taken.new result }
{
    *taken = 0;
    let Some(pairs) = take(place, alloc) else {
        return Code::Absent;
    };
    let mut pairs = pairs;
    let count = pairs.fill(into);
    put(place, alloc, pairs);
    *taken = count as u64;
    if count == 0 && !into.is_empty() {
        Code::Absent
    } else {
        Code::Done
    }
}
