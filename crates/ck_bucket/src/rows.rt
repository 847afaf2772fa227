//! Buckets that lie one behind the other.
ghost use Rattle.std.specs.Prelude.{◌≡◌, ◌≢◌, ◌≤◌, ◌+◌, ◌*◌, ◌^◌, ◌<◌, ◌++◌, ℕ, vec_len, vec_capacity, is_some, IsSome, OnOk, IfSome, IfNone, IfOk, Some, None, slice_set, slice_index_or, replicate, length, map, option_map, option_copied};
ghost use Rattle.std.specs.Option.{option_to_list};
ghost use Rattle.ck_model.specs.Arithmetic.{partial_of};
ghost use Rattle.ck_model.specs.Listing.{named};
ghost use Rattle.ck_model.specs.Slots.{slot_at, taken_in, IsFull};
ghost use Rattle.ck_model.specs.Contents.{row_at};
ghost use Rattle.ck_model.specs.Paths.{partial_in};
ghost use Rattle.ck_room.specs.Room.{items_of, block_of, AllNone};
ghost use Rattle.ck_bucket.specs.Bucket.{HasName, LacksName, ReplacesValue, ChangesValue, ClonesAreEqual, staying, rising, low_row, high_row};
ghost use Rattle.ck_bucket.specs.Rows.{no_entry, with_slot_in};
ghost use Rattle.ck_bucket.specs.Retaining.{AsksAboutSlot, AsksAboutRow};

use crate::blank::BlankRows;
use crate::head::Head;
use ck_key::{Query, TableKey};
use ck_room::{Deallocator, LeaseOfTwo, Places};
use core::mem::replace_with;
use std::alloc::{AllocError, Global};
use std::marker::Model;
use std::mem;

/// Buckets of four slots that lie one behind the other, in one block of memory: first their pairs,
/// four places a bucket, and behind all pairs their heads. Callers see rows of slots, with names in
/// place of keys.
pub struct Rows<K: TableKey, V> {
    pub(crate) heads: Places<Head>,
    pub(crate) pairs: Places<(K, V)>,
    pub(crate) lease: LeaseOfTwo<(K, V), Head, Global>,
    pub(crate) dealloc: Deallocator<Global>,
}

impl<K: TableKey, V> Model for Rows<K, V> {
    ghost use Rattle.std.specs.Prelude.{List};
    ghost use Rattle.ck_model.specs.Slots.{Slot};
    ghost use Rattle.ck_room.specs.Room.{items_of, IsLeaseOfTwo};
    ghost use Rattle.ck_bucket.specs.Bucket.{seen_slots};
    ghost use Rattle.ck_bucket.specs.Rows.{in_fours, KeepsHeads};

    ghost Value = { List (List (Slot V)) };

    ghost view = { λ r. in_fours (seen_slots K.name (items_of r.pairs)) };

    ghost invariant = { λ r. KeepsHeads K.hash (items_of r.heads)
        (seen_slots K.name (items_of r.pairs)) × IsLeaseOfTwo r.lease r.pairs r.heads r.dealloc };
}

impl<K: TableKey, V> Rows<K, V> {
    /// So many rows of free slots, by one request for memory. It is refused for want of it, or where
    /// a pair takes 2^31 bytes or more.
    pub fn open(alloc: Global, count: usize) -> Result<Self, AllocError>
        requires { count ≤ 2 ^ 26 }
        ensures { IfOk result (λ rows. rows ≡ replicate count (replicate 4 None)) }
    {
        Ok(BlankRows::open(alloc, count)?.fill(count))
    }

    /// Frees the memory of rows that have no entry. They don't keep how many they are.
    pub fn close(self, count: usize)
        requires count { count ≡ length self }
        requires free { (r : ℕ) → r < length self → row_at self r ≡ replicate 4 None }
    {
        let Rows {
            mut heads,
            pairs,
            lease,
            dealloc,
        } = self;
        drain(&mut heads, count);
        ck_room::release_two(&dealloc, pairs, heads, lease, count * 4, count);
    }

    /// The slot of the row with this key, whose partial the caller has at hand; `None` where no
    /// slot has the key.
    #[inline(always)]
    pub fn look<Q: Query<K>>(&self, row: usize, key: Q, partial: u8) -> Option<usize>
        requires row { row < length self.now }
        requires partial { partial ≡ partial_of (K.hash (Q.name key)) }
        ensures below { IfSome result (λ i. i < 4) }
        ensures found { IfSome result (HasName (row_at self.now row) (Q.name key)) }
        ensures absent { IfNone result (LacksName (row_at self.now row) (Q.name key)) }
        ensures four { length (row_at self.now row) ≡ 4 }
    {
        let head = self.heads.get(row);
        // The last slots are the ones that are free most, so they come first: where a processor
        // guesses the key's slot, it fetches the pair of a first one before the head has come.
        for i in (0..4).rev() {
            // Most slots without the key have another partial, and then no pair is read.
            if head.partials[i] == partial && head.taken[i] {
                let (other, _) = self.pairs.get(row * 4 + i);
                if key.is_name_of(other) {
                    return Some(i);
                }
            }
        }
        None
    }

    /// The lowest free slot of the row; `None` where the row is full.
    #[inline(always)]
    pub fn free(&self, row: usize) -> Option<usize>
        requires { row < length self.now }
        ensures below { IfSome result (λ i. i < 4) }
        ensures found { IfSome result (λ i. slot_at (row_at self.now row) i ≡ None) }
        ensures lowest { IfSome result (λ i. (j : ℕ) → j < i →
            IsSome (slot_at (row_at self.now row) j)) }
        ensures full { IfNone result (IsFull (row_at self.now row)) }
        ensures four { length (row_at self.now row) ≡ 4 }
    {
        let head = self.heads.get(row);
        for i in 0..4 {
            if !head.taken[i] {
                return Some(i);
            }
        }
        None
    }

    /// The number of the row's entries.
    #[inline(always)]
    pub fn len_of_row(&self, row: usize) -> usize
        requires { row < length self.now }
        ensures len { result ≡ length (taken_in (row_at self.now row)) }
        ensures few { result ≤ 4 }
    {
        // The flags are added up, with no branch, since all rows of a table may be counted.
        let head = self.heads.get(row);
        head.taken[0] as usize
            + head.taken[1] as usize
            + head.taken[2] as usize
            + head.taken[3] as usize
    }

    /// The partial of each slot of the row that is not free.
    #[inline(always)]
    pub fn sketch(&self, row: usize) -> [Option<u8>; 4]
        requires { row < length self.now }
        ensures value { result ≡ map (partial_in K.hash) (row_at self.now row) }
        ensures four { length (row_at self.now row) ≡ 4 }
    {
        [
            self.partial_at(row, 0),
            self.partial_at(row, 1),
            self.partial_at(row, 2),
            self.partial_at(row, 3),
        ]
    }

    #[inline(always)]
    fn partial_at(&self, row: usize, slot: usize) -> Option<u8>
        requires row { row < length self.now }
        requires below { slot < 4 }
        ensures value { result ≡ partial_in K.hash (slot_at (row_at self.now row) slot) }
        ensures four { length (row_at self.now row) ≡ 4 }
    {
        let head = self.heads.get(row);
        if head.taken[slot] {
            Some(head.partials[slot])
        } else {
            None
        }
    }

    /// The key and value in the slot of the row; `None` where it is free.
    #[inline(always)]
    pub fn get(&self, row: usize, slot: usize) -> Option<&(K, V)>
        requires row { row < length self.now }
        requires below { slot < 4 }
        ensures value { option_map (named K.name) (option_copied result)
            ≡ slot_at (row_at self.now row) slot }
        ensures four { length (row_at self.now row) ≡ 4 }
    {
        if self.is_taken(row, slot) {
            Some(self.pair(row, slot))
        } else {
            None
        }
    }

    /// The key and value in a slot of the row that is not free.
    #[inline(always)]
    pub fn pair(&self, row: usize, slot: usize) -> &(K, V)
        requires row { row < length self.now }
        requires below { slot < 4 }
        requires full { IsSome (slot_at (row_at self.now row) slot) }
        ensures value { slot_at (row_at self.now row) slot
            ≡ Some (K.name result.now.0, result.now.1) }
        ensures four { length (row_at self.now row) ≡ 4 }
    {
        self.pairs.get(row * 4 + slot)
    }

    /// Puts a key and its value into a free slot of the row. `partial` is that of the key.
    #[inline(always)]
    pub fn put(&mut self, row: usize, slot: usize, partial: u8, key: K, value: V)
        requires row { row < length self.old }
        requires below { slot < 4 }
        requires partial { partial ≡ partial_of (K.hash (K.name key)) }
        requires free { slot_at (row_at self.old row) slot ≡ None }
        ensures { self.new ≡ slice_set self.old row
            (slice_set (row_at self.old row) slot (Some (K.name key, value))) }
    {
        let head = self.heads.get_mut(row);
        head.partials[slot] = partial;
        head.taken[slot] = true;
        self.pairs.put(row * 4 + slot, (key, value));
    }

    /// Frees the slot of the row, and gives what was in it.
    #[inline(always)]
    pub fn take(&mut self, row: usize, slot: usize) -> (K, V)
        requires row { row < length self.old }
        requires below { slot < 4 }
        requires full { IsSome (slot_at (row_at self.old row) slot) }
        ensures entry { slot_at (row_at self.old row) slot ≡ Some (K.name result.0, result.1) }
        ensures rest { self.new ≡ slice_set self.old row
            (slice_set (row_at self.old row) slot None) }
    {
        let head = self.heads.get_mut(row);
        head.taken[slot] = false;
        self.pairs.take(row * 4 + slot)
    }

    /// Puts another value beside the key of the slot, and gives the old one.
    #[inline(always)]
    pub fn replace(&mut self, row: usize, slot: usize, value: V) -> V
        requires row { row < length self.old }
        requires below { slot < 4 }
        requires full { IsSome (slot_at (row_at self.old row) slot) }
        ensures entry { ReplacesValue (row_at self.old row) (row_at self.new row) slot value
            result }
        ensures rest { self.new ≡ slice_set self.old row (row_at self.new row) }
    {
        let pair = self.pairs.get_mut(row * 4 + slot);
        mem::replace(&mut pair.1, value)
    }

    /// Makes of the value in the slot what the closure makes of it, in its place.
    #[inline(always)]
    pub fn change<F: FnOnce(V) -> V>(&mut self, row: usize, slot: usize, f: F)
        requires row { row < length self.old }
        requires below { slot < 4 }
        requires full { IsSome (slot_at (row_at self.old row) slot) }
        requires call { F.IsAlwaysCallable f }
        ensures entry { ChangesValue (F.post f) (row_at self.old row) (row_at self.new row) slot }
        ensures rest { self.new ≡ slice_set self.old row (row_at self.new row) }
    {
        let pair = self.pairs.get_mut(row * 4 + slot);
        change_second(pair, f);
    }

    // Whether the slot has an entry.
    #[inline(always)]
    fn is_taken(&self, row: usize, slot: usize) -> bool
        requires row { row < length self.now }
        requires below { slot < 4 }
        ensures taken { result ≡ is_some (slot_at (row_at self.now row) slot) }
        ensures four { length (row_at self.now row) ≡ 4 }
    {
        let head = self.heads.get(row);
        head.taken[slot]
    }

    /// Moves the entries of the row, which is bucket `b` of a table of 2^p buckets, where the table
    /// doubles: what stays in the bucket into row `low_at`, what goes to the bucket 2^p above it
    /// into row `high_at`. Each entry keeps its slot, and the row is free of entries then.
    pub fn split_row(
        &mut self,
        into: &mut Rows<K, V>,
        row: usize,
        low_at: usize,
        high_at: usize,
        p: u32,
        b: u64,
    )
        requires row { row < length self.old }
        requires low { low_at < length into.old }
        requires high { high_at < length into.old }
        requires apart { low_at ≢ high_at }
        requires low_free { row_at into.old low_at ≡ replicate 4 None }
        requires high_free { row_at into.old high_at ≡ replicate 4 None }
        requires power { p < 26 }
        ensures emptied { self.new ≡ slice_set self.old row (replicate 4 None) }
        ensures split { into.new
            ≡ slice_set (slice_set into.old low_at (low_row K.hash p b (row_at self.old row)))
            high_at (high_row K.hash p b (row_at self.old row)) }
    {
        self.split_slot(into, row, 0, low_at, high_at, p, b);
        self.split_slot(into, row, 1, low_at, high_at, p, b);
        self.split_slot(into, row, 2, low_at, high_at, p, b);
        self.split_slot(into, row, 3, low_at, high_at, p, b);
    }

    // The partial goes along, so that it isn't made of the hash again.
    fn split_slot(
        &mut self,
        into: &mut Rows<K, V>,
        row: usize,
        slot: usize,
        low_at: usize,
        high_at: usize,
        p: u32,
        b: u64,
    )
        requires row { row < length self.old }
        requires below { slot < 4 }
        requires low { low_at < length into.old }
        requires high { high_at < length into.old }
        requires apart { low_at ≢ high_at }
        requires low_free { slot_at (row_at into.old low_at) slot ≡ None }
        requires high_free { slot_at (row_at into.old high_at) slot ≡ None }
        requires power { p < 26 }
        ensures emptied { self.new ≡ with_slot_in self.old row slot None }
        ensures split { into.new ≡ with_slot_in (with_slot_in into.old low_at slot
            (staying K.hash p b (slot_at (row_at self.old row) slot))) high_at slot
            (rising K.hash p b (slot_at (row_at self.old row) slot)) }
        ensures four { length (row_at self.old row) ≡ 4 }
    {
        if let Some(partial) = self.partial_at(row, slot) {
            let (key, value) = self.take(row, slot);
            let at = if ck_key::rises(p, b, key.hash64()) {
                high_at
            } else {
                low_at
            };
            into.put(at, slot, partial, key, value);
        }
    }

    /// Pushes the row's pairs, in the order of their slots, into room that was reserved, and frees
    /// the slots.
    pub fn pour_row_reserved(&mut self, row: usize, pairs: &mut Vec<(K, V)>)
        requires row { row < length self.old }
        requires room { vec_len pairs.old + 4 ≤ vec_capacity pairs.old }
        ensures emptied { self.new ≡ slice_set self.old row (replicate 4 None) }
        ensures pairs { map (named K.name) pairs.new.items
            ≡ map (named K.name) pairs.old.items ++ taken_in (row_at self.old row) }
        ensures len { vec_len pairs.new ≤ vec_len pairs.old + 4 }
        ensures capacity { vec_capacity pairs.new ≡ vec_capacity pairs.old }
    {
        self.pour_slot(row, 0, pairs);
        self.pour_slot(row, 1, pairs);
        self.pour_slot(row, 2, pairs);
        self.pour_slot(row, 3, pairs);
    }

    fn pour_slot(&mut self, row: usize, slot: usize, pairs: &mut Vec<(K, V)>)
        requires row { row < length self.old }
        requires below { slot < 4 }
        requires room { vec_len pairs.old < vec_capacity pairs.old }
        ensures emptied { self.new ≡ with_slot_in self.old row slot None }
        ensures pairs { map (named K.name) pairs.new.items ≡ map (named K.name) pairs.old.items
            ++ option_to_list (slot_at (row_at self.old row) slot) }
        ensures len { vec_len pairs.new ≤ vec_len pairs.old + 1 }
        ensures capacity { vec_capacity pairs.new ≡ vec_capacity pairs.old }
        ensures four { length (row_at self.old row) ≡ 4 }
    {
        if self.is_taken(row, slot) {
            pairs.push_reserved(self.take(row, slot));
        }
    }
}

impl<K: TableKey + Drop, V: Drop> Rows<K, V> {
    /// Drops the row's pairs.
    pub fn clear_row(&mut self, row: usize)
        requires { row < length self.old }
        ensures { self.new ≡ slice_set self.old row (replicate 4 None) }
    {
        self.clear_slot(row, 0);
        self.clear_slot(row, 1);
        self.clear_slot(row, 2);
        self.clear_slot(row, 3);
    }

    fn clear_slot(&mut self, row: usize, slot: usize)
        requires row { row < length self.old }
        requires below { slot < 4 }
        ensures emptied { self.new ≡ with_slot_in self.old row slot None }
        ensures four { length (row_at self.old row) ≡ 4 }
    {
        if self.is_taken(row, slot) {
            let _pair = self.take(row, slot);
        }
    }

    /// Asks the closure about each of the row's pairs, in the order of their slots, and drops those
    /// for which it answers false.
    pub fn retain_row<F: FnMut(&K, &V) -> bool>(&mut self, row: usize, f: &mut F)
        requires row { row < length self.old }
        requires call { F.IsAlwaysCallable f.old }
        ensures asked { AsksAboutRow F.FnMut K.name f.old (row_at self.old row)
            (row_at self.new row) f.new }
        ensures rest { self.new ≡ slice_set self.old row (row_at self.new row) }
        ensures call { F.IsAlwaysCallable f.new }
    {
        self.retain_slot(row, 0, f);
        self.retain_slot(row, 1, f);
        self.retain_slot(row, 2, f);
        self.retain_slot(row, 3, f);
    }

    // Asks the closure about the pair in the slot, and drops it where the answer is false.
    fn retain_slot<F: FnMut(&K, &V) -> bool>(&mut self, row: usize, slot: usize, f: &mut F)
        requires row { row < length self.old }
        requires below { slot < 4 }
        requires call { F.IsAlwaysCallable f.old }
        ensures asked { AsksAboutSlot F.FnMut K.name f.old (slot_at (row_at self.old row) slot)
            (slot_at (row_at self.new row) slot) f.new }
        ensures rest { self.new
            ≡ with_slot_in self.old row slot (slot_at (row_at self.new row) slot) }
        ensures four { length (row_at self.old row) ≡ 4 }
        ensures call { F.IsAlwaysCallable f.new }
    {
        let Some((key, value)) = self.get(row, slot) else {
            return;
        };
        if f(key, value) {
            return;
        }
        let _dropped = self.take(row, slot);
    }
}

impl<K: TableKey + Clone, V: Clone> Rows<K, V> {
    /// Pushes clones of the row's pairs, in the order of their slots, into room that was reserved.
    /// Where there is no memory for a clone, the pairs before it were pushed.
    pub fn clone_row_reserved(&self, row: usize, pairs: &mut Vec<(K, V)>) -> Result<(), AllocError>
        requires keys { ClonesAreEqual K.is_clone }
        requires values { ClonesAreEqual V.is_clone }
        requires row { row < length self.now }
        requires room { vec_len pairs.old + 4 ≤ vec_capacity pairs.old }
        ensures pairs { OnOk result (map (named K.name) pairs.new.items
            ≡ map (named K.name) pairs.old.items ++ taken_in (row_at self.now row)) }
        ensures len { vec_len pairs.new ≤ vec_len pairs.old + 4 }
        ensures capacity { vec_capacity pairs.new ≡ vec_capacity pairs.old }
    {
        self.clone_slot(row, 0, pairs)?;
        self.clone_slot(row, 1, pairs)?;
        self.clone_slot(row, 2, pairs)?;
        self.clone_slot(row, 3, pairs)
    }

    fn clone_slot(&self, row: usize, slot: usize, pairs: &mut Vec<(K, V)>) -> Result<(), AllocError>
        requires keys { ClonesAreEqual K.is_clone }
        requires values { ClonesAreEqual V.is_clone }
        requires row { row < length self.now }
        requires below { slot < 4 }
        requires room { vec_len pairs.old < vec_capacity pairs.old }
        ensures pairs { OnOk result (map (named K.name) pairs.new.items
            ≡ map (named K.name) pairs.old.items
            ++ option_to_list (slot_at (row_at self.now row) slot)) }
        ensures len { vec_len pairs.new ≤ vec_len pairs.old + 1 }
        ensures capacity { vec_capacity pairs.new ≡ vec_capacity pairs.old }
        ensures four { length (row_at self.now row) ≡ 4 }
    {
        if let Some(pair) = self.get(row, slot) {
            pairs.push_reserved(pair.clone()?);
        }
        Ok(())
    }
}

#[inline(always)]
fn change_second<K, V, F: FnOnce(V) -> V>(pair: &mut (K, V), f: F)
    requires { F.IsAlwaysCallable f }
    ensures { (w : V) × F.post f pair.old.1 w × (pair.new ≡ (pair.old.0, w)) }
{
    replace_with(
        &mut pair.1,
        f,
        |value, f|
            requires { F.IsAlwaysCallable f }
        { (f(value), ()) },
    )
}

// Empties each place.
fn drain(heads: &mut Places<Head>, count: usize)
    requires count { count ≡ length (items_of heads.old) }
    requires full { (r : ℕ) → r < count → IsSome (slice_index_or (items_of heads.old) r None) }
    ensures count { count ≡ length (items_of heads.new) }
    ensures empty { AllNone (items_of heads.new) }
    ensures block { block_of heads.new ≡ block_of heads.old }
{
    for r in 0..count {
        heads.take(r);
    }
}
