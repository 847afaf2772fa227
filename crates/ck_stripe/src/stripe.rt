//! One stripe of the table. A doubling only raises the power, and the entries are moved by whoever
//! looks into the stripe next, so that a table doubles without going through its entries.
#![tactic(auto, using(crate::proofs::Stored::formed_now))]

ghost use Rattle.std.specs.Prelude.{◌≡◌, ◌≤◌, ◌<◌, ◌+◌, ◌-◌, ◌*◌, ◌/◌, ◌^◌, ℕ, true, false, Some, None, IsSome, IfSome, IfNone, IfOk, OnOk, OnErr, ◌++◌, length, map, flat_map, replicate, option_map, option_copied, vec_len, vec_capacity};
ghost use Rattle.std.specs.Bool.{OnTrue};
ghost use Rattle.std.specs.List.Sorted.{IsPermutation};
ghost use Rattle.ck_model.specs.Arithmetic.{partial_of};
ghost use Rattle.ck_model.specs.Listing.{named};
ghost use Rattle.ck_model.specs.Slots.{slot_at, taken_in, IsFull};
ghost use Rattle.ck_model.specs.Contents.{Layout, pairs_in, empty_content, IsSound};
ghost use Rattle.ck_model.specs.Paths.{partial_in};
ghost use Rattle.ck_bucket.specs.Bucket.{HasName, LacksName, ReplacesValue, ChangesValue, ClonesAreEqual};
ghost use Rattle.ck_stripe.specs.Doubling.{split_rows, doubled_content, SendsEach};
ghost use Rattle.ck_stripe.specs.Stripe.{HasBucket, bucket_of, with_bucket, with_slot, IsWellFormed, HasNoSpare, IsReserved, shrunk, reserved};

use crate::emptied::Emptied;
use crate::grower::Grower;
use crate::iter::Iter;
use crate::next::Next;
use ck_bucket::{BlankRows, Rows};
use ck_key::{NumKey, Query, TableKey};
use std::alloc::{AllocError, Global};
use std::marker::Model;
use std::mem;

// A stripe has at most so many buckets.
const MOST_ROWS: usize = 1 << 26;

/// Stripe `number` of 2^s: the buckets `b` with `b mod 2^s` its number, in a table of 2^power
/// buckets. Bucket `b` is row `b / 2^s`.
///
/// It has 56 bytes, so that an optional one is as long as a line of a cache.
pub struct Stripe<K: TableKey, V> {
    pub(crate) power: u32,
    pub(crate) s: u32,
    number: u32,
    // Until a doubled stripe is settled, these are the buckets of the power below.
    pub(crate) rows: Rows<K, V>,
    pub(crate) next: Next<K, V>,
}

const _: () = prove!(mem::size_of::<Stripe<NumKey, u64>>() == 56);

const _: () = prove!(mem::size_of::<Option<Stripe<NumKey, u64>>>() == 64);

impl<K: TableKey, V> Model for Stripe<K, V> {
    ghost use Rattle.ck_stripe.specs.Stripe.{StripeState};

    ghost Value = { StripeState V };

    ghost use Rattle.ck_stripe.specs.Stored.{shown, IsConsistent};

    ghost view = { shown K.hash };

    ghost invariant = { IsConsistent };
}

impl<K: TableKey + Drop, V: Drop> Stripe<K, V> {
    /// An empty stripe in a table of 2^power buckets. It is refused only for want of memory.
    pub fn open(alloc: Global, s: u32, number: u32, power: u32) -> Result<Self, AllocError>
        requires s { s ≤ 10 }
        requires number { number < 2 ^ s }
        requires least { s ≤ power }
        requires most { power ≤ 26 }
        ensures value { IfOk result
            (λ stripe. stripe ≡ record {
              number = number;
              s = s;
              content = empty_content s power;
              settled = true;
              room = 2 ^ (power - s);
            }) }
        ensures sound { IfOk result
            (λ stripe. (k : Layout) → k.s ≡ s → power ≤ k.max → IsSound k number stripe.content) }
    {
        let rows = Rows::open(alloc, 1 << (power - s))?;
        Ok(Stripe {
            power,
            s,
            number,
            rows,
            next: Next::Absent,
        })
    }

    /// The slot of bucket `b` with this key, whose partial the caller has at hand; `None` where no
    /// slot of it has the key.
    #[inline(always)]
    pub fn look<Q: Query<K>>(&self, b: u64, key: Q, partial: u8) -> Option<usize>
        requires settled { self.now.settled ≡ true }
        requires own { HasBucket self.now b }
        requires partial { partial ≡ partial_of (K.hash (Q.name key)) }
        ensures below { IfSome result (λ i. i < 4) }
        ensures found { IfSome result (HasName (bucket_of self.now b) (Q.name key)) }
        ensures absent { IfNone result (LacksName (bucket_of self.now b) (Q.name key)) }
        ensures formed { IsWellFormed self.now }
    {
        let row = self.row(b);
        self.rows.look(row, key, partial)
    }

    /// The lowest free slot of bucket `b`; `None` where it is full.
    #[inline(always)]
    pub fn free(&self, b: u64) -> Option<usize>
        requires settled { self.now.settled ≡ true }
        requires own { HasBucket self.now b }
        ensures below { IfSome result (λ i. i < 4) }
        ensures found { IfSome result (λ i. slot_at (bucket_of self.now b) i ≡ None) }
        ensures lowest { IfSome result (λ i. (j : ℕ) → j < i →
            IsSome (slot_at (bucket_of self.now b) j)) }
        ensures full { IfNone result (IsFull (bucket_of self.now b)) }
        ensures formed { IsWellFormed self.now }
    {
        let row = self.row(b);
        self.rows.free(row)
    }

    /// The partial of each slot of bucket `b` that is not free.
    #[inline(always)]
    pub fn sketch(&self, b: u64) -> [Option<u8>; 4]
        requires settled { self.now.settled ≡ true }
        requires own { HasBucket self.now b }
        ensures value { result ≡ map (partial_in K.hash) (bucket_of self.now b) }
        ensures four { length (bucket_of self.now b) ≡ 4 }
        ensures formed { IsWellFormed self.now }
    {
        let row = self.row(b);
        self.rows.sketch(row)
    }

    /// The key and value in a slot of bucket `b`; `None` where it is free.
    #[inline(always)]
    pub fn get(&self, b: u64, slot: usize) -> Option<&(K, V)>
        requires settled { self.now.settled ≡ true }
        requires own { HasBucket self.now b }
        requires below { slot < 4 }
        ensures value { option_map (named K.name) (option_copied result)
            ≡ slot_at (bucket_of self.now b) slot }
        ensures formed { IsWellFormed self.now }
    {
        let row = self.row(b);
        self.rows.get(row, slot)
    }

    /// The key and value in a slot of bucket `b` that is not free.
    #[inline(always)]
    pub fn pair(&self, b: u64, slot: usize) -> &(K, V)
        requires settled { self.now.settled ≡ true }
        requires own { HasBucket self.now b }
        requires below { slot < 4 }
        requires full { IsSome (slot_at (bucket_of self.now b) slot) }
        ensures value { slot_at (bucket_of self.now b) slot
            ≡ Some (K.name result.now.0, result.now.1) }
        ensures formed { IsWellFormed self.now }
    {
        let row = self.row(b);
        self.rows.pair(row, slot)
    }

    /// Puts a key and its value into a free slot of bucket `b`. `partial` is that of the key.
    pub fn put(&mut self, b: u64, slot: usize, partial: u8, key: K, value: V)
        requires settled { self.old.settled ≡ true }
        requires own { HasBucket self.old b }
        requires below { slot < 4 }
        requires free { slot_at (bucket_of self.old b) slot ≡ None }
        requires partial { partial ≡ partial_of (K.hash (K.name key)) }
        ensures content { self.new.content
            ≡ with_slot self.old b slot (Some (K.name key, value)) (self.old.content.ledger + 1) }
        ensures rest { self.new ≡ record self.old { content = self.new.content } }
    {
        let row = self.row(b);
        self.rows.put(row, slot, partial, key, value);
    }

    /// Frees a slot of bucket `b`, and gives what was in it.
    pub fn remove(&mut self, b: u64, slot: usize) -> (K, V)
        requires settled { self.old.settled ≡ true }
        requires own { HasBucket self.old b }
        requires below { slot < 4 }
        requires full { IsSome (slot_at (bucket_of self.old b) slot) }
        ensures entry { slot_at (bucket_of self.old b) slot ≡ Some (K.name result.0, result.1) }
        ensures content { self.new.content
            ≡ with_slot self.old b slot None (self.old.content.ledger - 1) }
        ensures rest { self.new ≡ record self.old { content = self.new.content } }
    {
        let row = self.row(b);
        self.rows.take(row, slot)
    }

    /// Puts another value beside the key in a slot of bucket `b`, and gives the old one.
    pub fn replace(&mut self, b: u64, slot: usize, value: V) -> V
        requires settled { self.old.settled ≡ true }
        requires own { HasBucket self.old b }
        requires below { slot < 4 }
        requires full { IsSome (slot_at (bucket_of self.old b) slot) }
        ensures entry { ReplacesValue (bucket_of self.old b) (bucket_of self.new b) slot value
            result }
        ensures content { self.new.content
            ≡ with_bucket self.old b (bucket_of self.new b) self.old.content.ledger }
        ensures rest { self.new ≡ record self.old { content = self.new.content } }
    {
        let row = self.row(b);
        self.rows.replace(row, slot, value)
    }

    /// Makes of the value in a slot of bucket `b` what the closure makes of it, in its place.
    #[inline(always)]
    pub fn change<F: FnOnce(V) -> V>(&mut self, b: u64, slot: usize, f: F)
        requires settled { self.old.settled ≡ true }
        requires own { HasBucket self.old b }
        requires below { slot < 4 }
        requires full { IsSome (slot_at (bucket_of self.old b) slot) }
        requires call { F.IsAlwaysCallable f }
        ensures entry { ChangesValue (F.post f) (bucket_of self.old b) (bucket_of self.new b) slot }
        ensures content { self.new.content
            ≡ with_bucket self.old b (bucket_of self.new b) self.old.content.ledger }
        ensures rest { self.new ≡ record self.old { content = self.new.content } }
    {
        let row = self.row(b);
        self.rows.change(row, slot, f);
    }

    // The row of bucket `b`.
    #[inline(always)]
    fn row(&self, b: u64) -> usize
        requires settled { self.now.settled ≡ true }
        requires own { HasBucket self.now b }
        ensures value { result ≡ b / 2 ^ self.now.s }
        ensures below { result < length self.now.content.rows }
        ensures formed { IsWellFormed self.now }
    {
        (b >> self.s) as usize
    }

    /// Which stripe of the table it is.
    pub fn number(&self) -> u32
        ensures value { result ≡ self.now.number }
        ensures formed { IsWellFormed self.now }
    {
        self.number
    }

    /// The table has 2^s stripes.
    pub fn s(&self) -> u32
        ensures value { result ≡ self.now.s }
        ensures formed { IsWellFormed self.now }
    {
        self.s
    }

    /// The table has 2^power buckets.
    pub fn power(&self) -> u32
        ensures value { result ≡ self.now.content.power }
        ensures formed { IsWellFormed self.now }
    {
        self.power
    }

    /// The number of entries, which are counted row by row.
    pub fn len(&self) -> u64
        ensures value { result ≡ self.now.content.ledger }
        ensures pairs { result ≡ length (pairs_in self.now.content) }
        ensures formed { IsWellFormed self.now }
    {
        let count = self.next.count(self.s, self.power);
        len_of_rows(&self.rows, count)
    }

    /// Its pairs, in the order of rows and slots.
    pub fn iter(&self) -> Iter<'_, K, V>
        requires { self.now.settled ≡ true }
        ensures { result ≡ pairs_in self.now.content }
    {
        Iter::new(&self.rows, 4 * self.next.count(self.s, self.power))
    }

    /// Takes the memory for a doubling, where the stripe has none yet, from what the grower has if
    /// there is some for it. It is refused only for want of memory, or where the stripe would have
    /// more than 2^26 buckets, and then the stripe stays as it was.
    pub fn reserve_double(&mut self, grower: &mut Grower<K, V>) -> Result<(), AllocError>
        requires settled { self.old.settled ≡ true }
        ensures room { self.old.room ≤ self.new.room }
        ensures ok { OnOk result (self.new ≡ reserved self.old) }
        ensures due { OnErr result (HasNoSpare self.old) }
        ensures kept { OnErr result (self.new ≡ self.old) }
    {
        if self.next.is_reserved() {
            return Ok(());
        }
        let count = 2usize << (self.power - self.s);
        if count > MOST_ROWS {
            return Err(AllocError);
        }
        let blank = grower.block(count)?;
        drop(self.next.take_emptied(self.s, self.power));
        self.next.put(Next::Reserved(blank));
        Ok(())
    }

    /// Gives back the memory that was reserved for a doubling, or is left of one.
    pub fn shrink_to_fit(&mut self)
        requires settled { self.old.settled ≡ true }
        ensures { self.new ≡ shrunk self.old }
    {
        let count = self.next.count(self.s, self.power);
        mem::replace(&mut self.next, Next::Absent).close(count);
    }

    /// Raises the power by one. The stripe then shows its entries where the doubling sends them:
    /// each keeps its slot, and goes from its name's first bucket to the first, from the alternate
    /// one to the alternate one. `settle` moves them.
    pub fn double(&mut self)
        requires settled { self.old.settled ≡ true }
        requires reserved { IsReserved self.old }
        requires power { self.old.content.power < 26 }
        ensures content { self.new.content
            ≡ doubled_content K.hash self.old.s self.old.number self.old.content }
        ensures rest { self.new ≡ record self.old { content = self.new.content; settled = false } }
        ensures pairs { IsPermutation (pairs_in self.old.content) (pairs_in self.new.content) }
        ensures sends { SendsEach K.hash self.old.s self.old.number self.old.content
            self.new.content }
    {
        self.power += 1;
        let blank = self.next.take();
        self.next.put(Next::Doubled(blank));
    }

    /// Whether no doubling is left to be carried out by `settle`.
    pub fn settled(&self) -> bool
        ensures value { result ≡ self.now.settled }
        ensures formed { IsWellFormed self.now }
    {
        self.next.is_settled()
    }

    /// Whether nothing is left of a doubling: neither entries to be moved, nor rows that were emptied.
    #[inline(always)]
    pub fn is_clear(&self) -> bool
        ensures settled { OnTrue result (self.now.settled ≡ true) }
        ensures formed { IsWellFormed self.now }
    {
        self.next.is_clear()
    }

    /// Takes out the rows that a doubling has emptied, if it has such. They are to be freed when the
    /// stripe isn't held, since that takes a while where an allocator gives memory back to the system.
    pub fn take_emptied(&mut self) -> Option<Emptied<K, V>>
        ensures { self.new ≡ self.old }
    {
        self.next.take_emptied(self.s, self.power)
    }

    /// Carries out a doubling, in the memory that was reserved for it; a settled stripe stays as it
    /// is. It frees nothing, and `take_emptied` gives what it has emptied.
    pub fn settle(&mut self)
        ensures { self.new ≡ record self.old { settled = true } }
    {
        if !self.next.is_settled() {
            let blank = self.next.take();
            let emptied = split_all(&mut self.rows, blank, self.s, self.number, self.power - 1);
            self.next.put(Next::Emptied(emptied));
        }
    }

    /// Drops all its entries. It keeps its buckets and their memory.
    pub fn clear(&mut self)
        requires settled { self.old.settled ≡ true }
        ensures content { self.new.content ≡ empty_content self.old.s self.old.content.power }
        ensures rest { self.new ≡ record self.old { content = self.new.content } }
    {
        let count = self.next.count(self.s, self.power);
        empty_all(&mut self.rows, count);
    }

    /// Pushes its pairs, in the order of rows and slots, into reserved room for them and for four
    /// more.
    pub fn pour_reserved(self, pairs: &mut Vec<(K, V)>)
        requires settled { self.settled ≡ true }
        requires room { vec_len pairs.old + length (pairs_in self.content) + 4
            ≤ vec_capacity pairs.old }
        ensures pairs { map (named K.name) pairs.new.items
            ≡ map (named K.name) pairs.old.items ++ pairs_in self.content }
        ensures capacity { vec_capacity pairs.new ≡ vec_capacity pairs.old }
    {
        let Stripe {
            power,
            s,
            number: _,
            mut rows,
            next,
        } = self;
        let count = next.count(s, power);
        pour_all(&mut rows, count, pairs);
        rows.close(count);
        next.close(count);
    }
}

impl<K: TableKey + Drop, V: Drop> Drop for Stripe<K, V> {
    fn drop(self) {
        let Stripe {
            power,
            s,
            number: _,
            mut rows,
            next,
        } = self;
        let count = next.count(s, power);
        empty_all(&mut rows, count);
        rows.close(count);
        next.close(count);
    }
}

impl<K: TableKey + Clone, V: Clone> Stripe<K, V> {
    /// Pushes clones of its pairs, in the order of rows and slots, into reserved room for them and
    /// for four more. Where there is no memory for a clone, the pairs before it were pushed.
    pub fn clone_reserved(&self, pairs: &mut Vec<(K, V)>) -> Result<(), AllocError>
        requires keys { ClonesAreEqual K.is_clone }
        requires values { ClonesAreEqual V.is_clone }
        requires settled { self.now.settled ≡ true }
        requires room { vec_len pairs.old + length (pairs_in self.now.content) + 4
            ≤ vec_capacity pairs.old }
        ensures pairs { OnOk result (map (named K.name) pairs.new.items
            ≡ map (named K.name) pairs.old.items ++ pairs_in self.now.content) }
        ensures capacity { vec_capacity pairs.new ≡ vec_capacity pairs.old }
    {
        let count = self.next.count(self.s, self.power);
        clone_all(&self.rows, count, pairs)
    }
}

// Moves each row of stripe `number` to where it stands once a table of 2^p buckets has doubled, in
// the memory for twice the rows, and gives the old rows, which are free then. Few calls find a
// doubling: the others don't make room for it.
#[cold]
#[inline(never)]
fn split_all<K: TableKey, V>(
    rows: &mut Rows<K, V>,
    blank: BlankRows<K, V>,
    s: u32,
    number: u32,
    p: u32,
) -> Rows<K, V>
    requires s { s ≤ 10 }
    requires number { number < 2 ^ s }
    requires least { s ≤ p }
    requires power { p < 26 }
    requires count { length rows.old ≡ 2 ^ (p - s) }
    requires twice { blank ≡ 2 * length rows.old }
    ensures split { rows.new ≡ split_rows K.hash s number p rows.old }
    ensures emptied { result ≡ replicate (length rows.old) (replicate 4 None) }
{
    let count = 1usize << (p - s);
    let mut doubled = blank.fill(2 * count);
    let mut b = number as u64;
    for r in 0..count {
        rows.split_row(&mut doubled, r, r, count + r, p, b);
        b += 1 << s;
    }
    mem::replace(rows, doubled)
}

// The number of entries in so many rows.
fn len_of_rows<K: TableKey, V>(rows: &Rows<K, V>, count: usize) -> u64
    requires count { count ≡ length rows.now }
    requires few { count ≤ 2 ^ 26 }
    ensures { result ≡ length (flat_map taken_in rows.now) }
{
    let mut len = 0;
    for row in 0..count {
        len += rows.len_of_row(row);
    }
    len as u64
}

// Drops what is in each of so many rows.
fn empty_all<K: TableKey + Drop, V: Drop>(rows: &mut Rows<K, V>, count: usize)
    requires { count ≡ length rows.old }
    ensures { rows.new ≡ replicate count (replicate 4 None) }
{
    for row in 0..count {
        rows.clear_row(row);
    }
}

// Pushes the pairs of so many rows, in their order, into reserved room for them and for four more.
pub(crate) fn pour_all<K: TableKey, V>(rows: &mut Rows<K, V>, count: usize, pairs: &mut Vec<(K, V)>)
    requires count { count ≡ length rows.old }
    requires room { vec_len pairs.old + length (flat_map taken_in rows.old) + 4
        ≤ vec_capacity pairs.old }
    ensures rows { rows.new ≡ replicate count (replicate 4 None) }
    ensures pairs { map (named K.name) pairs.new.items
        ≡ map (named K.name) pairs.old.items ++ flat_map taken_in rows.old }
    ensures capacity { vec_capacity pairs.new ≡ vec_capacity pairs.old }
{
    for row in 0..count {
        rows.pour_row_reserved(row, pairs);
    }
}

// Pushes clones of the pairs of so many rows, as `pour_all` does. Where there is no memory for a
// clone, the pairs before it were pushed.
fn clone_all<K: TableKey + Clone, V: Clone>(
    rows: &Rows<K, V>,
    count: usize,
    pairs: &mut Vec<(K, V)>,
) -> Result<(), AllocError>
    requires keys { ClonesAreEqual K.is_clone }
    requires values { ClonesAreEqual V.is_clone }
    requires count { count ≡ length rows.now }
    requires room { vec_len pairs.old + length (flat_map taken_in rows.now) + 4
        ≤ vec_capacity pairs.old }
    ensures pairs { OnOk result (map (named K.name) pairs.new.items
        ≡ map (named K.name) pairs.old.items ++ flat_map taken_in rows.now) }
    ensures capacity { vec_capacity pairs.new ≡ vec_capacity pairs.old }
{
    for row in 0..count {
        rows.clone_row_reserved(row, pairs)?;
    }
    Ok(())
}
