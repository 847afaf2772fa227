//! The pairs of a stripe: how they are taken out, and how those stay that a closure keeps.
ghost use Rattle.std.specs.Prelude.{◌≡◌, ◌≤◌, ◌+◌, ◌^◌, true, ◌++◌, length, map, flat_map, vec_len, vec_capacity};
ghost use Rattle.ck_model.specs.Listing.{named};
ghost use Rattle.ck_model.specs.Slots.{taken_in};
ghost use Rattle.ck_model.specs.Contents.{pairs_in, empty_content};
ghost use Rattle.ck_bucket.specs.Retaining.{AsksAboutRows};
ghost use Rattle.ck_stripe.specs.Stripe.{IsWellFormed};

use crate::stripe::{Stripe, pour_all};
use ck_bucket::Rows;
use ck_key::TableKey;

impl<K: TableKey + Drop, V: Drop> Stripe<K, V> {
    /// Moves its pairs, in the order of rows and slots, into reserved room for them and for four
    /// more. It has no entry then, and keeps its buckets and their memory.
    pub fn drain_reserved(&mut self, pairs: &mut Vec<(K, V)>)
        requires settled { self.old.settled ≡ true }
        requires room { vec_len pairs.old + length (pairs_in self.old.content) + 4
            ≤ vec_capacity pairs.old }
        ensures content { self.new.content ≡ empty_content self.old.s self.old.content.power }
        ensures rest { self.new ≡ record self.old { content = self.new.content } }
        ensures pairs { map (named K.name) pairs.new.items
            ≡ map (named K.name) pairs.old.items ++ pairs_in self.old.content }
        ensures capacity { vec_capacity pairs.new ≡ vec_capacity pairs.old }
    {
        let count = self.next.count(self.s, self.power);
        pour_all(&mut self.rows, count, pairs);
    }

    /// Asks the closure about each of its pairs once, in the order of rows and slots, and drops
    /// those for which it answers false. It keeps its buckets and their memory.
    pub fn retain<F: FnMut(&K, &V) -> bool>(&mut self, f: &mut F)
        requires settled { self.old.settled ≡ true }
        requires call { F.IsAlwaysCallable f.old }
        ensures asked { AsksAboutRows F.FnMut K.name f.old self.old.content.rows
            self.new.content.rows f.new }
        ensures power { self.new.content.power ≡ self.old.content.power }
        ensures rest { self.new ≡ record self.old { content = self.new.content } }
        ensures formed { IsWellFormed self.new }
        ensures call { F.IsAlwaysCallable f.new }
    {
        let count = self.next.count(self.s, self.power);
        retain_rows(&mut self.rows, count, f);
    }
}

// Asks the closure about the pairs of so many rows, row by row, and drops those for which it
// answers false.
fn retain_rows<K: TableKey + Drop, V: Drop, F: FnMut(&K, &V) -> bool>(
    rows: &mut Rows<K, V>,
    count: usize,
    f: &mut F,
)
    requires count { count ≡ length rows.old }
    requires call { F.IsAlwaysCallable f.old }
    ensures asked { AsksAboutRows F.FnMut K.name f.old rows.old rows.new f.new }
    ensures call { F.IsAlwaysCallable f.new }
{
    for row in 0..count {
        rows.retain_row(row, f);
    }
}
