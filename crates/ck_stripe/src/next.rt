//! What a stripe has for its next doubling, or from its last one.
ghost use Rattle.std.specs.Prelude.{◌≡◌, ◌≤◌, ◌<◌, ◌*◌, ◌-◌, ◌^◌, Some, true, false, is_some, IsSome};
ghost use Rattle.std.specs.Bool.{OnTrue};
ghost use Rattle.ck_stripe.specs.declared.next.Next.TheVariants.{Absent};
ghost use Rattle.ck_stripe.specs.Next.{is_settled, count_of, blank_of, is_emptied, IsFor, without_emptied};

use crate::emptied::Emptied;
use ck_bucket::{BlankRows, Rows};
use ck_key::TableKey;
use std::mem;

/// Memory for twice the buckets. Nothing is written there before `settle` needs it, since it is
/// requested while all stripes are held. Or the rows that `settle` has emptied.
pub(crate) enum Next<K: TableKey, V> {
    Absent,
    Reserved(BlankRows<K, V>),
    // The power was raised, and `settle` has to move the entries there.
    Doubled(BlankRows<K, V>),
    // The entries were moved away from these rows. An insertion takes them out and frees them when it
    // holds no stripe, since that takes a while where an allocator gives memory back to the system.
    // What is left of them the next doubling frees.
    Emptied(Rows<K, V>),
}

impl<K: TableKey, V> Next<K, V> {
    #[inline(always)]
    pub(crate) fn is_settled(&self) -> bool
        ensures { result ≡ is_settled self.now }
    {
        match self {
            Next::Doubled(_) => false,
            Next::Absent | Next::Reserved(_) | Next::Emptied(_) => true,
        }
    }

    // Whether nothing is left of a doubling.
    #[inline(always)]
    pub(crate) fn is_clear(&self) -> bool
        ensures { OnTrue result (is_settled self.now ≡ true) }
    {
        match self {
            Next::Absent | Next::Reserved(_) => true,
            Next::Doubled(_) | Next::Emptied(_) => false,
        }
    }

    // Whether it has memory for twice the buckets.
    pub(crate) fn is_reserved(&self) -> bool
        ensures { result ≡ is_some (blank_of self.now) }
    {
        match self {
            Next::Absent | Next::Emptied(_) => false,
            Next::Reserved(_) | Next::Doubled(_) => true,
        }
    }

    // How many rows one of 2^s stripes of a table of 2^power buckets stores beside it.
    #[inline(always)]
    pub(crate) fn count(&self, s: u32, power: u32) -> usize
        requires least { s ≤ power }
        requires most { power ≤ 26 }
        requires late { is_settled self.now ≡ false → s < power }
        ensures { result ≡ count_of s power self.now }
    {
        match self {
            Next::Doubled(_) => 1 << (power - 1 - s),
            Next::Absent | Next::Reserved(_) | Next::Emptied(_) => 1 << (power - s),
        }
    }

    pub(crate) fn put(&mut self, next: Self)
        requires { self.old ≡ Absent }
        ensures { self.new ≡ next }
    {
        match mem::replace(self, next) {
            Next::Absent => {}
            Next::Reserved(_blank) | Next::Doubled(_blank) => unreachable!(),
            Next::Emptied(_rows) => unreachable!(),
        }
    }

    pub(crate) fn take(&mut self) -> BlankRows<K, V>
        requires { IsSome (blank_of self.old) }
        ensures blank { blank_of self.old ≡ Some result }
        ensures left { self.new ≡ Absent }
    {
        match mem::replace(self, Next::Absent) {
            Next::Reserved(blank) | Next::Doubled(blank) => blank,
            Next::Emptied(_rows) => unreachable!(),
            Next::Absent => unreachable!(),
        }
    }

    // Takes out the rows that `settle` has emptied, if it has such, in one of 2^s stripes of a table of
    // 2^power buckets.
    pub(crate) fn take_emptied(&mut self, s: u32, power: u32) -> Option<Emptied<K, V>>
        requires least { s ≤ power }
        requires most { power ≤ 26 }
        requires all { is_emptied self.old ≡ true → IsFor (2 ^ (power - s)) self.old }
        ensures { self.new ≡ without_emptied self.old }
    {
        if !self.is_emptied() {
            return None;
        }
        let next = mem::replace(self, Next::Absent);
        Some(Emptied {
            count: 1 << (power - s),
            next,
        })
    }

    // Whether it has rows that `settle` has emptied.
    fn is_emptied(&self) -> bool
        ensures { result ≡ is_emptied self.now }
    {
        match self {
            Next::Emptied(_) => true,
            Next::Absent | Next::Reserved(_) | Next::Doubled(_) => false,
        }
    }

    // Frees what it has for a stripe of so many rows.
    pub(crate) fn close(self, count: usize)
        requires few { count ≤ 2 ^ 26 }
        requires all { IsFor count self }
    {
        match self {
            Next::Reserved(blank) | Next::Doubled(blank) => blank.close(2 * count),
            Next::Emptied(rows) => rows.close(count / 2),
            Next::Absent => {}
        }
    }
}
