//! Memory for the doublings of a table's stripes, taken before any stripe is.
ghost use Rattle.std.specs.Prelude.{◌≡◌, ◌≤◌, ◌<◌, ◌+◌, ◌-◌, ◌^◌, IfOk, IfSome, replicate};

use ck_bucket::BlankRows;
use ck_key::TableKey;
use std::alloc::{AllocError, Global};
use std::marker::Model;

/// Blocks for one doubling of the stripes of a table, one for each. Whoever doubles the table takes
/// them from here, so that it requests nothing while it holds the stripes. What is left is freed.
/// Contracts see for how many rows each of them is.
#[derive(Drop)]
pub(crate) struct Spares<K: TableKey, V> {
    blocks: Vec<Spare<K, V>>,
}

// A block for so many rows, which keeps how many they are, so that it can be dropped.
struct Spare<K: TableKey, V> {
    count: usize,
    blank: BlankRows<K, V>,
}

impl<K: TableKey, V> Model for Spares<K, V> {
    ghost use Rattle.std.specs.Prelude.{ℕ, List};

    ghost Value = { List ℕ };

    ghost view = { λ spares. spares.blocks.items };
}

impl<K: TableKey, V> Model for Spare<K, V> {
    ghost use Rattle.std.specs.Prelude.{◌≡◌, ◌≤◌, ◌^◌, ℕ};

    ghost Value = { ℕ };

    ghost view = { λ spare. spare.count };

    ghost invariant = { λ spare. (spare.blank ≡ spare.count) × (spare.count ≤ 2 ^ 26) };
}

impl<K: TableKey, V> Spares<K, V> {
    /// Memory for a table of 2^s stripes to double from 2^power buckets. It is taken by a request
    /// for each stripe, and one for the list of them. Where one is refused, what was taken is
    /// freed.
    pub(crate) fn open(alloc: Global, s: u32, power: u32) -> Result<Self, AllocError>
        requires s { s ≤ 10 }
        requires least { s ≤ power }
        requires most { power < 26 }
        ensures { IfOk result (λ spares. spares ≡ replicate (2 ^ s) (2 ^ (power + 1 - s))) }
    {
        let count = 2usize << (power - s);
        let stripes = 1usize << s;
        let mut blocks = Vec::with_capacity(alloc, stripes)?;
        for _ in 0..stripes {
            let blank = BlankRows::open(alloc, count)?;
            blocks.push_reserved(Spare { count, blank });
        }
        Ok(Spares { blocks })
    }

    // A block for so many rows, if the next is for as many. Another is freed.
    pub(crate) fn take(&mut self, count: usize) -> Option<BlankRows<K, V>>
        ensures { IfSome result (λ blank. blank ≡ count) }
    {
        self.blocks.pop()?.into_blank(count)
    }
}

impl<K: TableKey, V> Spare<K, V> {
    fn into_blank(self, wanted: usize) -> Option<BlankRows<K, V>>
        ensures { IfSome result (λ blank. blank ≡ wanted) }
    {
        let Spare { count, blank } = self;
        if count == wanted {
            return Some(blank);
        }
        blank.close(count);
        None
    }
}

impl<K: TableKey, V> Drop for Spare<K, V> {
    fn drop(self) {
        let Spare { count, blank } = self;
        blank.close(count);
    }
}
