//! What a table takes memory by.
ghost use Rattle.std.specs.Prelude.{◌≡◌, ◌≤◌, ◌<◌, ◌+◌, ◌-◌, ◌^◌, None, IfOk, IfSome, replicate};

use crate::spares::Spares;
use ck_bucket::BlankRows;
use ck_key::TableKey;
use std::alloc::{AllocError, Global};
use std::marker::Model;

/// What a table grows by: an allocator, and blocks for one doubling that were requested before. Who
/// isn't handed one can't request memory for stripes. Contracts see for how many rows each of the
/// blocks is, where there are any.
#[derive(Drop)]
pub struct Grower<K: TableKey, V> {
    alloc: Global,
    spares: Option<Spares<K, V>>,
}

impl<K: TableKey, V> Model for Grower<K, V> {
    ghost use Rattle.std.specs.Prelude.{ℕ, List, Option};

    ghost Value = { Option (List ℕ) };

    ghost view = { λ grower. grower.spares };
}

impl<K: TableKey, V> Grower<K, V> {
    /// One that has requested nothing.
    pub fn new(alloc: Global) -> Self
        ensures { result ≡ None }
    {
        Grower {
            alloc,
            spares: None,
        }
    }

    /// Requests the blocks for a table of 2^s stripes to double from 2^power buckets. It has all of
    /// them, or none where a request is refused.
    pub fn prepare(&mut self, s: u32, power: u32)
        requires s { s ≤ 10 }
        requires least { s ≤ power }
        requires most { power < 26 }
        ensures { IfSome self.new (λ spares. spares ≡ replicate (2 ^ s) (2 ^ (power + 1 - s))) }
    {
        self.spares = Spares::open(self.alloc, s, power).ok();
    }

    // A block for so many rows: a spare if the next is for as many, else by one request.
    pub(crate) fn block(&mut self, count: usize) -> Result<BlankRows<K, V>, AllocError>
        requires { count ≤ 2 ^ 26 }
        ensures { IfOk result (λ blank. blank ≡ count) }
    {
        match self.spare(count) {
            Some(blank) => Ok(blank),
            None => BlankRows::open(self.alloc, count),
        }
    }

    fn spare(&mut self, count: usize) -> Option<BlankRows<K, V>>
        ensures { IfSome result (λ blank. blank ≡ count) }
    {
        self.spares.as_mut()?.take(count)
    }
}
