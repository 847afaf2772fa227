//! Memory for rows, before anything is written there.
ghost use Rattle.std.specs.Prelude.{◌≡◌, ◌≤◌, ◌*◌, ◌^◌, ◌<◌, ℕ, IfOk, Some, None, slice_index_or, replicate, length};
ghost use Rattle.ck_room.specs.Room.{items_of, block_of, AllNone};
ghost use Rattle.ck_bucket.specs.Rows.{no_entry};

use crate::head::Head;
use crate::rows::Rows;
use ck_key::TableKey;
use ck_room::{Deallocator, LeaseOfTwo, Places};
use std::alloc::{AllocError, Global};
use std::marker::Model;

/// A block for rows in which nothing is written yet, not even their heads. No row can be read before
/// `fill` has made rows of it. Contracts see how many they will be.
pub struct BlankRows<K, V> {
    heads: Places<Head>,
    pairs: Places<(K, V)>,
    lease: LeaseOfTwo<(K, V), Head, Global>,
    dealloc: Deallocator<Global>,
}

impl<K, V> Model for BlankRows<K, V> {
    ghost use Rattle.std.specs.Prelude.{ℕ, length};
    ghost use Rattle.ck_room.specs.Room.{items_of, IsLeaseOfTwo};
    ghost use Rattle.ck_bucket.specs.Rows.{AreBlank};

    ghost Value = { ℕ };

    ghost view = { λ r. length (items_of r.heads) };

    ghost invariant = { λ r. AreBlank (items_of r.heads) (items_of r.pairs)
        × IsLeaseOfTwo r.lease r.pairs r.heads r.dealloc };
}

impl<K: TableKey, V> BlankRows<K, V> {
    /// Memory for so many rows, by one request. It is refused for want of it, or where a pair takes
    /// 2^31 bytes or more.
    pub fn open(alloc: Global, count: usize) -> Result<Self, AllocError>
        requires { count ≤ 2 ^ 26 }
        ensures { IfOk result (λ blank. blank ≡ count) }
    {
        let (pairs, heads, lease) = ck_room::open_two(&alloc, count * 4, count)?;
        Ok(BlankRows {
            heads,
            pairs,
            lease,
            dealloc: Deallocator::of(alloc),
        })
    }

    /// So many rows of free slots. The block itself doesn't keep how many they are.
    pub fn fill(self, count: usize) -> Rows<K, V>
        requires { count ≡ self }
        ensures { result ≡ replicate count (replicate 4 None) }
    {
        let BlankRows {
            mut heads,
            pairs,
            lease,
            dealloc,
        } = self;
        fill(&mut heads, count);
        Rows {
            heads,
            pairs,
            lease,
            dealloc,
        }
    }

    /// Frees the memory.
    pub fn close(self, count: usize)
        requires { count ≡ self }
    {
        let BlankRows {
            heads,
            pairs,
            lease,
            dealloc,
        } = self;
        ck_room::release_two(&dealloc, pairs, heads, lease, count * 4, count);
    }
}

// Puts a head of free slots into each place.
fn fill(heads: &mut Places<Head>, count: usize)
    requires count { count ≡ length (items_of heads.old) }
    requires empty { AllNone (items_of heads.old) }
    ensures count { count ≡ length (items_of heads.new) }
    ensures full { (r : ℕ) → r < count →
        slice_index_or (items_of heads.new) r None ≡ Some no_entry }
    ensures block { block_of heads.new ≡ block_of heads.old }
{
    for r in 0..count {
        heads.put(r, Head::new());
    }
}
