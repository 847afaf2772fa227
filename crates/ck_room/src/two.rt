//! Two rows of places in one block.
ghost use Rattle.std.specs.Prelude.{◌≡◌, ◌^◌, ◌<◌, ◌≤◌, None, IfOk, length, replicate};
ghost use Rattle.core.specs.Align.{type_align};
ghost use Rattle.std.specs.Vec.Ownership.{FitsInBlock};
ghost use Rattle.std.specs.Mem.{type_size};
ghost use prog.Memory.{capped, up};
ghost use Rattle.ck_room.specs.Memory.{pair_bytes, IsBlockSize};
ghost use Rattle.ck_room.specs.Room.{items_of, IsLeaseOfTwo, AllNone};

use crate::{Deallocator, LeaseOfTwo, Places};
use std::alloc::{AllocError, Allocator};
use std::marker::PhantomData;
use std::mem::{align_of, size_of};

// So large values, in fewer than 2^32 places, take fewer than 2^63 bytes.
const MOST_BYTES: usize = 0x7fff_ffff;

/// So many empty places, behind them in the same block so many for values of a second kind, and the
/// right to free the block: by one request. It is refused for want of memory, where a value takes
/// 2^31 bytes or more, and where the second kind has an alignment above 1. There may be no places
/// of either kind.
pub fn open_two<T, H, A: Allocator>(
    alloc: &A,
    len: usize,
    heads: usize,
) -> Result<(Places<T>, Places<H>, LeaseOfTwo<T, H, A>), AllocError>
    requires few { len < 2 ^ 32 }
    requires few_heads { heads < 2 ^ 32 }
    ensures empty { IfOk result (λ p. items_of p.0 ≡ replicate len None) }
    ensures no_heads { IfOk result (λ p. items_of p.1 ≡ replicate heads None) }
    ensures lease { IfOk result (λ p. IsLeaseOfTwo p.2 p.0 p.1 alloc.now) }
{
    if place_bytes::<T>() > MOST_BYTES || place_bytes::<H>() > MOST_BYTES {
        return Err(AllocError);
    }
    if place_align::<H>() != 1 {
        return Err(AllocError);
    }
    allocate_two(alloc, len, heads, block_bytes::<T, H>(len, heads))
}

// The size of a value, or `usize::MAX` where it is more.
#[inline(always)]
fn place_bytes<T>() -> usize
    ensures { result ≡ capped (type_size T.row) }
{
    size_of::<T>()
}

// The alignment of a value.
#[inline(always)]
fn place_align<T>() -> usize
    ensures { (result ≡ type_align T.row) × (0 < result) × (result ≤ 16) }
{
    align_of::<T>()
}

// The bytes of both rows, rounded up to what the first is aligned to. That they fit a word is known
// to the lease alone, and to no plain fact: so the sums wrap.
#[inline(always)]
fn block_bytes<T, H>(len: usize, heads: usize) -> usize
    ensures { IsBlockSize T.row H.row len heads result }
{
    let first = len.wrapping_mul(place_bytes::<T>());
    let second = heads.wrapping_mul(place_bytes::<H>());
    rounded_up(first.wrapping_add(second), place_align::<T>())
}

#[inline(always)]
fn rounded_up(bytes: usize, align: usize) -> usize
    requires some { 0 < align }
    ensures { up align bytes < 2 ^ 64 → result ≡ up align bytes }
{
    bytes.wrapping_add((align - bytes % align) % align)
}

fn allocate_two<T, H, A: Allocator>(
    alloc: &A,
    len: usize,
    heads: usize,
    bytes: usize,
) -> Result<(Places<T>, Places<H>, LeaseOfTwo<T, H, A>), AllocError>
    requires first { FitsInBlock T.row len }
    requires second { FitsInBlock H.row heads }
    requires unaligned { type_align H.row ≡ 1 }
    requires fits { pair_bytes T.row H.row len heads < 2 ^ 64 }
    requires all { IsBlockSize T.row H.row len heads bytes }
    ensures { IfOk result (λ p. (items_of p.0 ≡ replicate len None)
        × (items_of p.1 ≡ replicate heads None) × IsLeaseOfTwo p.2 p.0 p.1 alloc.now) }
{
    match alloc.allocate(bytes, align_of::<T>()) {
        Ok(block) => {
            let ptr = block as *mut T;
            let behind = unsafe { ptr.add(len) } as *mut H;
            let lease = LeaseOfTwo { mark: PhantomData };
            Ok((Places { ptr }, Places { ptr: behind }, lease))
        }
        Err(refused) => Err(refused),
    }
}

/// Frees a block whose places are all empty, of both kinds.
pub fn release_two<T, H, A: Allocator>(
    dealloc: &Deallocator<A>,
    places: Places<T>,
    heads: Places<H>,
    lease: LeaseOfTwo<T, H, A>,
    len: usize,
    heads_len: usize,
)
    requires count { len ≡ length (items_of places) }
    requires heads_count { heads_len ≡ length (items_of heads) }
    requires lease { IsLeaseOfTwo lease places heads dealloc.now }
    requires empty { AllNone (items_of places) }
    requires no_heads { AllNone (items_of heads) }
{
    free_two(
        &dealloc.alloc,
        places,
        heads,
        lease,
        block_bytes::<T, H>(len, heads_len),
    );
}

fn free_two<T, H, A: Allocator>(
    alloc: &A,
    places: Places<T>,
    heads: Places<H>,
    lease: LeaseOfTwo<T, H, A>,
    bytes: usize,
)
    requires lease { IsLeaseOfTwo lease places heads alloc.now }
    requires empty { AllNone (items_of places) }
    requires no_heads { AllNone (items_of heads) }
    requires all { IsBlockSize T.row H.row (length (items_of places)) (length (items_of heads))
        bytes }
{
    let Places { ptr } = places;
    let Places { ptr: _ } = heads;
    let LeaseOfTwo { mark: _ } = lease;
    unsafe {
        alloc.deallocate(ptr as *mut u8, bytes, align_of::<T>());
    }
}
