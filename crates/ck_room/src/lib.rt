//! Bare memory for values: a block of places, each empty or with a value. No place has a tag: who
//! uses the block keeps which of them are full. Of all crates only this one has `unsafe` code.
//!
//! Proved: a place is read, taken or written over only where the caller's proof says which of the
//! two it is. A block is given back at most once, to the allocator that it came from, with all its
//! places empty.
#![tactic(auto)]

ghost use Rattle.std.specs.Prelude.{◌≡◌, ℕ, List, Option, length};
ghost use base.Fml.{ftrue};
ghost use denote.RawPtr.{Ptr};
ghost use Rattle.ck_room.specs.Memory.{owned, lent, leased_two};

use std::alloc::Allocator;
use std::marker::{Model, PhantomData, Send, Sync};

mod crossings;
mod deallocator;
mod two;
mod values;

pub use deallocator::Deallocator;
pub use two::{open_two, release_two};

/// A block of places, each empty or with a value. It doesn't know itself which are full: who uses
/// it keeps that. It is no `Drop`: its values are taken out, and then it is released.
pub struct Places<T> {
    ptr: *mut T,
    ghost len: { ℕ },
    ghost items: { List (Option T) },
    ghost counted: { len ≡ length items },
}

impl<T> Model for Places<T> {
    ghost also_owns = { λ a. owned T.row a.ptr a.items };

    ghost also_shares = { λ a _ κ. lent T.row a.ptr a.items κ };
}

unsafe impl<T: Send> Send for Places<T> {}

unsafe impl<T: Sync> Sync for Places<T> {}

/// The right to free a block of two rows of places. It takes no space.
pub struct LeaseOfTwo<T, H, A: Allocator> {
    mark: PhantomData<*const (T, H, A)>,
    ghost first: { Ptr × ℕ },
    ghost second: { Ptr × ℕ },
    ghost alloc: { A },
}

impl<T, H, A: Allocator> Model for LeaseOfTwo<T, H, A> {
    ghost also_owns = { λ l. leased_two (A.dealloc_token l.alloc) T.row H.row l.first l.second };

    ghost also_shares = { λ _ _ _. ftrue };
}

unsafe impl<T, H, A: Allocator + Send> Send for LeaseOfTwo<T, H, A> {}

// A `&` to it holds nothing.
unsafe impl<T, H, A: Allocator> Sync for LeaseOfTwo<T, H, A> {}
