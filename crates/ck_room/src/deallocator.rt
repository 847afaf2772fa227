//! What frees blocks, and can't request any.
ghost use Rattle.std.specs.Prelude.{◌≡◌};

use std::alloc::{Allocator, Global};
use std::marker::Model;
use std::mem;

/// The right to give blocks back to an allocator. It can't be asked for memory. Contracts see the
/// allocator.
#[derive(Clone, Copy, Drop)]
pub struct Deallocator<A: Allocator> {
    pub(crate) alloc: A,
}

const _: () = prove!(mem::size_of::<Deallocator<Global>>() == 0);

impl<A: Allocator> Model for Deallocator<A> {
    ghost Value = { A };

    ghost view = { λ d. d.alloc };

    ghost inverse = { λ alloc. record { alloc = alloc } };
}

impl<A: Allocator> Deallocator<A> {
    /// That of an allocator, from which who has this alone can't request anything.
    pub fn of(alloc: A) -> Self
        ensures { result ≡ alloc }
    {
        Deallocator { alloc }
    }
}
