//! A box, or none, as a pointer, and what C may hold of it.
#![tactic(auto)]

ghost use Rattle.std.specs.Prelude.{◌≡◌};
ghost use Rattle.std.specs.Option.{MatchOption};
ghost use Rattle.std.specs.Coded.{coded_option};
ghost use Rattle.std.specs.declared.option.Option.{Option as Maybe};
ghost use Rattle.std.specs.declared.option.Option.TheVariants.{None, Some};
ghost use Rattle.std_alloc.specs.Vacant.{vacant};
ghost use Rattle.ck_owned.specs.Place.{frees, place_owns};

use std::alloc::Global;
use std::marker::Model;
use std::ptr::null_mut;
use std_alloc::room::Vacant;

/// A block of the heap for a value, which it hasn't. It is freed by `free` alone.
pub struct Space<T> {
    at: *mut T,
}

impl<T> Model for Space<T> {
    ghost also_owns = { λ s. vacant frees T.row s.at };
}

unsafe impl<T> Send for Space<T> {}

impl<T> Space<T> {
    /// A block, or none where there is no memory.
    pub fn new(alloc: Global) -> Option<Space<T>> {
        match Vacant::take(alloc) {
            Ok(room) => Some(Space::of(room)),
            Err(_) => None,
        }
    }

    /// Frees the block.
    pub fn free(self, alloc: Global) {
        drop(self.into_room(alloc).free());
    }

    fn of(room: Vacant<T, Global>) -> Space<T> {
        let Vacant { ptr, alloc: _ } = room;
        Space { at: ptr }
    }

    fn into_room(self, alloc: Global) -> Vacant<T, Global> {
        let Space { at: ptr } = self;
        Vacant { ptr, alloc }
    }
}

/// Null, or the place of a box.
pub struct Owned<T> {
    pub at: *mut T,
    pub ghost held: { Maybe T } by { coded_option T.code },
}

impl<T> Model for Owned<T> {
    ghost also_owns = { λ h. place_owns T.row h.at h.held };
}

impl<T> Owned<T> {
    pub fn empty() -> Owned<T>
        ensures { result.held ≡ None }
    {
        Owned { at: null_mut() }
    }

    pub fn of(value: Box<T, Global>) -> Owned<T>
    where
        T: Drop,
        ensures { result.held ≡ Some value.value }
    {
        Owned {
            at: Box::into_raw(value),
        }
    }

    // The box of a value in a block that holds none.
    fn fill(room: Vacant<T, Global>, value: T) -> Owned<T>
        ensures { result.held ≡ Some value }
    {
        let Vacant { ptr, alloc: _ } = room;
        unsafe {
            ptr.write(value);
        }
        Owned { at: ptr }
    }

    pub fn into_box(self, alloc: Global) -> Option<Box<T, Global>>
        ensures { MatchOption result (self.held ≡ None) (λ b. self.held ≡ Some b.value) }
    {
        let Owned { at } = self;
        if at.is_null() {
            return None;
        }
        Some(unsafe { Box::from_raw(alloc, at) })
    }

    // The value, out of its block, which holds none then.
    fn open(self, alloc: Global) -> Option<(T, Vacant<T, Global>)>
        ensures { MatchOption result (self.held ≡ None) (λ both. self.held ≡ Some both.0) }
    {
        let Owned { at: ptr } = self;
        if ptr.is_null() {
            return None;
        }
        let value = unsafe { ptr.read() };
        Some((value, Vacant { ptr, alloc }))
    }
}

/// A handle: what C holds, which leads to a box or to none.
pub trait Holds<T> {
    ghost held: { Self → Maybe T };

    /// Puts `new` in the place, and hands out what was there.
    fn exchange(&mut self, new: Owned<T>) -> Owned<T>
        ensures was { result.held ≡ held self.old }
        ensures is { held self.new ≡ new.held };
}

/// Takes what is there.
pub fn take<H: Holds<T>, T>(handle: &mut H, alloc: Global) -> Option<Box<T, Global>>
    ensures taken { MatchOption result (H.held handle.old ≡ None) (λ b. H.held handle.old ≡ Some b.value) }
    ensures left { H.held handle.new ≡ None }
{
    handle.exchange(Owned::empty()).into_box(alloc)
}

/// Takes the value that is there, and the block in which it was.
pub fn take_out<H: Holds<T>, T>(handle: &mut H, alloc: Global) -> Option<(T, Space<T>)>
    ensures taken { MatchOption result (H.held handle.old ≡ None)
        (λ both. H.held handle.old ≡ Some both.0) }
    ensures left { H.held handle.new ≡ None }
{
    match handle.exchange(Owned::empty()).open(alloc) {
        Some((value, room)) => Some((value, Space::of(room))),
        None => None,
    }
}

/// Puts a value there, and ends what was.
pub fn put<H: Holds<T>, T: Drop>(handle: &mut H, alloc: Global, value: Box<T, Global>)
    ensures { H.held handle.new ≡ Some value.value }
{
    drop(handle.exchange(Owned::of(value)).into_box(alloc));
}

/// Puts a value there, in a block that holds none, and ends what was. It needs no memory, so who has
/// the block beforehand can't be refused.
pub fn put_in<H: Holds<T>, T: Drop>(handle: &mut H, alloc: Global, space: Space<T>, value: T)
    ensures { H.held handle.new ≡ Some value }
{
    drop(
        handle
            .exchange(Owned::fill(space.into_room(alloc), value))
            .into_box(alloc),
    );
}
