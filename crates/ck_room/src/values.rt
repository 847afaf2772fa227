//! A value is read, changed in its place, moved in or moved out.
ghost use Rattle.std.specs.Prelude.{◌≡◌, ◌<◌, Some, None, IsSome, length};
ghost use Rattle.std.specs.Prelude.{slice_index_or, slice_set};
ghost use types.Logic.{sem};
ghost use Rattle.ck_room.specs.Lends.{LendsPlace};
ghost use Rattle.ck_room.specs.Room.{items_of, block_of};

use crate::Places;

impl<T> Places<T> {
    /// The value of a place that is full.
    #[inline(always)]
    pub fn get(&self, i: usize) -> &T
        requires full { IsSome (slice_index_or (items_of self.now) i None) }
        ensures value { slice_index_or (items_of self.now) i None ≡ Some result.now }
    {
        unsafe { &*self.ptr.add(i) }
    }

    /// The same, to be changed in its place.
    #[inline(always)]
    pub fn get_mut(&mut self, i: usize) -> &mut T
        requires full { IsSome (slice_index_or (items_of self.old) i None) }
        ensures* writes_back { sem 𝓛 (LendsPlace T.row self.entry i result) }
        ensures value { slice_index_or (items_of self.old) i None ≡ Some result.now }
    {
        unsafe { &mut *self.ptr.add(i) }
    }

    /// Fills an empty place.
    #[inline(always)]
    pub fn put(&mut self, i: usize, value: T)
        requires inside { i < length (items_of self.old) }
        requires empty { slice_index_or (items_of self.old) i None ≡ None }
        ensures items { items_of self.new ≡ slice_set (items_of self.old) i (Some value) }
        ensures block { block_of self.new ≡ block_of self.old }
    {
        unsafe { self.ptr.add(i).write(value) }
    }

    /// Empties a place that is full.
    #[inline(always)]
    pub fn take(&mut self, i: usize) -> T
        requires full { IsSome (slice_index_or (items_of self.old) i None) }
        ensures value { slice_index_or (items_of self.old) i None ≡ Some result }
        ensures items { items_of self.new ≡ slice_set (items_of self.old) i None }
        ensures block { block_of self.new ≡ block_of self.old }
    {
        unsafe { self.ptr.add(i).read() }
    }
}
