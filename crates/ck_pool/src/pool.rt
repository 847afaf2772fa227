//! Callers that threads share, for a program that doesn't know its threads when it opens the table.
ghost use Rattle.std.specs.Prelude.{◌≡◌, IfOk, IfErr, vec_len};

use std::alloc::Global;
use std::fmt::{self, Debug, Formatter};
use std::marker::Model;
use std::sync::{Mutex, MutexGuard};
use thiserror::Error;

/// Items, as the callers of a table, of which each is lent to one thread at a time. Threads share it
/// by reference.
///
/// An item that was lent is back when the guard that `lend` gave is dropped, so the pool has as many
/// as it was made of. Contracts see how many these are; of an item that is lent they know what its
/// type says. A pool knows nothing of what it lends, so it makes no call of a table.
#[derive(Drop)]
pub struct Pool<T> {
    // From the last item to the first.
    places: Vec<Mutex<T>>,
}

impl<T> Model for Pool<T> {
    ghost use Rattle.std.specs.Prelude.{ℕ, vec_len};

    ghost Value = { ℕ };

    ghost view = { λ p. vec_len p.places };
}

impl<T: Drop> Pool<T> {
    /// A pool of these items. Where there is no memory for it, they come back.
    ///
    /// ```
    /// let pool = Pool::new(alloc, table.callers(alloc, passes)?)?;
    /// ```
    pub fn new(alloc: Global, items: Vec<T>) -> Result<Pool<T>, NoPool<T>>
        ensures count { IfOk result (λ pool. pool ≡ vec_len items) }
        ensures back { IfErr result (λ back. back.items ≡ items) }
    {
        let Ok(mut places) = Vec::with_capacity(alloc, items.len()) else {
            return Err(NoPool { items });
        };
        let mut list = items;
        while let Some(item) = list.pop() {
            places.push_reserved(Mutex::new(item));
        }
        Ok(Pool { places })
    }

    /// How many items the pool has.
    pub fn len(&self) -> usize
        ensures { result ≡ self.now }
    {
        self.places.len()
    }

    /// Lends an item, until the guard is dropped. It waits for none: refused, it found each item
    /// lent.
    ///
    /// ```
    /// let mut caller = pool.lend()?;
    /// let fresh = caller.upsert(NumKey(5), |value| value.saturating_add(1), 50)?;
    /// ```
    pub fn lend(&self) -> Result<MutexGuard<'_, T>, AllLent> {
        for place in &self.places {
            if let Some(item) = place.try_lock() {
                return Ok(item);
            }
        }
        Err(AllLent)
    }

    /// The items, as many as the pool was made of, in the same order. Where there is no memory for
    /// the list, the pool comes back.
    ///
    /// ```
    /// let callers = pool.into_vec(alloc)?;
    /// ```
    pub fn into_vec(self, alloc: Global) -> Result<Vec<T>, NoList<T>>
        ensures count { IfOk result (λ items. vec_len items ≡ self) }
        ensures back { IfErr result (λ back. back.pool ≡ self) }
    {
        let Ok(mut items) = Vec::with_capacity(alloc, self.places.len()) else {
            return Err(NoList { pool: self });
        };
        let Pool { places } = self;
        let mut places = places;
        while let Some(place) = places.pop() {
            items.push_reserved(place.into_inner());
        }
        Ok(items)
    }
}

/// Each item of the pool was found lent.
#[derive(Debug, Clone, Copy, PartialEq, Eq, Error)]
#[error("all items of the pool are lent: try again, or make it of more")]
pub struct AllLent;

/// There is no memory for a pool; what it was to lend comes back.
#[derive(Drop, Error)]
#[error("no memory for the pool")]
pub struct NoPool<T> {
    /// The items of which the pool was to be made.
    pub items: Vec<T>,
}

impl<T> Debug for NoPool<T> {
    fn fmt<W: fmt::Write>(&self, f: &mut Formatter<W>) -> fmt::Result {
        f.debug_struct("NoPool").finish_non_exhaustive()
    }
}

/// There is no memory for the list of a pool's items; the pool comes back.
#[derive(Drop, Error)]
#[error("no memory for the list of what the pool lends")]
pub struct NoList<T> {
    /// The pool, with all its items.
    pub pool: Pool<T>,
}

impl<T> Debug for NoList<T> {
    fn fmt<W: fmt::Write>(&self, f: &mut Formatter<W>) -> fmt::Result {
        f.debug_struct("NoList").finish_non_exhaustive()
    }
}
