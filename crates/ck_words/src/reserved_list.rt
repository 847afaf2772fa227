//! A list that never takes memory.
ghost use Rattle.std.specs.Prelude.{◌≡◌, ◌≤◌, ◌<◌, ◌+◌, ◌++◌, ◌∷◌, [], IfOk, MatchOption, length, map, vec_len, vec_capacity};
ghost use Rattle.std.specs.Option.{option_to_list};
ghost use Rattle.std.specs.Borrow.{sem};
ghost use Rattle.ck_model.specs.Contents.{pairs_of};
ghost use Rattle.ck_model.specs.Listing.{named};
ghost use Rattle.ck_stripe.specs.Stripes.{contents_of};
ghost use Rattle.ck_stripe.specs.Tables.{AreSettled};
ghost use Rattle.ck_words.specs.Lists.{LendsItems};

use ck_key::TableKey;
use ck_stripe::{Stripe, pour_all};
use std::alloc::{AllocError, Global};

/// A list whose room was reserved. It doesn't hand out its allocator, and has no call that requests
/// more memory.
#[derive(Drop)]
pub struct ReservedList<T> {
    list: Vec<T>,
}

impl<T> ReservedList<T> {
    // An empty one with room for so many.
    pub(crate) fn with_capacity(alloc: Global, count: usize) -> Result<Self, AllocError>
        ensures items { IfOk result (λ it. it.list.items ≡ []) }
        ensures capacity { IfOk result (λ it. count ≤ vec_capacity it.list) }
    {
        let list = Vec::with_capacity(alloc, count)?;
        Ok(ReservedList { list })
    }

    pub(crate) fn push_reserved(&mut self, value: T)
        requires { vec_len self.old.list < vec_capacity self.old.list }
        ensures items { self.new.list.items ≡ self.old.list.items ++ value ∷ [] }
        ensures capacity { vec_capacity self.new.list ≡ vec_capacity self.old.list }
    {
        self.list.push_reserved(value);
    }

    pub(crate) fn pop(&mut self) -> Option<T>
        ensures items { self.old.list.items ≡ self.new.list.items ++ option_to_list result }
        ensures capacity { vec_capacity self.new.list ≡ vec_capacity self.old.list }
        ensures cases { MatchOption result
            ((vec_len self.old.list ≡ 0) × (vec_len self.new.list ≡ 0))
            (λ _. vec_len self.new.list + 1 ≡ vec_len self.old.list) }
    {
        self.list.pop()
    }

    /// What is in it.
    pub fn as_slice(&self) -> &[T]
        ensures value { result.now ≡ self.now.list.items }
        ensures len { length result.now ≡ vec_len self.now.list }
    {
        self.list.as_slice()
    }

    /// The same, to be changed in its place.
    pub fn as_mut_slice(&mut self) -> &mut [T]
        ensures* writes_back { sem 𝓛 (LendsItems T.row self.entry result) }
        ensures value { result.now ≡ self.old.list.items }
        ensures len { length result.now ≡ vec_len self.old.list }
    {
        self.list.as_mut_slice()
    }
}

// Pushes the pairs of all stripes into reserved room for them and for four more.
pub(crate) fn pour<K: TableKey + Drop, V: Drop>(
    stripes: ReservedList<Stripe<K, V>>,
    pairs: &mut Vec<(K, V)>,
)
    requires settled { AreSettled stripes.list.items }
    requires room { vec_len pairs.old + length (pairs_of (contents_of stripes.list.items)) + 4
        ≤ vec_capacity pairs.old }
    ensures { map (named K.name) pairs.new.items
        ≡ map (named K.name) pairs.old.items ++ pairs_of (contents_of stripes.list.items) }
{
    pour_all(stripes.list, pairs);
}
