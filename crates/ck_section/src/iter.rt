//! An iterator over the pairs of all stripes of a table.
ghost use Rattle.std.specs.Prelude.{◌≡◌, ◌<◌, length};
ghost use Rattle.std.specs.Iterator.{YieldsFirstBy, item_count};
ghost use Rattle.ck_model.specs.Contents.{pairs_of};
ghost use Rattle.ck_stripe.specs.Stripes.{contents_of};
ghost use Rattle.ck_stripe.specs.Tables.{AreSettled};

use ck_key::TableKey;
use ck_stripe::Stripe;
use std::iter::FusedIterator;
use std::marker::Model;

/// All keys of a table with their values, in no particular order. It takes no memory. Contracts see
/// the pairs that are left, with names in place of keys.
///
/// ```
/// for (key, value) in locked.iter() {
///     println!(rt; "{key:?}: {value}")?;
/// }
/// ```
#[derive(Drop)]
pub struct Iter<'a, K: TableKey, V> {
    // What is left of one stripe.
    pairs: ck_stripe::Iter<'a, K, V>,
    // The stripes behind it.
    stripes: &'a [Stripe<K, V>],
}

impl<'a, K: TableKey, V> Model for Iter<'a, K, V> {
    ghost use Rattle.std.specs.Prelude.{List, ◌++◌};
    ghost use Rattle.ck_model.specs.Promise.{Name};
    ghost use Rattle.ck_model.specs.Contents.{pairs_of};
    ghost use Rattle.ck_stripe.specs.Stripes.{contents_of};
    ghost use Rattle.ck_stripe.specs.Tables.{AreSettled};

    ghost Value = { List (Name × V) };

    ghost view = { λ it. it.pairs ++ pairs_of (contents_of it.stripes.now) };

    ghost invariant = { λ it. AreSettled it.stripes.now };
}

impl<'a, K: TableKey + Drop, V: Drop> Iter<'a, K, V> {
    /// The pairs of these stripes.
    pub fn new(stripes: &'a [Stripe<K, V>]) -> Self
        requires some { 0 < length stripes.now }
        requires settled { AreSettled stripes.now }
        ensures { result ≡ pairs_of (contents_of stripes.now) }
    {
        match stripes.split_first() {
            Some((stripe, stripes)) => Iter {
                pairs: stripe.iter(),
                stripes,
            },
            None => unreachable!(),
        }
    }
}

impl<'a, K: TableKey + Drop, V: Drop> Iterator for Iter<'a, K, V> {
    type Item = (&'a K, &'a V);

    ghost next_gives = { YieldsFirstBy (λ pair. (K.name pair.0.now, pair.1.now)) (λ left. left) };

    ghost remaining = { item_count (λ left. left) };

    fn next(&mut self) -> Option<(&'a K, &'a V)> {
        loop {
            if let Some((key, value)) = self.pairs.next() {
                return Some((key, value));
            }
            let (stripe, stripes) = self.stripes.split_first()?;
            self.pairs = stripe.iter();
            self.stripes = stripes;
        }
    }
}

impl<'a, K: TableKey + Drop, V: Drop> FusedIterator for Iter<'a, K, V> {}
