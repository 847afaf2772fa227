//! An iterator over the pairs of one stripe.
ghost use Rattle.std.specs.Prelude.{◌≡◌, ◌*◌, flat_map};
ghost use Rattle.std.specs.Iterator.{YieldsFirstBy, item_count};
ghost use Rattle.ck_model.specs.Listing.{named};
ghost use Rattle.ck_model.specs.Slots.{taken_in};
ghost use Rattle.ck_stripe.specs.Iter.{HasSlots};

use ck_bucket::Rows;
use ck_key::TableKey;
use std::iter::FusedIterator;
use std::marker::Model;

/// The pairs of a stripe, in the order of rows and slots. Contracts see those that are left.
#[derive(Drop)]
pub struct Iter<'a, K: TableKey, V> {
    rows: &'a Rows<K, V>,
    // The slots of all rows are counted through: number `i` is slot `i % 4` of row `i / 4`. This is
    // the next one.
    slot: usize,
    // How many they are.
    count: usize,
}

impl<'a, K: TableKey, V> Model for Iter<'a, K, V> {
    ghost use Rattle.std.specs.Prelude.{List};
    ghost use Rattle.ck_model.specs.Promise.{Name};
    ghost use Rattle.ck_stripe.specs.Iter.{pairs_from, HasSlots};

    ghost Value = { List (Name × V) };

    ghost view = { λ it. pairs_from it.slot it.rows.now };

    ghost invariant = { λ it. HasSlots it.rows.now it.count };
}

impl<'a, K: TableKey, V> Iter<'a, K, V> {
    // The pairs of rows that have so many slots.
    pub(crate) fn new(rows: &'a Rows<K, V>, count: usize) -> Self
        requires { HasSlots rows.now count }
        ensures { result ≡ flat_map taken_in rows.now }
    {
        Iter {
            rows,
            slot: 0,
            count,
        }
    }
}

impl<'a, K: TableKey, V> Iterator for Iter<'a, K, V> {
    type Item = &'a (K, V);

    ghost next_gives = { YieldsFirstBy (λ pair. named K.name pair.now) (λ left. left) };

    ghost remaining = { item_count (λ left. left) };

    fn next(&mut self) -> Option<&'a (K, V)> {
        while self.slot < self.count {
            let slot = self.slot;
            self.slot += 1;
            if let Some(pair) = self.rows.get(slot / 4, slot % 4) {
                return Some(pair);
            }
        }
        None
    }
}

impl<'a, K: TableKey, V> FusedIterator for Iter<'a, K, V> {}
