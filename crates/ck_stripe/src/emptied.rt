//! What a doubling has left of a stripe.

use crate::next::Next;
use ck_key::TableKey;
use std::marker::Model;

/// The rows that a doubling has emptied, taken out of their stripe. They are freed with it. Contracts
/// see how many rows the stripe has.
pub struct Emptied<K: TableKey, V> {
    pub(crate) count: usize,
    pub(crate) next: Next<K, V>,
}

impl<K: TableKey, V> Model for Emptied<K, V> {
    ghost use Rattle.std.specs.Prelude.{◌≤◌, ◌^◌, ℕ};
    ghost use Rattle.ck_stripe.specs.Next.{IsFor};

    ghost Value = { ℕ };

    ghost view = { λ emptied. emptied.count };

    ghost invariant = { λ emptied. (emptied.count ≤ 2 ^ 26) × IsFor emptied.count emptied.next };
}

impl<K: TableKey, V> Drop for Emptied<K, V> {
    fn drop(self) {
        let Emptied { count, next } = self;
        next.close(count);
    }
}
