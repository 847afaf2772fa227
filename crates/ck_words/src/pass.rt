//! A caller's token.
use crate::reserved_list::ReservedList;
use crate::rule::StripeSeat;
use ck_key::TableKey;
use ck_stripe::{Emptied, Stripe};
use std::marker::Model;

/// A caller's token. Contracts see what the caller knows, and the stripes that it holds. This
/// ghost part takes no space, so whoever holds stripes keeps their numbers. Its real fields
/// reserve room for all stripes, so locking the table never allocates, and keep what is to be freed.
///
/// It may go to another thread, and can't be cloned.
#[derive(Drop)]
pub struct Pass<K: TableKey, V> {
    pub(crate) seat: StripeSeat<K, V>,
    pub(crate) room: ReservedList<Stripe<K, V>>,
    // What a doubling has emptied of a stripe that it held, to be freed when it holds none.
    pub(crate) emptied: Option<Emptied<K, V>>,
}

impl<K: TableKey, V> Model for Pass<K, V> {
    ghost use Rattle.std.specs.Prelude.{vec_capacity};
    ghost use Rattle.ck_words.specs.Passes.{PassState, state_of, IsReady};

    ghost Value = { PassState V };

    ghost view = { λ p. state_of p.seat.table_id p.seat.me };

    ghost invariant = { λ p. IsReady p.seat.table_id p.seat.me p.room.list.items
        (vec_capacity p.room.list) };
}
