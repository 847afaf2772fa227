//! All stripes of a table out of their slots, in one list.
ghost use Rattle.std.specs.Prelude.{◌≡◌, ◌≤◌, ◌^◌, [], map, reverse, vec_capacity};
ghost use Rattle.ck_model.specs.Counting.{counting};
ghost use Rattle.ck_words.specs.Passes.{EachOf, IsPassOf, slot_of, stripes_in, held_in, numbers_of};
ghost use Rattle.ck_words.specs.Lifting.{emptied};

use crate::pass::Pass;
use crate::reserved_list::ReservedList;
use crate::rule::{Board, StripeSeat};
use crate::visits::turn_by;
use crate::words::Words;
use ck_key::TableKey;
use ck_stripe::{Emptied, Held, Stripe, Visitor};
use std::marker::Model;

/// All stripes of a table, which one caller holds, in one list in rising order of their numbers.
/// They stand out of their slots until `Words::lower` puts them back; it can't be dropped.
/// Contracts see what they see of the caller's pass.
pub struct Whole<K: TableKey, V> {
    pub(crate) seat: StripeSeat<K, V>,
    /// The stripes.
    pub stripes: ReservedList<Stripe<K, V>>,
    // As the pass had it.
    pub(crate) emptied: Option<Emptied<K, V>>,
}

impl<K: TableKey, V> Model for Whole<K, V> {
    ghost use Rattle.ck_words.specs.Passes.{PassState};
    ghost use Rattle.ck_words.specs.Lifting.{IsEmptied};

    ghost Value = { PassState V };

    ghost view = { λ w. record {
      table = w.seat.table_id;
      view = w.seat.me.0;
      stripes = w.stripes.list.items;
    } };

    ghost invariant = { λ w. IsEmptied w.seat.table_id w.seat.me };
}

impl<K: TableKey + Drop, V: Drop> Held<Stripe<K, V>> for Whole<K, V> {
    ghost use Rattle.std.specs.Prelude.{◌≡◌};

    ghost stripes = { λ w. w.stripes };

    ghost stays = { λ w u. (u.table ≡ w.table) × (u.view ≡ w.view) };

    fn count(&self) -> usize {
        self.stripes.as_slice().len()
    }

    fn number(&mut self, i: usize) -> u32 {
        self.stripes.as_slice()[i].number()
    }

    fn visit<W: Visitor<Stripe<K, V>>>(&mut self, i: usize, visitor: W) -> W::Answer {
        let stripes = self.stripes.as_mut_slice();
        visitor.visit(&mut stripes[i])
    }

    ghost use Rattle.std.proofs.Common.{refl, ◌∙◌};

    ghost stays_same = { λ w. (refl, refl) };

    ghost stays_on = { λ w u t e f. (f.0 ∙ e.0, f.1 ∙ e.1) };
}

impl<K: TableKey + Drop, V: Drop> Words<K, V> {
    /// Moves all stripes, which the pass holds, out of their slots into one list. It takes no
    /// memory.
    pub fn lift(&self, pass: Pass<K, V>) -> Whole<K, V>
        requires own { IsPassOf self.now pass }
        requires numbered { numbers_of pass.stripes ≡ counting 0 (2 ^ self.now.settings.s) }
        ensures { result ≡ pass }
    {
        let Pass {
            mut seat,
            mut room,
            emptied,
        } = pass;
        let shared = &self.table.shared;
        take_out(shared, &mut seat, self.table.slot_count(), &mut room);
        Whole {
            seat,
            stripes: room,
            emptied,
        }
    }

    /// Moves all stripes back into their slots.
    pub fn lower(&self, whole: Whole<K, V>) -> Pass<K, V>
        requires own { IsPassOf self.now whole }
        requires numbered { numbers_of whole.stripes ≡ counting 0 (2 ^ self.now.settings.s) }
        requires of_table { EachOf self.now.settings.s whole.stripes }
        ensures { result ≡ whole }
    {
        let Whole {
            mut seat,
            mut stripes,
            emptied,
        } = whole;
        let shared = &self.table.shared;
        put_back(shared, &mut seat, self.table.slot_count(), &mut stripes);
        Pass {
            seat,
            room: stripes,
            emptied,
        }
    }
}

// Takes the stripes out of the slots of a seat that has all, those of the lowest numbers first. The
// seat keeps the slots with nothing in them.
fn take_out<K: TableKey + Drop, V: Drop>(
    shared: &Board<K, V>,
    seat: &mut StripeSeat<K, V>,
    count: usize,
    list: &mut ReservedList<Stripe<K, V>>,
)
    requires own { seat.old.table_id ≡ shared.now.table_id }
    requires full { seat.old.me.1 ≡ map slot_of (stripes_in seat.old.me.1) }
    requires numbered { numbers_of (held_in seat.old.me.1) ≡ counting 0 count }
    requires empty { list.old.list.items ≡ [] }
    requires room { count ≤ vec_capacity list.old.list }
    ensures table { seat.new.table_id ≡ seat.old.table_id }
    ensures view { seat.new.me.0 ≡ seat.old.me.0 }
    ensures emptied { seat.new.me.1 ≡ emptied (reverse (counting 0 count)) }
    ensures list { list.new.list.items ≡ held_in seat.old.me.1 }
{
    for t in 0..count {
        // The slot of the lowest stripe that is left is the last.
        turn_by(seat, count - 1);
        let Some(stripe) = shared.exchange(seat, t, None) else {
            unreachable!()
        };
        list.push_reserved(stripe);
    }
}

// Puts these stripes into the slots of a seat that has nothing in them.
fn put_back<K: TableKey + Drop, V: Drop>(
    shared: &Board<K, V>,
    seat: &mut StripeSeat<K, V>,
    count: usize,
    list: &mut ReservedList<Stripe<K, V>>,
)
    requires own { seat.old.table_id ≡ shared.now.table_id }
    requires emptied { seat.old.me.1 ≡ emptied (reverse (counting 0 count)) }
    requires numbered { numbers_of list.old.list.items ≡ counting 0 count }
    ensures table { seat.new.table_id ≡ seat.old.table_id }
    ensures view { seat.new.me.0 ≡ seat.old.me.0 }
    ensures full { seat.new.me.1 ≡ map slot_of (reverse list.old.list.items) }
    ensures empty { list.new.list.items ≡ [] }
    ensures capacity { vec_capacity list.new.list ≡ vec_capacity list.old.list }
{
    for t in (0..count).rev() {
        let Some(stripe) = list.pop() else {
            unreachable!()
        };
        shared.exchange(seat, t, Some(stripe));
        seat.turn();
    }
}
