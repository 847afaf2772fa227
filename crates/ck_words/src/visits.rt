//! A visit of one of the stripes that a seat holds, in its slot. A seat lends the slot that it has
//! first, so its slots are turned until that is the one, and then on until they are in their old
//! order. A seat has no bytes, so a turn costs nothing, and what finds the slot is the stripe's
//! number.
ghost use Rattle.std.specs.Prelude.{◌≡◌};
ghost use Rattle.atomic_table.specs.Seated.{TableId};
ghost use Rattle.ck_stripe.specs.Stripe.{StripeState};
ghost use Rattle.ck_stripe.specs.Numbered.{IsSame};
ghost use Rattle.ck_stripe.specs.Stripes.{stripe_at};
ghost use Rattle.ck_words.specs.Passes.{rotated, held_in};
ghost use Rattle.ck_words.specs.InPlace.{HoldsAt, Brings, Puts};

use crate::rule::{Board, StripeSeat};
use ck_key::TableKey;
use ck_stripe::{Stripe, Visitor};

// The first `n` slots go behind the others.
#[inline(always)]
pub(crate) fn turn_by<K: TableKey, V>(seat: &mut StripeSeat<K, V>, n: usize)
    ensures table { seat.new.table_id ≡ seat.old.table_id }
    ensures turned { seat.new.me ≡ (seat.old.me.0, rotated n seat.old.me.1) }
{
    for _i in 0..n {
        seat.turn();
    }
}

// Brings stripe `i` of `count` to the front, number `t`.
#[inline(always)]
fn bring<K: TableKey, V>(seat: &mut StripeSeat<K, V>, count: usize, i: usize, t: usize)
    requires { (table : TableId) × HoldsAt table count i t seat.old }
    ensures { Brings i t seat.old seat.new }
{
    let _ = t;
    turn_by(seat, count - 1 - i);
}

// Sends the visitor to stripe `i` of `count`, number `t`.
#[inline(always)]
pub(crate) fn visit_at<K: TableKey + Drop, V: Drop, W: Visitor<Stripe<K, V>>>(
    shared: &Board<K, V>,
    seat: &mut StripeSeat<K, V>,
    count: usize,
    i: usize,
    t: usize,
    visitor: W,
) -> W::Answer
    requires seat { HoldsAt shared.now.table_id count i t seat.old }
    requires may { W.may visitor (stripe_at (held_in seat.old.me.1) i) }
    requires keeps { (r : W.Answer) (after : StripeState V)
        → W.does visitor (stripe_at (held_in seat.old.me.1) i) r after
        → IsSame (λ t. t.number) (λ t. t.s) (stripe_at (held_in seat.old.me.1) i) after }
    ensures { (after : StripeState V)
        × W.does visitor (stripe_at (held_in seat.old.me.1) i) result after
        × Puts i after seat.old seat.new }
{
    bring(seat, count, i, t);
    let Some(stripe) = seat.slot_mut(shared, t) else {
        unreachable!()
    };
    let answer = visitor.visit(stripe);
    turn_by(seat, i + 1);
    answer
}
