//! How a table and its passes begin.
ghost use Rattle.std.specs.Prelude.{◌≡◌, ◌≤◌, ◌^◌, [], ◌∷◌, ℕ, IfOk, OnOk, OnErr, List};
ghost use Rattle.ck_model.specs.Ranges.{AreInRange};
ghost use Rattle.ck_model.specs.declared.history.Entry.{Entry};
ghost use Rattle.ck_words.specs.Rule.{first_view};
ghost use Rattle.ck_model.specs.Counting.{counting};
ghost use Rattle.ck_words.specs.Plays.{opened, begun};
ghost use Rattle.ck_words.specs.Opening.{fresh_slots};
ghost use Rattle.ck_words.specs.Passes.{IsPassOf, IsIdle};
ghost use Rattle.ck_words.specs.Closing.{dealt, AreAllPasses};

use crate::pass::Pass;
use crate::reserved_list::ReservedList;
use crate::words::Words;
use atomic_table::{Split, Table};
use ck_core::known::Known;
use ck_key::TableKey;
use ck_model::settings::Settings;
use ck_stripe::Stripe;
use std::alloc::{AllocError, Global};

/// A caller begins, with a number that nobody has used.
pub struct Open;

impl<V> Split<Known<V>> for Open {
    ghost use Rattle.ck_words.specs.Plays.{opened, begun};

    ghost left = { opened };

    ghost right = { begun };
}

// A slot with an empty stripe for each stripe.
fn open_slots<K: TableKey + Drop, V: Drop>(
    alloc: Global,
    settings: Settings,
) -> Result<Vec<Option<Stripe<K, V>>>, AllocError>
    requires { AreInRange settings }
    ensures { IfOk result (λ slots. slots.items ≡ fresh_slots settings (2 ^ settings.s)) }
{
    let count = 1u32 << settings.s;
    let mut slots = Vec::with_capacity(alloc, count as usize)?;
    for number in 0..count {
        let stripe = Stripe::open(alloc, settings.s, number, settings.power)?;
        slots.push(Some(stripe))?;
    }
    Ok(slots)
}

impl<K: TableKey + Drop, V: Drop> Words<K, V> {
    /// A table of empty stripes, and its first pass. It has the number 0, and keeps the numbers of
    /// the other callers. It is refused only for want of memory.
    pub(crate) fn open(
        alloc: Global,
        settings: Settings,
    ) -> Result<(Words<K, V>, Pass<K, V>), AllocError>
        requires { AreInRange settings }
        ensures settings { IfOk result (λ r. r.0.settings ≡ settings) }
        ensures pass { IfOk result (λ r. IsPassOf r.0 r.1) }
        ensures idle { IfOk result (λ r. IsIdle r.1) }
        ensures view { IfOk result (λ r. r.1.view ≡ first_view settings) }
    {
        let count = 1usize << settings.s;
        let words = Vec::from_elem(alloc, 0u64, count * 8)?;
        let slots = open_slots(alloc, settings)?;
        let room = ReservedList::with_capacity(alloc, slots.len())?;
        let Ok((table, seat)) = Table::new(alloc, words.as_slice(), slots, &settings) else {
            return Err(AllocError);
        };
        Ok((
            Words { table, settings },
            Pass {
                seat,
                room,
                emptied: None,
            },
        ))
    }

    /// A table of empty stripes, and the passes of all callers in the order of their numbers. They
    /// have seen nothing. It is refused only for want of memory.
    pub fn open_all(
        alloc: Global,
        settings: Settings,
    ) -> Result<(Words<K, V>, Vec<Pass<K, V>>), AllocError>
        requires { AreInRange settings }
        ensures settings { IfOk result (λ r. r.0.settings ≡ settings) }
        ensures passes { IfOk result (λ r.
            r.1.items ≡ dealt r.0.table settings (counting 0 settings.callers)) }
        ensures all { IfOk result (λ r. AreAllPasses r.0 r.1.items) }
    {
        let mut passes = Vec::with_capacity(alloc, settings.callers as usize)?;
        let (words, first) = Words::open(alloc, settings)?;
        passes.push(first)?;
        for _i in 1..settings.callers {
            let pass = words.deal(alloc, &mut passes[0])?;
            passes.push(pass)?;
        }
        Ok((words, passes))
    }

    /// One more pass, with the first of the numbers that the pass `first` keeps, which has tried to
    /// take no stripe. It has seen nothing, and was told the power that `first` was told. It is
    /// refused only for want of memory, and then `first` is unchanged.
    pub(crate) fn deal(
        &self,
        alloc: Global,
        first: &mut Pass<K, V>,
    ) -> Result<Pass<K, V>, AllocError>
        requires own { IsPassOf self.now first.old }
        requires kept { (m : ℕ) × (others : List (ℕ × List (Entry V)))
            × (first.old.view.others ≡ (m, []) ∷ others) }
        requires new { first.old.view.watched ≡ [] }
        ensures own { IsPassOf self.now first.new }
        ensures pass { IfOk result (IsPassOf self.now) }
        ensures idle { IfOk result IsIdle }
        ensures view { IfOk result (λ pass. pass.view ≡ begun first.old.view) }
        ensures first { OnOk result
            (first.new ≡ record first.old { view = opened first.old.view }) }
        ensures refused { OnErr result (first.new ≡ first.old) }
    {
        let room = ReservedList::with_capacity(alloc, self.table.slot_count())?;
        let seat = self.table.shared.split_seat::<Open>(&mut first.seat);
        Ok(Pass {
            seat,
            room,
            emptied: None,
        })
    }
}
