//! The pairs of all stripes of a table, held as one slice, are taken out.
ghost use Rattle.std.specs.Prelude.{◌≡◌, ℕ, ◌+◌, ◌≤◌, ◌++◌, OnOk, OnErr, IfOk, length, map, vec_len, vec_capacity};
ghost use Rattle.ck_model.specs.Listing.{named, ListsInOrder};
ghost use Rattle.ck_model.specs.Contents.{layout, Lawful, pairs_of, bindings};
ghost use Rattle.ck_stripe.specs.Stripes.{contents_of};
ghost use Rattle.ck_section.specs.Calls.{ChangesContents};
ghost use Rattle.ck_stripe.specs.Tables.{IsTable, AreSettled};
ghost use Rattle.ck_section.specs.Clearing.{ClearsBindings};

use crate::listing::sort_pairs;
use ck_key::TableKey;
use ck_stripe::{Stripe, entries};
use std::alloc::{AllocError, Global};

/// Takes out all keys with their values, in rising order of the keys. It makes one request for
/// memory; refused, nothing changed.
pub fn drain_all<K: TableKey + Drop, V: Drop>(
    alloc: Global,
    stripes: &mut [Stripe<K, V>],
) -> Result<Vec<(K, V)>, AllocError>
    requires table { (s : ℕ) × IsTable s stripes.old }
    requires settled { AreSettled stripes.old }
    ensures pairs { IfOk result (λ pairs. (s max : ℕ)
        → Lawful (layout K.hash s max) (contents_of stripes.old)
        → ListsInOrder K.name K.cmp pairs.items (bindings (contents_of stripes.old))) }
    ensures cleared { OnOk result ((s max : ℕ) → IsTable s stripes.old
        → ClearsBindings (layout K.hash s max) stripes.old stripes.new) }
    ensures changes { OnOk result (ChangesContents stripes.old stripes.new) }
    ensures same { OnErr result (stripes.new ≡ stripes.old) }
{
    // A bucket is poured where there is room for four more.
    let room = entries(stripes) + 4;
    let mut pairs = Vec::with_capacity(alloc, room)?;
    drain_reserved(stripes, &mut pairs);
    sort_pairs(&mut pairs);
    Ok(pairs)
}

// Moves the pairs of all stripes into reserved room for them and for four more.
fn drain_reserved<K: TableKey + Drop, V: Drop>(
    stripes: &mut [Stripe<K, V>],
    pairs: &mut Vec<(K, V)>,
)
    requires settled { AreSettled stripes.old }
    requires room { vec_len pairs.old + length (pairs_of (contents_of stripes.old)) + 4
        ≤ vec_capacity pairs.old }
    ensures pairs { map (named K.name) pairs.new.items
        ≡ map (named K.name) pairs.old.items ++ pairs_of (contents_of stripes.old) }
    ensures cleared { (s max : ℕ) → IsTable s stripes.old
        → ClearsBindings (layout K.hash s max) stripes.old stripes.new }
    ensures changes { ChangesContents stripes.old stripes.new }
{
    for i in 0..stripes.len() {
        stripes[i].drain_reserved(pairs);
    }
}
