//! One hop of a displacement: an entry goes to its other bucket, and no binding changes.
ghost use Rattle.std.specs.Prelude.{◌≡◌, ◌%◌, ◌^◌, ◌<◌, MatchBool};
ghost use Rattle.std.specs.Bool.{OnTrue};
ghost use Rattle.ck_stripe.specs.Stripes.{stripe_at, IsInReach};
ghost use Rattle.ck_model.specs.Arithmetic.{alternate_of};
ghost use Rattle.ck_stripe.specs.Tables.{AreHeld, HasStripe};
ghost use Rattle.ck_stripe.specs.HeldSlots.{slot_in};
ghost use Rattle.ck_section.specs.Hops.{IsHopIn, HasPartial, CanHop, source_in, Hops, IsNoCall};
ghost use Rattle.ck_section.specs.Calls.{ChangesContents};

use crate::look::bucket_index;
use ck_key::TableKey;
use ck_stripe::{Held, HeldSlot, Stripe, one_stripe};

/// A hop, as a search of a table of 2^power buckets saw it: the entry of this partial in this slot
/// of bucket `bucket` goes to its other bucket, `target`.
#[derive(Clone, Copy, Debug, PartialEq, Eq)]
pub struct Hop {
    pub power: u32,
    pub bucket: u64,
    pub slot: usize,
    pub partial: u8,
    pub target: u64,
}

/// Carries out a hop from stripe `from` to stripe `to` of those that are held, and says whether it
/// did.
///
/// It doesn't where the table has another power by now, where the slot has no entry of the partial,
/// or where the target has no free slot; then nothing has changed.
pub(crate) fn move_entry<K: TableKey + Drop, V: Drop, H: Held<Stripe<K, V>>>(
    held: &mut H,
    from: usize,
    to: usize,
    hop: Hop,
) -> bool
    requires { IsHopIn (H.stripes held.old) from to hop }
    ensures exactly { MatchBool result (CanHop K.hash (H.stripes held.old) from to hop)
        (¬ (CanHop K.hash (H.stripes held.old) from to hop)) }
    ensures moved { MatchBool result (Hops (H.stripes held.old) from to hop (H.stripes held.new))
        (H.stripes held.new ≡ H.stripes held.old) }
    ensures no_call { IsNoCall K.hash (stripe_at (H.stripes held.old) from).s
        (H.stripes held.old) (H.stripes held.new) }
    ensures rest { ChangesContents (H.stripes held.old) (H.stripes held.new) }
    ensures stays { H.stays held.old held.new }
{
    if one_stripe::power(held, from) != hop.power {
        return false;
    }
    if !has_partial(held, from, hop) {
        return false;
    }
    let Some(slot) = one_stripe::free(held, to, hop.target) else {
        return false;
    };
    let source = HeldSlot {
        index: from,
        bucket: hop.bucket,
        slot: hop.slot,
    };
    let target = HeldSlot {
        index: to,
        bucket: hop.target,
        slot,
    };
    let (key, value) = one_stripe::remove(held, source);
    one_stripe::put(held, target, hop.partial, key, value);
    true
}

/// Carries out a hop among held stripes of a table of 2^s, as `move_entry` does between two of
/// them.
pub fn make_hop<K: TableKey + Drop, V: Drop, H: Held<Stripe<K, V>>>(
    held: &mut H,
    s: u32,
    hop: Hop,
) -> bool
    requires held { AreHeld s (H.stripes held.old) }
    requires below { hop.bucket < 2 ^ hop.power }
    requires target { hop.target ≡ alternate_of hop.power hop.partial hop.bucket }
    requires source_owned { HasStripe (H.stripes held.old) (hop.bucket % 2 ^ s) }
    requires target_owned { HasStripe (H.stripes held.old) (hop.target % 2 ^ s) }
    ensures hopped { (i j : _) × IsHopIn (H.stripes held.old) i j hop
        × MatchBool result (CanHop K.hash (H.stripes held.old) i j hop)
        (¬ (CanHop K.hash (H.stripes held.old) i j hop))
        × MatchBool result (Hops (H.stripes held.old) i j hop (H.stripes held.new))
        (H.stripes held.new ≡ H.stripes held.old) }
    ensures no_call { IsNoCall K.hash s
        (H.stripes held.old) (H.stripes held.new) }
    ensures rest { ChangesContents (H.stripes held.old) (H.stripes held.new) }
    ensures stays { H.stays held.old held.new }
{
    let from = bucket_index(held, s, hop.bucket);
    let to = bucket_index(held, s, hop.target);
    move_entry(held, from, to, hop)
}

// Whether the slot has an entry of the hop's partial.
fn has_partial<K: TableKey + Drop, V: Drop, H: Held<Stripe<K, V>>>(
    held: &mut H,
    from: usize,
    hop: Hop,
) -> bool
    requires { IsInReach (H.stripes held.old) from hop.bucket }
    ensures value { MatchBool result
        (HasPartial K.hash (slot_in (H.stripes held.old) (source_in from hop)) hop.partial)
        (¬ (HasPartial K.hash (slot_in (H.stripes held.old) (source_in from hop)) hop.partial)) }
    ensures below { OnTrue result (hop.slot < 4) }
    ensures same { H.stripes held.new ≡ H.stripes held.old }
    ensures stays { H.stays held.old held.new }
{
    let sketch = one_stripe::sketch(held, from, hop.bucket);
    sketch.get(hop.slot).copied().flatten() == Some(hop.partial)
}
