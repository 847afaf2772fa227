//! Several stripes, one after another: their doublings that are left, how many entries they have,
//! and their pairs.
ghost use Rattle.std.specs.Prelude.{◌≡◌, ◌⊎◌, ℕ, ◌+◌, ◌^◌, ◌<◌, ◌≤◌, ◌++◌, MatchBool, length, map, vec_len, vec_capacity};
ghost use Rattle.ck_model.specs.declared.history.Call.TheVariants.{Len};
ghost use Rattle.ck_model.specs.declared.history.Reply.TheVariants.{Count};
ghost use Rattle.ck_model.specs.Contents.{layout, Lawful, pairs_of};
ghost use Rattle.ck_model.specs.Listing.{named};
ghost use Rattle.ck_model.specs.Sections.{Section};
ghost use Rattle.ck_stripe.specs.Stripes.{contents_of, settled_stripes};
ghost use Rattle.ck_stripe.specs.Tables.{AreSettled, IsTable};

use crate::held::Held;
use crate::one_stripe;
use crate::stripe::Stripe;
use ck_key::TableKey;

/// Carries out the doublings that are left of the held stripes.
pub fn settle_all<K: TableKey + Drop, V: Drop, H: Held<Stripe<K, V>>>(held: &mut H)
    ensures settled { H.stripes held.new ≡ settled_stripes (H.stripes held.old) }
    ensures stays { H.stays held.old held.new }
{
    for i in 0..held.count() {
        one_stripe::settle(held, i);
    }
}

/// The number of entries of a table of 2^s stripes, which are counted.
pub fn len<K: TableKey + Drop, V: Drop, H: Held<Stripe<K, V>>>(held: &mut H, s: u32) -> u64
    requires { IsTable s (H.stripes held.old) }
    ensures value { result ≡ length (pairs_of (contents_of (H.stripes held.old))) }
    ensures few { result ≤ 2 ^ 38 }
    ensures call { (max : ℕ) → Lawful (layout K.hash s max) (contents_of (H.stripes held.old))
        → Section (layout K.hash s max) (contents_of (H.stripes held.old)) Len (Count result)
        (contents_of (H.stripes held.new)) }
    ensures same { H.stripes held.new ≡ H.stripes held.old }
    ensures stays { H.stays held.old held.new }
{
    count(held, s, u64::MAX)
}

/// Whether a table of 2^s stripes has at least so many entries. No more stripes are counted than it
/// takes to know.
pub fn has_entries<K: TableKey + Drop, V: Drop, H: Held<Stripe<K, V>>>(
    held: &mut H,
    s: u32,
    least: u64,
) -> bool
    requires { IsTable s (H.stripes held.old) }
    ensures value { MatchBool result
        (least ≤ length (pairs_of (contents_of (H.stripes held.old))))
        (length (pairs_of (contents_of (H.stripes held.old))) < least) }
    ensures same { H.stripes held.new ≡ H.stripes held.old }
    ensures stays { H.stays held.old held.new }
{
    least <= count(held, s, least)
}

// The number of entries of a table of 2^s stripes, or of so many of them that they are enough.
fn count<K: TableKey + Drop, V: Drop, H: Held<Stripe<K, V>>>(
    held: &mut H,
    s: u32,
    enough: u64,
) -> u64
    requires { IsTable s (H.stripes held.old) }
    ensures value { (result ≡ length (pairs_of (contents_of (H.stripes held.old))))
        ⊎ ((enough ≤ result)
        × (result ≤ length (pairs_of (contents_of (H.stripes held.old))))) }
    ensures few { result ≤ 2 ^ 38 }
    ensures same { H.stripes held.new ≡ H.stripes held.old }
    ensures stays { H.stays held.old held.new }
{
    let mut entries = 0;
    for i in 0..1usize << s {
        if enough <= entries {
            return entries;
        }
        entries += one_stripe::len(held, i);
    }
    entries
}

/// The number of entries of at most 2^10 stripes.
pub fn entries<K: TableKey + Drop, V: Drop>(stripes: &[Stripe<K, V>]) -> usize
    requires { length stripes.now ≤ 2 ^ 10 }
    ensures value { result ≡ length (pairs_of (contents_of stripes.now)) }
    ensures few { result ≤ 2 ^ 38 }
{
    let mut entries = 0;
    for stripe in stripes {
        entries += stripe.len() as usize;
    }
    entries
}

/// Pushes the pairs of all stripes into reserved room for them and for four more.
pub fn pour_all<K: TableKey + Drop, V: Drop>(stripes: Vec<Stripe<K, V>>, pairs: &mut Vec<(K, V)>)
    requires settled { AreSettled stripes.items }
    requires room { vec_len pairs.old + length (pairs_of (contents_of stripes.items)) + 4
        ≤ vec_capacity pairs.old }
    ensures { map (named K.name) pairs.new.items
        ≡ map (named K.name) pairs.old.items ++ pairs_of (contents_of stripes.items) }
{
    for stripe in stripes {
        stripe.pour_reserved(pairs);
    }
}
