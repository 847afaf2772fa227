//! Displacement among all stripes of a table, each held at the index of its number: the search for
//! a path, and its hops.
ghost use Rattle.std.specs.Prelude.{◌≡◌, ◌%◌, ◌^◌, ◌<◌, ◌≤◌, IfSome, IfNone};
ghost use Rattle.ck_key.specs.Hashes.{IsHashOf};
ghost use Rattle.ck_model.specs.Arithmetic.{alternate_of};
ghost use Rattle.ck_model.specs.Slots.{HasFree};
ghost use Rattle.ck_model.specs.Sketches.{HasNoSketchPath};
ghost use Rattle.ck_path.specs.Route.{first_bucket, IsShortestPath};
ghost use Rattle.ck_stripe.specs.Stripes.{bucket_at};
ghost use Rattle.ck_stripe.specs.Tables.{AreAllHeld, power_in};
ghost use Rattle.ck_section.specs.Hops.{CanHop, Hops, IsNoCall};
ghost use Rattle.ck_section.specs.Calls.{ChangesContents};
ghost use Rattle.ck_section.specs.Room.{HaveFour, sketch_of, IsPathFor, IsWithoutPath, IsPathIn};

use crate::hop::{Hop, move_entry};
use ck_key::{KeyHash, TableKey};
use ck_path::{Path, Search};
use ck_stripe::{Held, Stripe, one_stripe};

/// A shortest displacement path that makes room for the key, whose hash the caller has at hand, in
/// a table of 2^s stripes; `None` where there is none of at most four hops. With no hop, a bucket
/// of the key has a free slot.
pub(crate) fn find_path<K: TableKey + Drop, V: Drop, H: Held<Stripe<K, V>>>(
    held: &mut H,
    s: u32,
    _key: &K,
    hash: KeyHash,
) -> Option<Path>
    requires held { AreAllHeld s (H.stripes held.old) }
    requires hash { IsHashOf K.hash (K.name _key.now) hash }
    ensures path { IfSome result
        (IsPathFor K.hash s (H.stripes held.old) (K.name _key.now)) }
    ensures four { IfSome result
        (λ path. HaveFour (sketch_of K.hash s (H.stripes held.old)) path.hops path.end) }
    ensures none { IfNone result
        (IsWithoutPath K.hash s (H.stripes held.old) (K.name _key.now)) }
    ensures same { H.stripes held.new ≡ H.stripes held.old }
    ensures stays { H.stays held.old held.new }
{
    let power = one_stripe::power(held, 0);
    let first = ck_key::index(power, hash.hash);
    let second = ck_key::alternate(power, hash.partial, first);
    search_from(held, s, power, first, second)
}

// The search from two buckets of a table of 2^power, of 2^s stripes.
fn search_from<K: TableKey + Drop, V: Drop, H: Held<Stripe<K, V>>>(
    held: &mut H,
    s: u32,
    power: u32,
    first: u64,
    second: u64,
) -> Option<Path>
    requires held { AreAllHeld s (H.stripes held.old) }
    requires power { power ≡ power_in (H.stripes held.old) }
    requires first { first < 2 ^ power }
    requires second { second < 2 ^ power }
    ensures path { IfSome result
        (IsShortestPath power (sketch_of K.hash s (H.stripes held.old)) first second) }
    ensures four { IfSome result
        (λ path. HaveFour (sketch_of K.hash s (H.stripes held.old)) path.hops path.end) }
    ensures none { IfNone result
        (HasNoSketchPath power (sketch_of K.hash s (H.stripes held.old)) first second) }
    ensures same { H.stripes held.new ≡ H.stripes held.old }
    ensures stays { H.stays held.old held.new }
{
    let mut search = Search::start(power, first, second);
    while let Some(bucket) = search.next_bucket() {
        let sketch = one_stripe::sketch(held, (bucket % (1 << s)) as usize, bucket);
        if let Some(path) = search.feed(sketch) {
            return Some(path);
        }
    }
    None
}

/// Carries out the hops of a path among all stripes of a table of 2^s, from its end backwards. Then
/// the bucket at which it begins has a free slot.
pub(crate) fn follow_path<K: TableKey + Drop, V: Drop, H: Held<Stripe<K, V>>>(
    held: &mut H,
    s: u32,
    path: &Path,
)
    requires held { AreAllHeld s (H.stripes held.old) }
    requires path { IsPathIn K.hash s (H.stripes held.old) path.now }
    ensures held { AreAllHeld s (H.stripes held.new) }
    ensures no_call { IsNoCall K.hash s (H.stripes held.old) (H.stripes held.new) }
    ensures rest { ChangesContents (H.stripes held.old) (H.stripes held.new) }
    ensures free { let b = first_bucket path.now.hops path.now.end in
        HasFree (bucket_at (H.stripes held.new) (b % 2 ^ s) b) }
    ensures stays { H.stays held.old held.new }
{
    let power = path.power();
    let mut target = path.end();
    let hops = path.hops_from_end();
    for hop in hops {
        carry_out(
            held,
            s,
            Hop {
                power,
                bucket: hop.bucket,
                slot: hop.slot,
                partial: hop.partial,
                target,
            },
        );
        target = hop.bucket;
    }
}

// Carries out a hop that can be done, among all stripes of a table of 2^s.
fn carry_out<K: TableKey + Drop, V: Drop, H: Held<Stripe<K, V>>>(held: &mut H, s: u32, hop: Hop)
    requires held { AreAllHeld s (H.stripes held.old) }
    requires below { hop.bucket < 2 ^ hop.power }
    requires target { hop.target ≡ alternate_of hop.power hop.partial hop.bucket }
    requires can { CanHop K.hash (H.stripes held.old)
        (hop.bucket % 2 ^ s) (hop.target % 2 ^ s) hop }
    ensures hopped { Hops (H.stripes held.old)
        (hop.bucket % 2 ^ s) (hop.target % 2 ^ s) hop (H.stripes held.new) }
    ensures no_call { IsNoCall K.hash s (H.stripes held.old) (H.stripes held.new) }
    ensures rest { ChangesContents (H.stripes held.old) (H.stripes held.new) }
    ensures stays { H.stays held.old held.new }
{
    let from = (hop.bucket % (1 << s)) as usize;
    let to = (hop.target % (1 << s)) as usize;
    move_entry(held, from, to, hop);
}
