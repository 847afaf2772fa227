//! Room for a key in a table whose stripes are all held: it is there, a displacement makes it, or
//! the table doubles.
ghost use Rattle.std.specs.Prelude.{◌≡◌, ◌<◌, ◌+◌, ◌*◌, ◌%◌, ◌^◌, ◌≤◌, IfOk, IfErr, OnOk, OnErr, MatchBool};
ghost use Rattle.std.specs.Bool.{OnTrue, OnFalse};
ghost use Rattle.ck_key.specs.Hashes.{IsHashOf};
ghost use Rattle.ck_model.specs.Contents.{layout};
ghost use Rattle.ck_model.specs.Paths.{IsTooEmpty};
ghost use Rattle.ck_stripe.specs.Stripes.{contents_of, IsInReach};
ghost use Rattle.ck_stripe.specs.Tables.{AreAllHeld, AreSettled, IsTable, power_in, KeepsBindings};
ghost use Rattle.ck_section.specs.Doublings.{Grows};
ghost use Rattle.ck_section.specs.Places.{IsPlaceOf};
ghost use Rattle.ck_section.specs.Hops.{IsNoCall};
ghost use Rattle.ck_section.specs.Calls.{ChangesContents, IsWithRoom, IsWithoutRoom};
ghost use Rattle.ck_section.specs.Room.{settled_at, IsWithoutPath, IsLack, MakesRoom, GivesReason, GrowsForRoom, OnlyDoubles};

use crate::double::double_all;
use crate::entry::find_entry;
use crate::place::{HeldBucket, KeyPlace};
use crate::whole_path::{find_path, follow_path};
use ck_key::{KeyHash, TableKey};
use ck_model::lack::Lack;
use ck_stripe::{Grower, Held, Stripe, has_entries, one_stripe, settle_all};

/// Makes room for the key, whose hash the caller has at hand, in a table of 2^s stripes: then the
/// key is bound or one of its buckets has a free slot. No binding changes.
///
/// Entries are displaced where that makes room. Else the table doubles, if it has fewer than 2^max
/// buckets and at least `min_load` per cent of its slots are taken, in the memory that the grower has
/// if it is for that doubling, and it is tried again. Where there is no room in the end, nothing was
/// displaced. A refused request for memory leaves the table as it was.
pub fn make_room<K: TableKey + Drop, V: Drop, H: Held<Stripe<K, V>>>(
    held: &mut H,
    s: u32,
    key: &K,
    hash: KeyHash,
    max: u32,
    min_load: u32,
    grower: &mut Grower<K, V>,
) -> Result<(), Lack>
    requires table { IsTable s (H.stripes held.old) }
    requires hash { IsHashOf K.hash (K.name key.now) hash }
    requires max { max ≤ 26 }
    requires min_load { min_load ≤ 100 }
    ensures table { IsTable s (H.stripes held.new) }
    ensures no_call { KeepsBindings (layout K.hash s max)
        (H.stripes held.old) (H.stripes held.new) }
    ensures room { OnOk result (MakesRoom (layout K.hash s max)
        (H.stripes held.old) (H.stripes held.new) (K.name key.now)) }
    ensures refused { IfErr result (GivesReason (layout K.hash s max) min_load
        (H.stripes held.old) (H.stripes held.new) (K.name key.now)) }
    ensures left { OnErr result (OnlyDoubles (layout K.hash s max)
        (H.stripes held.old) (H.stripes held.new)) }
    ensures doubled { GrowsForRoom (layout K.hash s max) min_load
        (H.stripes held.old) (H.stripes held.new) (K.name key.now) }
    ensures stays { H.stays held.old held.new }
{
    while !room_by_hops(held, s, key, hash) {
        grow(held, s, max, min_load, grower)?;
    }
    Ok(())
}

// Makes room for the key without growing, if that can be. The key's own stripes are settled and
// looked into first, and the others only where that is not enough.
fn room_by_hops<K: TableKey + Drop, V: Drop, H: Held<Stripe<K, V>>>(
    held: &mut H,
    s: u32,
    key: &K,
    hash: KeyHash,
) -> bool
    requires table { IsTable s (H.stripes held.old) }
    requires hash { IsHashOf K.hash (K.name key.now) hash }
    ensures table { IsTable s (H.stripes held.new) }
    ensures power { power_in (H.stripes held.new) ≡ power_in (H.stripes held.old) }
    ensures no_call { IsNoCall K.hash s (H.stripes held.old) (H.stripes held.new) }
    ensures room { OnTrue result (IsWithRoom K.hash s (H.stripes held.new) (K.name key.now)) }
    ensures same { OnFalse result
        (contents_of (H.stripes held.new) ≡ contents_of (H.stripes held.old)) }
    ensures settled { OnFalse result (AreSettled (H.stripes held.new)) }
    ensures no_room { OnFalse result
        (IsWithoutRoom K.hash s (H.stripes held.new) (K.name key.now)) }
    ensures no_path { OnFalse result
        (IsWithoutPath K.hash s (H.stripes held.new) (K.name key.now)) }
    ensures stays { H.stays held.old held.new }
{
    if has_room(held, s, key, hash) {
        return true;
    }
    settle_all(held);
    displace(held, s, key, hash)
}

// Whether there is room for the key as it is. Its two stripes are settled.
fn has_room<K: TableKey + Drop, V: Drop, H: Held<Stripe<K, V>>>(
    held: &mut H,
    s: u32,
    key: &K,
    hash: KeyHash,
) -> bool
    requires table { IsTable s (H.stripes held.old) }
    requires hash { IsHashOf K.hash (K.name key.now) hash }
    ensures table { IsTable s (H.stripes held.new) }
    ensures same { contents_of (H.stripes held.new) ≡ contents_of (H.stripes held.old) }
    ensures power { power_in (H.stripes held.new) ≡ power_in (H.stripes held.old) }
    ensures room { MatchBool result (IsWithRoom K.hash s (H.stripes held.new) (K.name key.now))
        (IsWithoutRoom K.hash s (H.stripes held.new) (K.name key.now)) }
    ensures stays { H.stays held.old held.new }
{
    let place = settled_place(held, s, key, hash);
    find_entry(held, place, key).is_some()
}

/// Where the key, whose hash the caller has at hand, may be among all stripes of a table of 2^s.
/// Its own two are settled.
pub fn settled_place<K: TableKey + Drop, V: Drop, H: Held<Stripe<K, V>>>(
    held: &mut H,
    s: u32,
    _key: &K,
    hash: KeyHash,
) -> KeyPlace
    requires table { IsTable s (H.stripes held.old) }
    requires hash { IsHashOf K.hash (K.name _key.now) hash }
    ensures place { IsPlaceOf K.hash (H.stripes held.new) (K.name _key.now) result }
    ensures s { result.s ≡ s }
    ensures table { IsTable s (H.stripes held.new) }
    ensures same { contents_of (H.stripes held.new) ≡ contents_of (H.stripes held.old) }
    ensures power { power_in (H.stripes held.new) ≡ power_in (H.stripes held.old) }
    ensures stays { H.stays held.old held.new }
{
    let power = one_stripe::power(held, 0);
    let first = ck_key::index(power, hash.hash);
    let alternate = ck_key::alternate(power, hash.partial, first);
    KeyPlace {
        s,
        partial: hash.partial,
        first: settled_bucket(held, s, first),
        alternate: settled_bucket(held, s, alternate),
    }
}

// A bucket of a table of 2^s stripes. Its stripe is settled.
fn settled_bucket<K: TableKey + Drop, V: Drop, H: Held<Stripe<K, V>>>(
    held: &mut H,
    s: u32,
    bucket: u64,
) -> HeldBucket
    requires table { IsTable s (H.stripes held.old) }
    requires below { bucket < 2 ^ power_in (H.stripes held.old) }
    ensures bucket { result ≡ record { index = bucket % 2 ^ s; bucket = bucket } }
    ensures settled { H.stripes held.new ≡ settled_at (H.stripes held.old) (bucket % 2 ^ s) }
    ensures stays { H.stays held.old held.new }
{
    let index = (bucket % (1 << s)) as usize;
    one_stripe::settle(held, index);
    HeldBucket { index, bucket }
}

// Makes room for the key by a displacement, if there is one of at most four hops.
fn displace<K: TableKey + Drop, V: Drop, H: Held<Stripe<K, V>>>(
    held: &mut H,
    s: u32,
    key: &K,
    hash: KeyHash,
) -> bool
    requires held { AreAllHeld s (H.stripes held.old) }
    requires hash { IsHashOf K.hash (K.name key.now) hash }
    ensures held { AreAllHeld s (H.stripes held.new) }
    ensures no_call { IsNoCall K.hash s (H.stripes held.old) (H.stripes held.new) }
    ensures rest { ChangesContents (H.stripes held.old) (H.stripes held.new) }
    ensures room { OnTrue result (IsWithRoom K.hash s (H.stripes held.new) (K.name key.now)) }
    ensures same { OnFalse result (H.stripes held.new ≡ H.stripes held.old) }
    ensures no_path { OnFalse result
        (IsWithoutPath K.hash s (H.stripes held.old) (K.name key.now)) }
    ensures stays { H.stays held.old held.new }
{
    match find_path(held, s, key, hash) {
        Some(path) => {
            follow_path(held, s, &path);
            true
        }
        None => false,
    }
}

/// Doubles a table of 2^s stripes, if it has fewer than 2^max buckets and at least `min_load` per
/// cent of its slots are taken. Refused, it stays as it was.
pub fn grow<K: TableKey + Drop, V: Drop, H: Held<Stripe<K, V>>>(
    held: &mut H,
    s: u32,
    max: u32,
    min_load: u32,
    grower: &mut Grower<K, V>,
) -> Result<(), Lack>
    requires table { IsTable s (H.stripes held.old) }
    requires settled { AreSettled (H.stripes held.old) }
    requires max { max ≤ 26 }
    requires min_load { min_load ≤ 100 }
    ensures table { IsTable s (H.stripes held.new) }
    ensures lack { IfErr result (IsLack max min_load (H.stripes held.old)) }
    ensures same { OnErr result (H.stripes held.new ≡ H.stripes held.old) }
    ensures may { OnOk result (IsLack max min_load (H.stripes held.old) Lack.Memory) }
    ensures grown { OnOk result (Grows K.hash s (H.stripes held.old) (H.stripes held.new)) }
    ensures power { OnOk result
        (power_in (H.stripes held.new) ≡ power_in (H.stripes held.old) + 1) }
    ensures stays { H.stays held.old held.new }
{
    let power = one_stripe::power(held, 0);
    if power >= max {
        return Err(Lack::Full);
    }
    if is_too_empty(held, s, power, min_load) {
        return Err(Lack::LoadTooLow);
    }
    match double_all(held, s, grower) {
        Ok(()) => Ok(()),
        Err(_) => Err(Lack::Memory),
    }
}

// Whether fewer than `min_load` per cent of the slots of a table of 2^power buckets are taken.
fn is_too_empty<K: TableKey + Drop, V: Drop, H: Held<Stripe<K, V>>>(
    held: &mut H,
    s: u32,
    power: u32,
    min_load: u32,
) -> bool
    requires table { IsTable s (H.stripes held.old) }
    requires power { power ≡ power_in (H.stripes held.old) }
    requires min_load { min_load ≤ 100 }
    ensures value { MatchBool result (IsTooEmpty min_load (contents_of (H.stripes held.old)))
        (¬ (IsTooEmpty min_load (contents_of (H.stripes held.old)))) }
    ensures same { H.stripes held.new ≡ H.stripes held.old }
    ensures stays { H.stays held.old held.new }
{
    let slots = 4u64 << power;
    let least = (u64::from(min_load) * slots).div_ceil(100);
    !has_entries(held, s, least)
}
