//! The entry of a key, found before a call that inserts, so that the call itself can't fail.
ghost use Rattle.std.specs.Prelude.{◌≡◌, IfSome, IfNone};
ghost use Rattle.ck_section.specs.Places.{IsPlaceOf};
ghost use Rattle.ck_section.specs.Entries.{IsEntryOf};
ghost use Rattle.ck_section.specs.Calls.{IsWithRoom, IsWithoutRoom};

use crate::look::{find_free, find_slot};
use crate::place::KeyPlace;
use ck_key::TableKey;
use ck_stripe::{Held, HeldSlot, Stripe};

/// The slot of a bound key, or the one that an unbound key would get.
#[derive(Clone, Copy, Debug, PartialEq, Eq)]
pub enum Entry {
    /// The slot that has the key.
    Occupied(HeldSlot),
    /// The lowest free slot of the first bucket of the key, else of its alternate one.
    Vacant(HeldSlot),
}

/// The entry of the key; `None` where it is unbound and both its buckets are full.
#[inline(always)]
pub fn find_entry<K: TableKey + Drop, V: Drop, H: Held<Stripe<K, V>>>(
    held: &mut H,
    place: KeyPlace,
    key: &K,
) -> Option<Entry>
    requires { IsPlaceOf K.hash (H.stripes held.old) (K.name key.now) place }
    ensures entry { IfSome result
        (IsEntryOf K.hash (H.stripes held.old) (K.name key.now) place) }
    ensures room { IfSome result
        (λ _. IsWithRoom K.hash place.s (H.stripes held.old) (K.name key.now)) }
    ensures no_room { IfNone result
        (IsWithoutRoom K.hash place.s (H.stripes held.old) (K.name key.now)) }
    ensures same { H.stripes held.new ≡ H.stripes held.old }
    ensures stays { H.stays held.old held.new }
{
    if let Some(at) = find_slot(held, place, key) {
        return Some(Entry::Occupied(at));
    }
    let at = find_free(held, place, key)?;
    Some(Entry::Vacant(at))
}
