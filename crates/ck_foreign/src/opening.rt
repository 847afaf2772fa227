//! How handles of a new table come into their places, and how they go.
ghost use Rattle.std.specs.Prelude.{◌≡◌, ◌≢◌, ◌⊎◌, ◌≤◌, true, false, All, map, length, IfOk};
ghost use Rattle.std.specs.declared.option.Option.TheVariants.{None, Some};
ghost use Rattle.ck_model.specs.Counting.{counting};
ghost use Rattle.ck_words.specs.Words.{WordsState};
ghost use Rattle.ck_words.specs.Closing.{dealt};
ghost use Rattle.cuckoo_map.specs.Callers.{callers_of};
ghost use Rattle.ck_foreign.specs.declared.code.Code.TheVariants as codes;
ghost use Rattle.ck_foreign.specs.NewTables.{IsFor};
ghost use Rattle.ck_foreign.specs.Openings.{TellsOpening};

use crate::code::Code;
use ck_owned::{Holds, put, take};
use cuckoo_map::{Handle, Settings, TableKey};
use std::alloc::{AllocError, Global};

/// Settings for about so many keys, and for so many handles, of which there may be 1,024.
pub fn settings_for(keys: u64, handles: usize, turns: u32) -> Settings
    ensures callers { handles ≤ 1024 → result.callers ≡ handles }
    ensures turns { result.turns ≡ turns }
    ensures keys { IsFor keys result }
{
    let callers = if handles > 1024 { 0 } else { handles as u32 };
    Settings {
        turns,
        ..Settings::for_keys(keys, callers)
    }
}

/// Opens a table with as many handles as there are places, which are closed, and puts them there in
/// their order.
///
/// It is refused as `Settings` where there are not as many places as callers, or a setting is not in
/// its range, as `Open` where a place is open, and as `Memory`. Refused, it leaves what the places
/// held.
pub fn open<K: TableKey + Drop, P: Holds<Handle<K, u64>>>(
    alloc: Global,
    settings: Settings,
    places: &mut [P],
) -> Code
    ensures length { length places.new ≡ length places.old }
    ensures opened { result ≡ codes.Done → (w : WordsState) × (w.settings ≡ settings)
        × (map P.held places.new
        ≡ map Some (callers_of w (dealt w.table settings (counting 0 settings.callers)))) }
    ensures told { TellsOpening settings (length places.old)
        (All (λ p. P.held p ≡ None) places.old) result }
    ensures refused { result ≢ codes.Done → map P.held places.new ≡ map P.held places.old }
{
    if settings.callers as usize != places.len() || !settings.are_in_range() {
        return Code::Settings;
    }
    if is_any_open(alloc, places) {
        return Code::Open;
    }
    match Handle::<K, u64>::open(alloc, settings) {
        Ok(handles) => place_all(alloc, handles, places),
        Err(_) => Code::Memory,
    }
}

// Whether a place is open.
fn is_any_open<T: Drop, P: Holds<T>>(alloc: Global, places: &mut [P]) -> bool
    ensures kept { map P.held places.new ≡ map P.held places.old }
    ensures none { result ≡ false → All (λ p. P.held p ≡ None) places.old }
    ensures some { result ≡ true → ¬ (All (λ p. P.held p ≡ None) places.old) }
{
    for place in places.iter_mut() {
        if is_open(alloc, place) {
            return true;
        }
    }
    false
}

/// Whether the place is open. What it holds is taken out for that, and put back.
pub fn is_open<T: Drop, P: Holds<T>>(alloc: Global, place: &mut P) -> bool
    ensures kept { P.held place.new ≡ P.held place.old }
    ensures none { result ≡ false → P.held place.old ≡ None }
    ensures some { result ≡ true → P.held place.old ≢ None }
{
    match take(place, alloc) {
        Some(boxed) => {
            put(place, alloc, boxed);
            true
        }
        None => false,
    }
}

// Puts the handles in the places, in their order. Refused for want of memory, it leaves the places
// as they were.
fn place_all<T: Drop, P: Holds<T>>(alloc: Global, handles: Vec<T>, places: &mut [P]) -> Code
    requires { length handles.items ≡ length places.old }
    ensures done { result ≡ codes.Done → map P.held places.new ≡ map Some handles.items }
    ensures refused { result ≢ codes.Done → places.new ≡ places.old }
    ensures told { (result ≡ codes.Done) ⊎ (result ≡ codes.Memory) }
    ensures length { length places.new ≡ length places.old }
{
    let Ok(boxes) = box_all(alloc, handles) else {
        return Code::Memory;
    };
    put_all(alloc, boxes, places);
    Code::Done
}

// A box for each value, in their order.
fn box_all<T: Drop>(alloc: Global, values: Vec<T>) -> Result<Vec<Box<T, Global>>, AllocError>
    ensures { IfOk result (λ boxes. map (λ b. b.value) boxes.items ≡ values.items) }
{
    let mut boxes = Vec::with_capacity(alloc, values.len())?;
    for value in values {
        boxes.push_reserved(Box::new(alloc, value)?);
    }
    Ok(boxes)
}

// Puts the boxes in the places, in their order.
fn put_all<T: Drop, P: Holds<T>>(alloc: Global, boxes: Vec<Box<T, Global>>, places: &mut [P])
    requires { length boxes.items ≡ length places.old }
    ensures { map P.held places.new ≡ map (λ b. Some b.value) boxes.items }
{
    let mut at = 0;
    for boxed in boxes {
        put(&mut places[at], alloc, boxed);
        at += 1;
    }
}

/// Closes the place of a handle, or of a list.
pub fn close<T: Drop, P: Holds<T>>(alloc: Global, place: &mut P)
    ensures { P.held place.new ≡ None }
{
    drop(take(place, alloc));
}
