//! What C holds of a table: a pointer, which is null or leads to a boxed handle.
ghost use Rattle.std.specs.Prelude.{◌≡◌};
ghost use Rattle.std.specs.Coded.{coded_option};
ghost use Rattle.std.specs.declared.option.Option.{Option as Maybe};
ghost use Rattle.ck_owned.specs.Place.{place_owns};
ghost use Rattle.ck_foreign.specs.Payloads.{number_row, text_row};

use crate::keys::{BytesKey, NumberKey};
use ck_owned::{Holds, Owned};
use cuckoo_map::Handle;
use std::marker::Model;

/// A handle of a table whose keys are numbers.
pub type Numbers = Handle<NumberKey, u64>;

/// A handle of a table whose keys are texts.
pub type Texts = Handle<BytesKey, u64>;

/// A handle of a table whose keys are numbers, or none.
#[repr(C)]
pub struct CuckooHandle {
    at: *mut u8,
    pub ghost held: { Maybe number_row.Denot } by { coded_option number_row.coded },
}

impl Model for CuckooHandle {
    ghost also_owns = { λ h. place_owns number_row h.at h.held };
}

impl Holds<Numbers> for CuckooHandle {
    ghost held = { λ h. h.held };

    fn exchange(&mut self, new: Owned<Numbers>) -> Owned<Numbers>
        ensures was { result.held ≡ self.old.held }
        ensures is { self.new.held ≡ new.held }
    {
        let Owned { at } = new;
        let was = self.at as *mut Numbers;
        self.at = at as *mut u8;
        Owned { at: was }
    }
}

unsafe impl Send for CuckooHandle {}

/// A handle of a table whose keys are texts, or none.
#[repr(C)]
pub struct CuckooTextHandle {
    at: *mut u8,
    pub ghost held: { Maybe text_row.Denot } by { coded_option text_row.coded },
}

impl Model for CuckooTextHandle {
    ghost also_owns = { λ h. place_owns text_row h.at h.held };
}

impl Holds<Texts> for CuckooTextHandle {
    ghost held = { λ h. h.held };

    fn exchange(&mut self, new: Owned<Texts>) -> Owned<Texts>
        ensures was { result.held ≡ self.old.held }
        ensures is { self.new.held ≡ new.held }
    {
        let Owned { at } = new;
        let was = self.at as *mut Texts;
        self.at = at as *mut u8;
        Owned { at: was }
    }
}

unsafe impl Send for CuckooTextHandle {}
