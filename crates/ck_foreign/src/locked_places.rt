//! What C holds of a locked table: a pointer, which is null or leads to its box.
ghost use Rattle.std.specs.Prelude.{◌≡◌};
ghost use Rattle.std.specs.Coded.{coded_option};
ghost use Rattle.std.specs.declared.option.Option.{Option as Maybe};
ghost use Rattle.ck_owned.specs.Place.{place_owns};
ghost use Rattle.ck_foreign.specs.SessionRows.{number_session_row, text_session_row};

use crate::keys::{BytesKey, NumberKey};
use crate::locked::Session;
use ck_owned::{Holds, Owned};
use std::marker::Model;

/// A locked table whose keys are numbers.
pub type NumberSession = Session<NumberKey>;

/// A locked table whose keys are texts.
pub type TextSession = Session<BytesKey>;

/// A locked table whose keys are numbers, or none.
#[repr(C)]
pub struct CuckooLocked {
    at: *mut u8,
    pub ghost held: { Maybe number_session_row.Denot } by { coded_option number_session_row.coded },
}

impl Model for CuckooLocked {
    ghost also_owns = { λ h. place_owns number_session_row h.at h.held };
}

impl Holds<NumberSession> for CuckooLocked {
    ghost held = { λ h. h.held };

    fn exchange(&mut self, new: Owned<NumberSession>) -> Owned<NumberSession>
        ensures was { result.held ≡ self.old.held }
        ensures is { self.new.held ≡ new.held }
    {
        let Owned { at } = new;
        let was = self.at as *mut NumberSession;
        self.at = at as *mut u8;
        Owned { at: was }
    }
}

unsafe impl Send for CuckooLocked {}

/// A locked table whose keys are texts, or none.
#[repr(C)]
pub struct CuckooTextLocked {
    at: *mut u8,
    pub ghost held: { Maybe text_session_row.Denot } by { coded_option text_session_row.coded },
}

impl Model for CuckooTextLocked {
    ghost also_owns = { λ h. place_owns text_session_row h.at h.held };
}

impl Holds<TextSession> for CuckooTextLocked {
    ghost held = { λ h. h.held };

    fn exchange(&mut self, new: Owned<TextSession>) -> Owned<TextSession>
        ensures was { result.held ≡ self.old.held }
        ensures is { self.new.held ≡ new.held }
    {
        let Owned { at } = new;
        let was = self.at as *mut TextSession;
        self.at = at as *mut u8;
        Owned { at: was }
    }
}

unsafe impl Send for CuckooTextLocked {}
