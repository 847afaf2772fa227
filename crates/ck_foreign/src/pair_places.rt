//! What C holds of pairs: a pointer, which is null or leads to a boxed list.
ghost use Rattle.std.specs.Prelude.{◌≡◌};
ghost use Rattle.std.specs.Coded.{coded_option};
ghost use Rattle.std.specs.declared.option.Option.{Option as Maybe};
ghost use Rattle.ck_owned.specs.Place.{place_owns};
ghost use Rattle.ck_foreign.specs.PairRows.{number_pairs_row, text_pairs_row};

use crate::keys::{BytesKey, NumberKey};
use crate::pairs::Pairs;
use ck_owned::{Holds, Owned};
use std::marker::Model;

/// Pairs of a table whose keys are numbers.
pub type NumberPairs = Pairs<NumberKey>;

/// Pairs of a table whose keys are texts.
pub type TextPairs = Pairs<BytesKey>;

/// Pairs of a table whose keys are numbers, or none.
#[repr(C)]
pub struct CuckooPairs {
    at: *mut u8,
    pub ghost held: { Maybe number_pairs_row.Denot } by { coded_option number_pairs_row.coded },
}

impl Model for CuckooPairs {
    ghost also_owns = { λ h. place_owns number_pairs_row h.at h.held };
}

impl Holds<NumberPairs> for CuckooPairs {
    ghost held = { λ h. h.held };

    fn exchange(&mut self, new: Owned<NumberPairs>) -> Owned<NumberPairs>
        ensures was { result.held ≡ self.old.held }
        ensures is { self.new.held ≡ new.held }
    {
        let Owned { at } = new;
        let was = self.at as *mut NumberPairs;
        self.at = at as *mut u8;
        Owned { at: was }
    }
}

unsafe impl Send for CuckooPairs {}

/// Pairs of a table whose keys are texts, or none.
#[repr(C)]
pub struct CuckooTextPairs {
    at: *mut u8,
    pub ghost held: { Maybe text_pairs_row.Denot } by { coded_option text_pairs_row.coded },
}

impl Model for CuckooTextPairs {
    ghost also_owns = { λ h. place_owns text_pairs_row h.at h.held };
}

impl Holds<TextPairs> for CuckooTextPairs {
    ghost held = { λ h. h.held };

    fn exchange(&mut self, new: Owned<TextPairs>) -> Owned<TextPairs>
        ensures was { result.held ≡ self.old.held }
        ensures is { self.new.held ≡ new.held }
    {
        let Owned { at } = new;
        let was = self.at as *mut TextPairs;
        self.at = at as *mut u8;
        Owned { at: was }
    }
}

unsafe impl Send for CuckooTextPairs {}
