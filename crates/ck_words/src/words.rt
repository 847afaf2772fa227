//! The lock words, and the steps on them.
use crate::rule::CoreRule;
use crate::stripe_set::StripeSet;
use atomic_table::Table;
use ck_core::known::Known;
use ck_key::TableKey;
use ck_model::settings::Settings;
use ck_stripe::Stripe;
use std::alloc::Global;
use std::marker::Model;

/// A lock word and a slot for each stripe. Contracts see which table it is, and its settings.
#[derive(Drop)]
pub struct Words<K: TableKey, V> {
    pub(crate) table: Table<Option<Stripe<K, V>>, Known<V>, Settings, CoreRule, Global>,
    pub(crate) settings: Settings,
}

impl<K: TableKey, V> Model for Words<K, V> {
    ghost use Rattle.ck_words.specs.Words.{WordsState, IsLaidOut};

    ghost Value = { WordsState };

    ghost view = { λ w. record { table = w.table.shared.table_id; settings = w.settings } };

    ghost invariant = { λ w. IsLaidOut w.table.shared.table_id w.table.shared.key w.settings };
}

impl<K: TableKey + Drop, V: Drop> Words<K, V> {
    ghost use Rattle.std.specs.Prelude.{◌≡◌, ◌^◌};
    ghost use Rattle.ck_model.specs.Counting.{counting};
    ghost use Rattle.ck_model.specs.Ranges.{AreInRange};
    ghost use Rattle.ck_words.specs.StripeSets.{list_of};

    /// What the table was opened with.
    pub fn settings(&self) -> Settings
        ensures value { result ≡ self.now.settings }
        ensures range { AreInRange self.now.settings }
    {
        self.settings
    }

    /// Shows proofs that the settings are in their ranges. It does nothing when the program runs.
    #[inline(always)]
    pub fn show_range(&self)
        ensures { AreInRange self.now.settings }
    {
        let _ = &self.settings;
    }

    /// All stripes of the table.
    pub fn all(&self) -> StripeSet
        ensures s { result.s ≡ self.now.settings.s }
        ensures all { list_of result ≡ counting 0 (2 ^ self.now.settings.s) }
    {
        StripeSet::all(self.settings().s)
    }
}
