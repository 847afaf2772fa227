//! The invariant of the core as the rule of a table of words.

use atomic_table::{Seat, Shared, TableRule};
use ck_core::known::Known;
use ck_key::TableKey;
use ck_model::settings::Settings;
use ck_stripe::Stripe;

/// The invariant of the core.
pub struct CoreRule;

impl<K: TableKey, V> TableRule<Option<Stripe<K, V>>, Known<V>, Settings> for CoreRule {
    ghost use Rattle.ck_words.specs.Rule.{RuleOf, first_view};

    ghost holds = { RuleOf K.hash };

    ghost first = { first_view };
}

pub(crate) type Board<K, V> = Shared<Option<Stripe<K, V>>, Known<V>, Settings, CoreRule>;

pub(crate) type StripeSeat<K, V> = Seat<Option<Stripe<K, V>>, Known<V>>;
