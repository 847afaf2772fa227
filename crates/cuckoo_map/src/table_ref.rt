//! How a caller has its table.
ghost use Rattle.std.specs.Prelude.{◌≡◌};
ghost use Rattle.ck_words.specs.Words.{WordsState};

use crate::table::Table;
use ck_key::TableKey;
use std::alloc::Global;
use std::sync::Arc;

/// How a caller has its table: lent, as a `&Table`, or shared with all other callers, as an
/// `Arc<Table>`.
pub trait TableRef<K: TableKey, V> {
    // What contracts see of the table.
    ghost state: { Self → WordsState };

    /// The table.
    fn table(&self) -> &Table<K, V>
        ensures { result.now ≡ state self.now };
}

impl<'t, K: TableKey, V> TableRef<K, V> for &'t Table<K, V> {
    ghost state = { λ t. t.now };

    #[inline(always)]
    fn table(&self) -> &Table<K, V> {
        *self
    }
}

impl<K: TableKey, V> TableRef<K, V> for Arc<Table<K, V>, Global> {
    ghost use Rattle.std.specs.Arc.{arc_value};

    ghost state = { λ t. arc_value t };

    #[inline(always)]
    fn table(&self) -> &Table<K, V> {
        &**self
    }
}
