//! Callers that share their table, and need no other owner of it.
ghost use Rattle.std.specs.Prelude.{◌≡◌, All, IfOk, IfErr, Err};
ghost use Rattle.std.specs.Arc.{arc_value};
ghost use Rattle.ck_model.specs.declared.settings.OutOfRange.{OutOfRange};
ghost use Rattle.ck_model.specs.Ranges.{AreInRange, IsOut};
ghost use Rattle.ck_model.specs.Counting.{counting};
ghost use Rattle.ck_words.specs.Words.{WordsState};
ghost use Rattle.ck_words.specs.Closing.{IsCaller, dealt};

use crate::caller::CallerOn;
use crate::locked::LockedOn;
use crate::table::Table;
use ck_key::TableKey;
use ck_model::settings::Settings;
use ck_refusal::OpenFault;
use ck_words::Pass;
use std::alloc::{AllocError, Global};
use std::sync::Arc;

/// A caller that shares its table with all other handles of it. The table ends with its last
/// handle.
///
/// ```
/// let mut handles = Handle::<NumKey, u64>::open(alloc, Settings::for_keys(1_000, 4))?;
/// for handle in &mut handles {
///     handle.upsert(NumKey(7), |count| count.saturating_add(1), 1)?;
/// }
/// ```
pub type Handle<K, V> = CallerOn<Arc<Table<K, V>, Global>, K, V>;

/// A table under one of its handles.
pub type LockedHandle<K, V> = LockedOn<Arc<Table<K, V>, Global>, K, V>;

impl<K: TableKey + Drop, V: Drop> Handle<K, V> {
    ghost use Rattle.cuckoo_map.specs.Callers.{callers_of};

    /// All handles of a new table, which is empty: as many as the settings have callers, numbered
    /// from 0.
    ///
    /// It is refused as `Settings` where a setting is not in its range, which it names, and
    /// otherwise only for want of memory.
    pub fn open(alloc: Global, settings: Settings) -> Result<Vec<Handle<K, V>>, OpenFault>
        ensures ok { IfOk result (λ handles. (w : WordsState) × (w.settings ≡ settings)
            × (handles.items
            ≡ callers_of w (dealt w.table settings (counting 0 settings.callers)))) }
        ensures memory { AreInRange settings → IfErr result (λ fault. fault ≡ OpenFault.Memory) }
        ensures settings { ¬ (AreInRange settings) → (which : OutOfRange)
            × (result ≡ Err (OpenFault.Settings which)) × IsOut settings which }
    {
        let (table, passes) = Table::open(alloc, settings)?;
        let handles = Handle::share(alloc, table, passes);
        match handles {
            Ok(handles) => Ok(handles),
            Err(_) => Err(OpenFault::Memory),
        }
    }

    // A handle of the table for each pass, in their order.
    fn share(
        alloc: Global,
        table: Table<K, V>,
        passes: Vec<Pass<K, V>>,
    ) -> Result<Vec<Handle<K, V>>, AllocError>
        requires { All (IsCaller table) passes.items }
        ensures { IfOk result (λ handles. handles.items ≡ callers_of table passes.items) }
    {
        let shared = Arc::new(alloc, table)?;
        let mut handles = Vec::with_capacity(alloc, passes.len())?;
        for pass in passes {
            let table = Arc::try_clone(&shared)?;
            handles.push_reserved(CallerOn { table, pass });
        }
        Ok(handles)
    }
}
