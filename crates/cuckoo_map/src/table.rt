//! The table, and how it begins and ends.
ghost use Rattle.std.specs.Prelude.{◌≡◌, [], ◌∷◌, ◌++◌, IfOk, IfErr, IfSome, Err};
ghost use Rattle.ck_model.specs.Promise.{Map};
ghost use Rattle.ck_model.specs.Listing.{ListsInOrder};
ghost use Rattle.ck_model.specs.declared.settings.OutOfRange.{OutOfRange};
ghost use Rattle.ck_model.specs.Ranges.{AreInRange, IsOut};
ghost use Rattle.ck_words.specs.Retries.{Stays};
ghost use Rattle.ck_words.specs.Meeting.{message_from, Hears, Meets};
ghost use Rattle.ck_model.specs.Counting.{counting};
ghost use Rattle.ck_words.specs.Closing.{IsCaller, AreAllPasses, EachStays, Closes, dealt};
ghost use Rattle.cuckoo_map.specs.Refusals.{IsBusyAmong, IsStripeIn};

use crate::room::Growth;
use ck_key::TableKey;
use ck_model::settings::Settings;
use ck_refusal::OpenFault;
use ck_words::{Message, Pass, StillOpen, Words};
use std::alloc::Global;
use std::marker::Model;

/// A map from keys to values in 2^power buckets, for many callers. It doubles where an entry finds
/// no room.
///
/// Its calls are those of a [`Caller`](crate::Caller), which has the table and a pass. Here they
/// get the pass, and want a proof that it is one of this table and in no call. Contracts see which
/// table it is, and its settings.
pub struct Table<K: TableKey, V> {
    pub(crate) words: Words<K, V>,
    pub(crate) growth: Growth,
}

impl<K: TableKey, V> Model for Table<K, V> {
    ghost use Rattle.ck_words.specs.Words.{WordsState};

    ghost Value = { WordsState };

    ghost view = { λ t. t.words };
}

// Written out, so that it is proved here, and not in each program that drops a table.
impl<K: TableKey + Drop, V: Drop> Drop for Table<K, V> {
    fn drop(self) {
        let Table { words, growth } = self;
        drop(words);
        drop(growth);
    }
}

impl<K: TableKey + Drop, V: Drop> Table<K, V> {
    /// An empty table of 2^power buckets, and its passes, one for each caller of the settings,
    /// numbered from 0. It is refused as `Settings`, which names a setting that is out of its
    /// range, or for want of memory.
    ///
    /// ```
    /// let (table, passes) = Table::<NumKey, u64>::open(alloc, Settings::for_keys(1_000, 4))?;
    /// let mut callers = table.callers(alloc, passes)?;
    /// ```
    pub fn open(
        alloc: Global,
        settings: Settings,
    ) -> Result<(Table<K, V>, Vec<Pass<K, V>>), OpenFault>
        ensures ok { IfOk result (λ r. (r.0.settings ≡ settings)
            × (r.1.items ≡ dealt r.0.table settings (counting 0 settings.callers))
            × AreAllPasses r.0 r.1.items) }
        ensures memory { AreInRange settings → IfErr result (λ fault. fault ≡ OpenFault.Memory) }
        ensures settings { ¬ (AreInRange settings) → (which : OutOfRange)
            × (result ≡ Err (OpenFault.Settings which)) × IsOut settings which }
    {
        if let Some(which) = settings.out_of_range() {
            return Err(OpenFault::Settings(which));
        }
        match Words::open_all(alloc, settings) {
            Ok((words, passes)) => {
                let growth = Growth::new(alloc);
                Ok((Table { words, growth }, passes))
            }
            Err(_) => Err(OpenFault::Memory),
        }
    }

    /// Ends the table, and gives all keys with their values, in rising order of the keys. They are
    /// the map after one legal history, which has the entries of all passes, of each in its order,
    /// and that of what a table with these settings contains. The history is what was decided in
    /// one legal trace of lock steps, in its order, which begins with what each pass has watched.
    /// Refused as busy, or for want of memory for the list, it gives the table and the passes back,
    /// with the same entries.
    ///
    /// ```
    /// match table.close(passes) {
    ///     Ok(pairs) => println!(rt; "{} keys were bound", pairs.len())?,
    ///     Err((_table, passes)) => println!(rt; "not now; {} passes are back", passes.len())?,
    /// }
    /// ```
    pub fn close(self, passes: Vec<Pass<K, V>>) -> Result<Vec<(K, V)>, (Self, Vec<Pass<K, V>>)>
        requires { AreAllPasses self passes.items }
        ensures pairs { IfOk result (λ pairs. (m : Map V)
            × Closes K.hash self.settings passes.items m × ListsInOrder K.name K.cmp pairs.items m) }
        ensures back { IfErr result (λ back. (back.0 ≡ self)
            × AreAllPasses back.0 back.1.items × EachStays passes.items back.1.items) }
    {
        self.words.show_range();
        let mut others = passes;
        let Some(pass) = others.pop() else {
            unreachable!()
        };
        match self.close_by(pass, others) {
            Ok(pairs) => Ok(pairs),
            Err(
                StillOpen {
                    pass,
                    others,
                    held: _,
                },
            ) => {
                let mut passes = others;
                passes.push_reserved(pass);
                Err((self, passes))
            }
        }
    }

    // Ends the table by this pass, given those of all other callers. The pairs are in rising order
    // of their keys.
    pub(crate) fn close_by(
        &self,
        pass: Pass<K, V>,
        others: Vec<Pass<K, V>>,
    ) -> Result<Vec<(K, V)>, StillOpen<K, V>>
        requires { AreAllPasses self.now (others.items ++ pass ∷ []) }
        ensures pairs { IfOk result (λ pairs. (m : Map V)
            × Closes K.hash self.now.settings (others.items ++ pass ∷ []) m
            × ListsInOrder K.name K.cmp pairs.items m) }
        ensures passes { IfErr result (λ back.
            AreAllPasses self.now (back.others.items ++ back.pass ∷ [])) }
        ensures stays { IfErr result (λ back. Stays pass.view back.pass.view) }
        ensures others { IfErr result (λ back. back.others ≡ others) }
        ensures busy { IfErr result (λ back. IfSome back.held (λ t.
            IsBusyAmong (IsStripeIn self.now.settings) self.now.settings t pass back.pass)) }
    {
        let mut pairs = self.words.close(pass, others)?;
        pairs.sort_unstable_by(|a, b| a.0.cmp(&b.0));
        Ok(pairs)
    }

    /// `Caller::tell`, by the pass `a`.
    pub fn tell(&self, a: &mut Pass<K, V>) -> Message<K, V>
        requires { IsCaller self.now a.old }
        ensures own { IsCaller self.now a.new }
        ensures left { a.new ≡ a.old }
        ensures told { result ≡ message_from a.old }
    {
        self.words.tell(a)
    }

    /// `Caller::hear`, by the pass `b`.
    pub fn hear(&self, b: &mut Pass<K, V>, message: Message<K, V>)
        requires own { IsCaller self.now b.old }
        requires of_table { message.table ≡ self.now.table }
        ensures own { IsCaller self.now b.new }
        ensures heard { Hears message b.old b.new }
    {
        self.words.hear(b, message);
    }

    /// `Caller::hear_copy`, by the pass `b`.
    pub fn hear_copy(&self, b: &mut Pass<K, V>, message: &mut Message<K, V>)
        requires own { IsCaller self.now b.old }
        requires of_table { message.old.table ≡ self.now.table }
        ensures own { IsCaller self.now b.new }
        ensures heard { Hears message.old b.old b.new }
        ensures left { message.new ≡ message.old }
    {
        self.words.hear_copy(b, message);
    }

    /// `Caller::meet`, by the passes of both: `b` hears what `a` has seen.
    pub fn meet(&self, a: &mut Pass<K, V>, b: &mut Pass<K, V>)
        requires own { IsCaller self.now a.old × IsCaller self.now b.old }
        ensures own { IsCaller self.now a.new × IsCaller self.now b.new }
        ensures left { a.new ≡ a.old }
        ensures met { Meets a.old b.old b.new }
    {
        self.words.meet(a, b);
    }
}
