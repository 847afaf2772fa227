//! Calls on a locked table that change or unbind a bound key.
ghost use Rattle.std.specs.Prelude.{OnSome};
ghost use Rattle.std.specs.Fn.{FnOnceReturnsAt};
ghost use Rattle.ck_section.specs.Acts.{Updates, Modifies, Changes, Erases, ReplacesIf, TriesChange};
ghost use Rattle.cuckoo_map.specs.Locking.{HasChanged, HasRoomFor, KeepsRoom};

use crate::locked::LockedOn;
use crate::table_ref::TableRef;
use ck_key::{Query, TableKey};
use ck_section::{erase, modify, replace_if, update, update_fn, value_and_outcome};

impl<T: TableRef<K, V> + Drop, K: TableKey + Drop, V: Drop> LockedOn<T, K, V> {
    /// `Caller::update`, which is never refused.
    pub fn update<Q: Query<K>>(&mut self, key: Q, value: V) -> Option<V>
        ensures updated { Updates value (HasChanged (Q.name key) self.old self.new) result }
        ensures others { KeepsRoom K.hash self.old self.new }
    {
        let place = self.key_place(key);
        update(&mut self.whole, place, key, value)
    }

    /// `Caller::update_fn`.
    pub fn update_fn<Q: Query<K>, F: FnOnce(V) -> V + Drop>(&mut self, key: Q, f: F) -> bool
        requires call { F.IsAlwaysCallable f }
        ensures changed { Changes (F.post f) (HasChanged (Q.name key) self.old self.new) result }
        ensures others { KeepsRoom K.hash self.old self.new }
    {
        let place = self.key_place(key);
        update_fn(&mut self.whole, place, key, f)
    }

    /// `Caller::modify`.
    pub fn modify<Q: Query<K>, R, F: FnOnce(V) -> (V, R) + Drop>(
        &mut self,
        key: Q,
        f: F,
    ) -> Option<R>
        requires call { F.IsAlwaysCallable f }
        ensures modified { Modifies (F.post f) (HasChanged (Q.name key) self.old self.new) result }
        ensures others { KeepsRoom K.hash self.old self.new }
    {
        let place = self.key_place(key);
        let answer = modify(&mut self.whole, place, key, f);
        answer.ok()
    }

    /// `Caller::erase`. The key has room then: put back next, or after other erasures, changes of
    /// bound keys and refused insertions, it isn't refused.
    ///
    /// ```
    /// if let Some(value) = locked.erase(&NumKey(7))
    ///     && let Err(refused) = locked.insert(NumKey(8), value)
    /// {
    ///     let Ok(_) = locked.insert(NumKey(7), refused.value) else {
    ///         unreachable!()
    ///     };
    /// }
    /// ```
    pub fn erase<Q: Query<K>>(&mut self, key: Q) -> Option<V>
        ensures erased { Erases (HasChanged (Q.name key) self.old self.new) result }
        ensures room { OnSome result (HasRoomFor K.hash (Q.name key) self.new) }
        ensures others { KeepsRoom K.hash self.old self.new }
    {
        let place = self.key_place(key);
        erase(&mut self.whole, place, key)
    }

    /// `Caller::replace_if`.
    pub fn replace_if<Q: Query<K>, F: FnOnce(&V) -> Option<V> + Drop>(
        &mut self,
        key: Q,
        f: F,
    ) -> Option<bool>
        requires call { F.IsAlwaysCallable f }
        ensures replaced { ReplacesIf (FnOnceReturnsAt F.FnOnce f)
            (HasChanged (Q.name key) self.old self.new) result }
        ensures others { KeepsRoom K.hash self.old self.new }
    {
        let place = self.key_place(key);
        let replaced = replace_if(&mut self.whole, place, key, f);
        replaced.ok()
    }

    /// `Caller::try_update`.
    pub fn try_update<Q: Query<K>, E, F: FnOnce(V) -> Result<V, (V, E)> + Drop>(
        &mut self,
        key: Q,
        f: F,
    ) -> Option<Result<(), E>>
        requires call { F.IsAlwaysCallable f }
        ensures changed { TriesChange (F.post f) (HasChanged (Q.name key) self.old self.new) result }
        ensures others { KeepsRoom K.hash self.old self.new }
    {
        self.modify(key, |value: V| value_and_outcome(f(value)))
    }
}
