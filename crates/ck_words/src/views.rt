//! What a pass knows, split off and joined to what another knows.
ghost use Rattle.std.specs.Prelude.{◌≡◌};
ghost use Rattle.ck_core.specs.Steps.{joining};
ghost use Rattle.ck_words.specs.Passes.{IsPassIn, IsPassOf, IsIdle};
ghost use Rattle.ck_words.specs.Meeting.{message_from, Hears, Meets};

use crate::pass::Pass;
use crate::rule::StripeSeat;
use crate::words::Words;
use atomic_table::{Join, Split};
use ck_core::known::Known;
use ck_key::TableKey;
use std::marker::Model;

/// What a caller has seen is split off, and joined to another caller's view.
pub struct Tell;

impl<V> Split<Known<V>> for Tell {
    ghost use Rattle.ck_core.specs.Steps.{message_of};

    ghost left = { λ v. v };

    ghost right = { message_of };
}

impl<V> Join<Known<V>> for Tell {
    ghost use Rattle.ck_core.specs.Steps.{joining, spent};

    ghost both = { joining };

    ghost spent = { spent };
}

/// What a caller had seen and was told, for another caller of its table to hear. It may go to
/// another thread.
#[derive(Drop)]
pub struct Message<K: TableKey, V> {
    pub(crate) seat: StripeSeat<K, V>,
}

impl<K: TableKey, V> Model for Message<K, V> {
    ghost use Rattle.ck_words.specs.Meeting.{MessageState, told_by, IsMessage};

    ghost Value = { MessageState V };

    ghost view = { λ m. told_by m.seat.table_id m.seat.me };

    ghost invariant = { λ m. IsMessage m.seat.me };
}

impl<K: TableKey + Drop, V: Drop> Words<K, V> {
    /// What `a` has seen and was told, for another to hear.
    pub fn tell(&self, a: &mut Pass<K, V>) -> Message<K, V>
        requires own { IsPassOf self.now a.old }
        ensures left { a.new ≡ a.old }
        ensures told { result ≡ message_from a.old }
    {
        let seat = self.table.shared.split_seat::<Tell>(&mut a.seat);
        Message { seat }
    }

    /// Lets `b` hear what another caller told: what that one had seen is then a beginning of what
    /// `b` has seen, and `b` was told no lower power. What `b` had seen is a beginning too.
    pub fn hear(&self, b: &mut Pass<K, V>, message: Message<K, V>)
        requires own { IsPassOf self.now b.old }
        requires of_table { message.table ≡ self.now.table }
        ensures own { IsPassOf self.now b.new }
        ensures heard { Hears message b.old b.new }
    {
        let Message { seat } = message;
        self.table.shared.join_seat::<Tell>(&mut b.seat, seat);
        self.look(b);
    }

    /// The same of a message that stays, for others to hear.
    pub fn hear_copy(&self, b: &mut Pass<K, V>, message: &mut Message<K, V>)
        requires own { IsPassOf self.now b.old }
        requires of_table { message.old.table ≡ self.now.table }
        ensures own { IsPassOf self.now b.new }
        ensures heard { Hears message.old b.old b.new }
        ensures left { message.new ≡ message.old }
    {
        let seat = self.table.shared.split_seat::<Tell>(&mut message.seat);
        self.hear(b, Message { seat });
    }

    /// Tells `b` what `a` has seen: that is then a beginning of what `b` has seen, and `b` was told
    /// no lower power. What `b` had seen is a beginning too.
    pub fn meet(&self, a: &mut Pass<K, V>, b: &mut Pass<K, V>)
        requires own { IsPassOf self.now a.old × IsPassOf self.now b.old }
        ensures own { IsPassOf self.now b.new }
        ensures left { a.new ≡ a.old }
        ensures met { Meets a.old b.old b.new }
    {
        let message = self.tell(a);
        self.hear(b, message);
    }

    /// Joins an idle pass to another, which has then heard what it has seen, and keeps its numbers.
    pub(crate) fn join(&self, first: &mut Pass<K, V>, other: Pass<K, V>)
        requires own { IsPassOf self.now first.old × IsPassOf self.now other }
        requires idle { IsIdle other }
        ensures own { IsPassIn self.now first.new }
        ensures joined { first.new ≡ record first.old { view = joining first.old.view other.view } }
    {
        let Pass { seat, .. } = other;
        self.table.shared.join_seat::<Tell>(&mut first.seat, seat);
    }
}
