//! The end of a table.
ghost use Rattle.std.specs.Prelude.{◌≡◌, ℕ, ◌+◌, ◌^◌, ◌<◌, ◌≤◌, ◌∷◌, ◌++◌, [], All, IfSome, IfOk, IfErr, OnOk, OnErr, length, map, vec_capacity};
ghost use Rattle.ck_model.specs.Listing.{named};
ghost use Rattle.std.specs.FinMap.{from_entries};
ghost use Rattle.ck_model.specs.Contents.{NamesApart, pairs_of};
ghost use Rattle.ck_stripe.specs.Stripes.{contents_of};
ghost use Rattle.ck_stripe.specs.Tables.{AreSettled};
ghost use Rattle.ck_model.specs.Counting.{counting};
ghost use Rattle.ck_words.specs.Passes.{IsPassOf, IsIdle, ShowsSeen, numbers_of};
ghost use Rattle.ck_words.specs.Retries.{Stays, IsBusy};
ghost use Rattle.ck_words.specs.Closing.{IsWhole, IsCaller, AreAllPasses, Gathered, Closes};

use crate::guard;
use crate::lift::Whole;
use crate::pass::Pass;
use crate::reserved_list::pour;
use crate::words::Words;
use ck_key::TableKey;
use ck_stripe::len;
use std::alloc::Global;

/// A table could not be ended: its passes, given back.
#[derive(Drop)]
pub struct StillOpen<K: TableKey, V> {
    /// The pass by which it was to end.
    pub pass: Pass<K, V>,
    /// Those of all other callers.
    pub others: Vec<Pass<K, V>>,
    /// The stripe that was found held; `None` where there was no memory.
    pub held: Option<u32>,
}

impl<K: TableKey + Drop, V: Drop> Words<K, V> {
    /// Ends the table, given the pass of one caller and those of all others, and gives its pairs.
    /// There is one history of all that the callers have done, and these pairs are what it leaves:
    /// what all stripes of a table with these settings contain. The history is what was decided in
    /// one legal trace. Nobody can make a call any more.
    ///
    /// It is refused where a stripe was found held, and for want of memory. Then it gives the
    /// passes back, and no entry has changed.
    pub fn close(
        &self,
        pass: Pass<K, V>,
        others: Vec<Pass<K, V>>,
    ) -> Result<Vec<(K, V)>, StillOpen<K, V>>
        requires { AreAllPasses self.now (others.items ++ pass ∷ []) }
        ensures closed { IfOk result (λ pairs. Closes K.hash self.now.settings
            (others.items ++ pass ∷ []) (from_entries (map (named K.name) pairs.items))) }
        ensures apart { IfOk result (λ pairs. NamesApart (map (named K.name) pairs.items)) }
        ensures passes { IfErr result (λ back.
            AreAllPasses self.now (back.others.items ++ back.pass ∷ [])) }
        ensures stays { IfErr result (λ back. Stays pass.view back.pass.view) }
        ensures others { IfErr result (λ back. back.others ≡ others) }
        ensures busy { IfErr result (λ back. IfSome back.held (λ t. (t < 2 ^ self.now.settings.s)
            × IsBusy self.now.settings t pass back.pass)) }
    {
        let mut pass = pass;
        let alloc = *others.allocator();
        match self.hold_with_room(alloc, &mut pass) {
            Ok(pairs) => {
                self.gather_all(&mut pass, others);
                Ok(self.pour(pass, pairs))
            }
            Err(held) => Err(StillOpen { pass, others, held }),
        }
    }

    // Takes all stripes, with no doubling left to carry out, and memory for their pairs. Where it
    // is refused one of them, or the memory, the pass holds none.
    fn hold_with_room(
        &self,
        alloc: Global,
        pass: &mut Pass<K, V>,
    ) -> Result<Vec<(K, V)>, Option<u32>>
        requires own { IsPassOf self.now pass.old }
        requires idle { IsIdle pass.old }
        ensures own { IsPassOf self.now pass.new }
        ensures stays { Stays pass.old.view pass.new.view }
        ensures idle { OnErr result (IsIdle pass.new) }
        ensures busy { IfErr result (λ held. IfSome held (λ t. (t < 2 ^ self.now.settings.s)
            × IsBusy self.now.settings t pass.old pass.new)) }
        ensures whole { OnOk result (IsWhole K.hash self.now.settings pass.new) }
        ensures settled { OnOk result (AreSettled pass.new.stripes) }
        ensures empty { IfOk result (λ pairs. pairs.items ≡ []) }
        ensures room { IfOk result (λ pairs. length (pairs_of (contents_of pass.new.stripes)) + 4
            ≤ vec_capacity pairs) }
    {
        if let Err(held) = self.lock_all(pass) {
            return Err(Some(held));
        }
        self.settle_whole(pass);
        let s = self.settings().s;
        let mut guard = guard!(self, pass, self.all());
        // A bucket is poured where there is room for four more.
        let room = len(&mut guard, s) as usize + 4;
        let Ok(pairs) = Vec::with_capacity(alloc, room) else {
            guard.release();
            return Err(None);
        };
        Ok(pairs)
    }

    // Joins idle passes to another, one after another. After each it sees the history.
    fn gather_all(&self, first: &mut Pass<K, V>, others: Vec<Pass<K, V>>)
        requires own { IsPassOf self.now first.old }
        requires shows { ShowsSeen K.hash self.now.settings first.old }
        requires callers { All (IsCaller self.now) others.items }
        ensures { Gathered K.hash self.now first.old others.items first.new }
    {
        for other in others {
            self.join(first, other);
            self.look(first);
        }
    }

    // Pours the pairs of all stripes, which the pass holds.
    fn pour(&self, pass: Pass<K, V>, mut pairs: Vec<(K, V)>) -> Vec<(K, V)>
        requires own { IsPassOf self.now pass }
        requires numbered { numbers_of pass.stripes ≡ counting 0 (2 ^ self.now.settings.s) }
        requires settled { AreSettled pass.stripes }
        requires empty { pairs.items ≡ [] }
        requires room { length (pairs_of (contents_of pass.stripes)) + 4 ≤ vec_capacity pairs }
        ensures { map (named K.name) result.items ≡ pairs_of (contents_of pass.stripes) }
    {
        let Whole {
            seat: _,
            stripes,
            emptied: _,
        } = self.lift(pass);
        pour(stripes, &mut pairs);
        pairs
    }
}
