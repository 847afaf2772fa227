//! Making room for a key whose buckets are full: other entries go to their other buckets, or in the
//! end the table grows.
ghost use Rattle.std.specs.Prelude.{◌≡◌, ◌^◌, ◌<◌, ◌≤◌, OnErr, IfOk, IfErr};
ghost use Rattle.ck_model.specs.Arithmetic.{alternate_of};
ghost use Rattle.ck_words.specs.Passes.{IsPassOf, IsIdle};
ghost use Rattle.ck_words.specs.Closing.{IsCaller};
ghost use Rattle.cuckoo_map.specs.Insertions.{HasRoom};
ghost use Rattle.cuckoo_map.specs.Refusals.{FindsOwnUnlessFull, IsRefused};
ghost use Rattle.cuckoo_map.specs.Displacing.{EndsBack, SinceFull};

use crate::room::search::Searched;
use crate::room::{Preparation, Room};
use crate::table::Table;
use ck_key::{KeyHash, TableKey};
use ck_path::Path;
use ck_refusal::{Busy, Why};
use ck_section::{Hop, make_hop};
use ck_words::{Pass, StripeSet, guard};
use std::snapshot::Snapshot;

impl<K: TableKey + Drop, V: Drop> Table<K, V> {
    // Makes room for an unbound key whose buckets were found full, in a table of 2^power buckets,
    // and takes its stripes. It displaces entries in at most `rounds` tries. Where a search finds
    // no path it prepares a doubling and takes all stripes, or looks again where another caller has
    // prepared one. After the last try it takes all stripes too.
    #[cold]
    #[inline(never)]
    pub(crate) fn make_room(
        &self,
        pass: &mut Pass<K, V>,
        key: &K,
        power: u32,
        preparation: &mut Preparation<K, V>,
    ) -> Result<Room, Why>
        requires caller { IsCaller self.now pass.old }
        requires power { (self.now.settings.s ≤ power) × (power ≤ 26) }
        ensures own { IsPassOf self.now pass.new }
        ensures room { IfOk result (λ room.
            SinceFull K.hash self.now.settings (K.name key.now) pass.old (λ p.
            HasRoom K.hash self.now.settings (K.name key.now) room p pass.new)) }
        ensures found { SinceFull K.hash self.now.settings (K.name key.now) pass.old (λ p.
            FindsOwnUnlessFull K.hash self.now.settings (K.name key.now) p pass.new) }
        ensures idle { OnErr result (IsIdle pass.new) }
        ensures refused { IfErr result (λ why.
            SinceFull K.hash self.now.settings (K.name key.now) pass.old (λ p.
            IsRefused K.hash self.now.settings (K.name key.now) why p pass.new)) }
    {
        let hash = KeyHash::of(key);
        let mut power = power;
        let rounds = self.words.settings().rounds;
        'tries: for round in 0..=rounds {
            if !self.displace_or_prepare(pass, hash, power, round < rounds, preparation)? {
                break;
            }
            let since = Snapshot::of(pass);
            let spot = self.lock_key(pass, key)?;
            match self.find_room(pass, key, spot, &since) {
                Ok(room) => return Ok(room),
                Err(seen) => power = seen,
            }
        }
        self.make_room_in_all(pass, key, preparation)
    }

    // One try to make room in a bucket of the hash: a search, and the hops of the path that it
    // found, unless it has to leave them to who takes all stripes. Where there was no path, another
    // try is of no use, and a doubling is due. False where the caller is to take all stripes.
    fn displace_or_prepare(
        &self,
        pass: &mut Pass<K, V>,
        hash: KeyHash,
        power: u32,
        may_displace: bool,
        preparation: &mut Preparation<K, V>,
    ) -> Result<bool, Busy>
        requires own { IsPassOf self.now pass.old }
        requires idle { IsIdle pass.old }
        requires power { (self.now.settings.s ≤ power) × (power ≤ 26) }
        ensures { EndsBack self.now result pass.old pass.new }
    {
        match self.search_path(pass, hash, power) {
            Ok(Searched::Path(path)) if may_displace => self.follow(pass, &path)?,
            Ok(Searched::OutOfDate) => {}
            Ok(Searched::Nothing) => return Ok(!self.prepare(preparation, power)),
            Err(busy) if may_displace => return Err(busy),
            // All stripes are taken next, whether the last search saw all that it wanted or not.
            Ok(Searched::Path(_)) | Err(_) => return Ok(false),
        }
        Ok(true)
    }

    // Carries out the hops of a path from its end on, until one finds its buckets changed.
    fn follow(&self, pass: &mut Pass<K, V>, path: &Path) -> Result<(), Busy>
        requires own { IsPassOf self.now pass.old }
        requires idle { IsIdle pass.old }
        ensures { EndsBack self.now result pass.old pass.new }
    {
        let power = path.power();
        let mut target = path.end();
        for step in path.hops_from_end() {
            let hop = Hop {
                power,
                bucket: step.bucket,
                slot: step.slot,
                partial: step.partial,
                target,
            };
            if !self.make_one_hop(pass, hop)? {
                break;
            }
            target = step.bucket;
        }
        Ok(())
    }

    // Carries out one hop, under the stripes of its two buckets, and says whether it could.
    fn make_one_hop(&self, pass: &mut Pass<K, V>, hop: Hop) -> Result<bool, Busy>
        requires own { IsPassOf self.now pass.old }
        requires idle { IsIdle pass.old }
        requires below { hop.bucket < 2 ^ hop.power }
        requires target { hop.target ≡ alternate_of hop.power hop.partial hop.bucket }
        ensures { EndsBack self.now result pass.old pass.new }
    {
        let s = self.words.settings().s;
        let stripes = StripeSet::of_buckets(s, hop.bucket, hop.target);
        if let Err(stripe) = self.words.lock(pass, stripes) {
            return Err(Busy(stripe));
        }
        let mut guard = guard!(&self.words, pass, stripes);
        let hopped = make_hop(&mut guard, s, hop);
        if hopped {
            guard.renew();
        } else {
            guard.release();
        }
        Ok(hopped)
    }
}
