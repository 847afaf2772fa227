//! The search for a displacement path. It looks at one bucket at a time, so it keeps no other
//! caller from more than that.
ghost use Rattle.std.specs.Prelude.{◌^◌, ◌<◌, ◌≤◌, IfErr};
ghost use Rattle.ck_words.specs.Passes.{IsPassOf, IsIdle};
ghost use Rattle.cuckoo_map.specs.Displacing.{EndsBack};

use crate::table::Table;
use ck_key::{KeyHash, TableKey, alternate, index};
use ck_path::{Path, Search};
use ck_refusal::Busy;
use ck_section::sketch;
use ck_stripe::{Held, one_stripe};
use ck_words::{Pass, StripeSet, guard};

// What a search came to.
#[derive(Drop)]
pub(crate) enum Searched {
    // A way to make room, as the buckets were when they were looked at.
    Path(Path),
    // All buckets that can be reached by at most four hops were full.
    Nothing,
    // The table has another power by now.
    OutOfDate,
}

impl<K: TableKey + Drop, V: Drop> Table<K, V> {
    // Searches a table of 2^power buckets for a way to make room in a bucket of the hash.
    pub(crate) fn search_path(
        &self,
        pass: &mut Pass<K, V>,
        hash: KeyHash,
        power: u32,
    ) -> Result<Searched, Busy>
        requires own { IsPassOf self.now pass.old }
        requires idle { IsIdle pass.old }
        requires power { power ≤ 26 }
        ensures { EndsBack self.now result pass.old pass.new }
    {
        let first = index(power, hash.hash);
        let mut search = Search::start(power, first, alternate(power, hash.partial, first));
        while let Some(bucket) = search.next_bucket() {
            let Some(sketch) = self.try_sketch(pass, power, bucket)? else {
                return Ok(Searched::OutOfDate);
            };
            if let Some(path) = search.feed(sketch) {
                return Ok(Searched::Path(path));
            }
        }
        Ok(Searched::Nothing)
    }

    // The partials in a bucket, where the table has 2^power buckets still. The bucket's stripe is
    // held no longer than that.
    fn try_sketch(
        &self,
        pass: &mut Pass<K, V>,
        power: u32,
        bucket: u64,
    ) -> Result<Option<[Option<u8>; 4]>, Busy>
        requires own { IsPassOf self.now pass.old }
        requires idle { IsIdle pass.old }
        requires below { bucket < 2 ^ power }
        ensures { EndsBack self.now result pass.old pass.new }
    {
        let s = self.words.settings().s;
        let stripe = StripeSet::of_buckets(s, bucket, bucket);
        if let Err(stripe) = self.words.lock(pass, stripe) {
            return Err(Busy(stripe));
        }
        let mut guard = guard!(&self.words, pass, stripe);
        let seen = if one_stripe::power(&mut guard, 0) == power {
            Some(sketch(&mut guard, s, bucket))
        } else {
            None
        };
        guard.release();
        Ok(seen)
    }
}
