//! What a table is opened with.
ghost use Rattle.std.specs.Prelude.{IsTrue, ◌≡◌, ◌↔◌, ◌⊎◌, ◌≤◌, ◌<◌, ◌-◌, ◌*◌, ◌^◌, IfSome, IfNone, min};

use thiserror::Error;

/// What a table is opened with. All of it stays as it is, but for the power, which rises.
#[derive(Clone, Copy, Debug, PartialEq, Eq)]
pub struct Settings {
    /// The table has 2^s stripes: 0..=10, and at most `power`. Calls on keys of different stripes
    /// don't wait for one another. With few stripes they do, and a doubling that was put off is long
    /// for whoever carries it out; many cost 64 bytes each. So 10, but for small tables.
    pub s: u32,
    /// The table opens with 2^power buckets of four slots: 1..=`max`. It grows where it is too
    /// small, which costs insertions, and it never shrinks.
    pub power: u32,
    /// It never has more than 2^max buckets: 1..=26. An entry without room is then refused as
    /// `Full`. A smaller one bounds the memory.
    pub max: u32,
    /// How many callers there are: 1..=1024, one for each thread that makes calls at a time.
    pub callers: u32,
    /// How often a call tries to take a stripe before it is refused as busy: 1 at least. With
    /// `u32::MAX` it waits as long as it takes. With few it comes back soon where another caller is
    /// slow, or locks the table, and the program has to try again.
    pub turns: u32,
    /// How many tries an insertion makes to displace entries without the whole table: 0..=64. With
    /// none it takes the whole table for each displacement.
    pub rounds: u32,
    /// An insertion makes the table grow only where this many per cent of its slots are taken:
    /// 0..=100. Else an entry without room is refused as `LoadTooLow`, so that keys which share
    /// their buckets, as an attacker may choose them, don't make it grow to `max`. Above 50 it
    /// refuses keys that are due.
    pub min_load: u32,
}

/// The setting that is not in its range.
#[derive(Clone, Copy, Debug, PartialEq, Eq, Error)]
pub enum OutOfRange {
    /// `s`.
    #[error("s may be 0 to 10, and at most the power")]
    Stripes,
    /// `power`.
    #[error("power may be 1 to max")]
    Power,
    /// `max`.
    #[error("max may be 1 to 26")]
    Max,
    /// `callers`.
    #[error("callers may be 1 to 1024")]
    Callers,
    /// `turns`.
    #[error("turns may be 1 and more")]
    Turns,
    /// `rounds`.
    #[error("rounds may be 0 to 64")]
    Rounds,
    /// `min_load`.
    #[error("min_load may be 0 to 100")]
    MinLoad,
}

impl Default for Settings {
    ghost use Rattle.ck_model.specs.Ranges.{AreInRange};

    ghost is_default = { AreInRange };

    /// [`Settings::DEFAULT`].
    fn default() -> Settings
        ensures same { result ≡ Settings.DEFAULT }
        ensures range { AreInRange result }
    {
        Settings::DEFAULT
    }
}

impl Settings {
    ghost use Rattle.ck_model.specs.Ranges.{AreInRange, IsFirstOut};

    /// Settings of a table for one caller that opens with 1,024 buckets and as many stripes: what
    /// `for_keys` gives for up to 3,072 keys, from 1,537 on.
    ///
    /// ```
    /// let settings = Settings { callers: 8, min_load: 0, ..Settings::DEFAULT };
    /// ```
    pub const DEFAULT: Settings = Settings {
        s: 10,
        power: 10,
        max: 26,
        callers: 1,
        turns: u32::MAX,
        rounds: 4,
        min_load: 5,
    };

    /// Settings for about so many keys, and for so many callers, of whom there may be 1,024.
    ///
    /// The table opens with so many buckets that the keys take at most three quarters of its slots,
    /// and grows where more come, up to 2^26 buckets. It has 1,024 stripes, or as many as it has
    /// buckets. A call waits for a stripe as long as it takes (`turns` is `u32::MAX`); an insertion
    /// makes four tries to displace entries before it takes the whole table, which grows where at
    /// least 5 per cent of its slots are taken.
    ///
    /// ```
    /// let settings = Settings::for_keys(1_000_000, 4);
    /// let impatient = Settings { turns: 1000, ..Settings::for_keys(1_000_000, 4) };
    /// ```
    pub const fn for_keys(keys: u64, callers: u32) -> Settings
        ensures callers { result.callers ≡ callers }
        ensures range { AreInRange result ↔ ((1 ≤ callers) × (callers ≤ 1024)) }
        ensures room { (result.power ≡ 26) ⊎ (keys ≤ 3 * 2 ^ result.power) }
        ensures least { (result.power ≡ 1) ⊎ (3 * 2 ^ (result.power - 1) < keys) }
        ensures grows { result.max ≡ 26 }
        ensures stripes { result.s ≡ min result.power 10 }
        ensures waits { result.turns ≡ 2 ^ 32 - 1 }
        ensures tries { (result.rounds ≡ 4) × (result.min_load ≡ 5) }
    {
        let power = power_for(keys);
        Settings {
            s: if power < 10 { power } else { 10 },
            power,
            max: 26,
            callers,
            turns: u32::MAX,
            rounds: 4,
            min_load: 5,
        }
    }

    /// The first setting that is not in its range, in the order of [`OutOfRange`]; `None` where all
    /// are.
    pub fn out_of_range(&self) -> Option<OutOfRange>
        ensures none { IfNone result (AreInRange self.now) }
        ensures some { IfSome result (IsFirstOut self.now) }
    {
        if self.s > 10 || self.s > self.power {
            Some(OutOfRange::Stripes)
        } else if self.power < 1 || self.power > self.max {
            Some(OutOfRange::Power)
        } else if self.max > 26 {
            Some(OutOfRange::Max)
        } else if self.callers < 1 || self.callers > 1024 {
            Some(OutOfRange::Callers)
        } else if self.turns < 1 {
            Some(OutOfRange::Turns)
        } else if self.rounds > 64 {
            Some(OutOfRange::Rounds)
        } else if self.min_load > 100 {
            Some(OutOfRange::MinLoad)
        } else {
            None
        }
    }

    /// Whether each setting is in its range.
    pub fn are_in_range(&self) -> bool
        ensures { IsTrue result ↔ AreInRange self.now }
    {
        self.out_of_range().is_none()
    }
}

// The least power from 1 on at which so many keys take three quarters of the slots at most, or 26.
const fn power_for(keys: u64) -> u32
    ensures some { 1 ≤ result }
    ensures most { result ≤ 26 }
    ensures room { (result ≡ 26) ⊎ (keys ≤ 3 * 2 ^ result) }
    ensures least { (result ≡ 1) ⊎ (3 * 2 ^ (result - 1) < keys) }
{
    let mut power = 1;
    while power < 26 && 3 << power < keys {
        power += 1;
    }
    power
}
