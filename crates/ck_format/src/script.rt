//! What a script says, and what is wrong with a text that is none.
ghost use Rattle.std.specs.Prelude.{◌≡◌, length};
ghost use Rattle.ck_model.specs.Ranges.{AreInRange};

use ck_key::{NumKey, TextKey};
use ck_model::settings::Settings;
use thiserror::Error;

/// The format of a script, by its first line.
#[derive(Clone, Copy, Debug, PartialEq, Eq)]
pub enum Version {
    /// `cuckoo 1`.
    One,
    /// `cuckoo 2`: it has `move`, more workers, and greater tables.
    Two,
}

/// What the keys of a script are.
#[derive(Clone, Copy, Debug, PartialEq, Eq)]
pub enum Keys {
    /// Numbers.
    Num,
    /// Words.
    Text,
}

/// A setting of the table that is a number.
#[derive(Clone, Copy, Debug, PartialEq, Eq)]
pub enum Setting {
    /// `s N`: the table has 2^N stripes.
    S,
    /// `power N`: the table opens with 2^N buckets.
    Power,
    /// `max N`: it grows to 2^N buckets at most.
    Max,
    /// `turns N`: so often a stripe is tried before it is told to be busy.
    Turns,
    /// `rounds N`: so many displacements are tried before all stripes are taken.
    Rounds,
    /// `load N`: so many per cent of the slots must be taken for the table to grow.
    Load,
}

/// A command line, on keys of type `K`.
#[derive(Debug, PartialEq, Eq, Drop)]
pub enum Command<K> {
    /// `find K`: the value that is bound to the key.
    Find(K),
    /// `has K`: whether the key is bound.
    Has(K),
    /// `insert K N`: binds the key to the number, where the key is not bound.
    Insert(K, u64),
    /// `assign K N`: binds the key to the number, whether or not it is bound.
    Assign(K, u64),
    /// `update K N`: binds the key to the number, where the key is bound.
    Update(K, u64),
    /// `add K N`: adds the number to the one that is bound, up to 2^64 - 1, and binds the key to
    /// the number where it is not bound.
    Add(K, u64),
    /// `erase K`: unbinds the key.
    Erase(K),
    /// `len`: how many keys are bound.
    Len,
    /// `list`: all keys with their numbers.
    List,
    /// `move J K N`: takes up to the number from that of `J`, and adds it to that of `K`, as far as
    /// that goes. No text has one key twice here; a command that has is answered as busy, and
    /// changes nothing.
    Move(K, K, u64),
}

/// What a script on keys of type `K` says.
#[derive(Debug, Drop)]
pub struct Work<K> {
    /// What the table is opened with: one caller for each worker.
    pub settings: Settings,
    /// The commands of each worker, in the order of their lines.
    pub workers: Vec<Vec<Command<K>>>,
    ghost range: { AreInRange settings },
    ghost callers: { settings.callers ≡ length workers.items },
}

/// A script.
#[derive(Debug, Drop)]
pub enum Script {
    /// On keys that are numbers.
    Num(Work<NumKey>),
    /// On keys that are words.
    Text(Work<TextKey>),
}

/// What is wrong with a line.
#[derive(Clone, Copy, Debug, PartialEq, Eq, Error)]
pub enum What {
    /// Line 1 is complete and is neither `cuckoo 1` nor `cuckoo 2`.
    #[error("bad header")]
    Header,
    /// A setting that stands twice, or whose value is out of its range; or, at the first line
    /// `worker`, settings that don't fit together.
    #[error("bad setting")]
    Setting,
    /// The words of the line are not those of a line that is allowed there.
    #[error("bad command")]
    Command,
    /// A word in the place of a number is none: it has a byte that is no digit or a leading
    /// zero, or stands for 2^64 or more.
    #[error("bad number")]
    Number,
    /// More than 200 bytes in the line, or 64 in a text key; or one worker or one command line too
    /// many.
    #[error("too long")]
    TooLong,
    /// The input ends before the line feed of the line `end`, or within a line after it.
    #[error("truncated")]
    Truncated,
    /// The reader was refused memory.
    #[error("no memory")]
    Memory,
    /// The source failed.
    #[error("read failed")]
    Read,
}

/// A fault of an input. It is shown as `line L: TEXT`.
#[derive(Clone, Copy, Debug, PartialEq, Eq, Error)]
#[error("line {line}: {what}")]
pub struct ScriptFault {
    /// The line, counted from 1.
    pub line: u64,
    /// What is wrong with it.
    pub what: What,
}
