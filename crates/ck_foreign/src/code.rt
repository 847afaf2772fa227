//! What C is told of a call.
ghost use Rattle.std.specs.Prelude.{◌≡◌};
ghost use Rattle.ck_foreign.specs.Codes.{number_of, code_of_why, code_of_keys, code_of_rename, code_of_fault};

use cuckoo_map::{GrowFault, KeysRefused, RoomFault, Why};

/// What C is told of a call. An answer is at least 0 as a number, and a refusal below 0.
#[derive(Clone, Copy, PartialEq, Eq)]
pub enum Code {
    /// It was done: the key was unbound where it was to be bound, and else bound.
    Done,
    /// The key is unbound.
    Absent,
    /// The key was bound before.
    Present,
    /// The key is bound to another value than the one that was asked for.
    Different,
    /// The table had so many slots before.
    Enough,
    /// A value is less than what was to be taken from it, or would be too large.
    Short,
    /// A stripe was found held in all tries.
    Busy,
    /// There is no memory.
    Memory,
    /// No room, and the table may not grow beyond its greatest power.
    Full,
    /// No room, and too few slots are taken for the table to grow.
    LoadTooLow,
    /// The table may not have so many buckets.
    OverMax,
    /// A setting is not in its range.
    Settings,
    /// A text has more than 64 bytes.
    TooLong,
    /// The handle is closed.
    Closed,
    /// The handle is open already.
    Open,
    /// A key stands twice.
    Twice,
    /// The keys are none, or more than eight.
    Count,
}

impl Code {
    /// Its number, as the headers have it.
    #[inline(always)]
    pub fn number(self) -> i32
        ensures { result ≡ number_of self }
    {
        match self {
            Code::Done => 0,
            Code::Absent => 1,
            Code::Present => 2,
            Code::Different => 3,
            Code::Enough => 4,
            Code::Short => 5,
            Code::Busy => -1,
            Code::Memory => -2,
            Code::Full => -3,
            Code::LoadTooLow => -4,
            Code::OverMax => -5,
            Code::Settings => -6,
            Code::TooLong => -7,
            Code::Closed => -8,
            Code::Open => -9,
            Code::Twice => -10,
            Code::Count => -11,
        }
    }

    /// Why an insertion was refused.
    #[inline(always)]
    pub fn of_why(why: Why) -> Code
        ensures { result ≡ code_of_why why }
    {
        match why {
            Why::Busy(_) => Code::Busy,
            Why::Memory => Code::Memory,
            Why::Full => Code::Full,
            Why::LoadTooLow => Code::LoadTooLow,
        }
    }

    /// Why a call on several keys was refused.
    pub fn of_keys(why: KeysRefused) -> Code
        ensures { result ≡ code_of_keys why }
    {
        match why {
            KeysRefused::Busy(_) => Code::Busy,
            KeysRefused::Twice(_) => Code::Twice,
        }
    }

    /// Why a rename was refused.
    pub fn of_rename(why: RoomFault) -> Code
        ensures { result ≡ code_of_rename why }
    {
        match why {
            RoomFault::Keys(why) => Code::of_keys(why),
            RoomFault::Room(why) => Code::of_why(why),
        }
    }

    /// Why the table was not made to grow.
    pub fn of_fault(fault: GrowFault) -> Code
        ensures { result ≡ code_of_fault fault }
    {
        match fault {
            GrowFault::Busy(_) => Code::Busy,
            GrowFault::Memory => Code::Memory,
            GrowFault::OverMax => Code::OverMax,
        }
    }
}
