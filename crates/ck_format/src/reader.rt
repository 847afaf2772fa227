//! Reading a script, a block of bytes at a time.
ghost use Rattle.std.specs.Prelude.{◌≡◌, ◌≢◌, ◌↔◌, ◌≤◌, ◌<◌, ◌+◌, ◌++◌, ◌∷◌, [], List, ℕ, length, true, false, Ok, Err, Some, None, OnOk, IfOk, IfErr, IfSome, IfNone, All};
ghost use Rattle.ck_format.specs.Spells.{Spells};
ghost use Rattle.ck_format.specs.FirstFault.{first_fault, first_fault_behind, IsCutIn, StopsIn};
ghost use Rattle.ck_format.specs.Script.{OnTextFault, said_of};
ghost use Rattle.ck_format.specs.Lines.{is_feed};

use crate::script::{Script, ScriptFault, What};
use crate::source::Source;
use crate::stage::Stage;
use memchr::memchr;
use std::alloc::Global;

const MOST_BYTES: usize = 200;

/// The line that is read, and what is known where it begins.
#[derive(Drop)]
pub struct Place {
    stage: Stage,
    number: u64,
}

/// What was read so far, and the front of the line that is not ended yet.
#[derive(Drop)]
pub struct ScriptReader {
    place: Place,
    front: Vec<u8>,
}

// The bytes before the first line feed, and those after it.
fn cut_line(bytes: &[u8]) -> Option<(&[u8], &[u8])>
    ensures found { IfSome result (λ r.
        (bytes.now ≡ r.0.now ++ 10 ∷ r.1.now) × All (λ b. is_feed b ≡ false) r.0.now) }
    ensures none { IfNone result (All (λ b. is_feed b ≡ false) bytes.now) }
{
    match memchr(b'\n', bytes) {
        None => None,
        Some(at) => Some((&bytes[..at], &bytes[at + 1..])),
    }
}

impl Place {
    ghost use Rattle.ck_format.specs.Taken.{StandsBehind, IsInScript};

    // What is wrong with the line.
    fn fault(&self, what: What) -> ScriptFault
        ensures { result ≡ record { line = self.now.number; what = what } }
    {
        ScriptFault {
            line: self.number,
            what,
        }
    }

    // Takes a line that a line feed ends.
    fn take(&mut self, alloc: Global, line: &[u8]) -> Result<(), ScriptFault>
        requires limits { IsInScript self.old }
        requires no_feed { All (λ b. is_feed b ≡ false) line.now }
        ensures limits { OnOk result (IsInScript self.new) }
        ensures number { OnOk result (self.new.number ≡ self.old.number + 1) }
        ensures short { OnOk result (length line.now ≤ 200) }
        ensures ok { OnOk result ((lines : List (List ℕ)) →
            StandsBehind self.old lines → StandsBehind self.new (lines ++ line.now ∷ [])) }
        ensures err { IfErr result (λ e. (lines more : List (List ℕ)) →
            StandsBehind self.old lines → 0 < length more →
            OnTextFault e.what (first_fault_behind lines (line.now ∷ more) ≡ Some e)) }
        ensures here { IfErr result (λ e. e.line ≡ self.old.number) }
        ensures text { IfErr result (λ e. e.what ≢ What.Read) }
    {
        if line.len() > MOST_BYTES {
            return Err(self.fault(What::TooLong));
        }
        match self.stage.take(alloc, line) {
            Ok(()) => {
                self.number += 1;
                Ok(())
            }
            Err(what) => Err(self.fault(what)),
        }
    }
}

impl ScriptReader {
    ghost use Rattle.ck_format.specs.Taken.{HasTakenLines, IsWithinLimits, FaultOf, StopsWithin, size_of};

    // A reader before the first byte.
    fn new(alloc: Global) -> Self
        ensures limits { IsWithinLimits result }
        ensures taken { HasTakenLines result [] }
    {
        ScriptReader {
            place: Place {
                stage: Stage::Header,
                number: 1,
            },
            front: Vec::new(alloc),
        }
    }

    // Takes more of a line, in which no line feed is.
    fn extend(&mut self, piece: &[u8]) -> Result<(), ScriptFault>
        requires limits { IsWithinLimits self.old }
        requires piece { All (λ b. is_feed b ≡ false) piece.now }
        ensures limits { OnOk result (IsWithinLimits self.new) }
        ensures size { OnOk result (size_of self.new ≡ size_of self.old + length piece.now) }
        ensures ok { OnOk result ((bytes : List ℕ) →
            HasTakenLines self.old bytes → HasTakenLines self.new (bytes ++ piece.now)) }
        ensures err { IfErr result (λ e. FaultOf self.old piece.now e) }
        ensures text { IfErr result (λ e. e.what ≢ What.Read) }
        ensures memory { IfErr result (λ e. e.what ≡ What.Memory →
            StopsWithin self.old piece.now e.line) }
    {
        if piece.len() > MOST_BYTES - self.front.len() {
            return Err(self.place.fault(What::TooLong));
        }
        match self.front.extend_from_slice(piece) {
            Ok(()) => Ok(()),
            Err(_) => Err(self.place.fault(What::Memory)),
        }
    }

    // Takes the rest of a line, and its line feed.
    fn end_line(&mut self, alloc: Global, rest: &[u8]) -> Result<(), ScriptFault>
        requires limits { IsWithinLimits self.old }
        requires rest { All (λ b. is_feed b ≡ false) rest.now }
        ensures limits { OnOk result (IsWithinLimits self.new) }
        ensures size { OnOk result (size_of self.old + length rest.now < size_of self.new) }
        ensures ok { OnOk result ((bytes : List ℕ) →
            HasTakenLines self.old bytes
            → HasTakenLines self.new (bytes ++ (rest.now ++ 10 ∷ []))) }
        ensures err { IfErr result (λ e. FaultOf self.old (rest.now ++ 10 ∷ []) e) }
        ensures text { IfErr result (λ e. e.what ≢ What.Read) }
        ensures memory { IfErr result (λ e. e.what ≡ What.Memory →
            StopsWithin self.old (rest.now ++ 10 ∷ []) e.line) }
    {
        if self.front.is_empty() {
            return self.place.take(alloc, rest);
        }
        self.extend(rest)?;
        self.place.take(alloc, &self.front)?;
        self.front.clear();
        Ok(())
    }

    // Takes a block of bytes.
    fn feed(&mut self, alloc: Global, block: &[u8]) -> Result<(), ScriptFault>
        requires { IsWithinLimits self.old }
        ensures limits { OnOk result (IsWithinLimits self.new) }
        ensures size { OnOk result (size_of self.old + length block.now ≤ size_of self.new) }
        ensures ok { OnOk result ((bytes : List ℕ) →
            HasTakenLines self.old bytes → HasTakenLines self.new (bytes ++ block.now)) }
        ensures err { IfErr result (λ e. FaultOf self.old block.now e) }
        ensures text { IfErr result (λ e. e.what ≢ What.Read) }
        ensures memory { IfErr result (λ e. e.what ≡ What.Memory →
            StopsWithin self.old block.now e.line) }
    {
        let mut rest = block;
        while let Some((line, after)) = cut_line(rest) {
            self.end_line(alloc, line)?;
            rest = after;
        }
        self.extend(rest)
    }

    // The script, where the input ends here.
    fn finish(self) -> Result<Script, ScriptFault>
        requires { IsWithinLimits self }
        ensures ok { IfOk result (λ s. (bytes : List ℕ) →
            HasTakenLines self bytes → Spells bytes (said_of s)) }
        ensures err { IfErr result (λ e. (bytes : List ℕ) →
            HasTakenLines self bytes → first_fault bytes ≡ Some e) }
        ensures text { IfErr result (λ e. e.what ≡ What.Truncated) }
    {
        let fault = self.place.fault(What::Truncated);
        if !self.front.is_empty() {
            return Err(fault);
        }
        match self.place.stage.script() {
            Some(script) => Ok(script),
            None => Err(fault),
        }
    }
}

const BLOCK: usize = 4096;

// Reads to the end of the source.
fn read_all<R: Source>(alloc: Global, source: &mut R) -> Result<Script, ScriptFault>
    requires { R.has_failed source.old ≡ false }
    ensures spelled { IfOk result (λ s.
        IfSome (R.left source.old) (λ bytes. Spells bytes (said_of s))) }
    ensures fault { IfErr result (λ e. IfSome (R.left source.old) (λ bytes.
        OnTextFault e.what (first_fault bytes ≡ Some e))) }
    ensures works { OnOk result (R.has_failed source.new ≡ false) }
    ensures failed { IfErr result (λ e. (e.what ≡ What.Read) ↔ (R.has_failed source.new ≡ true)) }
    ensures cut { IfErr result (λ e. e.what ≡ What.Read →
        IsCutIn (R.left source.old) (R.left source.new) e.line) }
    ensures memory { IfErr result (λ e. e.what ≡ What.Memory →
        StopsIn (R.left source.old) (R.left source.new) e.line) }
{
    let mut reader = ScriptReader::new(alloc);
    let mut block = [0; BLOCK];
    loop {
        match source.read(&mut block) {
            Err(_) => return Err(reader.place.fault(What::Read)),
            Ok(0) => return reader.finish(),
            Ok(n) => match reader.feed(alloc, &block[..n]) {
                Ok(()) => {}
                Err(fault) => return Err(fault),
            },
        }
    }
}

/// Reads a script to the end of the source, in blocks of 4096 bytes.
///
/// An `Err` is the first fault of the text; or `Memory`, where the reader was refused memory before
/// it came to a fault; or `Read`, where the source failed before. It holds the line in which that
/// came up. The source may have given bytes behind the fault, which are lost.
pub fn read_script<R: Source>(alloc: Global, source: &mut R) -> Result<Script, ScriptFault>
    requires { R.has_failed source.old ≡ false }
    // What is read is in the grammar.
    ensures spelled { IfSome (R.left source.old) (λ bytes.
        IfOk result (λ s. Spells bytes (said_of s))) }
    // A fault of the text is the first one.
    ensures fault { IfSome (R.left source.old) (λ bytes.
        IfErr result (λ e. OnTextFault e.what (first_fault bytes ≡ Some e))) }
    // The source has failed exactly where the fault says so.
    ensures works { OnOk result (R.has_failed source.new ≡ false) }
    ensures failed { IfErr result (λ e. (e.what ≡ What.Read) ↔ (R.has_failed source.new ≡ true)) }
    // What was read until then has no fault before its end, and ends in the fault's line.
    ensures cut { IfErr result (λ e. e.what ≡ What.Read →
        IsCutIn (R.left source.old) (R.left source.new) e.line) }
    // So does some of what was read until memory was refused.
    ensures memory { IfErr result (λ e. e.what ≡ What.Memory →
        StopsIn (R.left source.old) (R.left source.new) e.line) }
{
    read_all(alloc, source)
}
