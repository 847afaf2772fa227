//! Where bytes go to.
ghost use Rattle.std.specs.Prelude.{◌≡◌, ◌↔◌, ◌<◌, ℕ, List, Option, Bool, true, false, length, take, ⊤, IsTrue, IfErr, OnOk, OnErr, MatchResult};
ghost use Rattle.std.specs.Io.{WritesAtMost};
ghost use Rattle.std.specs.Io.KnownBytes.{Appends, WriteAppends};

use crate::source::Failed;
use std::io::Write;

/// A device that takes bytes.
pub trait Sink {
    /// The bytes that it has taken so far, where they are known.
    ghost taken: { Self → Option (List ℕ) };

    /// Whether a write has failed.
    ghost has_failed: { Self → Bool };

    /// Takes the first bytes of a piece, and returns how many.
    /// A count of 0 for a piece that is not empty is a failure too.
    /// An `Err` has taken nothing. A device that has failed is not written to again.
    fn write(&mut self, bytes: &[u8]) -> Result<usize, Failed>
        requires { has_failed self.old ≡ false }
        ensures bound { WritesAtMost result bytes.now }
        ensures taken { WriteAppends (taken self.old) (taken self.new) result bytes.now }
        ensures failed { IsTrue (has_failed self.new) ↔
            MatchResult result (λ n. (n ≡ 0) × (0 < length bytes.now)) (λ _. ⊤) };
}

/// One of std's writers as a sink. An error of any kind is a failure, and is not tried again.
/// Nothing is flushed: what a buffered writer holds back counts as taken.
#[derive(Drop)]
pub struct IntoWrite<W: Write + Drop> {
    inner: W,
    has_failed: bool,
}

impl<W: Write + Drop> IntoWrite<W> {
    /// A sink that has not failed, with what the writer has taken.
    pub fn new(inner: W) -> Self
        ensures taken { ⟦<IntoWrite<W> as Sink>⟧.taken result ≡ W.contents inner }
        ensures failed { ⟦<IntoWrite<W> as Sink>⟧.has_failed result ≡ false }
    {
        IntoWrite {
            inner,
            has_failed: false,
        }
    }
}

impl<W: Write + Drop> Sink for IntoWrite<W> {
    ghost taken = { λ s. W.contents s.inner };

    ghost has_failed = { λ s. s.has_failed };

    fn write(&mut self, bytes: &[u8]) -> Result<usize, Failed> {
        match self.inner.write(bytes) {
            Ok(n) => {
                self.has_failed = n == 0 && !bytes.is_empty();
                Ok(n)
            }
            Err(_) => {
                self.has_failed = true;
                Err(Failed)
            }
        }
    }
}

/// Gives all of the bytes to the sink. An `Err` is how many of them it took before it failed.
pub fn write_all<W: Sink>(sink: &mut W, bytes: &[u8]) -> Result<(), u64>
    requires { W.has_failed sink.old ≡ false }
    ensures works { OnOk result (W.has_failed sink.new ≡ false) }
    ensures whole { OnOk result (Appends (W.taken sink.old) (W.taken sink.new) bytes.now) }
    ensures failed { OnErr result (W.has_failed sink.new ≡ true) }
    ensures front { IfErr result (λ n.
        Appends (W.taken sink.old) (W.taken sink.new) (take n bytes.now)) }
    ensures short { IfErr result (λ n. n < length bytes.now) }
{
    let mut written = 0;
    while written < bytes.len() {
        match sink.write(&bytes[written..]) {
            Ok(n) if n > 0 => written += n,
            _ => return Err(written as u64),
        }
    }
    Ok(())
}
