//! A sink over a writer.

use crate::sink::Sink;
use crate::stop::Stop;
use std::io::Write;

/// A sink over a writer, of whose bytes nothing is told. It flushes after each write.
#[derive(Drop)]
pub struct StdSink<W: Write + Drop> {
    inner: W,
    faults: u64,
}

impl<W: Write + Drop> StdSink<W> {
    ghost use Rattle.std.specs.Prelude.{◌≡◌, None, false};
    ghost use Rattle.cla_io.specs.StdSink.{writer_of};

    /// A sink that writes by `inner`.
    pub fn new(inner: W) -> StdSink<W>
        ensures told { ⟦<StdSink<W> as Sink>⟧.told result ≡ None }
        ensures faults { ⟦<StdSink<W> as Sink>⟧.faults result ≡ 0 }
        ensures steady { ⟦<StdSink<W> as Sink>⟧.steady result ≡ false }
        ensures writer { writer_of result ≡ inner }
    {
        StdSink { inner, faults: 0 }
    }
}

impl<W: Write + Drop> Sink for StdSink<W> {
    ghost use Rattle.std.specs.Prelude.{◌≡◌, ◌≢◌, ◌<◌, ◌≤◌, None, Err, false, IfOk, length, take};
    ghost use Rattle.std.specs.Io.KnownBytes.{Appends};
    ghost use Rattle.cla_io.specs.Counts.{HasCause};
    ghost use Rattle.cla_io.specs.Mem.{faults_after};
    ghost use Rattle.cla_io.specs.Sinks.{SinkWrites};
    ghost use Rattle.cla_io.specs.StdSink.{writer_of};
    ghost use Rattle.std.proofs.Common.{rules};

    ghost told = { λ s. None };

    ghost faults = { λ s. s.faults };

    ghost steady = { λ s. false };

    ghost kept = { λ a b. Unit {0} };

    fn write(&mut self, piece: &[u8]) -> Result<usize, Stop>
        requires { 0 < length piece.now }
        ensures writes { SinkWrites piece.now (⟦<StdSink<W> as Sink>⟧.told self.old)
            (⟦<StdSink<W> as Sink>⟧.told self.new) result }
        ensures later { ⟦<StdSink<W> as Sink>⟧.faults self.old ≤ ⟦<StdSink<W> as Sink>⟧.faults self.new }
        ensures steady { ⟦<StdSink<W> as Sink>⟧.steady self.new ≡ ⟦<StdSink<W> as Sink>⟧.steady self.old }
        ensures kept { ⟦<StdSink<W> as Sink>⟧.kept self.old self.new }
        ensures cause { HasCause (⟦<StdSink<W> as Sink>⟧.faults self.old) (⟦<StdSink<W> as Sink>⟧.faults self.new)
            result }
        ensures no_memory { result ≢ Err Stop.Memory }
        ensures counted { ⟦<StdSink<W> as Sink>⟧.faults self.new ≡ faults_after result
            (⟦<StdSink<W> as Sink>⟧.faults self.old) }
        ensures reaches { IfOk result (λ n. Appends (W.contents (writer_of self.old)) (W.contents (writer_of self.new))
            (take n piece.now)) }
    {
        match write_some(&mut self.inner, piece) {
            Some(count) => Ok(count),
            None => {
                self.faults = self.faults.saturating_add(1);
                Err(Stop::Failed)
            }
        }
    }

    ghost faultless = { λ s steady. Prim.search rules };

    ghost kept_itself = { λ s. tt };

    ghost kept_on = { λ a b c h k. tt };
}

ghost use Rattle.std.specs.Prelude.{◌≤◌, IfSome, length, take};
ghost use Rattle.std.specs.Io.KnownBytes.{Appends};

// Writes some of the bytes and flushes, and gives their number. `None` is an error of either, or a
// write that took no byte, which would never end.
pub(crate) fn write_some<W: Write>(inner: &mut W, piece: &[u8]) -> Option<usize>
    ensures some { IfSome result (λ n. 1 ≤ n) }
    ensures within { IfSome result (λ n. n ≤ length piece.now) }
    ensures reaches { IfSome result (λ n. Appends (W.contents inner.old) (W.contents inner.new) (take n piece.now)) }
{
    let count = inner.write(piece).ok()?;
    if count == 0 {
        return None;
    }
    inner.flush().ok()?;
    Some(count)
}
