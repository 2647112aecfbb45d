//! A sink in memory.

ghost use Rattle.cla_io.specs.Mem.{NoFaultsIfEmpty};

use crate::sink::Sink;
use crate::stop::Stop;

/// A sink in memory. Its n-th write, numbered from 1, fails exactly where `fail` has n.
#[derive(Drop)]
pub struct MemSink {
    bytes: Vec<u8>,
    fail: Vec<u64>,
    writes: u64,
    faults: u64,
    ghost unfailing: { NoFaultsIfEmpty fail.items faults },
}

impl MemSink {
    ghost use Rattle.std.specs.Prelude.{◌≡◌, [], Some};
    ghost use Rattle.cla_io.specs.Mem.{is_empty_list};
    ghost use Rattle.cla_io.specs.MemSink.{failing_writes, writes_made};

    /// An empty sink whose n-th write fails exactly where `fail` has n, from 1.
    pub fn new(fail: Vec<u64>) -> MemSink
        ensures told { ⟦<MemSink as Sink>⟧.told result ≡ Some [] }
        ensures faults { ⟦<MemSink as Sink>⟧.faults result ≡ 0 }
        ensures steady { ⟦<MemSink as Sink>⟧.steady result ≡ is_empty_list fail.items }
        ensures failing { failing_writes result ≡ fail.items }
        ensures none { writes_made result ≡ 0 }
    {
        let bytes = Vec::new(*fail.allocator());
        MemSink {
            bytes,
            fail,
            writes: 0,
            faults: 0,
        }
    }

    /// The bytes that were written.
    pub fn bytes(&self) -> &[u8]
        ensures { ⟦<MemSink as Sink>⟧.told self.now ≡ Some result.now }
    {
        &self.bytes
    }
}

impl Sink for MemSink {
    ghost use Rattle.std.specs.Prelude.{◌≡◌, ◌<◌, ◌≤◌, Some, Err, Contains, IfOk, length, ◌↔◌};
    ghost use Rattle.cla_io.specs.Counts.{HasCause, next_call};
    ghost use Rattle.cla_io.specs.Sinks.{SinkWrites};
    ghost use Rattle.cla_io.specs.Mem.{is_empty_list, faultless_of, faults_after};
    ghost use Rattle.cla_io.specs.MemSink.{failing_writes, writes_made};

    ghost told = { λ s. Some s.bytes.items };

    ghost faults = { λ s. s.faults };

    ghost steady = { λ s. is_empty_list s.fail.items };

    ghost kept = { λ a b. Unit {0} };

    fn write(&mut self, piece: &[u8]) -> Result<usize, Stop>
        requires { 0 < length piece.now }
        ensures writes { SinkWrites piece.now (⟦<MemSink as Sink>⟧.told self.old) (⟦<MemSink as Sink>⟧.told self.new)
            result }
        ensures later { ⟦<MemSink as Sink>⟧.faults self.old ≤ ⟦<MemSink as Sink>⟧.faults self.new }
        ensures steady { ⟦<MemSink as Sink>⟧.steady self.new ≡ ⟦<MemSink as Sink>⟧.steady self.old }
        ensures kept { ⟦<MemSink as Sink>⟧.kept self.old self.new }
        ensures cause { HasCause (⟦<MemSink as Sink>⟧.faults self.old) (⟦<MemSink as Sink>⟧.faults self.new) result }
        ensures whole { IfOk result (λ n. n ≡ length piece.now) }
        ensures counted { ⟦<MemSink as Sink>⟧.faults self.new ≡ faults_after result
            (⟦<MemSink as Sink>⟧.faults self.old) }
        ensures numbered { writes_made self.new ≡ next_call (writes_made self.old) }
        ensures planned { failing_writes self.new ≡ failing_writes self.old }
        ensures fails { (result ≡ Err Stop.Failed) ↔ Contains (failing_writes self.old) (writes_made self.new) }
    {
        self.writes = self.writes.saturating_add(1);
        if self.fail.contains(&self.writes) {
            self.faults = self.faults.saturating_add(1);
            return Err(Stop::Failed);
        }
        match self.bytes.extend_from_slice(piece) {
            Ok(()) => Ok(piece.len()),
            Err(_) => Err(Stop::Memory),
        }
    }

    ghost faultless = { λ s steady. faultless_of s.fail.items s.faults s.unfailing steady };

    ghost kept_itself = { λ s. tt };

    ghost kept_on = { λ a b c h k. tt };
}
