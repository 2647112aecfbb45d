//! What takes bytes.

ghost use Rattle.std.specs.Prelude.{◌≡◌, ◌<◌, ◌≤◌, ℕ, List, Option, Bool, true, length};
ghost use Rattle.cla_io.specs.Counts.{HasCause};
ghost use Rattle.cla_io.specs.Sinks.{SinkWrites};

use crate::stop::Stop;

/// What takes bytes. Contracts see the bytes that were written, where the sink tells them, a count
/// of faults, whether the sink is steady, and a relation that every call keeps.
pub trait Sink {
    ghost told: { Self → Option (List ℕ) };

    ghost faults: { Self → ℕ };

    ghost steady: { Self → Bool };

    ghost kept: { Self → Self → Type 0 };

    /// Writes some of the bytes, at least one, and gives their number. After an error nothing is
    /// appended.
    fn write(&mut self, piece: &[u8]) -> Result<usize, Stop>
        requires { 0 < length piece.now }
        ensures writes { SinkWrites piece.now (told self.old) (told self.new) result }
        ensures later { faults self.old ≤ faults self.new }
        ensures steady { steady self.new ≡ steady self.old }
        ensures kept { kept self.old self.new }
        ensures cause { HasCause (faults self.old) (faults self.new) result };

    /// A steady sink has no faults.
    ghost faultless: { (sink : Self) → steady sink ≡ true → faults sink ≡ 0 };

    ghost kept_itself: { (sink : Self) → kept sink sink };

    ghost kept_on: { (a b c : Self) → kept a b → kept b c → kept a c };
}
