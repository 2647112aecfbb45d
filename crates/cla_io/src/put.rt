//! Writing all of a piece.

ghost use Rattle.std.specs.Prelude.{◌≡◌, ◌≤◌, length};
ghost use Rattle.cla_io.specs.Counts.{HasCause};
ghost use Rattle.cla_io.specs.Sinks.{PutsAll};

use crate::sink::Sink;
use crate::stop::Stop;

/// Appends the piece to the sink; an empty one makes no call. After an error a prefix of it is
/// appended. `Failed` comes only where the sink's faults rose, and no other answer passes over one.
pub fn put_all<O: Sink>(out: &mut O, piece: &[u8]) -> Result<(), Stop>
    ensures puts { PutsAll piece.now (O.told out.old) (O.told out.new) result }
    ensures later { O.faults out.old ≤ O.faults out.new }
    ensures steady { O.steady out.new ≡ O.steady out.old }
    ensures kept { O.kept out.old out.new }
    ensures cause { HasCause (O.faults out.old) (O.faults out.new) result }
    ensures empty { length piece.now ≡ 0 → (result ≡ Ok tt) × (out.new ≡ out.old) }
{
    let mut done = 0;
    while done < piece.len() {
        done += out.write(&piece[done..])?;
    }
    Ok(())
}
