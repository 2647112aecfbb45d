//! Bytes that are held back, so that a sink takes many at a time.

ghost use Rattle.std.specs.Prelude.{◌≡◌, ◌≤◌, ◌+◌, ◌++◌, [], length, IfOk, OnOk, OnErr};
ghost use Rattle.cla_io.specs.Counts.{HasCause};
ghost use Rattle.cla_io.specs.Sinks.{PutsAll};
ghost use Rattle.cla_print.specs.Parting.{Parts};

use cla_io::{Sink, Stop, put_all};
use cla_num::Memory;
use std::alloc::Global;
use std::marker::Model;

/// How many bytes a [`Buffer`] holds at most.
pub const BUFFER_BYTES: usize = 65536;

/// Bytes on their way to a sink, which is given to each call. Contracts see the bytes that are held.
#[derive(Drop)]
pub struct Buffer {
    bytes: Vec<u8>,
    len: usize,
}

impl Model for Buffer {
    ghost use Rattle.std.specs.Prelude.{◌≡◌, ◌≤◌, List, ℕ, length, take};
    ghost use Rattle.cla_print.specs.declared.buffer.TheConstants.{BUFFER_BYTES};

    ghost Value = { List ℕ };

    ghost view = { λ b. take b.len b.bytes.items };

    ghost invariant = { λ b. (length b.bytes.items ≡ BUFFER_BYTES) × (b.len ≤ BUFFER_BYTES) };
}

impl Buffer {
    /// An empty buffer. It takes its memory here, and none later.
    pub fn new(alloc: Global) -> Result<Buffer, Memory>
        ensures { IfOk result (λ b. b ≡ []) }
    {
        Ok(Buffer {
            bytes: Vec::from_elem(alloc, 0, BUFFER_BYTES)?,
            len: 0,
        })
    }

    /// Holds the piece behind what is held. Where both don't fit, what is held goes to the sink
    /// first; after an error it is still held.
    pub fn push<O: Sink>(&mut self, out: &mut O, piece: &[u8]) -> Result<(), Stop>
        requires room { length piece.now ≤ BUFFER_BYTES }
        ensures parts { Parts (self.old ++ piece.now) (O.told out.old) (O.told out.new) self.new result }
        ensures same { OnErr result (self.new ≡ self.old) }
        ensures later { O.faults out.old ≤ O.faults out.new }
        ensures steady { O.steady out.new ≡ O.steady out.old }
        ensures kept { O.kept out.old out.new }
        ensures cause { HasCause (O.faults out.old) (O.faults out.new) result }
    {
        if BUFFER_BYTES - self.len < piece.len() {
            self.flush(out)?;
        }
        self.hold(piece);
        Ok(())
    }

    // Holds a piece for which there is room.
    fn hold(&mut self, piece: &[u8])
        requires room { length self.old + length piece.now ≤ BUFFER_BYTES }
        ensures { self.new ≡ self.old ++ piece.now }
    {
        let end = self.len + piece.len();
        self.bytes[self.len..end].copy_from_slice(piece);
        self.len = end;
    }

    /// Appends what is held to the sink, and holds nothing then. After an error a prefix of it is
    /// appended, and all of it is still held.
    pub fn flush<O: Sink>(&mut self, out: &mut O) -> Result<(), Stop>
        ensures puts { PutsAll self.old (O.told out.old) (O.told out.new) result }
        ensures empty { OnOk result (self.new ≡ []) }
        ensures same { OnErr result (self.new ≡ self.old) }
        ensures later { O.faults out.old ≤ O.faults out.new }
        ensures steady { O.steady out.new ≡ O.steady out.old }
        ensures kept { O.kept out.old out.new }
        ensures cause { HasCause (O.faults out.old) (O.faults out.new) result }
    {
        put_all(out, &self.bytes[..self.len])?;
        self.len = 0;
        Ok(())
    }
}
