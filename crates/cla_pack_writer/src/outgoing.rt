//! Bytes on their way to a sink, of which one fault is the end.

ghost use Rattle.std.specs.Prelude.{◌≡◌, ◌≤◌, [], Ok, length, IfOk};
ghost use Rattle.cla_print.specs.declared.buffer.TheConstants.{BUFFER_BYTES};
ghost use Rattle.cla_pack_writer.specs.Outgoing.{wanting, Sent, Ends};

use cla_io::{Sink, Stop};
use cla_num::Memory;
use cla_print::Buffer;
use std::alloc::Global;
use std::marker::Model;

/// Bytes on their way to a sink, which is given to each call. After the first fault what is put is passed
/// over, and the end answers it; so those who put bytes need not look at each answer. Contracts see the
/// bytes that are held back, or the fault.
#[derive(Drop)]
pub(crate) struct Outgoing {
    buffer: Buffer,
    stop: Option<Stop>,
}

impl Model for Outgoing {
    ghost use Rattle.cla_pack_writer.specs.Outgoing.{Pending, pending_in};

    ghost Value = { Pending };

    ghost view = { λ o. pending_in o.stop o.buffer };
}

impl Outgoing {
    /// Nothing yet. It takes the memory of one [`Buffer`] here, and none later.
    pub(crate) fn new(alloc: Global) -> Result<Outgoing, Memory>
        ensures { IfOk result (λ o. o ≡ Ok []) }
    {
        Ok(Outgoing {
            buffer: Buffer::new(alloc)?,
            stop: None,
        })
    }

    /// Puts a piece behind what is held back.
    pub(crate) fn put<O: Sink>(&mut self, out: &mut O, piece: &[u8])
        requires { length piece.now ≤ BUFFER_BYTES }
        ensures { Sent O.told O.faults O.steady O.kept piece.now self.old out.old self.new out.new }
    {
        if self.stop.is_some() {
            return;
        }
        match self.buffer.push(out, piece) {
            Ok(()) => {}
            Err(stop) => self.stop = Some(stop),
        }
    }

    /// Puts nothing more, since memory is wanting.
    pub(crate) fn give_up(&mut self)
        ensures { self.new ≡ wanting self.old }
    {
        if self.stop.is_none() {
            self.stop = Some(Stop::Memory);
        }
    }

    /// Sends what is held back, or answers the fault.
    pub(crate) fn end<O: Sink>(self, out: &mut O) -> Result<(), Stop>
        ensures { Ends O.told O.faults O.steady O.kept self out.old out.new result }
    {
        let Outgoing { mut buffer, stop } = self;
        match stop {
            Some(stop) => Err(stop),
            None => buffer.flush(out),
        }
    }
}
