//! The bytes of a file that are held and weren't taken yet.

ghost use Rattle.std.specs.Prelude.{◌≡◌, ◌+◌, ◌<◌, ◌≤◌, ◌++◌, [], drop, length, IsSome, IfOk, OnOk};
ghost use Rattle.cla_io.specs.State.{left};
ghost use Rattle.cla_io.specs.Lines.{InCause, IsLfPlace, IsAllRead, IsNotTooLong, SameBytes};
ghost use Rattle.cla_io.specs.InputFrame.{ReadsOn};

use crate::files::Files;
use crate::stop::{InFault, Stop};
use cla_num::Memory;
use memchr::memchr;
use std::alloc::Global;

/// How many bytes a buffer has.
const SIZE: usize = 65_536;

/// A buffer. The bytes from `start` to `end` are held and weren't taken; those before `start` stay
/// until the next [`Window::refill`], the first of which takes the buffer's memory.
#[derive(Drop)]
pub(crate) struct Window {
    pub(crate) bytes: Vec<u8>,
    pub(crate) start: usize,
    pub(crate) end: usize,
    ghost ordered: { start ≤ end },
    ghost within: { end ≤ length bytes.items },
    ghost roomy: { 0 < length bytes.items → 8 ≤ length bytes.items },
}

impl Window {
    ghost use Rattle.cla_io.specs.Window.{items};

    pub(crate) fn new(alloc: Global) -> Window
        ensures { items result ≡ [] }
    {
        Window {
            bytes: Vec::new(alloc),
            start: 0,
            end: 0,
        }
    }

    /// The bytes that weren't taken.
    pub(crate) fn as_slice(&self) -> &[u8]
        ensures { result.now ≡ items self.now }
    {
        &self.bytes[self.start..self.end]
    }

    /// Where the next LF stands among them, if there is one.
    pub(crate) fn lf_place(&self) -> Option<usize>
        ensures { IsLfPlace (items self.now) result }
    {
        memchr(b'\n', self.as_slice())
    }

    /// Takes some of them.
    pub(crate) fn consume(&mut self, count: usize)
        requires { count ≤ length (items self.old) }
        ensures items { items self.new ≡ drop count (items self.old) }
        ensures same { self.new.bytes ≡ self.old.bytes }
        ensures start { self.new.start ≡ self.old.start + count }
    {
        self.start += count;
    }

    /// Appends them all to a vector, and takes them.
    pub(crate) fn move_to(&mut self, to: &mut Vec<u8>) -> Result<(), Memory>
        ensures moved { OnOk result (to.new.items ≡ to.old.items ++ items self.old) }
        ensures empty { OnOk result (items self.new ≡ []) }
    {
        to.extend_from_slice(self.as_slice())?;
        self.start = self.end;
        Ok(())
    }

    /// Reads on into the buffer, all of which is free, and gives how many bytes came. 0 says that
    /// the file ends.
    pub(crate) fn refill<F: Files>(&mut self, files: &mut F) -> Result<usize, InFault>
        requires open { IsSome (F.state files.old).reading }
        requires free { items self.old ≡ [] }
        ensures frame { ReadsOn (F.state files.old) (F.state files.new) }
        ensures cause { InCause (F.state files.old).read_faults (F.state files.new).read_faults result }
        ensures not_too_long { IsNotTooLong result }
        ensures content { OnOk result (SameBytes [] (left (F.state files.old)) (items self.new)
            (left (F.state files.new))) }
        ensures more { IfOk result (λ n. length (items self.new) ≡ n) }
        ensures all { IfOk result (λ n. n ≡ 0 → IsAllRead (left (F.state files.new))) }
    {
        match self.take_memory() {
            Ok(()) => (),
            Err(_) => return Err(InFault::Memory),
        }
        match files.read(&mut self.bytes) {
            Ok(count) => {
                self.start = 0;
                self.end = count;
                Ok(count)
            }
            Err(Stop::Failed) => Err(InFault::Read),
            Err(Stop::Memory) => Err(InFault::Memory),
        }
    }

    // Takes the buffer's memory, once.
    pub(crate) fn take_memory(&mut self) -> Result<(), Memory>
        ensures same { items self.new ≡ items self.old }
        ensures ready { OnOk result (8 ≤ length self.new.bytes.items) }
    {
        if self.bytes.is_empty() {
            self.start = 0;
            self.end = 0;
            self.bytes = Vec::from_elem(*self.bytes.allocator(), 0, SIZE)?;
        }
        Ok(())
    }
}
