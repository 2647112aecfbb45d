//! Numbers that are taken of a file, and the bytes at its start.

ghost use Rattle.std.specs.Prelude.{◌≡◌, ℕ, ◌+◌, ◌<◌, ◌≤◌, ◌^◌, [], length, true, take, IsSome, IfOk, OnOk};
ghost use Rattle.cla_spec.specs.Bytes.{number_of};
ghost use Rattle.cla_io.specs.State.{left};
ghost use Rattle.cla_io.specs.Lines.{InCause, IsNotTooLong, SameBytes, IsAllRead, OnlyHolds, ahead_of};
ghost use Rattle.cla_io.specs.InputFrame.{ReadsOn};
ghost use Rattle.cla_io.specs.Numbers.{is_number_width, TakesNumber, TakesNumberWhereTold, CountsNumber};
ghost use Rattle.cla_io.specs.Numbers.{OnlyTooLongNumber, BeginsWhereTold};
ghost use Rattle.cla_io.specs.Window.{items, size_of};

use crate::files::Files;
use crate::input::InputOver;
use crate::last_line::LastLine;
use crate::stop::{InFault, Stop};
use crate::taken::Taken;
use crate::window::Window;

impl Window {
    // Moves the bytes that weren't taken to the front.
    fn move_to_front(&mut self)
        ensures items { items self.new ≡ items self.old }
        ensures size { size_of self.new ≡ size_of self.old }
        ensures end { self.new.end ≡ length (items self.old) }
    {
        let (start, end) = (self.start, self.end);
        self.bytes.as_mut_slice().copy_within(start..end, 0);
        self.start = 0;
        self.end = end - start;
    }

    // Reads on behind the bytes that are held, where there is room, and gives how many came. 0 says
    // that the file ends.
    fn read_on<F: Files>(&mut self, files: &mut F) -> Result<usize, InFault>
        requires open { IsSome (F.state files.old).reading }
        requires room { length (items self.old) < size_of self.old }
        ensures frame { ReadsOn (F.state files.old) (F.state files.new) }
        ensures cause { InCause (F.state files.old).read_faults (F.state files.new).read_faults result }
        ensures not_too_long { IsNotTooLong result }
        ensures size { size_of self.new ≡ size_of self.old }
        ensures content { OnOk result (SameBytes (items self.old) (left (F.state files.old)) (items self.new)
            (left (F.state files.new))) }
        ensures more { IfOk result (λ n. length (items self.new) ≡ length (items self.old) + n) }
        ensures all { IfOk result (λ n. n ≡ 0 → IsAllRead (left (F.state files.new))) }
    {
        self.move_to_front();
        let end = self.end;
        match files.read(&mut self.bytes[end..]) {
            Ok(count) => {
                self.end = end + count;
                Ok(count)
            }
            Err(Stop::Failed) => Err(InFault::Read),
            Err(Stop::Memory) => Err(InFault::Memory),
        }
    }
}

// Reads on until n bytes are held, or the file ends.
fn hold<F: Files>(files: &mut F, window: &mut Window, n: usize) -> Result<(), InFault>
    requires open { IsSome (F.state files.old).reading }
    requires few { n ≤ 8 }
    ensures frame { ReadsOn (F.state files.old) (F.state files.new) }
    ensures cause { InCause (F.state files.old).read_faults (F.state files.new).read_faults result }
    ensures not_too_long { IsNotTooLong result }
    ensures content { OnOk result (SameBytes (items window.old) (left (F.state files.old)) (items window.new)
        (left (F.state files.new))) }
    ensures all { OnOk result (length (items window.new) < n → IsAllRead (left (F.state files.new))) }
{
    match window.take_memory() {
        Ok(()) => (),
        Err(_) => return Err(InFault::Memory),
    }
    while window.as_slice().len() < n {
        match window.read_on(files) {
            Ok(0) => return Ok(()),
            Ok(_) => (),
            Err(fault) => return Err(fault),
        }
    }
    Ok(())
}

// The number of these bytes, the low one first.
#[inline(always)]
fn number_in(bytes: &[u8]) -> u64
    requires { is_number_width (length bytes.now) ≡ true }
    ensures number { result ≡ number_of bytes.now }
    ensures small { result < 256 ^ length bytes.now }
{
    match bytes.len() {
        1 => bytes[0] as u64,
        2 => u16::from_le_bytes([bytes[0], bytes[1]]) as u64,
        4 => u32::from_le_bytes([bytes[0], bytes[1], bytes[2], bytes[3]]) as u64,
        _ => u64::from_le_bytes([
            bytes[0], bytes[1], bytes[2], bytes[3], bytes[4], bytes[5], bytes[6], bytes[7],
        ]),
    }
}

impl Taken {
    // Reads on until n bytes are held, or the file ends.
    #[inline(always)]
    fn hold<F: Files>(&mut self, files: &mut F, n: usize) -> Result<(), InFault>
        requires open { IsSome (F.state files.old).reading }
        requires few { n ≤ 8 }
        ensures frame { ReadsOn (F.state files.old) (F.state files.new) }
        ensures cause { InCause (F.state files.old).read_faults (F.state files.new).read_faults result }
        ensures not_too_long { IsNotTooLong result }
        ensures kept { OnlyHolds self.old self.new }
        ensures content { OnOk result (SameBytes self.old.ahead (left (F.state files.old)) self.new.ahead
            (left (F.state files.new))) }
        ensures all { OnOk result (length self.new.ahead < n → IsAllRead (left (F.state files.new))) }
    {
        if n <= self.ahead().len() {
            return Ok(());
        }
        self.hold_more(files, n)
    }

    // The last line is kept apart first, since to read on overwrites the buffer.
    fn hold_more<F: Files>(&mut self, files: &mut F, n: usize) -> Result<(), InFault>
        requires open { IsSome (F.state files.old).reading }
        requires few { n ≤ 8 }
        ensures frame { ReadsOn (F.state files.old) (F.state files.new) }
        ensures cause { InCause (F.state files.old).read_faults (F.state files.new).read_faults result }
        ensures not_too_long { IsNotTooLong result }
        ensures kept { OnlyHolds self.old self.new }
        ensures content { OnOk result (SameBytes self.old.ahead (left (F.state files.old)) self.new.ahead
            (left (F.state files.new))) }
        ensures all { OnOk result (length self.new.ahead < n → IsAllRead (left (F.state files.new))) }
    {
        let alloc = *self.window.bytes.allocator();
        let Ok(last) = Vec::from_slice(alloc, self.line()) else {
            return Err(InFault::Memory);
        };
        self.last = LastLine::Apart { bytes: last };
        hold(files, &mut self.window, n)
    }

    // Takes the number of the next n bytes, of those that are held.
    #[inline(always)]
    fn take_number(&mut self, n: usize) -> Result<Option<u64>, InFault>
        requires { is_number_width n ≡ true }
        ensures limit { self.new.limit ≡ self.old.limit }
        ensures number { TakesNumber n self.old self.old.ahead self.new.ahead result }
        ensures count { CountsNumber n self.old self.new result }
        ensures only_too_long { OnlyTooLongNumber result }
    {
        let held = self.window.as_slice();
        if self.limit - self.at < held.len().min(n) as u64 {
            return Err(InFault::TooLong);
        }
        if held.len() < n {
            return Ok(None);
        }
        let number = number_in(&held[..n]);
        self.window.consume(n);
        self.at += n as u64;
        Ok(Some(number))
    }
}

impl<'a, F: Files> InputOver<'a, F, Taken> {
    /// Whether the file begins with these bytes. It takes nothing, and `Read` comes only where faults of
    /// reading rose.
    pub fn starts_with(&mut self, magic: &[u8; 8]) -> Result<bool, InFault>
        requires { self.old.taken.at ≡ 0 }
        ensures same_reference { self.new.files.ghost_name ≡ self.old.files.ghost_name }
        ensures frame { ReadsOn (F.state self.old.files.now) (F.state self.new.files.now) }
        ensures cause { let before = (F.state self.old.files.now).read_faults in
            InCause before (F.state self.new.files.now).read_faults result }
        ensures begins { BeginsWhereTold magic.now (ahead_of self.old.taken (left (F.state self.old.files.now)))
            (ahead_of self.new.taken (left (F.state self.new.files.now))) result }
        ensures kept { OnlyHolds self.old.taken self.new.taken }
    {
        match self.taken.hold(self.files, 8) {
            Ok(()) => (),
            Err(fault) => return Err(fault),
        }
        Ok(self.taken.ahead().starts_with(magic))
    }

    /// Takes the number of the next n bytes, the low one first. `None` says that the file ends before them,
    /// and none of the bytes that are left lies past the limit; it takes nothing. `TooLong` comes exactly
    /// where one of them lies past the limit and is there, and `Read` only where faults of reading rose.
    #[inline(always)]
    pub fn take(&mut self, n: usize) -> Result<Option<u64>, InFault>
        requires { is_number_width n ≡ true }
        ensures same_reference { self.new.files.ghost_name ≡ self.old.files.ghost_name }
        ensures frame { ReadsOn (F.state self.old.files.now) (F.state self.new.files.now) }
        ensures cause { let before = (F.state self.old.files.now).read_faults in
            InCause before (F.state self.new.files.now).read_faults result }
        ensures limit { self.new.taken.limit ≡ self.old.taken.limit }
        ensures number { TakesNumberWhereTold n self.old.taken
            (ahead_of self.old.taken (left (F.state self.old.files.now)))
            (ahead_of self.new.taken (left (F.state self.new.files.now))) result }
        ensures count { CountsNumber n self.old.taken self.new.taken result }
    {
        match self.taken.hold(self.files, n) {
            Ok(()) => (),
            Err(fault) => return Err(fault),
        }
        self.taken.take_number(n)
    }
}
