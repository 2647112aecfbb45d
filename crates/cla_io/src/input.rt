//! A file that is read line by line.

ghost use Rattle.std.specs.Prelude.{◌≡◌, ◌+◌, ◌<◌, ◌≤◌, ◌^◌, [], false, true, Ok, Some, IsSome, IsOk, IfOk, OnOk};
ghost use Rattle.cla_io.specs.State.{left};
ghost use Rattle.cla_io.specs.Lines.{TakesLine, TakesLineWhereTold, IsLfPlace, CountsLine, TakesWholeWhereTold};
ghost use Rattle.cla_io.specs.Lines.{CountsWhole, InCause, ahead_of, line_number_of, line_width};
ghost use Rattle.cla_io.specs.Ahead.{AreLines, ahead_in_limit, after_lines};
ghost use Rattle.cla_io.specs.InputFrame.{ReadsOn, IsAtStart};

use crate::files::Files;
use crate::stop::InFault;
use crate::taken::Taken;
use cla_num::Memory;
use std::alloc::Global;

/// A file that is being read, and what was taken of it, in `B`. [`Input`] is the only one in use:
/// the parameter lets a caller know its files once an input is gone.
pub struct InputOver<'a, F: Files, B: Drop> {
    pub(crate) files: &'a mut F,
    pub(crate) taken: B,
    ghost open: { IsSome (F.state files.now).reading },
}

/// A file that is read line by line. Lines end at LF, and one CR at a line's end is dropped; bytes
/// after the last LF are a line. No call is made after an error.
pub type Input<'a, F> = InputOver<'a, F, Taken>;

impl<F: Files, B: Drop> Drop for InputOver<'_, F, B> {
    fn drop(self)
        ensures { self.exit.0.now ≡ self.entry.files.now }
    {
        let InputOver { files: _, taken: _ } = self;
    }
}

impl<'a, F: Files> InputOver<'a, F, Taken> {
    /// The input of the file that is being read, from its first byte. At most `limit` bytes are
    /// taken of it, from 8 to 2^32. It takes its buffer of 65,536 bytes at its first read, and so
    /// succeeds; a caller would know nothing of its files after an error.
    pub fn new(alloc: Global, files: &'a mut F, limit: u64) -> Result<Input<'a, F>, Memory>
        requires start { IsAtStart (F.state files.old).reading }
        requires least { 8 ≤ limit }
        requires most { limit ≤ 2 ^ 32 }
        ensures succeeds { IsOk result }
        ensures same_reference { IfOk result (λ input. input.files.ghost_name ≡ files.entry.ghost_name) }
        ensures same { IfOk result (λ input. input.files.now ≡ files.old) }
        ensures nothing_taken { IfOk result
            (λ input. input.taken ≡ record { ahead = []; at = 0; limit = limit; line = []; lines = 0; ended = false }) }
    {
        Ok(InputOver {
            files,
            taken: Taken::new(alloc, limit),
        })
    }

    /// Takes the next line. `false` says that the file ends here. `TooLong` comes exactly where the
    /// line reaches past the limit, and `Read` only where faults of reading rose. An error takes
    /// nothing. It holds no more than its buffer and, of lines that cross the buffer's end, the one
    /// that was taken last and the next.
    pub fn next_line(&mut self) -> Result<bool, InFault>
        ensures same_reference { self.new.files.ghost_name ≡ self.old.files.ghost_name }
        ensures frame { ReadsOn (F.state self.old.files.now) (F.state self.new.files.now) }
        ensures cause { InCause (F.state self.old.files.now).read_faults
            (F.state self.new.files.now).read_faults result }
        ensures limit { self.new.taken.limit ≡ self.old.taken.limit }
        ensures line { TakesLineWhereTold self.old.taken self.new.taken
            (ahead_of self.old.taken (left (F.state self.old.files.now)))
            (ahead_of self.new.taken (left (F.state self.new.files.now))) result }
        ensures in_limit { OnOk result (self.new.taken.at ≤ self.new.taken.limit) }
        ensures count { CountsLine self.old.taken self.new.taken result }
        ensures few { self.new.taken.lines ≤ self.new.taken.limit }
        ensures counted { self.old.taken.lines ≤ self.old.taken.at }
    {
        match self.taken.lf_ahead() {
            Some(place) => self.taken.take_held(place),
            None => self.taken.take_far(self.files),
        }
    }

    /// The bytes that are held and weren't taken: none at the start, and never all but the last of a
    /// great file. A caller that finds the end of the next line among them takes it by
    /// [`InputOver::take_ahead`].
    #[inline(always)]
    pub fn ahead(&self) -> &[u8]
        ensures { result.now ≡ self.now.taken.ahead }
    {
        self.taken.ahead()
    }

    /// Takes the next line, which ends at the first LF ahead, at this place: as `next_line` does where
    /// that gives `true`, without a search. `false` says that the line reaches past the limit, and takes
    /// nothing.
    #[inline(always)]
    pub fn take_ahead(&mut self, place: usize) -> bool
        requires { IsLfPlace self.old.taken.ahead (Some place) }
        ensures same_reference { self.new.files.ghost_name ≡ self.old.files.ghost_name }
        ensures same_files { self.new.files.now ≡ self.old.files.now }
        ensures limit { self.new.taken.limit ≡ self.old.taken.limit }
        ensures same { result ≡ false → self.new.taken ≡ self.old.taken }
        ensures too_long { result ≡ false → self.old.taken.limit < self.old.taken.at + line_width self.old.taken.ahead }
        ensures held { result ≡ true → TakesLine self.old.taken self.new.taken self.old.taken.ahead self.new.taken.ahead
            (Ok true) }
        ensures line { result ≡ true → TakesLineWhereTold self.old.taken self.new.taken
            (ahead_of self.old.taken (left (F.state self.old.files.now)))
            (ahead_of self.new.taken (left (F.state self.new.files.now))) (Ok true) }
        ensures count { result ≡ true → CountsLine self.old.taken self.new.taken (Ok true) }
        ensures few { self.new.taken.lines ≤ self.new.taken.limit }
        ensures in_limit { self.new.taken.at ≤ self.new.taken.limit }
    {
        self.taken.take_held(place).is_ok()
    }

    /// Those of the bytes that are held which stand before the limit. A caller that finds lines among them
    /// takes them by [`InputOver::take_lines`].
    #[inline(always)]
    pub fn ahead_in_limit(&self) -> &[u8]
        ensures bytes { result.now ≡ ahead_in_limit self.now.taken }
        ensures in_limit { self.now.taken.at ≤ self.now.taken.limit }
    {
        self.taken.ahead_in_limit()
    }

    /// Takes the next lines at once, as many calls of `next_line` would: so many lines of the bytes that are
    /// held before the limit, with their LFs `width` bytes. None of them is kept: `line` is empty afterwards.
    #[inline(always)]
    pub fn take_lines(&mut self, count: u64, width: usize)
        requires { AreLines (ahead_in_limit self.old.taken) count width }
        ensures same_reference { self.new.files.ghost_name ≡ self.old.files.ghost_name }
        ensures same_files { self.new.files.now ≡ self.old.files.now }
        ensures taken { self.new.taken ≡ after_lines self.old.taken count width }
    {
        self.taken.take_lines(count, width)
    }

    /// Takes all bytes of the file, as they are. `TooLong` comes exactly where a byte past the limit
    /// is there, and `Read` only where faults of reading rose. An error takes nothing.
    pub fn whole(&mut self) -> Result<Vec<u8>, InFault>
        requires { self.old.taken.at ≡ 0 }
        ensures same_reference { self.new.files.ghost_name ≡ self.old.files.ghost_name }
        ensures frame { ReadsOn (F.state self.old.files.now) (F.state self.new.files.now) }
        ensures cause { InCause (F.state self.old.files.now).read_faults
            (F.state self.new.files.now).read_faults result }
        ensures limit { self.new.taken.limit ≡ self.old.taken.limit }
        ensures whole { TakesWholeWhereTold self.old.taken self.new.taken
            (ahead_of self.old.taken (left (F.state self.old.files.now)))
            (ahead_of self.new.taken (left (F.state self.new.files.now))) result }
        ensures count { CountsWhole self.old.taken self.new.taken result }
    {
        self.taken.take_all(self.files)
    }

    /// The line that was taken last, without its end.
    pub fn line(&self) -> &[u8]
        ensures { result.now ≡ self.now.taken.line }
    {
        self.taken.line()
    }

    /// The number of the line that was taken last, from 1. It is 0 at the start, and at the end the
    /// number of lines plus 1.
    pub fn line_number(&self) -> u64
        ensures { result ≡ line_number_of self.now.taken }
    {
        self.taken.line_number()
    }

    /// How many bytes were taken.
    pub fn at(&self) -> u64
        ensures { result ≡ self.now.taken.at }
    {
        self.taken.at()
    }
}
