//! What an input holds of its file, and what was taken of it.

ghost use Rattle.std.specs.Prelude.{◌≡◌, ◌≤◌, ◌^◌, [], length, take, false, true, Some, IfOk, OnErr, OnOk, IsSome};
ghost use Rattle.cla_spec.specs.Lines.{without_cr};
ghost use Rattle.cla_io.specs.State.{left};
ghost use Rattle.cla_io.specs.Lines.{TakesLine, TakesLineWhereTold, TakesWholeWhereTold, CountsLine, CountsWhole};
ghost use Rattle.cla_io.specs.Lines.{OnlyTooLong, IsLfPlace, InCause, HasNoLf, ahead_of, line_number_of};
ghost use Rattle.cla_io.specs.Ahead.{AreLines, ahead_in_limit, after_lines};
ghost use Rattle.cla_io.specs.InputFrame.{ReadsOn};

use crate::files::Files;
use crate::gather::{gather, read_all};
use crate::last_line::LastLine;
use crate::stop::InFault;
use crate::window::Window;
use std::alloc::Global;
use std::marker::Model;

/// The bytes that are held, the line that was taken last, and how much was taken.
#[derive(Drop)]
pub struct Taken {
    pub(crate) window: Window,
    pub(crate) last: LastLine,
    pub(crate) limit: u64,
    pub(crate) at: u64,
    lines: u64,
    ended: bool,
}

impl Model for Taken {
    ghost use Rattle.std.specs.Prelude.{length};
    ghost use Rattle.cla_io.specs.Lines.{Progress};
    ghost use Rattle.cla_io.specs.Window.{items, line_of, IsInOrder};

    ghost Value = { Progress };

    ghost view = { λ t. record {
      ahead = items t.window;
      at = t.at;
      limit = t.limit;
      line = line_of t.last t.window.bytes.items;
      lines = t.lines;
      ended = t.ended;
    } };

    ghost invariant = { λ t. IsInOrder t.last (length t.window.bytes.items) t.limit t.at t.lines };
}

impl Taken {
    pub(crate) fn new(alloc: Global, limit: u64) -> Taken
        requires { limit ≤ 2 ^ 32 }
        ensures { result ≡ record { ahead = []; at = 0; limit = limit; line = []; lines = 0; ended = false } }
    {
        Taken {
            window: Window::new(alloc),
            last: LastLine::Held { start: 0, end: 0 },
            limit,
            at: 0,
            lines: 0,
            ended: false,
        }
    }

    pub(crate) fn at(&self) -> u64
        ensures { result ≡ self.now.at }
    {
        self.at
    }

    pub(crate) fn line(&self) -> &[u8]
        ensures { result.now ≡ self.now.line }
    {
        match &self.last {
            LastLine::Held { start, end } => &self.window.bytes[*start..*end],
            LastLine::Apart { bytes } => bytes,
        }
    }

    pub(crate) fn line_number(&self) -> u64
        ensures { result ≡ line_number_of self.now }
    {
        if self.ended {
            self.lines + 1
        } else {
            self.lines
        }
    }

    // The bytes that are held.
    #[inline(always)]
    pub(crate) fn ahead(&self) -> &[u8]
        ensures { result.now ≡ self.now.ahead }
    {
        self.window.as_slice()
    }

    // Those of them that stand before the limit.
    #[inline(always)]
    pub(crate) fn ahead_in_limit(&self) -> &[u8]
        ensures bytes { result.now ≡ ahead_in_limit self.now }
        ensures in_limit { self.now.at ≤ self.now.limit }
    {
        let held = self.window.as_slice();
        let room = (self.limit - self.at) as usize;
        &held[..room.min(held.len())]
    }

    // Takes so many lines, and keeps none of them.
    #[inline(always)]
    #[tactic(auto, using(crate::proofs::AheadLaws::held_lines))]
    pub(crate) fn take_lines(&mut self, count: u64, width: usize)
        requires { AreLines (ahead_in_limit self.old) count width }
        ensures { self.new ≡ after_lines self.old count width }
    {
        self.window.consume(width);
        let start = self.window.start;
        self.last = LastLine::Held { start, end: start };
        self.at += width as u64;
        self.lines += count;
        self.ended = false;
    }

    // Where the next LF stands among them, if there is one.
    pub(crate) fn lf_ahead(&self) -> Option<usize>
        ensures place { IsLfPlace self.now.ahead result }
        ensures counted { self.now.lines ≤ self.now.at }
    {
        self.window.lf_place()
    }

    // Takes the next line, which ends at this LF.
    #[inline(always)]
    pub(crate) fn take_held(&mut self, place: usize) -> Result<bool, InFault>
        requires { IsLfPlace self.old.ahead (Some place) }
        ensures limit { self.new.limit ≡ self.old.limit }
        ensures line { TakesLine self.old self.new self.old.ahead self.new.ahead result }
        ensures count { CountsLine self.old self.new result }
        ensures only_too_long { OnlyTooLong result }
        ensures same { OnErr result (self.new ≡ self.old) }
        ensures few { self.new.lines ≤ self.new.limit }
        ensures in_limit { self.new.at ≤ self.new.limit }
    {
        let next = self.at + place as u64 + 1;
        if self.limit < next {
            return Err(InFault::TooLong);
        }
        let start = self.window.start;
        let end = start + len_without_cr(&self.window.as_slice()[..place]);
        self.last = LastLine::Held { start, end };
        self.window.consume(place + 1);
        self.at = next;
        self.lines += 1;
        self.ended = false;
        Ok(true)
    }

    // Takes the next line, whose end isn't held. The last line is kept apart first, since to read on
    // overwrites the buffer.
    pub(crate) fn take_far<F: Files>(&mut self, files: &mut F) -> Result<bool, InFault>
        requires open { IsSome (F.state files.old).reading }
        requires none { HasNoLf self.old.ahead }
        ensures frame { ReadsOn (F.state files.old) (F.state files.new) }
        ensures cause { InCause (F.state files.old).read_faults (F.state files.new).read_faults result }
        ensures limit { self.new.limit ≡ self.old.limit }
        ensures line { TakesLineWhereTold self.old self.new (ahead_of self.old (left (F.state files.old)))
            (ahead_of self.new (left (F.state files.new))) result }
        ensures count { CountsLine self.old self.new result }
        ensures few { self.new.lines ≤ self.new.limit }
        ensures in_limit { self.new.at ≤ self.new.limit }
    {
        let alloc = *self.window.bytes.allocator();
        let Ok(last) = Vec::from_slice(alloc, self.line()) else {
            return Err(InFault::Memory);
        };
        self.last = LastLine::Apart { bytes: last };
        let mut line = Vec::new(alloc);
        let room = self.limit - self.at;
        let width = match gather(files, &mut self.window, &mut line, room) {
            Ok(width) => width,
            Err(fault) => return Err(fault),
        };
        if width == 0 {
            self.ended = true;
            return Ok(false);
        }
        line.truncate(len_without_cr(&line));
        self.last = LastLine::Apart { bytes: line };
        self.at += width as u64;
        self.lines += 1;
        self.ended = false;
        Ok(true)
    }

    // Takes all bytes of the file, and keeps the last line apart in the same way.
    pub(crate) fn take_all<F: Files>(&mut self, files: &mut F) -> Result<Vec<u8>, InFault>
        requires open { IsSome (F.state files.old).reading }
        requires nothing_taken { self.old.at ≡ 0 }
        ensures frame { ReadsOn (F.state files.old) (F.state files.new) }
        ensures cause { InCause (F.state files.old).read_faults (F.state files.new).read_faults result }
        ensures limit { self.new.limit ≡ self.old.limit }
        ensures whole { TakesWholeWhereTold self.old self.new (ahead_of self.old (left (F.state files.old)))
            (ahead_of self.new (left (F.state files.new))) result }
        ensures count { CountsWhole self.old self.new result }
    {
        let alloc = *self.window.bytes.allocator();
        let Ok(last) = Vec::from_slice(alloc, self.line()) else {
            return Err(InFault::Memory);
        };
        self.last = LastLine::Apart { bytes: last };
        let all = match read_all(alloc, files, &mut self.window, self.limit) {
            Ok(all) => all,
            Err(fault) => return Err(fault),
        };
        self.at = all.len() as u64;
        Ok(all)
    }
}

// How long a line is without one CR at its end.
fn len_without_cr(line: &[u8]) -> usize
    ensures line { take result line.now ≡ without_cr line.now }
    ensures within { result ≤ length line.now }
{
    match line {
        [.., b'\r'] => line.len() - 1,
        _ => line.len(),
    }
}
