//! Files in memory, a few bytes at a time.

ghost use Rattle.std.specs.Prelude.{◌≤◌};

use crate::files::Files;
use crate::mem_files::MemFiles;
use crate::stop::Stop;

/// Files in memory each `read` and `write` of which moves at most `most` bytes.
#[derive(Drop)]
pub struct Drip {
    files: MemFiles,
    most: usize,
    ghost some: { 1 ≤ most },
}

impl Drip {
    ghost use Rattle.std.specs.Prelude.{◌≡◌};
    ghost use Rattle.cla_io.specs.Drip.{files_in, most_at_once};

    /// These files, of which at most so many bytes move at a time. Takes no memory.
    pub fn new(files: MemFiles, most: usize) -> Drip
        requires { 1 ≤ most }
        ensures state { ⟦<Drip as Files>⟧.state result ≡ ⟦<MemFiles as Files>⟧.state files }
        ensures files { files_in result ≡ files }
        ensures most { most_at_once result ≡ most }
    {
        Drip { files, most }
    }
}

impl Files for Drip {
    ghost use Rattle.std.specs.Prelude.{◌≡◌, ◌<◌, IsSome, IfOk, min, length};
    ghost use Rattle.cla_io.specs.Counts.{HasCause};
    ghost use Rattle.cla_io.specs.Reads.{OnlyReads, Reads};
    ghost use Rattle.cla_io.specs.Writes.{OnlyWrites, Writes};
    ghost use Rattle.cla_io.specs.Mem.{faultless_files};
    ghost use Rattle.cla_io.specs.State.{left};
    ghost use Rattle.cla_io.specs.MemTold.{TakesMost};
    ghost use Rattle.cla_io.specs.Drip.{most_at_once};

    ghost state = { λ d. ⟦<MemFiles as Files>⟧.state d.files };

    fn begin_read(&mut self, name: &str) -> Result<bool, Stop> {
        self.files.begin_read(name)
    }

    fn read(&mut self, into: &mut [u8]) -> Result<usize, Stop>
        requires open { IsSome (⟦<Drip as Files>⟧.state self.old).reading }
        requires room { 0 < length into.old }
        ensures frame { OnlyReads (⟦<Drip as Files>⟧.state self.old) (⟦<Drip as Files>⟧.state self.new) }
        ensures misses { (⟦<Drip as Files>⟧.state self.new).misses ≡ (⟦<Drip as Files>⟧.state self.old).misses }
        ensures reads { Reads (⟦<Drip as Files>⟧.state self.old) (⟦<Drip as Files>⟧.state self.new) into.new result }
        ensures cause { HasCause (⟦<Drip as Files>⟧.state self.old).read_faults
            (⟦<Drip as Files>⟧.state self.new).read_faults result }
        ensures most { TakesMost (left (⟦<Drip as Files>⟧.state self.old))
            (min (length into.old) (most_at_once self.old)) result }
    {
        let room = into.len().min(self.most);
        self.files.read(&mut into[..room])
    }

    fn begin_write(&mut self, name: &str) -> Result<(), Stop> {
        self.files.begin_write(name)
    }

    fn write(&mut self, piece: &[u8]) -> Result<usize, Stop>
        requires open { IsSome (⟦<Drip as Files>⟧.state self.old).writing }
        requires some { 0 < length piece.now }
        ensures frame { OnlyWrites (⟦<Drip as Files>⟧.state self.old) (⟦<Drip as Files>⟧.state self.new) }
        ensures reading { (⟦<Drip as Files>⟧.state self.new).reading ≡ (⟦<Drip as Files>⟧.state self.old).reading }
        ensures writing { (⟦<Drip as Files>⟧.state self.new).writing ≡ (⟦<Drip as Files>⟧.state self.old).writing }
        ensures writes { Writes piece.now (⟦<Drip as Files>⟧.state self.old) (⟦<Drip as Files>⟧.state self.new) result }
        ensures cause { HasCause (⟦<Drip as Files>⟧.state self.old).write_faults
            (⟦<Drip as Files>⟧.state self.new).write_faults result }
        ensures most { IfOk result (λ n. n ≡ min (length piece.now) (most_at_once self.old)) }
    {
        let most = piece.len().min(self.most);
        self.files.write(&piece[..most])
    }

    fn end_write(&mut self) -> Result<(), Stop> {
        self.files.end_write()
    }

    ghost faultless = { λ d steady. faultless_files d.files.plan.fail.items (⟦<MemFiles as Files>⟧.state d.files)
        d.files.unfailing_reads d.files.unfailing_writes steady };

    ghost written_there = { λ d. d.files.written };
}
