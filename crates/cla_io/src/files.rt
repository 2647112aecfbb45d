//! Files by name.

ghost use Rattle.std.specs.Prelude.{◌≡◌, ◌<◌, None, length, IsSome};
ghost use Rattle.cla_io.specs.State.{State, SteadyIsFaultless, WritingIsThere};
ghost use Rattle.cla_io.specs.Counts.{HasCause};
ghost use Rattle.cla_io.specs.Reads.{OnlyReads, BeginsRead, Reads};
ghost use Rattle.cla_io.specs.Writes.{OnlyWrites, BeginsWrite, Writes};

use crate::stop::Stop;

/// Files by name, one of which may be read or written at a time. Contracts see them by `state`:
/// what they hold where they tell it, the file that is being read with its place, the name of the
/// file that is being written, counts of faults and of missing files, and whether they are steady,
/// so that no call of theirs fails.
pub trait Files {
    ghost state: { Self → State };

    /// Begins to read a file from its first byte. `false` says that there is no such file. Nothing
    /// is being read after `false` and after an error.
    fn begin_read(&mut self, name: &str) -> Result<bool, Stop>
        requires idle { (state self.old).writing ≡ None }
        ensures frame { OnlyReads (state self.old) (state self.new) }
        ensures begins { BeginsRead name.now (state self.old) (state self.new) result }
        ensures cause { HasCause (state self.old).read_faults (state self.new).read_faults result };

    /// Reads the next bytes into the first places of `into`, and gives their number. Where the
    /// files tell, it is 0 exactly at the end. After an error the place is as it was.
    fn read(&mut self, into: &mut [u8]) -> Result<usize, Stop>
        requires open { IsSome (state self.old).reading }
        requires room { 0 < length into.old }
        ensures frame { OnlyReads (state self.old) (state self.new) }
        ensures misses { (state self.new).misses ≡ (state self.old).misses }
        ensures reads { Reads (state self.old) (state self.new) into.new result }
        ensures cause { HasCause (state self.old).read_faults (state self.new).read_faults result };

    /// Begins to write a file, which is there and holds nothing from then on. Nothing is being read
    /// any more. After an error no file has changed, and nothing is being written.
    fn begin_write(&mut self, name: &str) -> Result<(), Stop>
        ensures frame { OnlyWrites (state self.old) (state self.new) }
        ensures begins { BeginsWrite name.now (state self.old) (state self.new) result }
        ensures cause { HasCause (state self.old).write_faults (state self.new).write_faults result };

    /// Appends some of the bytes, at least one, to the file that is being written, and gives their
    /// number. After an error nothing is appended.
    fn write(&mut self, piece: &[u8]) -> Result<usize, Stop>
        requires open { IsSome (state self.old).writing }
        requires some { 0 < length piece.now }
        ensures frame { OnlyWrites (state self.old) (state self.new) }
        ensures reading { (state self.new).reading ≡ (state self.old).reading }
        ensures writing { (state self.new).writing ≡ (state self.old).writing }
        ensures writes { Writes piece.now (state self.old) (state self.new) result }
        ensures cause { HasCause (state self.old).write_faults (state self.new).write_faults result };

    /// Ends to write. Nothing is being written any more, after an error too.
    fn end_write(&mut self) -> Result<(), Stop>
        requires { IsSome (state self.old).writing }
        ensures frame { OnlyWrites (state self.old) (state self.new) }
        ensures told { (state self.new).told ≡ (state self.old).told }
        ensures reading { (state self.new).reading ≡ (state self.old).reading }
        ensures writing { (state self.new).writing ≡ None }
        ensures cause { HasCause (state self.old).write_faults (state self.new).write_faults result };

    /// Steady files have no faults.
    ghost faultless: { (files : Self) → SteadyIsFaultless (state files) };

    /// The file that is being written is there.
    ghost written_there: { (files : Self) → WritingIsThere (state files) };
}
