//! Files that a command writes.

ghost use Rattle.std.specs.Prelude.{◌≡◌, None, IsSome};
ghost use Rattle.cla_io.specs.Kept.{KeptFiles};
ghost use Rattle.cla_io.specs.Sinks.{PutsAll, HasWriteCause};
ghost use Rattle.cla_io.specs.Writes.{OnlyWrites, held};
ghost use Rattle.cla_cli.specs.Forms.{file_of};
ghost use Rattle.cla_cli.specs.Writing.{HasFileCause, TellsUnwritten, WritesFile, first_failure};

use crate::lines::unwritable_line;
use crate::unfinished::Unfinished;
use cla_io::{FileSink, Files, OutFault, Stop};
use cla_mtx::write_mtx;
use cla_num::{Dense, Number};
use cla_pack::pack_matrix;
use std::alloc::Global;

/// The form of a table's file: a Matrix Market text, or a packed file.
#[derive(Clone, Copy, Debug)]
pub(crate) enum Form {
    Market,
    Packed,
}

/// Writes a matrix as a file of this name. The write is ended whatever was put, and of two failures the
/// first one is answered.
pub(crate) fn write_file<N: Number, F: Files>(
    alloc: Global,
    m: &Dense<N>,
    form: Form,
    name: &str,
    files: &mut F,
) -> Result<(), Stop>
    ensures frame { OnlyWrites (F.state files.old) (F.state files.new) }
    ensures no_reading { (F.state files.new).reading ≡ None }
    ensures no_writing { (F.state files.new).writing ≡ None }
    ensures writes { WritesFile name.now (file_of form m.now)
        (F.state files.old).told (F.state files.new).told result }
    ensures cause { HasFileCause (F.state files.old).write_faults (F.state files.new).write_faults result }
{
    match files.begin_write(name) {
        Ok(()) => (),
        Err(stop) => return Err(stop),
    }
    let put = put_table(alloc, m, form, files);
    first_failure(put, files.end_write())
}

// Puts a matrix into the file that is being written.
fn put_table<N: Number, F: Files>(
    alloc: Global,
    m: &Dense<N>,
    form: Form,
    files: &mut F,
) -> Result<(), OutFault>
    requires { IsSome (F.state files.old).writing }
    ensures puts { PutsAll (file_of form m.now) (held (F.state files.old).told (F.state files.old).writing)
        (held (F.state files.new).told (F.state files.new).writing) result }
    ensures kept { KeptFiles (F.state files.old) (F.state files.new) }
    ensures cause { HasWriteCause (F.state files.old).write_faults (F.state files.new).write_faults result }
{
    match form {
        Form::Market => write_mtx(alloc, m, &mut FileSink::new(files)),
        Form::Packed => pack_matrix(alloc, m, &mut FileSink::new(files)),
    }
}

// What a write comes to, of which something was put before it ended.
fn first_failure(put: Result<(), OutFault>, ended: Result<(), Stop>) -> Result<(), Stop>
    ensures { result ≡ first_failure put ended }
{
    match put {
        Ok(()) => ended,
        Err(OutFault::Write) => Err(Stop::Failed),
        Err(OutFault::Memory) => Err(Stop::Memory),
    }
}

/// Why the file of this name isn't written.
pub(crate) fn tell_unwritten(alloc: Global, name: &str, reason: Stop) -> Unfinished
    ensures { TellsUnwritten name.now reason result }
{
    match reason {
        Stop::Failed => Unfinished::by_write_fault(unwritable_line(alloc, name)),
        Stop::Memory => Unfinished::Memory,
    }
}
