//! The files that a command needs: its script and its tables.

ghost use Rattle.std.specs.Prelude.{◌≡◌, ◌≤◌, OnOk, IfOk, None, length};
ghost use Rattle.cla_io.specs.Reads.{OnlyReads};
ghost use Rattle.cla_num.specs.Bits.{IsSupported};
ghost use Rattle.cla_cli.specs.Limits.{script_limit};
ghost use Rattle.cla_cli.specs.Needed.{HasUnreadCause, ReadsNoOther, Opens, ReadsText, ReadsTable, unread_by};

use crate::unread::{TooLong, Unread};
use cla_io::{Files, InFault, Input, Stop};
use cla_mtx::MtxFault;
use cla_num::Number;
use cla_pack::PackFault;
use cla_tables::{FileFault, TableFile};
use std::alloc::Global;

/// How many bytes a script may have.
pub(crate) const SCRIPT_BYTES: u64 = 1 << 20;

/// How many bytes a table may have.
pub(crate) const TABLE_BYTES: u64 = 1 << 32;

/// The whole text of a script.
pub(crate) fn read_text<F: Files>(
    alloc: Global,
    files: &mut F,
    name: &str,
) -> Result<Vec<u8>, Unread<TooLong>>
    requires idle { (F.state files.old).writing ≡ None }
    ensures frame { OnlyReads (F.state files.old) (F.state files.new) }
    ensures cause { HasUnreadCause (F.state files.old) (F.state files.new) result }
    ensures no_other { ReadsNoOther name.now (F.state files.new).reading }
    ensures short { IfOk result (λ text. length text.items ≤ script_limit) }
    ensures reads { ReadsText (F.state files.old).told name.now result }
{
    match open(files, name) {
        Ok(()) => (),
        Err(unread) => return Err(unread),
    }
    let Ok(mut input) = Input::new(alloc, files, SCRIPT_BYTES) else {
        return Err(Unread::Memory);
    };
    match input.whole() {
        Ok(text) => Ok(text),
        Err(InFault::TooLong) => Err(Unread::Refused(TooLong)),
        Err(InFault::Read) => Err(Unread::Fault),
        Err(InFault::Memory) => Err(Unread::Memory),
    }
}

/// The table of this name, in either form.
pub(crate) fn read_table<N: Number, F: Files>(
    alloc: Global,
    files: &mut F,
    name: &str,
) -> Result<TableFile<N>, Unread<FileFault>>
    requires bits { IsSupported N.BITS }
    requires idle { (F.state files.old).writing ≡ None }
    ensures frame { OnlyReads (F.state files.old) (F.state files.new) }
    ensures cause { HasUnreadCause (F.state files.old) (F.state files.new) result }
    ensures no_other { ReadsNoOther name.now (F.state files.new).reading }
    ensures reads { ReadsTable N.BITS (F.state files.old).told name.now result }
{
    match open(files, name) {
        Ok(()) => (),
        Err(unread) => return Err(unread),
    }
    let Ok(mut input) = Input::new(alloc, files, TABLE_BYTES) else {
        return Err(Unread::Memory);
    };
    match cla_tables::read_table(alloc, &mut input) {
        Ok(table) => Ok(table),
        Err(fault) => Err(unread_by(fault)),
    }
}

// Why a file that is there isn't read as a table.
fn unread_by(fault: FileFault) -> Unread<FileFault>
    ensures { result ≡ unread_by fault }
{
    match fault {
        FileFault::Mtx(MtxFault::Read) | FileFault::Pack(PackFault::Read) => Unread::Fault,
        FileFault::Mtx(MtxFault::Memory) | FileFault::Pack(PackFault::Memory) => Unread::Memory,
        fault => Unread::Refused(fault),
    }
}

// Begins to read a file that has to be there.
fn open<F: Files, R>(files: &mut F, name: &str) -> Result<(), Unread<R>>
    requires { (F.state files.old).writing ≡ None }
    ensures frame { OnlyReads (F.state files.old) (F.state files.new) }
    ensures cause { HasUnreadCause (F.state files.old) (F.state files.new) result }
    ensures opens { Opens (F.state files.old).told name.now (F.state files.new).reading result }
{
    match files.begin_read(name) {
        Ok(true) => Ok(()),
        Ok(false) => Err(Unread::Missing),
        Err(Stop::Failed) => Err(Unread::Fault),
        Err(Stop::Memory) => Err(Unread::Memory),
    }
}
