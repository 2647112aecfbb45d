//! What a command line comes to.

ghost use Rattle.std.specs.Prelude.{◌≡◌};
ghost use Rattle.cla_cli.specs.Codes.{code_of};
ghost use Rattle.cla_cli.specs.Outcome.{table_status};

use cla_check::ShapeKind;
use cla_mtx::MtxFault;
use cla_num::OpFault;
use cla_pack::PackFault;
use cla_script::{Place, ScriptKind};
use cla_tables::FileFault;

/// What a command line comes to. [`code`] gives the exit status of the process.
#[derive(Clone, Copy, Debug, PartialEq, Eq)]
pub enum Status {
    /// The command was done.
    Done,
    /// Memory was wanting.
    Memory,
    /// The words are no command.
    Usage,
    /// A needed file is absent.
    Missing,
    /// A needed file can't be read.
    ReadFault,
    /// The output can't be written.
    WriteFault,
    /// The script isn't of the form that runs.
    BadScript { place: Place, kind: BadKind },
    /// A table isn't of a form that is read: the first fault of its text or of its packed file.
    BadFile { fault: FileFault },
    /// A script has too many bytes, or a table too many bytes or cells.
    Limit,
    /// An operator has a cell out of range: the operator's place, and its first such cell.
    Operator { place: Place, fault: OpFault },
    /// A table takes more bytes than its budget, as a packed file of its cut would.
    OverBudget { needed: u64, budget: u64 },
}

/// Why a script is refused: its text, its shapes, or a statement that doesn't run yet.
#[derive(Clone, Copy, Debug, PartialEq, Eq)]
pub enum BadKind {
    Script(ScriptKind),
    Shape(ShapeKind),
    Unbuilt,
}

/// The status of a table with this fault.
pub(crate) fn table_status(fault: FileFault) -> Status
    ensures { result ≡ table_status fault }
{
    match fault {
        FileFault::Mtx(MtxFault::TooLarge { rows: _, cols: _ } | MtxFault::TooLong)
        | FileFault::Pack(PackFault::TooLarge { rows: _, cols: _ } | PackFault::TooLong) => {
            Status::Limit
        }
        _ => Status::BadFile { fault },
    }
}

/// The exit status of the process.
pub fn code(s: &Status) -> u8
    ensures { result ≡ code_of s.now }
{
    match s {
        Status::Done => 0,
        Status::Memory => 1,
        Status::Usage => 2,
        Status::Missing => 3,
        Status::ReadFault => 4,
        Status::WriteFault => 5,
        Status::BadScript { place: _, kind: _ } => 6,
        Status::BadFile { fault: _ } => 7,
        Status::Limit => 8,
        Status::Operator { place: _, fault: _ } => 9,
        Status::OverBudget {
            needed: _,
            budget: _,
        } => 10,
    }
}
