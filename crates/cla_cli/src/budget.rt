//! Tables that are read within a budget.

ghost use Rattle.std.specs.Prelude.{◌≡◌, None, Some};
ghost use Rattle.cla_spec.specs.Files.{Told};
ghost use Rattle.cla_spec.specs.Matrix.{Matrix};
ghost use Rattle.cla_num.specs.Bits.{IsSupported};
ghost use Rattle.cla_io.specs.Reads.{OnlyReads};
ghost use Rattle.cla_tables.specs.TableFiles as file;
ghost use Rattle.cla_cli.specs.Outcome.{Outcome, budget_or_most, table_refusal, with_table};
ghost use Rattle.cla_cli.specs.Needed.{ReadsNoOther};
ghost use Rattle.cla_cli.specs.Parts.{Exceeds, Fits, HasEnding, Lets, TellsUnread};

use crate::lines::{budget_line, missing_line, table_line, unreadable_line};
use crate::needed::read_table;
use crate::status::{Status, table_status};
use crate::unfinished::Unfinished;
use crate::unread::Unread;
use cla_io::Files;
use cla_num::{Dense, Number};
use cla_tables::{BudgetFault, FileFault, TableFile};
use std::alloc::Global;

/// The greatest budget, which is also the one where none is asked for.
pub(crate) const MOST_BUDGET: u64 = 1 << 32;

/// The budget that was asked for, or the greatest one.
pub(crate) fn budget_or_most(budget: Option<u64>) -> u64
    ensures { result ≡ budget_or_most budget }
{
    match budget {
        Some(budget) => budget,
        None => MOST_BUDGET,
    }
}

/// The table of this name, which takes no more bytes than the budget.
pub(crate) fn read_within<N: Number, F: Files>(
    alloc: Global,
    files: &mut F,
    name: &str,
    budget: u64,
) -> Result<TableFile<N>, Unfinished>
    requires bits { IsSupported N.BITS }
    requires idle { (F.state files.old).writing ≡ None }
    ensures frame { OnlyReads (F.state files.old) (F.state files.new) }
    ensures ending { HasEnding (F.state files.old) (F.state files.new) 0 0 result }
    ensures no_other { ReadsNoOther name.now (F.state files.new).reading }
    ensures reads { (told : Told) (next : file.TableFile → Outcome) → (F.state files.old).told ≡ Some told →
        Lets next (with_table N.BITS budget told name.now next) result }
{
    let table: TableFile<N> = match read_table(alloc, files, name) {
        Ok(table) => table,
        Err(unread) => return Err(tell_table(alloc, name, unread)),
    };
    match within_budget(alloc, name, &table, budget) {
        Ok(()) => Ok(table),
        Err(unfinished) => Err(unfinished),
    }
}

/// The matrix of the table of this name, which takes no more bytes than the budget.
pub(crate) fn read_matrix<N: Number, F: Files>(
    alloc: Global,
    files: &mut F,
    name: &str,
    budget: u64,
) -> Result<Dense<N>, Unfinished>
    requires bits { IsSupported N.BITS }
    requires idle { (F.state files.old).writing ≡ None }
    ensures frame { OnlyReads (F.state files.old) (F.state files.new) }
    ensures ending { HasEnding (F.state files.old) (F.state files.new) 0 0 result }
    ensures no_other { ReadsNoOther name.now (F.state files.new).reading }
    ensures reads { (told : Told) (next : Matrix → Outcome) → (F.state files.old).told ≡ Some told →
        Lets next (with_table N.BITS budget told name.now (λ t. next t.matrix)) result }
{
    match read_within::<N, F>(alloc, files, name, budget) {
        Ok(table) => match table.into_matrix(alloc) {
            Ok(m) => Ok(m),
            Err(_) => Err(Unfinished::Memory),
        },
        Err(unfinished) => Err(unfinished),
    }
}

// Whether a table takes no more bytes than the budget.
fn within_budget<N: Number>(
    alloc: Global,
    name: &str,
    table: &TableFile<N>,
    budget: u64,
) -> Result<(), Unfinished>
    ensures { Fits name.now budget table.now.bytes result }
{
    match table.within_budget(alloc, budget) {
        Ok(()) => Ok(()),
        Err(BudgetFault::Over(over)) => Err(refuse_budget(alloc, name, over.needed, over.budget)),
        Err(BudgetFault::Memory) => Err(Unfinished::Memory),
    }
}

// A table takes more bytes than its budget.
fn refuse_budget(alloc: Global, name: &str, needed: u64, budget: u64) -> Unfinished
    ensures { Exceeds name.now budget needed result }
{
    Unfinished::by_refusal(
        Status::OverBudget { needed, budget },
        budget_line(alloc, name, needed, budget),
    )
}

// Why the table of this name isn't read.
fn tell_table(alloc: Global, name: &str, unread: Unread<FileFault>) -> Unfinished
    ensures { TellsUnread (table_refusal name.now) name.now unread result }
{
    match unread {
        Unread::Missing => Unfinished::by_refusal(Status::Missing, missing_line(alloc, name)),
        Unread::Fault => Unfinished::by_read_fault(unreadable_line(alloc, name)),
        Unread::Memory => Unfinished::Memory,
        Unread::Refused(fault) => {
            Unfinished::by_refusal(table_status(fault), table_line(alloc, name, fault))
        }
    }
}
