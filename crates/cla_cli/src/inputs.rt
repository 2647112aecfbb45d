//! What a run needs before its first statement: the script and its tables.

ghost use Rattle.std.specs.Prelude.{◌≡◌, ◌≤◌, ◌<◌, ◌^◌, ℕ, List, Some, None, All, IfOk, length, map};
ghost use Rattle.cla_spec.specs.Files.{Told};
ghost use Rattle.cla_spec.specs.Matrix.{Matrix};
ghost use Rattle.cla_num.specs.Bits.{IsSupported};
ghost use Rattle.cla_io.specs.Reads.{OnlyReads};
ghost use Rattle.cla_script.specs.Reads.{statements_of};
ghost use Rattle.cla_tokens.specs.Formed.{AllFormed};
ghost use Rattle.cla_check.specs.Scripts.{IsInLimits, reads_in};
ghost use Rattle.cla_check.specs.Checks.{script_of};
ghost use Rattle.cla_cli.specs.Statements.{files_read};
ghost use Rattle.cla_cli.specs.Outcome.{Outcome, checked_script, checked_statements, with_table, with_tables};
ghost use Rattle.cla_cli.specs.Outcome.{reads_outcome, statements_outcome, script_outcome, shape_of_table};
ghost use Rattle.cla_cli.specs.Needed.{ReadsNoOther};
ghost use Rattle.cla_cli.specs.Run.{ReadsOnly};
ghost use Rattle.cla_cli.specs.Parts.{HasEnding, IsNeeded, Lets, Passes, RefusesAt, TellsFault, TellsUnread};
ghost use Rattle.cla_cli.specs.Parts.{refusal_of_text};

use crate::budget::read_matrix;
use crate::built::are_built;
use crate::lines::{limit_line, missing_line, script_line, unreadable_line};
use crate::needed::{SCRIPT_BYTES, read_text};
use crate::status::{BadKind, Status};
use crate::table::Table;
use crate::unfinished::Unfinished;
use crate::unread::{TooLong, Unread};
use cla_check::{Checked, Shape, ShapeFault, check};
use cla_io::Files;
use cla_num::{Memory, Number};
use cla_script::{Place, Script, ScriptFault, Statement, clash, parse};
use std::alloc::Global;

/// A script whose shapes were checked, and the tables that it reads, in order.
#[derive(Drop)]
pub(crate) struct Inputs<N: Number> {
    pub(crate) checked: Checked<N>,
    pub(crate) tables: Vec<Table<N>>,
}

/// The script of this name and its tables, where all checks pass: those of its text, then each table
/// in the order of its reads, with its budget, then its shapes, and whether all of its statements run
/// today.
pub(crate) fn read_inputs<N: Number, F: Files>(
    alloc: Global,
    files: &mut F,
    name: &str,
    budget: u64,
) -> Result<Inputs<N>, Unfinished>
    requires bits { IsSupported N.BITS }
    requires idle { (F.state files.old).writing ≡ None }
    ensures frame { OnlyReads (F.state files.old) (F.state files.new) }
    ensures ending { HasEnding (F.state files.old) (F.state files.new) 0 0 result }
    ensures needed { (told : Told) → (F.state files.old).told ≡ Some told →
        IsNeeded (script_outcome N.BITS budget told name.now).needed (F.state files.new).reading }
    ensures reads { (told : Told) → (F.state files.old).told ≡ Some told → Lets
        (λ inputs. statements_outcome N.BITS
        (statements_of N.value (script_of inputs.checked).statements.items) inputs.tables.items)
        (script_outcome N.BITS budget told name.now) result }
    ensures few { IfOk result (λ inputs. length (script_of inputs.checked).statements.items < 2 ^ 32) }
{
    let script: Script<N> = match read_script(alloc, files, name) {
        Ok(script) => script,
        Err(unfinished) => return Err(unfinished),
    };
    let tables = match read_tables(alloc, files, &script.statements, budget) {
        Ok(tables) => tables,
        Err(unfinished) => return Err(unfinished),
    };
    match check_script(alloc, script, &tables) {
        Ok(checked) => Ok(Inputs { checked, tables }),
        Err(unfinished) => Err(unfinished),
    }
}

// The script of this name.
fn read_script<N: Number, F: Files>(
    alloc: Global,
    files: &mut F,
    name: &str,
) -> Result<Script<N>, Unfinished>
    requires bits { IsSupported N.BITS }
    requires idle { (F.state files.old).writing ≡ None }
    ensures frame { OnlyReads (F.state files.old) (F.state files.new) }
    ensures ending { HasEnding (F.state files.old) (F.state files.new) 0 0 result }
    ensures no_other { ReadsNoOther name.now (F.state files.new).reading }
    ensures reads { (told : Told) (budget : ℕ) → (F.state files.old).told ≡ Some told →
        Lets (λ s. reads_outcome N.BITS budget told (statements_of N.value s.statements.items))
        (script_outcome N.BITS budget told name.now) result }
    ensures few { IfOk result (λ s. length s.statements.items < 2 ^ 32) }
    ensures formed { IfOk result (λ s. AllFormed (statements_of N.value s.statements.items)) }
{
    match read_text(alloc, files, name) {
        Ok(text) => script_in(alloc, &text),
        Err(unread) => Err(tell_text(alloc, name, unread)),
    }
}

// The script of a text.
fn script_in<N: Number>(alloc: Global, text: &[u8]) -> Result<Script<N>, Unfinished>
    requires bits { IsSupported N.BITS }
    requires short { length text.now ≤ 2 ^ 20 }
    ensures passes { Passes (λ s. statements_of N.value s.statements.items) (checked_script N.BITS text.now) result }
    ensures few { IfOk result (λ s. length s.statements.items < 2 ^ 32) }
    ensures formed { IfOk result (λ s. AllFormed (statements_of N.value s.statements.items)) }
{
    let script = match parse(alloc, text) {
        Ok(script) => script,
        Err(fault) => return Err(tell_fault(alloc, fault)),
    };
    match clash(&script) {
        Ok(()) => Ok(script),
        Err(fault) => Err(tell_fault(alloc, fault)),
    }
}

// Why a text is no script.
fn tell_fault(alloc: Global, fault: ScriptFault) -> Unfinished
    ensures { TellsFault fault result }
{
    match fault {
        ScriptFault::At { place, kind } => refuse_script(alloc, place, BadKind::Script(kind)),
        ScriptFault::Memory => Unfinished::Memory,
    }
}

// A script is refused at a place.
fn refuse_script(alloc: Global, place: Place, kind: BadKind) -> Unfinished
    ensures { RefusesAt place kind result }
{
    Unfinished::by_refusal(
        Status::BadScript { place, kind },
        script_line(alloc, place, kind),
    )
}

// The tables that the statements read, in order.
fn read_tables<N: Number, F: Files>(
    alloc: Global,
    files: &mut F,
    statements: &[Statement<N>],
    budget: u64,
) -> Result<Vec<Table<N>>, Unfinished>
    requires bits { IsSupported N.BITS }
    requires idle { (F.state files.old).writing ≡ None }
    ensures frame { OnlyReads (F.state files.old) (F.state files.new) }
    ensures ending { HasEnding (F.state files.old) (F.state files.new) 0 0 result }
    ensures needed { (told : Told) (next : List Matrix → Outcome) → (F.state files.old).told ≡ Some told →
        ReadsOnly (with_tables N.BITS budget told (files_read (statements_of N.value statements.now)) next).needed
        (F.state files.old).reading (F.state files.new).reading }
    ensures reads { (told : Told) (next : List Matrix → Outcome) → (F.state files.old).told ≡ Some told →
        Lets (λ tables. next tables.items)
        (with_tables N.BITS budget told (files_read (statements_of N.value statements.now)) next) result }
    ensures one_each { IfOk result (λ tables. length tables.items ≡ reads_in (statements_of N.value statements.now)) }
{
    let mut tables = Vec::new(alloc);
    for statement in statements {
        if let Statement::Read { file, .. } = statement {
            let table = match one_table(alloc, files, file.as_str(), budget) {
                Ok(table) => table,
                Err(unfinished) => return Err(unfinished),
            };
            let Ok(()) = tables.push(table) else {
                return Err(Unfinished::Memory);
            };
        }
    }
    Ok(tables)
}

// The table of this name.
fn one_table<N: Number, F: Files>(
    alloc: Global,
    files: &mut F,
    name: &str,
    budget: u64,
) -> Result<Table<N>, Unfinished>
    requires bits { IsSupported N.BITS }
    requires idle { (F.state files.old).writing ≡ None }
    ensures frame { OnlyReads (F.state files.old) (F.state files.new) }
    ensures ending { HasEnding (F.state files.old) (F.state files.new) 0 0 result }
    ensures no_other { ReadsNoOther name.now (F.state files.new).reading }
    ensures reads { (told : Told) (next : Matrix → Outcome) → (F.state files.old).told ≡ Some told →
        Lets next (with_table N.BITS budget told name.now (λ t. next t.matrix)) result }
{
    match read_matrix(alloc, files, name, budget) {
        Ok(m) => match Table::of(alloc, m) {
            Ok(table) => Ok(table),
            Err(_) => Err(Unfinished::Memory),
        },
        Err(unfinished) => Err(unfinished),
    }
}

// The script, where its shapes have no fault and all of its statements run today.
fn check_script<N: Number>(
    alloc: Global,
    script: Script<N>,
    tables: &[Table<N>],
) -> Result<Checked<N>, Unfinished>
    requires few { length script.statements.items < 2 ^ 32 }
    requires formed { AllFormed (statements_of N.value script.statements.items) }
    requires one_each { length tables.now ≡ reads_in (statements_of N.value script.statements.items) }
    ensures passes { Passes (λ c. tt)
        (checked_statements (statements_of N.value script.statements.items) tables.now) result }
    ensures same { IfOk result (λ c. script_of c ≡ script) }
{
    let Ok(shapes) = shapes_of(alloc, tables) else {
        return Err(Unfinished::Memory);
    };
    let checked = match check(alloc, script, &shapes) {
        Ok(checked) => checked,
        Err(ShapeFault::At { place, kind }) => {
            return Err(refuse_script(alloc, place, BadKind::Shape(kind)));
        }
        Err(ShapeFault::Memory) => return Err(Unfinished::Memory),
    };
    if are_built(&checked.script().statements) {
        Ok(checked)
    } else {
        Err(refuse_script(alloc, Place { line: 1, col: 1 }, BadKind::Unbuilt))
    }
}

fn shapes_of<N: Number>(alloc: Global, tables: &[Table<N>]) -> Result<Vec<Shape>, Memory>
    ensures shapes { IfOk result (λ shapes. shapes.items ≡ map shape_of_table tables.now) }
    ensures limits { IfOk result (λ shapes. All IsInLimits shapes.items) }
{
    let mut shapes = Vec::with_capacity(alloc, tables.len())?;
    for table in tables {
        shapes.push(table.shape())?;
    }
    Ok(shapes)
}

// Why the script of this name isn't read.
fn tell_text(alloc: Global, name: &str, unread: Unread<TooLong>) -> Unfinished
    ensures { TellsUnread (refusal_of_text name.now) name.now unread result }
{
    match unread {
        Unread::Missing => Unfinished::by_refusal(Status::Missing, missing_line(alloc, name)),
        Unread::Fault => Unfinished::by_read_fault(unreadable_line(alloc, name)),
        Unread::Memory => Unfinished::Memory,
        Unread::Refused(TooLong) => {
            Unfinished::by_refusal(Status::Limit, limit_line(alloc, name, SCRIPT_BYTES))
        }
    }
}
