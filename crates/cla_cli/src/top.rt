//! The top call.

ghost use Rattle.std.specs.Prelude.{◌≡◌, ◌⊎◌, ◌≤◌, ℕ, map, string_bytes, None};
ghost use Rattle.cla_num.specs.Bits.{IsSupported};
ghost use Rattle.cla_num.specs.Counts.{AreBelow, run_bound};
ghost use Rattle.cla_io.specs.Reads.{OnlyReads};
ghost use Rattle.cla_words.specs.Asked.{asked};
ghost use Rattle.cla_words.specs.Words.{accepted_command};
ghost use Rattle.cla_cli.specs.Outcome.{command_outcome, script_outcome, stats_outcome, written_outcome};
ghost use Rattle.cla_cli.specs.Run.{ending_of, FaultsCome, MissesCome, EndsWhereTold, Completes, CountsWhereTold};
ghost use Rattle.cla_cli.specs.Run.{ReadsOnlyNeeded, Keeps, Written, written};
ghost use Rattle.cla_cli.specs.Parts.{ComesWhereTold, HasEnding, HasCountsWhereTold, IsNeededWhereTold, TellsHalt};
ghost use Rattle.cla_cli.specs.Parts.{Tells, TellsLine};

use crate::budget::{MOST_BUDGET, budget_or_most, read_matrix, read_within};
use crate::inputs::{Inputs, read_inputs};
use crate::lines::operator_line;
use crate::statements::{Halted, put_text, run_statements};
use crate::stats::stats_text;
use crate::status::Status;
use crate::unfinished::Unfinished;
use crate::writing::{Form, tell_unwritten, write_file};
use cla_io::{Files, Sink, Stop, put_all};
use cla_num::{Dense, Meter, Number};
use cla_tables::TableFile;
use cla_words::{Command, read_command};
use std::alloc::Global;

/// Does all that the program does on these words, the command line's after the program's name.
///
/// Today they are `run SCRIPT` and `pack TABLE PACKED`, each with `--budget N` or without it,
/// `unpack PACKED TABLE`, and `stats TABLE`. A script reads tables, and prints numbers, tables, their
/// sums, the sums of their products with a number, and how many rows and columns they have. The checks
/// come in this order, and the first refusal decides: the words, the script's text, each table in the
/// order of its reads, with the bytes of its cut against the budget, the shapes; then each statement is
/// evaluated and printed in turn. The other commands read one table by the same checks: `stats` prints
/// how it is grouped, `pack` and `unpack` then write it as another file. What the words come to is
/// `outcome_of` them and of what the files hold, unless memory is wanting or a file, the output or
/// standard error fails. A line on standard error tells why a command isn't done.
pub fn run<N: Number, F: Files, O: Sink, E: Sink>(
    alloc: Global,
    words: &[String],
    files: &mut F,
    out: &mut O,
    err: &mut E,
    meter: &mut Meter,
) -> Status
    requires bits { IsSupported N.BITS }
    requires room { AreBelow run_bound meter.old }
    requires idle { (F.state files.old).writing ≡ None }
    ensures ends { EndsWhereTold N.BITS (map string_bytes words.now)
        (F.state files.old).told (F.state files.new).told (F.state files.old) (F.state files.new)
        (written (O.told out.old) (O.faults out.old)) (written (O.told out.new) (O.faults out.new))
        (written (E.told err.old) (E.faults err.old)) (written (E.told err.new) (E.faults err.new)) result }
    ensures counts { CountsWhereTold N.BITS (map string_bytes words.now)
        (F.state files.old).told meter.old meter.new result }
    ensures completes { Completes N.BITS (map string_bytes words.now)
        (F.state files.old).told (F.state files.old) (F.state files.new) (O.faults out.old) (O.faults out.new) result }
    ensures usage { result ≡ Status.Usage → accepted_command (map string_bytes words.now) ≡ None }
    ensures unaccepted { accepted_command (map string_bytes words.now) ≡ None →
        (result ≡ Status.Usage) ⊎ (result ≡ Status.Memory) }
    ensures untouched { accepted_command (map string_bytes words.now) ≡ None →
        (files.new ≡ files.old) × (out.new ≡ out.old) × (meter.new ≡ meter.old) }
    ensures only_needed { ReadsOnlyNeeded N.BITS (map string_bytes words.now)
        (F.state files.old).told (F.state files.old).reading (F.state files.new).reading }
    ensures silent { result ≡ Status.Done → err.new ≡ err.old }
    ensures faults { FaultsCome (F.state files.old) (F.state files.new)
        (O.faults out.old) (O.faults out.new) (ending_of result) }
    ensures misses { MissesCome (F.state files.old) (F.state files.new) result }
    ensures files_kept { Keeps (F.state files.old) (F.state files.new) }
    ensures out_later { O.faults out.old ≤ O.faults out.new }
    ensures out_steady { O.steady out.new ≡ O.steady out.old }
    ensures out_kept { O.kept out.old out.new }
    ensures err_later { E.faults err.old ≤ E.faults err.new }
    ensures err_steady { E.steady err.new ≡ E.steady err.old }
    ensures err_kept { E.kept err.old err.new }
{
    let Ok(command) = read_command(alloc, words) else {
        return tell(err, Unfinished::Memory);
    };
    let Some(command) = command else {
        return tell_line(err, b"usage: cla COMMAND WORDS\n", Status::Usage);
    };
    match run_command::<N, F, O>(alloc, command, files, out, meter) {
        Ok(()) => Status::Done,
        Err(unfinished) => tell(err, unfinished),
    }
}

// Does what the words ask for.
fn run_command<N: Number, F: Files, O: Sink>(
    alloc: Global,
    command: Command<'_>,
    files: &mut F,
    out: &mut O,
    meter: &mut Meter,
) -> Result<(), Unfinished>
    requires bits { IsSupported N.BITS }
    requires room { AreBelow run_bound meter.old }
    requires idle { (F.state files.old).writing ≡ None }
    ensures comes { ComesWhereTold (λ told. command_outcome N.BITS told (asked command.entry))
        (F.state files.old).told (F.state files.new).told (F.state files.old) (F.state files.new)
        (written (O.told out.old) (O.faults out.old)) (written (O.told out.new) (O.faults out.new)) result }
    ensures ending { HasEnding (F.state files.old) (F.state files.new) (O.faults out.old) (O.faults out.new) result }
    ensures counts { HasCountsWhereTold (λ told. command_outcome N.BITS told (asked command.entry))
        (F.state files.old).told meter.old meter.new result }
    ensures needed { IsNeededWhereTold (λ told. command_outcome N.BITS told (asked command.entry))
        (F.state files.old).told (F.state files.new).reading }
    ensures frame { Keeps (F.state files.old) (F.state files.new) }
    ensures later { O.faults out.old ≤ O.faults out.new }
    ensures steady { O.steady out.new ≡ O.steady out.old }
    ensures kept { O.kept out.old out.new }
{
    match command {
        Command::Run { script, budget } => {
            let budget = budget_or_most(budget);
            run_script::<N, F, O>(alloc, script, budget, files, out, meter)
        }
        Command::Pack {
            table,
            packed,
            budget,
        } => {
            let budget = budget_or_most(budget);
            convert::<N, F>(alloc, table, packed, Form::Packed, budget, files)
        }
        Command::Unpack { packed, table } => {
            convert::<N, F>(alloc, packed, table, Form::Market, MOST_BUDGET, files)
        }
        Command::Stats { table } => print_stats::<N, F, O>(alloc, table, files, out),
    }
}

// Runs the script of this name, whose tables are not to take more bytes than the budget.
fn run_script<N: Number, F: Files, O: Sink>(
    alloc: Global,
    name: &str,
    budget: u64,
    files: &mut F,
    out: &mut O,
    meter: &mut Meter,
) -> Result<(), Unfinished>
    requires bits { IsSupported N.BITS }
    requires room { AreBelow run_bound meter.old }
    requires idle { (F.state files.old).writing ≡ None }
    ensures comes { ComesWhereTold (λ told. script_outcome N.BITS budget told name.now)
        (F.state files.old).told (F.state files.new).told (F.state files.old) (F.state files.new)
        (written (O.told out.old) (O.faults out.old)) (written (O.told out.new) (O.faults out.new)) result }
    ensures ending { HasEnding (F.state files.old) (F.state files.new) (O.faults out.old) (O.faults out.new) result }
    ensures counts { HasCountsWhereTold (λ told. script_outcome N.BITS budget told name.now)
        (F.state files.old).told meter.old meter.new result }
    ensures needed { IsNeededWhereTold (λ told. script_outcome N.BITS budget told name.now)
        (F.state files.old).told (F.state files.new).reading }
    ensures frame { OnlyReads (F.state files.old) (F.state files.new) }
    ensures later { O.faults out.old ≤ O.faults out.new }
    ensures steady { O.steady out.new ≡ O.steady out.old }
    ensures kept { O.kept out.old out.new }
{
    let inputs: Inputs<N> = match read_inputs(alloc, files, name, budget) {
        Ok(inputs) => inputs,
        Err(unfinished) => return Err(unfinished),
    };
    let statements = &inputs.checked.script().statements;
    match run_statements(alloc, statements, &inputs.tables, out, meter) {
        Ok(()) => Ok(()),
        Err(halted) => Err(tell_halt(alloc, halted)),
    }
}

// Writes the table of one name as a file of another, in this form. The table is not to take more bytes
// than the budget.
fn convert<N: Number, F: Files>(
    alloc: Global,
    from: &str,
    to: &str,
    form: Form,
    budget: u64,
    files: &mut F,
) -> Result<(), Unfinished>
    requires bits { IsSupported N.BITS }
    requires idle { (F.state files.old).writing ≡ None }
    ensures comes { (out : Written) → ComesWhereTold
        (λ told. written_outcome form N.BITS budget told from.now to.now) (F.state files.old).told
        (F.state files.new).told (F.state files.old) (F.state files.new) out out result }
    ensures ending { (faults : ℕ) → HasEnding (F.state files.old) (F.state files.new) faults faults result }
    ensures needed { IsNeededWhereTold (λ told. written_outcome form N.BITS budget told from.now to.now)
        (F.state files.old).told (F.state files.new).reading }
    ensures frame { Keeps (F.state files.old) (F.state files.new) }
{
    let m: Dense<N> = match read_matrix(alloc, files, from, budget) {
        Ok(m) => m,
        Err(unfinished) => return Err(unfinished),
    };
    match write_file(alloc, &m, form, to, files) {
        Ok(()) => Ok(()),
        Err(reason) => Err(tell_unwritten(alloc, to, reason)),
    }
}

// Prints how the table of this name is grouped.
fn print_stats<N: Number, F: Files, O: Sink>(
    alloc: Global,
    name: &str,
    files: &mut F,
    out: &mut O,
) -> Result<(), Unfinished>
    requires bits { IsSupported N.BITS }
    requires idle { (F.state files.old).writing ≡ None }
    ensures comes { ComesWhereTold (λ told. stats_outcome N.BITS told name.now)
        (F.state files.old).told (F.state files.new).told (F.state files.old) (F.state files.new)
        (written (O.told out.old) (O.faults out.old)) (written (O.told out.new) (O.faults out.new)) result }
    ensures ending { HasEnding (F.state files.old) (F.state files.new) (O.faults out.old) (O.faults out.new) result }
    ensures needed { IsNeededWhereTold (λ told. stats_outcome N.BITS told name.now)
        (F.state files.old).told (F.state files.new).reading }
    ensures frame { OnlyReads (F.state files.old) (F.state files.new) }
    ensures later { O.faults out.old ≤ O.faults out.new }
    ensures steady { O.steady out.new ≡ O.steady out.old }
    ensures kept { O.kept out.old out.new }
{
    let table: TableFile<N> = match read_within(alloc, files, name, MOST_BUDGET) {
        Ok(table) => table,
        Err(unfinished) => return Err(unfinished),
    };
    let Ok(text) = stats_text(alloc, &table) else {
        return Err(Unfinished::Memory);
    };
    match put_text(text.bytes(), out) {
        Ok(()) => Ok(()),
        Err(halted) => Err(tell_halt(alloc, halted)),
    }
}

// Why the statements ended before the last one.
fn tell_halt(alloc: Global, halted: Halted) -> Unfinished
    ensures { TellsHalt halted result }
{
    match halted {
        Halted::Operator { place, fault } => Unfinished::by_refusal(
            Status::Operator { place, fault },
            operator_line(alloc, place, &fault),
        ),
        Halted::Unwritten => Unfinished::OutputUnwritten,
        Halted::Memory => Unfinished::Memory,
    }
}

// Tells why a command isn't done.
fn tell<E: Sink>(err: &mut E, unfinished: Unfinished) -> Status
    ensures tells { Tells unfinished
        (written (E.told err.old) (E.faults err.old)) (written (E.told err.new) (E.faults err.new)) result }
    ensures later { E.faults err.old ≤ E.faults err.new }
    ensures steady { E.steady err.new ≡ E.steady err.old }
    ensures kept { E.kept err.old err.new }
{
    match unfinished {
        Unfinished::Refused { status, line } => tell_line(err, line.bytes(), status),
        Unfinished::Unread { line } => tell_line(err, line.bytes(), Status::ReadFault),
        Unfinished::OutputUnwritten => {
            tell_line(err, b"cannot write output\n", Status::WriteFault)
        }
        Unfinished::FileUnwritten { line } => tell_line(err, line.bytes(), Status::WriteFault),
        Unfinished::Memory => tell_line(err, b"out of memory\n", Status::Memory),
    }
}

// Puts a line on standard error. Where it can't be written, the status stays.
fn tell_line<E: Sink>(err: &mut E, line: &[u8], status: Status) -> Status
    ensures tells { TellsLine line.now status
        (written (E.told err.old) (E.faults err.old)) (written (E.told err.new) (E.faults err.new)) result }
    ensures later { E.faults err.old ≤ E.faults err.new }
    ensures steady { E.steady err.new ≡ E.steady err.old }
    ensures kept { E.kept err.old err.new }
{
    match put_all(err, line) {
        Ok(()) | Err(Stop::Failed) => status,
        Err(Stop::Memory) => Status::Memory,
    }
}
