//! The statements of a script, one after the other.

ghost use Rattle.std.specs.Prelude.{◌≡◌, ◌≤◌, ◌<◌, ◌^◌, [], length};
ghost use Rattle.cla_spec.specs.Files.{Told};
ghost use Rattle.cla_num.specs.Bits.{IsSupported};
ghost use Rattle.cla_num.specs.Counts.{AreBelow, run_bound};
ghost use Rattle.cla_script.specs.Reads.{statements_of};
ghost use Rattle.cla_script.specs.View.{tree_of};
ghost use Rattle.cla_cli.specs.Statements.{Trace, printing, value_of, work_of, then_prints, trace_of, script_work};
ghost use Rattle.cla_cli.specs.Evaluate.{CountsTo, FewMore, statement_most, statement_bound};
ghost use Rattle.cla_cli.specs.Runs.{Runs, GoesOn, HasHaltCause, halted_by};

use crate::evaluate::{Failed, call_value};
use crate::names::{Assigned, table_of};
use crate::table::Table;
use cla_io::{Sink, Stop, put_all};
use cla_num::{Meter, Number, OpFault};
use cla_print::print_number;
use cla_script::{Expr, Place, Statement};
use std::alloc::Global;

/// The statements end before the last one: an operator fails, the output can't be written, or memory
/// is wanting.
#[derive(Debug, Drop)]
pub(crate) enum Halted {
    Operator { place: Place, fault: OpFault },
    Unwritten,
    Memory,
}

/// Evaluates and prints the statements in order, over the tables that they read. Each is evaluated
/// whole before its first byte is written.
pub(crate) fn run_statements<N: Number, O: Sink>(
    alloc: Global,
    statements: &[Statement<N>],
    tables: &[Table<N>],
    out: &mut O,
    meter: &mut Meter,
) -> Result<(), Halted>
    requires bits { IsSupported N.BITS }
    requires few { length statements.now < 2 ^ 32 }
    requires room { AreBelow run_bound meter.old }
    ensures runs { (told : Told) → Runs told (trace_of N.BITS [] (statements_of N.value statements.now) tables.now)
        (O.told out.old) (O.told out.new) result }
    ensures counts { CountsTo (script_work [] (statements_of N.value statements.now) tables.now)
        meter.old meter.new result }
    ensures cause { HasHaltCause (O.faults out.old) (O.faults out.new) result }
    ensures later { O.faults out.old ≤ O.faults out.new }
    ensures steady { O.steady out.new ≡ O.steady out.old }
    ensures kept { O.kept out.old out.new }
{
    let mut names = Vec::new(alloc);
    let mut tables = tables;
    for statement in statements {
        match statement {
            Statement::Read { name, .. } => {
                if let [table, rest @ ..] = tables {
                    if names.push(Assigned::new(name, table)).is_err() {
                        return Err(Halted::Memory);
                    }
                    tables = rest;
                }
            }
            Statement::Print { value } => match print_value(alloc, &names, value, out, meter) {
                Ok(()) => (),
                Err(halted) => return Err(halted),
            },
            Statement::Let { .. } | Statement::Write { .. } | Statement::Pack { .. } => (),
        }
    }
    Ok(())
}

// Prints the value of an expression.
fn print_value<N: Number, O: Sink>(
    alloc: Global,
    names: &[Assigned<N>],
    value: &Expr<N>,
    out: &mut O,
    meter: &mut Meter,
) -> Result<(), Halted>
    requires bits { IsSupported N.BITS }
    requires room { AreBelow statement_bound meter.old }
    ensures prints { (told : Told) (rest : Trace) →
        GoesOn told (then_prints (value_of N.BITS names.now (tree_of N.value value.now)) rest) rest
        (O.told out.old) (O.told out.new) result }
    ensures counts { CountsTo (work_of names.now (tree_of N.value value.now)) meter.old meter.new result }
    ensures few { FewMore statement_most meter.old meter.new }
    ensures cause { HasHaltCause (O.faults out.old) (O.faults out.new) result }
    ensures later { O.faults out.old ≤ O.faults out.new }
    ensures steady { O.steady out.new ≡ O.steady out.old }
    ensures kept { O.kept out.old out.new }
{
    match value {
        Expr::Number { value } => halted_by(print_number(*value, out)),
        Expr::Named { name, .. } => match table_of(names, name) {
            Some(table) => halted_by(table.print(alloc, out)),
            None => Ok(()),
        },
        Expr::Call { place, call, a } => match call_value(alloc, names, *place, *call, a, meter) {
            Ok(Some(n)) => halted_by(print_number(n, out)),
            Ok(None) => Ok(()),
            Err(Failed::Operator { place, fault }) => Err(Halted::Operator { place, fault }),
            Err(Failed::Memory) => Err(Halted::Memory),
        },
        Expr::Neg { .. }
        | Expr::Square { .. }
        | Expr::Binary { .. }
        | Expr::Bind { .. }
        | Expr::Slice { .. } => Ok(()),
    }
}

/// Prints a text that is all that a command prints.
pub(crate) fn put_text<O: Sink>(text: &[u8], out: &mut O) -> Result<(), Halted>
    ensures runs { (told : Told) → Runs told (printing text.now) (O.told out.old) (O.told out.new) result }
    ensures cause { HasHaltCause (O.faults out.old) (O.faults out.new) result }
    ensures later { O.faults out.old ≤ O.faults out.new }
    ensures steady { O.steady out.new ≡ O.steady out.old }
    ensures kept { O.kept out.old out.new }
{
    halted_by(put_all(out, text))
}

// What a call that prints answers, as the statements end by it.
fn halted_by(answer: Result<(), Stop>) -> Result<(), Halted>
    ensures { result ≡ halted_by answer }
{
    match answer {
        Ok(()) => Ok(()),
        Err(Stop::Failed) => Err(Halted::Unwritten),
        Err(Stop::Memory) => Err(Halted::Memory),
    }
}
