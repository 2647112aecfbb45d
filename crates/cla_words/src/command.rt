//! The command that the words ask for.

ghost use Rattle.std.specs.Prelude.{◌≡◌, IfOk, map, option_map, string_bytes};
ghost use Rattle.cla_text.specs.Integers.{int_of};
ghost use Rattle.cla_words.specs.Words.{accepted_command, are_two_places, budget_in, is_place};
ghost use Rattle.cla_words.specs.Words.{asked_budget, command_of, pack_of, run_of, stats_of, takes_budget, unpack_of};
ghost use Rattle.cla_words.specs.Asked.{asked};
ghost use Rattle.cla_words.specs.Parsed.{budget_in_matches, places_in};

use crate::parsed::read_line;
use cla_num::Memory;
use cla_text::read_int;
use clap::ArgMatches;
use std::alloc::Global;

/// What the words ask for. A budget is in bytes.
#[derive(Clone, Copy, Debug, PartialEq, Eq)]
pub enum Command<'a> {
    /// `run SCRIPT [--budget N]` runs a script over tables of at most so many bytes.
    Run {
        script: &'a str,
        budget: Option<u64>,
    },
    /// `pack IN OUT [--budget N]` writes a table as a packed file.
    Pack {
        table: &'a str,
        packed: &'a str,
        budget: Option<u64>,
    },
    /// `unpack IN OUT` writes a table as a Matrix Market text.
    Unpack {
        packed: &'a str,
        table: &'a str,
    },
    /// `stats IN` tells of a table's groups.
    Stats {
        table: &'a str,
    },
}

/// The command of these words, the command line's after the program's name. `None` where they are no
/// command, and an error only where memory is wanting.
pub fn read_command(alloc: Global, words: &[String]) -> Result<Option<Command<'_>>, Memory>
    ensures { IfOk result (λ command. option_map asked command ≡ accepted_command (map string_bytes words.now)) }
{
    let [name, rest @ ..] = words else {
        return Ok(None);
    };
    match read_line(alloc, rest, takes_budget(name.as_str()))? {
        Some(line) => Ok(chosen(name.as_str(), &line)),
        None => Ok(None),
    }
}

fn takes_budget(name: &str) -> bool
    ensures { result ≡ takes_budget name.now }
{
    name == "run" || name == "pack"
}

fn chosen<'a>(name: &str, line: &ArgMatches<'a>) -> Option<Command<'a>>
    ensures { option_map asked result ≡ command_of name.now (places_in line.now) (budget_in_matches line.now) }
{
    match name {
        "run" => run(line),
        "pack" => pack(line),
        "unpack" => unpack(line),
        "stats" => stats(line),
        _ => None,
    }
}

fn run<'a>(line: &ArgMatches<'a>) -> Option<Command<'a>>
    ensures { option_map asked result ≡ run_of (places_in line.now) (budget_in_matches line.now) }
{
    let budget = budget(line)?;
    match line.get_strs("places") {
        Some([script]) if is_place(script) => Some(Command::Run { script, budget }),
        _ => None,
    }
}

fn pack<'a>(line: &ArgMatches<'a>) -> Option<Command<'a>>
    ensures { option_map asked result ≡ pack_of (places_in line.now) (budget_in_matches line.now) }
{
    let budget = budget(line)?;
    match line.get_strs("places") {
        Some([table, packed]) if are_two_places(table, packed) => Some(Command::Pack {
            table,
            packed,
            budget,
        }),
        _ => None,
    }
}

fn unpack<'a>(line: &ArgMatches<'a>) -> Option<Command<'a>>
    ensures { option_map asked result ≡ unpack_of (places_in line.now) }
{
    match line.get_strs("places") {
        Some([packed, table]) if are_two_places(packed, table) => Some(Command::Unpack {
            packed,
            table,
        }),
        _ => None,
    }
}

fn stats<'a>(line: &ArgMatches<'a>) -> Option<Command<'a>>
    ensures { option_map asked result ≡ stats_of (places_in line.now) }
{
    match line.get_strs("places") {
        Some([table]) if is_place(table) => Some(Command::Stats { table }),
        _ => None,
    }
}

// The budget of the line, where it has one. `None` where its value isn't a budget.
fn budget(line: &ArgMatches) -> Option<Option<u64>>
    ensures { result ≡ asked_budget (budget_in_matches line.now) }
{
    match line.get_str("budget") {
        Some(value) => Some(Some(read_budget(value)?)),
        None => Some(None),
    }
}

fn read_budget(value: &str) -> Option<u64>
    ensures { result ≡ budget_in (int_of value.now) }
{
    match read_int(value.as_bytes()) {
        Ok(budget @ 0..=0x1_0000_0000) => Some(budget as u64),
        _ => None,
    }
}

fn are_two_places(from: &str, to: &str) -> bool
    ensures { result ≡ are_two_places from.now to.now }
{
    is_place(from) && is_place(to) && from != to
}

fn is_place(word: &str) -> bool
    ensures { result ≡ is_place word.now }
{
    !word.is_empty() && word != "-"
}
