//! The words after the first, read by `clap`.

ghost use Rattle.std.specs.Prelude.{◌≡◌, IfOk, map, option_map, string_bytes, false};
ghost use Rattle.clap.specs.Words.{app_of};
ghost use Rattle.cla_words.specs.Parsed.{Finds, app, line_in};
ghost use Rattle.cla_words.specs.Words.{line_of};

use cla_num::Memory;
use clap::error::ErrorKind;
use clap::{Arg, ArgAction, ArgMatches};
use std::alloc::{AllocError, Global};

/// What the words after the command hold, where the command has the option `--budget` or hasn't.
/// `None` where they aren't places and options.
pub(crate) fn read_line<'a>(
    alloc: Global,
    words: &'a [String],
    has_budget: bool,
) -> Result<Option<ArgMatches<'a>>, Memory>
    ensures { IfOk result (λ matches.
        Finds has_budget (line_of has_budget false (map string_bytes words.entry.now)) (option_map line_in matches)) }
{
    match parser(alloc, has_budget)?.try_get_matches_from(words) {
        Ok(matches) => Ok(Some(matches)),
        Err(error) => match error.kind() {
            ErrorKind::OutOfMemory => Err(Memory),
            _ => Ok(None),
        },
    }
}

fn parser<'a>(alloc: Global, has_budget: bool) -> Result<clap::Command<'a>, AllocError>
    ensures { IfOk result (λ parser. app_of parser ≡ app has_budget) }
{
    let places = Arg::new(alloc, "places").action(ArgAction::Append);
    let parser = clap::Command::new(alloc, "cla")
        .no_binary_name(true)
        .disable_help_flag(true)
        .disable_version_flag(true)
        .arg(places)?;
    if !has_budget {
        return Ok(parser);
    }
    let budget = Arg::new(alloc, "budget")
        .long("budget")
        .action(ArgAction::Set);
    parser.arg(budget)
}
