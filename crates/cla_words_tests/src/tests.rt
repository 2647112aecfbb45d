//! Each line is read, and its command compared with that worked out by hand.

use crate::accepted::{PACK, RUN, STATS, UNPACK};
use crate::refused::{BUDGETS, NAMES, OPTIONS, PLACES};
use cla_words::{Command, read_command};
use std::alloc::Global;
use std::process::Abort;
use std::test::Fail;

// The words between the bars of a line are the command, or none.
fn are(rt: &impl Abort, alloc: Global, line: &str, command: Option<Command>) -> Result<(), Fail> {
    let mut words = Vec::new(alloc);
    for word in line.split('|') {
        words.push(String::from_str(alloc, word)?)?;
    }
    assert_eq!(rt;
        read_command(alloc, words.as_slice()),
        Ok(command),
        "at {line}"
    );
    Ok(())
}

fn run(rt: &impl Abort, alloc: Global, table: &[(&str, &str, Option<u64>)]) -> Result<(), Fail> {
    for (line, script, budget) in table {
        are(
            rt,
            alloc,
            line,
            Some(Command::Run {
                script,
                budget: *budget,
            }),
        )?;
    }
    Ok(())
}

fn pack(
    rt: &impl Abort,
    alloc: Global,
    table: &[(&str, &str, &str, Option<u64>)],
) -> Result<(), Fail> {
    for (line, table, packed, budget) in table {
        are(
            rt,
            alloc,
            line,
            Some(Command::Pack {
                table,
                packed,
                budget: *budget,
            }),
        )?;
    }
    Ok(())
}

fn unpack(rt: &impl Abort, alloc: Global, table: &[(&str, &str, &str)]) -> Result<(), Fail> {
    for (line, packed, table) in table {
        are(rt, alloc, line, Some(Command::Unpack { packed, table }))?;
    }
    Ok(())
}

fn stats(rt: &impl Abort, alloc: Global, table: &[(&str, &str)]) -> Result<(), Fail> {
    for (line, table) in table {
        are(rt, alloc, line, Some(Command::Stats { table }))?;
    }
    Ok(())
}

fn refuse(rt: &impl Abort, alloc: Global, lines: &[&str]) -> Result<(), Fail> {
    for line in lines {
        are(rt, alloc, line, None)?;
    }
    Ok(())
}

#[test]
fn commands(rt: HostRuntime) -> Result<(), Fail> {
    run(&rt, rt.alloc(), &RUN)?;
    pack(&rt, rt.alloc(), &PACK)?;
    unpack(&rt, rt.alloc(), &UNPACK)?;
    stats(&rt, rt.alloc(), &STATS)
}

#[test]
fn no_commands(rt: HostRuntime) -> Result<(), Fail> {
    assert_eq!(rt; read_command(rt.alloc(), &[]), Ok(None));
    refuse(&rt, rt.alloc(), &NAMES)?;
    refuse(&rt, rt.alloc(), &PLACES)?;
    refuse(&rt, rt.alloc(), &BUDGETS)?;
    refuse(&rt, rt.alloc(), &OPTIONS)
}
