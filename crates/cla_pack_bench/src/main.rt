//! Reads a packed file, and prints the sum of its table, which is found on the groups: to be timed from outside.
#![tactic(auto)]

ghost use Rattle.std.specs.Prelude.{◌≡◌, None};

use cla_agg::sum;
use cla_io::{DiskFiles, Files, Input, StdSink};
use cla_measuring::Stop;
use cla_num::{Int, Meter};
use cla_pack::read_packed;
use cla_print::print_number;
use std::alloc::Global;
use std::env;

/// The greatest size of a file.
const LIMIT: u64 = 1 << 32;

// The sum of the table in the packed file of this name.
fn total_in<F: Files>(alloc: Global, files: &mut F, name: &str) -> Result<Int<47>, Stop>
    requires { (F.state files.old).writing ≡ None }
{
    let Ok(true) = files.begin_read(name) else {
        return Err(Stop::System);
    };
    let mut input = Input::new(alloc, files, LIMIT)?;
    match read_packed::<Int<47>, F>(alloc, &mut input) {
        Ok(packed) => Ok(sum(&packed.table, &mut Meter::new())?),
        Err(_) => Err(Stop::Words),
    }
}

fn run(rt: &HostRuntime) -> Result<(), Stop> {
    let words: Vec<String> = env::args(rt)?.skip(1).collect(rt.alloc())?;
    if words.len() != 1 {
        return Err(Stop::Words);
    }
    let mut files = DiskFiles::new(rt, rt.alloc());
    let total = total_in(rt.alloc(), &mut files, words[0].as_str())?;
    let mut out = StdSink::new(rt.stdout());
    match print_number(total, &mut out) {
        Ok(()) => Ok(()),
        Err(_) => Err(Stop::System),
    }
}

fn main(rt: HostRuntime) -> Result<(), Stop> {
    run(&rt)
}
