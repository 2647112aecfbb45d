//! Measures the cut of a matrix into groups: prints the cut as a check sum, and on standard error how long it took.
#![tactic(auto)]

mod measure;
mod stop;
mod table;
mod task;

use measure::measure;
use std::env;
use std::rt::Runtime;
use stop::Stop;
use table::table_of;
use task::Task;

fn run(rt: &(impl Runtime + AllocGlobal)) -> Result<(), Stop> {
    let words: Vec<String> = env::args(rt)?.skip(1).collect(rt.alloc())?;
    let task = Task::from_words(&words).ok_or(Stop::Words)?;
    let table = table_of(rt.alloc(), &task)?;
    measure(rt, &task, &table)
}

fn main(rt: HostRuntime) -> Result<(), Stop> {
    run(&rt)
}
