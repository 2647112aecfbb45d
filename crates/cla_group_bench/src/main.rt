//! Measures the calls of groups: prints what each call made as a check sum, and on standard error how long it took.
#![tactic(auto)]

mod input;
mod measure;
mod task;

use cla_measuring::Stop;
use input::group_of;
use measure::measure_all;
use std::env;
use std::rt::Runtime;
use task::Task;

fn run(rt: &(impl Runtime + AllocGlobal)) -> Result<(), Stop> {
    let words: Vec<String> = env::args(rt)?.skip(1).collect(rt.alloc())?;
    let task = Task::from_words(&words).ok_or(Stop::Words)?;
    let codes = task.draw().codes_of_rows(rt.alloc())?;
    let mut groups = Vec::new(rt.alloc());
    for _ in 0..task.copies {
        groups.push(group_of(rt.alloc(), &task, &codes)?)?;
    }
    if task.rounds > 0 {
        measure_all(rt, &task, group_of(rt.alloc(), &task, &codes)?)?;
    }
    rt.println(groups.len())?;
    Ok(())
}

fn main(rt: HostRuntime) -> Result<(), Stop> {
    run(&rt)
}
