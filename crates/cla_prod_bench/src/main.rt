//! Measures the products of tables: prints what each made as a check sum, and on standard error how long it took.
#![tactic(auto)]

mod calls;
mod operands;
mod task;

use calls::{CALLS, measure};
use cla_measuring::Stop;
use operands::Operands;
use std::env;
use std::rt::Runtime;
use std::test::Fail;
use task::Task;

fn run(rt: &(impl Runtime + AllocGlobal)) -> Result<(), Fail> {
    let words: Vec<String> = env::args(rt)?.skip(1).collect(rt.alloc())?;
    let task = Task::from_words(&words).ok_or(Stop::Words)?;
    let operands = Operands::of(rt.alloc(), &task)?;
    for (call, name) in CALLS.as_slice() {
        measure(rt, &task, *call, &operands)?.print(rt, name, task.rows)?;
    }
    Ok(())
}

fn main(rt: HostRuntime) -> Result<(), Fail> {
    run(&rt)
}
