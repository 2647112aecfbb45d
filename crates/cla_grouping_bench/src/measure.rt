//! The cut, and how long it takes.

use crate::stop::Stop;
use crate::table::Cell;
use crate::task::Task;
use cla_cocode::{Cut, LayoutGroup, layout};
use cla_layout::Kind;
use cla_num::Dense;
use std::rt::{Clock, Runtime};
use std::time::Instant;

// A check sum of numbers (FNV-1a, in 64 bits, over their words of 32 bits).
#[derive(Clone, Copy)]
struct CheckSum {
    value: u64,
}

impl CheckSum {
    fn new() -> CheckSum {
        CheckSum {
            value: 0xcbf2_9ce4_8422_2325,
        }
    }

    fn add(&mut self, word: u32) {
        self.value = (self.value ^ u64::from(word)).wrapping_mul(0x0000_0100_0000_01b3);
    }
}

fn kind_number(kind: Kind) -> u32 {
    match kind {
        Kind::Plain => 1,
        Kind::Codes => 2,
        Kind::Offsets => 3,
        Kind::Runs => 4,
    }
}

fn add_group(group: &LayoutGroup, sum: &mut CheckSum) {
    sum.add(kind_number(group.kind));
    for column in &group.columns {
        sum.add(*column);
    }
    sum.add(u32::try_from(group.bytes).unwrap_or(u32::MAX));
}

fn sum_of(cut: &Cut) -> CheckSum {
    let mut sum = CheckSum::new();
    for group in &cut.groups {
        add_group(group, &mut sum);
    }
    sum
}

/// Makes the cut so many times, and prints its check sum, and on standard error the nanoseconds of the best round.
pub fn measure(
    rt: &(impl Runtime + AllocGlobal),
    task: &Task,
    table: &Dense<Cell>,
) -> Result<(), Stop> {
    let mut best = u64::MAX;
    let mut groups = 0;
    let mut sum = CheckSum::new();
    for _ in 0..task.rounds {
        let start = Instant::now(rt)?;
        let cut = layout(rt.alloc(), table)?;
        let nanoseconds = u64::try_from(start.elapsed(rt)?.as_nanos()).unwrap_or(u64::MAX);
        best = best.min(nanoseconds);
        groups = cut.groups.len();
        sum = sum_of(&cut);
    }
    println!(rt; "{groups} groups, sum {}", sum.value)?;
    eprintln!(rt; "{best}")?;
    Ok(())
}
