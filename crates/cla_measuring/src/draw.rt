//! Codes that look like chance, the same each time.

use cla_group::Kind;
use cla_num::Memory;
use std::alloc::Global;

/// How many rows have equal codes one after the other in groups of runs.
const RUN_ROWS: u32 = 16;

/// How the codes of a group are drawn.
#[derive(Clone, Copy)]
pub struct Draw {
    pub kind: Kind,
    pub rows: u32,

    /// How many tuples there are beside that of zeros.
    pub tuples: u32,

    /// How many of a thousand rows have one of these.
    pub listed: u32,

    /// Each number gives other codes.
    pub salt: u32,
}

// A number that looks like chance, the same for each place each time.
fn mixed(place: u32) -> u32 {
    let first = (place ^ place >> 16).wrapping_mul(0x7feb_352d);
    let second = (first ^ first >> 15).wrapping_mul(0x846c_a68b);
    second ^ second >> 16
}

// So many more rows with this code.
fn push_rows(code: u32, count: u32, codes: &mut Vec<u32>) -> Result<(), Memory> {
    for _ in 0..count {
        codes.push(code)?;
    }
    Ok(())
}

impl Draw {
    // The code of the rows in this place: 0, or a number from 1 to `tuples`. `greatest` is the greatest code
    // before: the first places have the tuples in turn, so that each has a row.
    fn code_at(&self, place: u32, greatest: u32) -> u32 {
        let place = place.wrapping_add(self.salt);
        if mixed(place) % 1000 >= self.listed || self.tuples == 0 {
            return 0;
        }
        if greatest < self.tuples {
            return greatest + 1;
        }
        (mixed(place.wrapping_add(0x9e37_79b9)) % self.tuples).wrapping_add(1)
    }

    /// The code of each row.
    pub fn codes_of_rows(&self, alloc: Global) -> Result<Vec<u32>, Memory> {
        let rows_a_place = match self.kind {
            Kind::Runs => RUN_ROWS,
            _ => 1,
        };
        let mut codes = Vec::with_capacity(alloc, self.rows as usize + RUN_ROWS as usize)?;
        let mut greatest = 0;
        for place in 0..self.rows.div_ceil(rows_a_place) {
            let code = self.code_at(place, greatest);
            push_rows(code, rows_a_place, &mut codes)?;
            greatest = greatest.max(code);
        }
        codes.truncate(self.rows as usize);
        Ok(codes)
    }
}
