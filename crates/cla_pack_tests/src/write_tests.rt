//! Matrices whose packed files are known, one of each kind of group.

use cla_io::{MemSink, OutFault};
use cla_num::{Dense, Int, Number};
use cla_pack::pack_matrix;
use std::alloc::Global;
use std::process::Abort;
use std::test::Fail;

type Entry = Int<47>;

// At most so many cells may a matrix have.
const MOST_CELLS: u64 = 1 << 26;

// The matrix of one row for each pair of a count and an integer, as often as the count says.
fn column(alloc: Global, runs: &[(u32, i64)]) -> Result<Dense<Entry>, Fail> {
    let mut cells = Vec::new(alloc);
    for (count, v) in runs {
        let value = Entry::of(*v).ok_or("in range")?;
        for _ in 0..*count {
            cells.push(value)?;
        }
    }
    let rows = u32::try_from(cells.len())?;
    if rows == 0 || rows as u64 > MOST_CELLS {
        return Err(Fail::new("a column of another size"));
    }
    Ok(Dense::new(rows, 1, cells))
}

// What is written of a column where the writes with these numbers fail, and the answer.
fn packed(
    alloc: Global,
    runs: &[(u32, i64)],
    fail: Vec<u64>,
) -> Result<(MemSink, Result<(), OutFault>), Fail> {
    let m = column(alloc, runs)?;
    let mut out = MemSink::new(fail);
    let answer = pack_matrix(alloc, &m, &mut out);
    Ok((out, answer))
}

// A column, as counts and integers, and its file: after the magic the rows, 1 and 1, and then the group.
const FILES: [(&[(u32, i64)], &[u8]); 4] = [
    // Plain: the value of the one row.
    (
        &[(1, -2)],
        b"CLAGRP01\x01\0\0\0\x01\0\0\0\x01\0\0\0\x01\x01\0\0\0\0\0\0\0\xfe\xff\xff\xff\xff\xff\xff\xff",
    ),
    // Codes: one tuple, and a byte for each row.
    (
        &[(3, 5)],
        b"CLAGRP01\x03\0\0\0\x01\0\0\0\x01\0\0\0\x02\x01\0\0\0\0\0\0\0\x01\0\0\0\x05\0\0\0\0\0\0\0\0\0\0",
    ),
    // Offsets: no tuple but the rest.
    (
        &[(1000, 0)],
        b"CLAGRP01\xe8\x03\0\0\x01\0\0\0\x01\0\0\0\x03\x01\0\0\0\0\0\0\0\0\0\0\0\x01",
    ),
    // Runs: two tuples, no rest, and one run for each tuple.
    (
        &[(500, 7), (500, 9)],
        b"CLAGRP01\xe8\x03\0\0\x01\0\0\0\x01\0\0\0\x04\x01\0\0\0\0\0\0\0\x02\0\0\0\0\
        \x07\0\0\0\0\0\0\0\x09\0\0\0\0\0\0\0\x01\0\0\0\0\0\0\0\xf4\x01\0\0\x01\0\0\0\xf4\x01\0\0\xf4\x01\0\0",
    ),
];

#[test]
fn files_of_each_kind(rt: HostRuntime) -> Result<(), Fail> {
    for (runs, bytes) in FILES {
        let (out, answer) = packed(rt.alloc(), runs, Vec::new(rt.alloc()))?;
        assert_eq!(rt; answer, Ok(()));
        assert_eq!(rt; out.bytes(), bytes);
    }
    Ok(())
}

#[test]
fn a_write_that_fails(rt: HostRuntime) -> Result<(), Fail> {
    let (out, answer) = packed(rt.alloc(), &[(3, 5)], vec![in rt.alloc(); 1]?)?;
    assert_eq!(rt; answer, Err(OutFault::Write));
    assert!(rt; out.bytes().is_empty());
    Ok(())
}
