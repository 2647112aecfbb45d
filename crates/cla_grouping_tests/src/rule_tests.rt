//! The rule that groups columns, on tables whose sizes are known by hand: which kind, which group, and when none.

use crate::made::{Seen, matrix, seen};
use cla_cocode::layout;
use cla_layout::Kind;
use std::alloc::Global;
use std::test::Fail;

// What is seen of the cut of the matrix with these entries.
fn cut_of(alloc: Global, rows: u32, cols: u32, cells: &[i64]) -> Result<Option<Seen>, Fail> {
    let m = matrix(alloc, rows, cols, cells)?;
    Ok(seen(&layout(alloc, &m)?))
}

// One column of 1,000 rows: sevens in these, and zeros in the others.
fn cut_of_sevens(alloc: Global, rows: &[usize]) -> Result<Option<Seen>, Fail> {
    let mut cells = [0; 1000];
    for i in rows {
        if let Some(cell) = cells.get_mut(*i) {
            *cell = 7;
        }
    }
    cut_of(alloc, 1000, 1, &cells)
}

// Plain: 5 + 4 bytes of columns, and 16 of values. One code for each row would take 4 + 2 bytes more.
// Offsets: 14 bytes before the lists, 8 of the value, 2 of the count, and 2 for each of ten rows. Ten
// runs would take 80.
// Offsets tie with runs: five rows in one run are 2 + 10 bytes as offsets, and 4 + 8 as a run. The lower
// kind is taken.
// The plain group ties with the groups: two groups of 28 and 33 bytes, and one of both columns of 61.
#[test]
fn kinds(rt: HostRuntime) -> Result<(), Fail> {
    let plain = cut_of(rt.alloc(), 2, 1, &[1, 2])?;
    assert_eq!(rt; plain, Some((1, Kind::Plain, 0, 1, 25)));
    let apart = [0, 100, 200, 300, 400, 500, 600, 700, 800, 900];
    let offsets = cut_of_sevens(rt.alloc(), &apart)?;
    assert_eq!(rt; offsets, Some((1, Kind::Offsets, 0, 1, 44)));
    let tie = cut_of_sevens(rt.alloc(), &[10, 11, 12, 13, 14])?;
    assert_eq!(rt; tie, Some((1, Kind::Offsets, 0, 1, 34)));
    let both = cut_of(rt.alloc(), 3, 2, &[0, 1, 1, 0, 1, 2])?;
    assert_eq!(rt; both, Some((1, Kind::Plain, 1, 2, 61)));
    Ok(())
}

// Of the 81 rows in four digits of base 3: the digits times those of a factor, added up modulo 3, and 1
// more. Columns of factors that are no multiples of one another have all nine pairs of numbers. So such
// columns take 118 bytes each, or less in runs, and 242 together.
fn form(factor: u32, i: u32) -> i64 {
    let first = factor / 27 % 3 * (i % 3) + factor / 9 % 3 * (i / 3 % 3);
    let second = factor / 3 % 3 * (i / 9 % 3) + factor % 3 * (i / 27 % 3);
    i64::from((first + second) % 3 + 1)
}

// One row of a table of such columns.
fn push_row(factors: &[u32], i: u32, cells: &mut Vec<i64>) -> Result<(), Fail> {
    for factor in factors {
        cells.push(form(*factor, i))?;
    }
    Ok(())
}

// What is seen of the cut of a table of such columns.
fn cut_of_forms(alloc: Global, factors: &[u32]) -> Result<Option<Seen>, Fail> {
    let Ok(cols) = u32::try_from(factors.len()) else {
        return Ok(None);
    };
    let mut cells = Vec::new(alloc);
    for i in 0..81 {
        push_row(factors, i, &mut cells)?;
    }
    cut_of(alloc, 81, cols, &cells)
}

// A column of ones takes 34 bytes, and 28 more in a group of 118: it saves 6 with either of two groups,
// and joins the first.
#[test]
fn two_groups_tie(rt: HostRuntime) -> Result<(), Fail> {
    let first = cut_of_forms(rt.alloc(), &[27, 9, 0])?;
    assert_eq!(rt; first, Some((2, Kind::Codes, 2, 2, 146)));
    Ok(())
}

// The first and the last column are equal, and the others no multiples of one another: the first group
// is the sixteenth last, or the seventeenth last, when the last column comes.
const SIXTEEN: [u32; 17] = [
    27, 1, 3, 4, 5, 9, 10, 11, 12, 13, 14, 15, 16, 17, 28, 29, 27,
];

const SEVENTEEN: [u32; 18] = [
    27, 1, 3, 4, 5, 9, 10, 11, 12, 13, 14, 15, 16, 17, 28, 29, 30, 27,
];

// The last column joins the sixteenth last group. The seventeenth last would be the better one, but the
// column stands alone.
#[test]
fn last_sixteen_groups(rt: HostRuntime) -> Result<(), Fail> {
    let joined = cut_of_forms(rt.alloc(), &SIXTEEN)?;
    assert_eq!(rt; joined, Some((16, Kind::Codes, 16, 2, 146)));
    let alone = cut_of_forms(rt.alloc(), &SEVENTEEN)?;
    assert_eq!(rt; alone, Some((18, Kind::Codes, 0, 1, 118)));
    Ok(())
}
