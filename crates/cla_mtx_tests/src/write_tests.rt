//! Matrices that are written to files, some of whose calls fail, and read back.

ghost use Rattle.std.specs.Prelude.{◌≤◌};

use crate::good_texts::{ARRAYS, BANNERS, GENERALS, Good, MIRRORED, SKIPPED};
use crate::heads::{GENERAL, NONE};
use crate::table_files::{
    Answer, Entry, are_same, bytes_of, is_matrix, joined, one_file, read_from, read_text, write_to,
};
use crate::tables::{array_text, scattered_cells, scattered_text};
use cla_io::{CallKind, Drip};
use cla_mtx::OutFault;
use cla_num::Dense;
use std::alloc::Global;
use std::process::Abort;
use std::test::Fail;

// Entries as they come in files, with the lines that are written for their matrices.
const WRITTEN: [(&str, &str); 6] = [
    ("1 1 2\n1 1 4\n1 1 -4\n", "1 1 0\n"),
    (
        "3 2 6\n3 2 2\n1 2 1\n2 2 1\n1 1 0\n3 1 2\n2 1 1\n",
        "3 2 5\n2 1 1\n3 1 2\n1 2 1\n2 2 1\n3 2 2\n",
    ),
    ("1 2 1\n1 2 -07\n", "1 2 1\n1 2 -7\n"),
    (
        "2 1 2\n1 1 140737488355327\n2 1 -140737488355327\n",
        "2 1 2\n1 1 140737488355327\n2 1 -140737488355327\n",
    ),
    ("2 2 3\n1 2 5\n2 1 6\n1 2 5\n", "2 2 2\n2 1 6\n1 2 10\n"),
    ("12 11 1\n12 11 100\n", "12 11 1\n12 11 100\n"),
];

// The matrix of a text.
fn matrix_of(alloc: Global, head: &str, rest: &str) -> Result<Dense<Entry>, Fail> {
    let text = joined(alloc, head, rest)?;
    Ok(read_text(alloc, text.as_bytes())??)
}

// A matrix is written as this text, to a new file and in the place of one that is there.
fn writes(rt: &impl Abort, alloc: Global, m: &Dense<Entry>, want: &[u8]) -> Result<(), Fail> {
    let mut files = one_file(alloc, b"old", None)?;
    for name in ["y", "x"] {
        assert_eq!(rt; write_to(alloc, &mut files, name, m)?, Ok(()));
        assert_eq!(rt; files.bytes(name), Some(want));
    }
    Ok(())
}

// What is in a file to which a matrix was written, at most so many bytes at a time.
fn dripped(alloc: Global, m: &Dense<Entry>, most: usize) -> Result<Vec<u8>, Fail>
    requires { 1 ≤ most }
{
    let mut files = Drip::new(one_file(alloc, b"old", None)?, most);
    write_to(alloc, &mut files, "x", m)??;
    bytes_of(alloc, &mut files, "x")
}

#[test]
fn texts_that_are_written(rt: HostRuntime) -> Result<(), Fail> {
    let alloc = rt.alloc();
    for (entries, lines) in WRITTEN {
        let m = matrix_of(alloc, GENERAL, entries)?;
        let want = joined(alloc, GENERAL, lines)?;
        writes(&rt, alloc, &m, want.as_bytes())?;
        assert!(rt;
            dripped(alloc, &m, 1)?.as_slice() == want.as_bytes(),
            "{want}"
        );
        assert!(rt;
            dripped(alloc, &m, 7)?.as_slice() == want.as_bytes(),
            "{want}"
        );
    }
    Ok(())
}

/// How many writes of a test may fail, one after the other.
const MOST_WRITES: u64 = 1000;

// What writing a matrix comes to with its n-th write failing, and what is in the file then.
fn written(
    alloc: Global,
    m: &Dense<Entry>,
    most: usize,
    n: u64,
) -> Result<(Result<(), OutFault>, Vec<u8>), Fail>
    requires { 1 ≤ most }
{
    let mut files = Drip::new(one_file(alloc, b"old", Some((CallKind::Write, n)))?, most);
    let answer = write_to(alloc, &mut files, "x", m)?;
    Ok((answer, bytes_of(alloc, &mut files, "x")?))
}

// The number of the first write that may fail while the matrix is written. With each write before
// failing alone, the answer says so, and the file holds a prefix of the text.
fn until_written(
    rt: &impl Abort,
    alloc: Global,
    m: &Dense<Entry>,
    text: &[u8],
    most: usize,
) -> Result<u64, Fail>
    requires { 1 ≤ most }
{
    for n in 1..=MOST_WRITES {
        let (answer, bytes) = written(alloc, m, most, n)?;
        assert!(rt; text.starts_with(&bytes), "at {n}");
        if bytes.len() == text.len() {
            assert_eq!(rt; answer, Ok(()), "at {n}");
            return Ok(n);
        }
        assert_eq!(rt; answer, Err(OutFault::Write), "at {n}");
    }
    Err(Fail::new("all writes fail"))
}

#[test]
fn each_write_of_a_text(rt: HostRuntime) -> Result<(), Fail> {
    let alloc = rt.alloc();
    for (entries, lines) in WRITTEN {
        let m = matrix_of(alloc, GENERAL, entries)?;
        let want = joined(alloc, GENERAL, lines)?;
        let bytes = want.len() as u64;
        for (most, writes) in [(1, bytes), (7, bytes / 7), (65_536, 1)] {
            let n = until_written(&rt, alloc, &m, want.as_bytes(), most)?;
            assert!(rt; writes < n, "at {most} of {want}");
        }
    }
    Ok(())
}

// What reading the file comes to, to which a matrix was written.
fn written_and_read(alloc: Global, m: &Dense<Entry>, most: usize) -> Result<Answer, Fail>
    requires { 1 ≤ most }
{
    let mut files = Drip::new(one_file(alloc, b"old", None)?, most);
    write_to(alloc, &mut files, "y", m)??;
    read_from(alloc, &mut files, "y")
}

// The matrix of a text is read again from the file to which it was written.
fn reads_again(alloc: Global, head: &str, rest: &str, most: usize) -> Result<bool, Fail>
    requires { 1 ≤ most }
{
    let m = matrix_of(alloc, head, rest)?;
    let again = written_and_read(alloc, &m, most)??;
    Ok(are_same(&m, &again))
}

fn read_again(rt: &impl Abort, alloc: Global, table: &[Good]) -> Result<(), Fail> {
    for (head, rest, _, _, _) in table {
        assert!(rt; reads_again(alloc, head, rest, 65_536)?, "{head}{rest}");
    }
    Ok(())
}

#[test]
fn small_matrices_are_read_again(rt: HostRuntime) -> Result<(), Fail> {
    read_again(&rt, rt.alloc(), &GENERALS)?;
    read_again(&rt, rt.alloc(), &SKIPPED)?;
    read_again(&rt, rt.alloc(), &MIRRORED)?;
    read_again(&rt, rt.alloc(), &ARRAYS)?;
    read_again(&rt, rt.alloc(), &BANNERS)
}

/// Rows and columns of scattered tables, with more entries a cell and fewer.
const SHAPES: [(u32, u32); 7] = [
    (1, 1),
    (1, 1000),
    (1000, 1),
    (31, 37),
    (2003, 5),
    (5, 2003),
    (701, 901),
];

#[test]
fn large_matrices_are_read_again(rt: HostRuntime) -> Result<(), Fail> {
    let alloc = rt.alloc();
    let text = array_text(alloc)?;
    for most in [7, 65_536] {
        assert!(rt; reads_again(alloc, NONE, &text, most)?, "at {most}");
    }
    for (rows, cols) in SHAPES {
        let text = scattered_text(alloc, rows, cols)?;
        assert!(rt; reads_again(alloc, NONE, &text, 4096)?, "{rows} by {cols}");
    }
    Ok(())
}

// Sums of few cells and of many, and the step from the one form to the other.
#[test]
fn sums_of_scattered_entries(rt: HostRuntime) -> Result<(), Fail> {
    let alloc = rt.alloc();
    for (rows, cols) in SHAPES {
        let m = read_text(alloc, scattered_text(alloc, rows, cols)?.as_bytes())??;
        let want = scattered_cells(alloc, rows, cols)?;
        assert!(rt; is_matrix(&m, rows, cols, &want), "{rows} by {cols}");
    }
    Ok(())
}
