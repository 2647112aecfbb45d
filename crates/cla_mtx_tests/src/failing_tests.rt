//! Tables that are read while one call alone fails.

ghost use Rattle.std.specs.Prelude.{◌≤◌};

use crate::heads::{ARRAY, GENERAL, NONE};
use crate::table_files::{Answer, is_matrix, joined, one_file, read_from};
use crate::tables::{COLS, ROWS, array_text, cells};
use cla_io::{CallKind, Drip};
use cla_mtx::MtxFault;
use std::alloc::Global;
use std::process::Abort;
use std::test::Fail;

/// How many reads of a test may fail, one after the other.
const MOST_READS: u64 = 1000;

// What reading a text comes to with its n-th read failing, for the first n where the answer is no
// fault of reading, and this n. At most so many bytes are read at a time.
fn until_read(alloc: Global, text: &[u8], most: usize) -> Result<(u64, Answer), Fail>
    requires { 1 ≤ most }
{
    for n in 1..=MOST_READS {
        let mut files = Drip::new(one_file(alloc, text, Some((CallKind::Read, n)))?, most);
        match read_from(alloc, &mut files, "x")? {
            Err(MtxFault::Read) => (),
            answer => return Ok((n, answer)),
        }
    }
    Err(Fail::new("all reads fail"))
}

// The same for the two pieces of a text that has a fault.
fn fault_until_read(
    alloc: Global,
    text: (&str, &str),
    most: usize,
) -> Result<(u64, Option<MtxFault>), Fail>
    requires { 1 ≤ most }
{
    let text = joined(alloc, text.0, text.1)?;
    let (n, answer) = until_read(alloc, text.as_bytes(), most)?;
    Ok((n, answer.err()))
}

// A good text needs each byte and the end: with one byte a read, each of these reads may fail.
#[test]
fn each_read_of_a_good_text(rt: HostRuntime) -> Result<(), Fail> {
    let alloc = rt.alloc();
    let text = joined(
        alloc,
        "%%matrixmarket MATRIX Coordinate Integer General\r\n% c\r\n\r\n",
        "2 2 1\r\n 1\t2  +007",
    )?;
    let bytes = text.len() as u64;
    for (most, reads) in [(1, bytes), (7, bytes / 7), (65_536, 1)] {
        let (n, answer) = until_read(alloc, text.as_bytes(), most)?;
        assert!(rt; is_matrix(&answer?, 2, 2, &[0, 7, 0, 0]), "at {most}");
        assert!(rt; reads + 1 < n, "at {most}");
    }
    Ok(())
}

/// A text with its fault, and how many reads of one byte come before it: those up to the end of the
/// bad line, and the one that finds the end of the file.
type Faulty = (&'static str, &'static str, u64, MtxFault);

const FAULTY: [Faulty; 7] = [
    (NONE, "", 1, MtxFault::Banner { line: 1 }),
    (
        NONE,
        "%MatrixMarket\n1 1\n1\n",
        14,
        MtxFault::Banner { line: 1 },
    ),
    (GENERAL, "1 1\n1 1\n", 53, MtxFault::Size { line: 2 }),
    (
        GENERAL,
        "1 1 2\n1 1 x\n1 1 1\n",
        61,
        MtxFault::Entry { line: 3 },
    ),
    (GENERAL, "1 1 2\n1 1 1\n", 62, MtxFault::TooFew { line: 4 }),
    (
        GENERAL,
        "1 1 0\n% c\n1 1 1\n",
        65,
        MtxFault::TooMany { line: 4 },
    ),
    (
        ARRAY,
        "1 1\n140737488355328",
        64,
        MtxFault::Range { line: 3 },
    ),
];

fn need_reads(rt: &impl Abort, alloc: Global, table: &[Faulty]) -> Result<(), Fail> {
    for (head, rest, reads, want) in table {
        let (n, fault) = fault_until_read(alloc, (*head, *rest), 1)?;
        assert_eq!(rt; fault, Some(*want), "{head}{rest}");
        assert!(rt; *reads < n, "{head}{rest}");
        let (_, fault) = fault_until_read(alloc, (*head, *rest), 65_536)?;
        assert_eq!(rt; fault, Some(*want), "{head}{rest}");
    }
    Ok(())
}

#[test]
fn each_read_of_a_bad_text(rt: HostRuntime) -> Result<(), Fail> {
    need_reads(&rt, rt.alloc(), &FAULTY)
}

#[test]
fn each_read_of_a_table_longer_than_the_buffer(rt: HostRuntime) -> Result<(), Fail> {
    let alloc = rt.alloc();
    let text = array_text(alloc)?;
    let want = cells(alloc)?;
    let bytes = text.len() as u64;
    for most in [4096, 65_536] {
        let (n, answer) = until_read(alloc, text.as_bytes(), most)?;
        assert!(rt; is_matrix(&answer?, ROWS, COLS, &want), "at {most}");
        assert!(rt; bytes / most as u64 + 1 < n, "at {most}");
    }
    Ok(())
}
