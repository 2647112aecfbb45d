//! Tables that are read a few bytes at a time, and lines across the end of an input's buffer.

ghost use Rattle.std.specs.Prelude.{◌≤◌};

use crate::heads::{GENERAL, NONE, PATTERN_SYMMETRIC};
use crate::table_files::{Answer, is_matrix, joined, one_file, read_from, read_text};
use crate::tables::{COLS, ROWS, array_text, cells, padded_text};
use cla_io::Drip;
use cla_mtx::MtxFault;
use std::alloc::Global;
use std::test::Fail;

// What reading a text comes to, of which at most so many bytes are read at a time.
fn dripped(alloc: Global, text: &[u8], most: usize) -> Result<Answer, Fail>
    requires { 1 ≤ most }
{
    let mut files = Drip::new(one_file(alloc, text, None)?, most);
    read_from(alloc, &mut files, "x")
}

// Whether a text spells the matrix of these two rows and columns.
fn drips_spell(alloc: Global, text: (&str, &str), cells: &[i64], most: usize) -> Result<bool, Fail>
    requires { 1 ≤ most }
{
    let text = joined(alloc, text.0, text.1)?;
    let m = dripped(alloc, text.as_bytes(), most)??;
    Ok(is_matrix(&m, 2, 2, cells))
}

fn fault_of_drips(alloc: Global, text: (&str, &str), most: usize) -> Result<Option<MtxFault>, Fail>
    requires { 1 ≤ most }
{
    let text = joined(alloc, text.0, text.1)?;
    Ok(dripped(alloc, text.as_bytes(), most)?.err())
}

#[test]
fn few_bytes_at_a_time(rt: HostRuntime) -> Result<(), Fail> {
    let alloc = rt.alloc();
    let pattern = (PATTERN_SYMMETRIC, "2 2 1\n2 1\n");
    let spelled = (
        "%%matrixmarket MATRIX Coordinate Integer General\r\n% c\r\n\r\n",
        "2 2 1\r\n 1\t2  +007",
    );
    let few = (GENERAL, "2 2 3\r\n1 1 1\r\n2 2 1\r");
    let banner = (NONE, "%%MatrixMarket matrix array real general");
    let place = 4;
    for most in [1, 7] {
        assert!(rt;
            drips_spell(alloc, pattern, &[0, 1, 1, 0], most)?,
            "at {most}"
        );
        assert!(rt;
            drips_spell(alloc, spelled, &[0, 7, 0, 0], most)?,
            "at {most}"
        );
        let fault = fault_of_drips(alloc, few, most)?;
        assert_eq!(rt; fault, Some(MtxFault::TooFew { line: 5 }), "at {most}");
        let fault = fault_of_drips(alloc, banner, most)?;
        assert_eq!(rt; fault, Some(MtxFault::Unsupported { place }), "at {most}");
    }
    Ok(())
}

// The end of the buffer, of 65,536 bytes, stands at each byte of an entry's line, and of the CR LF
// before it.
#[test]
fn lines_over_the_end_of_the_buffer(rt: HostRuntime) -> Result<(), Fail> {
    let alloc = rt.alloc();
    for width in 65_464..65_481 {
        let m = read_text(alloc, &padded_text(alloc, width)?)??;
        assert!(rt; is_matrix(&m, 2, 2, &[0, 56, 0, -3]), "at {width}");
    }
    for most in [1, 7] {
        let m = dripped(alloc, &padded_text(alloc, 65_470)?, most)??;
        assert!(rt; is_matrix(&m, 2, 2, &[0, 56, 0, -3]), "at {most}");
    }
    Ok(())
}

// The first fault of the padded text with its last bytes, so many, replaced.
fn fault_behind(
    alloc: Global,
    width: usize,
    cut: usize,
    end: &[u8],
) -> Result<Option<MtxFault>, Fail> {
    let mut text = padded_text(alloc, width)?;
    text.truncate(text.len().saturating_sub(cut));
    text.extend_from_slice(end)?;
    Ok(read_text(alloc, &text)?.err())
}

// A bad line that crosses the end of the buffer, and one behind it, have their numbers.
#[test]
fn faults_behind_the_buffer(rt: HostRuntime) -> Result<(), Fail> {
    let alloc = rt.alloc();
    for width in [65_400, 65_470, 65_480, 70_000, 200_000] {
        let fault = fault_behind(alloc, width, 0, b"% c\r\n1 1 1")?;
        assert_eq!(rt; fault, Some(MtxFault::TooMany { line: 7 }), "at {width}");
        let fault = fault_behind(alloc, width, 4, b"x\r\n")?;
        assert_eq!(rt; fault, Some(MtxFault::Entry { line: 5 }), "at {width}");
    }
    Ok(())
}

// What reading a text with this byte 70,000 times in its entry comes to.
fn long_entry(alloc: Global, front: &str, byte: u8, back: &str) -> Result<Answer, Fail> {
    let mut text = GENERAL.as_bytes().to_vec(alloc)?;
    text.extend_from_slice(front.as_bytes())?;
    text.extend_from_slice(&Vec::from_elem(alloc, byte, 70_000)?)?;
    text.extend_from_slice(back.as_bytes())?;
    read_text(alloc, &text)
}

#[test]
fn words_and_blanks_longer_than_the_buffer(rt: HostRuntime) -> Result<(), Fail> {
    for (front, byte, back) in [
        ("1 1 1\n1 1 ", b'0', "7\n"),
        ("1 1 1\n1 1 +", b'0', "7"),
        ("1 1 1\n1 ", b'0', "1 7\r\n"),
        ("1 1 1\n1 1", b' ', "7\n"),
        ("1 1 1\n", b'\t', "1 1 7"),
        ("1 1 1\n1 1 7", b'\n', ""),
        ("1 1 1\n%", b'%', "\n1 1 7\n"),
        ("1 1 ", b'0', "1\n1 1 7\n"),
    ] {
        let m = long_entry(rt.alloc(), front, byte, back)??;
        assert!(rt; is_matrix(&m, 1, 1, &[7]), "at {front} {back}");
    }
    Ok(())
}

#[test]
fn faults_of_words_longer_than_the_buffer(rt: HostRuntime) -> Result<(), Fail> {
    for (front, back, want) in [
        ("1 1 1\n1 1 ", "\n", MtxFault::Range { line: 3 }),
        ("1 1 1\n1 ", " 1\n", MtxFault::Index { line: 3 }),
        ("1 1 1\n1 1 ", "x\n", MtxFault::Entry { line: 3 }),
        ("1 1 ", "\n1 1 1\n", MtxFault::Size { line: 2 }),
    ] {
        let fault = long_entry(rt.alloc(), front, b'9', back)?.err();
        assert_eq!(rt; fault, Some(want), "at {front} {back}");
    }
    Ok(())
}

#[test]
fn a_table_longer_than_the_buffer(rt: HostRuntime) -> Result<(), Fail> {
    let alloc = rt.alloc();
    let text = array_text(alloc)?;
    let want = cells(alloc)?;
    let m = read_text(alloc, text.as_bytes())??;
    assert!(rt; is_matrix(&m, ROWS, COLS, &want));
    for most in [1, 7, 65_535] {
        let m = dripped(alloc, text.as_bytes(), most)??;
        assert!(rt; is_matrix(&m, ROWS, COLS, &want), "at {most}");
    }
    Ok(())
}
