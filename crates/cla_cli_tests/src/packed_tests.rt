//! Tables as packed files: written, written back as text, read by every command, and refused.

use crate::runs::{BANNER, Came, SCRIPT, SQUARE, World, ran};
use cla_io::CallKind;
use cla_num::Int;
use std::alloc::Global;
use std::process::Abort;
use std::test::Fail;

const PACK: &[&str] = &["pack", "x.mtx", "y.mtx"];

const UNPACK: &[&str] = &["unpack", "x.mtx", "y.mtx"];

// 1000 rows of 0: after the header one group of offsets, with no tuple but the rest.
const ZEROS: &[u8] = b"CLAGRP01\xe8\x03\0\0\x01\0\0\0\x01\0\0\0\x03\x01\0\0\0\0\0\0\0\0\0\0\0\x01";

// Three rows of 5: one group of codes.
const FIVES: &[u8] =
    b"CLAGRP01\x03\0\0\0\x01\0\0\0\x01\0\0\0\x02\x01\0\0\0\0\0\0\0\x01\0\0\0\x05\0\0\0\0\0\0\0\0\0\0";

// The table of 1 2 and 3 4: one plain group.
const PACKED_SQUARE: &[u8] =
    b"CLAGRP01\x02\0\0\0\x02\0\0\0\x01\0\0\0\x01\x02\0\0\0\0\0\0\0\x01\0\0\0\
    \x01\0\0\0\0\0\0\0\x02\0\0\0\0\0\0\0\x03\0\0\0\0\0\0\0\x04\0\0\0\0\0\0\0";

const UNPACKED_SQUARE: &[u8] =
    b"%%MatrixMarket matrix coordinate integer general\n2 2 4\n1 1 1\n2 1 3\n1 2 2\n2 2 4\n";

// Codes that skip one, and a second run without a gap.
const SKIPPED_CODE: &[u8] =
    b"CLAGRP01\x02\0\0\0\x01\0\0\0\x01\0\0\0\x02\x01\0\0\0\0\0\0\0\x02\0\0\0\
    \x05\0\0\0\0\0\0\0\x06\0\0\0\0\0\0\0\x01\0";

const JOINED_RUNS: &[u8] =
    b"CLAGRP01\x04\0\0\0\x01\0\0\0\x01\0\0\0\x04\x01\0\0\0\0\0\0\0\x01\0\0\0\0\
    \x07\0\0\0\0\0\0\0\x02\0\0\0\0\0\0\0\x02\0\0\0\0\0\0\0\x02\0\0\0";

// Each line so many times, behind a head.
fn repeated(alloc: Global, head: &str, lines: &[&str], times: u32) -> Result<String, Fail> {
    let mut text = String::from_str(alloc, head)?;
    for _ in 0..times {
        for line in lines {
            text.push_str(line)?;
        }
    }
    Ok(text)
}

// The rows 1 1, 2 2, 1 1 and so on, as two groups of codes.
fn two_groups(alloc: Global) -> Result<Vec<u8>, Fail> {
    let mut file = b"CLAGRP01\xe8\x03\0\0\x02\0\0\0\x02\0\0\0".to_vec(alloc)?;
    for column in [0u8, 1] {
        file.extend_from_slice(b"\x02\x01\0\0\0")?;
        file.push(column)?;
        file.extend_from_slice(b"\0\0\0\x02\0\0\0\x01\0\0\0\0\0\0\0\x02\0\0\0\0\0\0\0")?;
        for _ in 0..500 {
            file.extend_from_slice(b"\0\x01")?;
        }
    }
    Ok(file)
}

// What `y.mtx` holds after these words over this table, which are done and print nothing.
fn written(alloc: Global, words: &[&str], table: &[u8]) -> Result<Vec<u8>, Fail> {
    let came = ran::<Int<47>>(alloc, words, &World::of_bytes("", table))?;
    if !came.is(0, "", "") {
        return Err(Fail::new("not done"));
    }
    let Came { other, .. } = came;
    match other {
        Some(bytes) => Ok(bytes),
        None => Err(Fail::new("no file")),
    }
}

fn one_way(
    rt: &impl Abort,
    alloc: Global,
    words: &[&str],
    table: &[u8],
    expected: &[u8],
) -> Result<(), Fail> {
    let bytes = written(alloc, words, table)?;
    assert_eq!(rt; bytes.as_slice(), expected, "at {words:?}");
    Ok(())
}

// Array texts, their packed files, and what is written of them as text.
fn both_ways(
    rt: &impl Abort,
    alloc: Global,
    array: &str,
    packed: &[u8],
    rest: &str,
) -> Result<(), Fail> {
    let text = repeated(
        alloc,
        "%%MatrixMarket matrix coordinate integer general\n",
        &[rest],
        1,
    )?;
    one_way(rt, alloc, PACK, array.as_bytes(), packed)?;
    one_way(rt, alloc, PACK, text.as_bytes(), packed)?;
    one_way(rt, alloc, PACK, packed, packed)?;
    one_way(rt, alloc, UNPACK, array.as_bytes(), text.as_bytes())?;
    one_way(rt, alloc, UNPACK, text.as_bytes(), text.as_bytes())?;
    one_way(rt, alloc, UNPACK, packed, text.as_bytes())
}

#[test]
fn packed_and_unpacked(rt: HostRuntime) -> Result<(), Fail> {
    let zeros = repeated(rt.alloc(), BANNER, &["1000 1\n"], 1)?;
    let zeros = repeated(rt.alloc(), &zeros, &["0\n"], 1000)?;
    both_ways(&rt, rt.alloc(), &zeros, ZEROS, "1000 1 0\n")?;
    let fives = repeated(rt.alloc(), BANNER, &["3 1\n5\n5\n5\n"], 1)?;
    both_ways(
        &rt,
        rt.alloc(),
        &fives,
        FIVES,
        "3 1 3\n1 1 5\n2 1 5\n3 1 5\n",
    )?;
    let entries = "2 2 4\n1 1 1\n2 1 3\n1 2 2\n2 2 4\n";
    both_ways(&rt, rt.alloc(), SQUARE, PACKED_SQUARE, entries)
}

// A packed file keeps its groups and its bytes, until it is packed anew.
#[test]
fn groups_of_a_file(rt: HostRuntime) -> Result<(), Fail> {
    let file = two_groups(rt.alloc())?;
    let world = World::of_bytes(SCRIPT, &file);
    for (words, code, out, err) in [
        (&["run", "s"].as_slice(), 0, "3000\n", ""),
        (&["run", "s", "--budget=2078"].as_slice(), 0, "3000\n", ""),
        (
            &["run", "s", "--budget=2077"].as_slice(),
            10,
            "",
            "budget x.mtx: needs 2078, has 2077\n",
        ),
        (
            &["stats", "x.mtx"].as_slice(),
            0,
            "rows 1000\ncolumns 2\ngroups 2\nbytes 2078\n\
            group 1 codes width 1 tuples 2 bytes 1029\ngroup 2 codes width 1 tuples 2 bytes 1029\n",
            "",
        ),
    ] {
        let came = ran::<Int<47>>(rt.alloc(), words, &world)?;
        assert!(rt; came.is(code, out, err), "at {words:?}");
    }
    let packed = written(rt.alloc(), PACK, &file)?;
    assert_eq!(rt; packed.len(), 1069);
    Ok(())
}

// Files that are refused, with the exit status and the reason.
const REFUSED: [(&[u8], u8, &str); 9] = [
    (b"CLAGRP0", 7, "bad file x.mtx: line 1: Banner\n"),
    (b"CLAGRP02", 7, "bad file x.mtx: line 1: Banner\n"),
    (b"CLAGRP01", 7, "bad file x.mtx: group 0 rows at 8\n"),
    (
        b"CLAGRP01\x01\0\0\0\x01\0\0\0\x01\0\0\0\0",
        7,
        "bad file x.mtx: group 1 kind at 20\n",
    ),
    (
        b"CLAGRP01\x03\0\0\0\x01\0\0\0\x01\0\0\0\x02\x01\0\0\0\0\0\0\0\x01\0\0\0\x05\0\0\0\0\0\0\0\0\0",
        7,
        "bad file x.mtx: group 1 code at 43\n",
    ),
    (
        b"CLAGRP01\x03\0\0\0\x01\0\0\0\x01\0\0\0\x02\x01\0\0\0\0\0\0\0\x01\0\0\0\x05\0\0\0\0\0\0\0\0\0\0\0",
        7,
        "bad file x.mtx: trailing byte at 44\n",
    ),
    (SKIPPED_CODE, 7, "bad file x.mtx: group 1 code at 49\n"),
    (JOINED_RUNS, 7, "bad file x.mtx: group 1 gap at 54\n"),
    (
        b"CLAGRP01\x01\x20\0\0\x01\x20\0\0",
        8,
        "limit x.mtx: 8193 by 8193\n",
    ),
];

#[test]
fn refused_files(rt: HostRuntime) -> Result<(), Fail> {
    for (file, code, line) in REFUSED {
        let mut world = World::of_bytes(SCRIPT, file);
        world.other = Some(b"old");
        for words in [
            &["run", "s"].as_slice(),
            PACK,
            UNPACK,
            &["stats", "x.mtx"].as_slice(),
        ] {
            let came = ran::<Int<47>>(rt.alloc(), words, &world)?;
            assert!(rt; came.is(code, "", line), "at {words:?} {line}");
            assert!(rt; came.wrote(b"old"), "at {words:?} {line}");
        }
    }
    Ok(())
}

// A table that isn't there, and one past its budget: nothing is written.
#[test]
fn refused_tables(rt: HostRuntime) -> Result<(), Fail> {
    let world = World::of(SCRIPT, SQUARE);
    for (words, code, line) in [
        (
            &["pack", "y.mtx", "x.mtx"].as_slice(),
            3,
            "missing file y.mtx\n",
        ),
        (
            &["unpack", "y.mtx", "x.mtx"].as_slice(),
            3,
            "missing file y.mtx\n",
        ),
        (
            &["pack", "x.mtx", "y.mtx", "--budget", "64"].as_slice(),
            10,
            "budget x.mtx: needs 65, has 64\n",
        ),
    ] {
        let came = ran::<Int<47>>(rt.alloc(), words, &world)?;
        assert!(rt; came.is(code, "", line), "at {words:?}");
        assert!(rt; came.other.is_none(), "at {words:?}");
    }
    let words = ["pack", "x.mtx", "y.mtx", "--budget", "65"];
    let came = ran::<Int<47>>(rt.alloc(), &words, &world)?;
    assert!(rt; came.is(0, "", "") && came.wrote(PACKED_SQUARE));
    Ok(())
}

// Each call fails in turn, until there is no such call any more. What stands of the file is what was there
// before, nothing, or all of it.
fn each_failing(
    rt: &impl Abort,
    alloc: Global,
    kind: CallKind,
    line: &str,
    stands: Option<&[u8]>,
) -> Result<(), Fail> {
    for (words, expected) in [(PACK, PACKED_SQUARE), (UNPACK, UNPACKED_SQUARE)] {
        let (mut failed, mut done) = (false, false);
        for n in 1..=64 {
            let mut world = World::of(SCRIPT, SQUARE);
            world.other = Some(b"old");
            world.failing = Some((kind, n));
            let came = ran::<Int<47>>(alloc, words, &world)?;
            if came.code == 0 {
                assert!(rt; came.wrote(expected), "at {kind:?} {n}");
                done = true;
                break;
            }
            let code = if line == "cannot read x.mtx\n" { 4 } else { 5 };
            assert!(rt; came.is(code, "", line), "at {kind:?} {n}");
            assert!(rt; came.wrote(stands.unwrap_or(expected)), "at {kind:?} {n}");
            failed = true;
        }
        assert!(rt; failed && done, "at {kind:?}");
    }
    Ok(())
}

#[test]
fn failing_calls(rt: HostRuntime) -> Result<(), Fail> {
    let old = b"old".as_slice();
    for (kind, line, stands) in [
        (CallKind::BeginRead, "cannot read x.mtx\n", Some(old)),
        (CallKind::Read, "cannot read x.mtx\n", Some(old)),
        (CallKind::BeginWrite, "cannot write y.mtx\n", Some(old)),
        (
            CallKind::Write,
            "cannot write y.mtx\n",
            Some(b"".as_slice()),
        ),
        (CallKind::EndWrite, "cannot write y.mtx\n", None),
    ] {
        each_failing(&rt, rt.alloc(), kind, line, stands)?;
    }
    Ok(())
}
