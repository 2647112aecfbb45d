//! Files that are missing, and calls that fail.

use crate::runs::{SCRIPT, SQUARE, World, ran};
use cla_cli::Status;
use cla_io::CallKind;
use cla_num::Int;
use std::test::Fail;

#[test]
fn missing_files(rt: HostRuntime) -> Result<(), Fail> {
    let none = World {
        script: None,
        table: Some(SQUARE.as_bytes()),
        other: None,
        failing: None,
        failing_write: None,
        failing_line: None,
    };
    let came = ran::<Int<47>>(rt.alloc(), &["run", "s"], &none)?;
    assert_eq!(rt; came.status, Status::Missing);
    assert_eq!(rt; came.err.as_slice(), b"missing file s\n".as_slice());
    Ok(())
}

// Each reading call fails in turn, until the run makes no such call any more: first those on the
// script, and then those on the table.
#[test]
fn failing_reads(rt: HostRuntime) -> Result<(), Fail> {
    for kind in [CallKind::BeginRead, CallKind::Read] {
        let mut script_failed = false;
        let mut table_failed = false;
        let mut done = false;
        for n in 1..=64 {
            let mut world = World::of(SCRIPT, SQUARE);
            world.failing = Some((kind, n));
            let came = ran::<Int<47>>(rt.alloc(), &["run", "s"], &world)?;
            if came.status == Status::Done {
                done = true;
                break;
            }
            assert_eq!(rt; came.status, Status::ReadFault, "at {kind:?} {n}");
            assert!(rt; came.out.is_empty(), "at {kind:?} {n}");
            if came.err.as_slice() == b"cannot read s\n".as_slice() {
                assert!(rt; !table_failed, "at {kind:?} {n}");
                script_failed = true;
            } else {
                assert_eq!(rt;
                    came.err.as_slice(),
                    b"cannot read x.mtx\n".as_slice(),
                    "at {kind:?} {n}"
                );
                table_failed = true;
            }
        }
        assert!(rt; done && script_failed && table_failed, "at {kind:?}");
    }
    Ok(())
}

// The script prints twice. What was printed before the write that fails stands.
#[test]
fn failing_writes(rt: HostRuntime) -> Result<(), Fail> {
    for (n, status, out, line) in [
        (1, Status::WriteFault, "", "cannot write output\n"),
        (2, Status::WriteFault, "1 2\n3 4\n", "cannot write output\n"),
        (3, Status::Done, "1 2\n3 4\n10\n", ""),
    ] {
        let mut world = World::of("X = read(\"x.mtx\")\nprint(X); print(sum(X))", SQUARE);
        world.failing_write = Some(n);
        let came = ran::<Int<47>>(rt.alloc(), &["run", "s"], &world)?;
        assert_eq!(rt; came.status, status, "at write {n}");
        assert_eq!(rt; came.out.as_slice(), out.as_bytes(), "at write {n}");
        assert_eq!(rt; came.err.as_slice(), line.as_bytes(), "at write {n}");
    }
    Ok(())
}

#[test]
fn a_line_that_cannot_be_written(rt: HostRuntime) -> Result<(), Fail> {
    let wide = "%%MatrixMarket matrix array integer general\n2 1\n140737488355327\n1\n";
    for (n, told) in [(1, false), (2, true)] {
        let mut world = World::of(SCRIPT, wide);
        world.failing_line = Some(n);
        let came = ran::<Int<47>>(rt.alloc(), &["run", "s"], &world)?;
        assert_eq!(rt; came.code, 9, "at line {n}");
        assert!(rt; came.out.is_empty(), "at line {n}");
        assert_eq!(rt; !came.err.is_empty(), told, "at line {n}");
    }
    Ok(())
}
