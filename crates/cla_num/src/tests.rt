//! Tests of what no clause says: that calls can succeed, and values from outside.

use crate::{CellOp, Dense, Int, Meter, Number, ZeroDivisor};
use std::alloc::Global;
use std::test::Fail;

// The decimal text of a number, through its bound.
fn text_of<N: Number>(alloc: Global, v: i64) -> Result<Option<Vec<u8>>, Fail> {
    let number = match N::of(v) {
        Some(number) => number,
        None => return Ok(None),
    };
    let mut digits = [0u8; 40];
    let len = number.put(&mut digits);
    Ok(Some(Vec::from_slice(alloc, &digits[..len])?))
}

#[test]
fn numbers_at_their_ends(rt: HostRuntime) -> Result<(), Fail> {
    for (v, text) in [
        (0, "0"),
        (-7, "-7"),
        (140737488355327, "140737488355327"),
        (-140737488355327, "-140737488355327"),
    ] {
        let digits = text_of::<Int<47>>(rt.alloc(), v)?.ok_or("in range")?;
        assert_eq!(rt; digits.as_slice(), text.as_bytes(), "at {v}");
    }
    for v in [140737488355328, -140737488355328, i64::MAX, i64::MIN] {
        assert!(rt; text_of::<Int<47>>(rt.alloc(), v)?.is_none(), "at {v}");
    }
    assert!(rt; text_of::<Int<7>>(rt.alloc(), 127)?.is_some());
    assert!(rt; text_of::<Int<7>>(rt.alloc(), 128)?.is_none());
    assert!(rt; text_of::<Int<0>>(rt.alloc(), 0)?.is_none());
    assert!(rt; text_of::<Int<48>>(rt.alloc(), 0)?.is_none());
    Ok(())
}

#[test]
fn entries_of_a_matrix(rt: HostRuntime) -> Result<(), Fail> {
    let mut cells = Vec::new(rt.alloc());
    for v in [1, 2, 3, 4, 5, 6] {
        cells.push(Int::<47>::of(v).ok_or("in range")?)?;
    }
    assert_eq!(rt; cells.len(), 6);
    let m = Dense::new(2, 3, cells);
    assert_eq!(rt; m.entry(0, 2), Int::of(3).ok_or("in range")?);
    assert_eq!(rt; m.entry(1, 0), Int::of(4).ok_or("in range")?);
    let meter = Meter::new();
    assert_eq!(rt; meter.mults(), 0);
    assert_eq!(rt; meter.maps(), 0);
    Ok(())
}

// The exact value of an operator on two numbers, as decimal text, with what was counted.
fn applied(alloc: Global, op: CellOp, a: i64, b: i64) -> Result<String, Fail> {
    let mut meter = Meter::new();
    let a = Int::<47>::of(a).ok_or("in range")?;
    let b = Int::<47>::of(b).ok_or("in range")?;
    let mut digits = [0u8; 40];
    let text = match Number::apply(op, a, b, &mut meter) {
        Ok(exact) => {
            let len = exact.put(&mut digits);
            Vec::from_slice(alloc, &digits[..len])?
        }
        Err(ZeroDivisor) => Vec::from_slice(alloc, b"zero")?,
    };
    Ok(format!(in alloc; "{} {}", String::from_utf8(text)?, meter.maps())?)
}

#[test]
fn operators_on_cells(rt: HostRuntime) -> Result<(), Fail> {
    for (op, a, b, is) in [
        (CellOp::Div, 7, 2, "3 1"),
        (CellOp::Div, -7, 2, "-4 1"),
        (CellOp::Div, 7, -2, "-4 1"),
        (CellOp::Div, -7, -2, "3 1"),
        (CellOp::Div, -8, 2, "-4 1"),
        (CellOp::Mod, 7, 2, "1 1"),
        (CellOp::Mod, -7, 2, "1 1"),
        (CellOp::Mod, 7, -2, "-1 1"),
        (CellOp::Mod, -7, -2, "-1 1"),
        (CellOp::Mod, -8, -2, "0 1"),
        (CellOp::Div, 6, 0, "zero 1"),
        (CellOp::Mod, 0, 0, "zero 1"),
        (CellOp::Neg, 5, 0, "-5 1"),
        (CellOp::Le, -3, -3, "1 1"),
        (CellOp::Gt, -3, -3, "0 1"),
        (
            CellOp::Mul,
            140737488355327,
            -140737488355327,
            "-19807040628565802923409276929 1",
        ),
    ] {
        let found = applied(rt.alloc(), op, a, b)?;
        assert_eq!(rt; found.as_str(), is, "{op:?} {a} {b}");
    }
    Ok(())
}
