//! The first fault of the shapes of each script, where X is a table of 3 by 2 and Y one of 2 by 3.

ghost use Rattle.std.specs.Prelude.{◌≡◌, IsTrue};
ghost use Rattle.cla_script.specs.Reads.{statements_of};
ghost use Rattle.cla_check.specs.Scripts.{IsInLimits, reads_in};

use cla_check::{Shape, ShapeFault, ShapeKind, check};
use cla_num::{Int, Number};
use cla_script::{Statement, parse};
use std::alloc::Global;
use std::process::Abort;
use std::test::Fail;

/// The kind, line and column of a fault.
type At = (ShapeKind, u32, u32);

const READS: &str = "X = read(\"x\"); Y = read(\"y\")\n";

const SHAPES: [(&str, ShapeKind, u32, u32); 39] = [
    ("print(Q)", ShapeKind::Unknown, 2, 7),
    ("print(X + Q)", ShapeKind::Unknown, 2, 11),
    ("Q = Q", ShapeKind::Unknown, 2, 5),
    ("print(Q[1, 1])", ShapeKind::Unknown, 2, 7),
    ("print(Z)\nZ = 1", ShapeKind::Unknown, 2, 7),
    ("print(sum(1))", ShapeKind::Operand, 2, 7),
    ("print(t(1))", ShapeKind::Operand, 2, 7),
    ("print(nrow(1))", ShapeKind::Operand, 2, 7),
    ("print(1 %*% X)", ShapeKind::Operand, 2, 9),
    ("print(X %*% 1)", ShapeKind::Operand, 2, 9),
    ("print(cbind(1, X))", ShapeKind::Operand, 2, 7),
    ("print(rbind(X, 1))", ShapeKind::Operand, 2, 7),
    ("write(1, \"f\")", ShapeKind::Operand, 2, 1),
    ("pack(1, \"f\")", ShapeKind::Operand, 2, 1),
    ("print((1)[1, 1])", ShapeKind::Operand, 2, 10),
    ("print(sum(X)[1, 1])", ShapeKind::Operand, 2, 13),
    ("write(sum(X), \"f\")", ShapeKind::Operand, 2, 1),
    ("print(X + Y)", ShapeKind::Shapes, 2, 9),
    ("print(X %*% X)", ShapeKind::Shapes, 2, 9),
    ("print(cbind(X, Y))", ShapeKind::Shapes, 2, 7),
    ("print(rbind(X, Y))", ShapeKind::Shapes, 2, 7),
    ("print(X[1, ] + X)", ShapeKind::Shapes, 2, 14),
    ("print(X + X[, 1])", ShapeKind::Shapes, 2, 9),
    ("print(X[1, 1] + X)", ShapeKind::Shapes, 2, 15),
    ("print(X[0, ])", ShapeKind::Bounds, 2, 8),
    ("print(X[4, ])", ShapeKind::Bounds, 2, 8),
    ("print(X[, 3])", ShapeKind::Bounds, 2, 8),
    ("print(X[2:1, ])", ShapeKind::Bounds, 2, 8),
    ("print(X[1:4, ])", ShapeKind::Bounds, 2, 8),
    ("print(X[0:1, ])", ShapeKind::Bounds, 2, 8),
    ("print(X[, 0])", ShapeKind::Bounds, 2, 8),
    ("print(X[1:2, ][3, ])", ShapeKind::Bounds, 2, 15),
    ("print(X + Y + Q)", ShapeKind::Shapes, 2, 9),
    ("print(Q + (X + Y))", ShapeKind::Unknown, 2, 7),
    ("print(sum(Q) + sum(1))", ShapeKind::Unknown, 2, 11),
    ("write(X + Y, \"f\")", ShapeKind::Shapes, 2, 9),
    ("Z = X\nZ = 1\nprint(sum(Z))", ShapeKind::Operand, 4, 7),
    ("print(X)\nprint(X + Y)\nprint(Q)", ShapeKind::Shapes, 3, 9),
    ("X = 1\nprint(nrow(X))", ShapeKind::Operand, 3, 7),
];

const SHAPED: [&str; 17] = [
    "print(X + X[1, ])",
    "print(X %*% Y)",
    "print(Y %*% X)",
    "print(X[1, ] + X[1, ])",
    "print(X[3, ])",
    "print(X[, 2])",
    "print(X[1:3, 1:2])",
    "print(X[2:2, ])",
    "Z = 1\nZ = X\nprint(sum(Z))",
    "print(t(X) + Y)",
    "print(cbind(X, t(Y)))",
    "print(rbind(X, X))",
    "print(1 + X * 2 - sum(Y))",
    "write(-X ^ 2, \"f\"); pack(t(X), \"g\")",
    "print(rowSums(X) + rowMins(X))",
    "print(colSums(X) + colMaxs(X))",
    "print(nrow(X) == ncol(Y))",
];

fn count_reads<N: Number>(statements: &[Statement<N>]) -> usize
    ensures { result ≡ reads_in (statements_of N.value statements.now) }
{
    let mut count = 0;
    for statement in statements {
        if let Statement::Read { .. } = statement {
            count += 1;
        }
    }
    count
}

// The first fault of the script that reads two tables of these shapes and then goes on so.
fn first_fault(alloc: Global, rest: &str, x: Shape, y: Shape) -> Result<Option<At>, Fail>
    requires first { IsInLimits x }
    requires second { IsInLimits y }
{
    let mut text = String::from_str(alloc, READS)?;
    text.push_str(rest)?;
    if 1 << 20 < text.len() {
        return Err(Fail::new("a long text"));
    }
    let script = parse::<Int<47>>(alloc, text.as_bytes())?;
    if count_reads(&script.statements) != 2 {
        return Err(Fail::new("not two tables"));
    }
    match check(alloc, script, &[x, y]) {
        Ok(checked) => {
            let _ = checked.script();
            let _ = checked.inputs();
            Ok(None)
        }
        Err(ShapeFault::At { place, kind }) => Ok(Some((kind, place.line, place.col))),
        Err(ShapeFault::Memory) => Err(Fail::new("memory")),
    }
}

// No script of the table has a fault of shapes.
fn have_no_fault(rt: &impl Abort, alloc: Global, table: &[&str]) -> Result<(), Fail> {
    for text in table {
        let fault = first_fault(
            alloc,
            text,
            Shape { rows: 3, cols: 2 },
            Shape { rows: 2, cols: 3 },
        )?;
        assert_eq!(rt; fault, None, "{text}");
    }
    Ok(())
}

// Each script of the table has its first fault of shapes at its place.
fn have_faults(
    rt: &impl Abort,
    alloc: Global,
    table: &[(&str, ShapeKind, u32, u32)],
) -> Result<(), Fail> {
    for (text, kind, line, col) in table {
        let fault = first_fault(
            alloc,
            text,
            Shape { rows: 3, cols: 2 },
            Shape { rows: 2, cols: 3 },
        )?;
        assert_eq!(rt; fault, Some((*kind, *line, *col)), "{text}");
    }
    Ok(())
}

#[test]
fn scripts_with_shapes(rt: HostRuntime) -> Result<(), Fail> {
    have_no_fault(&rt, rt.alloc(), &SHAPED)
}

#[test]
fn first_faults_of_shapes(rt: HostRuntime) -> Result<(), Fail> {
    have_faults(&rt, rt.alloc(), &SHAPES)
}

#[test]
fn results_of_2_to_the_26_cells_and_more(rt: HostRuntime) -> Result<(), Fail> {
    let column = shape(67108864, 1);
    let row = shape(1, 67108864);
    let pair = shape(1, 2);
    let table = [
        ("print(t(X))", column, pair, None),
        ("print(X %*% Y)", column, pair, too_large(2, 9)),
        ("print(rbind(X, X))", column, pair, too_large(2, 7)),
        ("print(cbind(X, X))", column, pair, too_large(2, 7)),
        ("print(cbind(Y, X))", row, pair, too_large(2, 7)),
        ("print(X %*% Y)", shape(8192, 1), shape(1, 8192), None),
        (
            "print(X %*% Y)",
            shape(8192, 1),
            shape(1, 8193),
            too_large(2, 9),
        ),
    ];
    for (text, x, y, want) in table {
        if !(in_limits(x) && in_limits(y)) {
            return Err(Fail::new("a shape past the limits"));
        }
        let fault = first_fault(rt.alloc(), text, x, y)?;
        assert_eq!(rt; fault, want, "{text}");
    }
    Ok(())
}

fn shape(rows: u32, cols: u32) -> Shape {
    Shape { rows, cols }
}

fn too_large(line: u32, col: u32) -> Option<(ShapeKind, u32, u32)> {
    Some((ShapeKind::TooLarge, line, col))
}

fn in_limits(s: Shape) -> bool
    ensures { IsTrue result → IsInLimits s }
{
    let sides = 1 <= s.rows && s.rows <= 1 << 30 && 1 <= s.cols && s.cols <= 1 << 30;
    sides && u64::from(s.rows) * u64::from(s.cols) <= 1 << 26
}
