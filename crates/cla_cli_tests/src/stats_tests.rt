//! How tables are grouped, as `stats` tells it. The sizes are worked out by hand from the rule.

use crate::runs::{BANNER, SQUARE, World, ran};
use cla_cli::Status;
use cla_num::Int;
use std::alloc::Global;
use std::test::Fail;

// A table of so many rows and columns, whose cells follow one another column by column.
fn column_by_column(alloc: Global, size: &str, cells: &[(&str, u32)]) -> Result<String, Fail> {
    let mut table = String::from_str(alloc, BANNER)?;
    table.push_str(size)?;
    for (values, times) in cells {
        for _ in 0..*times {
            table.push_str(values)?;
        }
    }
    Ok(table)
}

#[test]
fn one_group_of_each_kind(rt: HostRuntime) -> Result<(), Fail> {
    for (size, cells, text) in [
        (
            "2 2\n",
            [("1\n3\n2\n4\n", 1), ("", 0)],
            "rows 2\ncolumns 2\ngroups 1\nbytes 65\ngroup 1 plain width 2 tuples 2 bytes 45\n",
        ),
        (
            "1000 2\n",
            [("1\n2\n", 500), ("1\n2\n", 500)],
            "rows 1000\ncolumns 2\ngroups 1\nbytes 1069\ngroup 1 codes width 2 tuples 2 bytes 1049\n",
        ),
        (
            "1000 1\n",
            [("0\n", 1000), ("", 0)],
            "rows 1000\ncolumns 1\ngroups 1\nbytes 34\ngroup 1 offsets width 1 tuples 1 bytes 14\n",
        ),
        (
            "1000 1\n",
            [("7\n", 500), ("9\n", 500)],
            "rows 1000\ncolumns 1\ngroups 1\nbytes 74\ngroup 1 runs width 1 tuples 2 bytes 54\n",
        ),
    ] {
        let table = column_by_column(rt.alloc(), size, &cells)?;
        let came = ran::<Int<47>>(rt.alloc(), &["stats", "x.mtx"], &World::of("", &table))?;
        assert_eq!(rt; came.status, Status::Done, "at {text}");
        assert_eq!(rt; came.out.as_slice(), text.as_bytes());
        assert!(rt; came.err.is_empty(), "at {text}");
    }
    Ok(())
}

// Too many columns to be grouped. Then two columns that no join pays for: alone the first, of one value,
// takes 5 + 4 + 4 + 8 + 12 bytes in codes, and the second 5 + 4 + 8 * 12 plain; together they would take
// 5 + 8 + 16 * 12.
#[test]
fn columns_of_groups(rt: HostRuntime) -> Result<(), Fail> {
    let wide = "%%MatrixMarket matrix coordinate integer general\n1 65537 0\n";
    let came = ran::<Int<47>>(rt.alloc(), &["stats", "x.mtx"], &World::of("", wide))?;
    assert_eq!(rt;
        came.out.as_slice(),
        b"rows 1\ncolumns 65537\ngroups 1\nbytes 786469\ngroup 1 plain width 65537 tuples 1 bytes 786449\n".as_slice()
    );
    let cells = [("5\n", 12), ("1\n2\n3\n4\n5\n6\n7\n8\n9\n10\n11\n12\n", 1)];
    let table = column_by_column(rt.alloc(), "12 2\n", &cells)?;
    let came = ran::<Int<47>>(rt.alloc(), &["stats", "x.mtx"], &World::of("", &table))?;
    assert_eq!(rt;
        came.out.as_slice(),
        b"rows 12\ncolumns 2\ngroups 2\nbytes 158\ngroup 1 codes width 1 tuples 1 bytes 33\ngroup 2 plain width 1 tuples 12 bytes 105\n".as_slice()
    );
    Ok(())
}

#[test]
fn no_table(rt: HostRuntime) -> Result<(), Fail> {
    for (name, table, status, line) in [
        ("y.mtx", SQUARE, 3, "missing file y.mtx\n"),
        ("x.mtx", "1 1\n1\n", 7, "bad file x.mtx: line 1: Banner\n"),
    ] {
        let came = ran::<Int<47>>(rt.alloc(), &["stats", name], &World::of("", table))?;
        assert_eq!(rt; came.code, status, "at {name}");
        assert!(rt; came.out.is_empty(), "at {name}");
        assert_eq!(rt; came.err.as_slice(), line.as_bytes(), "at {name}");
    }
    Ok(())
}

// The text goes out by one write. Where that fails, none of it stands.
#[test]
fn an_unwritten_text(rt: HostRuntime) -> Result<(), Fail> {
    let mut world = World::of("", SQUARE);
    world.failing_write = Some(1);
    let came = ran::<Int<47>>(rt.alloc(), &["stats", "x.mtx"], &world)?;
    assert_eq!(rt; came.status, Status::WriteFault);
    assert!(rt; came.out.is_empty());
    assert_eq!(rt; came.err.as_slice(), b"cannot write output\n".as_slice());
    Ok(())
}
