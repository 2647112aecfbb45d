//! Scripts: what they print, and why they are refused.

use crate::runs::{BANNER, SCRIPT, SQUARE, World, ran};
use cla_cli::{Place, Status};
use cla_num::{Int, Number, OpFault, What};
use std::alloc::Global;
use std::test::Fail;

#[test]
fn ample_memory_is_done(rt: HostRuntime) -> Result<(), Fail> {
    let came = ran::<Int<47>>(rt.alloc(), &["run", "s"], &World::of(SCRIPT, SQUARE))?;
    assert_eq!(rt; came.code, 0);
    assert_eq!(rt; came.out.as_slice(), b"10\n".as_slice());
    assert!(rt; came.err.is_empty());
    Ok(())
}

#[test]
fn worked_examples(rt: HostRuntime) -> Result<(), Fail> {
    let two = "%%MatrixMarket matrix array integer general\n2 1\n140737488355327\n1\n";
    let three =
        "%%MatrixMarket matrix array integer general\n3 1\n140737488355327\n140737488355327\n-140737488355327\n";
    for (table, status, out, err) in [
        (SQUARE, 0, "10\n", ""),
        (
            two,
            9,
            "",
            "operator 2:7: entry (1, 1) is 140737488355328\n",
        ),
        (three, 0, "140737488355327\n", ""),
    ] {
        let came = ran::<Int<47>>(rt.alloc(), &["run", "s"], &World::of(SCRIPT, table))?;
        assert_eq!(rt; came.code, status, "at {table}");
        assert_eq!(rt; came.out.as_slice(), out.as_bytes(), "at {table}");
        assert_eq!(rt; came.err.as_slice(), err.as_bytes(), "at {table}");
    }
    let small = "%%MatrixMarket matrix array integer general\n2 1\n127\n1\n";
    let came = ran::<Int<7>>(rt.alloc(), &["run", "s"], &World::of(SCRIPT, small))?;
    let wide = Int::<47>::of(128).ok_or("in range")?.wide();
    let fault = OpFault {
        op: 0,
        row: 1,
        col: 1,
        what: What::Range { value: wide },
    };
    let place = Place { line: 2, col: 7 };
    assert_eq!(rt; came.status, Status::Operator { place, fault });
    assert_eq!(rt;
        came.err.as_slice(),
        b"operator 2:7: entry (1, 1) is 128\n".as_slice()
    );
    Ok(())
}

// Scripts over the table of 1 2 and 3 4: what each comes to, the output, and standard error.
const SCRIPTS: [(&str, u8, &str, &str); 23] = [
    ("", 0, "", ""),
    ("# note\n", 0, "", ""),
    ("X = read(\"x.mtx\")\r\nprint(sum(X))\r\n", 0, "10\n", ""),
    (
        "X=read(\"x.mtx\");print(X);print(7)#end\nprint(nrow(X));print(ncol(X))",
        0,
        "1 2\n3 4\n7\n2\n2\n",
        "",
    ),
    ("X = read(\"x.mtx\")\nprint((sum((X * 3))))", 0, "30\n", ""),
    (
        "X = read(\"x.mtx\")\nprint(X)\nprint(sum(X * 140737488355327))\nprint(1)",
        9,
        "1 2\n3 4\n",
        "operator 3:13: entry (1, 2) is 281474976710654\n",
    ),
    ("print(1 +)", 6, "", "script 1:10: Syntax\n"),
    ("print(X ^ 3)", 6, "", "script 1:11: Exponent\n"),
    ("print(140737488355328)", 6, "", "script 1:7: Literal\n"),
    (
        "X = read(\"x.mtx\")\nprint(Q)",
        6,
        "",
        "script 2:7: Unknown\n",
    ),
    (
        "X = read(\"x.mtx\")\nprint(X[3, ])",
        6,
        "",
        "script 2:8: Bounds\n",
    ),
    (
        "X = read(\"x.mtx\")\nprint(t(1))",
        6,
        "",
        "script 2:7: Operand\n",
    ),
    (
        "X = read(\"x.mtx\")\nprint(1)\nY = X %*% cbind(X, X) %*% X",
        6,
        "",
        "script 3:23: Shapes\n",
    ),
    (
        "write(X, \"x.mtx\")\nX = read(\"x.mtx\")",
        6,
        "",
        "script 1:10: Clash\n",
    ),
    (
        "X = read(\"x.mtx\")\nprint(1)\nprint(t(X))",
        6,
        "",
        "script 1:1: Unbuilt\n",
    ),
    (
        "X = read(\"x.mtx\")\nprint(sum(X * -1))",
        6,
        "",
        "script 1:1: Unbuilt\n",
    ),
    (
        "X = read(\"x.mtx\")\nprint(sum(2 * X))",
        6,
        "",
        "script 1:1: Unbuilt\n",
    ),
    (
        "X = read(\"x.mtx\")\nprint(sum(X + 2))",
        6,
        "",
        "script 1:1: Unbuilt\n",
    ),
    ("Y = 1", 6, "", "script 1:1: Unbuilt\n"),
    ("X = read(\"\")", 6, "", "script 1:10: Text\n"),
    ("X = read(\"x.mtx\")\r\r\n", 6, "", "script 1:18: Char\n"),
    (
        "X = read(\"y.mtx\")\nprint(Q)",
        3,
        "",
        "missing file y.mtx\n",
    ),
    (
        "X = read(\"s\")\nY = read(\"y.mtx\")",
        7,
        "",
        "bad file s: line 1: Banner\n",
    ),
];

#[test]
fn scripts(rt: HostRuntime) -> Result<(), Fail> {
    for (script, status, out, err) in SCRIPTS {
        let came = ran::<Int<47>>(rt.alloc(), &["run", "s"], &World::of(script, SQUARE))?;
        assert_eq!(rt; came.code, status, "at {script}");
        assert_eq!(rt; came.out.as_slice(), out.as_bytes(), "at {script}");
        assert_eq!(rt; came.err.as_slice(), err.as_bytes(), "at {script}");
    }
    Ok(())
}

// A name stands for the table that was read last, and a table may be read again.
#[test]
fn several_tables(rt: HostRuntime) -> Result<(), Fail> {
    let script = "X = read(\"x.mtx\")\nY = read(\"y.mtx\")\nprint(X)\nX = read(\"y.mtx\")\n\
        print(sum(X)); print(sum(Y)); print(nrow(X)); Y = read(\"x.mtx\"); print(sum(Y * 2))";
    let mut world = World::of(script, SQUARE);
    world.other = Some(b"%%MatrixMarket matrix array integer general\n3 1\n-1\n-1\n-1\n");
    let came = ran::<Int<47>>(rt.alloc(), &["run", "s"], &world)?;
    assert_eq!(rt;
        came.out.as_slice(),
        b"1 2\n3 4\n-3\n-3\n3\n20\n".as_slice()
    );
    assert_eq!(rt; came.status, Status::Done);
    assert!(rt; came.err.is_empty());
    world.other = Some(b"1 1\n1\n");
    let came = ran::<Int<47>>(rt.alloc(), &["run", "s"], &world)?;
    assert_eq!(rt; came.code, 7);
    assert!(rt; came.out.is_empty());
    assert_eq!(rt;
        came.err.as_slice(),
        b"bad file y.mtx: line 1: Banner\n".as_slice()
    );
    world.table = None;
    let came = ran::<Int<47>>(rt.alloc(), &["run", "s"], &world)?;
    assert_eq!(rt; came.err.as_slice(), b"missing file x.mtx\n".as_slice());
    Ok(())
}

// A statement of 257 tokens is too long.
#[test]
fn a_long_statement(rt: HostRuntime) -> Result<(), Fail> {
    let mut script = String::from_str(rt.alloc(), "print(1")?;
    for _ in 0..127 {
        script.push_str("+1")?;
    }
    script.push_str(")\n")?;
    let came = ran::<Int<47>>(rt.alloc(), &["run", "s"], &World::of(&script, SQUARE))?;
    assert_eq!(rt; came.code, 6);
    assert_eq!(rt; came.err.as_slice(), b"script 1:261: Long\n".as_slice());
    Ok(())
}

#[test]
fn long_scripts(rt: HostRuntime) -> Result<(), Fail> {
    for (len, status, line) in [
        (1 << 20, Status::Done, ""),
        (
            (1 << 20) + 1,
            Status::Limit,
            "limit s: more than 1048576 bytes\n",
        ),
    ] {
        let script = String::from_utf8(Vec::from_elem(rt.alloc(), b'#', len)?)?;
        let came = ran::<Int<47>>(rt.alloc(), &["run", "s"], &World::of(&script, SQUARE))?;
        assert_eq!(rt; came.status, status, "at {len}");
        assert!(rt; came.out.is_empty(), "at {len}");
        assert_eq!(rt; came.err.as_slice(), line.as_bytes(), "at {len}");
    }
    Ok(())
}

// The script that multiplies by this.
fn product_script(alloc: Global, factor: &str) -> Result<String, Fail> {
    let mut script = String::from_str(alloc, "X = read(\"x.mtx\")\nprint(sum(")?;
    script.push_str(factor)?;
    script.push_str("))\n")?;
    Ok(script)
}

#[test]
fn products(rt: HostRuntime) -> Result<(), Fail> {
    for (factor, rest, status, out, err) in [
        ("X * 3", "2 2\n1\n3\n2\n4\n", 0, "30\n", ""),
        ("X * 0", "2 2\n1\n3\n2\n4\n", 0, "0\n", ""),
        (
            "X * 140737488355327",
            "3 1\n1\n-1\n-1\n",
            0,
            "-140737488355327\n",
            "",
        ),
        (
            "X * 2",
            "2 1\n70368744177664\n1\n",
            9,
            "",
            "operator 2:13: entry (1, 1) is 140737488355328\n",
        ),
        (
            "X * 2",
            "2 1\n-70368744177664\n1\n",
            9,
            "",
            "operator 2:13: entry (1, 1) is -140737488355328\n",
        ),
        (
            "X * 2",
            "3 1\n1\n70368744177664\n70368744177664\n",
            9,
            "",
            "operator 2:13: entry (2, 1) is 140737488355328\n",
        ),
        (
            "X * 2",
            "2 2\n1\n70368744177664\n70368744177664\n1\n",
            9,
            "",
            "operator 2:13: entry (1, 2) is 140737488355328\n",
        ),
        (
            "X * 2",
            "2 1\n70368744177663\n1\n",
            9,
            "",
            "operator 2:7: entry (1, 1) is 140737488355328\n",
        ),
    ] {
        let script = product_script(rt.alloc(), factor)?;
        let mut table = String::from_str(rt.alloc(), BANNER)?;
        table.push_str(rest)?;
        let came = ran::<Int<47>>(rt.alloc(), &["run", "s"], &World::of(&script, &table))?;
        assert_eq!(rt; came.code, status, "at {factor} {rest}");
        assert_eq!(rt; came.out.as_slice(), out.as_bytes(), "at {factor} {rest}");
        assert_eq!(rt; came.err.as_slice(), err.as_bytes(), "at {factor} {rest}");
    }
    Ok(())
}
