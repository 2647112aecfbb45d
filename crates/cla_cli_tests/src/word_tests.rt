//! The words of the command line.

use crate::runs::{SCRIPT, SQUARE, World, ran};
use cla_cli::Status;
use cla_num::Int;
use std::test::Fail;

#[test]
fn words(rt: HostRuntime) -> Result<(), Fail> {
    let world = World::of(SCRIPT, SQUARE);
    let refused: [&[&str]; 34] = [
        &[],
        &["run"],
        &["stats"],
        &["run", ""],
        &["run", "-s"],
        &["stats", "-"],
        &["walk", "s"],
        &["Run", "s"],
        &["run", "s", "s"],
        &["run", "s", "--budget"],
        &["run", "--budget", "3"],
        &["run", "s", "--budget="],
        &["run", "s", "--budget", "-1"],
        &["run", "s", "--budget", "-0"],
        &["run", "s", "--budget", "3s"],
        &["run", "s", "--budget", "4294967297"],
        &["run", "s", "--budget=4294967297"],
        &["run", "s", "--budget=-1"],
        &["run", "s", "--costs", "3"],
        &["run", "--budget", "3", "--budget=3"],
        &["run", "s", "--budget", "3", "--budget=3"],
        &["stats", "x.mtx", "--budget=3"],
        &["run", "s", "--costs"],
        &["run", "s", "--costs", "--costs"],
        &["explain", "s"],
        &["check", "s"],
        &["gen", "2", "2", "2", "0", "y.mtx"],
        &["pack", "x.mtx"],
        &["pack", "x.mtx", "x.mtx"],
        &["pack", "x.mtx", "y.mtx", "--budget", "-1"],
        &["pack", "x.mtx", "y.mtx", "z.mtx"],
        &["unpack", "x.mtx", "x.mtx"],
        &["unpack", "x.mtx", "--", "-"],
        &["unpack", "x.mtx", "y.mtx", "--budget", "3"],
    ];
    for words in refused {
        let came = ran::<Int<47>>(rt.alloc(), words, &world)?;
        assert_eq!(rt; came.status, Status::Usage, "at {words:?}");
        assert!(rt; came.out.is_empty());
        assert_eq!(rt;
            came.err.as_slice(),
            b"usage: cla COMMAND WORDS\n".as_slice()
        );
    }
    Ok(())
}

#[test]
fn budgets(rt: HostRuntime) -> Result<(), Fail> {
    let world = World::of(SCRIPT, SQUARE);
    let accepted: [&[&str]; 8] = [
        &["run", "s"],
        &["run", "s", "--budget", "65"],
        &["run", "--budget", "+65", "s"],
        &["run", "s", "--budget=065"],
        &["run", "--budget=65", "s"],
        &["run", "s", "--budget", "4294967296"],
        &["run", "--budget=4294967296", "s"],
        &["run", "--budget=65", "--", "s"],
    ];
    for words in accepted {
        let came = ran::<Int<47>>(rt.alloc(), words, &world)?;
        assert_eq!(rt; came.status, Status::Done, "at {words:?}");
        assert_eq!(rt; came.out.as_slice(), b"10\n".as_slice(), "at {words:?}");
    }
    Ok(())
}
