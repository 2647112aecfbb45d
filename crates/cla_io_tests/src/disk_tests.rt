//! Real files, in the folder of temporary files.

ghost use Rattle.std.specs.Prelude.{◌≡◌, None};

use crate::write_tests::store;
use cla_io::{DiskFiles, Files, Input, Stop};
use std::alloc::Global;
use std::test::Fail;
use std::time::SystemTime;
use std::{env, fs};

fn load<F: Files>(alloc: Global, files: &mut F, name: &str) -> Result<Vec<u8>, Fail>
    requires { (F.state files.old).writing ≡ None }
    ensures { (F.state files.new).writing ≡ None }
{
    match files.begin_read(name) {
        Ok(true) => (),
        _ => return Err(Fail::from("no such file")),
    }
    let mut input = Input::new(alloc, files, 1 << 20)?;
    Ok(input.whole()?)
}

// What the first read of a file answers, or the call that begins it.
fn first_read<F: Files>(files: &mut F, name: &str) -> Result<usize, Stop>
    requires { (F.state files.old).writing ≡ None }
{
    match files.begin_read(name) {
        Ok(true) => files.read(&mut [0; 8]),
        Ok(false) => Ok(0),
        Err(stop) => Err(stop),
    }
}

// 150,000 bytes no two neighbours of which are the same.
fn pattern(alloc: Global) -> Result<Vec<u8>, Fail> {
    let mut bytes = Vec::new(alloc);
    for i in 0..150_000u32 {
        bytes.push((i % 251) as u8)?;
    }
    Ok(bytes)
}

// A name of its own in the folder of temporary files, of this many bytes and 27 more, which ends in a space.
fn new_name(rt: &HostRuntime, bytes: usize) -> Result<String, Fail> {
    let folder = env::temp_dir(rt)?;
    let now = SystemTime::now(rt)?.duration_since(SystemTime::UNIX_EPOCH)?;
    let rest = "x".repeat(rt.alloc(), bytes)?;
    Ok(format!(in rt.alloc(); "{}/cla_io {}{} ", folder.as_str(), now.as_nanos(), rest)?)
}

// Whether a file that isn't there is written, and read twice with these bytes. It is removed then.
fn writes_and_reads(rt: &HostRuntime, name: &str, bytes: &[u8]) -> Result<bool, Fail> {
    let alloc = rt.alloc();
    let mut files = DiskFiles::new(rt, alloc);
    let mut is_right = files.begin_read(name) == Ok(false);
    is_right &= store(&mut files, name, b"", bytes) == Ok(());
    is_right &= load(alloc, &mut files, name)?.as_slice() == bytes;
    is_right &= load(alloc, &mut files, name)?.as_slice() == bytes;
    fs::remove_file(rt, name)?;
    Ok(is_right)
}

// The longest name that a file may have has 255 bytes.
#[test]
fn a_real_file_with_the_longest_name(rt: HostRuntime) -> Result<(), Fail> {
    let bytes = pattern(rt.alloc())?;
    let name = new_name(&rt, 228)?;
    assert!(rt; writes_and_reads(&rt, &name, &bytes)?);
    Ok(())
}

#[test]
fn faults_of_real_files(rt: HostRuntime) -> Result<(), Fail> {
    let alloc = rt.alloc();
    let folder = env::temp_dir(&rt)?;
    let mut files = DiskFiles::new(&rt, alloc);
    assert_eq!(rt;
        store(&mut files, folder.as_str(), b"a", b"b"),
        Err(Stop::Failed)
    );
    assert_eq!(rt;
        store(&mut files, "/dev/full", b"a", b"b"),
        Err(Stop::Failed)
    );
    assert_eq!(rt; first_read(&mut files, folder.as_str()), Err(Stop::Failed));
    let long = new_name(&rt, 229)?;
    assert_eq!(rt; store(&mut files, &long, b"a", b"b"), Err(Stop::Failed));
    assert_eq!(rt; first_read(&mut files, &long), Err(Stop::Failed));
    // (nobody has a right to make a file there, the system's administrator neither)
    assert_eq!(rt;
        store(&mut files, "/sys/kernel/cla_io", b"a", b"b"),
        Err(Stop::Failed)
    );
    Ok(())
}
