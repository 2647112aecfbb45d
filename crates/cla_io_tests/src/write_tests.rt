//! Writes to files in memory and to sinks, some of which are to fail.

ghost use Rattle.std.specs.Prelude.{◌≡◌, None, IsSome};

use crate::memory::files_of;
use cla_io::{CallKind, Drip, FileSink, Files, MemSink, StdSink, Stop, put_all};
use std::alloc::Global;
use std::io;
use std::io::{ErrorKind, Write};
use std::test::Fail;

#[test]
fn goes_on_after_a_failed_write(rt: HostRuntime) -> Result<(), Fail> {
    let fail = [2].to_vec(rt.alloc())?;
    let mut sink = MemSink::new(fail);
    assert_eq!(rt; put_all(&mut sink, b"one"), Ok(()));
    assert_eq!(rt; put_all(&mut sink, b"two"), Err(Stop::Failed));
    assert_eq!(rt; put_all(&mut sink, b""), Ok(()));
    assert_eq!(rt; put_all(&mut sink, b"three"), Ok(()));
    assert_eq!(rt; sink.bytes(), b"onethree".as_slice());
    assert_eq!(rt; put_all(&mut sink, &[b'z'; 5_000]), Ok(()));
    assert_eq!(rt; sink.bytes().len(), 5_008);
    Ok(())
}

// Writes a file in two pieces, and ends to write however that went.
pub(crate) fn store<F: Files>(files: &mut F, name: &str, one: &[u8], two: &[u8]) -> Result<(), Stop>
    ensures { (F.state files.new).writing ≡ None }
{
    match files.begin_write(name) {
        Ok(()) => (),
        Err(stop) => return Err(stop),
    }
    let put = put_twice(files, one, two);
    let ended = files.end_write();
    put.and(ended)
}

fn put_twice<F: Files>(files: &mut F, one: &[u8], two: &[u8]) -> Result<(), Stop>
    requires { IsSome (F.state files.old).writing }
    ensures { (F.state files.new).writing ≡ (F.state files.old).writing }
{
    let mut sink = FileSink::new(files);
    match put_all(&mut sink, one) {
        Ok(()) => put_all(&mut sink, two),
        Err(stop) => Err(stop),
    }
}

// Whether a file comes to these bytes with this answer, where a call fails.
fn comes_to(
    alloc: Global,
    fail: (CallKind, u64),
    answer: Result<(), Stop>,
    bytes: &[u8],
) -> Result<bool, Fail> {
    let mut files = files_of(alloc, &[("name", b"old")], &[fail])?;
    let stored = store(&mut files, "name", b"abc", b"de");
    Ok(stored == answer && files.bytes("name") == Some(bytes))
}

#[test]
fn writes_with_each_call_failing(rt: HostRuntime) -> Result<(), Fail> {
    let alloc = rt.alloc();
    let failed = Err(Stop::Failed);
    for (call, answer, bytes) in [
        ((CallKind::BeginWrite, 1), failed, b"old".as_slice()),
        ((CallKind::Write, 1), failed, b""),
        ((CallKind::Write, 2), failed, b"abc"),
        ((CallKind::EndWrite, 1), failed, b"abcde"),
        ((CallKind::Write, 3), Ok(()), b"abcde"),
    ] {
        assert!(rt; comes_to(alloc, call, answer, bytes)?, "at {call:?}");
    }
    Ok(())
}

#[test]
fn writes_one_byte_at_a_time(rt: HostRuntime) -> Result<(), Fail> {
    let alloc = rt.alloc();
    let mut drip = Drip::new(files_of(alloc, &[], &[(CallKind::Write, 5)])?, 1);
    assert_eq!(rt; store(&mut drip, "new", b"abc", b"de"), Err(Stop::Failed));
    assert_eq!(rt; store(&mut drip, "new", b"abc", b"de"), Ok(()));
    Ok(())
}

// A writer that takes one byte at a time, and can't be flushed from its n-th time on.
#[derive(Drop)]
struct Grudging {
    taken: Vec<u8>,
    flushes: usize,
}

impl Write for Grudging {
    fn write(&mut self, buf: &[u8]) -> io::Result<usize> {
        let first = buf.len().min(1);
        self.taken.extend_from_slice(&buf[..first])?;
        Ok(first)
    }

    fn flush(&mut self) -> io::Result<()> {
        if self.flushes == 0 {
            return Err(io::Error::from(ErrorKind::Other));
        }
        self.flushes -= 1;
        Ok(())
    }
}

#[test]
fn flushes_after_each_write(rt: HostRuntime) -> Result<(), Fail> {
    let mut writer = Grudging {
        taken: Vec::new(rt.alloc()),
        flushes: 3,
    };
    let mut sink = StdSink::new(&mut writer);
    assert_eq!(rt; put_all(&mut sink, b"abc"), Ok(()));
    assert_eq!(rt; put_all(&mut sink, b"d"), Err(Stop::Failed));
    Ok(())
}
