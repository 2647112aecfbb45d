//! Reads of files in memory, some of which are to fail, and their lines.

ghost use Rattle.std.specs.Prelude.{◌≡◌, ◌≤◌, ◌^◌, None, IsSome, IfOk};
ghost use Rattle.cla_io.specs.InputFrame.{ReadsOn};

use crate::memory::files_of;
use cla_io::{CallKind, Drip, Files, InFault, Input, MemFiles, Stop};
use std::alloc::Global;
use std::test::Fail;

// What a read of three bytes answers, with the buffer after it.
type Piece = (Result<usize, Stop>, [u8; 3]);

fn next_piece<F: Files>(files: &mut F) -> Piece
    requires { IsSome (F.state files.old).reading }
    ensures reading { IsSome (F.state files.new).reading }
    ensures writing { (F.state files.new).writing ≡ (F.state files.old).writing }
{
    let mut buffer = [0; 3];
    let answer = files.read(&mut buffer);
    (answer, buffer)
}

// What four reads from a file's start give; `None` where there is no such file.
fn first_bytes<F: Files>(files: &mut F, name: &str) -> Result<Option<[Piece; 4]>, Stop>
    requires { (F.state files.old).writing ≡ None }
    ensures { (F.state files.new).writing ≡ None }
{
    if !files.begin_read(name)? {
        return Ok(None);
    }
    let one = next_piece(files);
    let two = next_piece(files);
    let three = next_piece(files);
    let four = next_piece(files);
    Ok(Some([one, two, three, four]))
}

#[test]
fn reads_in_pieces(rt: HostRuntime) -> Result<(), Fail> {
    let alloc = rt.alloc();
    let held = [("long", b"hello".as_slice()), ("short", b"xy")];
    let mut files = files_of(alloc, &held, &[(CallKind::Read, 2)])?;
    let long = [
        (Ok(3), *b"hel"),
        (Err(Stop::Failed), [0; 3]),
        (Ok(2), *b"lo\0"),
        (Ok(0), [0; 3]),
    ];
    assert_eq!(rt; first_bytes(&mut files, "long"), Ok(Some(long)));
    assert_eq!(rt; first_bytes(&mut files, "none"), Ok(None));
    let short = [
        (Ok(2), *b"xy\0"),
        (Ok(0), [0; 3]),
        (Ok(0), [0; 3]),
        (Ok(0), [0; 3]),
    ];
    assert_eq!(rt; first_bytes(&mut files, "short"), Ok(Some(short)));
    assert_eq!(rt; files.bytes("long"), Some(b"hello".as_slice()));
    assert_eq!(rt; files.bytes("none"), None);
    Ok(())
}

// What taking a line answers, with the line's number, how many bytes are taken after it, how long
// the line is and its last byte.
type Step = (Result<bool, InFault>, u64, u64, usize, Option<u8>);

fn step<F: Files>(input: &mut Input<'_, F>) -> Step
    ensures same_reference { input.new.files.ghost_name ≡ input.old.files.ghost_name }
    ensures frame { ReadsOn (F.state input.old.files.now) (F.state input.new.files.now) }
{
    let answer = input.next_line();
    let line = input.line();
    (
        answer,
        input.line_number(),
        input.at(),
        line.len(),
        line.last().copied(),
    )
}

// What four lines of a file come to; `None` where it can't be begun.
fn first_lines<F: Files>(
    alloc: Global,
    files: &mut F,
    name: &str,
    limit: u64,
) -> Result<Option<[Step; 4]>, Fail>
    requires idle { (F.state files.old).writing ≡ None }
    requires least { 8 ≤ limit }
    requires most { limit ≤ 2 ^ 32 }
    ensures { (F.state files.new).writing ≡ None }
{
    match files.begin_read(name) {
        Ok(true) => (),
        _ => return Ok(None),
    }
    let mut input = Input::new(alloc, files, limit)?;
    let one = step(&mut input);
    let two = step(&mut input);
    let three = step(&mut input);
    let four = step(&mut input);
    Ok(Some([one, two, three, four]))
}

// Whether the first lines of a file, up to a limit, come to these steps. None are wanted where it can't be begun.
fn come_to<F: Files>(
    alloc: Global,
    files: &mut F,
    place: (&str, u64),
    want: &[Step],
) -> Result<bool, Fail>
    requires idle { (F.state files.old).writing ≡ None }
    ensures { (F.state files.new).writing ≡ None }
{
    let (name, limit) = place;
    if limit < 8 || limit > 1 << 32 {
        return Err(Fail::new("no limit"));
    }
    match first_lines(alloc, files, name, limit)? {
        Some(steps) => Ok(!want.is_empty() && steps.starts_with(want)),
        None => Ok(want.is_empty()),
    }
}

// The same for files that hold two.
fn two_come_to(alloc: Global, place: (&str, u64), want: &[Step]) -> Result<bool, Fail> {
    let lines = ("lines", b"ab\r\n\nc".as_slice());
    let nine = ("nine", b"12345678\n".as_slice());
    let mut files = files_of(alloc, &[lines, nine], &[])?;
    come_to(alloc, &mut files, place, want)
}

const LINES: [Step; 4] = [
    (Ok(true), 1, 4, 2, Some(b'b')),
    (Ok(true), 2, 5, 0, None),
    (Ok(true), 3, 6, 1, Some(b'c')),
    (Ok(false), 4, 6, 1, Some(b'c')),
];

#[test]
fn takes_lines_up_to_the_limit(rt: HostRuntime) -> Result<(), Fail> {
    let alloc = rt.alloc();
    assert!(rt; two_come_to(alloc, ("lines", 8), &LINES)?);
    assert!(rt; two_come_to(alloc, ("none", 8), &[])?);
    let whole = (Ok(true), 1, 9, 8, Some(b'8'));
    assert!(rt; two_come_to(alloc, ("nine", 9), &[whole])?);
    let cut = (Err(InFault::TooLong), 0, 0, 0, None);
    assert!(rt; two_come_to(alloc, ("nine", 8), &[cut])?);
    Ok(())
}

// Files with one, whose lines have 65,533, 7, 0 and 70,000 bytes. Two bytes of the second stand at
// the end of a buffer of 65,536 bytes.
fn long_lines(alloc: Global, fail: &[(CallKind, u64)]) -> Result<MemFiles, Fail>
    ensures { IfOk result (λ files. (⟦<MemFiles as Files>⟧.state files).writing ≡ None) }
{
    let mut bytes = Vec::from_elem(alloc, b'x', 65_533)?;
    bytes.extend_from_slice(b"\nabcdef\r\r\n\n")?;
    bytes.extend_from_slice(&[b'y'; 70_000])?;
    files_of(alloc, &[("long", &bytes)], fail)
}

const FIRST: Step = (Ok(true), 1, 65_534, 65_533, Some(b'x'));

const SECOND: Step = (Ok(true), 2, 65_543, 7, Some(b'\r'));

const THIRD: Step = (Ok(true), 3, 65_544, 0, None);

const FOURTH: Step = (Ok(true), 4, 135_544, 70_000, Some(b'y'));

#[test]
fn takes_lines_over_the_end_of_the_buffer(rt: HostRuntime) -> Result<(), Fail> {
    let alloc = rt.alloc();
    let mut files = long_lines(alloc, &[])?;
    let whole = [FIRST, SECOND, THIRD, FOURTH];
    assert!(rt; come_to(alloc, &mut files, ("long", 135_544), &whole)?);
    let cut = [
        FIRST,
        SECOND,
        THIRD,
        (Err(InFault::TooLong), 3, 65_544, 0, None),
    ];
    assert!(rt; come_to(alloc, &mut files, ("long", 135_543), &cut)?);
    Ok(())
}

#[test]
fn keeps_the_line_at_a_failed_read(rt: HostRuntime) -> Result<(), Fail> {
    let alloc = rt.alloc();
    let mut files = long_lines(alloc, &[(CallKind::Read, 2)])?;
    let want = [FIRST, (Err(InFault::Read), 1, 65_534, 65_533, Some(b'x'))];
    assert!(rt; come_to(alloc, &mut files, ("long", 135_544), &want)?);
    Ok(())
}

#[test]
fn takes_lines_of_few_bytes_a_read(rt: HostRuntime) -> Result<(), Fail> {
    let alloc = rt.alloc();
    let want = [FIRST, SECOND, THIRD, FOURTH];
    for most in [1, 7] {
        let mut drip = Drip::new(long_lines(alloc, &[])?, most);
        assert!(rt;
            come_to(alloc, &mut drip, ("long", 135_544), &want)?,
            "at {most}"
        );
    }
    Ok(())
}
