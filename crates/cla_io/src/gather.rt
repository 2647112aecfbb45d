//! Reading on over the end of the buffer.

ghost use Rattle.std.specs.Prelude.{◌≡◌, ◌≤◌, ◌^◌, [], length, IsSome, IfOk};
ghost use Rattle.cla_io.specs.State.{left};
ghost use Rattle.cla_io.specs.Lines.{InCause, HasNoLf, GathersWhereTold, InRoom, TakesAllWhereTold, with_left};
ghost use Rattle.cla_io.specs.InputFrame.{ReadsOn};
ghost use Rattle.cla_io.specs.Window.{items};

use crate::files::Files;
use crate::stop::InFault;
use crate::window::Window;
use std::alloc::Global;

/// Gathers the next line, whose end isn't held, in `line`, and gives its width with its end. 0 says
/// that the file ends here.
pub(crate) fn gather<F: Files>(
    files: &mut F,
    window: &mut Window,
    line: &mut Vec<u8>,
    room: u64,
) -> Result<usize, InFault>
    requires open { IsSome (F.state files.old).reading }
    requires none { HasNoLf (items window.old) }
    requires empty { line.old.items ≡ [] }
    requires small { room ≤ 2 ^ 32 }
    ensures frame { ReadsOn (F.state files.old) (F.state files.new) }
    ensures cause { InCause (F.state files.old).read_faults (F.state files.new).read_faults result }
    ensures line { GathersWhereTold room line.new.items (with_left (items window.old) (left (F.state files.old)))
        (with_left (items window.new) (left (F.state files.new))) result }
    ensures in_room { InRoom room line.new.items result }
{
    match window.move_to(line) {
        Ok(()) => (),
        Err(_) => return Err(InFault::Memory),
    }
    while line.len() as u64 <= room {
        match window.refill(files) {
            Ok(0) => return Ok(line.len()),
            Ok(_) => (),
            Err(fault) => return Err(fault),
        }
        match window.lf_place() {
            Some(place) => {
                let width = line.len() + place + 1;
                if room < width as u64 {
                    return Err(InFault::TooLong);
                }
                match line.extend_from_slice(&window.as_slice()[..place]) {
                    Ok(()) => (),
                    Err(_) => return Err(InFault::Memory),
                }
                window.consume(place + 1);
                return Ok(width);
            }
            None => match window.move_to(line) {
                Ok(()) => (),
                Err(_) => return Err(InFault::Memory),
            },
        }
    }
    Err(InFault::TooLong)
}

/// All bytes to the end of the file.
pub(crate) fn read_all<F: Files>(
    alloc: Global,
    files: &mut F,
    window: &mut Window,
    limit: u64,
) -> Result<Vec<u8>, InFault>
    requires { IsSome (F.state files.old).reading }
    ensures frame { ReadsOn (F.state files.old) (F.state files.new) }
    ensures cause { InCause (F.state files.old).read_faults (F.state files.new).read_faults result }
    ensures all { TakesAllWhereTold limit (with_left (items window.old) (left (F.state files.old)))
        (with_left (items window.new) (left (F.state files.new))) result }
    ensures in_limit { IfOk result (λ all. length all.items ≤ limit) }
{
    let mut all = Vec::new(alloc);
    match window.move_to(&mut all) {
        Ok(()) => (),
        Err(_) => return Err(InFault::Memory),
    }
    while all.len() as u64 <= limit {
        match window.refill(files) {
            Ok(0) => return Ok(all),
            Ok(_) => (),
            Err(fault) => return Err(fault),
        }
        match window.move_to(&mut all) {
            Ok(()) => (),
            Err(_) => return Err(InFault::Memory),
        }
    }
    Err(InFault::TooLong)
}
