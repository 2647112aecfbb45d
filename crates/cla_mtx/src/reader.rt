//! The reader: one loop over the lines of an input.

ghost use Rattle.std.specs.Prelude.{◌≡◌};
ghost use Rattle.cla_io.specs.State.{left};
ghost use Rattle.cla_io.specs.InputFrame.{ReadsOn};
ghost use Rattle.cla_io.specs.Lines.{ahead_of};
ghost use Rattle.cla_num.specs.Bits.{IsSupported};
ghost use Rattle.cla_mtx.specs.Reading.{ReadsTextWhereTold, HasReadCause};

use crate::phase::{Phase, finish, take_line, take_plain_lines};
use cla_io::{Files, InFault, Input};
use cla_market::MtxFault;
use cla_num::{Dense, Number};
use std::alloc::Global;

/// The matrix that the whole text spells, in one pass over its lines.
///
/// The text is a file of the NIST Matrix Market exchange format: an array of integers, or a coordinate
/// file of integers or of a pattern; general, symmetric, or, for integers, skew-symmetric. Each other
/// text is refused at its first bad line. `TooLong` comes at the first line that needs a byte past the
/// input's limit, `Read` only where faults of reading rose, and `Memory` at any line. `Ok` says that
/// the file was read to its end.
///
/// It takes memory by the entries that were read, and for the whole matrix only at the end.
pub fn read_mtx<N: Number, F: Files>(
    alloc: Global,
    input: &mut Input<'_, F>,
) -> Result<Dense<N>, MtxFault>
    requires bits { IsSupported N.BITS }
    requires nothing_taken { input.old.taken.at ≡ 0 }
    ensures same_reference { input.new.files.ghost_name ≡ input.old.files.ghost_name }
    ensures frame { ReadsOn (F.state input.old.files.now) (F.state input.new.files.now) }
    ensures cause { let before = (F.state input.old.files.now).read_faults in
        HasReadCause before (F.state input.new.files.now).read_faults result }
    ensures reads { let before = ahead_of input.old.taken (left (F.state input.old.files.now)) in
        let after = ahead_of input.new.taken (left (F.state input.new.files.now)) in
        ReadsTextWhereTold N.BITS input.old.taken.limit before after result }
{
    let mut phase = Phase::Banner;
    'lines: loop {
        match input.next_line() {
            Ok(true) => {
                match take_line(alloc, &mut phase, input.line_number(), input.line()) {
                    Ok(()) => (),
                    Err(fault) => return Err(fault),
                }
                match take_plain_lines(alloc, &mut phase, input) {
                    Ok(()) => (),
                    Err(fault) => return Err(fault),
                }
            }
            Ok(false) => return finish(input.line_number(), phase),
            Err(InFault::TooLong) => return Err(MtxFault::TooLong),
            Err(InFault::Read) => return Err(MtxFault::Read),
            Err(InFault::Memory) => return Err(MtxFault::Memory),
        }
    }
}
