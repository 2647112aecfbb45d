//! The kind of a group.

ghost use Rattle.std.specs.Prelude.{◌≡◌, ◌≤◌};
ghost use Rattle.cla_io.specs.InputFrame.{ReadsOn};
ghost use Rattle.cla_packed.specs.Files.{kind_of, kind_at};
ghost use Rattle.cla_pack_reader.specs.Places.{places_of, HasReadCause, Reads};

use crate::fields::field;
use cla_io::{Files, Input};
use cla_layout::Kind;
use cla_packed::{FieldName, PackFault};

// The kind with this number.
fn kind_numbered(number: u64) -> Kind
    requires least { 1 ≤ number }
    ensures { result ≡ kind_of number }
{
    match number {
        1 => Kind::Plain,
        2 => Kind::Codes,
        3 => Kind::Offsets,
        _ => Kind::Runs,
    }
}

/// The kind of a group.
pub(crate) fn read_kind<F: Files>(input: &mut Input<'_, F>, group: u32) -> Result<Kind, PackFault>
    ensures same_reference { input.new.files.ghost_name ≡ input.old.files.ghost_name }
    ensures frame { ReadsOn (F.state input.old.files.now) (F.state input.new.files.now) }
    ensures cause { HasReadCause (F.state input.old.files.now).read_faults (F.state input.new.files.now).read_faults
        result }
    ensures exact { let start = places_of input.old.taken (F.state input.old.files.now) in
        let end = places_of input.new.taken (F.state input.new.files.now) in
        Reads start end (λ kind. kind) result (kind_at group) }
{
    match field(input, 1, 1, 4, group, FieldName::Kind) {
        Ok(number) => Ok(kind_numbered(number)),
        Err(fault) => Err(fault),
    }
}
