//! The names that were assigned.

ghost use Rattle.std.specs.Prelude.{◌≡◌};
ghost use Rattle.cla_check.specs.Shapes.{name_shape};
ghost use Rattle.cla_check.specs.Names.{names_of};

use crate::shape::ValueShape;
use cla_num::Name;

/// A name and the shape of a value that it was given.
#[derive(Clone, Copy, Drop)]
pub struct Assigned<'a> {
    pub name: &'a Name,
    pub shape: ValueShape,
}

/// The shape of the name's last value. Its time grows with the number of assignments.
pub fn name_shape(names: &[Assigned], name: &Name) -> Option<ValueShape>
    ensures { result ≡ name_shape (names_of names.entry.now) name.now }
{
    let mut held = None;
    for entry in names {
        if entry.name == name {
            held = Some(entry.shape);
        }
    }
    held
}
