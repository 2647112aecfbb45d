//! The names of tables.

ghost use Rattle.std.specs.Prelude.{◌≡◌};
ghost use Rattle.std.specs.Option.{option_map};
ghost use Rattle.cla_cli.specs.Statements.{matrix_of};

use crate::table::Table;
use cla_num::{Name, Number};
use std::marker::Model;

/// A name and a table that it was given. Contracts see the name's bytes and the matrix.
#[derive(Drop)]
pub(crate) struct Assigned<'a, N: Number> {
    name: &'a Name,
    table: &'a Table<N>,
}

impl<'a, N: Number> Model for Assigned<'a, N> {
    ghost use Rattle.std.specs.Prelude.{List, ℕ};
    ghost use Rattle.cla_spec.specs.Matrix.{Matrix};

    ghost Value = { List ℕ × Matrix };

    ghost view = { λ a. (a.name.now, a.table.now) };
}

impl<'a, N: Number> Assigned<'a, N> {
    /// The name with this table.
    pub(crate) fn new(name: &'a Name, table: &'a Table<N>) -> Assigned<'a, N>
        ensures { result ≡ (name.now, table.now) }
    {
        Assigned { name, table }
    }
}

/// The table that the name was given last. Its time grows with the number of names.
pub(crate) fn table_of<'a, N: Number>(
    names: &[Assigned<'a, N>],
    name: &Name,
) -> Option<&'a Table<N>>
    ensures { option_map (λ t. t.now) result ≡ matrix_of names.now name.now }
{
    let mut held = None;
    for entry in names {
        if entry.name == name {
            held = Some(entry.table);
        }
    }
    held
}
