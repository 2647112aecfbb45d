//! The kinds of groups.

ghost use Rattle.std.specs.Prelude.{◌≡◌};
ghost use Rattle.cla_layout.specs.Kinds.{kind_number};

/// How a group is kept: as plain rows, as one code per row, as lists of row offsets, or as runs of
/// rows. The numbers are those of packed files.
#[derive(Clone, Copy, Debug, PartialEq, Eq)]
pub enum Kind {
    Plain = 1,
    Codes = 2,
    Offsets = 3,
    Runs = 4,
}

impl Kind {
    /// The number of the kind in packed files.
    pub fn number(self) -> u8
        ensures { result ≡ kind_number self }
    {
        self as u8
    }
}
