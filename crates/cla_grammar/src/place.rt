//! Where something stands in a script.

/// A place in a script: its line and its column, counted in bytes from 1.
#[derive(Clone, Copy, Debug, PartialEq, Eq)]
pub struct Place {
    pub line: u32,
    pub col: u32,
}
