//! What the size line says.

/// The numbers of rows and of columns, and how many entries follow.
#[derive(Clone, Copy, Debug, PartialEq, Eq)]
pub struct Size {
    pub rows: u32,
    pub cols: u32,
    pub entries: u32,
}
