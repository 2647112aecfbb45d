//! Codes of rows.

/// The code of each row, numbered by first row, and how many codes there are.
#[derive(Drop)]
pub struct Numbered {
    pub codes: Vec<u32>,
    pub distinct: u32,
}

/// A column whose rows so far are numbered by first row, through a table: the number of each place, the code of each
/// row, and how many codes there are.
#[derive(Drop)]
pub struct NumberedColumn {
    pub table: Vec<u32>,
    pub codes: Vec<u32>,
    pub distinct: u32,
}

/// A place of a table that has no number yet.
pub const NO_NUMBER: u32 = u32::MAX;

/// A table has at most this many places for each row.
pub const PLACES_A_ROW: u64 = 4;
