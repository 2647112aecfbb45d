//! What the banner says.

/// Whether each entry comes with its cell, or all entries come column by column.
#[derive(Clone, Copy, Debug, PartialEq, Eq)]
pub enum Format {
    Coordinate,
    Array,
}

/// Whether entries have values. An entry of a pattern has the value 1.
#[derive(Clone, Copy, Debug, PartialEq, Eq)]
pub enum Field {
    Integer,
    Pattern,
}

/// Which entries an entry below the diagonal stands for.
#[derive(Clone, Copy, Debug, PartialEq, Eq)]
pub enum Symmetry {
    General,
    Symmetric,
    SkewSymmetric,
}

/// The banner of a text.
#[derive(Clone, Copy, Debug, PartialEq, Eq)]
pub struct Banner {
    pub format: Format,
    pub field: Field,
    pub symmetry: Symmetry,
}
