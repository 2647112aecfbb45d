//! The laws of packed files, whoever reads and writes them: a law stands on a function with an empty
//! body, whose contract it is.
#![tactic(auto)]

ghost use Rattle.cla_packed_laws.specs.Laws.{WrittenIsRead, ReadIsWritten};
ghost use Rattle.cla_packed_laws.specs.Laws.{EncodedHasNoBadField, OneLayoutIsEncoded, LayoutsAreFixed};

/// What is written is read as itself.
pub fn written_is_read()
    ensures { WrittenIsRead }
{}

/// What is read is a canonical layout, and is written again byte for byte.
pub fn read_is_written()
    ensures { ReadIsWritten }
{}

/// The encoding of a canonical layout has no bad field.
pub fn encoded_has_no_bad_field()
    ensures { EncodedHasNoBadField }
{}

/// A file without a bad field encodes exactly one canonical layout with its kinds.
pub fn one_layout_is_encoded()
    ensures { OneLayoutIsEncoded }
{}

/// A canonical layout, and so its file, is fixed by its matrix, the columns of its groups and their
/// kinds.
pub fn layouts_are_fixed()
    ensures { LayoutsAreFixed }
{}
