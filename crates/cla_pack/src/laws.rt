//! The laws of the layouts of matrices by columns and kinds: a law stands on a function with an empty
//! body, whose contract it is.

ghost use Rattle.cla_pack.specs.Laws.{LayoutsByAreCanonical, CanonicalLayoutsAreBy, CanonicalPartsAreBy};
ghost use Rattle.cla_pack.specs.Laws.{CanonicalColumnsArePartitioned, OneLayoutByRule};
ghost use Rattle.cla_pack_reader.specs.Kept.{HaveTheirForms};
ghost use Rattle.cla_pack_writer.specs.Groups.{HaveTheirRests};

use cla_coded::Coded;
use cla_num::Number;

/// Parted columns of a matrix, in any kinds, have a canonical layout, which is computed from the matrix.
pub fn layouts_by_are_canonical()
    ensures { LayoutsByAreCanonical }
{}

/// Each canonical layout is that of its matrix by its columns and kinds.
pub fn canonical_layouts_are_by()
    ensures { CanonicalLayoutsAreBy }
{}

/// So is each part: its codes and tuples are those of its columns in its kind.
pub fn canonical_parts_are_by()
    ensures { CanonicalPartsAreBy }
{}

/// The columns of a canonical layout are parted, and stand in the order of their first columns.
pub fn canonical_columns_are_partitioned()
    ensures { CanonicalColumnsArePartitioned }
{}

/// The layout of a matrix by the rule is canonical, and the only one with its columns and kinds.
pub fn one_layout_by_rule()
    ensures { OneLayoutByRule }
{}

/// What `read_packed` gives can be written again: its groups are kept with the rests that `write_packed` asks
/// for.
pub fn read_tables_have_rests<N: Number>(table: &Coded<N>)
    ensures { HaveTheirForms table.now.parts → HaveTheirRests table.now }
{}
