//! Packed files, read and written: a table's, or that of a matrix by the rule that groups columns.
#![tactic(auto)]

mod laws;
mod pack;

pub use cla_pack_reader::{Packed, read_packed};
pub use cla_pack_writer::write_packed;
pub use cla_packed::{FieldName, PackFault};
pub use laws::{
    canonical_columns_are_partitioned, canonical_layouts_are_by, canonical_parts_are_by,
    layouts_by_are_canonical, one_layout_by_rule, read_tables_have_rests,
};
pub use pack::pack_matrix;
