//! Parts of tables.

/// A group, and the column of the table that stands in each place of its tuples. The columns rise,
/// and are as many as the group's width.
#[derive(Drop)]
pub struct Part<G> {
    pub columns: Vec<u32>,
    pub group: G,
}
