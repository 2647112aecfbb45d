//! Tables in the form that their files have.

use cla_num::{Dense, Number};
use cla_pack_reader::Packed;

/// A table as it was read: the matrix of a text, or the groups of a packed file.
#[derive(Drop)]
pub(crate) enum Kept<N: Number> {
    Text(Dense<N>),
    Packed(Packed<N>),
}
