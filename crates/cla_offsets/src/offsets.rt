//! Groups that keep a list of offsets for each segment and tuple.

ghost use Rattle.std.specs.Prelude.{◌≡◌, length};
ghost use Rattle.cla_layout.specs.Groups.{IsGroup};

use crate::rows::OffsetRows;
use cla_group::Dictionary;
use cla_num::Number;
use std::rc::Rc;

/// A group with a rising list of row offsets for each tuple and each segment of 32,768 rows (Elgohary
/// et al., "Compressed Linear Algebra for Large-Scale Machine Learning", PVLDB 9(12), 2016, section 3,
/// offset-list encoding). An offset takes two bytes, and so does the start of a list. One tuple, the
/// rest, may have no lists: its rows are those that no list has. Groups with the same rows share them.
#[derive(Drop)]
pub struct Offsets<N: Number> {
    pub(crate) dictionary: Dictionary<N>,
    pub(crate) rows: Rc<OffsetRows>,
    ghost is: { IsGroup N.BITS dictionary.width rows.value.codes dictionary.tuples },
    ghost counted: { rows.value.tuples ≡ length dictionary.tuples },
}
