//! Which rows are in the lists of tuples.

ghost use Rattle.std.specs.Prelude.{◌≡◌, length, not, is_some, if◌then◌else◌};
ghost use Rattle.std.specs.List.{position_or_len};
ghost use Rattle.cla_layout.specs.Listed.{numbered_rest};

use crate::bits::Marks;

/// The first row without a mark, if there is one.
pub(crate) fn first_unlisted(marks: &Marks) -> Option<u32>
    ensures { result ≡ numbered_rest (length marks.now) (position_or_len not marks.now) }
{
    for row in 0..marks.len() {
        if !marks.has(row) {
            return Some(row);
        }
    }
    None
}

/// Whether some row is in no list exactly where there is to be a rest.
pub(crate) fn is_covered(has_rest: bool, unlisted: Option<u32>) -> bool
    ensures { result ≡ (if has_rest then is_some unlisted else not (is_some unlisted)) }
{
    if has_rest {
        unlisted.is_some()
    } else {
        unlisted.is_none()
    }
}
