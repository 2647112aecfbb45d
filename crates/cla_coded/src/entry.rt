//! Entries of layouts.

ghost use Rattle.std.specs.Prelude.{◌≡◌, ◌<◌, length, true, false, MatchOption};
ghost use Rattle.cla_layout.specs.Layouts.{HasCell, IsPart, entry_in, has_column, value_in};
ghost use Rattle.cla_coded.specs.Parts.{part_of, parts_of};

use crate::part::Part;
use cla_group::Group;
use cla_num::Number;

/// The entry in row i and column j of a whole layout.
pub(crate) fn entry_in<N: Number, G: Group<N>>(parts: &[Part<G>], i: u32, j: u32) -> N
    requires { HasCell N.BITS (parts_of G.codes G.dictionary parts.now) i j }
    ensures { N.value result ≡ entry_in (parts_of G.codes G.dictionary parts.now) i j }
{
    for part in parts {
        if let Some(value) = value_in(part, i, j) {
            return value;
        }
    }
    unreachable!("each column is in a part")
}

// The value in row i and column j of the table, if the part has the column.
fn value_in<N: Number, G: Group<N>>(part: &Part<G>, i: u32, j: u32) -> Option<N>
    requires part { IsPart N.BITS (length (G.codes part.now.group)) (part_of G.codes G.dictionary part.now) }
    requires row { i < length (G.codes part.now.group) }
    ensures { let p = part_of G.codes G.dictionary part.now in
        MatchOption result (has_column p j ≡ false) (λ n. (has_column p j ≡ true) × (N.value n ≡ value_in p i j)) }
{
    match part.columns.binary_search(&j) {
        Ok(place) => Some(part.group.value(part.group.code_at(i), place as u32)),
        Err(_) => None,
    }
}
