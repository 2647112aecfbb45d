//! Some of a group's rows, with the tuples that they name.

ghost use Rattle.std.specs.Prelude.{◌<◌, ◌≤◌, ℕ, length, IfOk};
ghost use Rattle.cla_spec.specs.Matrix.{most_cells};
ghost use Rattle.cla_layout.specs.Groups.{code_of};
ghost use Rattle.cla_group.specs.KeptRows.{AreKeptRows};

use crate::dictionary::Dictionary;
use cla_num::{Memory, Number};
use cla_rows::{Renaming, renamed};
use std::alloc::Global;

/// Codes of rows, and the tuples that they name.
#[derive(Drop)]
pub struct KeptRows<N: Number> {
    /// The code of each row, numbered by first row.
    pub codes: Vec<u32>,

    /// The tuples, each of which some row has.
    pub dictionary: Dictionary<N>,
}

/// The rows that have these codes of a dictionary, without the tuples that none of them names. It costs
/// a pass over the rows, and a place for each tuple that there was.
pub fn keep_rows<N: Number>(
    alloc: Global,
    codes: &[u32],
    dictionary: &Dictionary<N>,
) -> Result<KeptRows<N>, Memory>
    requires below { (i : ℕ) → i < length codes.now → code_of codes.now i < length dictionary.now.tuples }
    requires some { 0 < length codes.now }
    requires few { length codes.now ≤ most_cells }
    ensures { IfOk result (λ kept. AreKeptRows N.BITS codes.now dictionary.now kept.codes.items kept.dictionary) }
{
    let Renaming { codes, order } = renamed(alloc, codes, dictionary.len())?;
    let dictionary = dictionary.reorder(alloc, &order)?;
    Ok(KeptRows { codes, dictionary })
}
