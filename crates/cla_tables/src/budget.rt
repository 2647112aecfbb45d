//! The budget of tables.

ghost use Rattle.std.specs.Prelude.{◌≡◌, ◌+◌, ◌<◌, ◌^◌};
ghost use Rattle.cla_grouping.specs.Sizes.{plain_bytes};
ghost use Rattle.cla_grouping.specs.Grouping.{grouping_of, packed_size};
ghost use Rattle.cla_tables.specs.Budget.{Fits};

use cla_cocode::{OverBudget, layout, size, within};
use cla_num::{Dense, Number};
use std::alloc::Global;

/// Why a table isn't within a budget.
#[derive(Clone, Copy, Debug, PartialEq, Eq)]
pub enum BudgetFault {
    /// Its packed size is above the budget.
    Over(OverBudget),
    /// Memory was wanting.
    Memory,
}

/// Refuses a packed size above the budget, with both numbers.
pub(crate) fn fits(size: u64, budget: u64) -> Result<(), BudgetFault>
    ensures { Fits budget size result }
{
    match within(size, budget) {
        Ok(()) => Ok(()),
        Err(over) => Err(BudgetFault::Over(over)),
    }
}

/// Whether the cut of a matrix is within the budget. No cut takes more than one plain group, so the
/// columns are grouped only where that takes more.
pub(crate) fn text_fits<N: Number>(
    alloc: Global,
    m: &Dense<N>,
    budget: u64,
) -> Result<(), BudgetFault>
    ensures { Fits budget (packed_size (grouping_of m.now)) result }
{
    if plain_size(m) <= budget {
        return Ok(());
    }
    let Ok(cut) = layout(alloc, m) else {
        return Err(BudgetFault::Memory);
    };
    fits(size(&cut), budget)
}

// The bytes of a packed file of one plain group.
fn plain_size<N: Number>(m: &Dense<N>) -> u64
    ensures value { result ≡ 20 + plain_bytes m.now.rows m.now.cols }
    ensures small { result < 2 ^ 62 }
{
    let cells = m.cells().len() as u64;
    25 + 4 * m.cols() as u64 + 8 * cells
}
