//! The budget of packed tables.

ghost use Rattle.std.specs.Prelude.{◌≡◌, ◌<◌, ◌↔◌, IfErr, IsErr};

/// A table that needs more bytes than the budget has.
#[derive(Clone, Copy, Debug, PartialEq, Eq)]
pub struct OverBudget {
    pub needed: u64,
    pub budget: u64,
}

/// Refuses a size above the budget, with both numbers.
pub fn within(needed: u64, budget: u64) -> Result<(), OverBudget>
    ensures cause { IsErr result ↔ (budget < needed) }
    ensures numbers { IfErr result (λ e. e ≡ record { needed = needed; budget = budget }) }
{
    if needed > budget {
        Err(OverBudget { needed, budget })
    } else {
        Ok(())
    }
}
