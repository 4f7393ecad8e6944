//! How much one call may serve, as C describes it.

ghost use Rattle.std.specs.Prelude.{◌≡◌};
ghost use Rattle.chain.specs.Budget.{IsSpent};
ghost use Rattle.c_values.specs.Limits.{budget_by};

use chain::Budget;

/// A budget of so many chains, and of so many bytes; 0 is no limit.
pub fn budget(chains: u32, bytes: u64) -> Budget
    ensures value { result ≡ budget_by chains bytes }
    ensures lasts { ¬ IsSpent result }
{
    Budget {
        chains: if chains == 0 { None } else { Some(chains) },
        bytes: if bytes == 0 { None } else { Some(bytes) },
    }
}
