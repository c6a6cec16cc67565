ghost use Rattle.std.specs.Prelude.{◌≡◌, ◌≤◌, true, IfOk, IsTrue, List};
ghost use Rattle.firm_rules.specs.declared.rounds.Choice.{Choice as ChoiceOf};
ghost use Rattle.firm_rules.specs.Placement.{IsLegal, is_legal, placement_cost};

use firm_rents::{low_rents, shows_least};
use firm_rules::{Case, Choice};
use std::alloc::{AllocError, Global};

/// Whether the low rents show that no legal placement costs less than this legal one.
pub fn is_least(alloc: Global, case: &Case, placement: &[Choice]) -> Result<bool, AllocError>
    requires { is_legal case.now placement.now ≡ true }
    ensures { IfOk result (λ shown. IsTrue shown → (other : List ChoiceOf) → IsLegal case.now other
        → placement_cost case.now placement.now ≤ placement_cost case.now other) }
{
    let rents = low_rents(alloc, case, placement)?;
    Ok(shows_least(case, &rents, placement).least)
}
