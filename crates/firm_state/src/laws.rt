//! Laws of states that are cut and joined, the contract of a function that does nothing.
ghost use Rattle.firm_state.specs.Laws.{CutTenantsGoOn, JoinedTenantsGoOn, ComingTenantsGoOn};

use firm_parts::books_are_kept;
use firm_table::saved_isolation;

/// Whatever becomes of a tenant's state, its replies go on as they would have: whether the state is cut to it, others
/// are joined to its own, or its own is joined to another.
pub fn tenants_go_on()
    ensures cut { CutTenantsGoOn }
    ensures joined { JoinedTenantsGoOn }
    ensures coming { ComingTenantsGoOn }
{
    books_are_kept();
    saved_isolation();
}
