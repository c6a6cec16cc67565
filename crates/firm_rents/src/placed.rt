//! The places where the tasks run, as a placement.
ghost use Rattle.std.specs.Prelude.{◌≡◌, IfOk};
ghost use Rattle.firm_rents.specs.Placed.{placement_of, IsTheirPlacement};

use firm_rules::{Choice, Rows, legality_is_judged};
use std::alloc::{AllocError, Global};

/// The machine of each task, as a placement: for rows left by a round, the placement of that round. Fails only if
/// memory is refused.
pub fn placement_of(alloc: Global, rows: &Rows) -> Result<Vec<Choice>, AllocError>
    ensures placement { IfOk result (λ placement. placement.items ≡ placement_of rows.now) }
    ensures round { IfOk result (λ placement. IsTheirPlacement rows.now placement.items) }
{
    legality_is_judged();
    let case = rows.case();
    let mut placement = Vec::with_capacity(alloc, case.task_count())?;
    for task in 0..case.task_count() {
        placement.push(case.home(task))?;
    }
    Ok(placement)
}
