ghost use Rattle.std.specs.Prelude.{◌≡◌};

use firm_rounds::{PopPass, Queue};
use firm_rules::Ticket;
use std::alloc::Global;
use std::sync::Wait;

/// Solves the next round, if any, and returns its ticket.
pub fn solve_one<R: Wait>(
    rt: &R,
    alloc: Global,
    queue: &Queue,
    pass: &mut PopPass,
) -> Option<Ticket>
    requires { pass.old.queue ≡ queue.now.id }
{
    let job = queue.pop(rt, pass)?;
    let ticket = job.ticket();
    let _spent = job.finish(alloc);
    Some(ticket)
}
