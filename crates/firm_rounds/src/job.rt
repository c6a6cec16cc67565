//! A round to be solved.
ghost use Rattle.std.specs.Prelude.{◌≡◌};

use crate::protocol::JobParts;
use firm_rules::{Command, Ticket};
use firm_tenant::Tenant;
use firm_tray::{AnswerSide, Solved, Spent};
use std::alloc::Global;
use std::marker::Model;

/// A tenant on its way to a worker, with its ticket and the side on which it comes back. It is not `Drop`, so it must
/// be spent, by `Queue::put` or by `finish`.
pub struct Job {
    parts: JobParts,
}

impl Model for Job {
    ghost use Rattle.std.specs.Prelude.{◌≡◌};
    ghost use Rattle.firm_rounds.specs.Passes.{JobIs};

    ghost Value = { JobIs };

    ghost view = { λ j. record { ticket = j.parts.ticket; side = j.parts.side } };
}

impl Job {
    /// The round of this ticket. The side must have been opened for this tenant.
    pub fn new(ticket: Ticket, tenant: Tenant, side: AnswerSide) -> Job
        requires { side.book ≡ tenant }
        ensures { (result.ticket ≡ ticket) × (result.side ≡ side) }
    {
        Job {
            parts: JobParts {
                ticket,
                tenant,
                side,
            },
        }
    }

    /// The tenant's place and the number of its round.
    pub fn ticket(&self) -> Ticket
        ensures { result ≡ self.now.ticket }
    {
        self.parts.ticket
    }

    /// Solves the round and answers its tray. The allocator is for the round and for the list in the reply.
    pub fn finish(self, alloc: Global) -> Spent
        ensures { result ≡ self.side }
    {
        let JobParts {
            ticket: _,
            mut tenant,
            side,
        } = self.into_parts();
        let reply = tenant.step(alloc, Command::Round);
        side.answer(Solved { tenant, reply })
    }

    pub(crate) fn into_parts(self) -> JobParts
        ensures { (result.ticket ≡ self.ticket) × (result.side ≡ self.side) }
    {
        let Job { parts } = self;
        parts
    }

    pub(crate) fn of_parts(parts: JobParts) -> Job
        ensures { (result.ticket ≡ parts.ticket) × (result.side ≡ parts.side) }
    {
        Job { parts }
    }
}

/// Solves the rounds that are left and answers their trays, as where no worker takes them any more.
pub fn finish_all(alloc: Global, mut jobs: Vec<Job>) {
    while let Some(job) = jobs.pop() {
        let _spent = job.finish(alloc);
    }
    jobs.destroy_empty();
}
