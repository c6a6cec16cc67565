//! A tenant and its step.
ghost use Rattle.std.specs.Prelude.{◌≡◌, ◌+◌, ◌^◌, ◌<◌, ◌≤◌, true, IfOk};
ghost use Rattle.firm_rules.specs.Book.{opening_book};
ghost use Rattle.firm_rules.specs.SoundBook.{IsSoundBook};
ghost use Rattle.firm_tenant.specs.Counts.{HasCountedWithin};
ghost use Rattle.firm_tenant.specs.Step.{step, is_memory};

use crate::pools::Pool;
use firm_paths::Scratch;
use firm_rules::{
    Book, Command, Limits, Outcome, RecentCosts, Refusal, Reply, Rows,
    tasks_stay_where_they_may_stand, the_round_is_the_first,
};
use std::alloc::{AllocError, Global};
use std::marker::Model;

/// A tenant: its pool of machines with its jobs and tasks, the costs of its last rounds, and how many commands it was
/// given.
pub struct Tenant {
    pool: Box<Pool>,
    given: u64,
}

impl Drop for Tenant {
    // Written out, so that this crate proves once what each crate that drops a tenant would prove of all that it owns.
    fn drop(self) {
        let Self { pool, given: _ } = self;
        drop(pool);
    }
}

impl Model for Tenant {
    ghost use Rattle.std.specs.Prelude.{◌≤◌};
    ghost use Rattle.firm_rules.specs.Book.{Book as BookRow};
    ghost use Rattle.firm_rules.specs.SoundBook.{IsSoundBook};
    ghost use Rattle.firm_tenant.specs.Counts.{HasCountedWithin};
    ghost use Rattle.firm_tenant.specs.inner.Pools.{book_of};

    ghost Value = { BookRow };

    ghost view = { λ t. book_of t.pool.value t.given };

    ghost invariant = { λ t. IsSoundBook (book_of t.pool.value t.given) × (t.pool.value.asked ≤ t.given)
        × HasCountedWithin (book_of t.pool.value t.given) t.pool.value.workspace.net };
}

impl Tenant {
    /// A new tenant with these limits, empty and given no command yet. Fails only if memory is refused.
    pub fn admit(alloc: Global, limits: Limits) -> Result<Tenant, AllocError>
        ensures { IfOk result (λ tenant. tenant ≡ opening_book limits) }
    {
        let pool = Pool::open(alloc, limits)?;
        pool.cost_count();
        Ok(Tenant {
            pool: Box::new(alloc, pool)?,
            given: 0,
        })
    }

    /// The tenant of a book, with the memory that it takes at its admission and for its rows. Fails only if memory is
    /// refused.
    pub fn restore(alloc: Global, book: &Book) -> Result<Tenant, AllocError>
        ensures { IfOk result (λ tenant. tenant ≡ book.now) }
    {
        let given = book.given();
        let pool = Pool::restore(alloc, book)?;
        Ok(Tenant {
            pool: Box::new(alloc, pool)?,
            given,
        })
    }

    /// Answers a command. If memory for it is refused, the reply says so and only the count of commands grows. The
    /// allocator is for the step and for the list in its reply.
    pub fn step(&mut self, alloc: Global, command: Command) -> Reply
        ensures { (result, self.new) ≡ step self.old command (is_memory result) }
    {
        // Laws, by which the book stays sound.
        tasks_stay_where_they_may_stand();
        the_round_is_the_first();
        let life = self.limits().life();
        if life <= self.given {
            return Reply {
                number: life + 1,
                outcome: Outcome::Refused(Refusal::Worn),
            };
        }
        let outcome = self.pool.answer(alloc, command);
        self.pool.cost_count();
        self.given += 1;
        Reply {
            number: self.given,
            outcome,
        }
    }

    /// Refuses a round for lack of memory, as the allocator said: only the count of commands grows.
    pub fn no_memory(&mut self, error: AllocError) -> Reply
        requires life_left { self.old.given < self.old.rows.limits.life }
        ensures { (result, self.new) ≡ step self.old Command.Round true }
    {
        tasks_stay_where_they_may_stand();
        // Life is left, so the count still fits 64 bits.
        prove!(self.given < self.limits().life());
        let number = self.given + 1;
        self.given = number;
        Reply {
            number,
            outcome: Outcome::Refused(error.into()),
        }
    }

    /// The costs of the tenant's last rounds.
    pub fn costs(&self) -> RecentCosts
        ensures { result ≡ self.now.costs }
    {
        self.pool.recent_costs()
    }

    /// Number of commands that the tenant was given, at most its life.
    pub fn given(&self) -> u64
        ensures value { result ≡ self.now.given }
        ensures sound { IsSoundBook self.now }
    {
        self.given
    }

    /// Number of further commands that the tenant answers.
    pub fn life_left(&self) -> u64
        ensures { result + self.now.given ≡ self.now.rows.limits.life }
    {
        let life = self.limits().life();
        life - self.given
    }

    /// The tenant's limits.
    pub fn limits(&self) -> Limits
        ensures { result ≡ self.now.rows.limits }
    {
        self.pool.rows().limits()
    }

    /// Sets the number of looks that a round's proposal and its check may take, at most 2^26, the default of a new
    /// tenant. With 0 each round is found by searches in the net. No reply depends on it.
    pub fn allow_proposals(&mut self, looks: u64)
        ensures { self.new ≡ self.old }
    {
        self.pool.allow_proposals(looks);
    }

    /// The workspace of the searches of rounds, for a net of the tenant's limits: whatever commands were given, each
    /// began a count at most once, and the last count is of few searches, each with at most two looks for each arc.
    pub fn scratch(&self) -> &Scratch
        ensures limits { result.now.limits ≡ (self.now.rows.limits.nodes, self.now.rows.limits.arcs) }
        ensures counts { HasCountedWithin self.now result.now }
    {
        self.pool.scratch()
    }

    /// Number of looks that the last round's proposal and its check took.
    pub fn proposed(&self) -> u64
        ensures { result ≤ 2 ^ 26 }
    {
        self.pool.proposed()
    }

    /// The tenant's machines, jobs and tasks.
    pub fn rows(&self) -> &Rows
        ensures { result.now ≡ self.now.rows }
    {
        self.pool.rows()
    }
}
