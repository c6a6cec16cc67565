//! Tenants that answer their lines once more, apart from the service, to tell how much each of their rounds took.

use crate::page::Page;
use firm_rules::{Command, Name};
use firm_table::Opening;
use firm_tenant::Tenant;
use firm_text::{Line, PLACES, line};
use std::alloc::{AllocError, Global};

/// The tenants that a service opens with, but none that a line admits.
#[derive(Drop)]
pub(crate) struct Replay {
    tenants: Vec<Replayed>,
}

// A tenant, and the lines of its rounds so far.
#[derive(Drop)]
struct Replayed {
    name: Name,
    tenant: Tenant,
    counts: Page,
}

impl Replay {
    /// The tenants before the first line, in the order of their places. Their rounds are found as in the service,
    /// or by searches alone.
    pub(crate) fn open(
        alloc: Global,
        opening: Opening<'_>,
        by_searches: bool,
    ) -> Result<Replay, AllocError> {
        let register = opening.register();
        let mut replay = Replay {
            tenants: Vec::new(alloc),
        };
        for place in 0..PLACES {
            if let Some(name) = register.entries()[place].tenant {
                if let Some(tenant) = opening.tenant_at(alloc, place)? {
                    replay.add(alloc, name, tenant, by_searches)?;
                }
            }
        }
        Ok(replay)
    }

    fn add(
        &mut self,
        alloc: Global,
        name: Name,
        mut tenant: Tenant,
        by_searches: bool,
    ) -> Result<(), AllocError> {
        if by_searches {
            tenant.allow_proposals(0);
        }
        self.tenants.push(Replayed {
            name,
            tenant,
            counts: Page::new(alloc),
        })?;
        Ok(())
    }

    /// Adds the tenants' replies to their lines of an input, which read alike under each heading. All other lines are
    /// skipped.
    pub(crate) fn play(&mut self, page: &mut Page, input: &[u8]) {
        for bytes in input.split(|byte| *byte == b'\n') {
            if let Line::For(name, command) = line(bytes) {
                self.answer(page, name, command);
            }
        }
    }

    fn answer(&mut self, page: &mut Page, name: Name, command: Command) {
        for replayed in self.tenants.iter_mut() {
            if replayed.name == name {
                return replayed.answer(page, command);
            }
        }
    }

    /// Adds a line for each round, tenant by tenant: the tenant's name, how many path searches the round made, how many
    /// looks they took, and how many its proposal took with its check.
    pub(crate) fn put_counts(&self, page: &mut Page) {
        for replayed in self.tenants.iter() {
            page.put_page(&replayed.counts);
        }
    }
}

impl Replayed {
    // Appends the reply to a command; a round's line is recorded.
    fn answer(&mut self, page: &mut Page, command: Command) {
        let reply = self.tenant.step(page.alloc, command);
        page.put_reply(self.name, &reply);
        if command == Command::Round {
            self.count_round();
        }
        page.put(b"\n");
    }

    // Keeps the line of the last round.
    fn count_round(&mut self) {
        let scratch = self.tenant.scratch();
        self.counts.put_name(self.name);
        self.counts.put_number(b" ", scratch.searches());
        self.counts.put_number(b" ", scratch.looks());
        self.counts.put_number(b" ", self.tenant.proposed());
        self.counts.put(b"\n");
    }
}
