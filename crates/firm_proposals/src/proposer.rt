//! The proposer of rounds.
ghost use Rattle.std.specs.Prelude.{◌≡◌, ◌+◌, ◌^◌, ◌<◌, ◌≤◌, false, length, IfOk, IsTrue};
ghost use Rattle.firm_levels.specs.Work.{GoesOn};
ghost use Rattle.firm_proposals.specs.Proposed.{nothing_proposed, IsInForm};

use crate::cost_phase::CostPhase;
use crate::index::Cost;
use crate::memory::Memory;
use crate::order_phase::OrderPhase;
use crate::proposal::Proposal;
use crate::round::Round;
use firm_levels::{LevelRents, Work};
use firm_rules::{Case, Choice, Limits};
use std::alloc::{AllocError, Global};
use std::marker::Model;

/// Tables in which rounds are proposed. They are as large as a tenant's limits ask, and take no memory after that.
pub struct Proposer {
    limits: Limits,
    round: Round,
    cost_phase: CostPhase,
    order_phase: OrderPhase,
    proposal: Proposal,
    // How often a round was to be proposed.
    tries: u64,
}

impl Drop for Proposer {
    // Written out so that who owns a proposer has one call where it is dropped, and not one for each of its tables.
    fn drop(self) {
        let Proposer {
            limits: _,
            round,
            cost_phase,
            order_phase,
            proposal,
            tries: _,
        } = self;
        drop(round);
        drop(cost_phase);
        drop(order_phase);
        drop(proposal);
    }
}

impl Model for Proposer {
    ghost use Rattle.firm_proposals.specs.Proposed.{Proposed};

    ghost Value = { Proposed };

    ghost view = { λ p. record {
      limits = p.limits;
      placement = p.proposal.placement.items;
      amounts = p.proposal.rents.amounts.items;
      places = p.proposal.rents.places.items;
      classes = p.proposal.rents.classes.items;
      hub_price = p.proposal.hub_price;
      tries = p.tries;
    } };
}

impl Proposer {
    /// Tables for tenants within these limits, and no proposal. Fails only if memory is refused.
    pub fn new(alloc: Global, limits: Limits) -> Result<Proposer, AllocError>
        ensures { IfOk result (λ proposer. proposer ≡ nothing_proposed limits) }
    {
        // The hub and the outside are places beside the machines.
        let nodes = (limits.nodes() as usize).saturating_add(2);
        let arcs = limits.arcs() as usize;
        let mut memory = Memory::new(alloc);
        let proposer = Proposer {
            limits,
            round: Round::new(&mut memory, nodes, arcs),
            cost_phase: CostPhase::new(&mut memory, nodes),
            order_phase: OrderPhase::new(&mut memory, nodes, arcs),
            proposal: Proposal::new(&mut memory, nodes),
            tries: 0,
        };
        memory.was_enough()?;
        Ok(proposer)
    }

    /// Proposes a placement and rents in levels for a round, within the work that is left, and counts itself and at
    /// least a look at each task and machine. May try `hint` as the price of going to any machine, as `hub_price` gave
    /// it for the round before. Where the answer is no, nothing is proposed; where it is yes, `shows_first` judges what
    /// is.
    pub fn propose(&mut self, case: &Case, hint: Option<u32>, work: &mut Work) -> bool
        ensures work { GoesOn work.old work.new }
        ensures limits { self.new.limits ≡ self.old.limits }
        ensures form { IsTrue result → IsInForm case.now self.new }
        ensures kept { result ≡ false → self.new.hub_price ≡ self.old.hub_price }
        ensures looks { work.old.looks + (length case.now.tasks + length case.now.slots) ≤ work.old.most.1
            → work.old.looks + (length case.now.tasks + length case.now.slots) ≤ work.new.looks }
        ensures read { IsTrue result
            → work.old.looks + (length case.now.tasks + length case.now.slots) ≤ work.new.looks }
        ensures tried { self.old.tries + 1 < 2 ^ 64 → self.new.tries ≡ self.old.tries + 1 }
        ensures once { self.new.tries ≤ self.old.tries + 1 }
    {
        self.tries = self.tries.saturating_add(1);
        if !self.round.read(case, work) {
            return false;
        }
        self.cost_phase.find(&mut self.round, hint.map(Cost), work);
        if work.is_short() || !self.order_phase.choose(&mut self.round, work) {
            return false;
        }
        if !self.counts_writing(work) {
            return false;
        }
        let written = self.proposal.write(case, &self.round, &self.order_phase);
        written.is_ok()
    }

    // Counts what a proposal writes, and says whether the work that is left allows it.
    fn counts_writing(&self, work: &mut Work) -> bool
        ensures work { GoesOn work.old work.new }
    {
        let classes = self.order_phase.classes().count();
        let places = self.round.places().saturating_mul(2);
        let entries = self.round.tasks().saturating_add(places);
        work.pass(entries.saturating_add(classes));
        !work.is_short()
    }

    /// The rents of the last proposal; none before the first.
    pub fn rents(&self) -> &LevelRents
        ensures amounts { result.now.amounts.items ≡ self.now.amounts }
        ensures places { result.now.places.items ≡ self.now.places }
        ensures classes { result.now.classes.items ≡ self.now.classes }
    {
        &self.proposal.rents
    }

    /// The placement of the last proposal; empty before the first.
    pub fn placement(&self) -> &[Choice]
        ensures { result.now ≡ self.now.placement }
    {
        self.proposal.placement.as_slice()
    }

    /// The price at which tasks went to any machine in the last proposal, in units of cost; none before the first.
    pub fn hub_price(&self) -> Option<u32>
        ensures { result ≡ self.now.hub_price }
    {
        self.proposal.hub_price
    }
}
