//! Rounds that are proposed and shown, without searches in the net.
ghost use Rattle.std.specs.Prelude.{◌≡◌, ◌+◌, ◌*◌, ◌^◌, ◌≤◌, length, min, IfOk, IfSome, IsTrue};
ghost use Rattle.firm_levels.specs.Work.{GoesOn};
ghost use Rattle.firm_rules.specs.Round.{IsRound};

use firm_levels::{Allowance, Work};
use firm_proposals::Proposer;
use firm_rents::shows_first;
use firm_rules::{Case, Choice, Limits};
use std::alloc::{AllocError, Global};

/// The most looks that a proposal and its check may take.
const MOST_LOOKS: u64 = 1 << 26;

/// The proposer of rounds, the work of the last round's proposal and its check, and the looks allowed for both.
#[derive(Drop)]
pub(crate) struct Proposals {
    proposer: Box<Proposer>,
    work: Work,
    allowed: u64,
}

impl Proposals {
    /// A proposer of rounds within these limits, with `MOST_LOOKS` allowed. Fails only if memory is refused.
    pub(crate) fn open(alloc: Global, limits: Limits) -> Result<Proposals, AllocError>
        ensures tries { IfOk result (λ made. made.proposer.value.tries ≡ 0) }
        ensures looks { IfOk result (λ made. made.work.looks ≡ 0) }
        ensures allowed { IfOk result (λ made. made.allowed ≡ 2 ^ 26) }
    {
        let proposer = Proposer::new(alloc, limits)?;
        Ok(Proposals {
            proposer: Box::new(alloc, proposer)?,
            work: work_of(0),
            allowed: MOST_LOOKS,
        })
    }

    /// Sets how many looks a proposal and its check may take, `MOST_LOOKS` at most. With 0 no round is proposed.
    pub(crate) fn allow(&mut self, looks: u64)
        ensures { self.new ≡ record self.old { allowed = min looks (2 ^ 26) } }
    {
        self.allowed = looks.min(MOST_LOOKS);
    }

    /// The looks of the last round's proposal and its check.
    pub(crate) fn looks(&self) -> u64
        ensures { result ≡ self.now.work.looks }
    {
        self.work.looks()
    }

    /// The round's placement, if one is proposed and shown to be the round's within the allowed looks. Counts
    /// from 0 the looks that both take, and makes one try at most. Fails only if memory for the list is refused.
    pub(crate) fn first(
        &mut self,
        alloc: Global,
        case: &Case,
    ) -> Result<Option<Vec<Choice>>, AllocError>
        ensures round { IfOk result (λ first. IfSome first (λ placement. IsRound case.now placement.items)) }
        ensures allowed { self.new.allowed ≡ self.old.allowed }
        ensures tries { self.new.proposer.value.tries ≤ self.old.proposer.value.tries + 1 }
        ensures most { self.new.work.looks ≤ self.old.allowed }
        ensures looks { length case.now.tasks + length case.now.slots ≤ self.old.allowed
            → length case.now.tasks + length case.now.slots ≤ self.new.work.looks }
        ensures shown { IfOk result (λ first. IfSome first (λ _.
            2 * (length case.now.tasks + length case.now.slots) ≤ self.new.work.looks)) }
    {
        self.work = work_of(self.allowed);
        if self.allowed == 0 || !self.proposes_first(case) {
            return Ok(None);
        }
        Ok(Some(Vec::from_slice(alloc, self.proposer.placement())?))
    }

    // Whether a placement is proposed, and shown to be the round's.
    fn proposes_first(&mut self, case: &Case) -> bool
        requires { self.old.work.looks ≡ 0 }
        ensures round { IsTrue result → IsRound case.now self.new.proposer.value.placement }
        ensures allowed { self.new.allowed ≡ self.old.allowed }
        ensures tries { self.new.proposer.value.tries ≤ self.old.proposer.value.tries + 1 }
        ensures most { self.new.work.looks ≤ self.old.work.most.1 }
        ensures looks { length case.now.tasks + length case.now.slots ≤ self.old.work.most.1
            → length case.now.tasks + length case.now.slots ≤ self.new.work.looks }
        ensures shown { IsTrue result
            → 2 * (length case.now.tasks + length case.now.slots) ≤ self.new.work.looks }
    {
        let hint = self.proposer.hub_price();
        let is_first = self.proposer.propose(case, hint, &mut self.work)
            && shows_first(
                case,
                self.proposer.rents(),
                self.proposer.placement(),
                &mut self.work,
            );
        let _within = self.work.looks();
        is_first
    }
}

// Work of which nothing is done yet.
fn work_of(looks: u64) -> Work
    ensures most { result.most.1 ≡ looks }
    ensures none { result.looks ≡ 0 }
{
    Work::new(Allowance {
        searches: looks,
        looks,
    })
}
