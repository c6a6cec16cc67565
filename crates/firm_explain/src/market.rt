//! A round whose placement is shown to be least.

ghost use Rattle.std.specs.Prelude.{◌≡◌, ◌+◌, ◌<◌, true, length};
ghost use Rattle.firm_rules.specs.Placement.{is_legal, placement_cost};
ghost use Rattle.firm_rents.specs.Rents.{AreRents, CostsAtLeast, IsBelow, Show, rent};
ghost use Rattle.firm_rules.specs.Placement.{choice_at, task_at};
ghost use Rattle.firm_rents.specs.TwoTables.{more_by_both};

use crate::numbers::number_of;
use firm_rents::{Rents, Shown, excess, high_rents, low_rents, shows_least};
use firm_rules::{Case, Choice, Rows, legality_is_judged};
use std::alloc::{AllocError, Global};

/// A round: the rows after it, what it is about, its placement, the lowest and the highest rents that show it to be
/// least, and how they do.
#[derive(Drop)]
pub(crate) struct Market<'a> {
    pub(crate) rows: &'a Rows,
    pub(crate) case: &'a Case,
    pub(crate) placement: &'a [Choice],
    pub(crate) low: Rents,
    pub(crate) high: Rents,
    pub(crate) by_low: Shown,
    pub(crate) by_high: Shown,
    ghost legal: { is_legal case.now placement.now ≡ true },
    ghost low_fits: { AreRents (length case.now.slots) low },
    ghost high_fits: { AreRents (length case.now.slots) high },
    ghost shown_by_low: { Show case.now low placement.now },
    ghost shown_by_high: { Show case.now high placement.now },
    ghost in_order: { IsBelow low high },
    ghost cost: { by_low.cost ≡ placement_cost case.now placement.now },
}

impl<'a> Market<'a> {
    /// The round; `None` if the placement is not legal or the rents don't show it.
    pub(crate) fn of(
        alloc: Global,
        rows: &'a Rows,
        case: &'a Case,
        placement: &'a [Choice],
    ) -> Result<Option<Market<'a>>, AllocError> {
        if !case.is_legal(placement) {
            return Ok(None);
        }
        let low = low_rents(alloc, case, placement)?;
        let high = high_rents(alloc, case, placement)?;
        let by_low = shows_least(case, &low, placement);
        let by_high = shows_least(case, &high, placement);
        if !by_low.least || !by_high.least {
            return Ok(None);
        }
        Ok(Some(Market {
            rows,
            case,
            placement,
            low,
            high,
            by_low,
            by_high,
        }))
    }

    /// The place of waiting, after those of the machines.
    pub(crate) fn waiting(&self) -> u32 {
        number_of(self.case.machine_count())
    }

    /// The choice of a task.
    pub(crate) fn choice_of(&self, task: usize) -> Choice
        ensures { result ≡ choice_at self.now.placement.now task }
    {
        self.placement.get(task).copied().unwrap_or(Choice::Wait)
    }

    /// Whether the task changes or waits.
    pub(crate) fn has_line(&self, task: usize) -> bool
        requires { task < length self.now.case.now.tasks }
    {
        let choice = self.choice_of(task);
        choice == Choice::Wait || choice != self.case.home(task)
    }

    /// Whether the task waited before the round and goes on waiting.
    pub(crate) fn is_waiting(&self, task: usize) -> bool
        requires { task < length self.now.case.now.tasks }
    {
        self.choice_of(task) == Choice::Wait && self.case.home(task) == Choice::Wait
    }

    /// The high rent of the task's machine, less the low one; 0 for a task that waits.
    pub(crate) fn gap_of(&self, task: usize) -> u64
        ensures { rent self.now.low (choice_at self.now.placement.now task) + result
            ≡ rent self.now.high (choice_at self.now.placement.now task) }
    {
        let choice = self.choice_of(task);
        self.high.of_choice(choice) - self.low.of_choice(choice)
    }

    /// The least excess of every legal placement in which the task has this choice: the greater number of the
    /// two tables.
    pub(crate) fn more(&self, task: usize, other: Choice) -> u64
        requires task { task < length self.now.case.now.tasks }
        ensures more { result ≡ more_by_both self.now.case.now self.now.low self.now.high
            (task_at self.now.case.now task) (choice_at self.now.placement.now task) other }
        ensures costs { CostsAtLeast self.now.case.now self.now.placement.now task other result }
    {
        legality_is_judged();
        let chosen = self.choice_of(task);
        let by_low = excess(self.case, &self.low, task, chosen, other);
        let by_high = excess(self.case, &self.high, task, chosen, other);
        by_low.max(by_high)
    }
}
