//! The machine that costs a task least more, by the low and the high rents of a round together.
ghost use Rattle.std.specs.Prelude.{◌≡◌, ◌+◌, ◌<◌, length, IfOk};
ghost use Rattle.firm_rules.specs.declared.rounds.Choice.TheVariants.{On};
ghost use Rattle.firm_rents.specs.Rents.{rent};
ghost use Rattle.firm_rules.specs.Placement.{task_at, home_choice};
ghost use Rattle.firm_rents.specs.TwoTables.{more_by_both, AreAtGap};
ghost use Rattle.firm_rents.specs.Lowest.{IsLowest};

use crate::choices::cheapest_other;
use crate::rents::Rents;
use firm_rules::{Case, Choice};
use std::alloc::{AllocError, Global};

/// Finds the best other machine of each task whose own machine has this gap between its low and its high rent; for a
/// task that waits, the gap is 0. All such tasks weigh the other machines alike, apart from what the machines cost
/// them.
#[derive(Drop)]
pub struct Nearest<'a> {
    low: &'a Rents,
    high: &'a Rents,
    gap: u64,
    greater: Rents,
    ghost at_gap: { AreAtGap low.now high.now gap greater },
}

impl<'a> Nearest<'a> {
    /// Prepares for this gap, in one pass over the machines. Fails only if memory is refused.
    pub fn new(
        alloc: Global,
        low: &'a Rents,
        high: &'a Rents,
        gap: u64,
    ) -> Result<Nearest<'a>, AllocError>
        requires { length low.now ≡ length high.now }
        ensures low { IfOk result (λ nearest. nearest.low.now ≡ low.now) }
        ensures high { IfOk result (λ nearest. nearest.high.now ≡ high.now) }
        ensures gap { IfOk result (λ nearest. nearest.gap ≡ gap) }
    {
        let table = greater_at(alloc, low.as_slice(), high.as_slice(), gap)?;
        Ok(Nearest {
            low,
            high,
            gap,
            greater: Rents::of(table),
        })
    }

    /// The gap.
    pub fn gap(&self) -> u64
        ensures { result ≡ self.now.gap }
    {
        self.gap
    }

    /// A machine that costs the task least more, apart from the task's choice and its own machine; `Wait` if there is
    /// no such machine.
    pub fn machine(&self, case: &Case, task: usize, chosen: Choice) -> Choice
        requires task { task < length case.now.tasks }
        requires one_each { length self.now.low.now ≡ length case.now.slots }
        ensures nearest { rent self.now.low.now chosen + self.now.gap ≡ rent self.now.high.now chosen
            → IsLowest (λ j. more_by_both case.now self.now.low.now self.now.high.now (task_at case.now task)
            chosen (On j)) (length case.now.slots) chosen (home_choice (task_at case.now task).home) result }
    {
        cheapest_other(case, &self.greater, task, chosen, case.home(task))
    }
}

// For each machine the low rent, or the high one less the gap, whichever is greater.
fn greater_at(alloc: Global, low: &[u64], high: &[u64], gap: u64) -> Result<Vec<u64>, AllocError>
    requires { length low.now ≡ length high.now }
    ensures { IfOk result (λ table. AreAtGap low.now high.now gap table.items) }
{
    let mut table = Vec::from_slice(alloc, low)?;
    for place in 0..table.len() {
        table[place] = low[place].max(high[place].saturating_sub(gap));
    }
    Ok(table)
}
