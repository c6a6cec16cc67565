//! A round's proposal.
ghost use Rattle.std.specs.Prelude.{◌≡◌, length, IfOk, OnErr};
ghost use Rattle.firm_proposals.specs.inner.Written.{IsEmpty, IsWritten};

use crate::classes::max_classes;
use crate::index::{Place, Task};
use crate::memory::Memory;
use crate::order_phase::OrderPhase;
use crate::round::Round;
use firm_levels::LevelRents;
use firm_rules::{Case, Choice};
use std::alloc::AllocError;

/// A placement, rents in levels that are to show it, and the price at which tasks went to any machine.
#[derive(Drop)]
pub(crate) struct Proposal {
    pub(crate) placement: Vec<Choice>,
    pub(crate) rents: LevelRents,
    pub(crate) hub_price: Option<u32>,
}

impl Proposal {
    /// Nothing proposed, with room for this many tasks and machines together.
    pub(crate) fn new(memory: &mut Memory, nodes: usize) -> Proposal
        ensures { IsEmpty result }
    {
        Proposal {
            placement: memory.room(nodes),
            rents: LevelRents {
                amounts: memory.room(nodes),
                places: memory.room(nodes),
                classes: memory.room(max_classes(nodes)),
            },
            hub_price: None,
        }
    }

    /// Writes down what was chosen. Fails only if memory is refused, of which none is needed where there is room.
    pub(crate) fn write(
        &mut self,
        case: &Case,
        round: &Round,
        phase: &OrderPhase,
    ) -> Result<(), AllocError>
        ensures written { IfOk result (λ _. IsWritten case.now self.new) }
        ensures kept { OnErr result (self.new.hub_price ≡ self.old.hub_price) }
    {
        write_placement(case, phase, &mut self.placement)?;
        write_amounts(case, round, &mut self.rents.amounts)?;
        let classes = phase.classes();
        classes.write_places(case, round, &mut self.rents.places)?;
        classes.write(&mut self.rents.classes)?;
        self.hub_price = Some(round.price(round.hub()).0);
        Ok(())
    }
}

fn write_placement(
    case: &Case,
    phase: &OrderPhase,
    placement: &mut Vec<Choice>,
) -> Result<(), AllocError>
    ensures { IfOk result (λ _. length placement.new.items ≡ length case.now.tasks) }
{
    placement.clear();
    for task in 0..case.task_count() as u32 {
        let choice = match phase.chosen(Task(task)) {
            Some(machine) => Choice::On(machine.0),
            None => Choice::Wait,
        };
        placement.push(choice)?;
    }
    Ok(())
}

fn write_amounts(case: &Case, round: &Round, amounts: &mut Vec<u64>) -> Result<(), AllocError>
    ensures { IfOk result (λ _. length amounts.new.items ≡ length case.now.slots) }
{
    amounts.clear();
    for machine in 0..case.machine_count() as u32 {
        amounts.push(u64::from(round.price(Place(machine)).0))?;
    }
    Ok(())
}
