//! Laws of rents, each the contract of a function that does nothing.
ghost use Rattle.firm_rents.specs.Rents.{EachChoiceCostsItsExcess, RentsBound, RentsShowLeast, RentsThatShowSuit};
ghost use Rattle.firm_rents.specs.Levels.{RentsShowFirst};
ghost use Rattle.firm_rents.specs.OtherSlots.{OneMoreMachineSaves, OtherSlotsCost};

use firm_rules::loads_are_sums_of_slots;

/// Whatever the rents, the cost of a legal placement plus the gains of the machines is no less than what the tasks
/// would pay if each took its cheapest choice with rent.
pub fn rents_bound()
    ensures { RentsBound }
{}

/// If the cost of a placement plus the gains equals that bound, no legal placement costs less.
pub fn rents_show_least()
    ensures { RentsShowLeast }
{}

/// A legal placement in which a task has a choice that, with rent, is dearer for it than its cheapest costs at least
/// that much more than the bound.
pub fn each_choice_costs_its_excess()
    ensures { EachChoiceCostsItsExcess }
{}

/// Rents show a legal placement to be least exactly if each task pays its least, each machine's last task is paid for
/// and no free slot is worth more than it costs.
pub fn rents_that_show_suit()
    ensures { RentsThatShowSuit }
{
    loads_are_sums_of_slots();
}

/// A legal placement is the round's if rents in levels suit it: each task's choice is its cheapest, each machine's last
/// task is paid for and no free slot is worth more than it costs, compared lexicographically.
pub fn rents_show_first()
    ensures { RentsShowFirst }
{
    loads_are_sums_of_slots();
}

/// With other slots on the same machines, no legal placement undercuts one that rents show to be least by more than the
/// gains grow.
pub fn other_slots_cost()
    ensures { OtherSlotsCost }
{}

/// With one more machine, no legal placement undercuts one that rents show to be least by more than what tasks would
/// save there at any one rent plus the machine's gain at that rent.
pub fn one_more_machine_saves()
    ensures { OneMoreMachineSaves }
{}
