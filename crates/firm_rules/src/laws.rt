//! Laws of placements, rounds and books, each the contract of a function that does nothing.
ghost use Rattle.firm_rules.specs.Placement.{LegalityIsJudged};
ghost use Rattle.firm_rules.specs.SlotCosts.{LaterSlotsCostNoLess, LoadsAreSumsOfSlots, SlotsCostAtMost};
ghost use Rattle.firm_rules.specs.Order.{FirstDifferenceDecides};
ghost use Rattle.firm_rules.specs.Round.{TheRoundIsTheFirst};
ghost use Rattle.firm_rules.specs.Preemption.{PatienceBoundsPreemptions, PreemptionsGain, PreemptionsHaveCauses};
ghost use Rattle.firm_rules.specs.Keeping.{SoundRowsStaySound};
ghost use Rattle.firm_rules.specs.Standing.{TasksStayStanding};
ghost use Rattle.firm_rules.specs.Starvation.{LongWaitsYieldToLongWaits};
ghost use Rattle.firm_rules.specs.SoundBook.{OpeningBooksAreSound};

/// The test of legality says yes to the legal placements and to no others.
pub fn legality_is_judged()
    ensures { LegalityIsJudged }
{}

/// A load costs what the slots that it fills cost together; a later slot costs no less than an earlier one, and none of
/// a machine costs more than 63,000.
pub fn loads_are_sums_of_slots()
    ensures sums { LoadsAreSumsOfSlots }
    ensures rises { LaterSlotsCostNoLess }
    ensures most { SlotsCostAtMost }
{}

/// Of two legal placements one comes before the other exactly where, at the first task on which they differ, its choice
/// ranks first.
pub fn the_first_difference_decides()
    ensures { FirstDifferenceDecides }
{}

/// The first of the cheapest legal placements is legal, no legal one costs less, no legal one that costs as much comes
/// before it, and no other placement is all that.
pub fn the_round_is_the_first()
    ensures { TheRoundIsTheFirst }
{}

/// A round preempts a task and brings another to its machine only where the weight of the one, what it has waited,
/// churn and what the other pays for the machine are together at most the weight of the other and what it has waited;
/// where they are as much, the other was submitted first.
pub fn preemptions_gain()
    ensures { PreemptionsGain }
{}

/// So a running task of weight w is preempted for one of weight w' only where w and churn are at most w' and the
/// patience; where they are as much, the other was submitted first. Under a patience below churn no task is preempted
/// for one that weighs no more.
pub fn patience_bounds_preemptions()
    ensures { PatienceBoundsPreemptions }
{}

/// A task is preempted only where a slot for one more task on its machine costs more than the task's weight and churn,
/// or where another is brought to the machine, of which the two laws above speak.
pub fn preemptions_have_causes()
    ensures { PreemptionsHaveCauses }
{}

/// Where no job weighs more than W, a round passes over a task that has waited for `remote` and max(what a 64th slot
/// costs, W and `churn`) rounds only if each machine is full of tasks that were waiting too, each for more rounds than
/// it, less W and `remote`.
pub fn long_waits_yield_to_long_waits()
    ensures { LongWaitsYieldToLongWaits }
{}

/// Rows that are sound and in form stay so as a machine, a job or a task comes or goes, and after a legal placement.
pub fn sound_rows_stay_sound()
    ensures { SoundRowsStaySound }
{}

/// Each task that runs is where some round may have left it, beside the tasks that run there and those that wait: it
/// stays so as a machine, a job or a task comes or goes, and after a round.
pub fn tasks_stay_where_they_may_stand()
    ensures { TasksStayStanding }
{}

/// The book of a tenant that has nothing yet is sound, for limits in their ranges.
pub fn opening_books_are_sound()
    ensures { OpeningBooksAreSound }
{}
