//! Laws of a tenant's steps, each the contract of a function that does nothing.
ghost use Rattle.firm_tenant.specs.Laws.{UnmarkedStepsAreGranted, RepliesTellTheirMarks, OneMoreCommandAddsOneStep};
ghost use Rattle.firm_tenant.specs.Laws.{StepsCountOnce};
ghost use Rattle.firm_tenant.specs.Starvation.{NoTaskStarves};

use firm_rules::{long_waits_yield_to_long_waits, sound_rows_stay_sound, the_round_is_the_first};

/// A step without a mark is never refused for lack of memory.
pub fn unmarked_steps_are_granted()
    ensures { UnmarkedStepsAreGranted }
{}

/// Every step is the step with the mark that its reply shows.
pub fn replies_tell_their_marks()
    ensures { RepliesTellTheirMarks }
{}

/// One more command appends its reply to the earlier ones, and applies its step to the book after them.
pub fn one_more_command_adds_one_step()
    ensures { OneMoreCommandAddsOneStep }
{}

/// A step keeps the limits, counts the command if life is left, and changes nothing otherwise.
pub fn steps_count_once()
    ensures { StepsCountOnce }
{}

/// No task starves. Where no job weighs more than W, a task that is there throughout is placed by one of
/// `remote` + max(what a 64th slot costs, W + `churn`) + `nodes` rounds over a book with a machine, in a row or with
/// rounds over a book without one between them, as long as no more rounds than the patience are among them.
pub fn no_task_starves()
    ensures { NoTaskStarves }
{
    the_round_is_the_first();
    long_waits_yield_to_long_waits();
    sound_rows_stay_sound();
}
