//! The parts of a placement's cost.
ghost use Rattle.std.specs.Prelude.{◌≡◌, ◌+◌, ◌^◌, ◌<◌, ◌≤◌, length};
ghost use Rattle.firm_rules.specs.Placement.{load, load_cost, placement_cost, total};
ghost use Rattle.firm_rules.specs.Placement.{task_at};
ghost use Rattle.firm_rents.specs.CostParts.{move_cost, part, preemption_cost};
ghost use Rattle.firm_rules.specs.ChoiceCost.{remote_cost, wait_cost};

use firm_rules::{Case, Choice};

/// A placement's cost by kind.
#[derive(Clone, Copy, PartialEq, Eq)]
pub struct Parts {
    /// The loads of the machines.
    pub loads: u64,
    /// Churn of tasks that go to another machine.
    pub moves: u64,
    /// Churn of tasks that lose their machine and wait.
    pub preemptions: u64,
    /// Waits, without churn.
    pub waits: u64,
    /// Machines that are remote for their tasks.
    pub remote: u64,
}

/// A placement's cost by kind. There is one choice for each task.
pub fn parts_of(case: &Case, placement: &[Choice]) -> Parts
    requires { length placement.now ≡ length case.now.tasks }
    ensures loads { result.loads ≡ total (λ j. load_cost case.now.spread (load placement.now j))
        (length case.now.slots) }
    ensures moves { result.moves ≡ part (move_cost case.now) case.now.tasks placement.now }
    ensures preemptions { result.preemptions ≡ part (preemption_cost case.now) case.now.tasks placement.now }
    ensures waits { result.waits ≡ part wait_cost case.now.tasks placement.now }
    ensures remote { result.remote ≡ part (remote_cost case.now) case.now.tasks placement.now }
    ensures cost { result.loads + result.moves + result.preemptions + result.waits + result.remote
        ≡ placement_cost case.now placement.now }
{
    let mut parts = Parts {
        loads: case.cost_of_loads(placement),
        moves: 0,
        preemptions: 0,
        waits: 0,
        remote: 0,
    };
    for task in 0..case.task_count() {
        parts = with_choice(parts, case, task, placement[task]);
    }
    parts
}

// These parts plus those of one task's choice.
fn with_choice(parts: Parts, case: &Case, task: usize, choice: Choice) -> Parts
    requires task { task < length case.now.tasks }
    requires moves { parts.moves ≤ 2 ^ 40 }
    requires preemptions { parts.preemptions ≤ 2 ^ 40 }
    requires waits { parts.waits ≤ 2 ^ 40 }
    requires remote { parts.remote ≤ 2 ^ 40 }
    ensures loads { result.loads ≡ parts.loads }
    ensures moves { result.moves ≡ parts.moves + move_cost case.now (task_at case.now task) choice }
    ensures preemptions { result.preemptions
        ≡ parts.preemptions + preemption_cost case.now (task_at case.now task) choice }
    ensures waits { result.waits ≡ parts.waits + wait_cost (task_at case.now task) choice }
    ensures remote { result.remote ≡ parts.remote + remote_cost case.now (task_at case.now task) choice }
    ensures more_moves { result.moves ≤ parts.moves + 2 ^ 21 }
    ensures more_preemptions { result.preemptions ≤ parts.preemptions + 2 ^ 21 }
    ensures more_waits { result.waits ≤ parts.waits + 2 ^ 21 }
    ensures more_remote { result.remote ≤ parts.remote + 2 ^ 21 }
{
    let churn = case.churn_of(task, choice);
    let rest = case.rest_of(task, choice);
    match choice {
        Choice::On(_) => Parts {
            moves: parts.moves + churn,
            remote: parts.remote + rest,
            ..parts
        },
        Choice::Wait => Parts {
            preemptions: parts.preemptions + churn,
            waits: parts.waits + rest,
            ..parts
        },
    }
}
