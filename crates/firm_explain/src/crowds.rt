//! Tasks that wait for the same reason: two crowds at most, those that each machine would cost more and those that one
//! would cost as much, so that a checker recounts them from the rows alone.

use crate::choices::Other;
use crate::market::Market;
use firm_rules::Choice;

/// If more tasks than this wait for the same reason, they share one line.
const MOST_LINES: u64 = 20;

/// Tasks that go on waiting: those for which each machine costs more, or those for which one costs as much.
#[derive(Clone, Copy)]
pub(crate) struct Crowd {
    /// The number of the first task.
    pub(crate) first: usize,
    pub(crate) tasks: u64,
    /// The least and the greatest cost of letting one of them wait.
    pub(crate) least: u64,
    pub(crate) most: u64,
    /// The least excess of a machine for one of them.
    pub(crate) more: u64,
}

/// Both crowds of a round.
#[derive(Clone, Copy)]
pub(crate) struct Crowds {
    dearer: Crowd,
    alike: Crowd,
}

impl Crowd {
    const NOBODY: Crowd = Crowd {
        first: 0,
        tasks: 0,
        least: u64::MAX,
        most: 0,
        more: u64::MAX,
    };

    /// Whether they share one line.
    pub(crate) fn is_large(&self) -> bool {
        MOST_LINES < self.tasks
    }

    // The crowd with one more task.
    fn with(&self, task: usize, wait: u64, more: u64) -> Crowd {
        Crowd {
            first: if self.tasks == 0 { task } else { self.first },
            tasks: self.tasks.saturating_add(1),
            least: self.least.min(wait),
            most: self.most.max(wait),
            more: self.more.min(more),
        }
    }
}

impl Crowds {
    /// The crowds of a round, with the best other machine of each task.
    pub(crate) fn of(market: &Market<'_>, best: &[Option<Other>]) -> Crowds {
        let mut crowds = Crowds {
            dearer: Crowd::NOBODY,
            alike: Crowd::NOBODY,
        };
        for task in 0..market.case.task_count() {
            if market.is_waiting(task) {
                let wait = market.case.cost_of_choice(task, Choice::Wait);
                crowds.join(task, wait, best_at(best, task));
            }
        }
        crowds
    }

    /// The crowd of the tasks with such a best other choice.
    pub(crate) fn of_best(&self, best: Option<Other>) -> Crowd {
        match best {
            Some(Other { choice: _, more: 0 }) => self.alike,
            _ => self.dearer,
        }
    }

    fn join(&mut self, task: usize, wait: u64, best: Option<Other>) {
        match best {
            Some(Other { choice: _, more: 0 }) => self.alike = self.alike.with(task, wait, 0),
            Some(Other { choice: _, more }) => self.dearer = self.dearer.with(task, wait, more),
            None => self.dearer = self.dearer.with(task, wait, 0),
        }
    }
}

/// The best other machine of the task of this number, if it has one.
pub(crate) fn best_at(best: &[Option<Other>], task: usize) -> Option<Other> {
    match best.get(task) {
        Some(other) => *other,
        None => None,
    }
}
