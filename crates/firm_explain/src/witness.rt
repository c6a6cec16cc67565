//! Witnesses: of the placements in which a task has another choice one that costs least, described by what else
//! changes; if it costs no more, also by what puts the round's before it.

ghost use Rattle.std.specs.Prelude.{◌≡◌, ◌+◌, true, IsTrue};
ghost use Rattle.firm_rules.specs.Placement.{is_legal, placement_cost};

use crate::market::Market;
use crate::moves::Moves;
use crate::numbers::{NONE, at, set};
use crate::order_line::put_place;
use crate::page::Page;
use firm_rules::Choice;
use std::alloc::{AllocError, Global};

/// Ways to what a task has: from each place moves of other tasks and of slots that cost nothing by the task's rents.
#[derive(Drop)]
pub(crate) struct Witnesses<'a> {
    moves: &'a Moves,
    // The task, and the place of what it has.
    task: usize,
    has: u32,
    // From each place how many moves it takes, and the number of the first; `NONE` where no way is known.
    steps: Vec<u32>,
    first: Vec<u32>,
}

impl<'a> Witnesses<'a> {
    /// The shortest ways for the task of this number, by the moves that cost nothing.
    pub(crate) fn of(
        alloc: Global,
        moves: &'a Moves,
        market: &Market<'_>,
        task: usize,
    ) -> Result<Witnesses<'a>, AllocError> {
        let places = moves.place_count() as usize;
        let mut found = Witnesses {
            moves,
            task,
            has: moves.place_of(market.choice_of(task)),
            steps: vec![in alloc; NONE; places]?,
            first: vec![in alloc; NONE; places]?,
        };
        found.search();
        Ok(found)
    }

    // Finds the ways, those of fewer moves first.
    fn search(&mut self) {
        set(&mut self.steps, self.has, 0);
        for count in 0..self.moves.place_count() {
            if !self.lengthen(count) {
                return;
            }
        }
    }

    // Finds the ways of one move more than this number; says whether there are some.
    fn lengthen(&mut self, count: u32) -> bool {
        let mut found_one = false;
        for number in 0..self.moves.count() {
            if let Some(found) = self.moves.at(number) {
                let is_next = at(&self.steps, found.to) == count
                    && at(&self.steps, found.from) == NONE;
                if is_next && found.task as usize != self.task {
                    set(&mut self.steps, found.from, u32::saturating_add(count, 1));
                    set(&mut self.first, found.from, number);
                    found_one = true;
                }
            }
        }
        found_one
    }

    /// Appends the line on another choice with this excess; nothing if no such placement was found.
    pub(crate) fn put(&self, page: &mut Page, market: &Market<'_>, other: Choice, more: u64) {
        let Ok(mut placement) = Vec::from_slice(page.alloc, market.placement) else {
            return page.refuse();
        };
        if self.follow(&mut placement, other) && costs_more(market, &placement, more) {
            self.put_line(page, market, &placement, more);
        }
    }

    // Makes the moves from the other choice on in a placement; says whether a way is known.
    fn follow(&self, placement: &mut [Choice], other: Choice) -> bool {
        put_choice_of(placement, self.task, other);
        let (mut here, mut task) = (self.moves.place_of(other), NONE);
        for _ in 0..self.moves.place_count() {
            if here == self.has {
                return true;
            }
            let Some(found) = self.moves.at(at(&self.first, here)) else {
                return false;
            };
            // From `any` on goes the task that went there.
            if here != self.moves.any() {
                task = found.task;
            }
            put_choice_of(placement, task as usize, self.moves.choice_at(found.to));
            here = found.to;
        }
        false
    }

    // Adds the other choice, its additional cost, the changes of other tasks, and for a tie the task that decides.
    fn put_line(&self, page: &mut Page, market: &Market<'_>, placement: &[Choice], more: u64)
        requires legal { is_legal market.now.case.now placement.now ≡ true }
        requires more { placement_cost market.now.case.now placement.now
            ≡ placement_cost market.now.case.now market.now.placement.now + more }
    {
        put_placed(page, market, b"# if ", placement, self.task);
        page.put_number(b": ", more);
        page.put(b" more");
        let mut before: &[u8] = b": ";
        for task in 0..placement.len() {
            if task != self.task && placement[task] != market.choice_of(task) {
                put_placed(page, market, before, placement, task);
                before = b", ";
            }
        }
        if more == 0 {
            self.put_decider(page, market, placement);
        }
        page.put(b"\n");
    }

    // Adds why the round's placement comes before one of equal cost: by the first task on which they differ.
    fn put_decider(&self, page: &mut Page, market: &Market<'_>, placement: &[Choice]) {
        for task in 0..placement.len() {
            if placement[task] != market.choice_of(task) {
                return if task == self.task {
                    self.put_rank(page, market, placement[task])
                } else {
                    put_earlier(page, market, task, placement[task])
                };
            }
        }
    }

    // Adds that the task's choice ranks before the other.
    fn put_rank(&self, page: &mut Page, market: &Market<'_>, other: Choice) {
        page.put(b"; ");
        put_place(page, market, self.has);
        page.put(b" ranks before ");
        put_place(page, market, self.moves.place_of(other));
    }
}

// Adds the other choice of an earlier task, which ranks after its choice in the round.
fn put_earlier(page: &mut Page, market: &Market<'_>, task: usize, other: Choice) {
    page.put_task(b"; ", market.rows, task);
    page.put(b", submitted earlier, would ");
    match other {
        Choice::On(place) => page.put_at(b"be on ", market.rows, place),
        Choice::Wait => page.put(b"wait"),
    }
}

// Whether a placement is legal, and costs this much more than the round's.
fn costs_more(market: &Market<'_>, placement: &[Choice], more: u64) -> bool
    ensures legal { IsTrue result → is_legal market.now.case.now placement.now ≡ true }
    ensures more { IsTrue result → placement_cost market.now.case.now placement.now
        ≡ placement_cost market.now.case.now market.now.placement.now + more }
{
    placement.len() == market.case.task_count()
        && market.case.is_legal(placement)
        && market.case.cost_of(placement) == market.by_low.cost.saturating_add(more)
}

fn put_choice_of(placement: &mut [Choice], task: usize, choice: Choice) {
    if let Some(item) = placement.get_mut(task) {
        *item = choice;
    }
}

// Adds a word, a task and what it has.
fn put_placed(
    page: &mut Page,
    market: &Market<'_>,
    word: &[u8],
    placement: &[Choice],
    task: usize,
) {
    page.put_task(word, market.rows, task);
    match placement.get(task).copied() {
        Some(Choice::On(place)) => page.put_at(b" on ", market.rows, place),
        _ => page.put(b" waits"),
    }
}
