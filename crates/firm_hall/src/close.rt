//! Closing a hall: its desks and reports are handed in one at a time, in place.
ghost use Rattle.std.specs.Prelude.{◌≡◌, ℕ, ◌+◌, ◌<◌, ◌≤◌, ◌^◌, [], All, map, length, MatchResult};
ghost use Rattle.firm_rounds.specs.declared.protocol.Share.{Share};
ghost use Rattle.firm_rounds.specs.Rounds.{weigh, share};
ghost use Rattle.firm_rounds.specs.Passes.{spent_pop};
ghost use Rattle.firm_rounds.specs.Closed.{got_weight};
ghost use Rattle.firm_hall.specs.Desks.{spent_desk, spent_place};
ghost use Rattle.firm_hall.specs.Closed.{IsClosed, taken_count};
ghost use Rattle.firm_hall.specs.inner.Gathered.{Gave, IsGathered};
ghost use Rattle.firm_hall.specs.Faults.{IsCloseFault};

use crate::desks::Desk;
use crate::empty::EmptyDesk;
use crate::halls::Hall;
use crate::workers::Report;
use firm_rounds::{Closing, Job, Queue};
use std::sync::Wait;

/// Totals of a service.
#[derive(Clone, Copy, PartialEq, Eq)]
pub struct Totals {
    /// Number of rounds that workers took.
    pub rounds: u64,
}

/// Why a hall could not be closed, or what it still held.
pub enum CloseFault {
    /// Fewer desks, counting empty ones, or fewer reports were handed in than the hall has. Everything is given back.
    Missing(Hall, Vec<Desk>, Vec<Report>, Vec<EmptyDesk>),
    /// These jobs were still in the queue, front first. The hall has ended; its desks and reports are given back.
    Left(Vec<Desk>, Vec<Report>, Vec<Job>, Vec<EmptyDesk>),
}

impl Hall {
    /// Closes the hall, given its desks, empty ones included, and the reports of its workers. `Ok` says that the
    /// reports' tickets are those asked at the desks, by all tenants of their places, each exactly once, and how many
    /// there are. Takes no memory.
    pub fn close<R: Wait>(
        self,
        rt: &R,
        desks: Vec<Desk>,
        reports: Vec<Report>,
        empty: Vec<EmptyDesk>,
    ) -> Result<Totals, CloseFault>
        requires desks { All (λ d. d.queue ≡ self.id) desks.items }
        requires reports { All (λ r. r.queue ≡ self.id) reports.items }
        requires empty { All (λ e. e.queue ≡ self.id) empty.items }
        ensures { MatchResult result
            (λ totals. IsClosed desks.items empty.items reports.items []
            × (totals.rounds ≡ taken_count reports.items))
            (IsCloseFault self desks.items reports.items empty.items) }
    {
        let (place_count, worker_count) = self.counts();
        if desks.len() + empty.len() < place_count || reports.len() < worker_count {
            return Err(CloseFault::Missing(self, desks, reports, empty));
        }
        let mut desks = desks;
        let mut reports = reports;
        let mut empty = empty;
        let closing = gather(
            self.into_queue(),
            desks.as_mut_slice(),
            reports.as_mut_slice(),
            empty.as_mut_slice(),
        );
        let jobs = closing.end(rt);
        if jobs.is_empty() {
            jobs.destroy_empty();
            let rounds = rounds_of(reports.as_slice());
            return Ok(Totals { rounds });
        }
        Err(CloseFault::Left(desks, reports, jobs, empty))
    }
}

// Hands in all passes.
fn gather(
    queue: Queue,
    desks: &mut [Desk],
    reports: &mut [Report],
    empty: &mut [EmptyDesk],
) -> Closing
    requires empty { All (λ e. e.queue ≡ queue.id) empty.old }
    requires desks { All (λ d. d.queue ≡ queue.id) desks.old }
    requires reports { (0 < length reports.old) × (0 < queue.id.all) × All (λ r. r.queue ≡ queue.id) reports.old }
    ensures id { result.id ≡ queue.id }
    ensures shares { IsGathered result.shares desks.old empty.old reports.old }
    ensures empty { empty.new ≡ map spent_place empty.old }
    ensures desks { desks.new ≡ map spent_desk desks.old }
    ensures reports { reports.new ≡ map spent_pop reports.old }
{
    let (head, rest) = reports.split_at_mut(1);
    let first = &mut head[0];
    let mut closing = first.begin(queue);
    give_desks(&mut closing, desks);
    give_empty(&mut closing, empty);
    give_reports(&mut closing, rest);
    closing
}

fn give_desks(closing: &mut Closing, desks: &mut [Desk])
    requires { All (λ d. d.queue ≡ closing.old.id) desks.old }
    ensures id { closing.new.id ≡ closing.old.id }
    ensures shares { (f : Share → ℕ)
        → weigh f closing.new.shares ≡ weigh f closing.old.shares + weigh (λ d. f (share d.place d.put [])) desks.old }
    ensures desks { desks.new ≡ map spent_desk desks.old }
{
    for i in 0..desks.len() {
        let desk = &mut desks[i];
        desk.give(closing);
    }
}

fn give_empty(closing: &mut Closing, empty: &mut [EmptyDesk])
    requires { All (λ e. e.queue ≡ closing.old.id) empty.old }
    ensures id { closing.new.id ≡ closing.old.id }
    ensures shares { (f : Share → ℕ)
        → weigh f closing.new.shares ≡ weigh f closing.old.shares + weigh (λ e. f (share e.place e.put [])) empty.old }
    ensures empty { empty.new ≡ map spent_place empty.old }
{
    for i in 0..empty.len() {
        let place = &mut empty[i];
        place.give(closing);
    }
}

fn give_reports(closing: &mut Closing, reports: &mut [Report])
    requires { All (λ r. r.queue ≡ closing.old.id) reports.old }
    ensures id { closing.new.id ≡ closing.old.id }
    ensures shares { Gave closing.old.shares closing.new.shares reports.old }
    ensures reports { reports.new ≡ map spent_pop reports.old }
{
    for i in 0..reports.len() {
        let report = &mut reports[i];
        report.give(closing);
    }
}

fn rounds_of(reports: &[Report]) -> u64
    requires { got_weight (λ t. 1) reports.now ≤ 2 ^ 61 }
    ensures { result ≡ taken_count reports.now }
{
    let mut rounds = 0;
    for i in 0..reports.len() {
        rounds += reports[i].count();
    }
    rounds
}
