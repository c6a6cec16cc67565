//! Scenes at the desks of a hall, each played while workers run on other threads.

ghost use Rattle.std.specs.Prelude.{◌≡◌, ◌≤◌, All, IfErr};
ghost use Rattle.std.specs.Thread.{IsSync};

use super::callers::{Calls, call_all};
use super::check;
use super::gates::Holds;
use super::held::expect_passed;
use super::rosters::roster_of;
use super::solving::expect_solved_behind;
use super::wakes::{ask_and_shut, put_two_each_turn};
use firm_hall::{CloseFault, Desk, EmptyDesk, Hall, Report, WorkerPass, worker};
use firm_rounds::finish_all;
use std::alloc::Global;
use std::process::Abort;
use std::sync::Wait;
use std::sync::atomic::Ordering;
use std::thread;
use std::thread::Threads;
use std::time::Clock;

/// The events at the desks.
#[derive(Clone, Copy)]
pub enum Play {
    /// Each desk has a caller on its own thread.
    Callers(Calls),
    /// The gate holds one round; another comes back meanwhile.
    Passed,
    /// Two rounds are put in one go while one is held, turn after turn.
    TwoEachTurn,
    /// Large rounds are timed before the gate and after it.
    Timed,
    /// The hall is shut right after a round, which is requested this many turns after the worker begins.
    ShutBehind(u64),
    /// The hall is shut before its workers start.
    ShutFirst,
}

/// A play at the desks of these records, while workers run behind a gate for this many places.
#[derive(Clone, Copy)]
pub struct Scene {
    pub records: &'static str,
    /// For how many places the gate holds rounds.
    pub places: u32,
    pub play: Play,
    /// Number of rounds in all.
    pub rounds: u64,
}

/// The desks that are home at the end.
fn act<R: Alloc<A = Global> + Abort + Clock + Threads + Wait + Sync>(
    rt: &R,
    hall: &Hall,
    desks: Vec<Desk>,
    gate: &Holds,
    play: Play,
) -> Vec<Desk>
    requires { All (λ d. d.queue ≡ hall.now.id) desks.items }
    ensures { All (λ d. d.queue ≡ hall.now.id) result.items }
{
    let mut desks = desks;
    match play {
        Play::Callers(calls) => return call_all(rt, hall, desks, calls),
        Play::Passed => expect_passed(rt, rt.alloc(), hall, &mut desks, gate),
        Play::TwoEachTurn => put_two_each_turn(rt, hall, &mut desks, gate),
        Play::Timed => expect_solved_behind(rt, hall, &mut desks, gate),
        Play::ShutBehind(turns) => ask_and_shut(rt, hall, &mut desks, gate, turns),
        Play::ShutFirst => {}
    }
    desks
}

/// The workers' reports, and the desks that are home after the play. The hall is shut then.
fn act_beside_workers<R: Alloc<A = Global> + Abort + Clock + Threads + Wait + Sync>(
    rt: &R,
    hall: &Hall,
    desks: Vec<Desk>,
    passes: Vec<WorkerPass>,
    scene: Scene,
) -> (Vec<Report>, Vec<Desk>)
    requires desks { All (λ d. d.queue ≡ hall.now.id) desks.items }
    requires passes { All (λ p. p.queue ≡ hall.now.id) passes.items }
    ensures reports { All (λ r. r.queue ≡ hall.now.id) result.0.items }
    ensures desks { All (λ d. d.queue ≡ hall.now.id) result.1.items }
{
    let gate = &Holds::new(scene.places);
    thread::join(
        rt,
        move || -> Vec<Report>
            requires threads { IsSync R.row }
            requires passes { All (λ p. p.queue ≡ hall.now.id) passes.items }
            ensures { All (λ r. r.queue ≡ hall.entry.now.id) result.items }
        {
            let reports = thread::map_vec(
                rt,
                passes,
                &|pass: WorkerPass| -> Report
                    requires { pass.queue ≡ hall.now.id }
                    ensures { result.queue ≡ hall.entry.now.id }
                {
                    gate.begun.fetch_add(1, Ordering::SeqCst);
                    let report = worker(rt, rt.alloc(), hall, pass, gate);
                    gate.ended.fetch_add(1, Ordering::SeqCst);
                    report
                },
            );
            reports.expect(rt, "memory")
        },
        move || -> Vec<Desk>
            requires threads { IsSync R.row }
            requires desks { All (λ d. d.queue ≡ hall.now.id) desks.items }
            ensures { All (λ d. d.queue ≡ hall.entry.now.id) result.items }
        {
            let desks = act(rt, hall, desks, gate, scene.play);
            hall.shut();
            desks
        },
    )
}

/// The number of rounds of the hall; or, if a desk or a report is missing, the hall with all that was handed in.
fn close<R: Alloc<A = Global> + Abort + Wait>(
    rt: &R,
    hall: Hall,
    desks: Vec<Desk>,
    reports: Vec<Report>,
    empty: Vec<EmptyDesk>,
) -> Result<u64, (Hall, Vec<Desk>, Vec<Report>, Vec<EmptyDesk>)>
    requires desks { All (λ d. d.queue ≡ hall.id) desks.items }
    requires reports { All (λ r. r.queue ≡ hall.id) reports.items }
    requires empty { All (λ e. e.queue ≡ hall.id) empty.items }
    ensures { IfErr result (λ back. (back.0 ≡ hall) × (back.1.items ≡ desks.items) × (back.2.items ≡ reports.items)
        × (back.3.items ≡ empty.items)) }
{
    match hall.close(rt, desks, reports, empty) {
        Ok(totals) => Ok(totals.rounds),
        Err(CloseFault::Missing(hall, desks, reports, empty)) => Err((hall, desks, reports, empty)),
        Err(CloseFault::Left(_desks, _reports, jobs, _empty)) => {
            finish_all(rt.alloc(), jobs);
            panic!(rt; "rounds are left")
        }
    }
}

/// Number of rounds that the workers took.
fn counted(reports: &[Report]) -> u64 {
    let mut rounds = 0u64;
    for report in reports {
        rounds = rounds.saturating_add(report.count());
    }
    rounds
}

/// Number of rounds of the hall. It closes once the last report and the empty desks are there.
fn rounds_of<R: Alloc<A = Global> + Abort + Wait>(
    rt: &R,
    hall: Hall,
    desks: Vec<Desk>,
    reports: Vec<Report>,
    empty: Vec<EmptyDesk>,
) -> u64
    requires desks { All (λ d. d.queue ≡ hall.id) desks.items }
    requires reports { All (λ r. r.queue ≡ hall.id) reports.items }
    requires empty { All (λ e. e.queue ≡ hall.id) empty.items }
{
    let mut reports = reports;
    let held = reports.pop().expect(rt, "a report");
    let back = close(rt, hall, desks, reports, empty);
    let (hall, desks, mut reports, empty) = back.err().expect(rt, "a report is missing");
    reports.push(held).expect(rt, "memory");
    let back = close(rt, hall, desks, reports, Vec::new(rt.alloc()));
    let (hall, desks, reports, _) = back.err().expect(rt, "empty desks are missing");
    let rounds = close(rt, hall, desks, reports, empty).ok();
    rounds.expect(rt, "nothing is missing")
}

/// The scene is played, with this many workers.
pub fn perform<R: Alloc<A = Global> + Abort + Clock + Threads + Wait + Sync>(
    rt: &R,
    workers: usize,
    scene: Scene,
)
    requires { (1 ≤ workers) × (workers ≤ 8) }
{
    let alloc = rt.alloc();
    let roster = roster_of(rt, alloc, scene.records);
    let (hall, desks, passes, empty) = Hall::open(alloc, &roster, workers).expect(rt, "memory");
    if matches!(scene.play, Play::ShutFirst) {
        hall.shut();
    }
    let (reports, desks) = act_beside_workers(rt, &hall, desks, passes, scene);
    check(
        rt,
        counted(&reports) == scene.rounds,
        "the rounds of the workers",
    );
    let rounds = rounds_of(rt, hall, desks, reports, empty);
    check(rt, rounds == scene.rounds, "the rounds of the hall");
}

const NEVER_OPEN: Scene = Scene {
    records: "alpha,9,24,100,1,2\nbeta,8,30,100,0,3",
    places: 0,
    play: Play::ShutFirst,
    rounds: 0,
};

#[test]
fn a_hall_that_is_shut_first_has_no_rounds(rt: HostRuntime) {
    perform(&rt, 2, NEVER_OPEN);
}
