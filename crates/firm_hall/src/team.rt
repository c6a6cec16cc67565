//! One to eight workers, each on its own thread.
ghost use Rattle.std.specs.Prelude.{◌≡◌, ◌≤◌, [], All, IfOk, IfErr, length, vec_capacity, vec_len};
ghost use Rattle.std.specs.Thread.{IsSync};

use crate::halls::Hall;
use crate::workers::{Gate, Report, WorkerPass, worker};
use std::alloc::{AllocError, Global};
use std::snapshot::Snapshot;
use std::sync::Wait;
use std::thread::{Promise, PromisedHandle, Scope, Threads};

/// The promise of a worker's thread: its report is of this hall.
#[derive(Drop)]
pub(crate) struct OfHall(pub(crate) Snapshot<Hall>);

impl Promise<Report> for OfHall {
    ghost kept_by = { λ p r. r.queue ≡ p.0.value.id };
}

/// The workers of a hall before they start: a pass for each, and room for their handles and reports.
pub(crate) struct Team<'s, R, G> {
    pub(crate) rt: &'s R,
    alloc: Global,
    pub(crate) hall: &'s Hall,
    gate: &'s G,
    pub(crate) passes: Vec<WorkerPass>,
    handles: Vec<PromisedHandle<Report, OfHall>>,
    reports: Vec<Report>,
    ghost of_hall: { All (λ p. p.queue ≡ hall.now.id) passes.items },
    ghost no_handles: { handles.items ≡ [] },
    ghost room: { vec_len passes ≤ vec_capacity handles },
    ghost no_reports: { reports.items ≡ [] },
    ghost reports_room: { vec_len passes ≤ vec_capacity reports },
}

impl<R, G> Drop for Team<'_, R, G> {
    // Written out, so that who owns a team has one call where it is dropped.
    fn drop(self) {
        let Self {
            rt: _,
            alloc: _,
            hall: _,
            gate: _,
            passes,
            handles,
            reports,
        } = self;
        drop(passes);
        drop(handles);
        drop(reports);
    }
}

/// The running workers, and room for their reports.
#[derive(Drop)]
pub(crate) struct Running<'s, R> {
    rt: &'s R,
    hall: &'s Hall,
    handles: Vec<PromisedHandle<Report, OfHall>>,
    reports: Vec<Report>,
    ghost of_hall: { All (λ h. h.promise.0.value.id ≡ hall.now.id) handles.items },
    ghost no_reports: { reports.items ≡ [] },
    ghost room: { vec_len handles ≤ vec_capacity reports },
}

impl<'s, R: Threads + Wait + Sync, G: Gate + Sync> Team<'s, R, G> {
    // Fails only if memory is refused.
    pub(crate) fn open(
        rt: &'s R,
        alloc: Global,
        hall: &'s Hall,
        gate: &'s G,
        passes: Vec<WorkerPass>,
    ) -> Result<Team<'s, R, G>, AllocError>
        requires { All (λ p. p.queue ≡ hall.now.id) passes.items }
        ensures hall { IfOk result (λ team. team.hall.now ≡ hall.now) }
        ensures count { IfOk result (λ team. length team.passes.items ≡ length passes.items) }
    {
        let count = passes.len();
        let handles = Vec::with_capacity(alloc, count)?;
        let reports = Vec::with_capacity(alloc, count)?;
        Ok(Team {
            rt,
            alloc,
            hall,
            gate,
            passes,
            handles,
            reports,
        })
    }

    // Starts a worker for each pass. If one cannot be started, the error is those already running.
    pub(crate) fn start<E: 's>(self, scope: &Scope<'s, E>) -> Result<Running<'s, R>, Running<'s, R>>
        ensures hall { IfOk result (λ running. running.hall.now ≡ self.entry.hall.now) }
        ensures some { IfErr result (λ running. running.hall.now ≡ self.entry.hall.now) }
        ensures all { IfOk result (λ running. vec_len running.handles ≡ vec_len self.entry.passes) }
    {
        let Team {
            rt,
            alloc,
            hall,
            gate,
            passes,
            mut handles,
            reports,
        } = self;
        for pass in passes {
            let promise = OfHall(Snapshot::of(hall));
            let Ok(handle) = scope.spawn_with(
                promise,
                move ||
                    requires { pass.queue ≡ hall.now.id }
                    ensures { result.queue ≡ hall.entry.now.id }
                { worker(rt, alloc, hall, pass, gate) },
            ) else {
                return Err(Running {
                    rt,
                    hall,
                    handles,
                    reports,
                });
            };
            handles.push_reserved(handle);
        }
        Ok(Running {
            rt,
            hall,
            handles,
            reports,
        })
    }
}

impl<R: Threads> Running<'_, R> {
    // Shuts the hall and joins all workers, each of which reports.
    pub(crate) fn join(self) -> Vec<Report>
        ensures reports { All (λ r. r.queue ≡ self.entry.hall.now.id) result.items }
        ensures count { vec_len result ≡ vec_len self.entry.handles }
    {
        let Running {
            rt,
            hall,
            handles,
            mut reports,
        } = self;
        hall.shut();
        for handle in handles {
            reports.push_reserved(handle.join(rt));
        }
        reports
    }
}
