//! The service: a hall, its desks and one to eight workers, from the first byte to the last.
ghost use Rattle.std.specs.Prelude.{◌≡◌, ℕ, ◌+◌, ◌≤◌, ◌^◌, List, Option, [], All, IfOk, IfErr, OnOk, false, length};
ghost use Rattle.std.specs.Thread.{IsSync};
ghost use Rattle.firm_table.specs.Openings.{opened};
ghost use Rattle.firm_table.specs.Service.{Stopped, StoppedFrom, between, device};
ghost use Rattle.firm_text.specs.Rosters.{most_places};
ghost use Rattle.firm_hall.specs.Counts.{ServedWith, ServedWithFrom};
ghost use Rattle.firm_hall.specs.inner.Ending.{AreOf, Ran};
ghost use Rattle.firm_hall.specs.inner.Serving.{IsOpen, TellsAll};

use crate::clerk::HallClerk;
use crate::close::{CloseFault, Totals};
use crate::ending::Ended;
use crate::halls::Hall;
use crate::setting::{Setting, Setup};
use crate::team::Team;
use crate::workers::{Gate, Report};
use firm_rounds::finish_all;
use firm_table::{Opening, ServeFault};
use firm_text::{PLACES, Roster, Sink, Source};
use std::alloc::Global;
use std::sync::Wait;
use std::thread;
use std::thread::Threads;

/// Answers the lines of an input of at most `most` bytes, 2^32 at most, for the tenants of the roster, which are
/// admitted first, and for those that the operator admits later, up to 64 at a time. 1 to 8 workers solve their rounds,
/// each on its own thread and each round after passing the gate. Answers are written in the order of their lines. A
/// line for a tenant whose round is away waits for that round, and later lines of others are answered meanwhile.
/// The service itself waits for a round only if the next line retires its tenant, if 1,024 answers are held or the
/// changes of held rounds have 4 MB of text, at the end of the input, or before a read for which the reader is not
/// ready; meanwhile it writes each answer once it and those before it are known. Flushes the writer only at the end, so
/// a buffering writer holds replies back until then.
///
/// On `Ok` a read has reached the end of the input, and what was written is the output for all of it. After a fault it
/// is a prefix of the output for the bytes that were read. `Read` and `Write` mean that a call of the reader or the
/// writer failed, `TooLong` that the input has more than `most` bytes, and `Memory` that the service was refused memory
/// of its own or a worker could not be started. All workers are joined first.
pub fn serve<S: Source, W: Sink, R: Threads + Wait + Sync, G: Gate + Sync>(
    rt: &R,
    alloc: Global,
    reader: &mut S,
    writer: &mut W,
    roster: &Roster,
    workers: usize,
    gate: &G,
    most: u64,
) -> Result<Totals, ServeFault>
    requires workers { (1 ≤ workers) × (workers ≤ 8) }
    requires some { 1 ≤ most }
    requires most { most ≤ 2 ^ 32 }
    requires reader { S.read_failed reader.old ≡ false }
    requires writer { W.write_failed writer.old ≡ false }
    ensures served { IfOk result (λ totals. ServedWith roster.now most
        (device (S.left reader.old) (S.left reader.new) (S.read_failed reader.new))
        (device (W.written writer.old) (W.written writer.new) (W.write_failed writer.new)) totals.rounds) }
    ensures stopped { IfErr result (Stopped roster.now most
        (device (S.left reader.old) (S.left reader.new) (S.read_failed reader.new))
        (device (W.written writer.old) (W.written writer.new) (W.write_failed writer.new))) }
{
    let setup = Setup {
        rt,
        alloc,
        opening: Opening::Roster(roster),
        workers,
        gate,
    };
    serve_from(setup, reader, writer, most)
}

/// The same as `serve`, for a service that opens with a roster or with a saved state.
pub fn serve_from<S: Source, W: Sink, R: Threads + Wait + Sync, G: Gate + Sync>(
    setup: Setup<'_, R, G>,
    reader: &mut S,
    writer: &mut W,
    most: u64,
) -> Result<Totals, ServeFault>
    requires workers { (1 ≤ setup.workers) × (setup.workers ≤ 8) }
    requires some { 1 ≤ most }
    requires most { most ≤ 2 ^ 32 }
    requires reader { S.read_failed reader.old ≡ false }
    requires writer { W.write_failed writer.old ≡ false }
    ensures served { IfOk result (λ totals. ServedWithFrom (opened setup.entry.opening) most
        (device (S.left reader.old) (S.left reader.new) (S.read_failed reader.new))
        (device (W.written writer.old) (W.written writer.new) (W.write_failed writer.new)) totals.rounds) }
    ensures stopped { IfErr result (StoppedFrom (opened setup.entry.opening) most
        (device (S.left reader.old) (S.left reader.new) (S.read_failed reader.new))
        (device (W.written writer.old) (W.written writer.new) (W.write_failed writer.new))) }
{
    let Setup {
        rt,
        alloc,
        opening,
        workers,
        gate,
    } = setup;
    let Ok((hall, places, passes)) = Hall::open_bare(alloc, PLACES, workers) else {
        return Err(ServeFault::Memory);
    };
    let setting = Setting {
        rt,
        alloc,
        hall: &hall,
    };
    let Ok(team) = Team::open(rt, alloc, &hall, gate, passes) else {
        return Err(ServeFault::Memory);
    };
    // The clerk, which owns most, is opened after all else that can fail.
    let Ok(clerk) = HallClerk::open(setting, opening, places) else {
        return Err(ServeFault::Memory);
    };
    let (served, reports) = serve_with(team, clerk, reader, writer, most);
    let ended = served?;
    let rounds = ended.rounds;
    // All desks are home, so each round was answered, and the rounds are counted by place: closing the hall tells
    // nothing more.
    close(rt, alloc, hall, ended, reports);
    Ok(Totals { rounds })
}

// Takes a reference and leaves its referent unchanged: the contract says so for one that comes back from a closure.
fn keep<T>(lent: &mut T)
    ensures { lent.new ≡ lent.old }
{
    let _ = lent;
}

// Serves while the team works, joins all workers and returns their reports.
fn serve_with<S: Source, W: Sink, R: Threads + Wait + Sync, G: Gate + Sync>(
    team: Team<'_, R, G>,
    clerk: HallClerk<'_, R>,
    reader: &mut S,
    writer: &mut W,
    most: u64,
) -> (Result<Ended, ServeFault>, Vec<Report>)
    requires open { IsOpen clerk.setting.hall.now.id clerk.serving }
    requires told { (written : Option (List ℕ))
        → TellsAll (opened clerk.opening) clerk.serving [] written written }
    requires most { most ≤ 2 ^ 32 }
    requires reader { S.read_failed reader.old ≡ false }
    requires writer { W.write_failed writer.old ≡ false }
    ensures ran { Ran (opened clerk.entry.opening) most
        (between S.left S.read_failed reader.old reader.new)
        (between W.written W.write_failed writer.old writer.new) result.0 }
    ensures desks { IfOk result.0 (λ ended. AreOf clerk.entry.setting.hall.now.id ended.desks.items ended.empty.items) }
    ensures places { IfOk result.0 (λ ended. length ended.desks.items + length ended.empty.items ≡ most_places) }
    ensures reports { All (λ report. report.queue ≡ team.entry.hall.now.id) result.1.items }
    ensures all { OnOk result.0 (length result.1.items ≡ length team.entry.passes.items) }
{
    let (served, reports, back, out) = thread::scope(
        thread::scope_env(),
        team.rt,
        move |scope| -> (Result<Ended, ServeFault>, Vec<Report>, &mut S, &mut W)
            requires threads { IsSync R.row × IsSync G.row }
            requires open { IsOpen clerk.setting.hall.now.id clerk.serving }
            requires told { (written : Option (List ℕ))
                → TellsAll (opened clerk.opening) clerk.serving [] written written }
            requires most { most ≤ 2 ^ 32 }
            requires reader { S.read_failed reader.now ≡ false }
            requires writer { W.write_failed writer.now ≡ false }
            ensures reads { result.2.ghost_name ≡ reader.entry.ghost_name }
            ensures writes { result.3.ghost_name ≡ writer.entry.ghost_name }
            ensures ran { Ran (opened clerk.entry.opening) most
                (between S.left S.read_failed reader.entry.now result.2.now)
                (between W.written W.write_failed writer.entry.now result.3.now) result.0 }
            ensures desks { IfOk result.0
                (λ ended. AreOf clerk.entry.setting.hall.now.id ended.desks.items ended.empty.items) }
            ensures places { IfOk result.0
                (λ ended. length ended.desks.items + length ended.empty.items ≡ most_places) }
            ensures reports { All (λ report. report.queue ≡ team.entry.hall.now.id) result.1.items }
            ensures all { OnOk result.0 (length result.1.items ≡ length team.entry.passes.items) }
        {
            match team.start(scope) {
                Ok(running) => {
                    let served = clerk.serve(reader, writer, most);
                    (served, running.join(), reader, writer)
                }
                Err(running) => (Err(ServeFault::Memory), running.join(), reader, writer),
            }
        },
    );
    keep(back);
    keep(out);
    (served, reports)
}

// Ends the hall. Rounds that no worker took are solved here.
fn close<R: Wait>(rt: &R, alloc: Global, hall: Hall, ended: Ended, reports: Vec<Report>)
    requires desks { AreOf hall.id ended.desks.items ended.empty.items }
    requires places { hall.puts ≤ length ended.desks.items + length ended.empty.items }
    requires reports { All (λ report. report.queue ≡ hall.id) reports.items }
    requires workers { hall.pops ≤ length reports.items }
{
    let Ended { desks, empty, .. } = ended;
    match hall.close(rt, desks, reports, empty) {
        Ok(_totals) => {}
        Err(CloseFault::Missing(..)) => unreachable!(),
        Err(CloseFault::Left(_desks, _reports, jobs, _empty)) => finish_all(alloc, jobs),
    }
}
