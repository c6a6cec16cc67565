//! What a task brings to a round, by place: its names are looked up once, when its row comes.
ghost use Rattle.std.specs.Prelude.{◌≡◌, ◌+◌, ◌<◌, ◌≤◌, true, ℕ, length, map, All, IfSome, bytes_eq};
ghost use Rattle.std.specs.List.{position_or_len};
ghost use Rattle.firm_rules.specs.Book.{job_names, machine_names, new_task};
ghost use Rattle.firm_rules.specs.Limits.{longest_patience};
ghost use Rattle.firm_rules.specs.Names.{is_among};
ghost use Rattle.firm_rules.specs.Placement.{is_remote, prefers, runs_at};
ghost use Rattle.firm_rules.specs.Round.{demand_of, machine_place, place_of, weight_at, IsFound};
ghost use Rattle.firm_rules.specs.inner.Demands.{seen, Fits, home_without, place_without, preferred_without};
ghost use Rattle.firm_rules.specs.inner.Demands.{without_job_at, without_machine_at};

use crate::book::{NewTask, Task};
use crate::names::Name;
use crate::preferences::MOST_PREFERENCES;
use crate::tables::Rows;
use arrayvec::ArrayVec;
use std::alloc::Allocator;

/// A task of a round, with its machines and its job given by their places.
#[derive(Drop)]
pub(crate) struct Demand {
    pub(crate) home: Option<u32>,
    pub(crate) preferred: ArrayVec<u32, MOST_PREFERENCES>,
    pub(crate) delay: u64,
    pub(crate) job: u32,
}

/// What a task of these rows brings to a round.
pub(crate) fn demand_of<A: Allocator>(rows: &Rows<A>, task: &Task) -> Demand
    requires machine { IfSome task.now.machine (λ name. is_among (machine_names rows.now) name ≡ true) }
    requires preferred { All (λ name. is_among (machine_names rows.now) name ≡ true) task.now.preferred }
    requires waited { task.now.waited ≤ longest_patience }
    ensures seen { seen result ≡ demand_of rows.now task.now }
    ensures fits { Fits (length rows.now.machines) (seen result) }
{
    let job = job_place_of(rows, task.job);
    Demand {
        home: home_of(rows, task.machine),
        preferred: places_of(rows, task.preferred.as_slice()),
        delay: delay_of(rows, job, task.waited),
        job,
    }
}

/// What a task that is to be added to these rows brings to a round.
pub(crate) fn demand_of_new<A: Allocator>(rows: &Rows<A>, task: &NewTask) -> Demand
    requires found { IsFound rows.now task.now }
    ensures seen { seen result ≡ demand_of rows.now (new_task task.now.job task.now.name task.now.preferred) }
    ensures fits { Fits (length rows.now.machines) (seen result) }
{
    rows.limits();
    let job = task.owner as u32;
    Demand {
        home: None,
        preferred: copied(task.machines.as_slice()),
        delay: delay_of(rows, job, 0),
        job,
    }
}

/// The place of the machine that a task runs on, if it runs.
pub(crate) fn home_of<A: Allocator>(rows: &Rows<A>, machine: Option<Name>) -> Option<u32>
    requires { IfSome machine (λ name. is_among (machine_names rows.now) name ≡ true) }
    ensures place { result ≡ machine_place rows.now machine }
    ensures below { IfSome result (λ place. place < length rows.now.machines) }
{
    match machine {
        Some(name) => Some(place_of(rows, name)),
        None => None,
    }
}

// The place of the machine of this name; by definition past the last if no machine has it.
fn place_of<A: Allocator>(rows: &Rows<A>, name: Name) -> u32
    ensures place { result ≡ place_of rows.now name }
    ensures below { is_among (machine_names rows.now) name ≡ true → result < length rows.now.machines }
{
    rows.limits();
    match rows.machine_place(name) {
        Some(place) => place as u32,
        None => rows.machine_count() as u32,
    }
}

// What a wait costs a task of the job at a place apart from churn.
fn delay_of<A: Allocator>(rows: &Rows<A>, job: u32, waited: u32) -> u64
    requires { waited ≤ longest_patience }
    ensures delay { result ≡ weight_at rows.now job + waited }
    ensures most { result ≤ 2000000 }
{
    rows.weight_at(job) + u64::from(waited)
}

// The place of the job of this name; by definition past the last if no job has it.
fn job_place_of<A: Allocator>(rows: &Rows<A>, job: Name) -> u32
    ensures { result ≡ position_or_len (bytes_eq job) (job_names rows.now) }
{
    rows.limits();
    match rows.job_place(job) {
        Some(place) => place as u32,
        None => rows.job_count() as u32,
    }
}

// The places of the machines of these names, all of which exist.
fn places_of<A: Allocator>(rows: &Rows<A>, names: &[Name]) -> ArrayVec<u32, MOST_PREFERENCES>
    requires few { length names.now ≤ 4 }
    requires there { All (λ name. is_among (machine_names rows.now) name ≡ true) names.now }
    ensures places { result.items ≡ map (place_of rows.now) names.now }
    ensures below { All (λ place. place < length rows.now.machines) result.items }
{
    let mut places = ArrayVec::new();
    for name in names {
        places.push(place_of(rows, *name));
    }
    places
}

// The same places.
fn copied(places: &[u32]) -> ArrayVec<u32, MOST_PREFERENCES>
    requires { length places.now ≤ 4 }
    ensures { result.items ≡ places.now }
{
    let mut same = ArrayVec::new();
    for place in places {
        same.push(*place);
    }
    same
}

/// Takes the machine at a place from all tasks.
pub(crate) fn leave_machine(demands: &mut [Demand], place: u32)
    ensures { map seen demands.new ≡ map (without_machine_at place) (map seen demands.old) }
{
    for task in 0..demands.len() {
        demands[task] = without_machine(&demands[task], place);
    }
}

/// Moves the jobs of all tasks down, once that at a place is gone.
pub(crate) fn leave_job(demands: &mut [Demand], place: u32)
    ensures { map seen demands.new ≡ map (without_job_at place) (map seen demands.old) }
{
    for demand in demands.iter_mut() {
        demand.job = place_without(place, demand.job);
    }
}

// The task once the machine at a place is gone.
fn without_machine(demand: &Demand, gone: u32) -> Demand
    ensures { seen result ≡ without_machine_at gone (seen demand.now) }
{
    Demand {
        home: home_without(gone, demand.home),
        preferred: preferred_without(gone, demand.preferred.as_slice()),
        delay: demand.delay,
        job: demand.job,
    }
}

// The place of a task's own machine once that at a place is gone, and its tasks wait.
fn home_without(gone: u32, home: Option<u32>) -> Option<u32>
    ensures { result ≡ home_without gone home }
{
    match home {
        Some(place) if place != gone => Some(place_without(gone, place)),
        _ => None,
    }
}

// The places of preferred machines without the one at a place.
fn preferred_without(gone: u32, places: &[u32]) -> ArrayVec<u32, MOST_PREFERENCES>
    requires { length places.now ≤ 4 }
    ensures { result.items ≡ preferred_without gone places.now }
{
    let mut left = ArrayVec::new();
    for place in places {
        if *place != gone {
            left.push(place_without(gone, *place));
        }
    }
    left
}

// The place of a row once that at a place is gone.
fn place_without(gone: u32, place: u32) -> u32
    ensures { result ≡ place_without gone place }
{
    if gone < place { place - 1 } else { place }
}

/// Whether the machine at the place is remote for the task.
pub(crate) fn is_remote(demand: &Demand, place: u32) -> bool
    ensures { result ≡ is_remote (seen demand.now) place }
{
    if demand.preferred.is_empty() || prefers(demand, place) {
        return false;
    }
    !runs_at(demand.home, place)
}

// Whether the task prefers the machine at the place.
fn prefers(demand: &Demand, place: u32) -> bool
    ensures { result ≡ prefers (seen demand.now) place }
{
    demand
        .preferred
        .as_slice()
        .iter()
        .any(|other| *other == place)
}

/// Whether a task that runs at `home`, if it runs, runs at the place.
pub(crate) fn runs_at(home: Option<u32>, place: u32) -> bool
    ensures { result ≡ runs_at home place }
{
    match home {
        Some(own) => own == place,
        None => false,
    }
}
