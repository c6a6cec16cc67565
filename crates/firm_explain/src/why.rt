//! All choices of one task, with its own rents.

ghost use Rattle.std.specs.Prelude.{◌<◌, length};
ghost use Rattle.firm_rents.specs.Rents.{CostsAtLeast, Show};

use crate::choices::ranks_before;
use crate::market::Market;
use crate::moves::Moves;
use crate::page::Page;
use crate::reasons::{put_more, put_rents, put_sum};
use crate::witness::Witnesses;
use firm_rents::{Rents, Shown, excess, rents_for, shows_least};
use firm_rules::{Choice, Name, legality_is_judged};
use std::alloc::{AllocError, Global};

/// Another choice of the task, in the order of the line: by how much more it costs; of those that cost the same, first
/// those that rank after the task's own choice; then by place, with waiting last.
#[derive(Clone, Copy, PartialEq, Eq, PartialOrd, Ord)]
struct Rival {
    more: u64,
    ranks_before: bool,
    place: u32,
}

impl Rival {
    // Whether it stands next to the other one and shares its closing words.
    fn is_like(&self, other: Rival) -> bool {
        self.more == other.more && self.ranks_before == other.ranks_before
    }
}

/// Adds how much more each other choice of the task of this name costs, by the rents under which each costs the most
/// that it can; nothing if there is no such task.
pub(crate) fn put_why(page: &mut Page, market: &Market<'_>, name: Name) {
    match market.rows.task_place(name) {
        Some(number) if number < market.case.task_count() => put_task_why(page, market, number),
        _ => {}
    }
}

// The same for the task of this number.
fn put_task_why(page: &mut Page, market: &Market<'_>, number: usize)
    requires { number < length market.now.case.now.tasks }
{
    let Ok(rents) = rents_for(page.alloc, market.case, market.placement, number) else {
        return page.refuse();
    };
    let shown = shows_least(market.case, &rents, market.placement);
    if shown.least {
        put_by_rents(page, market, number, &rents, shown);
    } else {
        page.put_task(b"# NOT SHOWN to be least by ", market.rows, number);
        page.put(b"'s rents\n");
    }
}

// The same by rents of the task's own that show the placement.
fn put_by_rents(page: &mut Page, market: &Market<'_>, number: usize, rents: &Rents, by_rents: Shown)
    requires task { number < length market.now.case.now.tasks }
    requires shown { Show market.now.case.now rents.now market.now.placement.now }
{
    let Ok(rivals) = rivals_of(page.alloc, market, number, rents) else {
        return page.refuse();
    };
    page.put_task(b"# ", market.rows, number);
    page.put(b"'s");
    put_rents(page, market.rows, rents);
    put_rivals(page, market, number, rents, &rivals);
    put_shown(page, market, number, by_rents);
    put_witnesses(page, market, number, rents, &rivals);
}

// The other changes of a placement in which the task has each other choice.
fn put_witnesses(
    page: &mut Page,
    market: &Market<'_>,
    number: usize,
    rents: &Rents,
    rivals: &[Rival],
) {
    let Ok(moves) = Moves::of(page.alloc, market, rents) else {
        return page.refuse();
    };
    match &Witnesses::of(page.alloc, &moves, market, number) {
        Ok(witnesses) => {
            for rival in rivals.iter() {
                witnesses.put(page, market, choice_of(*rival), rival.more);
            }
        }
        Err(_) => page.refuse(),
    }
}

// The line that closes the proof by the task's own rents.
fn put_shown(page: &mut Page, market: &Market<'_>, number: usize, shown: Shown) {
    page.put_task(b"# least by ", market.rows, number);
    page.put_number(b"'s rents: cost ", shown.cost);
    put_sum(page, shown);
    page.put(b"\n");
}

// The task's choice, followed by all others.
fn put_rivals(page: &mut Page, market: &Market<'_>, number: usize, rents: &Rents, rivals: &[Rival])
    requires { number < length market.now.case.now.tasks }
{
    let (choice, home) = (market.choice_of(number), market.case.home(number));
    page.put_task(b"# ", market.rows, number);
    page.put_choice(market.rows, choice, home);
    page.put_number(b": ", market.case.cost_of_choice(number, choice));
    if let Choice::On(_) = choice {
        page.put_number(b" + rent ", rents.of_choice(choice));
    }
    let mut before = None;
    for rival in rivals.iter() {
        put_end_of(page, before, Some(*rival));
        page.put_other(market.rows, choice_of(*rival), home);
        before = Some(*rival);
    }
    put_end_of(page, before, None);
    page.put(b"\n");
}

// All other choices of the task, those that cost least more first.
fn rivals_of(
    alloc: Global,
    market: &Market<'_>,
    number: usize,
    rents: &Rents,
) -> Result<Vec<Rival>, AllocError>
    requires task { number < length market.now.case.now.tasks }
    requires shown { Show market.now.case.now rents.now market.now.placement.now }
{
    let (choice, home) = (market.choice_of(number), market.case.home(number));
    let machines = market.case.machine_count();
    let mut rivals = Vec::with_capacity(alloc, machines.saturating_add(1))?;
    for place in 0..=machines {
        let other = choice_at(place, machines);
        if other != choice {
            let more = more_by(market, rents, number, other);
            rivals.push(Rival {
                more,
                ranks_before: more == 0 && ranks_before(other, choice, home),
                place: place_of(other),
            })?;
        }
    }
    rivals.sort()?;
    Ok(rivals)
}

// The least excess of every legal placement in which the task has this choice, by these rents.
fn more_by(market: &Market<'_>, rents: &Rents, number: usize, other: Choice) -> u64
    requires task { number < length market.now.case.now.tasks }
    requires shown { Show market.now.case.now rents.now market.now.placement.now }
    ensures { CostsAtLeast market.now.case.now market.now.placement.now number other result }
{
    legality_is_judged();
    excess(market.case, rents, number, market.choice_of(number), other)
}

// The choice at a place; waiting stands past the last machine.
fn choice_at(place: usize, machines: usize) -> Choice {
    match u32::try_from(place) {
        Ok(at) if place < machines => Choice::On(at),
        _ => Choice::Wait,
    }
}

fn place_of(choice: Choice) -> u32 {
    match choice {
        Choice::On(place) => place,
        Choice::Wait => u32::MAX,
    }
}

fn choice_of(rival: Rival) -> Choice {
    match rival.place {
        u32::MAX => Choice::Wait,
        place => Choice::On(place),
    }
}

// Text between two choices: the excess of the one before, unless the next costs as much.
fn put_end_of(page: &mut Page, before: Option<Rival>, next: Option<Rival>) {
    match (before, next) {
        (Some(last), Some(rival)) if rival.is_like(last) => return page.put(b", "),
        (Some(last), _) => put_more(page, last.more, true, !last.ranks_before),
        _ => {}
    }
    if next.is_some() {
        page.put(b"; ");
    }
}
