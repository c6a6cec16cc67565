//! Events of a table, one at a time: where they fit, and where they don't.

use super::check;
use Given::{Admit, Answer, Ask, Collect, Costs, Retire, Round, Show, Take};
use Wanted::{Admitted, NotNow, Queued, Retired, Says, Solved, Took};
use firm_rules::{Command, Limits, Name, Reply, Ticket};
use firm_table::{Event, Table};
use firm_text::{reply_text, roster};
use std::alloc::Global;
use std::process::Abort;

/// An event, at a place or of a worker.
enum Given {
    Show(usize),
    Costs(usize),
    /// A round that is posted, and not asked for.
    Round(usize),
    Ask(usize),
    Take(usize),
    Answer(usize),
    Collect(usize),
    /// The tenant that comes has room for nothing and two commands.
    Admit(usize),
    Retire(usize),
}

/// The answer to an event.
enum Wanted {
    NotNow,
    Admitted,
    Retired,
    Queued(Ticket),
    Took(Ticket),
    Solved(Ticket),
    /// This reply, as it would be written for a tenant `t`.
    Says(&'static str),
}

type Row = (Given, Wanted);

/// Events in turn, at a table that opens with this roster and this many workers.
struct Script {
    roster: &'static [u8],
    workers: usize,
    rows: &'static [Row],
}

/// A new tenant has a new book, and its tickets go on from those of the tenant before it.
const A1: Ticket = Ticket {
    place: 0,
    number: 1,
};

const A2: Ticket = Ticket {
    place: 0,
    number: 2,
};

const B1: Ticket = Ticket {
    place: 1,
    number: 1,
};

const C1: Ticket = Ticket {
    place: 63,
    number: 1,
};

const NOTHING: &str = "t 1 ok machines 0 jobs 0 tasks 0 running 0 nodes 2 of 2 arcs 0 of 0";

/// The worker takes a second round before the first one is collected.
const OF_ONE_WORKER: &[Row] = &[
    (Round(0), NotNow),
    (Ask(0), Queued(A1)),
    (Ask(0), NotNow),
    (Show(0), NotNow),
    (Answer(0), NotNow),
    (Collect(0), NotNow),
    (
        Show(1),
        Says("t 1 ok machines 0 jobs 0 tasks 0 running 0 nodes 2 of 8 arcs 0 of 30"),
    ),
    (Ask(1), Queued(B1)),
    (Ask(2), NotNow),
    (Take(1), NotNow),
    (Take(0), Took(A1)),
    (Take(0), NotNow),
    (Answer(0), Solved(A1)),
    (Take(0), Took(B1)),
    (Collect(0), Says("t 1 ok round cost 0")),
    (Collect(1), NotNow),
    (Answer(0), Solved(B1)),
    (Collect(1), Says("t 2 ok round cost 0")),
];

/// The tenants have two commands each.
const OF_TWO_WORKERS: &[Row] = &[
    (Round(0), NotNow),
    (Show(2), NotNow),
    (Ask(2), NotNow),
    (Collect(0), NotNow),
    (Retire(2), NotNow),
    (Retire(64), NotNow),
    (Take(0), NotNow),
    (Answer(0), NotNow),
    (Admit(0), NotNow),
    (Admit(64), NotNow),
    (Ask(1), Queued(B1)),
    (Ask(0), Queued(A1)),
    (Ask(0), NotNow),
    (Show(0), NotNow),
    (Collect(0), NotNow),
    (Retire(0), NotNow),
    (Admit(0), NotNow),
    (Answer(0), NotNow),
    (Take(2), NotNow),
    (Take(1), Took(B1)),
    (Take(1), NotNow),
    (Take(0), Took(A1)),
    (Take(0), NotNow),
    (Ask(0), NotNow),
    (Show(0), NotNow),
    (Collect(0), NotNow),
    (Retire(0), NotNow),
    (Admit(0), NotNow),
    (Answer(2), NotNow),
    (Answer(0), Solved(A1)),
    (Answer(0), NotNow),
    (Take(0), NotNow),
    (Ask(0), NotNow),
    (Show(0), NotNow),
    (Retire(0), NotNow),
    (Admit(0), NotNow),
    (Collect(1), NotNow),
    (Collect(0), Says("t 1 ok round cost 0")),
    (Collect(0), NotNow),
    (Ask(0), Queued(A2)),
    (Answer(1), Solved(B1)),
    (Collect(1), Says("t 1 ok round cost 0")),
    (Costs(1), Says("t 2 ok costs 0")),
    (Ask(1), Says("t 3 no 1 worn")),
    (Show(1), Says("t 3 no 1 worn")),
    (Admit(63), Admitted),
    (Admit(63), NotNow),
    (Ask(63), Queued(C1)),
    (Take(1), Took(A2)),
    (Answer(1), Solved(A2)),
    (Collect(0), Says("t 2 ok round cost 0")),
    (Retire(0), Retired),
    (Retire(0), NotNow),
    (Ask(0), NotNow),
    (Admit(0), Admitted),
    (Show(0), Says(NOTHING)),
    (
        Ask(0),
        Queued(Ticket {
            place: 0,
            number: 3,
        }),
    ),
];

/// Two tenants, at the first places.
static SCRIPTS: [Script; 2] = [
    Script {
        roster: b"tenant,nodes,arcs,life,spread,churn\nalpha,9,24,100,1,2\nbeta,8,30,100,0,3",
        workers: 1,
        rows: OF_ONE_WORKER,
    },
    Script {
        roster: b"tenant,nodes,arcs,life,spread,churn\na,2,0,2,0,0\nb,2,0,2,0,0",
        workers: 2,
        rows: OF_TWO_WORKERS,
    },
];

fn event(given: &Given, limits: Limits) -> Event {
    match given {
        Show(place) => Event::Post(*place, Command::Show),
        Costs(place) => Event::Post(*place, Command::Costs),
        Round(place) => Event::Post(*place, Command::Round),
        Ask(place) => Event::Ask(*place),
        Take(worker) => Event::Take(*worker),
        Answer(worker) => Event::Answer(*worker),
        Collect(place) => Event::Collect(*place),
        Admit(place) => Event::Admit(*place, limits),
        Retire(place) => Event::Retire(*place),
    }
}

/// Whether the reply is written so.
fn says(alloc: Global, name: Name, reply: &Reply, wanted: &str) -> bool {
    match reply_text(alloc, name, reply) {
        Ok(text) => text.as_slice() == wanted.as_bytes(),
        Err(_) => false,
    }
}

fn is_answered(alloc: Global, name: Name, answer: &firm_table::Answer, wanted: &Wanted) -> bool {
    match (answer, wanted) {
        (firm_table::Answer::NotNow, NotNow) => true,
        (firm_table::Answer::Admitted, Admitted) => true,
        (firm_table::Answer::Retired, Retired) => true,
        (firm_table::Answer::Queued(ticket), Queued(same)) => ticket == same,
        (firm_table::Answer::Took(ticket), Took(same)) => ticket == same,
        (firm_table::Answer::Solved(ticket), Solved(same)) => ticket == same,
        (firm_table::Answer::Replied(reply), Says(text)) => says(alloc, name, reply, text),
        _ => false,
    }
}

/// Says which step is answered otherwise.
fn expect_step(rt: &impl Abort, is_expected: bool, step: usize) {
    assert!(rt; is_expected, "the answer of step {step}");
}

fn expect_rows(rt: &impl Abort, alloc: Global, table: &mut Table, rows: &[Row]) {
    let limits = Limits::check(2, 0, 2, 0, 0, 0).expect(rt, "limits");
    let name = Name::read(b"t").expect(rt, "a name");
    for (step, (given, wanted)) in rows.iter().enumerate() {
        let answer = table.event(alloc, event(given, limits));
        expect_step(rt, is_answered(alloc, name, &answer, wanted), step);
    }
}

fn play(rt: &impl Abort, alloc: Global, script: &Script) {
    let roster = roster(alloc, script.roster).ok().expect(rt, "a roster");
    let workers = script.workers.clamp(1, 8);
    let mut table = Table::open(alloc, &roster, workers).expect(rt, "memory");
    expect_rows(rt, alloc, &mut table, script.rows);
}

#[test]
fn each_event_is_answered_where_it_fits(rt: HostRuntime) {
    for script in &SCRIPTS {
        play(&rt, rt.alloc(), script);
    }
}
