//! Rounds that are answered on a tray, from another thread.

ghost use Rattle.std.specs.Prelude.{◌≡◌};

use super::check;
use firm_rounds::Job;
use firm_rules::{Limits, Outcome, Refusal, Ticket};
use firm_tenant::Tenant;
use firm_tray::{AnswerSide, AskSide, Polled, Solved, Tray};
use std::alloc::Global;
use std::process::Abort;
use std::sync::Wait;
use std::thread;
use std::thread::Threads;

const TICKET: Ticket = Ticket {
    place: 0,
    number: 1,
};

// A tenant that has nothing and answers one command, and the two sides of a tray for its round.
pub fn asked(rt: &impl Abort, alloc: Global) -> (Tenant, AskSide, AnswerSide)
    ensures { result.2.book ≡ result.0 }
{
    let limits = Limits::check(2, 0, 1, 0, 0, 0).expect(rt, "limits");
    let tenant = Tenant::admit(alloc, limits).expect(rt, "memory");
    let (ask, answer) = Tray::open(alloc, &tenant).expect(rt, "memory");
    (tenant, ask, answer)
}

// Whether it is the first round of such a tenant, which then has no life left.
fn is_first_round(solved: &Solved) -> bool {
    let is_worn = matches!(solved.reply.outcome, Outcome::Refused(Refusal::Worn));
    solved.reply.number == 1 && !is_worn && solved.tenant.life_left() == 0
}

// Looks at the tray once: whether the first round is back on it, or else the side again.
pub fn look(side: AskSide) -> Result<bool, AskSide> {
    match side.poll() {
        Polled::Back(solved) => Ok(is_first_round(&solved)),
        Polled::Not(same) => Err(same),
    }
}

// Expects back the round that another thread solves.
fn expect_back_from_thread<R: Abort + Threads + Wait>(rt: &R, alloc: Global) {
    let (tenant, ask, answer) = asked(rt, alloc);
    let worker = thread::spawn(
        rt,
        move ||
            requires { answer.book ≡ tenant }
        {
            let _spent = Job::new(TICKET, tenant, answer).finish(alloc);
        },
    );
    let worker = worker.ok().expect(rt, "a thread");
    let is_back = is_first_round(&ask.wait(rt));
    worker.join(rt);
    check(rt, is_back, "the round is back");
}

#[test]
fn rounds_come_back_from_another_thread_a_thousand_times(rt: HostRuntime) {
    for _ in 0..1000 {
        expect_back_from_thread(&rt, rt.alloc());
    }
}
