//! The contents of the queue, a pass's knowledge, and the rule over both.
ghost use Rattle.std.specs.Prelude.{◌≡◌};

use crossbeam_queue::protocol::{Join, Lesson, Outcome, Protocol, Split};
use crossbeam_queue::{Pass, RuledArrayQueue};
use firm_rules::Ticket;
use firm_tenant::Tenant;
use firm_tray::AnswerSide;
use std::collections::LinkedList;

/// The parts of a job. They may be dropped, so that a queue with jobs may be too.
#[derive(Drop)]
pub struct JobParts {
    pub ticket: Ticket,
    pub tenant: Tenant,
    pub side: AnswerSide,
    pub ghost same_book: { side.book ≡ tenant },
}

/// A pass's history: the number of tickets of its place that it put, and the tickets that it got. Never constructed.
pub struct Share {
    pub place: u64,
    pub put: u64,
    pub got: LinkedList<Ticket>,
}

/// A seat's knowledge: its shares, and their number in all. Never constructed.
pub struct Sight {
    pub all: u64,
    pub shares: LinkedList<Share>,
    /// The shares that it had, once they are given away.
    pub memo: LinkedList<Share>,
}

pub struct TicketRule;

impl Protocol<JobParts, Sight> for TicketRule {
    ghost use Rattle.firm_rounds.specs.Rule.{Fair};
    ghost use Rattle.firm_rounds.specs.inner.Seats.{opening};

    ghost holds = { Fair };

    ghost first = { opening };
}

/// One more share, and a seat with none.
pub struct Grow;

impl Split<Sight> for Grow {
    ghost use Rattle.firm_rounds.specs.inner.Seats.{with_new_share, nothing};

    ghost left = { with_new_share };

    ghost right = { λ v. nothing };
}

/// The second share goes to the new seat.
pub struct Cut;

impl Split<Sight> for Cut {
    ghost use Rattle.firm_rounds.specs.inner.Seats.{left_over, cut_off};

    ghost left = { left_over };

    ghost right = { cut_off };
}

/// All shares go to a new seat.
pub struct Give;

impl Split<Sight> for Give {
    ghost use Rattle.firm_rounds.specs.inner.Seats.{given_away};

    ghost left = { given_away };

    ghost right = { λ v. v };
}

/// All shares go to one seat.
pub struct Whole;

impl Join<Sight> for Whole {
    ghost use Rattle.firm_rounds.specs.inner.Seats.{joined, nothing};

    ghost both = { joined };

    ghost spent = { nothing };
}

pub struct Puts;

impl Outcome<JobParts, Sight> for Puts {
    ghost use Rattle.std.specs.Prelude.{◌≡◌};
    ghost use Rattle.firm_rounds.specs.inner.Seats.{after_put};

    ghost then = { λ v x w. w ≡ after_put v };
}

impl Lesson<JobParts, Sight> for Puts {
    ghost fact = { λ v items. Unit {0} };
}

pub struct Pops;

impl Outcome<JobParts, Sight> for Pops {
    ghost use Rattle.std.specs.Prelude.{◌≡◌};
    ghost use Rattle.firm_rounds.specs.inner.Seats.{after_pop};
    ghost use Rattle.firm_rounds.specs.Rule.{FewGot};

    ghost then = { λ v x w. (w ≡ after_pop x.ticket v) × FewGot w };
}

impl Lesson<JobParts, Sight> for Pops {
    ghost use Rattle.firm_rounds.specs.Rule.{Shows};

    ghost fact = { Shows };
}

/// The lesson of the seat with every share.
pub struct Ends;

impl Outcome<JobParts, Sight> for Ends {
    ghost use Rattle.std.specs.Prelude.{◌≡◌};
    ghost use Rattle.firm_rounds.specs.inner.Seats.{after_pop};

    ghost then = { λ v x w. w ≡ after_pop x.ticket v };
}

impl Lesson<JobParts, Sight> for Ends {
    ghost use Rattle.firm_rounds.specs.Rule.{Holds};

    ghost fact = { Holds };
}

pub type Ring = RuledArrayQueue<JobParts, Sight, TicketRule>;

pub type QueueSeat = Pass<JobParts, Sight>;
