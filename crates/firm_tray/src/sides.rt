//! The two sides of a tray.
ghost use Rattle.std.specs.Prelude.{◌≡◌, IfOk};
ghost use Rattle.firm_tray.specs.Solved.{IsSolved};
ghost use Rattle.firm_tray.specs.Polls.{IsPolled};

use crate::protocol::{Board, GivesAnswer, Looks, Sides, Solved, TakesSlot, TraySeat};
use firm_tenant::Tenant;
use std::alloc::{AllocError, Global};
use std::hint::spin_loop;
use std::marker::Model;
use std::sync::{Arc, Wait};

// A wait does not yield, since on a busy machine one yield takes longer than all looks and the sleep.
/// Number of looks in vain of a wait before it sleeps: about ten microseconds, as long as a small round takes.
pub const LOOKS_BEFORE_SLEEP: u32 = 1_024;

/// A tray, on which a tenant's round comes back.
pub struct Tray;

/// The side that waits for the round.
#[derive(Drop)]
pub struct AskSide {
    board: Arc<Board, Global>,
    seat: TraySeat,
}

impl Model for AskSide {
    ghost use Rattle.std.specs.Prelude.{◌≡◌, []};
    ghost use Rattle.std.specs.Arc.{arc_value};
    ghost use Rattle.firm_tray.specs.Sides.{Side};

    ghost Value = { Side };

    ghost use Rattle.firm_tray.specs.Rule.{asking_sight};
    ghost use Rattle.firm_tray.specs.inner.Steps.{IsSeated};
    ghost use Rattle.firm_tray.specs.declared.protocol.Stage.TheVariants.{Asked};

    ghost view = { λ a. record { tray = a.seat.table_id; book = a.seat.me.0.book; vain = a.seat.me.0.vain } };

    ghost invariant = { λ a. IsSeated (arc_value a.board).shared.table_id (arc_value a.board).shared.key a.seat.table_id
        a.seat.me.0.book × (a.seat.me ≡ (asking_sight Asked a.seat.me.0.vain a.seat.me.0.book, [])) };
}

/// The side that answers. It holds the slot.
#[derive(Drop)]
pub struct AnswerSide {
    board: Arc<Board, Global>,
    seat: TraySeat,
}

impl Model for AnswerSide {
    ghost use Rattle.std.specs.Prelude.{◌≡◌, [], ◌∷◌, None};
    ghost use Rattle.std.specs.Arc.{arc_value};
    ghost use Rattle.firm_tray.specs.Sides.{Side};

    ghost Value = { Side };

    ghost use Rattle.firm_tray.specs.Rule.{tray_sight};
    ghost use Rattle.firm_tray.specs.inner.Steps.{IsSeated};
    ghost use Rattle.firm_tray.specs.declared.protocol.Stage.TheVariants.{Open};

    ghost view = { λ a. record { tray = a.seat.table_id; book = a.seat.me.0.book; vain = a.seat.me.0.vain } };

    ghost invariant = { λ a. IsSeated (arc_value a.board).shared.table_id (arc_value a.board).shared.key a.seat.table_id
        a.seat.me.0.book × (a.seat.me ≡ (tray_sight Open a.seat.me.0.book, (0, None) ∷ [])) };
}

/// Proof that a tray was answered.
#[derive(Drop)]
pub struct Spent {
    seat: TraySeat,
}

impl Model for Spent {
    ghost use Rattle.std.specs.Prelude.{◌≡◌, []};
    ghost use Rattle.firm_tray.specs.Sides.{Side};

    ghost Value = { Side };

    ghost use Rattle.firm_tray.specs.Rule.{tray_sight};
    ghost use Rattle.firm_tray.specs.declared.protocol.Stage.TheVariants.{Spent as IsSpent};

    ghost view = { λ a. record { tray = a.seat.table_id; book = a.seat.me.0.book; vain = a.seat.me.0.vain } };

    ghost invariant = { λ a. a.seat.me ≡ (tray_sight IsSpent a.seat.me.0.book, []) };
}

/// The result of a look at a tray.
#[derive(Drop)]
pub enum Polled {
    /// The tenant is back.
    Back(Solved),
    /// There is no answer yet: the word was 0 at one step of the call.
    Not(AskSide),
}

impl Tray {
    /// A tray for the tenant's next round, as its two sides. All its memory is taken here, and want of it is the only
    /// error.
    pub fn open(alloc: Global, tenant: &Tenant) -> Result<(AskSide, AnswerSide), AllocError>
        ensures { IfOk result (λ sides. (sides.0 ≡ sides.1) × (sides.0.book ≡ tenant.now)) }
    {
        let (board, mut seat) = Board::vacant(alloc, &[0], 1, tenant)?;
        let board = Arc::new(alloc, board)?;
        let same_board = Arc::try_clone(&board)?;
        board.shared.load::<TakesSlot>(&mut seat, 0);
        let asking = board.shared.split_seat::<Sides>(&mut seat);
        let ask = AskSide {
            board: same_board,
            seat: asking,
        };
        Ok((ask, AnswerSide { board, seat }))
    }
}

impl AnswerSide {
    /// Hands the tenant over, and wakes the other side if it sleeps. `solved` must be the round of the tenant for which
    /// the tray was opened, solved or refused for want of memory. Takes no memory.
    pub fn answer(self, solved: Solved) -> Spent
        requires { IsSolved self.book solved }
        ensures { result ≡ self }
    {
        let AnswerSide { board, mut seat } = self;
        board.shared.exchange(&mut seat, 0, Some(solved));
        board.shared.store::<GivesAnswer>(&mut seat, 0, 1);
        // One wake is enough, since there is one asking side. The word outlives the wake: this side's share of the
        // board ends later.
        board.shared.wake_one(0);
        Spent { seat }
    }
}

impl AskSide {
    /// Whether the answer is there, as far as one load tells. A `false` may be old when it is read.
    pub fn is_answered(&self) -> bool {
        self.board.shared.peek(0) == 1
    }

    /// The tenant with its round, if the answer is there; else the same side again. Never waits, and takes no memory.
    pub fn poll(self) -> Polled
        ensures { IsPolled self result }
    {
        let AskSide { board, mut seat } = self;
        if board.shared.compare_exchange::<Looks>(&mut seat, 0, 1, 2) == 1 {
            Polled::Back(board.shared.exchange(&mut seat, 0, None).unwrap())
        } else {
            Polled::Not(AskSide { board, seat })
        }
    }

    /// The tenant with its round, once the answer is there. After some looks in vain, sleeps until then. Takes no
    /// memory.
    pub fn wait<R: Wait>(self, rt: &R) -> Solved
        ensures { IsSolved self.book result }
    {
        let mut side = self;
        let mut looks = 0;
        for _ in rt.forever() {
            match side.poll() {
                Polled::Back(solved) => return solved,
                Polled::Not(same) => side = same,
            }
            if looks < LOOKS_BEFORE_SLEEP {
                looks += 1;
                spin_loop();
            } else {
                side.sleep(rt);
            }
        }
        unreachable!()
    }

    // Sleeps while the word is 0. No wake-up is lost: comparing the word and going to sleep are one step, and the
    // answering side stores 1 before it wakes the sleeper. So either the answer came first, and there is no sleep, or
    // the wake finds the sleeper.
    fn sleep<R: Wait>(&self, rt: &R) {
        self.board.shared.park(rt, 0, 0);
    }
}
