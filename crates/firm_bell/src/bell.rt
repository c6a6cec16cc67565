//! The bell as callers ring it and workers listen to it. Each step here keeps the rule of `specs/Bell.antt`.
ghost use Rattle.std.specs.Prelude.{◌≡◌, ◌+◌, ◌<◌, ◌≤◌, MatchBool, false, true};
ghost use Rattle.firm_bell.specs.declared.rule.Stage.TheVariants.{Awake, Putting, Announced, Resting, Ended};
ghost use Rattle.firm_bell.specs.Bell.{newcomer};
ghost use Rattle.firm_bell.specs.Steps.{HasCalled, HasTaken, HasWoken, Knows, OwesNothing, StandsAt};
ghost use Rattle.firm_bell.specs.Steps.{at_stage, free, owing};

use crate::rule::{
    Announces, BellSeat, Board, Comes, Discharges, EVERYONE, Ends, EndsRest, Expects, LearnsShut,
    LiesDown, LooksForRest, LooksForRound, OWES, Owes, RESTING, Rings, Shuts, Takes, WAITING,
    WAKES, WORDS, Wakes,
};
use std::alloc::{AllocError, Global};
use std::hint::spin_loop;
use std::marker::Model;
use std::sync::Wait;

// Number of looks in vain of a worker before it rests. The last one awake goes on for some microseconds:
// in a stream of small rounds, each wake would cost as much. No worker yields: on a busy machine, one yield takes
// longer than all the looks and the sleep.
const LOOKS_BEFORE_REST: u32 = 16;

const LOOKS_OF_LAST: u32 = 512;

// Number of rounds that fit the queue.
const ROOM: u64 = 8;

// Number of rounds that may wait before each further one wakes a worker.
const MOST_UNCALLED: u64 = 4;

/// Wakes workers. A round wakes one at once only if all rest or `MOST_UNCALLED` rounds already wait. Otherwise the
/// thread that put it goes on, and wakes one when it rings, if a round is still waiting then.
#[derive(Drop)]
pub struct Bell {
    workers: u64,
    board: Board,
}

impl Model for Bell {
    ghost use Rattle.std.specs.Prelude.{◌≡◌, ◌≤◌};
    ghost use Rattle.atomic_table.specs.Seated.{TableId};

    ghost Value = { TableId };

    ghost view = { λ b. b.board.shared.table_id };

    ghost invariant = { λ b. (1 ≤ b.workers) × (b.workers ≤ 8) × (b.board.shared.table_id.words ≡ 32) };
}

/// A thread that puts rounds and rings, or shuts the bell. It is not `Drop`: it ends by `end`, once it owes nothing.
pub struct Caller {
    seat: BellSeat,
    owes_ring: bool,
}

impl Model for Caller {
    ghost use Rattle.std.specs.Prelude.{◌≡◌};
    ghost use Rattle.firm_bell.specs.Steps.{BellSeat};

    ghost Value = { BellSeat };

    ghost view = { λ c. c.seat };

    ghost invariant = { λ c. c.owes_ring ≡ c.seat.me.0.owes_ring };
}

/// A worker as the bell sees it. One that was woken owes a call: once it has a round, it wakes another worker if more
/// rounds wait, since one wake may stand for several.
#[derive(Drop)]
pub struct Listener {
    seat: BellSeat,
    owes_call: bool,
}

impl Model for Listener {
    ghost use Rattle.std.specs.Prelude.{◌≡◌};
    ghost use Rattle.firm_bell.specs.Steps.{BellSeat};

    ghost Value = { BellSeat };

    ghost view = { λ l. l.seat };

    ghost invariant = { λ l. l.owes_call ≡ l.seat.me.0.owes_call };
}

/// The name of a bell: a seat at it that takes no part. It has no bytes, and contracts alone read it.
#[derive(Drop)]
pub struct BellName {
    seat: BellSeat,
}

impl Model for BellName {
    ghost use Rattle.atomic_table.specs.Seated.{TableId};

    ghost Value = { TableId };

    ghost view = { λ n. n.seat.table_id };
}

impl Bell {
    /// A bell for 1 to 8 workers. Fails only if memory is refused.
    pub fn open(alloc: Global, workers: usize) -> Result<Bell, AllocError>
        requires { (1 ≤ workers) × (workers ≤ 8) }
    {
        let (board, _seat) = Board::of_words(alloc, &[0; WORDS], &())?;
        Ok(Bell {
            workers: workers as u64,
            board,
        })
    }

    /// Its name.
    pub fn name(&self) -> BellName
        ensures { result ≡ self.now }
    {
        let (_, seat) = self.board.shared.load_new_seat::<Comes>(WAITING);
        BellName { seat }
    }

    /// A new caller, which owes nothing.
    pub fn caller(&self) -> Caller
        ensures called { HasCalled self.now 0 result }
        ensures nothing { OwesNothing result }
    {
        let (_, seat) = self.board.shared.load_new_seat::<Comes>(WAITING);
        Caller {
            seat,
            owes_ring: false,
        }
    }

    /// Called before a round is put: counts it. Returns how many rounds already wait.
    pub fn expect(&self, caller: &mut Caller) -> u64
        requires { StandsAt self.now Awake caller.old }
        ensures puts { StandsAt self.now Putting caller.new }
        ensures counted { caller.new.me.0.counted ≡ caller.old.me.0.counted + 1 }
    {
        self.board
            .shared
            .fetch_add::<Expects>(&mut caller.seat, WAITING, 1)
    }

    /// Called once the round is put, with the number that waited before it. The caller may have to ring from now on.
    pub fn came(&self, caller: &mut Caller, older: u64)
        requires { StandsAt self.now Putting caller.old }
        ensures { HasCalled self.now caller.old.me.0.counted caller.new }
    {
        let table = &self.board.shared;
        let resting = table.load::<LooksForRest>(&mut caller.seat, RESTING);
        if resting != 0 {
            if resting == self.workers || MOST_UNCALLED <= older {
                self.call(&mut caller.seat, resting);
            } else {
                table.store::<Owes>(&mut caller.seat, OWES, 1);
                caller.owes_ring = true;
            }
        }
    }

    /// Whether the queue has room for one more round. If so, and no other thread puts rounds, a put does not wait.
    pub fn has_room(&self) -> bool {
        self.board.shared.peek(WAITING) < ROOM
    }

    /// Rings, if the caller has to: wakes a worker for an owed wake while a round waits.
    pub fn ring(&self, caller: &mut Caller)
        requires { HasCalled self.now caller.old.me.0.counted caller.old }
        ensures called { HasCalled self.now caller.old.me.0.counted caller.new }
        ensures nothing { OwesNothing caller.new }
    {
        if !caller.owes_ring {
            return;
        }
        caller.owes_ring = false;
        let owed = self.board.shared.swap::<Rings>(&mut caller.seat, OWES, 0);
        if owed != 0 {
            self.call_if_waiting(&mut caller.seat);
        }
    }

    /// Wakes all workers for good. Each may end once no round waits.
    pub fn shut(&self) {
        let table = &self.board.shared;
        let (_, seat) = table.swap_new_seat::<Shuts>(WAKES, EVERYONE);
        table.wake_all(WAKES);
        let caller = Caller {
            seat,
            owes_ring: false,
        };
        caller.end();
    }

    // Wakes a worker if a round waits and one rests.
    fn call_if_waiting(&self, seat: &mut BellSeat)
        requires { StandsAt self.now Awake seat.old }
        ensures { HasWoken self.now seat.old.me.0 seat.new.me.0.left seat.new }
    {
        let table = &self.board.shared;
        if table.load::<LooksForRound>(seat, WAITING) == 0 {
            return;
        }
        let resting = table.load::<LooksForRest>(seat, RESTING);
        if resting != 0 {
            self.call(seat, resting);
        }
    }

    // Leaves a wake for one of the workers that rest, unless each has one. Calls the kernel for each wake that it
    // leaves, so none is left while all that rest sleep.
    fn call(&self, seat: &mut BellSeat, resting: u64) -> Woken
        requires seat { StandsAt self.now Awake seat.old }
        requires some { 1 ≤ resting }
        ensures { HasWoken self.now seat.old.me.0 (seat.old.me.0.left + result.wakes) seat.new }
    {
        let table = &self.board.shared;
        let most = resting.min(self.workers);
        let wakes = table.peek(WAKES).saturating_add(1).min(most);
        let before = table.fetch_max::<Discharges>(seat, WAKES, wakes);
        self.wake(wakes.saturating_sub(before))
    }

    // Calls the kernel for N wakes.
    fn wake(&self, wakes: u64) -> Woken
        ensures { result.wakes ≡ wakes }
    {
        let mut woken = Woken { wakes: 0 };
        for _ in 0..wakes {
            self.wake_one(&mut woken);
        }
        woken
    }

    // The one call of the kernel for a wake.
    fn wake_one(&self, woken: &mut Woken)
        requires { woken.old.wakes < 18446744073709551615 }
        ensures { woken.new.wakes ≡ woken.old.wakes + 1 }
    {
        self.board.shared.wake_one(WAKES);
        woken.wakes += 1;
    }
}

// For how many wakes the kernel was called. Only `Bell::wake_one` raises it.
#[derive(Drop)]
struct Woken {
    wakes: u64,
}

impl Caller {
    /// Lets the caller go, which owes nothing.
    pub fn end(self)
        requires { OwesNothing self }
    {
        let Caller {
            seat: _,
            owes_ring: _,
        } = self;
    }
}

/// The stages of a worker.
impl Bell {
    /// A worker that has just come.
    pub fn listener(&self) -> Listener
        ensures { Knows self.now newcomer result }
    {
        let (_, seat) = self.board.shared.load_new_seat::<Comes>(WAITING);
        Listener {
            seat,
            owes_call: false,
        }
    }

    /// Whether the bell is shut.
    pub fn is_shut(&self, listener: &mut Listener) -> bool
        requires { StandsAt self.now Awake listener.old }
        ensures listens { StandsAt self.now Awake listener.new }
        ensures knows { result ≡ true → listener.new.me.0.knows_shut ≡ true }
        ensures took { listener.new.me.0.took ≡ listener.old.me.0.took }
        ensures owes { listener.new.me.0.owes_call ≡ listener.old.me.0.owes_call }
    {
        self.board
            .shared
            .load::<LearnsShut>(&mut listener.seat, WAKES)
            == EVERYONE
    }

    /// Called once a round is taken. Returns whether the queue was full until then.
    pub fn took(&self, listener: &mut Listener) -> bool
        requires { StandsAt self.now Awake listener.old }
        ensures listens { StandsAt self.now Awake listener.new }
        ensures took { HasTaken 1 listener.old listener.new }
    {
        let before = self
            .board
            .shared
            .fetch_sub::<Takes>(&mut listener.seat, WAITING, 1);
        // Never, since a round is counted before it is put: the rule counts modulo 2^64.
        if before == 0 {
            listener.owes_call = true;
        }
        before == ROOM
    }

    /// Makes the call that the worker owes, if it does.
    pub fn make_owed_call(&self, listener: &mut Listener)
        requires { StandsAt self.now Awake listener.old }
        ensures listens { StandsAt self.now Awake listener.new }
        ensures owes { listener.new.me.0.owes_call ≡ false }
        ensures took { HasTaken 0 listener.old listener.new }
    {
        if listener.owes_call {
            self.call_if_waiting(&mut listener.seat);
            listener.owes_call = false;
        }
    }

    /// Whether the worker ends, which knows that the bell is shut: only if no round waits.
    pub fn ends(&self, listener: &mut Listener) -> bool
        requires listens { StandsAt self.now Awake listener.old }
        requires knows { listener.old.me.0.knows_shut ≡ true }
        ensures { MatchBool result (StandsAt self.now Ended listener.new)
            (StandsAt self.now Awake listener.new) }
    {
        let is_over = self.board.shared.load::<Ends>(&mut listener.seat, WAITING) == 0;
        // One that has ended owes nothing.
        listener.owes_call = listener.owes_call && !is_over;
        is_over
    }

    /// Called after a number of looks in vain. Rests until a wake if they were enough and no round waits. Returns how
    /// many there were since the last rest.
    pub fn rest_or_look<R: Wait>(&self, rt: &R, listener: &mut Listener, looks: u32) -> u32
        requires { StandsAt self.now Awake listener.old }
        ensures listens { StandsAt self.now Awake listener.new }
        ensures took { HasTaken 0 listener.old listener.new }
    {
        if self.is_to_look_on(looks) || !self.announce(&mut listener.seat) {
            spin_loop();
            return looks.saturating_add(1);
        }
        self.sleep_if_none_waits(rt, listener);
        self.board
            .shared
            .fetch_sub::<EndsRest>(&mut listener.seat, RESTING, 1);
        0
    }

    // Sleeps until a wake if no round waits.
    fn sleep_if_none_waits<R: Wait>(&self, rt: &R, listener: &mut Listener)
        requires { StandsAt self.now Announced listener.old }
        ensures listens { StandsAt self.now Announced listener.new }
        ensures took { HasTaken 0 listener.old listener.new }
    {
        if self.lies_down(&mut listener.seat) {
            self.sleep(rt, &mut listener.seat);
            listener.owes_call = true;
        }
    }

    fn is_to_look_on(&self, looks: u32) -> bool {
        looks < LOOKS_BEFORE_REST || looks < LOOKS_OF_LAST && self.all_others_rest()
    }

    // Whether all workers but the caller rest.
    fn all_others_rest(&self) -> bool {
        self.workers <= self.board.shared.peek(RESTING).saturating_add(1)
    }

    // Announces a rest, unless another worker announces or ends one in the same moment.
    fn announce(&self, seat: &mut BellSeat) -> bool
        requires { StandsAt self.now Awake seat.old }
        ensures { MatchBool result (Knows self.now (at_stage Announced seat.old.me.0) seat.new)
            (Knows self.now seat.old.me.0 seat.new) }
    {
        let table = &self.board.shared;
        let resting = table.peek(RESTING);
        if self.workers <= resting {
            return false;
        }
        table.compare_exchange::<Announces>(seat, RESTING, resting, resting + 1) == resting
    }

    // Whether no round waits, so that the worker may sleep. A round that is counted after this look finds it at rest.
    fn lies_down(&self, seat: &mut BellSeat) -> bool
        requires { StandsAt self.now Announced seat.old }
        ensures { MatchBool result (Knows self.now (free Resting seat.old.me.0) seat.new)
            (Knows self.now seat.old.me.0 seat.new) }
    {
        self.board.shared.load::<LiesDown>(seat, WAITING) == 0
    }

    // Sleeps until a wake.
    fn sleep<R: Wait>(&self, rt: &R, seat: &mut BellSeat)
        requires { StandsAt self.now Resting seat.old }
        ensures { Knows self.now (owing Announced seat.old.me.0) seat.new }
    {
        let table = &self.board.shared;
        for _ in rt.forever() {
            let wakes = table.peek(WAKES);
            if wakes == 0 {
                table.park(rt, WAKES, 0);
            } else if self.wakes_up(seat, wakes) {
                return;
            }
        }
        unreachable!()
    }

    // Uses one wake, if this is still their number.
    fn wakes_up(&self, seat: &mut BellSeat, wakes: u64) -> bool
        requires seat { StandsAt self.now Resting seat.old }
        requires some { 1 ≤ wakes }
        ensures { MatchBool result (Knows self.now (owing Announced seat.old.me.0) seat.new)
            (Knows self.now seat.old.me.0 seat.new) }
    {
        let left = if wakes < EVERYONE { wakes - 1 } else { wakes };
        self.board
            .shared
            .compare_exchange::<Wakes>(seat, WAKES, wakes, left)
            == wakes
    }
}
