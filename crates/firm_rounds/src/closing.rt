//! A queue that is closed one pass at a time.
ghost use Rattle.std.specs.Prelude.{◌≡◌, ℕ, ◌≤◌, [], ◌∷◌, ◌++◌, length};
ghost use Rattle.firm_rounds.specs.Rounds.{share};
ghost use Rattle.firm_rounds.specs.Passes.{closing_is, spent_put, spent_pop};
ghost use Rattle.firm_rounds.specs.Closed.{Settled};

use crate::gathering::drain;
use crate::job::Job;
use crate::passes::{PopPass, PutPass};
use crate::protocol::{QueueSeat, Ring, Whole};
use crate::queue::Room;
use firm_bell::Bell;
use std::marker::Model;
use std::sync::{Mutex, Wait};

/// A queue whose passes are being handed in. Contracts see the shares it has so far.
#[derive(Drop)]
pub struct Closing {
    pub(crate) ring: Ring,
    pub(crate) keep: QueueSeat,
    pub(crate) bell: Bell,
    pub(crate) left: Mutex<Room>,
}

impl Model for Closing {
    ghost use Rattle.std.specs.Prelude.{◌≡◌, ◌<◌, [], length};
    ghost use Rattle.crossbeam_queue.specs.Passes.{view as sees, IsPassOf};
    ghost use Rattle.firm_rounds.specs.Passes.{ClosingIs, closing_is, queue_of};

    ghost Value = { ClosingIs };

    ghost view = { λ c. closing_is (queue_of c.bell c.keep) (sees c.keep).shares };

    ghost invariant = { λ c. IsPassOf c.ring c.keep × (0 < length (sees c.keep).shares) × (0 < (sees c.keep).all) };
}

impl Closing {
    /// Takes in what a pass put.
    pub fn put_pass(&mut self, pass: &mut PutPass)
        requires { pass.old.queue ≡ self.old.id }
        ensures closing { self.new ≡ closing_is self.old.id
            (self.old.shares ++ share pass.old.place pass.old.put [] ∷ []) }
        ensures pass { pass.new ≡ spent_put pass.old }
    {
        let put = pass.give(&self.ring);
        self.ring.absorb::<Whole>(&mut self.keep, put);
    }

    /// Takes in what a pass got.
    pub fn pop_pass(&mut self, pass: &mut PopPass)
        requires { pass.old.queue ≡ self.old.id }
        ensures closing { (p : ℕ) × (self.new ≡ closing_is self.old.id
            (self.old.shares ++ share p 0 pass.old.got ∷ [])) }
        ensures pass { pass.new ≡ spent_pop pass.old }
    {
        let got = pass.give(&self.ring);
        self.ring.absorb::<Whole>(&mut self.keep, got);
    }

    /// Ends the queue, and returns the jobs that it still held, front first.
    pub fn end<R: Wait>(self, rt: &R) -> Vec<Job>
        requires { self.id.all ≤ length self.shares }
        ensures { Settled self.shares result.items }
    {
        let Closing {
            ring,
            keep,
            bell: _,
            left,
        } = self;
        drain(rt, &ring, keep, left.into_inner().into_jobs())
    }
}
