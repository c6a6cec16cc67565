//! Cutting the opening seat into one for each pass.
ghost use Rattle.std.specs.Prelude.{◌≡◌, ◌+◌, ◌-◌, ◌<◌, ◌≤◌, [], ◌∷◌, IfOk};
ghost use Rattle.crossbeam_queue.specs.Passes.{view, IsPassOf};
ghost use Rattle.firm_rounds.specs.Rounds.{share};
ghost use Rattle.firm_rounds.specs.inner.Seats.{grown_to, held_from, sight};
ghost use Rattle.firm_rounds.specs.Passes.{queue_of, new_puts, new_pops};

use crate::passes::{PopPass, PutPass};
use crate::protocol::{Cut, Grow, QueueSeat, Ring};
use firm_bell::Bell;
use std::alloc::{AllocError, Global};

/// Numbers of a queue's passes to put jobs, and of those to get them.
#[derive(Clone, Copy)]
pub(crate) struct PassCounts {
    pub(crate) puts: usize,
    pub(crate) pops: usize,
}

// Adds `more` shares.
pub(crate) fn grow(ring: &Ring, keep: &mut QueueSeat, more: usize)
    requires { IsPassOf ring.now keep.old × (view keep.old ≡ grown_to ((view keep.old).all - 1)) }
    ensures { IsPassOf ring.now keep.new × (view keep.new ≡ grown_to (((view keep.old).all - 1) + more)) }
{
    for _ in 0..more {
        drop(ring.another::<Grow>(keep));
    }
}

// A separate seat for the next share, that of place `from + more`.
pub(crate) fn cut(ring: &Ring, keep: &mut QueueSeat, from: usize, more: usize) -> QueueSeat
    requires { IsPassOf ring.now keep.old × (from + more < (view keep.old).all - 1)
        × (view keep.old ≡ held_from (from + more) ((view keep.old).all - 1)) }
    ensures kept { IsPassOf ring.now keep.new × ((view keep.new).all ≡ (view keep.old).all)
        × (view keep.new ≡ held_from (from + more + 1) ((view keep.old).all - 1)) }
    ensures cut { IsPassOf ring.now result × (view result ≡ sight (view keep.old).all (share (from + more) 0 [] ∷ [])) }
{
    let _ = (from, more);
    ring.another::<Cut>(keep)
}

pub(crate) fn cut_puts(
    alloc: Global,
    ring: &Ring,
    bell: &Bell,
    keep: &mut QueueSeat,
    puts: usize,
) -> Result<Vec<PutPass>, AllocError>
    requires { IsPassOf ring.now keep.old × (puts ≤ 64) × (puts ≤ (view keep.old).all - 1)
        × (view keep.old ≡ held_from 0 ((view keep.old).all - 1)) }
    ensures kept { IfOk result (λ r. IsPassOf ring.now keep.new × ((view keep.new).all ≡ (view keep.old).all)
        × (view keep.new ≡ held_from puts ((view keep.old).all - 1))) }
    ensures passes { IfOk result (λ r. r.items ≡ new_puts (queue_of bell.now keep.old) puts) }
{
    let mut passes = Vec::with_capacity(alloc, puts)?;
    for place in 0..puts {
        let seat = cut(ring, keep, 0, place);
        passes.push(PutPass::of(place as u32, seat, bell))?;
    }
    Ok(passes)
}

// The last pass gets the keeping seat.
pub(crate) fn cut_pops(
    alloc: Global,
    ring: &Ring,
    bell: &Bell,
    keep: QueueSeat,
    counts: PassCounts,
) -> Result<Vec<PopPass>, AllocError>
    requires { IsPassOf ring.now keep × (0 < counts.pops) × ((view keep).all ≡ counts.puts + counts.pops)
        × (view keep ≡ held_from counts.puts ((view keep).all - 1)) }
    ensures { IfOk result (λ r. r.items ≡ new_pops (queue_of bell.now keep) counts.pops) }
{
    let mut keep = keep;
    let mut passes = Vec::with_capacity(alloc, counts.pops)?;
    for k in 0..counts.pops - 1 {
        let seat = cut(ring, &mut keep, counts.puts, k);
        passes.push(PopPass::of(seat, bell.listener()))?;
    }
    passes.push(PopPass::of(keep, bell.listener()))?;
    Ok(passes)
}
