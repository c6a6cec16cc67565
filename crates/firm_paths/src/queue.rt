//! An ordered queue of places, each with a key: a tournament of keys.
ghost use Rattle.std.specs.Prelude.{◌≡◌, ℕ, ◌+◌, ◌*◌, ◌<◌, ◌≤◌, ◌^◌, ◌⊎◌, length, drop, replicate, IfOk, MatchOption};
ghost use Rattle.std.specs.Prelude.{slice_index, slice_set};
ghost use Rattle.firm_paths.specs.inner.Queue.{IsTournament, IsLeastKey};

use std::alloc::{AllocError, Global};
use std::marker::Model;

/// The key of a place that is not in the queue.
pub const ABSENT: u64 = u64::MAX;

/// A key for each place; the least is at hand. Places with equal keys take turns, by the number of changes: were the
/// same always first, searches would come anew to nodes from which those before found no way.
#[derive(Drop)]
pub struct Queue {
    places: usize,
    keys: Vec<u64>,
    changes: u64,
}

impl Model for Queue {
    ghost use Rattle.std.specs.Prelude.{ℕ, List, drop};
    ghost use Rattle.firm_paths.specs.inner.Queue.{IsTournament};

    ghost Value = { List ℕ };

    ghost view = { λ q. drop q.places q.keys.items };

    ghost invariant = { λ q. IsTournament q.places q.keys.items };
}

impl Queue {
    /// An empty queue of `places` places. `Err` only where memory is refused.
    pub fn new(alloc: Global, places: u32) -> Result<Queue, AllocError>
        ensures { IfOk result (λ q. q ≡ replicate places 18446744073709551615) }
    {
        let places = places as usize;
        Ok(Queue {
            places,
            keys: vec![in alloc; ABSENT; 2 * places]?,
            changes: 0,
        })
    }

    /// Gives a place another key.
    pub fn set(&mut self, place: usize, key: u64)
        requires { place < length self.old }
        ensures { self.new ≡ slice_set self.old place key }
    {
        self.changes = self.changes.wrapping_add(1);
        set_key(&mut self.keys, self.places, place, key);
    }

    /// The place of the least key, the preferred one if no other has a lower; `None` where every place is absent.
    pub fn least(&self, preferred: usize) -> Option<usize>
        ensures { MatchOption result
            ((v : ℕ) → v < length self.now → slice_index self.now v ≡ 18446744073709551615)
            (IsLeastKey self.now) }
    {
        least_place(&self.keys, self.places, preferred, self.changes)
    }
}

/// Gives a place another key, and each node above it that changes.
fn set_key(keys: &mut [u64], places: usize, place: usize, key: u64)
    requires tournament { IsTournament places keys.old }
    requires place { place < places }
    ensures tournament { IsTournament places keys.new }
    ensures sets { drop places keys.new ≡ slice_set (drop places keys.old) place key }
{
    let mut at = places + place;
    keys[at] = key;
    while at > 1 {
        at = at / 2;
        let left = keys[2 * at];
        let right = keys[2 * at + 1];
        let least = if left <= right { left } else { right };
        if keys[at] == least {
            return;
        }
        keys[at] = least;
    }
}

/// The one of two neighbours that has the key: where both have it, the right one if that goes first.
fn with_key(keys: &[u64], left: usize, key: u64, right_first: bool) -> usize
    requires there { left + 1 < length keys.now }
    requires one { (key ≡ slice_index keys.now left) ⊎ (key ≡ slice_index keys.now (left + 1)) }
    ensures key { slice_index keys.now result ≡ key }
    ensures from { left ≤ result }
    ensures to { result ≤ left + 1 }
{
    if right_first && keys[left + 1] == key {
        return left + 1;
    }
    if keys[left] == key { left } else { left + 1 }
}

/// The place of the least key: the preferred one, or found from the top down; of equal keys the one on the side that
/// the next binary digit of `sides` tells.
fn least_place(keys: &[u64], places: usize, preferred: usize, sides: u64) -> Option<usize>
    requires tournament { IsTournament places keys.now }
    ensures { MatchOption result
        ((v : ℕ) → v < places → slice_index keys.now (places + v) ≡ 18446744073709551615)
        (λ u. (u < places)
        × ((v : ℕ) → v < places → slice_index keys.now (places + u) ≤ slice_index keys.now (places + v))
        × (slice_index keys.now (places + u) < 18446744073709551615)) }
{
    if places == 0 {
        return None;
    }
    let top = keys[1];
    if top == ABSENT {
        return None;
    }
    if preferred < places && keys[places + preferred] == top {
        return Some(preferred);
    }
    let mut at = 1;
    let mut sides = sides;
    while at < places {
        at = with_key(keys, 2 * at, top, sides % 2 == 1);
        sides = sides / 2;
    }
    Some(at - places)
}
