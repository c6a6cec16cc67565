//! The prices of a network's nodes.
ghost use Rattle.std.specs.Prelude.{◌≡◌, ℕ, ◌+◌, ◌-◌, ◌<◌, ◌≤◌, ◌^◌, ◌↔◌, true, false, length, IfOk, IfSome, IsSome};
ghost use Rattle.std.specs.Prelude.{slice_index};
ghost use Rattle.firm_net.specs.Net.{IsNode};
ghost use Rattle.firm_paths.specs.NetArcs.{limits_of};
ghost use Rattle.firm_paths.specs.PriceTable.{price_of};
ghost use Rattle.firm_paths.specs.inner.Search.{settled, label, AreRaised};
ghost use Rattle.firm_paths.specs.inner.Queue.{AreVisited};

use crate::search::{NodeState, Visit};
use firm_net::{Net, NodeId};
use std::alloc::{AllocError, Global};
use std::marker::Model;

/// A price for each node of a net, in units of cost: by how much it is below the base.
#[derive(Drop)]
pub struct Prices {
    limits: (u32, u32),
    base: u64,
    less: Vec<u64>,
}

impl Model for Prices {
    ghost use Rattle.std.specs.Prelude.{◌≡◌, ◌≤◌, ◌-◌, ℕ, length, map, slice_index};
    ghost use Rattle.firm_paths.specs.PriceTable.{PriceTable};

    ghost Value = { PriceTable };

    ghost view = { λ p. record { limits = p.limits; prices = map (λ (l : ℕ). p.base - l) p.less.items } };

    ghost invariant = { λ p. (length p.less.items ≡ p.limits.0) × ((v : ℕ) → slice_index p.less.items v ≤ p.base) };
}

impl Prices {
    /// Prices of 0 for every node of a net of these limits. `Err` only where memory is refused.
    pub fn new(alloc: Global, net: &Net) -> Result<Prices, AllocError>
        ensures limits { IfOk result (λ prices. prices.limits ≡ limits_of net.now) }
        ensures zero { IfOk result (λ prices. (v : ℕ) → price_of prices v ≡ 0) }
    {
        let limits = net.limits();
        let less = vec![in alloc; 0; limits.0 as usize]?;
        Ok(Prices {
            limits,
            base: 0,
            less,
        })
    }

    /// The price of a node, in units of cost; `None` exactly where the node is not there.
    pub fn get(&self, net: &Net, node: NodeId) -> Option<u64>
        requires { self.now.limits ≡ limits_of net.now }
        ensures there { IsSome result ↔ IsNode net.now node }
        ensures price { IfSome result (λ price. price ≡ price_of self.now node.id.place) }
    {
        let place = net.place(node)?;
        Some(self.base - self.less[place as usize])
    }

    /// Sets every price to 0.
    pub fn clear(&mut self)
        ensures limits { self.new.limits ≡ self.old.limits }
        ensures zero { (v : ℕ) → price_of self.new v ≡ 0 }
    {
        zero(&mut self.less);
        self.base = 0;
    }

    /// The price at a place.
    pub(crate) fn at(&self, place: usize) -> u64
        requires { place < length self.now.prices }
        ensures { result ≡ slice_index self.now.prices place }
    {
        self.base - self.less[place]
    }

    /// Raises each price: of a settled node to its label, of every other by `distance`. A price above that of the
    /// goal may fall.
    pub(crate) fn raise(
        &mut self,
        states: &[NodeState],
        visits: &[Visit],
        goal: usize,
        distance: u64,
    )
        requires length { length states.now ≡ length self.old.prices }
        requires goal { goal < length self.old.prices }
        requires room { slice_index self.old.prices goal + distance < 2 ^ 64 }
        requires visited { AreVisited states.now visits.now }
        ensures limits { self.new.limits ≡ self.old.limits }
        ensures raises { AreRaised self.old.prices states.now goal distance self.new.prices }
    {
        let base = self.at(goal) + distance;
        raise_table(base, &mut self.less, states, visits, goal);
        self.base = base;
    }

    /// Number of places that have a price.
    pub(crate) fn places(&self) -> usize
        ensures value { result ≡ length self.now.prices }
        ensures limit { length self.now.prices ≡ self.now.limits.0 }
    {
        self.less.len()
    }
}

/// Makes the base the price of the goal.
fn rebase(less: &mut [u64], goal: usize)
    requires goal { goal < length less.old }
    ensures { (v : ℕ) → slice_index less.new v ≡ slice_index less.old v - slice_index less.old goal }
{
    let shift = less[goal];
    if shift != 0 {
        lower_all(less, shift);
    }
}

/// `raise` for a table in which each price is stored as its distance below the base; `base` is the new one.
fn raise_table(base: u64, less: &mut [u64], states: &[NodeState], visits: &[Visit], goal: usize)
    requires length { length states.now ≡ length less.old }
    requires goal { goal < length less.old }
    requires below { (v : ℕ) → slice_index less.old v ≤ base + slice_index less.old goal }
    requires visited { AreVisited states.now visits.now }
    ensures below { (v : ℕ) → slice_index less.new v ≤ base }
    ensures settled { (v : ℕ) → v < length less.old → settled states.now v ≡ true → label states.now v ≤ base
        → base - slice_index less.new v ≡ label states.now v }
    ensures others { (v : ℕ) → v < length less.old → settled states.now v ≡ false
        → slice_index less.old goal ≤ slice_index less.old v
        → base - slice_index less.new v ≡ base + slice_index less.old goal - slice_index less.old v }
{
    rebase(less, goal);
    settle_all(less, states, visits, base);
}

/// Lowers every number, down to 0.
fn lower_all(table: &mut [u64], by: u64)
    ensures { (v : ℕ) → slice_index table.new v ≡ slice_index table.old v - by }
{
    for number in table.iter_mut() {
        *number = number.saturating_sub(by);
    }
}

/// Sets the number of each settled place to what its label lacks to the base.
fn settle_all(table: &mut [u64], states: &[NodeState], visits: &[Visit], base: u64)
    requires length { length states.now ≡ length table.old }
    requires visited { AreVisited states.now visits.now }
    ensures settled { (v : ℕ) → v < length table.old → settled states.now v ≡ true
        → slice_index table.new v ≡ base - label states.now v }
    ensures others { (v : ℕ) → settled states.now v ≡ false → slice_index table.new v ≡ slice_index table.old v }
{
    for i in 0..visits.len() {
        let place = visits[i].place;
        if states[place].settled {
            table[place] = base.saturating_sub(states[place].label);
        }
    }
}

/// Sets every number to 0.
fn zero(table: &mut [u64])
    ensures { (v : ℕ) → slice_index table.new v ≡ 0 }
{
    for price in table.iter_mut() {
        *price = 0;
    }
}
