//! The room in which the searches work.
ghost use Rattle.std.specs.Prelude.{◌≡◌, ℕ, IfOk, IfSome, IfNone, Some, None};
ghost use Rattle.std.specs.Borrow.{sem};
ghost use Rattle.firm_net.specs.Net.{IsNode};
ghost use Rattle.firm_paths.specs.Lending.{RestsAsItWas};
ghost use Rattle.firm_paths.specs.Visits.{paths_of};
ghost use Rattle.firm_paths.specs.Workspace.{HasCounted};
ghost use Rattle.firm_paths.specs.NetArcs.{limits_of};

use crate::search::{Step, walk_on};
use crate::shortest::Labels;
use crate::tight::Reach;
use firm_net::{Net, NodeId};
use std::alloc::{AllocError, Global};
use std::marker::Model;

/// The memory of a search in a net of given limits, reserved once.
#[derive(Drop)]
pub struct Scratch {
    limits: (u32, u32),
    begins: u64,
    pub(crate) searches: u64,
    pub(crate) looks: u64,
    pub(crate) labels: Labels,
    pub(crate) reach: Reach,
    // As which number the node at each place was visited, if the last search for tight paths did.
    pub(crate) numbers: Vec<usize>,
    pub(crate) steps: Vec<Step>,
}

impl Model for Scratch {
    ghost use Rattle.std.specs.Prelude.{◌≡◌, ◌≤◌, length, vec_capacity};
    ghost use Rattle.firm_paths.specs.Workspace.{Workspace};
    ghost use Rattle.firm_paths.specs.inner.Queue.{IsIdle};
    ghost use Rattle.firm_paths.specs.inner.Spread.{Agree, AreNumbered};

    ghost Value = { Workspace };

    ghost view = { λ s. record {
      limits = s.limits;
      begins = s.begins;
      searches = s.searches;
      looks = s.looks;
      visits = s.reach.visits.items;
    } };

    ghost invariant = { λ s. (length s.labels.states.items ≡ s.limits.0)
        × (length s.reach.seen.items ≡ s.limits.0)
        × IsIdle s.labels.states.items s.labels.queue × Agree s.reach.seen.items s.reach.visits.items
        × (s.limits.0 ≤ vec_capacity s.labels.visits) × (s.limits.0 ≤ vec_capacity s.reach.visits)
        × (s.limits.0 ≤ vec_capacity s.steps) × (length s.numbers.items ≡ s.limits.0)
        × AreNumbered s.numbers.items s.reach.visits.items };
}

impl Scratch {
    /// Room for the searches in a net of these limits. `Err` only where memory is refused.
    pub fn new(alloc: Global, net: &Net) -> Result<Scratch, AllocError>
        ensures limits { IfOk result (λ scratch. scratch.limits ≡ limits_of net.now) }
        ensures counts { IfOk result (λ scratch. (scratch.begins ≡ 0) × (scratch.searches ≡ 0) × (scratch.looks ≡ 0)) }
    {
        let limits = net.limits();
        let steps = Vec::with_capacity(alloc, limits.0 as usize)?;
        let reach = Reach::new(alloc, limits.0)?;
        let numbers = vec![in alloc; 0; limits.0 as usize]?;
        let labels = Labels::new(alloc, limits.0)?;
        Ok(Scratch {
            limits,
            begins: 0,
            searches: 0,
            looks: 0,
            labels,
            reach,
            numbers,
            steps,
        })
    }

    /// Counts one call more of itself, and sets the other counts to 0.
    pub fn begin(&mut self)
        ensures limits { self.new.limits ≡ self.old.limits }
        ensures begins { HasCounted self.old.begins self.new.begins 1 }
        ensures counts { (self.new.searches ≡ 0) × (self.new.looks ≡ 0) }
    {
        self.begins = self.begins.saturating_add(1);
        self.searches = 0;
        self.looks = 0;
    }

    /// Number of calls of `begin`; `u64::MAX` stands for that number and more.
    pub fn begins(&self) -> u64
        ensures { result ≡ self.now.begins }
    {
        self.begins
    }

    /// Number of searches since the last `begin`; `u64::MAX` stands for that number and more.
    pub fn searches(&self) -> u64
        ensures { result ≡ self.now.searches }
    {
        self.searches
    }

    /// Number of looks at an arc since the last `begin`; `u64::MAX` stands for that number and more.
    pub fn looks(&self) -> u64
        ensures { result ≡ self.now.looks }
    {
        self.looks
    }

    /// The path from a node that the last search of `tight_paths` found. `None` only where it found none. Takes no
    /// memory.
    pub fn path_from(&mut self, net: &Net, node: NodeId) -> Option<&[Step]>
        requires node { IsNode net.now node }
        requires made_for { self.old.limits ≡ limits_of net.now }
        ensures* rests { sem 𝓛 (RestsAsItWas self.entry) }
        ensures path { IfSome result (λ steps. paths_of self.old.visits node.id.place ≡ Some steps.now) }
        ensures none { IfNone result (paths_of self.old.visits node.id.place ≡ None) }
    {
        let Some(place) = net.place(node) else {
            unreachable!()
        };
        let Some(number) = self.reach.number_at(&self.numbers, place as usize) else {
            return None;
        };
        walk_on(&self.reach.visits, number, &mut self.steps);
        Some(&self.steps[..])
    }
}
