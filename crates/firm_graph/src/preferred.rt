//! The arcs of a task to the machines that it prefers.
ghost use Rattle.std.specs.Prelude.{◌≡◌, ◌<◌, ◌≤◌, ◌++◌, ◌∷◌, [], length, slice_index_or};
ghost use Rattle.std.specs.List.{remove};

use firm_net::ArcId;
use firm_rules::MOST_PREFERENCES;
use std::marker::Model;

/// The arcs of a task to the machines that it prefers, 4 at most, in the order of its row.
#[derive(Clone, Copy)]
pub struct PreferredArcs {
    // First, so that a task with no preference is told by the line of memory that has its other arcs.
    len: u8,
    // `None` past the length.
    arcs: [Option<ArcId>; MOST_PREFERENCES],
}

impl Model for PreferredArcs {
    ghost use Rattle.std.specs.Prelude.{List, length};
    ghost use Rattle.firm_net.specs.declared.row.ArcId.{ArcId as ArcRow};

    ghost Value = { List ArcRow };

    ghost use Rattle.firm_graph.specs.inner.Tables.{arcs_in, padded, AreFront};
    ghost use Rattle.std.proofs.Common.{sym};

    ghost view = { λ p. arcs_in p.arcs };

    ghost invariant = { λ p. AreFront p.arcs p.len };

    ghost inverse = { λ arcs. record { arcs = padded arcs; len = length arcs } };

    ghost inverse_ok = { λ p kept i. record { arcs = sym kept.rest i; len = kept.counted i } };
}

impl PreferredArcs {
    // No arcs.
    pub(crate) fn new() -> PreferredArcs
        ensures { result ≡ [] }
    {
        PreferredArcs {
            arcs: [None; MOST_PREFERENCES],
            len: 0,
        }
    }

    // Adds an arc last.
    pub(crate) fn add(&mut self, arc: ArcId)
        requires { length self.old < 4 }
        ensures { self.new ≡ self.old ++ arc ∷ [] }
    {
        self.arcs[self.len as usize] = Some(arc);
        self.len += 1;
    }

    // Takes the arc at a place out.
    pub(crate) fn remove(&mut self, place: usize)
        requires { place < length self.old }
        ensures { self.new ≡ remove self.old place }
    {
        prove!(place < self.len());
        self.arcs[place..].rotate_left(1);
        self.arcs[MOST_PREFERENCES - 1] = None;
        self.len -= 1;
    }

    /// How many there are, 4 at most.
    pub fn len(&self) -> usize
        ensures value { result ≡ length self.now }
        ensures most { result ≤ 4 }
    {
        self.len as usize
    }

    /// The arc at a place, counted from 0.
    pub fn at(&self, place: usize) -> ArcId
        requires { place < length self.now }
        ensures { result ≡ slice_index_or self.now place result }
    {
        prove!(place < self.len());
        let Some(arc) = self.arcs[place] else {
            unreachable!()
        };
        arc
    }
}
