//! The costs of a tenant's last rounds.
ghost use Rattle.std.specs.Prelude.{◌≡◌, ◌≤◌, [], length};
ghost use Rattle.firm_rules.specs.Recent.{with_cost};

use std::marker::Model;

/// A tenant keeps the costs of this many rounds at most.
pub const MOST_COSTS: usize = 8;

/// The costs of the last 8 rounds at most, oldest first.
#[derive(Clone, Copy, PartialEq, Eq)]
pub struct RecentCosts {
    // The costs past the length are 0.
    costs: [i64; MOST_COSTS],
    len: u8,
}

impl Model for RecentCosts {
    ghost use Rattle.std.specs.Prelude.{ℤ, List, length, take};

    ghost Value = { List ℤ };

    ghost use Rattle.firm_rules.specs.inner.Padding.{padded_costs, AreRecentCosts};
    ghost use Rattle.std.proofs.Common.{sym};

    ghost view = { λ r. take r.len r.costs };

    ghost invariant = { λ r. AreRecentCosts r.costs r.len };

    ghost inverse = { λ costs. record { costs = padded_costs costs; len = length costs } };

    ghost inverse_ok = { λ r kept i. record { costs = sym kept.zeros i; len = kept.counted i } };
}

impl RecentCosts {
    /// No costs.
    pub fn new() -> RecentCosts
        ensures { result ≡ [] }
    {
        RecentCosts {
            costs: [0; MOST_COSTS],
            len: 0,
        }
    }

    /// Adds a cost as the newest. Where there are 8, the oldest is dropped.
    pub fn push(&mut self, cost: i64)
        ensures { self.new ≡ with_cost self.old cost }
    {
        let len = self.len as usize;
        if len < MOST_COSTS {
            self.costs[len] = cost;
            self.len += 1;
        } else {
            self.costs.rotate_left(1);
            self.costs[MOST_COSTS - 1] = cost;
        }
    }

    /// The costs, oldest first.
    pub fn as_slice(&self) -> &[i64]
        ensures costs { result.now ≡ self.now }
        ensures few { length self.now ≤ 8 }
    {
        &self.costs[..self.len as usize]
    }
}
