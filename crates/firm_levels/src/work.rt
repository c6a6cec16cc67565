//! Looks and searches of a proposal and of its check, counted as they are made.
ghost use Rattle.std.specs.Prelude.{◌≡◌, ◌+◌, ◌≤◌, ◌⊎◌, false, IsTrue};
ghost use Rattle.firm_levels.specs.Work.{GoesOn, after, refused};

use std::marker::Model;

/// Numbers of searches and looks that are allowed.
#[derive(Clone, Copy, PartialEq, Eq)]
pub struct Allowance {
    pub searches: u64,
    pub looks: u64,
}

/// The searches and the looks that were counted, and how many are allowed. A look reads one entry of a table: a task
/// with its ways, of which it has at most seven, a machine, a class, or a link that a search tries. A search is begun,
/// and a look or a pass over a table made, only if the allowance has room for it.
#[derive(Drop)]
pub struct Work {
    searches: u64,
    looks: u64,
    most: Allowance,
    // Whether a search, a look or a pass was refused.
    is_short: bool,
}

impl Model for Work {
    ghost use Rattle.firm_levels.specs.Work.{Spent, IsWithin};

    ghost Value = { Spent };

    ghost view = { λ w. record {
      searches = w.searches;
      looks = w.looks;
      most = (w.most.searches, w.most.looks);
      is_short = w.is_short;
    } };

    ghost invariant = { λ w. IsWithin (record {
      searches = w.searches;
      looks = w.looks;
      most = (w.most.searches, w.most.looks);
      is_short = w.is_short;
    }) };
}

impl Work {
    /// Nothing done yet.
    pub fn new(most: Allowance) -> Work
        ensures most { result.most ≡ (most.searches, most.looks) }
        ensures none { (result.searches ≡ 0) × (result.looks ≡ 0) × (result.is_short ≡ false) }
    {
        Work {
            searches: 0,
            looks: 0,
            most,
            is_short: false,
        }
    }

    /// Number of searches counted. Each took a look to begin, and a sweep is one.
    pub fn searches(&self) -> u64
        ensures searches { result ≡ self.now.searches }
        ensures most { result ≤ self.now.most.0 }
    {
        self.searches
    }

    /// Number of looks counted.
    pub fn looks(&self) -> u64
        ensures looks { result ≡ self.now.looks }
        ensures most { result ≤ self.now.most.1 }
    {
        self.looks
    }

    /// Number of looks left.
    #[inline(always)]
    pub fn left(&self) -> u64
        ensures { result + self.now.looks ≡ self.now.most.1 }
    {
        self.most.looks.saturating_sub(self.looks)
    }

    /// Whether a search, a look or a pass was refused.
    #[inline(always)]
    pub fn is_short(&self) -> bool
        ensures { result ≡ self.now.is_short }
    {
        self.is_short
    }

    /// Whether a look may be made, which is then counted.
    #[inline(always)]
    pub fn look(&mut self) -> bool
        ensures work { GoesOn self.old self.new }
        ensures counted { IsTrue result → self.new ≡ after self.old 0 1 }
        ensures refused { result ≡ false → (self.new ≡ refused self.old) × (self.old.looks ≡ self.old.most.1) }
    {
        let is_left = self.looks < self.most.looks;
        if is_left {
            self.looks += 1;
        } else {
            self.is_short = true;
        }
        is_left
    }

    /// Counts a pass over a table of this many entries, and returns how many of them may be read: all, or none if the
    /// looks left are fewer.
    pub fn pass(&mut self, entries: u32) -> u32
        ensures work { GoesOn self.old self.new }
        ensures counted { self.new.looks ≡ self.old.looks + result }
        ensures few { result ≤ entries }
        ensures all { self.old.looks + entries ≤ self.old.most.1
            → (result ≡ entries) × (self.new ≡ after self.old 0 entries) }
        ensures none { self.old.most.1 + 1 ≤ self.old.looks + entries
            → (result ≡ 0) × (self.new ≡ refused self.old) }
    {
        let looks = u64::from(entries);
        if self.left() < looks {
            self.is_short = true;
            return 0;
        }
        self.looks += looks;
        entries
    }

    /// Whether a search may begin, which is then counted, with a look.
    pub fn begin_search(&mut self) -> bool
        ensures work { GoesOn self.old self.new }
        ensures counted { IsTrue result → self.new ≡ after self.old 1 1 }
        ensures refused { result ≡ false
            → (self.new ≡ refused self.old)
            × ((self.old.looks ≡ self.old.most.1) ⊎ (self.old.searches ≡ self.old.most.0)) }
    {
        let is_left = self.looks < self.most.looks && self.searches < self.most.searches;
        if is_left {
            self.looks += 1;
            self.searches += 1;
        } else {
            self.is_short = true;
        }
        is_left
    }
}
