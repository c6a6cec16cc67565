//! Number of looks of the clerk for rounds before it sleeps.
use firm_tray::LOOKS_BEFORE_SLEEP;

// Number of looks of a short wait.
const FEW_LOOKS: u32 = 16;

// While several rounds are away, once one came late, the wait is long again after this many.
const LONG_WAITS_OF_SEVERAL: u32 = 16;

// While one is, it is long after this many, then after twice as many each time, up to `RAREST_LONG_WAIT`.
const FIRST_LONG_WAIT: u32 = 8;

const RAREST_LONG_WAIT: u32 = 64;

// While one round is away, a single late one changes nothing.
const FEWEST_LATE: u32 = 2;

/// The looks in vain before one, and how many would come before a sleep.
#[derive(Clone, Copy)]
pub(crate) struct Looks {
    pub(crate) in_vain: u32,
    pub(crate) most: u32,
}

/// A forecast of the next round by those that came back. To look on for a round that comes soon spares the way to sleep
/// and back; where rounds take longer, it only takes a processor from the workers. No clause speaks of it: it can cost
/// time alone.
#[derive(Clone, Copy)]
pub(crate) struct Patience {
    // Of the last look; `None` once a round that came back has judged the wait.
    last: Option<Looks>,
    // Number of rounds that came back since one came within a long wait; a new clerk begins with `FEWEST_LATE`.
    since: u32,
    // Number of rounds before the next long wait for a round that is away alone.
    next: u32,
}

impl Patience {
    /// A new clerk's: it waits briefly, since a service's first rounds find their rows in no cache and take longest.
    pub(crate) const FIRST: Patience = Patience {
        last: None,
        since: FEWEST_LATE,
        next: FIRST_LONG_WAIT,
    };

    // Behind a round that came within a long wait.
    const SOON: Patience = Patience {
        last: None,
        since: 0,
        next: FIRST_LONG_WAIT,
    };

    /// Number of looks in vain before a sleep, while several rounds are away or one is.
    pub(crate) fn most_looks(self, are_several: bool) -> u32 {
        let is_long = if are_several {
            self.since % LONG_WAITS_OF_SEVERAL == 0
        } else {
            self.since < FEWEST_LATE || self.next <= self.since
        };
        if is_long {
            LOOKS_BEFORE_SLEEP
        } else {
            FEW_LOOKS
        }
    }

    /// As it is after one more look, behind these.
    pub(crate) fn after_look(self, looks: Looks) -> Patience {
        Patience {
            last: Some(looks),
            ..self
        }
    }

    /// As it is after a round came back.
    pub(crate) fn after_round(self) -> Patience {
        // Two at one look: rounds come soon.
        let Some(Looks { in_vain, most }) = self.last else {
            return Patience::SOON;
        };
        let was_long = most == LOOKS_BEFORE_SLEEP;
        if was_long && in_vain < most {
            return Patience::SOON;
        }
        let since = self.since.saturating_add(1);
        let next = if was_long && self.next < since {
            since.saturating_add(self.next.min(RAREST_LONG_WAIT))
        } else {
            self.next
        };
        Patience {
            last: None,
            since,
            next,
        }
    }
}
