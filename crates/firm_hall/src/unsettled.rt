//! The places that a look has to visit.
ghost use Rattle.std.specs.Prelude.{◌<◌};
ghost use Rattle.firm_text.specs.Rosters.{most_places};

/// A bit for each place from which a round is away, or for whose tenant commands wait. It only spares looks, so no
/// clause speaks of it: a place that was left out would be visited late or never, but answered wrongly by no means.
#[derive(Drop)]
pub(crate) struct Unsettled {
    bits: u64,
}

impl Unsettled {
    // No place.
    pub(crate) fn none() -> Unsettled {
        Unsettled { bits: 0 }
    }

    // Says whether the place is one.
    pub(crate) fn set(&mut self, place: usize, is_one: bool)
        requires { place < most_places }
    {
        let bit = 1u64 << place;
        self.bits = if is_one {
            self.bits | bit
        } else {
            self.bits & !bit
        };
    }

    // Set if there is more than one place.
    pub(crate) fn are_several(&self) -> bool {
        self.bits & self.bits.wrapping_sub(1) != 0
    }
}
