//! The numbers of the slots that are gaps, in rising order.
ghost use Rattle.std.specs.Prelude.{◌≡◌, ◌+◌, ◌^◌, ◌<◌, ℕ, length, slice_index_or};
ghost use Rattle.firm_sequence.specs.Kept.{AreGaps, Splits};

/// Number of gaps before the slot of the item at a place. Inlined, since most sequences have none.
#[inline(always)]
pub(crate) fn gaps_before(gaps: &[usize], place: usize) -> usize
    requires gaps { (end : ℕ) × AreGaps 0 end gaps.now }
    requires few { place + length gaps.now < 2 ^ 64 }
    ensures { Splits gaps.now place result }
{
    if gaps.is_empty() {
        return 0;
    }
    search(gaps, place)
}

// The same by bisection.
fn search(gaps: &[usize], place: usize) -> usize
    requires gaps { (end : ℕ) × AreGaps 0 end gaps.now }
    requires few { place + length gaps.now < 2 ^ 64 }
    ensures { Splits gaps.now place result }
{
    let mut low = 0;
    let mut high = gaps.len();
    while low < high {
        let middle = low + (high - low) / 2;
        if gaps[middle] <= place + middle {
            low = middle + 1;
        } else {
            high = middle;
        }
    }
    low
}

/// The slot of the gap of this number; the end, past the last.
pub(crate) fn gap_or_end(gaps: &[usize], count: usize, end: usize) -> usize
    ensures { result ≡ slice_index_or gaps.now count end }
{
    match gaps.get(count) {
        Some(gap) => *gap,
        None => end,
    }
}
