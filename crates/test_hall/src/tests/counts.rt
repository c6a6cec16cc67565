//! Counts that threads wait for, and short rests.
//!
//! A waiting test looks 10,000,000 times and then gives up. A lost wake-up may hang it, up to its time limit.

use std::hint::spin_loop;
use std::sync::atomic::{AtomicU64, Ordering};
use std::thread;

/// How often a test, or a gate, looks before it gives up.
pub const LOOKS: u32 = 10_000_000;

/// Waits until the count has reached this, and yields between looks. Returns whether it has, after this many looks at
/// most.
pub fn reaches(count: &AtomicU64, wanted: u64, looks: u32) -> bool {
    for _ in 0..looks {
        if wanted <= count.load(Ordering::SeqCst) {
            return true;
        }
        thread::yield_now();
    }
    false
}

/// Rests for some turns, a few thousand at most, so that the next step meets other threads at a different point each
/// time. It doesn't yield, which takes a busy machine milliseconds.
pub fn rest_awhile(turns: u64) {
    for _ in 0..turns % 150 * 20 {
        spin_loop();
    }
}
