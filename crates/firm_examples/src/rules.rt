use firm_rules::{Limits, Rows, Use, use_of};
use std::alloc::Global;

/// The use of a tenant that has nothing yet: the sink and the hub. `None` where the limits are out of range.
pub fn opening_use(alloc: Global) -> Option<Use> {
    let limits = Limits::check(9, 24, 100, 1, 2, 0)?;
    Some(use_of(&Rows::new(alloc, limits)))
}
