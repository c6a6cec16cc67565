use firm_saved::{Saved, StateFault};
use std::alloc::Global;

/// The number of tenants in the state that a text describes.
pub fn tenant_count(alloc: Global, text: &[u8]) -> Result<usize, StateFault> {
    let saved = Saved::read(alloc, text)?;
    let places = saved.places().iter();
    Ok(places.filter(|place| place.tenant.is_some()).count())
}
