use firm_program::{Fault, FileSystem, Named, read_roster, read_state};
use std::alloc::Global;

/// Number of tenants of a service that opens with a file.
pub fn tenants_named<R: FileSystem>(
    rt: &R,
    alloc: Global,
    named: Named<'_>,
) -> Result<usize, Fault> {
    match named {
        Named::Roster(path) => Ok(read_roster(rt, alloc, path)?.len()),
        Named::State(path) => {
            let saved = read_state(rt, alloc, path)?;
            let places = saved.places().iter();
            Ok(places.filter(|place| place.tenant.is_some()).count())
        }
    }
}
