use firm_parts::{JoinFault, cut_to, join};
use firm_rules::Name;
use firm_saved::Saved;

/// One state with the tenants of these names that another has: they move there as they stand.
pub fn moved(from: Saved, to: Saved, names: &[Name]) -> Result<Saved, JoinFault> {
    join(to, cut_to(from, names))
}
