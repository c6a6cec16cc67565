use firm_rules::{Command, Limits, Reply};
use firm_tenant::Tenant;
use std::alloc::{AllocError, Global};

/// The reply of a tenant with these limits to its first `show`.
pub fn first_show(alloc: Global, limits: Limits) -> Result<Reply, AllocError> {
    let mut tenant = Tenant::admit(alloc, limits)?;
    Ok(tenant.step(alloc, Command::Show))
}
