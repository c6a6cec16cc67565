//! The states that are joined and cut.

ghost use Rattle.std.specs.Prelude.{◌≡◌, All, IfNone, IfSome, MatchResult, is_some, true};
ghost use Rattle.firm_parts.specs.Parts.{book_in};
ghost use Rattle.firm_state.specs.CommandLine.{texts};
ghost use Rattle.firm_state.specs.Program.{CutsTo, IsMissing, JoinsAll, StopsCutting, StopsJoining};

use firm_parts::{cut_to, has_tenant, join};
use firm_program::{Fault, FileSystem, read_state};
use firm_rules::Name;
use firm_saved::Saved;
use firm_text::OperatorRefusal;
use std::alloc::Global;

/// The state with those of the files joined to it, in their order.
pub(crate) fn join_files<R: FileSystem>(
    rt: &R,
    alloc: Global,
    saved: Saved,
    paths: &[&str],
) -> Result<Saved, Fault>
    ensures { MatchResult result (JoinsAll (R.bytes_at rt.now) (texts paths.now) saved)
        (StopsJoining (R.bytes_at rt.now) (texts paths.now) saved) }
{
    let mut joined = saved;
    for path in paths {
        let other = read_state(rt, alloc, path)?;
        joined = match join(joined, other) {
            Ok(both) => both,
            Err(fault) => return Err(Fault::Tenant(fault.tenant, fault.refusal)),
        };
    }
    Ok(joined)
}

/// The state cut to the tenants of these names, if there are names. The fault is that one of them is not there.
pub(crate) fn cut(saved: Saved, names: &[Name]) -> Result<Saved, Fault>
    ensures { MatchResult result (CutsTo names.now saved) (StopsCutting names.now saved) }
{
    if names.is_empty() {
        return Ok(saved);
    }
    if let Some(name) = missing(&saved, names) {
        return Err(Fault::Tenant(name, OperatorRefusal::NoSuchTenant));
    }
    Ok(cut_to(saved, names))
}

// The first of these names that no tenant has.
fn missing(saved: &Saved, names: &[Name]) -> Option<Name>
    ensures none { IfNone result (All (λ name. is_some (book_in saved.now.places name) ≡ true) names.now) }
    ensures some { IfSome result (IsMissing names.now saved.now) }
{
    for name in names {
        if !has_tenant(saved, *name) {
            return Some(*name);
        }
    }
    None
}
