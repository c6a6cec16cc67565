//! Rosters of few words.

use super::check;
use firm_rules::Name;
use firm_text::{Roster, roster};
use std::alloc::Global;
use std::process::Abort;

/// A roster's first line where its records have six fields.
const HEADING: &str = "tenant,nodes,arcs,life,spread,churn\n";

/// The roster of these records, each on a line.
pub fn roster_of(rt: &impl Abort, alloc: Global, records: &str) -> Roster {
    let text = format!(in alloc; "{HEADING}{records}").expect(rt, "memory");
    roster(alloc, text.as_bytes()).ok().expect(rt, "a roster")
}

fn place_of(rt: &impl Abort, roster: &Roster, name: &[u8]) -> Option<usize> {
    roster.place_of(Name::read(name).expect(rt, "a name"))
}

#[test]
fn a_tenant_has_the_place_of_its_row(rt: HostRuntime) {
    let roster = roster_of(&rt, rt.alloc(), "beta,8,30,100,0,3\nalpha,9,24,100,1,2");
    check(
        &rt,
        place_of(&rt, &roster, b"alpha") == Some(1),
        "the second row",
    );
    check(
        &rt,
        place_of(&rt, &roster, b"beta") == Some(0),
        "the first row",
    );
    check(&rt, place_of(&rt, &roster, b"gamma").is_none(), "no row");
}
