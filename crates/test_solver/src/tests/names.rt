//! A property of names that no clause states: how a fault shows one.
use super::books::name;
use super::check;

#[test]
fn a_name_is_printed_as_its_bytes(rt: HostRuntime) {
    let own = name(&rt, b"ab0");
    let printed = format!(in rt.alloc(); "{own:?}").expect(&rt, "memory");
    check(&rt, printed.as_str() == "ab0", "a name in print");
}
