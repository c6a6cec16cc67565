//! The premises of serving, which no line changes.
use crate::halls::Hall;
use firm_table::Opening;
use std::alloc::Global;
use std::sync::Wait;

/// The resources of a service: the runtime and the memory, its opening, and its 1 to 8 workers, each of which passes
/// the gate before it solves a round.
#[derive(Drop)]
pub struct Setup<'s, R, G> {
    pub rt: &'s R,
    pub alloc: Global,
    pub opening: Opening<'s>,
    pub workers: usize,
    pub gate: &'s G,
}

/// The runtime, the memory and the hall of a service.
#[derive(Drop)]
pub(crate) struct Setting<'h, R: Wait> {
    pub(crate) rt: &'h R,
    pub(crate) alloc: Global,
    pub(crate) hall: &'h Hall,
}
