//! The end of a service: its desks have come home and are collected.
use crate::desks::Desk;
use crate::empty::EmptyDesk;

/// The result of a service: its desks, all home, its empty ones, and the number of rounds requested at all of them.
#[derive(Drop)]
pub(crate) struct Ended {
    pub(crate) desks: Vec<Desk>,
    pub(crate) empty: Vec<EmptyDesk>,
    pub(crate) rounds: u64,
}
