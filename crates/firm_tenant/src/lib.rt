//! One tenant: its rows, and their network in a graph. It answers one command at a time, and knows no text, no other
//! tenant and no thread. Contracts see its *book*: its rows, the costs of its last 8 rounds at most, and the number of
//! commands given.
//!
//! `specs/Step.antt` defines the step of a command, with an equation for each verb, given a *mark* for refused memory,
//! which is set exactly if the reply is that refusal; docs/FORMATS.md has it in words. Only the three adders and a
//! round are refused for memory; no clause can say that a growth really was refused. `specs/Alone.antt` folds the step
//! over marked commands: the replies of a tenant that is alone. `specs/Starvation.antt` says how long a task waits.
//! `allow_proposals` bounds what is tried for a round before searches in the net; no reply depends on it.
//!
//! # How it works
//!
//! A round is sought on flat tables by firm_proposals, which proves nothing of what it finds, and taken only if
//! firm_rents shows it to be the round's (`proposals.rt`); the case that both read stands beside the rows. Else
//! firm_canon searches in the net. The tables are taken when the tenant is admitted, within its limits.
//!
//! A round makes at most one proposal, which counts its looks together with its check, apart from searches: at most as
//! many as are allowed and, if these allow it, one at least for each task and machine (`specs/inner/Pools.antt`). A
//! proposed round makes no search in the net. What `Tenant::scratch` counts is of one round, begun at most once a
//! command (`specs/Counts.antt`).
#![tactic(auto)]

mod laws;
mod pools;
mod proposals;
mod tenants;

pub use laws::{
    no_task_starves, one_more_command_adds_one_step, replies_tell_their_marks, steps_count_once,
    unmarked_steps_are_granted,
};
pub use tenants::Tenant;
