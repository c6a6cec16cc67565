//! The service on threads. A *hall* has 64 places, each with a desk or an empty desk. At its *desk* a tenant answers
//! commands at once; its rounds go to workers by the round queue and return on a tray.
//!
//! ```text
//!           Desk::command: the desk owns its tenant
//!               ┌──────┐   Desk::ask    ┌──────────────────────┐   worker    ┌─────────────┐
//!    at home    │ Desk │ ─────────────▶ │ Job in the queue of 8 │ ──────────▶ │ Job, held by │
//!               └──────┘                └──────────────────────┘             │ one worker  │
//!                  ▲                                                         └─────────────┘
//!                  │ Asked::poll,        ┌──────────────────────┐   finish          │
//!                  │ Asked::wait         │ the answered tray     │ ◀────────────────┘
//!                  └──────────────────── └──────────────────────┘
//!                      meanwhile the asker holds the Asked, a token for its return
//!
//!               ┌───────────┐  EmptyDesk::admit   ┌──────┐
//!     nobody    │ EmptyDesk │ ──────────────────▶ │ Desk │   a tenant's stay
//!               └───────────┘ ◀────────────────── └──────┘
//!                                Desk::retire
//! ```
//!
//! The records that contracts see are in `specs/Desks.antt`. `command`, `poll`, `admit` and `retire` take no `Wait`, so
//! they never wait; `retire`, `poll` and `close` take no memory. `rounds` of `serve` counts the rounds asked in all
//! stays: at most those that lines ask for, and fewer only by rounds refused for memory. docs/TRUST.md lists what no
//! clause promises.
//!
//! # How it works
//!
//! A command of a tenant whose round is away, or a round for which the queue has no room, waits among the held answers
//! (firm_held), in the place of its own answer: each tenant has a queue there, and the lines of others are
//! answered meanwhile. One fold over the held answers (`reckon` in `specs/inner/Reckoned.antt`) gives their result.
//!
//! The clerk waits in one loop alone (`waiting.rt`): for input, while an answer is missing and a read would wait
//! (`Source::is_ready`); for the turn of a line; and at the end for all answers. A line has its turn when fewer than
//! 1,024 answers are held, the changes of held rounds have fewer than 4 MB of text and, if it retires a tenant, no
//! command of that one waits. At each look the tenants that are back are given the commands that waited for them
//! (`returning.rt`). Before each rest, the clerk has written all answers that are known with none missing before them:
//! a clause of the one function that rests (`Serving::rest`). The writer is flushed at the end alone.
//!
//! A worker without a round looks 16 times, the last one awake 512 times, the clerk 1,024 times, or 16 where
//! rounds come late or none has come yet (`patience.rt`). Then they sleep:
//!
//! - a worker without a round: sleeps until it is called for a round, or the hall is shut; woken by the queue's bell
//!   (firm_bell); `shut` wakes all
//! - the clerk: sleeps until a round is solved, a full queue has room, or input is there; woken by the worker that
//!   solved a round or took one from a full queue, or by the source
//! - `Asked::wait`: sleeps until the round is solved; woken by its tray
//! - `Desk::ask` at a full queue: sleeps until a worker takes a round; woken by the queue
//!
//! A round may be put without waking a worker. The wake is then owed, until its asker *rings*: `Desk::ask` does before
//! it returns; the clerk before each read, after each 256 looks in vain, before it sleeps and before it ends. So after
//! a ring no worker sleeps on while a round waits: firm_bell has the rule over the bell's words, which each step of
//! callers and workers keeps, and says how a worker rests. A worker rests or ends only after a look that found the
//! queue empty.
//!
//! `Hall::shut` sets the hall's stop word, then shuts the queue's bell. A worker reads the word before each look at the
//! queue and, once it is set, asks the bell too. After a look that finds the queue empty it ends if the bell was shut
//! before and counts no round.
//!
//! The clerk announces its sleep on an event count (`answers`) and then looks once more. A change that this look misses
//! follows the announcement, so its notification ends the sleep, even one not yet begun.
//!
//! `serve` and `worker` call a `Gate` between taking a round and solving it; the program's is `Open`.
#![tactic(auto)]

mod asker;
mod clerk;
mod close;
mod desk_states;
mod desks;
mod empty;
mod ending;
mod halls;
mod patience;
mod places;
mod returning;
mod seating;
mod service;
mod serving;
mod setting;
mod team;
mod tenancy;
mod unsettled;
mod waiting;
mod workers;

pub use close::{CloseFault, Totals};
pub use desks::{Asked, AskedPoll, Desk};
pub use empty::{AdmitFault, EmptyDesk};
pub use halls::Hall;
pub use service::{serve, serve_from};
pub use setting::Setup;
pub use workers::{Gate, Open, Report, WorkerPass, worker};
