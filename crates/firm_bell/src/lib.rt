//! The bell that wakes the workers of a hall when rounds are put. It sees neither rounds nor their queue, only a count
//! of the rounds that wait. After a ring no worker sleeps on while a round waits, whatever the interleaving.
//!
//! A thread that puts rounds is a `Caller`. `Bell::expect` counts its round before it is put, and `Bell::came` says
//! that it was put; from then on the caller may have to `ring`, and it ends only once it has rung. A worker is a
//! `Listener`: it says with `took` that it took a round, and calls `rest_or_look` after a look in vain. Once it knows
//! by `is_shut` that the bell is shut, `ends` says whether it may end.
//!
//! # What is proved
//!
//! Each step on the bell's words keeps the rule of `specs/Bell.antt`, and changes the seat that takes it as
//! `specs/Steps.antt` says. The rounds that wait are those that were counted and not taken. If more wait than are being
//! put, then no worker rests, a wake is left, one is owed, or a caller or a woken worker has still to call one; and
//! while one is owed, some caller has still to ring. For each wake that is left the kernel is called. Once the bell is
//! shut each rest ends, and a worker ends only then, when no round waits. That the kernel then wakes a thread no clause
//! sees. `firm_rounds` ties the count to its queue.
//!
//! # How it works
//!
//! A round wakes a worker at once only if all workers rest or four rounds wait; else a wake is owed (why:
//! docs/DECISIONS.md), until a caller rings: if a round still waits then, one worker wakes. A worker that takes a round
//! right after its sleep calls another while rounds wait.
//!
//! A worker without a round looks some times more. Then it announces its rest in a count, and rests only if no round
//! waits: a caller that counts its round later finds that count. It sleeps until a caller leaves it a wake, in a count
//! on which workers sleep. `shut` leaves a number of wakes that no use lowers. A worker ends once it has read that
//! number and then that no round waits.
#![tactic(auto)]

mod bell;
mod rule;

pub use bell::{Bell, BellName, Caller, Listener};
