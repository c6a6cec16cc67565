//! Writes the state of a service after the lines of standard input: of one that opens with a roster, or that goes on
//! from a state. Other states can be joined to it, and it can be cut to some of its tenants.
//!
//! A reader and a writer as in firm_text, the words, and the exit status (`specs/Program.antt`, `CommandLine.antt`).
//! Which words name what, `clap` defines.
//!
//! # What is proved
//!
//! `run` ends in one of four ways (`Exits`). The words ask for a state (`AskFor`): they name one file to open with,
//! states to join and tenants to keep, whose names have their form.
//!
//! - With status 0 the text of that state was written. All of the file that the words name was a roster, or a state;
//!   the input was read to its end, and the state is that after its lines (`Folds`). The states that the words name,
//!   each once and in their order, were joined to it, and it was cut to the tenants that they name, who are there
//!   (`Changed`).
//! - With a fault's status nothing was written, and the fault is the first (`NoText`): the file is refused, and nothing
//!   was read; the service stopped, for its cause; all was read, and a state to join is refused, one of its tenants
//! finds no place, a name is that of no tenant, or memory is short. Or a write failed, after a front of the text
//!   (`CannotWrite`).
//!
//! The words ask for none: they name no file, or two, or a tenant that is no name; or they were answered as
//! firm_program has it. Then nothing was read.
//!
//! By the law `tenants_go_on` (`specs/Laws.antt`) a tenant replies from a state on as from its own: the state is its
//! own cut to it, its own to which others are joined, or another to which its own is joined.
//!
//! The program ends with status 6 if memory is refused to a line, since the state of the service that was given the
//! line may be another.
//!
//! # How it works
//!
//! One thread answers the lines as `firm` does (`firm_table::serve_to_state`), and forgets the replies. The tenants
//! write their state (`Tenants::put_state`). Only to join or to cut it is the text read again, for firm_parts. Nothing
//! is written before all is read and well.
//!
//! A state of one full tenant, with 1,000 machines and 3,000 tasks, is read and written again in some 8 ms of processor
//! time, a third of it for reading its text; 64 such tenants take half a second (`bench/states.py`).
#![tactic(auto)]

mod discard;
mod laws;
mod options;
mod program;
mod states;

use firm_program::{arguments, refuse_words};
use firm_text::Bytes;
pub use laws::tenants_go_on;
use program::NAME;
pub use program::{Sinks, run};
use std::process::ExitCode;

fn main(rt: HostRuntime) -> ExitCode {
    let mut sinks = Sinks {
        output: Bytes::new(rt.stdout()),
        faults: Bytes::new(rt.stderr()),
    };
    let words = match arguments(&rt) {
        Ok(words) => words,
        Err(error) => return ExitCode::from(refuse_words(NAME, &error, &mut sinks.faults)),
    };
    let mut reader = Bytes::new(rt.stdin());
    ExitCode::from(run(&rt, rt.alloc(), words.as_slice(), &mut reader, &mut sinks))
}
