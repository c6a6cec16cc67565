//! The words of `firm`'s command line: `firm --roster FILE [--workers N]`, or with `--state FILE` in the roster's
//! place.
//!
//! `read` gives the paths and the number of workers as the words have them by the rule of the kit's `clap`
//! (`specs/CommandLine.antt`); its error is a fault in the words, the help or the version that they ask for, or refused
//! memory. Whether one file is named and not both is for `Named::one_of` of firm_program. Nothing here needs firm_hall,
//! so its proofs do not wait for those of the hall.
#![tactic(auto)]

mod command_line;

pub use command_line::{Given, read};
