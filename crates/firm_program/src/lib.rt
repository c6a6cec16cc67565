//! Shared by the programs: the files that they open with, the options that name them, the answers to their
//! words, and their faults.
//!
//! A roster and a state as the lists that firm_text and firm_saved have, a `Fault`, and the kinds of fault that the
//! kit's `clap` finds in words (`specs/Files.antt`, `Faults.antt`, `Words.antt`, `Options.antt`); a program's unchanged
//! devices, and the end of a service that it opens with a file (`Runs.antt`). `Laws.antt` has the laws that the
//! programs' proofs use.
//!
//! # What is proved
//!
//! - `read_roster`, `read_state`: the roster or the sound state whose text is all of the named file; else the first
//!   fault of all of it, a state's file that is too long, no file, or refused memory
//! - `option`, `roster_option`, `state_option`: the rule of an option with a value; its words name a file as
//!   `NamesFile` has it
//! - `Named::one_of`: the one path that is given; else a fault with status 2
//! - `Fault::status`, `tell`: the status (docs/FORMATS.md) of a fault, whatever becomes of its line
//! - `answer_words`, `refuse_words`: the status of words that ask for a text, are at fault, or find no memory; only a
//! requested text is written
//!
//! A `FileSystem` tells what its files hold (`bytes_at`). The operating system's tells nothing: that its `open` gives
//! the bytes of the file at the path is only tested, and so is which failure of reading is refused memory. At most
//! 65,537 bytes of a roster's file are read, and 41,943,041 of a state's. `tell` takes no memory.
#![tactic(auto)]

mod faults;
mod files;
mod options;
mod words;

pub use faults::{Fault, WordsFault, tell};
pub use files::{FileSystem, LONGEST_STATE, read_roster, read_state};
pub use options::{VERSION, option, roster_option, state_option};
pub use words::{BAD_COMMAND_LINE, Named, answer_words, arguments, refuse_words};
