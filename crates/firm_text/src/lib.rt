//! The formats (docs/FORMATS.md) as calls: input lines, replies, rosters and the places of their tenants, sources and
//! sinks of bytes.
//!
//! Bytes are lists of numbers. A `Cutter` *stands for* each text without a line feed that agrees with it in the first
//! 257 bytes and, up to 258, in length. A `Source` and a `Sink` know the bytes left or written, or leave them open, and
//! whether a call has failed so far; a read of 0 bytes into a buffer with room comes only at the end, and a write takes
//! at least one byte of a buffer that is not empty.
//!
//! The `Heading` of a service's roster decides how its lines are read: a plain one has six or seven fields, an extended
//! one all eight. `line` and `Cutter::take` read under a plain one.
//!
//! No two places of a register have one tenant, and a refusal changes nothing. A roster's text that is too long is
//! always `Row`. What `Source::is_ready` answers is open, but it takes no byte. Only replies and rosters take memory.
#![tactic(auto)]

mod bytes;
mod commands;
mod cutter;
mod devices;
mod faults;
mod headings;
mod inputs;
mod laws;
mod numbers;
mod operator;
mod operator_lines;
mod reading;
mod records;
mod registers;
mod replies;
mod roster_text;
mod rosters;
mod row_fields;
mod words;

pub use bytes::Bytes;
pub use cutter::{Cutter, Fed};
pub use devices::{Failed, Sink, Source, write_all};
pub use faults::RosterFault;
pub use headings::Heading;
pub use inputs::Line;
pub use laws::{
    admits_records, admits_what_fits, refuses_first_fault, refuses_for_the_form,
    tenants_read_no_heading,
};
pub use numbers::number;
pub use operator::{OperatorLine, OperatorRefusal, OperatorReply};
pub use reading::{line, line_under};
pub use registers::{Entry, MOST_ADMISSIONS, PLACES, Register};
pub use replies::{put_operator_reply, put_reply, reply_text};
pub use roster_text::{LONGEST_ROSTER, roster};
pub use rosters::Roster;
