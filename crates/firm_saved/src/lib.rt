//! The state of a service as a text (docs/FORMATS.md), written and read.
//!
//! A `Saved` has the heading of its service and its places, and is always sound (`specs/Saved.antt`); `state_text`
//! (`specs/StateText.antt`) gives its text from a list of rows, and by the law `a_text_has_one_state` two sound states
//! with one text are one. `state_of` (`specs/Reading.antt`) is a text's state, or its first fault: it takes one line
//! after the other as a row (`Lines.antt`) and judges each by those before it (`Drafts.antt`). After the same lines, no
//! sound state's text has the line of the fault (`specs/StateLaws.antt`).
//!
//! A text is read once, row by row: a row's words are taken as far as they tell, and the row must then be written as
//! the line. Its place among the rows before it is judged without a search through them.
#![tactic(auto)]

mod drafts;
mod faults;
mod laws;
mod reading;
mod row_lines;
mod rows;
mod saved;
mod tenant_drafts;
mod words;
mod writing;

pub use faults::{FaultKind, StateFault};
pub use laws::{a_text_has_one_state, places_are_given_in_order};
pub use rows::Row;
pub use saved::{Saved, SavedPlace};
pub use writing::{given_count, put_book, put_heading, put_place, put_row, put_state};
