//! Standard input as a source that knows whether a read would wait: since no call of the library says so, a second
//! thread reads ahead.
//!
//! A `ReadAhead` claims the bytes that its reader claims: `open` says that all of them are left, and by the clauses of
//! `Source` a read gives the front of what is left, and `is_ready` leaves it as it was (`specs/ReadAhead.antt`). Which
//! answer `is_ready` gives is open, and so is whether the waker is notified.
//!
//! # What is proved
//!
//! - `open`: a source with all bytes of its reader left, of which no read has failed; its only error is refused memory
//! - `ReadAhead::read`, `is_ready`: each byte of the reader is passed on exactly once; a failed read stays failed
//! - `PieceReader`, private: the bytes of a piece are passed on before those after it (`specs/inner/Pieces.antt`)
//! - each step of the source and its thread keeps their rule (`specs/Rule.antt`)
//!
//! # How it works
//!
//! While the caller waits for something else, it asks with `is_ready`. The source then lends its reader to the thread,
//! which reads one piece of at most 4,096 bytes, gives the reader back and notifies the waker. The reader lies in the
//! slot of a table whose word says whose turn it is, so no thread waits for a lock of it. Without the thread, the
//! source is never ready, and its caller reads once it waits for nothing else. A failed read, even an interrupted one,
//! is never tried again: the next read gets a failure or an end that was read ahead. `close` joins the thread; in a
//! read it ends with the program.
#![tactic(auto)]

mod pieces;
mod read_ahead;
mod reading_side;
mod turns;

pub use read_ahead::{ReadAhead, open};
