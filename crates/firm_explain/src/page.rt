//! The page that a text of comment lines is written on.

use firm_rules::{Choice, Name, Reply, Rows};
use firm_text::put_reply;
use itoa::Buffer;
use std::alloc::{AllocError, Global};

/// A text that grows piece by piece. Once memory is refused it takes no more, and `finish` reports it: writers
/// need not check after each piece.
#[derive(Drop)]
pub(crate) struct Page {
    pub(crate) alloc: Global,
    text: Vec<u8>,
    is_refused: bool,
}

impl Page {
    /// An empty one.
    pub(crate) fn new(alloc: Global) -> Page {
        Page {
            alloc,
            text: Vec::new(alloc),
            is_refused: false,
        }
    }

    /// The text so far.
    pub(crate) fn as_slice(&self) -> &[u8] {
        self.text.as_slice()
    }

    /// The error, if memory was refused for something on it.
    pub(crate) fn finish(&self) -> Result<(), AllocError> {
        if self.is_refused {
            Err(AllocError)
        } else {
            Ok(())
        }
    }

    /// Takes off all text, and keeps the memory for more.
    pub(crate) fn clear(&mut self) {
        self.text.clear();
    }

    /// Notes that memory was refused for something on it.
    pub(crate) fn refuse(&mut self) {
        self.is_refused = true;
    }

    /// Adds a piece.
    pub(crate) fn put(&mut self, piece: &[u8]) {
        if !self.is_refused {
            self.is_refused = self.text.extend_from_slice(piece).is_err();
        }
    }

    /// Adds a word and the number after it.
    pub(crate) fn put_number(&mut self, word: &[u8], number: u64) {
        let mut digits = Buffer::new();
        self.put(word);
        self.put(digits.format(number).as_bytes());
    }

    /// Adds another page's text.
    pub(crate) fn put_page(&mut self, other: &Page) {
        self.put(other.as_slice());
        self.is_refused = self.is_refused || other.is_refused;
    }

    /// Adds a tenant's reply, without the end of its line.
    pub(crate) fn put_reply(&mut self, name: Name, reply: &Reply) {
        if !self.is_refused {
            self.is_refused = put_reply(&mut self.text, name, reply).is_err();
        }
    }

    /// Adds a name.
    pub(crate) fn put_name(&mut self, name: Name) {
        self.put(name.as_bytes());
    }

    /// Appends the name of the machine at a place, if any.
    pub(crate) fn put_machine(&mut self, rows: &Rows, place: usize) {
        if let Some(machine) = rows.machine_at(place) {
            self.put_name(machine.name);
        }
    }

    /// Adds a word and the name of the machine at a place.
    pub(crate) fn put_at(&mut self, word: &[u8], rows: &Rows, place: u32) {
        self.put(word);
        self.put_machine(rows, place as usize);
    }

    /// Appends a word and the name of the task of this number, if any.
    pub(crate) fn put_task(&mut self, word: &[u8], rows: &Rows, number: usize) {
        self.put(word);
        if let Some(task) = rows.task_at(number) {
            self.put_name(task.name);
        }
    }

    /// Adds what a task with this choice does; it runs at `home`, if it runs.
    pub(crate) fn put_choice(&mut self, rows: &Rows, choice: Choice, home: Choice) {
        match (home, choice) {
            (Choice::Wait, Choice::Wait) => self.put(b" waits"),
            (Choice::On(from), Choice::Wait) => self.put_at(b" preempted from ", rows, from),
            (Choice::Wait, Choice::On(place)) => self.put_at(b" starts on ", rows, place),
            (Choice::On(from), Choice::On(place)) if from == place => {
                self.put_at(b" stays on ", rows, place);
            }
            (Choice::On(from), Choice::On(place)) => {
                self.put_at(b" moves from ", rows, from);
                self.put_at(b" to ", rows, place);
            }
        }
    }

    /// Adds another choice of a task that runs at `home`, if it runs.
    pub(crate) fn put_other(&mut self, rows: &Rows, other: Choice, home: Choice) {
        match other {
            Choice::Wait => self.put(b"to wait"),
            _ if other == home => self.put(b"to stay"),
            Choice::On(place) => self.put_machine(rows, place as usize),
        }
    }
}
