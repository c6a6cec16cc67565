//! Cutting an input that comes in pieces into lines.

ghost use Rattle.std.specs.Prelude.{◌≡◌, ◌≤◌, ◌+◌, ◌++◌, ℕ, List, [], length, take, min, false, nat_lt};
ghost use Rattle.std.specs.List.{position_or_len};
ghost use Rattle.std.specs.Str.Lines.{strip_carriage_return};
ghost use Rattle.firm_text.specs.Inputs.{line_of, line_under};
ghost use Rattle.firm_text.specs.declared.headings.Heading.{Heading as HeadingRow};
ghost use Rattle.firm_text.specs.Lines.{is_filled, is_line_feed};
ghost use Rattle.firm_text.specs.Cutters.{StandsFor, most_bytes_held, most_counted};

use crate::headings::Heading;
use crate::inputs::Line;
use crate::reading::line_under;
use std::marker::Model;

/// Number of bytes of a line that are held: the longest line and a carriage return.
const MOST_BYTES_HELD: usize = 257;

/// The end of the count of a line's bytes.
const MOST_COUNTED: usize = 258;

/// The bytes of a line that comes in pieces, as far as they matter: the first 257 of them, and their count up to 258.
#[derive(Drop)]
pub struct Cutter {
    bytes: [u8; MOST_BYTES_HELD],
    count: usize,
    has_ended: bool,
}

impl Model for Cutter {
    ghost use Rattle.std.specs.Prelude.{◌≤◌, take, length, min};
    ghost use Rattle.firm_text.specs.Cutters.{CutterIs, most_counted};

    ghost Value = { CutterIs };

    ghost view = { λ c. record { held = take c.count c.bytes; count = c.count; has_ended = c.has_ended } };

    ghost invariant = { λ c. c.count ≤ most_counted };
}

/// The part of a piece that a cutter took.
#[derive(Clone, Copy, PartialEq, Eq)]
pub struct Fed {
    /// Number of bytes taken, from the front.
    pub used: usize,
    /// Whether the last of them is the line feed that ends the line.
    pub ended: bool,
}

impl Cutter {
    /// A cutter at the beginning of a line.
    pub fn new() -> Cutter
        ensures stands { StandsFor result [] }
        ensures open { result.has_ended ≡ false }
    {
        Cutter {
            bytes: [0; MOST_BYTES_HELD],
            count: 0,
            has_ended: false,
        }
    }

    /// Takes the bytes of the piece up to its first line feed and with it, or all where it has none.
    pub fn feed(&mut self, piece: &[u8]) -> Fed
        requires { self.old.has_ended ≡ false }
        ensures stands { (text : List ℕ) → StandsFor self.old text
            → StandsFor self.new (text ++ take (position_or_len is_line_feed piece.now) piece.now) }
        ensures used { result.used ≡ min (1 + position_or_len is_line_feed piece.now) (length piece.now) }
        ensures ended { result.ended ≡ nat_lt (position_or_len is_line_feed piece.now) (length piece.now) }
        ensures open { self.new.has_ended ≡ result.ended }
    {
        let in_line = length_to_line_feed(piece);
        self.hold(&piece[..in_line]);
        self.has_ended = in_line < piece.len();
        Fed {
            used: piece.len().min(in_line + 1),
            ended: self.has_ended,
        }
    }

    /// The line under a plain heading: one that has ended, or the rest of the input. The cutter then begins the
    /// next line.
    pub fn take(&mut self) -> Line
        ensures line { (text : List ℕ) → StandsFor self.old text → result ≡ line_of (strip_carriage_return text) }
        ensures stands { StandsFor self.new [] }
        ensures open { self.new.has_ended ≡ false }
    {
        self.take_under(Heading::Plain)
    }

    /// The same under this heading.
    pub fn take_under(&mut self, heading: Heading) -> Line
        ensures line { (text : List ℕ) → StandsFor self.old text
            → result ≡ line_under heading (strip_carriage_return text) }
        ensures stands { StandsFor self.new [] }
        ensures open { self.new.has_ended ≡ false }
    {
        let taken = line_under(heading, self.told());
        self.count = 0;
        self.has_ended = false;
        taken
    }

    /// Whether a byte came since the last line feed, where each line that has ended was taken.
    pub fn rest(&self) -> bool
        ensures { (text : List ℕ) → StandsFor self.now text → result ≡ is_filled text }
    {
        self.count > 0
    }

    // The first bytes of a line as long as the count goes decide what it is, regardless of its last byte.
    fn told(&self) -> &[u8]
        ensures { (heading : HeadingRow) (text : List ℕ) → StandsFor self.now text
            → line_under heading result.now ≡ line_under heading (strip_carriage_return text) }
    {
        if self.count == MOST_COUNTED {
            &self.bytes
        } else {
            without_carriage_return(&self.bytes[..self.count])
        }
    }

    fn hold(&mut self, bytes: &[u8])
        ensures held { self.new.held ≡ take most_bytes_held (self.old.held ++ bytes.now) }
        ensures count { self.new.count ≡ min most_counted (self.old.count + length bytes.now) }
        ensures ended { self.new.has_ended ≡ self.old.has_ended }
    {
        let begin = self.count.min(MOST_BYTES_HELD);
        let fits = bytes.len().min(MOST_BYTES_HELD - begin);
        self.bytes[begin..begin + fits].copy_from_slice(&bytes[..fits]);
        self.count = MOST_COUNTED.min(self.count + bytes.len());
    }
}

/// A line without one carriage return as its last byte.
fn without_carriage_return(line: &[u8]) -> &[u8]
    ensures { result.now ≡ strip_carriage_return line.now }
{
    match line {
        [front @ .., b'\r'] => front,
        _ => line,
    }
}

fn length_to_line_feed(text: &[u8]) -> usize
    ensures place { result ≡ position_or_len is_line_feed text.now }
    ensures within { result ≤ length text.now }
{
    text.iter().take_while(|byte| **byte != b'\n').count()
}
