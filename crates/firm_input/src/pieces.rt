//! A reader with one piece that was read ahead.

ghost use Rattle.std.specs.Prelude.{◌≡◌, ◌≤◌, ◌<◌, ◌+◌, ◌++◌, length, take, IfOk};
ghost use Rattle.std.specs.Io.{ReadsAtMost};
ghost use Rattle.std.specs.Io.KnownBytes.{Keeps, ReadConsumes};

use firm_text::Failed;
use std::alloc::{AllocError, Global};
use std::io::Read;
use std::marker::Model;

/// The most bytes that are read ahead.
const PIECE: usize = 4_096;

/// Input that was read ahead and not passed on: nothing, a piece (an empty one is the end of the input), or a failure.
#[derive(Drop)]
pub(crate) enum Ahead {
    Nothing,
    Piece,
    Failure,
}

/// A piece: how many of its bytes were taken, and how many are left.
#[derive(Drop)]
pub(crate) struct Piece {
    bytes: [u8; PIECE],
    taken: usize,
    left: usize,
    ghost within: { taken + left ≤ 4096 },
}

impl Piece {
    ghost use Rattle.firm_input.specs.inner.Pieces.{ReadsPiece, unread};

    // An empty piece.
    fn new() -> Piece
        ensures { result.left ≡ 0 }
    {
        Piece {
            bytes: [0; PIECE],
            taken: 0,
            left: 0,
        }
    }

    // Reads the piece anew.
    fn fill<T: Read>(&mut self, reader: &mut T) -> Result<(), Failed>
        ensures { ReadsPiece (T.remaining reader.old) (T.remaining reader.new) result self.new }
    {
        match reader.read(&mut self.bytes) {
            Ok(count) => {
                self.taken = 0;
                self.left = count;
                Ok(())
            }
            Err(_) => Err(Failed),
        }
    }

    // Takes bytes from the front of the piece.
    fn take(&mut self, buffer: &mut [u8]) -> usize
        ensures bound { (result ≤ length buffer.new) × (length buffer.new ≡ length buffer.old) }
        ensures bytes { unread self.old ≡ take result buffer.new ++ unread self.new }
        ensures none { result ≡ 0 → 0 < length buffer.new → self.old.left ≡ 0 }
        ensures same { result ≡ 0 → self.new ≡ self.old }
    {
        let count = self.left.min(buffer.len());
        let next = self.taken + count;
        buffer[..count].copy_from_slice(&self.bytes[self.taken..next]);
        self.taken = next;
        self.left -= count;
        count
    }
}

/// A reader, and the piece that was read ahead. Contracts see the bytes that are left, where the reader tells them.
#[derive(Drop)]
pub(crate) struct PieceReader<T: Read> {
    inner: T,
    // Boxed, since the reader is handed to and fro.
    piece: Box<Piece>,
    ahead: Ahead,
}

impl<T: Read> Model for PieceReader<T> {
    ghost use Rattle.std.specs.Prelude.{List, Option, ℕ};
    ghost use Rattle.firm_input.specs.inner.Pieces.{IsEnd, left_behind};

    ghost Value = { Option (List ℕ) };

    ghost view = { λ r. left_behind r.ahead r.piece.value (T.remaining r.inner) };

    ghost invariant = { λ r. IsEnd r.ahead r.piece.value (T.remaining r.inner) };
}

impl<T: Read + Drop> PieceReader<T> {
    /// Fails only if memory is refused.
    pub(crate) fn new(alloc: Global, inner: T) -> Result<PieceReader<T>, AllocError>
        ensures { IfOk result (λ reader. reader ≡ T.remaining inner) }
    {
        Ok(PieceReader {
            inner,
            piece: Box::new(alloc, Piece::new())?,
            ahead: Ahead::Nothing,
        })
    }
}

impl<T: Read> PieceReader<T> {
    /// Whether a read need not ask the reader.
    pub(crate) fn has_piece(&self) -> bool {
        !matches!(self.ahead, Ahead::Nothing)
    }

    /// Reads the next piece, if nothing is left of the last one.
    pub(crate) fn read_ahead(&mut self)
        ensures { Keeps self.old self.new }
    {
        if let Ahead::Nothing = self.ahead {
            self.ahead = match self.piece.fill(&mut self.inner) {
                Ok(()) => Ahead::Piece,
                Err(_) => Ahead::Failure,
            };
        }
    }

    /// Reads into the buffer: from the piece, while something is left of it. An interrupted read fails, as every other
    /// failure does.
    pub(crate) fn read(&mut self, buffer: &mut [u8]) -> Result<usize, Failed>
        ensures bound { ReadsAtMost result buffer.new }
        ensures bytes { ReadConsumes self.old self.new result buffer.new }
    {
        match self.ahead {
            Ahead::Nothing => self.inner.read(buffer).map_err(|_| Failed),
            Ahead::Piece => {
                let count = self.piece.take(buffer);
                // An empty buffer cannot learn of the end.
                if self.piece.left == 0 && !buffer.is_empty() {
                    self.ahead = Ahead::Nothing;
                }
                Ok(count)
            }
            Ahead::Failure => {
                self.ahead = Ahead::Nothing;
                Err(Failed)
            }
        }
    }
}
