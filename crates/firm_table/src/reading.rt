//! Reading an input in pieces and cutting it into lines, which a clerk answers.

ghost use Rattle.std.specs.Prelude.{◌≡◌, ℕ, ◌≤◌, ◌<◌, ◌^◌, ◌++◌, List, Option, [], false, length};
ghost use Rattle.std.specs.Prelude.{OnOk, OnErr, IfOk, IfErr};
ghost use Rattle.firm_table.specs.Service.{AnswersFrom, BeginsAnswersFrom, ServedFrom, StoppedFrom, UpToDate, between};
ghost use Rattle.firm_table.specs.Telling.{ToldToTheEnd, WasTold};
ghost use Rattle.firm_table.specs.declared.faults.ServeFault.TheVariants.{Read};
ghost use Rattle.firm_table.specs.Service.{IsWritingFault};
ghost use Rattle.firm_table.specs.inner.Reading.{Heard, Halted};

use crate::clerk::Clerk;
use crate::faults::ServeFault;
use firm_text::{Cutter, Sink, Source};

/// The most bytes of input that a service takes: 2^32.
pub const MOST_INPUT: u64 = 4_294_967_296;

/// Number of bytes that one read asks for.
const PIECE: usize = 4_096;

/// Lets a clerk answer the lines of an input of at most `most` bytes, itself at most 2^32, which are read under the
/// clerk's heading. Before each read the clerk writes the answers that it can, including those that arrive while a read
/// would wait; at the end it writes all answers, and the writer is flushed.
///
/// On `Ok` a read has reached the end of the input, and what was written is the output for all of it. After a fault,
/// what was written is a prefix of the output for the bytes read. `Read` and `Write` say that a call of the reader or
/// the writer failed, `TooLong` that more than `most` bytes were read, and `Memory` that memory for the clerk itself
/// was refused.
pub fn serve_lines<R: Source, W: Sink, C: Clerk>(
    reader: &mut R,
    writer: &mut W,
    clerk: &mut C,
    most: u64,
) -> Result<(), ServeFault>
    requires most { most ≤ 2 ^ 32 }
    requires reader { R.read_failed reader.old ≡ false }
    requires writer { W.write_failed writer.old ≡ false }
    requires open { C.is_open clerk.old }
    requires opening { C.told clerk.old [] (W.written writer.old) (W.written writer.old) }
    ensures served { OnOk result (ServedFrom (C.opening clerk.old) most
        (between R.left R.read_failed reader.old reader.new) (between W.written W.write_failed writer.old writer.new)) }
    ensures stopped { IfErr result (StoppedFrom (C.opening clerk.old) most
        (between R.left R.read_failed reader.old reader.new) (between W.written W.write_failed writer.old writer.new)) }
    ensures told { OnOk result (ToldToTheEnd (C.told clerk.new) most
        (between R.left R.read_failed reader.old reader.new) (between W.written W.write_failed writer.old writer.new)) }
    ensures finished { OnOk result (C.is_finished clerk.new) }
    ensures waiting { IfErr result (λ fault. fault ≡ Read → C.is_written_out clerk.new × UpToDate (C.told clerk.new)
        (between R.left R.read_failed reader.old reader.new) (between W.written W.write_failed writer.old writer.new)) }
    ensures open { C.is_open clerk.new }
    ensures opening { C.opening clerk.new ≡ C.opening clerk.old }
    ensures kept { C.kept clerk.new ≡ C.kept clerk.old }
{
    let mut piece = [0; PIECE];
    let mut cutter = Cutter::new();
    let mut heard = 0;
    loop {
        clerk.write_out(reader, writer)?;
        let Ok(count) = reader.read(&mut piece) else {
            return Err(ServeFault::Read);
        };
        if count == 0 {
            return answer_end(clerk, &mut cutter, writer);
        }
        heard += count as u64;
        if most < heard {
            return Err(ServeFault::TooLong);
        }
        answer_piece(clerk, &mut cutter, writer, &piece[..count])?;
    }
}

// Answers the lines that end in this piece; the cutter keeps what follows the last of them.
fn answer_piece<W: Sink, C: Clerk>(
    clerk: &mut C,
    cutter: &mut Cutter,
    writer: &mut W,
    piece: &[u8],
) -> Result<(), ServeFault>
    requires cut { cutter.old.has_ended ≡ false }
    requires writer { W.write_failed writer.old ≡ false }
    requires open { C.is_open clerk.old }
    ensures heard { OnOk result ((heard : List ℕ) (written : Option (List ℕ))
        → Heard (C.told clerk.old) cutter.old heard written (W.written writer.old)
        → Heard (C.told clerk.new) cutter.new (heard ++ piece.now) written (W.written writer.new)) }
    ensures halted { OnErr result ((heard : List ℕ) (written : Option (List ℕ))
        → Heard (C.told clerk.old) cutter.old heard written (W.written writer.old)
        → Halted (C.opening clerk.old) (heard ++ piece.now) written (W.written writer.new)) }
    ensures cause { IfErr result (λ fault. IsWritingFault fault (W.write_failed writer.new)) }
    ensures well { OnOk result (W.write_failed writer.new ≡ false) }
    ensures cut { OnOk result (cutter.new.has_ended ≡ false) }
    ensures open { C.is_open clerk.new }
    ensures opening { C.opening clerk.new ≡ C.opening clerk.old }
    ensures kept { C.kept clerk.new ≡ C.kept clerk.old }
{
    let mut rest = piece;
    while !rest.is_empty() {
        rest = answer_first(clerk, cutter, writer, rest)?;
    }
    Ok(())
}

// Answers the first line that ends in this piece, and returns what follows it.
fn answer_first<'b, W: Sink, C: Clerk>(
    clerk: &mut C,
    cutter: &mut Cutter,
    writer: &mut W,
    piece: &'b [u8],
) -> Result<&'b [u8], ServeFault>
    requires cut { cutter.old.has_ended ≡ false }
    requires writer { W.write_failed writer.old ≡ false }
    requires open { C.is_open clerk.old }
    requires some { 0 < length piece.now }
    ensures part { IfOk result (λ behind. (front : List ℕ) × (piece.now ≡ front ++ behind.now)) }
    ensures shorter { IfOk result (λ behind. length behind.now < length piece.now) }
    ensures heard { IfOk result (λ behind. (heard front : List ℕ) (written : Option (List ℕ))
        → piece.now ≡ front ++ behind.now
        → Heard (C.told clerk.old) cutter.old heard written (W.written writer.old)
        → Heard (C.told clerk.new) cutter.new (heard ++ front) written (W.written writer.new)) }
    ensures halted { OnErr result ((heard : List ℕ) (written : Option (List ℕ))
        → Heard (C.told clerk.old) cutter.old heard written (W.written writer.old)
        → Halted (C.opening clerk.old) (heard ++ piece.now) written (W.written writer.new)) }
    ensures cause { IfErr result (λ fault. IsWritingFault fault (W.write_failed writer.new)) }
    ensures well { OnOk result (W.write_failed writer.new ≡ false) }
    ensures cut { OnOk result (cutter.new.has_ended ≡ false) }
    ensures open { C.is_open clerk.new }
    ensures opening { C.opening clerk.new ≡ C.opening clerk.old }
    ensures kept { C.kept clerk.new ≡ C.kept clerk.old }
{
    let fed = cutter.feed(piece);
    let (_, behind) = piece.split_at(fed.used);
    if !fed.ended {
        return Ok(behind);
    }
    let line = cutter.take_under(clerk.heading());
    match clerk.answer(writer, line) {
        Ok(()) => Ok(behind),
        Err(fault) => Err(fault),
    }
}

// Answers the unterminated last line and writes all answers.
fn answer_end<W: Sink, C: Clerk>(
    clerk: &mut C,
    cutter: &mut Cutter,
    writer: &mut W,
) -> Result<(), ServeFault>
    requires cut { cutter.old.has_ended ≡ false }
    requires writer { W.write_failed writer.old ≡ false }
    requires open { C.is_open clerk.old }
    ensures told { OnOk result ((heard : List ℕ) (written : Option (List ℕ))
        → Heard (C.told clerk.old) cutter.old heard written (W.written writer.old)
        → WasTold (C.told clerk.new) heard written (W.written writer.new)) }
    ensures answers { OnOk result ((heard : List ℕ) (written : Option (List ℕ))
        → Heard (C.told clerk.old) cutter.old heard written (W.written writer.old)
        → AnswersFrom (C.opening clerk.old) heard written (W.written writer.new)) }
    ensures finished { OnOk result (C.is_finished clerk.new) }
    ensures begins { OnErr result ((heard : List ℕ) (written : Option (List ℕ))
        → Heard (C.told clerk.old) cutter.old heard written (W.written writer.old)
        → BeginsAnswersFrom (C.opening clerk.old) heard written (W.written writer.new)) }
    ensures cause { IfErr result (λ fault. IsWritingFault fault (W.write_failed writer.new)) }
    ensures well { OnOk result (W.write_failed writer.new ≡ false) }
    ensures open { C.is_open clerk.new }
    ensures opening { C.opening clerk.new ≡ C.opening clerk.old }
    ensures kept { C.kept clerk.new ≡ C.kept clerk.old }
{
    answer_rest(clerk, cutter, writer)?;
    clerk.finish(writer)?;
    match writer.flush() {
        Ok(()) => Ok(()),
        Err(_) => Err(ServeFault::Write),
    }
}

// Answers the unterminated last line.
fn answer_rest<W: Sink, C: Clerk>(
    clerk: &mut C,
    cutter: &mut Cutter,
    writer: &mut W,
) -> Result<(), ServeFault>
    requires cut { cutter.old.has_ended ≡ false }
    requires writer { W.write_failed writer.old ≡ false }
    requires open { C.is_open clerk.old }
    ensures told { OnOk result ((heard : List ℕ) (written : Option (List ℕ))
        → Heard (C.told clerk.old) cutter.old heard written (W.written writer.old)
        → C.told clerk.new heard written (W.written writer.new)) }
    ensures begins { OnErr result ((heard : List ℕ) (written : Option (List ℕ))
        → Heard (C.told clerk.old) cutter.old heard written (W.written writer.old)
        → BeginsAnswersFrom (C.opening clerk.old) heard written (W.written writer.new)) }
    ensures cause { IfErr result (λ fault. IsWritingFault fault (W.write_failed writer.new)) }
    ensures well { OnOk result (W.write_failed writer.new ≡ false) }
    ensures open { C.is_open clerk.new }
    ensures opening { C.opening clerk.new ≡ C.opening clerk.old }
    ensures kept { C.kept clerk.new ≡ C.kept clerk.old }
{
    if !cutter.rest() {
        return Ok(());
    }
    let line = cutter.take_under(clerk.heading());
    clerk.answer(writer, line)
}
