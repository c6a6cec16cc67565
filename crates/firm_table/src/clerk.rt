//! The clerk, which answers the lines of an input.

ghost use Rattle.std.specs.Prelude.{◌≡◌, ℕ, ◌++◌, ◌∷◌, List, Option, [], false, OnOk, OnErr, IfErr};
ghost use Rattle.firm_text.specs.Inputs.{input_lines};
ghost use Rattle.firm_table.specs.Opened.{Opened};
ghost use Rattle.firm_table.specs.Service.{AnswersFrom, BeginsAnswersFrom, IsWritingFault};

use crate::faults::ServeFault;
use firm_text::{Heading, Line, Sink, Source};

/// Answers lines in the order in which they are given. A clerk may hold answers back, and writes them in the order of
/// their lines. A call ends early with `Write` if a call of the writer failed, and with `Memory` if memory for the
/// clerk itself was refused.
pub trait Clerk {
    /// The part that no call changes.
    ghost Kept: { Type 0 } = { Unit {0} };

    /// Its value for this clerk.
    ghost kept: { Self → Self.Kept };

    /// Its opening: the heading, and the places before the first line.
    ghost opening: { Self → Opened };

    /// The clerk can be given a line.
    ghost is_open: { Self → Type 0 };

    /// The lines of this text were answered: what was written between these two texts of the sink and what the clerk
    /// still holds make up the output for them, once all answers are known.
    ghost told: { Self → List ℕ → Option (List ℕ) → Option (List ℕ) → Type 0 };

    /// Each known answer with none missing before it was written.
    ghost is_written_out: { Self → Type 0 };

    /// Each answer was written.
    ghost is_finished: { Self → Type 0 };

    /// The heading under which lines are read for it.
    fn heading(&self) -> Heading
        ensures { result ≡ (opening self.now).heading };

    /// Answers one more line. Meanwhile it writes only answers, in order.
    fn answer<W: Sink>(&mut self, writer: &mut W, line: Line) -> Result<(), ServeFault>
        requires writer { W.write_failed writer.old ≡ false }
        requires open { is_open self.old }
        ensures told { OnOk result ((text after : List ℕ) (written : Option (List ℕ))
            → input_lines (opening self.old).heading after ≡ input_lines (opening self.old).heading text ++ line ∷ []
            → told self.old text written (W.written writer.old)
            → told self.new after written (W.written writer.new)) }
        ensures begins { OnErr result ((text after : List ℕ) (written : Option (List ℕ))
            → input_lines (opening self.old).heading after ≡ input_lines (opening self.old).heading text ++ line ∷ []
            → told self.old text written (W.written writer.old)
            → BeginsAnswersFrom (opening self.old) after written (W.written writer.new)) }
        ensures cause { IfErr result (λ fault. IsWritingFault fault (W.write_failed writer.new)) }
        ensures well { OnOk result (W.write_failed writer.new ≡ false) }
        ensures open { is_open self.new }
        ensures opening { opening self.new ≡ opening self.old }
        ensures kept { kept self.new ≡ kept self.old };

    /// Writes the known answers, up to the first missing one, which it may wait for until the reader is ready.
    fn write_out<S: Source, W: Sink>(
        &mut self,
        reader: &mut S,
        writer: &mut W,
    ) -> Result<(), ServeFault>
        requires writer { W.write_failed writer.old ≡ false }
        requires open { is_open self.old }
        ensures told { OnOk result ((text : List ℕ) (written : Option (List ℕ))
            → told self.old text written (W.written writer.old)
            → told self.new text written (W.written writer.new)) }
        ensures written_out { OnOk result (is_written_out self.new) }
        ensures begins { (text : List ℕ) (written : Option (List ℕ))
            → told self.old text written (W.written writer.old)
            → BeginsAnswersFrom (opening self.old) text written (W.written writer.new) }
        ensures cause { IfErr result (λ fault. IsWritingFault fault (W.write_failed writer.new)) }
        ensures well { OnOk result (W.write_failed writer.new ≡ false) }
        ensures open { is_open self.new }
        ensures opening { opening self.new ≡ opening self.old }
        ensures kept { kept self.new ≡ kept self.old }
        ensures input { S.left reader.new ≡ S.left reader.old }
        ensures reader { S.read_failed reader.new ≡ S.read_failed reader.old };

    /// Writes all answers, once each is known.
    fn finish<W: Sink>(&mut self, writer: &mut W) -> Result<(), ServeFault>
        requires writer { W.write_failed writer.old ≡ false }
        requires open { is_open self.old }
        ensures told { OnOk result ((text : List ℕ) (written : Option (List ℕ))
            → told self.old text written (W.written writer.old)
            → told self.new text written (W.written writer.new)) }
        ensures answers { OnOk result ((text : List ℕ) (written : Option (List ℕ))
            → told self.old text written (W.written writer.old)
            → AnswersFrom (opening self.old) text written (W.written writer.new)) }
        ensures finished { OnOk result (is_finished self.new) }
        ensures begins { OnErr result ((text : List ℕ) (written : Option (List ℕ))
            → told self.old text written (W.written writer.old)
            → BeginsAnswersFrom (opening self.old) text written (W.written writer.new)) }
        ensures cause { IfErr result (λ fault. IsWritingFault fault (W.write_failed writer.new)) }
        ensures well { OnOk result (W.write_failed writer.new ≡ false) }
        ensures open { is_open self.new }
        ensures opening { opening self.new ≡ opening self.old }
        ensures kept { kept self.new ≡ kept self.old };
}
