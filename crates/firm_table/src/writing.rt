//! Writing the answers that are held.

ghost use Rattle.std.specs.Prelude.{◌≡◌, ℕ, ◌≤◌, [], false, OnOk, OnErr, IfErr, length, take};
ghost use Rattle.std.specs.Io.KnownBytes.{Appends};
ghost use Rattle.firm_table.specs.Service.{IsWritingFault};

use crate::faults::ServeFault;
use firm_text::{Sink, write_all};

/// Writes the held text, and clears it. After a fault, which is `Write`, the sink has a prefix of the text.
pub fn write_held<W: Sink>(writer: &mut W, output: &mut Vec<u8>) -> Result<(), ServeFault>
    requires { W.write_failed writer.old ≡ false }
    ensures ok { OnOk result (Appends (W.written writer.old) (W.written writer.new) output.old.items) }
    ensures empty { OnOk result (output.new.items ≡ []) }
    ensures err { OnErr result ((count : ℕ) × (count ≤ length output.old.items)
        × Appends (W.written writer.old) (W.written writer.new) (take count output.old.items)) }
    ensures cause { IfErr result (λ fault. IsWritingFault fault (W.write_failed writer.new)) }
    ensures well { OnOk result (W.write_failed writer.new ≡ false) }
{
    if write_all(writer, output).is_err() {
        return Err(ServeFault::Write);
    }
    output.clear();
    Ok(())
}
