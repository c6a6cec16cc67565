//! Reading what the operator asks for.

ghost use Rattle.std.specs.Prelude.{◌≡◌};
ghost use Rattle.firm_text.specs.Lines.{words};
ghost use Rattle.firm_text.specs.OperatorLines.{admit_line, operator_line_of, operator_verb, retire_line, row_refusal};
ghost use Rattle.firm_text.specs.OperatorLines.{row_told};

use crate::commands::is_word;
use crate::faults::RosterFault;
use crate::headings::Heading;
use crate::operator::{OperatorLine, OperatorRefusal};
use crate::roster_text::told_tenant;
use crate::row_fields::row_fields;
use crate::words::{next_word, only_word};
use firm_rules::{Limits, Name};

/// The request in the words after the operator's `+`. A tenant's line does not pay for its locals.
#[inline(never)]
pub fn operator_line(heading: Heading, line: &[u8]) -> OperatorLine
    ensures { result ≡ operator_line_of heading (words line.now) }
{
    match verb(heading, line) {
        Ok(line) => line,
        Err(refusal) => OperatorLine::Faulty(refusal),
    }
}

fn verb(heading: Heading, line: &[u8]) -> Result<OperatorLine, OperatorRefusal>
    ensures { result ≡ operator_verb heading (words line.now) }
{
    let Some((verb, rest)) = next_word(line) else {
        return Err(OperatorRefusal::BadCommand);
    };
    if is_word(verb, "admit") {
        admit(heading, rest)
    } else if is_word(verb, "retire") {
        retire(rest)
    } else {
        Err(OperatorRefusal::BadCommand)
    }
}

fn admit(heading: Heading, line: &[u8]) -> Result<OperatorLine, OperatorRefusal>
    ensures { result ≡ admit_line heading (words line.now) }
{
    let Some(row) = only_word(line) else {
        return Err(OperatorRefusal::BadCommand);
    };
    let (name, limits) = row_told(heading, row)?;
    Ok(OperatorLine::Admit(name, limits))
}

fn retire(line: &[u8]) -> Result<OperatorLine, OperatorRefusal>
    ensures { result ≡ retire_line (words line.now) }
{
    let Some(word) = only_word(line) else {
        return Err(OperatorRefusal::BadCommand);
    };
    let Some(name) = Name::read(word) else {
        return Err(OperatorRefusal::BadName);
    };
    Ok(OperatorLine::Retire(name))
}

// The tenant that a row under this heading describes, whose fields stand between commas.
fn row_told(heading: Heading, row: &[u8]) -> Result<(Name, Limits), OperatorRefusal>
    ensures { result ≡ row_told heading row.now }
{
    let Some(fields) = row_fields(row) else {
        return Err(OperatorRefusal::BadRow);
    };
    if let (Heading::Plain, Some(_)) = (heading, fields.patience) {
        return Err(OperatorRefusal::BadRow);
    }
    told_tenant(&fields).map_err(row_refusal)
}

// The refusal of a line whose row has this fault.
fn row_refusal(fault: RosterFault) -> OperatorRefusal
    ensures { result ≡ row_refusal fault }
{
    match fault {
        RosterFault::BadName => OperatorRefusal::BadName,
        RosterFault::BadNumber => OperatorRefusal::BadNumber,
        // A row by itself has no other fault than the count of its fields.
        _ => OperatorRefusal::BadRow,
    }
}
