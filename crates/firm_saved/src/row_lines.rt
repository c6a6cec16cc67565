//! Reading a line as a row.
ghost use Rattle.std.specs.Prelude.{◌≡◌, ◌≤◌, IfOk, MatchResult, Ok, Err, []};
ghost use Rattle.firm_saved.specs.Lines.{words_of, words_behind, name_word, number_word, number_at, labelled_at};
ghost use Rattle.firm_saved.specs.Lines.{names_patience, patience_at};
ghost use Rattle.firm_saved.specs.Lines.{limits_at, place_row, tenant_row, cost_word, costs_at, costs_row, machine_row};
ghost use Rattle.firm_saved.specs.Lines.{job_row, standing_of, names_at, preferred_at, standing_at, task_row, verb_row};
ghost use Rattle.firm_saved.specs.Lines.{words_row, row_of};
ghost use Rattle.firm_saved.specs.inner.Returned.{Gives};

use crate::faults::FaultKind;
use crate::rows::Row;
use crate::words::{cut, is_word, next_word};
use crate::writing::put_words;
use firm_rules::{
    Job, LONGEST_PATIENCE, Limits, MOST_PREFERENCES, Machine, Name, Preferred, RecentCosts, Slots,
    Task, Weight,
};
use firm_text::{Heading, number};

// No round costs more: 3,000,000 for each of 4,096 machines and tasks.
const MOST_COST: u64 = 4_096 * 3_000_000;

/// The row that a line is under this heading. Each row has one line: its words are read, written into the buffer, and
/// must be the line.
pub fn row_of(heading: Heading, line: &[u8], buffer: &mut Vec<u8>) -> Result<Row, FaultKind>
    ensures { Gives (λ row. row) result (row_of heading line.now) }
{
    let row = words_row(heading, line)?;
    buffer.clear();
    put_words(buffer, &row)?;
    if buffer.as_slice() != line {
        return Err(FaultKind::Row);
    }
    Ok(row)
}

fn words_row(heading: Heading, line: &[u8]) -> Result<Row, FaultKind>
    ensures { result ≡ words_row heading (words_of line.now) }
{
    let (verb, behind) = cut(line, b' ');
    verb_row(heading, verb, behind)
}

fn verb_row(heading: Heading, verb: &[u8], behind: &[u8]) -> Result<Row, FaultKind>
    ensures { result ≡ verb_row heading verb.now (words_behind behind.now) }
{
    if is_word(verb, "place") {
        place_row(behind)
    } else if is_word(verb, "tenant") {
        tenant_row(heading, behind)
    } else if is_word(verb, "costs") {
        costs_row(behind)
    } else if is_word(verb, "machine") {
        machine_row(behind)
    } else if is_word(verb, "job") {
        job_row(behind)
    } else if is_word(verb, "task") {
        task_row(behind)
    } else if is_word(verb, "rows") {
        Ok(Row::Rows(number_at(behind)?))
    } else {
        Err(FaultKind::Row)
    }
}

fn place_row(behind: &[u8]) -> Result<Row, FaultKind>
    ensures { result ≡ place_row (words_behind behind.now) }
{
    let (admissions, _) = labelled_at(behind)?;
    Ok(Row::Place(admissions))
}

fn tenant_row(heading: Heading, behind: &[u8]) -> Result<Row, FaultKind>
    ensures { result ≡ tenant_row heading (words_behind behind.now) }
{
    let (word, behind) = next_word(behind)?;
    let name = name_word(word)?;
    let (limits, behind) = match limits_at(heading, behind) {
        Ok(read) => read,
        Err(kind) => return Err(kind),
    };
    let (given, _) = labelled_at(behind)?;
    Ok(Row::Tenant(name, limits, given))
}

fn limits_at(heading: Heading, behind: &[u8]) -> Result<(Limits, &[u8]), FaultKind>
    ensures { MatchResult result
        (λ read. limits_at heading (words_behind behind.now) ≡ Ok (read.0, words_behind read.1.now))
        (λ kind. limits_at heading (words_behind behind.now) ≡ Err kind) }
{
    let (nodes, rest) = number_in(Ok(behind));
    let (arcs, rest) = number_in(rest);
    let (life, rest) = number_in(rest);
    let (spread, rest) = number_in(rest);
    let (churn, rest) = number_in(rest);
    let (remote, rest) = number_in(rest);
    let behind = match rest {
        Ok(behind) => behind,
        Err(kind) => return Err(kind),
    };
    let (patience, behind) = match patience_at(heading, behind) {
        Ok(read) => read,
        Err(kind) => return Err(kind),
    };
    let Some(limits) = Limits::check(nodes, arcs, life, spread, churn, remote) else {
        return Err(FaultKind::BadNumber);
    };
    let Some(limits) = limits.with_patience(patience) else {
        return Err(FaultKind::BadNumber);
    };
    Ok((limits, behind))
}

// The number after the next label, and the rest or the first fault: so `limits_at` has one way out for six.
fn number_in(read: Result<&[u8], FaultKind>) -> (u64, Result<&[u8], FaultKind>)
    ensures { MatchResult read.entry
        (λ was. MatchResult result.1 (λ rest. labelled_at (words_behind was.now) ≡ Ok (result.0, words_behind rest.now))
        (λ kind. labelled_at (words_behind was.now) ≡ Err kind))
        (λ first. MatchResult result.1 (λ _. ⊥) (λ kind. kind ≡ first)) }
{
    match read {
        Ok(behind) => match labelled_at(behind) {
            Ok((number, rest)) => (number, Ok(rest)),
            Err(kind) => (0, Err(kind)),
        },
        Err(kind) => (0, Err(kind)),
    }
}

// The patience, written under an extended heading unless it is the longest, and the rest after it.
fn patience_at(heading: Heading, behind: &[u8]) -> Result<(u64, &[u8]), FaultKind>
    ensures { MatchResult result
        (λ read. patience_at heading (words_behind behind.now) ≡ Ok (read.0, words_behind read.1.now))
        (λ kind. patience_at heading (words_behind behind.now) ≡ Err kind) }
{
    match heading {
        Heading::Extended if names_patience(behind) => labelled_at(behind),
        _ => Ok((LONGEST_PATIENCE, behind)),
    }
}

// Whether the next word is the label of a patience.
fn names_patience(behind: &[u8]) -> bool
    ensures { result ≡ names_patience (words_behind behind.now) }
{
    match next_word(behind) {
        Ok((word, _)) => is_word(word, "patience"),
        Err(_) => false,
    }
}

fn costs_row(behind: &[u8]) -> Result<Row, FaultKind>
    ensures { result ≡ costs_row (words_behind behind.now) }
{
    Ok(Row::Costs(costs_at(behind)?))
}

fn costs_at(behind: &[u8]) -> Result<RecentCosts, FaultKind>
    ensures { result ≡ costs_at [] (words_behind behind.now) }
{
    let mut costs = RecentCosts::new();
    let mut rest = behind;
    while let Ok((word, behind)) = next_word(rest) {
        costs.push(cost_word(word)? as i64);
        rest = behind;
    }
    Ok(costs)
}

fn cost_word(word: &[u8]) -> Result<u64, FaultKind>
    ensures value { result ≡ cost_word word.now }
    ensures few { IfOk result (λ cost. cost ≤ 12288000000) }
{
    let number = number_word(word)?;
    if number > MOST_COST {
        return Err(FaultKind::BadNumber);
    }
    Ok(number)
}

fn machine_row(behind: &[u8]) -> Result<Row, FaultKind>
    ensures { result ≡ machine_row (words_behind behind.now) }
{
    let (word, behind) = next_word(behind)?;
    let name = name_word(word)?;
    let (digits, _) = next_word(behind)?;
    let Some(slots) = number(digits).and_then(Slots::check) else {
        return Err(FaultKind::BadNumber);
    };
    Ok(Row::Machine(Machine { name, slots }))
}

fn job_row(behind: &[u8]) -> Result<Row, FaultKind>
    ensures { result ≡ job_row (words_behind behind.now) }
{
    let (word, behind) = next_word(behind)?;
    let name = name_word(word)?;
    let (digits, _) = next_word(behind)?;
    let Some(weight) = number(digits).and_then(Weight::check) else {
        return Err(FaultKind::BadNumber);
    };
    Ok(Row::Job(Job { name, weight }))
}

fn task_row(behind: &[u8]) -> Result<Row, FaultKind>
    ensures { result ≡ task_row (words_behind behind.now) }
{
    let (word, behind) = next_word(behind)?;
    let job = name_word(word)?;
    let (word, behind) = next_word(behind)?;
    let name = name_word(word)?;
    let (machine, waited, preferred) = standing_at(behind)?;
    Ok(Row::Task(Task {
        name,
        job,
        preferred,
        machine,
        waited,
    }))
}

fn standing_at(behind: &[u8]) -> Result<(Option<Name>, u32, Preferred), FaultKind>
    ensures { result ≡ standing_at (words_behind behind.now) }
{
    let (verb, behind) = next_word(behind)?;
    let (word, behind) = next_word(behind)?;
    let (machine, waited) = standing_of(verb, word)?;
    let preferred = preferred_at(behind)?;
    Ok((machine, waited, preferred))
}

fn standing_of(verb: &[u8], word: &[u8]) -> Result<(Option<Name>, u32), FaultKind>
    ensures { result ≡ standing_of verb.now word.now }
{
    if is_word(verb, "at") {
        return Ok((Some(name_word(word)?), 0));
    }
    let waited = number_word(word)?;
    if waited > LONGEST_PATIENCE {
        return Err(FaultKind::BadNumber);
    }
    Ok((None, waited as u32))
}

fn preferred_at(behind: &[u8]) -> Result<Preferred, FaultKind>
    ensures { result ≡ preferred_at (words_behind behind.now) }
{
    match next_word(behind) {
        Err(_) => Ok(Preferred::new()),
        Ok((_, names)) => names_at(names),
    }
}

fn names_at(behind: &[u8]) -> Result<Preferred, FaultKind>
    ensures { result ≡ names_at [] (words_behind behind.now) }
{
    let mut preferred = Preferred::new();
    let mut rest = behind;
    while let Ok((word, behind)) = next_word(rest) {
        if preferred.len() >= MOST_PREFERENCES {
            return Err(FaultKind::Row);
        }
        preferred.add(name_word(word)?);
        rest = behind;
    }
    Ok(preferred)
}

// The number after a label, and the rest after it.
fn labelled_at(behind: &[u8]) -> Result<(u64, &[u8]), FaultKind>
    ensures { MatchResult result (λ read. labelled_at (words_behind behind.now) ≡ Ok (read.0, words_behind read.1.now))
        (λ kind. labelled_at (words_behind behind.now) ≡ Err kind) }
{
    let (_, behind) = next_word(behind)?;
    let (word, behind) = next_word(behind)?;
    Ok((number_word(word)?, behind))
}

fn number_at(behind: &[u8]) -> Result<u64, FaultKind>
    ensures { result ≡ number_at (words_behind behind.now) }
{
    let (word, _) = next_word(behind)?;
    number_word(word)
}

fn number_word(word: &[u8]) -> Result<u64, FaultKind>
    ensures { result ≡ number_word word.now }
{
    number(word).ok_or(FaultKind::BadNumber)
}

fn name_word(word: &[u8]) -> Result<Name, FaultKind>
    ensures { result ≡ name_word word.now }
{
    Name::read(word).ok_or(FaultKind::BadName)
}
