//! Bytes of text of the changes of rounds.
ghost use Rattle.std.specs.Prelude.{◌≡◌, ◌≤◌, length};
ghost use Rattle.firm_text.specs.Replies.{spaced};
ghost use Rattle.firm_held.specs.Held.{bytes_of_change, bytes_of_changes, bytes_of_line, bytes_of_reply};

use firm_rules::{Change, Name, Outcome, Reply};
use firm_table::LineAnswer;

/// The changes of a round count as at most this many bytes, far more than they have.
const MOST_BYTES_COUNTED: u64 = 4_294_967_296;

// The bytes of the changes in a known answer.
pub(crate) fn bytes_of_line(answer: &LineAnswer) -> u64
    ensures { result ≡ bytes_of_line answer.now }
{
    match answer {
        LineAnswer::Replied(_, reply) => bytes_of_reply(reply),
        _ => 0,
    }
}

// The same for a reply.
pub(crate) fn bytes_of_reply(reply: &Reply) -> u64
    ensures { result ≡ bytes_of_reply reply.now }
{
    match &reply.outcome {
        Outcome::Round { changes, .. } => bytes_of_changes(changes.as_slice()),
        _ => 0,
    }
}

fn bytes_of_changes(changes: &[Change]) -> u64
    ensures { result ≡ bytes_of_changes changes.now }
{
    let mut bytes = 0;
    for change in changes {
        bytes = (bytes + bytes_of_change(change)).min(MOST_BYTES_COUNTED);
    }
    bytes
}

fn bytes_of_change(change: &Change) -> u64
    ensures value { result ≡ bytes_of_change change.now }
    ensures few { result ≤ 56 }
{
    match change {
        Change::Start(task, machine) => 6 + bytes_of_name(task) + bytes_of_name(machine),
        Change::Move(task, from, to) => {
            5 + bytes_of_name(task) + bytes_of_name(from) + bytes_of_name(to)
        }
        Change::Preempt(task, machine) => 8 + bytes_of_name(task) + bytes_of_name(machine),
    }
}

// The bytes of a name and the space before it.
fn bytes_of_name(name: &Name) -> u64
    ensures value { result ≡ length (spaced name.now) }
    ensures few { result ≤ 17 }
{
    1 + name.as_bytes().len() as u64
}
