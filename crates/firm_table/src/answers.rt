//! The answer to a line, and its text.

ghost use Rattle.std.specs.Prelude.{◌≡◌, ◌++◌, OnOk};
ghost use Rattle.std.specs.Io.{StartsWith};
ghost use Rattle.firm_text.specs.OperatorReplies.{text_of_operator_reply};
ghost use Rattle.firm_text.specs.Replies.{text_of_reply};
ghost use Rattle.firm_table.specs.Answers.{ended, tells_memory, text_of_answer};

use firm_rules::{Name, Outcome, Refusal, Reply};
use firm_text::{OperatorRefusal, OperatorReply, put_operator_reply, put_reply};
use std::alloc::AllocError;

/// The answer to a line.
#[derive(Drop)]
pub enum LineAnswer {
    /// Nothing: the line has no word, or is a comment.
    Silent,
    /// The line has more than 256 bytes.
    LineTooLong,
    /// The line names no tenant of the service.
    UnknownTenant,
    /// The tenant of this name replied.
    Replied(Name, Reply),
    /// The reply to a line of the operator.
    ToOperator(OperatorReply),
}

impl LineAnswer {
    // Whether this is the reply to a solved round.
    pub(crate) fn is_round(&self) -> bool {
        match self {
            LineAnswer::Replied(_, reply) => match &reply.outcome {
                Outcome::Round { .. } => true,
                _ => false,
            },
            _ => false,
        }
    }

    // Whether this says that memory was refused to the line.
    pub(crate) fn tells_memory(&self) -> bool
        ensures { result ≡ tells_memory self.now }
    {
        match self {
            LineAnswer::Replied(_, reply) => match &reply.outcome {
                Outcome::Refused(Refusal::Memory) => true,
                _ => false,
            },
            LineAnswer::ToOperator(OperatorReply::Refused(OperatorRefusal::Memory)) => true,
            _ => false,
        }
    }

    /// Adds the text of the answer, with its line feed; a silent answer has none. If memory runs out, part of the text
    /// may have been added.
    pub fn put(&self, output: &mut Vec<u8>) -> Result<(), AllocError>
        ensures kept { StartsWith output.new.items output.old.items }
        ensures added { OnOk result (output.new.items ≡ output.old.items ++ text_of_answer self.now) }
    {
        match self {
            LineAnswer::Silent => Ok(()),
            LineAnswer::LineTooLong => output.extend_from_slice(b"! line-too-long\n"),
            LineAnswer::UnknownTenant => output.extend_from_slice(b"! unknown-tenant\n"),
            LineAnswer::Replied(name, reply) => put_line(output, *name, reply),
            LineAnswer::ToOperator(reply) => put_operator_line(output, *reply),
        }
    }
}

// Adds a tenant's reply.
fn put_line(output: &mut Vec<u8>, name: Name, reply: &Reply) -> Result<(), AllocError>
    ensures kept { StartsWith output.new.items output.old.items }
    ensures added { OnOk result (output.new.items ≡ output.old.items ++ ended (text_of_reply name reply.now)) }
{
    put_reply(output, name, reply)?;
    output.extend_from_slice(b"\n")
}

// Adds a reply to the operator.
#[inline(never)]
fn put_operator_line(output: &mut Vec<u8>, reply: OperatorReply) -> Result<(), AllocError>
    ensures kept { StartsWith output.new.items output.old.items }
    ensures added { OnOk result (output.new.items ≡ output.old.items ++ ended (text_of_operator_reply reply)) }
{
    put_operator_reply(output, reply)?;
    output.extend_from_slice(b"\n")
}
