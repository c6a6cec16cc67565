//! The text of a reply.

ghost use Rattle.std.specs.Prelude.{◌≡◌, ◌≤◌, ◌∷◌, ◌++◌, [], IfOk, OnOk, codes, map};
ghost use Rattle.std.specs.List.{flat_map};
ghost use Rattle.std.specs.Io.{StartsWith};
ghost use Rattle.std.specs.Fmt.{decimal, signed_decimal};
ghost use Rattle.firm_text.specs.OperatorReplies.{operator_reply_words, text_of_operator_reply};
ghost use Rattle.firm_text.specs.Replies.{text_of_reply, outcome_words, change_words, rows_words, use_words, labelled};
ghost use Rattle.firm_text.specs.Replies.{spaced};

use crate::operator::OperatorReply;
use firm_rules::{Change, Name, Outcome, Reply};
use itoa::Buffer;
use std::alloc::{AllocError, Global};

/// The line of a tenant's reply, without its line feed.
pub fn reply_text(alloc: Global, tenant: Name, reply: &Reply) -> Result<Vec<u8>, AllocError>
    ensures { IfOk result (λ text. text.items ≡ text_of_reply tenant reply.now) }
{
    let mut text = Vec::new(alloc);
    put_reply(&mut text, tenant, reply)?;
    Ok(text)
}

/// Adds the line of a tenant's reply, without its line feed. Where memory runs out, some bytes may have been added.
#[tactic(auto, using(crate::proofs::Puts::kept_trans))]
pub fn put_reply(text: &mut Vec<u8>, tenant: Name, reply: &Reply) -> Result<(), AllocError>
    ensures kept { StartsWith text.new.items text.old.items }
    ensures added { OnOk result (text.new.items ≡ text.old.items ++ text_of_reply tenant reply.now) }
{
    tenant.put(text)?;
    put_number(text, reply.number)?;
    put_outcome(text, &reply.outcome)
}

/// Adds the line of a reply to the operator, without its line feed. Where memory runs out, some bytes may have been
/// added.
#[tactic(auto, using(crate::proofs::Puts::kept_trans))]
pub fn put_operator_reply(text: &mut Vec<u8>, reply: OperatorReply) -> Result<(), AllocError>
    ensures kept { StartsWith text.new.items text.old.items }
    ensures added { OnOk result (text.new.items ≡ text.old.items ++ text_of_operator_reply reply) }
{
    text.extend_from_slice(b"+")?;
    put_operator_words(text, reply)
}

#[tactic(auto, using(crate::proofs::Puts::kept_trans))]
fn put_operator_words(text: &mut Vec<u8>, reply: OperatorReply) -> Result<(), AllocError>
    ensures kept { StartsWith text.new.items text.old.items }
    ensures added { OnOk result (text.new.items ≡ text.old.items ++ flat_map spaced (operator_reply_words reply)) }
{
    match reply {
        OperatorReply::Admitted(name) => put_after(text, b" ok admitted ", name.as_bytes()),
        OperatorReply::Retired(name) => put_after(text, b" ok retired ", name.as_bytes()),
        OperatorReply::Refused(refusal) => put_refusal(text, refusal.code(), refusal.name()),
    }
}

#[tactic(auto, using(crate::proofs::Puts::kept_trans))]
fn put_outcome(text: &mut Vec<u8>, outcome: &Outcome) -> Result<(), AllocError>
    ensures kept { StartsWith text.new.items text.old.items }
    ensures added { OnOk result (text.new.items ≡ text.old.items ++ flat_map spaced (outcome_words outcome.now)) }
{
    match outcome {
        Outcome::Plain => put(text, b"ok"),
        Outcome::Evicted(tasks) => put_labelled(text, b" ok evicted ", u64::from(*tasks)),
        Outcome::At(machine) => put_after(text, b" ok at ", machine.as_bytes()),
        Outcome::Waits(rounds) => put_labelled(text, b" ok waits ", u64::from(*rounds)),
        Outcome::Shown {
            machines,
            jobs,
            tasks,
            running,
            nodes,
            nodes_limit,
            arcs,
            arcs_limit,
        } => {
            put_rows(text, *machines, *jobs, *tasks, *running)?;
            put_use(text, *nodes, *nodes_limit, *arcs, *arcs_limit)
        }
        Outcome::Costs(costs) => put_costs(text, costs.as_slice()),
        Outcome::Round { cost, changes } => put_round(text, *cost, changes.as_slice()),
        Outcome::Refused(refusal) => put_refusal(text, refusal.code(), refusal.name()),
    }
}

/// Adds a refusal by its number and its name.
#[tactic(auto, using(crate::proofs::Puts::kept_trans))]
fn put_refusal(text: &mut Vec<u8>, code: u32, name: &str) -> Result<(), AllocError>
    ensures kept { StartsWith text.new.items text.old.items }
    ensures added { OnOk result (text.new.items
        ≡ text.old.items ++ flat_map spaced (labelled (codes "no") code ++ name.now ∷ [])) }
{
    put_labelled(text, b" no ", u64::from(code))?;
    put(text, name.as_bytes())
}

/// Adds `ok costs`, and the costs of rounds.
#[tactic(auto, using(crate::proofs::Puts::kept_trans))]
fn put_costs(text: &mut Vec<u8>, costs: &[i64]) -> Result<(), AllocError>
    ensures kept { StartsWith text.new.items text.old.items }
    ensures added { OnOk result (text.new.items
        ≡ text.old.items ++ flat_map spaced (codes "ok" ∷ codes "costs" ∷ map signed_decimal costs.now)) }
{
    text.extend_from_slice(b" ok costs")?;
    put_each_cost(text, costs)
}

#[tactic(auto, using(crate::proofs::Puts::kept_trans))]
fn put_each_cost(text: &mut Vec<u8>, costs: &[i64]) -> Result<(), AllocError>
    ensures kept { StartsWith text.new.items text.old.items }
    ensures added { OnOk result (text.new.items ≡ text.old.items ++ flat_map spaced (map signed_decimal costs.now)) }
{
    for cost in costs {
        put_cost(text, *cost)?;
    }
    Ok(())
}

/// Adds `ok round cost`, the cost of a round, and what it changes.
#[tactic(auto, using(crate::proofs::Puts::kept_trans))]
fn put_round(text: &mut Vec<u8>, cost: i64, changes: &[Change]) -> Result<(), AllocError>
    ensures kept { StartsWith text.new.items text.old.items }
    ensures added { OnOk result (text.new.items ≡ text.old.items ++ flat_map spaced (codes "ok" ∷ codes "round"
        ∷ codes "cost" ∷ signed_decimal cost ∷ flat_map change_words changes.now)) }
{
    text.extend_from_slice(b" ok round cost")?;
    put_cost(text, cost)?;
    put_changes(text, changes)
}

/// Adds what a round changes.
#[tactic(auto, using(crate::proofs::Puts::kept_trans))]
fn put_changes(text: &mut Vec<u8>, changes: &[Change]) -> Result<(), AllocError>
    ensures kept { StartsWith text.new.items text.old.items }
    ensures added { OnOk result (text.new.items
        ≡ text.old.items ++ flat_map spaced (flat_map change_words changes.now)) }
{
    for change in changes {
        put_change(text, change)?;
    }
    Ok(())
}

#[tactic(auto, using(crate::proofs::Puts::kept_trans))]
fn put_change(text: &mut Vec<u8>, change: &Change) -> Result<(), AllocError>
    ensures kept { StartsWith text.new.items text.old.items }
    ensures added { OnOk result (text.new.items ≡ text.old.items ++ flat_map spaced (change_words change.now)) }
{
    match change {
        Change::Start(task, machine) => put_word_and_names(text, b" start", task, machine),
        Change::Move(task, from, to) => {
            put_word_and_names(text, b" move", task, from)?;
            put_spaced_name(text, to)
        }
        Change::Preempt(task, machine) => put_word_and_names(text, b" preempt", task, machine),
    }
}

/// Adds a word, which has a space before it, and two names.
#[tactic(auto, using(crate::proofs::Puts::kept_trans))]
#[inline(always)]
fn put_word_and_names(
    text: &mut Vec<u8>,
    word: &[u8],
    first: &Name,
    second: &Name,
) -> Result<(), AllocError>
    ensures kept { StartsWith text.new.items text.old.items }
    ensures added { OnOk result (text.new.items
        ≡ text.old.items ++ word.now ++ flat_map spaced (first.now ∷ second.now ∷ [])) }
{
    text.extend_from_slice(word)?;
    put_spaced_name(text, first)?;
    put_spaced_name(text, second)
}

/// Adds a name, and the space before it.
#[tactic(auto, using(crate::proofs::Puts::kept_trans))]
#[inline(always)]
fn put_spaced_name(text: &mut Vec<u8>, name: &Name) -> Result<(), AllocError>
    ensures kept { StartsWith text.new.items text.old.items }
    ensures added { OnOk result (text.new.items ≡ text.old.items ++ flat_map spaced (name.now ∷ [])) }
{
    text.push(b' ')?;
    name.put(text)
}

/// Adds `ok`, how many machines, jobs and tasks there are, and how many of the tasks run.
#[tactic(auto, using(crate::proofs::Puts::kept_trans))]
fn put_rows(
    text: &mut Vec<u8>,
    machines: u64,
    jobs: u64,
    tasks: u64,
    running: u64,
) -> Result<(), AllocError>
    ensures kept { StartsWith text.new.items text.old.items }
    ensures added { OnOk result (text.new.items ≡ text.old.items
        ++ flat_map spaced (codes "ok" ∷ rows_words machines jobs tasks running)) }
{
    put_labelled(text, b" ok machines ", machines)?;
    put_labelled(text, b" jobs ", jobs)?;
    put_labelled(text, b" tasks ", tasks)?;
    put_labelled(text, b" running ", running)
}

/// Adds how many nodes and arcs there are, each with its limit.
#[tactic(auto, using(crate::proofs::Puts::kept_trans))]
fn put_use(
    text: &mut Vec<u8>,
    nodes: u64,
    nodes_limit: u64,
    arcs: u64,
    arcs_limit: u64,
) -> Result<(), AllocError>
    ensures kept { StartsWith text.new.items text.old.items }
    ensures added { OnOk result (text.new.items ≡ text.old.items
        ++ flat_map spaced (use_words nodes nodes_limit arcs arcs_limit)) }
{
    put_labelled(text, b" nodes ", nodes)?;
    put_labelled(text, b" of ", nodes_limit)?;
    put_labelled(text, b" arcs ", arcs)?;
    put_labelled(text, b" of ", arcs_limit)
}

/// Appends a label, which has a space at each end, and a word.
#[tactic(auto, using(crate::proofs::Puts::kept_trans))]
#[inline(always)]
fn put_after(text: &mut Vec<u8>, label: &[u8], word: &[u8]) -> Result<(), AllocError>
    ensures kept { StartsWith text.new.items text.old.items }
    ensures added { OnOk result (text.new.items ≡ text.old.items ++ label.now ++ word.now) }
{
    text.extend_from_slice(label)?;
    text.extend_from_slice(word)
}

/// Adds a word, and the space before it.
#[tactic(auto, using(crate::proofs::Puts::kept_trans))]
#[inline(always)]
fn put(text: &mut Vec<u8>, word: &[u8]) -> Result<(), AllocError>
    ensures kept { StartsWith text.new.items text.old.items }
    ensures added { OnOk result (text.new.items ≡ text.old.items ++ flat_map spaced (word.now ∷ [])) }
{
    text.push(b' ')?;
    text.extend_from_slice(word)
}

/// Adds a number, and the space before it.
#[tactic(auto, using(crate::proofs::Puts::kept_trans))]
#[inline(always)]
fn put_number(text: &mut Vec<u8>, number: u64) -> Result<(), AllocError>
    ensures kept { StartsWith text.new.items text.old.items }
    ensures added { OnOk result (text.new.items ≡ text.old.items ++ flat_map spaced (decimal number ∷ [])) }
{
    text.push(b' ')?;
    put_digits(text, number)
}

// Most numbers of a reply have one digit or two, which need no buffer.
#[inline(always)]
fn put_digits(text: &mut Vec<u8>, number: u64) -> Result<(), AllocError>
    ensures kept { StartsWith text.new.items text.old.items }
    ensures added { OnOk result (text.new.items ≡ text.old.items ++ decimal number) }
{
    if number < 10 {
        text.push(b'0' + number as u8)?;
        return Ok(());
    }
    put_more_digits(text, number)
}

#[inline(never)]
fn put_more_digits(text: &mut Vec<u8>, number: u64) -> Result<(), AllocError>
    requires { 10 ≤ number }
    ensures kept { StartsWith text.new.items text.old.items }
    ensures added { OnOk result (text.new.items ≡ text.old.items ++ decimal number) }
{
    if number < 100 {
        text.push(b'0' + (number / 10) as u8)?;
        text.push(b'0' + (number % 10) as u8)?;
        return Ok(());
    }
    put_many_digits(text, number)
}

#[inline(never)]
fn put_many_digits(text: &mut Vec<u8>, number: u64) -> Result<(), AllocError>
    ensures kept { StartsWith text.new.items text.old.items }
    ensures added { OnOk result (text.new.items ≡ text.old.items ++ decimal number) }
{
    let mut digits = Buffer::new();
    text.extend_from_slice(digits.format(number).as_bytes())
}

#[tactic(auto, using(crate::proofs::Puts::kept_trans))]
fn put_cost(text: &mut Vec<u8>, cost: i64) -> Result<(), AllocError>
    ensures kept { StartsWith text.new.items text.old.items }
    ensures added { OnOk result (text.new.items ≡ text.old.items ++ flat_map spaced (signed_decimal cost ∷ [])) }
{
    let mut digits = Buffer::new();
    put(text, digits.format(cost).as_bytes())
}

/// Appends a label, which has a space at each end, and a number.
#[tactic(auto, using(crate::proofs::Puts::kept_trans))]
#[inline(always)]
fn put_labelled(text: &mut Vec<u8>, label: &[u8], number: u64) -> Result<(), AllocError>
    ensures kept { StartsWith text.new.items text.old.items }
    ensures added { OnOk result (text.new.items ≡ text.old.items ++ label.now ++ decimal number) }
{
    text.extend_from_slice(label)?;
    put_digits(text, number)
}
