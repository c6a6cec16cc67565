//! Answers held until those to all earlier lines are known.
ghost use Rattle.std.specs.Prelude.{◌≡◌, ◌+◌, ◌<◌, ◌≤◌, ◌++◌, ◌∷◌, ℕ, IfErr, IfOk, IfSome, MatchBool, MatchOption};
ghost use Rattle.std.specs.Prelude.{OnErr, OnOk, [], false, length, take, true};
ghost use Rattle.std.specs.VecDeque.{deque_capacity, deque_len};
ghost use Rattle.std.specs.Io.KnownBytes.{Appends};
ghost use Rattle.firm_table.specs.Service.{IsWritingFault};
ghost use Rattle.firm_rules.specs.declared.commands.Command.{Command};
ghost use Rattle.firm_held.specs.declared.held.HeldAnswer.{HeldAnswer};
ghost use Rattle.firm_held.specs.Held.{FirstIs, FirstIsAt, FirstIsFor, FirstIsKnown, FirstWaits, IsWaiting};
ghost use Rattle.firm_held.specs.Held.{HasRoom, NoneWaits, answered, bytes_in, bytes_of_answer, filled};
ghost use Rattle.firm_held.specs.Held.{held_answer, held_is, known_text, most_answers_held, most_bytes_held};
ghost use Rattle.firm_held.specs.Held.{waits_for};

use crate::change_bytes::{bytes_of_line, bytes_of_reply};
use firm_rules::{Command, Name, Reply};
use firm_table::{LineAnswer, ServeFault, write_held};
use firm_text::Sink;
use std::alloc::{AllocError, Global};
use std::collections::VecDeque;
use std::marker::Model;

/// At most this many answers are held.
const MOST_ANSWERS_HELD: usize = 1_024;

/// While the changes of held rounds have this many bytes of text, no further answer may be held. A reply's other words
/// have a few hundred bytes at most.
const MOST_BYTES_HELD: u64 = 4_000_000;

/// A held answer to a line.
#[derive(Drop)]
pub enum HeldAnswer {
    /// It is known.
    Known(LineAnswer),
    /// It is the reply to this command of the tenant of this name, at this place.
    Waiting(usize, Name, Command),
}

/// The held answers, in the order of their lines, and the text still to be written before them.
#[derive(Drop)]
pub struct Held {
    answers: VecDeque<HeldAnswer>,
    output: Vec<u8>,
    // Number of bytes of text of the changes in the known answers.
    bytes: u64,
}

impl Model for Held {
    ghost use Rattle.std.specs.Prelude.{◌≡◌, ◌≤◌};
    ghost use Rattle.std.specs.VecDeque.{deque_capacity, deque_len};
    ghost use Rattle.firm_held.specs.Held.{HeldIs, bytes_in, held_is, most_answers_held};

    ghost Value = { HeldIs };

    ghost view = { λ h. held_is h.answers.items h.output.items };

    ghost invariant = { λ h. (deque_len h.answers ≤ most_answers_held)
        × (most_answers_held ≤ deque_capacity h.answers) × (h.bytes ≡ bytes_in h.answers.items) };
}

impl Held {
    /// Room for 1,024 answers, with none held yet. Fails only if memory is refused.
    pub fn open(alloc: Global) -> Result<Held, AllocError>
        ensures { IfOk result (λ held. held ≡ held_is [] []) }
    {
        let answers = VecDeque::with_capacity(alloc, MOST_ANSWERS_HELD)?;
        Ok(Held {
            answers,
            output: Vec::new(alloc),
            bytes: 0,
        })
    }

    /// Whether no answer is held.
    pub fn is_empty(&self) -> bool
        ensures { MatchBool result (self.now.answers ≡ []) (0 < length self.now.answers) }
    {
        self.answers.is_empty()
    }

    /// Whether one more answer can be held: fewer than 1,024 are, and the changes in them have fewer than 4 MB.
    pub fn has_room(&self) -> bool
        ensures { result ≡ true → HasRoom self.now.answers }
    {
        self.answers.len() < MOST_ANSWERS_HELD && !self.is_heavy()
    }

    /// Whether the changes of held rounds have as many bytes as they may have, 4 MB, or more.
    pub fn is_heavy(&self) -> bool
        ensures { MatchBool result (most_bytes_held ≤ bytes_in self.now.answers)
            (bytes_in self.now.answers < most_bytes_held) }
    {
        MOST_BYTES_HELD <= self.bytes
    }

    /// Number of answers held.
    pub fn len(&self) -> usize
        ensures { result ≡ length self.now.answers }
    {
        self.answers.len()
    }

    /// Holds one more answer. Takes no memory.
    pub fn push(&mut self, answer: HeldAnswer)
        requires { length self.old.answers < most_answers_held }
        ensures { self.new ≡ held_is (self.old.answers ++ answer ∷ []) self.old.output }
    {
        self.bytes += answer.bytes();
        self.answers.push_back_reserved(answer);
    }

    /// Whether the first answer is known.
    pub fn first_is_known(&self) -> bool
        ensures { MatchBool result (FirstIsKnown self.now.answers) (FirstWaits self.now.answers) }
    {
        match self.answers.front() {
            Some(HeldAnswer::Known(_)) => true,
            _ => false,
        }
    }

    /// The place for which the first answer waits, if it does.
    pub fn first_place(&self) -> Option<usize>
        ensures { IfSome result (λ place. FirstIsFor place self.now.answers) }
    {
        match self.answers.front() {
            Some(HeldAnswer::Waiting(place, _, _)) => Some(*place),
            _ => None,
        }
    }

    /// The command to which this answer is the reply, if it waits for the place.
    pub fn waiting_at(&self, at: usize, place: usize) -> Option<Command>
        requires { at < length self.now.answers }
        ensures { NoneWaits place (take at self.now.answers)
            → MatchOption result (NoneWaits place (take (at + 1) self.now.answers))
            (λ command. FirstIsAt place command at self.now.answers) }
    {
        self.answers[at].command_of(place)
    }

    /// The index of the first answer that waits for the place.
    pub fn first_of(&self, place: usize) -> usize
        requires { (command : Command) × FirstIs place command self.now.answers }
        ensures { (command : Command) → FirstIs place command self.now.answers
            → FirstIsAt place command result self.now.answers }
    {
        for at in 0..self.answers.len() {
            if self.waiting_at(at, place).is_some() {
                return at;
            }
        }
        unreachable!()
    }

    /// Makes this reply the answer that is the first to wait for the place.
    pub fn fill(&mut self, at: usize, place: usize, reply: Reply)
        requires { (command : Command) × FirstIsAt place command at self.old.answers }
        ensures { self.new ≡ held_is (filled place reply self.old.answers) self.old.output }
    {
        self.bytes += bytes_of_reply(&reply);
        self.answers[at].answer(reply);
    }

    /// Adds the first answer, which is known, to the text to be written. Fails only if memory is refused; the answer is
    /// then lost, and part of its text may have been added.
    pub fn put_first(&mut self) -> Result<(), AllocError>
        requires { FirstIsKnown self.old.answers }
        ensures first { (first : HeldAnswer) × (self.old.answers ≡ first ∷ self.new.answers) }
        ensures put { OnOk result ((first : HeldAnswer) → self.old.answers ≡ first ∷ self.new.answers
            → self.new.output ≡ self.old.output ++ known_text first) }
    {
        let Some(HeldAnswer::Known(answer)) = self.answers.front() else {
            unreachable!()
        };
        let put = answer.put(&mut self.output);
        self.bytes -= bytes_of_line(answer);
        let _answered = self.answers.pop_front();
        put
    }

    /// Writes the text to be written. After a fault, which is `Write`, the sink has a prefix of it.
    pub fn write<W: Sink>(&mut self, writer: &mut W) -> Result<(), ServeFault>
        requires { W.write_failed writer.old ≡ false }
        ensures ok { OnOk result (Appends (W.written writer.old) (W.written writer.new) self.old.output) }
        ensures empty { OnOk result (self.new.output ≡ []) }
        ensures answers { self.new.answers ≡ self.old.answers }
        ensures err { OnErr result ((count : ℕ) × (count ≤ length self.old.output)
            × Appends (W.written writer.old) (W.written writer.new) (take count self.old.output)) }
        ensures cause { IfErr result (λ fault. IsWritingFault fault (W.write_failed writer.new)) }
        ensures well { OnOk result (W.write_failed writer.new ≡ false) }
    {
        write_held(writer, &mut self.output)
    }
}

impl HeldAnswer {
    /// The answer to a command that was given this reply, or that waits for one.
    pub fn to(place: usize, name: Name, command: Command, reply: Option<Reply>) -> HeldAnswer
        ensures { result ≡ held_answer place name command reply }
    {
        match reply {
            Some(reply) => HeldAnswer::Known(LineAnswer::Replied(name, reply)),
            None => HeldAnswer::Waiting(place, name, command),
        }
    }

    // The command to which it is the reply, if it waits for the place.
    fn command_of(&self, place: usize) -> Option<Command>
        ensures { MatchOption result (waits_for place self.now ≡ false)
            (λ command. IsWaiting place command self.now) }
    {
        match self {
            HeldAnswer::Waiting(other, _, command) if *other == place => Some(*command),
            _ => None,
        }
    }

    // Number of bytes of text of the changes in it.
    fn bytes(&self) -> u64
        ensures { result ≡ bytes_of_answer self.now }
    {
        match self {
            HeldAnswer::Known(answer) => bytes_of_line(answer),
            HeldAnswer::Waiting(..) => 0,
        }
    }

    // Answers the command with this reply.
    fn answer(&mut self, reply: Reply)
        requires { (place : ℕ) × (command : Command) × IsWaiting place command self.old }
        ensures { self.new ≡ answered reply self.old }
    {
        let HeldAnswer::Waiting(_, name, _) = self else {
            unreachable!()
        };
        *self = HeldAnswer::Known(LineAnswer::Replied(*name, reply));
    }
}
