//! Lines are answered in order at the desks, while rounds are away.
ghost use Rattle.std.specs.Prelude.{◌≡◌, ◌≢◌, ◌+◌, ◌<◌, ◌≤◌, IfErr, IfSome, List, MatchBool, OnOk, Some};
ghost use Rattle.std.specs.Prelude.{false, length, true, vec_capacity};
ghost use Rattle.firm_text.specs.Registers.{IsRegister, place_in};
ghost use Rattle.firm_text.specs.Rosters.{most_places};
ghost use Rattle.firm_rules.specs.declared.commands.Command.TheVariants.{Round};
ghost use Rattle.firm_text.specs.declared.inputs.Line.TheVariants.{For};
ghost use Rattle.firm_table.specs.Service.{IsWritingFault};
ghost use Rattle.firm_held.specs.Held.{FirstWaits, most_answers_held};
ghost use Rattle.firm_hall.specs.inner.Ending.{AreOf};
ghost use Rattle.firm_hall.specs.inner.Serving.{Begins, Follows, HasTurn, IsBackAt, IsFinished, IsOpen, IsReserved};
ghost use Rattle.firm_hall.specs.inner.Serving.{IsWrittenOut, Keeps, Passes, Takes, Stands, asked_at};
ghost use Rattle.firm_hall.specs.inner.Serving.{place_of_line, serving_is};
ghost use Rattle.firm_hall.specs.declared.desk_states.DeskState.{DeskState};
ghost use Rattle.firm_rounds.specs.Passes.{QueueId};
ghost use Rattle.firm_rounds.specs.Rounds.{weigh};
ghost use Rattle.firm_text.specs.declared.registers.Entry.{Entry};

use crate::asker::Asker;
use crate::desk_states::DeskState;
use crate::desks::Desk;
use crate::empty::EmptyDesk;
use crate::ending::Ended;
use crate::halls::Hall;
use crate::patience::{Looks, Patience};
use crate::setting::Setting;
use crate::unsettled::Unsettled;
use crate::waiting::Turn;
use firm_held::{Held, HeldAnswer};
use firm_rules::{Command, Name};
use firm_table::{LineAnswer, ServeFault, answers_add_up};
use firm_tenant::replies_tell_their_marks;
use firm_text::{Line, OperatorLine, Register, Sink};
use std::alloc::{AllocError, Global};
use std::marker::Model;
use std::snapshot::Snapshot;
use std::sync::Wait;

/// A serving hall: which tenant has which place, what stands at each, and the held answers.
pub(crate) struct Serving {
    // The hall of the desks; only clauses read it.
    pub(crate) hall: Snapshot<Hall>,
    // Asks for the rounds. It is not `Drop`, so neither is a serving hall.
    pub(crate) asker: Asker,
    pub(crate) register: Register,
    pub(crate) desk_states: Vec<DeskState>,
    pub(crate) held: Held,
    pub(crate) unsettled: Unsettled,
    // Number of looks for those that wait.
    pub(crate) patience: Patience,
    ghost asks_there: { asker.queue ≡ hall.value.id },
}

impl Model for Serving {
    ghost use Rattle.firm_hall.specs.inner.Serving.{ServingIs, Stands, serving_is};

    ghost Value = { ServingIs };

    ghost view = { λ s. serving_is s.hall.value.id s.register s.desk_states.items s.held };

    ghost invariant = { λ s. Stands (serving_is s.hall.value.id s.register s.desk_states.items s.held) };
}

impl Serving {
    /// Rings, if the asker has to.
    pub(crate) fn ring(&mut self, hall: &Hall)
        requires { IsOpen hall.now.id self.old }
        ensures { self.new ≡ self.old }
    {
        self.asker.ring(hall);
    }

    /// Drops it, as where the service ends with a fault. It has rung before.
    pub(crate) fn discard(self, hall: &Hall)
        requires { IsOpen hall.now.id self }
    {
        let Self {
            hall: _,
            mut asker,
            register: _,
            desk_states,
            held,
            unsettled: _,
            patience: _,
        } = self;
        asker.ring(hall);
        asker.end();
        drop(desk_states);
        drop(held);
    }

    /// Waits for the turn, unless it has come.
    pub(crate) fn take_turn<R: Wait, W: Sink>(
        &mut self,
        setting: &Setting<'_, R>,
        writer: &mut W,
        turn: &mut Turn,
    ) -> Result<(), ServeFault>
        requires writer { W.write_failed writer.old ≡ false }
        requires open { IsOpen setting.now.hall.now.id self.old }
        ensures told { OnOk result (Passes self.old self.new (W.written writer.old) (W.written writer.new)) }
        ensures come { OnOk result (HasTurn turn.old.place self.new) }
        ensures begins { Begins self.old (W.written writer.old) (W.written writer.new) }
        ensures cause { IfErr result (λ fault. IsWritingFault fault (W.write_failed writer.new)) }
        ensures well { OnOk result (W.write_failed writer.new ≡ false) }
        ensures follows { Follows self.old self.new }
    {
        if turn.is_there(self) {
            return Ok(());
        }
        self.wait(setting, writer, turn)
    }

    /// Takes a line, whose turn it is, and holds its answer.
    pub(crate) fn take_line<R: Wait>(&mut self, setting: &Setting<'_, R>, line: Line)
        requires open { IsOpen setting.now.hall.now.id self.old }
        requires turn { HasTurn (place_of_line self.old.register line) self.old }
        ensures takes { Takes self.old self.new line }
        ensures hall { self.new.queue ≡ self.old.queue }
    {
        // Laws: of one more line.
        answers_add_up();
        match line {
            Line::Nothing => {}
            Line::Long => self.held.push(HeldAnswer::Known(LineAnswer::LineTooLong)),
            Line::Nameless => self.held.push(HeldAnswer::Known(LineAnswer::UnknownTenant)),
            Line::For(name, command) => self.command(setting, name, command),
            Line::Operator(request) => {
                let reply = self.obey(setting.alloc, request);
                self.held
                    .push(HeldAnswer::Known(LineAnswer::ToOperator(reply)));
            }
        }
    }

    // Gives a command to the tenant of this name, if any.
    fn command<R: Wait>(&mut self, setting: &Setting<'_, R>, name: Name, command: Command)
        requires open { IsOpen setting.now.hall.now.id self.old }
        requires room { length self.old.answers < most_answers_held }
        ensures takes { Takes self.old self.new (For name command) }
        ensures hall { self.new.queue ≡ self.old.queue }
    {
        // Laws: of one more line.
        answers_add_up();
        let Some(place) = self.register.place_of(name) else {
            self.held.push(HeldAnswer::Known(LineAnswer::UnknownTenant));
            return;
        };
        if !self.can_take(setting.hall, place, &command) {
            self.hold(place, name, command);
        } else if is_round(&command) {
            self.take(setting, place, name, command);
        } else {
            self.tell(setting.alloc, place, name, command);
        }
    }

    // Whether the tenant of the place is home with no command waiting, and the queue has room for its round.
    fn can_take(&self, hall: &Hall, place: usize, command: &Command) -> bool
        requires { place < most_places }
        ensures { result ≡ true → IsBackAt place self.now.desk_states }
    {
        self.desk_states[place].is_back() && (!is_round(command) || hall.queue.has_room())
    }

    // Gives a command to the tenant of the place, which is at home. Out of line, so that lines other than rounds do not
    // pay for its locals.
    #[inline(never)]
    fn take<R: Wait>(
        &mut self,
        setting: &Setting<'_, R>,
        place: usize,
        name: Name,
        command: Command,
    )
        requires open { IsOpen setting.now.hall.now.id self.old }
        requires place { place < most_places }
        requires sound { IsRegister self.old.register }
        requires found { place_in self.old.register name ≡ Some place }
        requires back { IsBackAt place self.old.desk_states }
        requires room { length self.old.answers < most_answers_held }
        ensures takes { Takes self.old self.new (For name command) }
        ensures hall { self.new.queue ≡ self.old.queue }
    {
        // Laws: of one more line, and of the marks that replies tell.
        answers_add_up();
        replies_tell_their_marks();
        let reply = self.desk_states[place].take(setting, &command, &mut self.asker);
        self.unsettled.set(place, reply.is_none());
        self.held.push(HeldAnswer::to(place, name, command, reply));
    }

    // The same for a command that is not a round, whose reply is known at once.
    fn tell(&mut self, alloc: Global, place: usize, name: Name, command: Command)
        requires place { place < most_places }
        requires sound { IsRegister self.old.register }
        requires found { place_in self.old.register name ≡ Some place }
        requires back { IsBackAt place self.old.desk_states }
        requires room { length self.old.answers < most_answers_held }
        requires other { command ≢ Round }
        ensures takes { Takes self.old self.new (For name command) }
        ensures hall { self.new.queue ≡ self.old.queue }
    {
        // Laws: of one more line, and of the marks that replies tell.
        answers_add_up();
        replies_tell_their_marks();
        let reply = self.desk_states[place].tell(alloc, command);
        self.held
            .push(HeldAnswer::Known(LineAnswer::Replied(name, reply)));
    }

    // Holds a command for the tenant of the place, whose round is away or finds no room in the queue. Out of line, for
    // the same reason.
    #[inline(never)]
    fn hold(&mut self, place: usize, name: Name, command: Command)
        requires place { place < most_places }
        requires sound { IsRegister self.old.register }
        requires found { place_in self.old.register name ≡ Some place }
        requires room { length self.old.answers < most_answers_held }
        ensures takes { Takes self.old self.new (For name command) }
        ensures hall { self.new.queue ≡ self.old.queue }
    {
        // Laws: of one more line, and of the marks that replies tell.
        answers_add_up();
        replies_tell_their_marks();
        self.desk_states[place].set_waiting(true);
        self.unsettled.set(place, true);
        self.held.push(HeldAnswer::Waiting(place, name, command));
    }

    /// Looks at the rounds that are away, behind these in vain, and writes the known answers, up to the first that
    /// waits.
    pub(crate) fn write_out<R: Wait, W: Sink>(
        &mut self,
        setting: &Setting<'_, R>,
        writer: &mut W,
        looks: Looks,
    ) -> Result<(), ServeFault>
        requires writer { W.write_failed writer.old ≡ false }
        requires open { IsOpen setting.now.hall.now.id self.old }
        ensures told { OnOk result (Passes self.old self.new (W.written writer.old) (W.written writer.new)) }
        ensures written_out { OnOk result (IsWrittenOut self.new) }
        ensures begins { Begins self.old (W.written writer.old) (W.written writer.new) }
        ensures cause { IfErr result (λ fault. IsWritingFault fault (W.write_failed writer.new)) }
        ensures well { OnOk result (W.write_failed writer.new ≡ false) }
        ensures follows { Follows self.old self.new }
    {
        self.look(setting);
        let Ok(()) = put_known(&mut self.held) else {
            return Err(ServeFault::Memory);
        };
        self.patience = self.patience.after_look(looks);
        self.held.write(writer)
    }

    /// Ends the service, all of whose desks are home since no answer is held. The desks go into these vectors, reserved
    /// for them.
    pub(crate) fn end(self, hall: &Hall, room: Vec<Desk>, empty_room: Vec<EmptyDesk>) -> Ended
        requires open { IsOpen hall.now.id self }
        requires finished { IsFinished self }
        requires room { IsReserved room.items (vec_capacity room) }
        requires empty_room { IsReserved empty_room.items (vec_capacity empty_room) }
        ensures of { AreOf self.queue result.desks.items result.empty.items }
        ensures all { length result.desks.items + length result.empty.items ≡ most_places }
        ensures rounds { result.rounds ≡ weigh asked_at self.desk_states }
    {
        let Self {
            hall: _,
            mut asker,
            register: _,
            desk_states,
            held: _,
            unsettled: _,
            patience: _,
        } = self;
        asker.ring(hall);
        asker.end();
        let mut desks = room;
        let mut empty = empty_room;
        let mut rounds = 0;
        for desk_state in desk_states {
            rounds += desk_state.put_away(&mut desks, &mut empty);
        }
        Ended {
            desks,
            empty,
            rounds,
        }
    }
}

// Appends all known answers up to the first that waits to the text to be written. Places and claims stay
// as they are.
fn put_known(held: &mut Held) -> Result<(), AllocError>
    ensures stands { (queue : QueueId) (register : List Entry) (desk_states : List DeskState)
        → Stands (serving_is queue register desk_states held.old)
        → Stands (serving_is queue register desk_states held.new) }
    ensures keeps { OnOk result ((queue : QueueId) (register : List Entry) (desk_states : List DeskState)
        → Keeps (serving_is queue register desk_states held.old) (serving_is queue register desk_states held.new)) }
    ensures fewer { length held.new.answers ≤ length held.old.answers }
    ensures first { OnOk result (FirstWaits held.new.answers) }
{
    while held.first_is_known() {
        held.put_first()?;
    }
    Ok(())
}

/// The place of the tenant that a line waits for.
pub(crate) fn place_of(register: &Register, line: &Line) -> Option<usize>
    ensures place { result ≡ place_of_line register.now line.now }
    ensures within { IfSome result (λ place. place < most_places) }
{
    match line {
        Line::Operator(OperatorLine::Retire(name)) => register.place_of(*name),
        _ => None,
    }
}

// Whether the command is a round. Inlined, since each line pays for it.
#[inline(always)]
fn is_round(command: &Command) -> bool
    ensures { MatchBool result (command.now ≡ Round) (command.now ≢ Round) }
{
    match command {
        Command::Round => true,
        _ => false,
    }
}
