//! Rounds come back, and the commands that waited for them are given to their tenants. Nothing here waits.
ghost use Rattle.std.specs.Prelude.{◌≡◌, ◌+◌, ◌<◌, length, take, true};
ghost use Rattle.firm_rules.specs.declared.commands.Command.{Command};
ghost use Rattle.firm_text.specs.Rosters.{most_places};
ghost use Rattle.firm_held.specs.Held.{FirstIsAt, NoneWaits};
ghost use Rattle.firm_hall.specs.inner.Serving.{Follows, IsHomeAt, IsOpen, Keeps};

use crate::halls::Hall;
use crate::serving::Serving;
use crate::setting::Setting;
use firm_rules::Command;
use firm_text::PLACES;
use std::sync::Wait;

impl Serving {
    /// Looks at each round that is away. A tenant whose round is answered is given the commands that waited for it; one
    /// whose round found no room in the queue asks for it, if there is room now. While the changes of held rounds have
    /// as many bytes as they may have, only the tenant of the first answer goes on: so two rounds at most stand beyond.
    pub(crate) fn look<R: Wait>(&mut self, setting: &Setting<'_, R>)
        requires open { IsOpen setting.now.hall.now.id self.old }
        ensures follows { Follows self.old self.new }
        ensures keeps { Keeps self.old self.new }
    {
        if self.held.is_empty() {
            return;
        }
        self.visit_first(setting);
        if !self.unsettled.are_several() {
            return;
        }
        for place in 0..PLACES {
            if self.held.is_heavy() {
                return;
            }
            self.visit(setting, place);
        }
    }

    // The same for the place for which the first answer waits: all answers wait for that one, so its round has the
    // queue's room before others.
    fn visit_first<R: Wait>(&mut self, setting: &Setting<'_, R>)
        requires open { IsOpen setting.now.hall.now.id self.old }
        ensures follows { Follows self.old self.new }
        ensures keeps { Keeps self.old self.new }
    {
        let Some(place) = self.held.first_place() else {
            return;
        };
        self.visit(setting, place);
    }

    // Gives the tenant of one place, once it is home, the commands that wait for it, up to a round that is then away or
    // finds no room in the queue.
    fn visit<R: Wait>(&mut self, setting: &Setting<'_, R>, place: usize)
        requires open { IsOpen setting.now.hall.now.id self.old }
        requires place { place < most_places }
        ensures follows { Follows self.old self.new }
        ensures keeps { Keeps self.old self.new }
    {
        if !self.can_go_on(setting.hall, place) {
            return;
        }
        for at in 0..self.held.len() {
            let Some(command) = self.held.waiting_at(at, place) else {
                continue;
            };
            if !self.give(setting, place, at, command) {
                return;
            }
        }
        self.desk_states[place].set_waiting(false);
        self.unsettled.set(place, false);
    }

    // Whether the tenant of the place is home and can be given a command that waits for it, after a look at its round
    // if that is away. If the round is answered, the answer that waited for it is then known; if not, nothing changes.
    fn can_go_on(&mut self, hall: &Hall, place: usize) -> bool
        requires { place < most_places }
        ensures home { result ≡ true → IsHomeAt place self.new.desk_states }
        ensures follows { Follows self.old self.new }
        ensures keeps { Keeps self.old self.new }
    {
        if !self.desk_states[place].is_away() {
            return self.desk_states[place].has_waiting() && hall.queue.has_room();
        }
        let Some(reply) = self.desk_states[place].look() else {
            return false;
        };
        let at = self.held.first_of(place);
        self.held.fill(at, place, reply);
        self.patience = self.patience.after_round();
        true
    }

    // Gives the tenant of the place, which is home, the first command that waits for it, unless that is a round for
    // which the queue has no room. Returns whether it was answered.
    fn give<R: Wait>(
        &mut self,
        setting: &Setting<'_, R>,
        place: usize,
        at: usize,
        command: Command,
    ) -> bool
        requires open { IsOpen setting.now.hall.now.id self.old }
        requires place { place < most_places }
        requires home { IsHomeAt place self.old.desk_states }
        requires first { FirstIsAt place command at self.old.answers }
        ensures home { result ≡ true → IsHomeAt place self.new.desk_states }
        ensures none { result ≡ true → NoneWaits place (take (at + 1) self.new.answers) }
        ensures count { length self.new.answers ≡ length self.old.answers }
        ensures follows { Follows self.old self.new }
        ensures keeps { Keeps self.old self.new }
    {
        let hall = setting.hall;
        if command == Command::Round && !hall.queue.has_room() {
            return false;
        }
        let Some(reply) = self.desk_states[place].take(setting, &command, &mut self.asker) else {
            return false;
        };
        self.held.fill(at, place, reply);
        true
    }
}
