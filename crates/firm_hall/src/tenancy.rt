//! The tenants of the places: tenants are admitted and leave. Nothing here waits.
ghost use Rattle.std.specs.Prelude.{◌≡◌};
ghost use Rattle.firm_text.specs.Registers.{place_in};
ghost use Rattle.firm_text.specs.declared.operator.OperatorLine.TheVariants.{Admit, Retire};
ghost use Rattle.firm_hall.specs.inner.Serving.{IsBackIf, Obeys, place_of_request};

use crate::serving::Serving;
use firm_rules::{Limits, Name};
use firm_table::answers_add_up;
use firm_text::{OperatorLine, OperatorRefusal, OperatorReply};
use std::alloc::Global;

impl Serving {
    // Does what the operator asks for, if it can be done. The reply is still to be held. Out of line, so that a
    // tenant's line does not pay for its locals.
    #[inline(never)]
    pub(crate) fn obey(&mut self, alloc: Global, request: OperatorLine) -> OperatorReply
        requires back { IsBackIf (place_of_request self.old.register request) self.old.desk_states }
        ensures obeys { Obeys self.old self.new request result }
        ensures hall { self.new.queue ≡ self.old.queue }
        ensures answers { self.new.answers ≡ self.old.answers }
    {
        // Laws: of one more line.
        answers_add_up();
        match request {
            OperatorLine::Admit(name, limits) => self.admit(alloc, name, limits),
            OperatorLine::Retire(name) => self.retire(name),
            OperatorLine::Faulty(refusal) => OperatorReply::Refused(refusal),
        }
    }

    // Admits a tenant. If memory is refused, the place stays empty and no admission is used.
    fn admit(&mut self, alloc: Global, name: Name, limits: Limits) -> OperatorReply
        ensures obeys { Obeys self.old self.new (Admit name limits) result }
        ensures hall { self.new.queue ≡ self.old.queue }
        ensures answers { self.new.answers ≡ self.old.answers }
    {
        // Laws: of one more line.
        answers_add_up();
        let place = match self.register.admit(name) {
            Ok(place) => place,
            Err(refusal) => return OperatorReply::Refused(refusal),
        };
        if self.desk_states[place].admit(alloc, limits) {
            return OperatorReply::Admitted(name);
        }
        self.register.undo(place);
        OperatorReply::Refused(OperatorRefusal::Memory)
    }

    // Retires a tenant, none of whose commands waits or is away.
    fn retire(&mut self, name: Name) -> OperatorReply
        requires back { IsBackIf (place_in self.old.register name) self.old.desk_states }
        ensures obeys { Obeys self.old self.new (Retire name) result }
        ensures hall { self.new.queue ≡ self.old.queue }
        ensures answers { self.new.answers ≡ self.old.answers }
    {
        // Laws: of one more line.
        answers_add_up();
        let place = match self.register.retire(name) {
            Ok(place) => place,
            Err(refusal) => return OperatorReply::Refused(refusal),
        };
        self.desk_states[place].retire();
        OperatorReply::Retired(name)
    }
}
