//! The tenants of a service at their places, and the answer to one line for them.

ghost use Rattle.std.specs.Prelude.{◌≡◌, ◌≤◌, ◌++◌, All, IfOk, OnOk, length, option_map, take};
ghost use Rattle.std.specs.Io.{StartsWith};
ghost use Rattle.std.specs.List.{flat_map};
ghost use Rattle.firm_text.specs.Rosters.{most_places};
ghost use Rattle.firm_text.specs.declared.inputs.Line.TheVariants.{For, Operator};
ghost use Rattle.firm_text.specs.declared.operator.OperatorLine.TheVariants.{Admit, Retire};
ghost use Rattle.firm_saved.specs.Saved.{IsSoundPlace, IsSoundSaved, saved_with};
ghost use Rattle.firm_saved.specs.StateText.{place_rows, row_text, state_text};
ghost use Rattle.firm_table.specs.declared.answers.LineAnswer.TheVariants.{ToOperator};
ghost use Rattle.firm_table.specs.Ends.{TenantsFit, place_with, tenants_state};
ghost use Rattle.firm_table.specs.Openings.{places_opened};
ghost use Rattle.firm_table.specs.Progress.{IsRight, books_of, tenants_at};
ghost use Rattle.firm_table.specs.inner.Books.{book_named};
ghost use Rattle.firm_table.specs.inner.Granting.{IsAnswerAs};

use crate::answers::LineAnswer;
use crate::openings::Opening;
use firm_rules::{Command, Limits, Name, Reply};
use firm_saved::{Row, given_count, places_are_given_in_order, put_book, put_heading, put_row};
use firm_tenant::Tenant;
use firm_text::{Entry, Heading, Line, OperatorLine, OperatorRefusal, OperatorReply, Register};
use std::alloc::{AllocError, Global};
use std::marker::Model;

/// The tenants at the 64 places of a service, and the register of which tenant has which place.
pub struct Tenants {
    register: Register,
    places: Vec<Option<Tenant>>,
    // Whether the last answer is the reply to a solved round.
    has_solved: bool,
}

impl Drop for Tenants {
    // Written out, so that who owns the tenants has one call where they are dropped.
    fn drop(self) {
        let Self {
            register: _,
            places,
            has_solved: _,
        } = self;
        drop(places);
    }
}

impl Model for Tenants {
    ghost use Rattle.firm_table.specs.Tenants.{TenantsState};

    ghost Value = { TenantsState };

    ghost use Rattle.firm_table.specs.Tenants.{AreSoundTenants, tenants_are};

    ghost view = { λ t. tenants_are t.register t.places.items };

    ghost invariant = { λ t. AreSoundTenants (tenants_are t.register t.places.items) };
}

impl Tenants {
    // The tenants before the first line, at their places. Fails only if memory is refused.
    pub(crate) fn open(alloc: Global, opening: Opening<'_>) -> Result<Tenants, AllocError>
        ensures { IfOk result (λ tenants. tenants ≡ tenants_at (places_opened opening.entry)) }
    {
        Ok(Tenants {
            register: opening.register(),
            places: open_places(alloc, opening)?,
            has_solved: false,
        })
    }

    // Adds the answer to a line. Fails if memory for its text is refused, or, if all must be granted, if memory was
    // refused to the line; part of the text may then have been added.
    pub(crate) fn put_answer(
        &mut self,
        alloc: Global,
        output: &mut Vec<u8>,
        line: Line,
        all_granted: bool,
    ) -> Result<(), AllocError>
        ensures kept { StartsWith output.new.items output.old.items }
        ensures answered { OnOk result
            (IsAnswerAs all_granted self.old self.new line output.old.items output.new.items) }
    {
        let answer = self.answer(alloc, line);
        self.has_solved = answer.is_round();
        if all_granted && answer.tells_memory() {
            return Err(AllocError);
        }
        answer.put(output)
    }

    // Whether the last answer is the reply to a solved round.
    pub(crate) fn has_solved(&self) -> bool {
        self.has_solved
    }

    // The tenant of this name, if any.
    pub(crate) fn tenant_of(&self, name: Name) -> Option<&Tenant>
        ensures { option_map (λ tenant. tenant.now) result ≡ book_named self.now name }
    {
        let place = self.register.place_of(name)?;
        let Some(tenant) = &self.places[place] else {
            unreachable!()
        };
        Some(tenant)
    }

    /// Adds the text of the state of a service with this heading and these tenants. Fails if memory for it is refused;
    /// part of the text may then have been added.
    pub fn put_state(&self, output: &mut Vec<u8>, heading: Heading) -> Result<(), AllocError>
        requires { TenantsFit heading self.now }
        ensures kept { StartsWith output.new.items output.old.items }
        ensures text { OnOk result
            (output.new.items ≡ output.old.items ++ state_text (saved_with heading (tenants_state self.now))) }
        ensures sound { OnOk result (IsSoundSaved (saved_with heading (tenants_state self.now))) }
    {
        let Ok(()) = put_heading(output, heading) else {
            return Err(AllocError);
        };
        let given = given_count(self.register.entries());
        let Ok(count) = self.put_places(output, given) else {
            return Err(AllocError);
        };
        put_row(output, &Row::Rows(count))
    }

    // Adds the rows of the first places, and says how many they are.
    fn put_places(&self, output: &mut Vec<u8>, given: usize) -> Result<u64, AllocError>
        requires { given ≤ most_places }
        ensures kept { StartsWith output.new.items output.old.items }
        ensures added { OnOk result (output.new.items ≡ output.old.items
            ++ flat_map row_text (flat_map place_rows (take given (tenants_state self.now)))) }
        ensures count { IfOk result (λ count. count
            ≡ length (flat_map place_rows (take given (tenants_state self.now)))) }
        ensures sound { OnOk result (All IsSoundPlace (take given (tenants_state self.now))) }
    {
        let entries = self.register.entries();
        let mut count = 0;
        for place in 0..given {
            let Ok(more) = put_place(output, &entries[place], &self.places[place]) else {
                return Err(AllocError);
            };
            count += more;
        }
        Ok(count)
    }

    // Answers a line.
    fn answer(&mut self, alloc: Global, line: Line) -> LineAnswer
        ensures { IsRight self.old self.new line result }
    {
        match line {
            Line::Nothing => LineAnswer::Silent,
            Line::Long => LineAnswer::LineTooLong,
            Line::Nameless => LineAnswer::UnknownTenant,
            Line::For(name, command) => self.step(alloc, name, command),
            Line::Operator(request) => LineAnswer::ToOperator(self.obey(alloc, request)),
        }
    }

    // Answers a command for the tenant of this name.
    fn step(&mut self, alloc: Global, name: Name, command: Command) -> LineAnswer
        ensures { IsRight self.old self.new (For name command) result }
    {
        let Some(place) = self.register.place_of(name) else {
            return LineAnswer::UnknownTenant;
        };
        let Some(tenant) = &mut self.places[place] else {
            unreachable!()
        };
        LineAnswer::Replied(name, tenant.step(alloc, command))
    }

    // Does what the operator asks for, if possible. Not inlined, so that a tenant's line does not pay for its locals.
    #[inline(never)]
    fn obey(&mut self, alloc: Global, request: OperatorLine) -> OperatorReply
        ensures { IsRight self.old self.new (Operator request) (ToOperator result) }
    {
        match request {
            OperatorLine::Admit(name, limits) => self.admit(alloc, name, limits),
            OperatorLine::Retire(name) => self.retire(name),
            OperatorLine::Faulty(refusal) => OperatorReply::Refused(refusal),
        }
    }

    // Admits a tenant. If memory is refused, the place stays empty and no admission is used.
    fn admit(&mut self, alloc: Global, name: Name, limits: Limits) -> OperatorReply
        ensures { IsRight self.old self.new (Operator (Admit name limits)) (ToOperator result) }
    {
        // A law: the places stay given in their order.
        places_are_given_in_order();
        let place = match self.register.admit(name) {
            Ok(place) => place,
            Err(refusal) => return OperatorReply::Refused(refusal),
        };
        let Ok(tenant) = Tenant::admit(alloc, limits) else {
            self.register.undo(place);
            return OperatorReply::Refused(OperatorRefusal::Memory);
        };
        self.places[place] = Some(tenant);
        OperatorReply::Admitted(name)
    }

    // Retires a tenant, and drops its book.
    fn retire(&mut self, name: Name) -> OperatorReply
        ensures { IsRight self.old self.new (Operator (Retire name)) (ToOperator result) }
    {
        // A law: the places stay given in their order.
        places_are_given_in_order();
        match self.register.retire(name) {
            Ok(place) => {
                self.places[place] = None;
                OperatorReply::Retired(name)
            }
            Err(refusal) => OperatorReply::Refused(refusal),
        }
    }
}

// Adds the rows of a place, and says how many they are.
fn put_place(
    output: &mut Vec<u8>,
    entry: &Entry,
    tenant: &Option<Tenant>,
) -> Result<u64, AllocError>
    ensures kept { StartsWith output.new.items output.old.items }
    ensures added { OnOk result (output.new.items ≡ output.old.items
        ++ flat_map row_text (place_rows (place_with entry.now tenant.now))) }
    ensures count { IfOk result (λ count. count ≡ length (place_rows (place_with entry.now tenant.now))) }
    ensures few { IfOk result (λ count. count ≤ 4097) }
    ensures sound { OnOk result (IsSoundPlace (place_with entry.now tenant.now)) }
{
    let Ok(()) = put_row(output, &Row::Place(u64::from(entry.admissions))) else {
        return Err(AllocError);
    };
    match (&entry.tenant, tenant) {
        (Some(name), Some(tenant)) => {
            // That the name has the form.
            name.as_bytes();
            match put_book(output, *name, tenant.rows(), tenant.costs(), tenant.given()) {
                Ok(count) => Ok(1 + count),
                Err(refused) => Err(refused),
            }
        }
        _ => Ok(1),
    }
}

// The tenant at each place before the first line.
fn open_places(alloc: Global, opening: Opening<'_>) -> Result<Vec<Option<Tenant>>, AllocError>
    ensures { IfOk result (λ places. places.items ≡ books_of (places_opened opening.entry)) }
{
    let count = opening.places();
    let mut places = Vec::with_capacity(alloc, count)?;
    for place in 0..count {
        places.push(opening.tenant_at(alloc, place)?)?;
    }
    Ok(places)
}
