//! The laws that each tenant of the service may rely on, regardless of the others.

ghost use Rattle.firm_table.specs.Isolation.{AdmissionsAreIsolated, AnswersLineByLine, RepliesAreAlone};
ghost use Rattle.firm_table.specs.Isolation.{StaysAreIsolated, StaysOpenWithLimits};
ghost use Rattle.firm_table.specs.Isolation.{StaysAreServedAlone, StaysBeginAnew, StaysHoldTheirLines};
ghost use Rattle.firm_table.specs.Isolation.{TenantsAreIsolated, NeedsNoMarks, MayGoUnmarked};
ghost use Rattle.firm_table.specs.SavedIsolation.{AnswersGoOn, RostersAreSaved, SavedRepliesAreAlone};
ghost use Rattle.firm_table.specs.SavedIsolation.{SavedStaysAreIsolated, SavedStaysAreServedAlone};
ghost use Rattle.firm_table.specs.SavedIsolation.{PlacesBeginAnew, PlacesHoldTheirLines, PlacesNeedNoMarks};
ghost use Rattle.firm_table.specs.SavedIsolation.{SavedAdmissionsAreIsolated, SavedTenantsAreIsolated};
ghost use Rattle.firm_table.specs.Cutting.{AnswersGoOnFrom, OutputsGoOnFrom, SavedIsKept, StatesGoOnFrom};
ghost use Rattle.firm_table.specs.Cutting.{TextsAreCut, TextsAreJoined};
ghost use Rattle.firm_table.specs.Histories.{EventsKeepAlone, RowsStay, StaysAreCounted};
ghost use Rattle.firm_table.specs.Histories.{EventsAreIsolated};
ghost use Rattle.firm_table.specs.Adding.{NothingIsTold, OneMoreIsTold, FrontIsWritten, ToldBegins};
ghost use Rattle.firm_table.specs.Adding.{AllIsWritten, OneMoreBegins, TenantsAreAnswered, StrangersAreAnswered};
ghost use Rattle.firm_table.specs.Adding.{AdmissionsAreAnswered, AdmissionsFindNoMemory, AdmissionsAreRefused};
ghost use Rattle.firm_table.specs.Adding.{RetirementsAreAnswered, RetirementsAreRefused};

use firm_tenant::{replies_tell_their_marks, unmarked_steps_are_granted};
use firm_text::refuses_for_the_form;

/// The laws of isolation, first for lines. Answers come line by line. In each stay a tenant's replies are those of a
/// service that holds this tenant alone and is given its commands alone, regardless of other input. A tenant is given
/// the commands of its own lines: one of the roster from the first line, one admitted later from its admission, each
/// until a line of the operator for it is obeyed; a refused line changes nothing. So two services that agree on a
/// tenant's limits and on these lines give it the same replies. If no line is refused memory, the output is a function
/// of the roster and of the bytes read.
///
/// Then for every list of the table's events, and for each stay at a place, earlier ones too: the replies are the first
/// replies of a tenant alone with the same limits to the same commands, and all of them once the stay has ended or
/// while the tenant is home. Every stay is covered; without admissions or retirements, stays are the roster's rows. Two
/// stays with the same limits that agree up to a command have the same reply to it, if both have one, regardless of
/// events of others in between and of earlier tenants of the place.
pub fn isolation()
    ensures line_by_line { AnswersLineByLine }
    ensures limits { StaysOpenWithLimits }
    ensures alone { RepliesAreAlone }
    ensures isolated { StaysAreIsolated }
    ensures served_alone { StaysAreServedAlone }
    ensures lines { StaysHoldTheirLines }
    ensures anew { StaysBeginAnew }
    ensures tenants { TenantsAreIsolated }
    ensures admissions { AdmissionsAreIsolated }
    ensures no_marks { NeedsNoMarks }
    ensures unmarked { MayGoUnmarked }
    ensures events { EventsKeepAlone }
    ensures rows { RowsStay }
    ensures counted { StaysAreCounted }
    ensures agreeing { EventsAreIsolated }
{
    unmarked_steps_are_granted();
    replies_tell_their_marks();
    refuses_for_the_form();
}

/// The laws of isolation for lines, for a service that opens with a saved state: the same with the book that a stay
/// began with in place of its limits. A roster is one of these states, in which each tenant has its opening book; so a
/// roster's service and one that goes on from a state can be compared too.
pub fn saved_isolation()
    ensures rosters { RostersAreSaved }
    ensures line_by_line { AnswersGoOn }
    ensures alone { SavedRepliesAreAlone }
    ensures isolated { SavedStaysAreIsolated }
    ensures served_alone { SavedStaysAreServedAlone }
    ensures lines { PlacesHoldTheirLines }
    ensures anew { PlacesBeginAnew }
    ensures tenants { SavedTenantsAreIsolated }
    ensures admissions { SavedAdmissionsAreIsolated }
    ensures no_marks { PlacesNeedNoMarks }
{}

/// The laws by which a service can be cut off between any two lines: one that goes on from its saved state gives the
/// answers that it would have given, with the same numbers and marks, and comes to the same state.
pub fn cut_anywhere()
    ensures kept { SavedIsKept }
    ensures answers { AnswersGoOnFrom }
    ensures states { StatesGoOnFrom }
    ensures texts { TextsAreCut }
    ensures joined { TextsAreJoined }
    ensures outputs { OutputsGoOnFrom }
{}

/// The laws by which a clerk's answers add up to the output: if its answers are right so far, they stay right after one
/// more line is answered as the tenants' books say, and after part of what it holds is written.
pub fn answers_add_up()
    ensures opening { NothingIsTold }
    ensures one_more { OneMoreIsTold }
    ensures written { FrontIsWritten }
    ensures begins { ToldBegins }
    ensures answers { AllIsWritten }
    ensures short { OneMoreBegins }
    ensures known { TenantsAreAnswered }
    ensures unknown { StrangersAreAnswered }
    ensures admitted { AdmissionsAreAnswered }
    ensures no_memory { AdmissionsFindNoMemory }
    ensures not_admitted { AdmissionsAreRefused }
    ensures retired { RetirementsAreAnswered }
    ensures not_retired { RetirementsAreRefused }
{
    unmarked_steps_are_granted();
    refuses_for_the_form();
}
