//! Laws of states and their texts, each the contract of a function that does nothing.
ghost use Rattle.std.specs.Prelude.{◌≡◌};
ghost use Rattle.firm_saved.specs.Saved.{IsSoundSaved, SavedIs};
ghost use Rattle.firm_saved.specs.StateLaws.{AdmissionsKeepOrder, RetirementsKeepOrder, RostersGiveInOrder};
ghost use Rattle.firm_saved.specs.StateText.{state_text};

use firm_rules::loads_are_sums_of_slots;

/// A text tells its state: two sound states with one text are one.
pub fn a_text_has_one_state()
    ensures { (first second : SavedIs) → IsSoundSaved first → IsSoundSaved second
        → state_text first ≡ state_text second → first ≡ second }
{
    loads_are_sums_of_slots();
}

/// Places are first given in their order: a roster's tenants get the first ones, and an admission gets a place that was
/// given before, or else the first that never was.
pub fn places_are_given_in_order()
    ensures rosters { RostersGiveInOrder }
    ensures admissions { AdmissionsKeepOrder }
    ensures retirements { RetirementsKeepOrder }
{}
