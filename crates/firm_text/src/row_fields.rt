//! Cutting a row at its commas.

ghost use Rattle.std.specs.Prelude.{◌≡◌, ◌≤◌, ◌∷◌, [], false, Ok, MatchOption, length};
ghost use Rattle.std.specs.List.{position_or_len, slice_split};
ghost use Rattle.firm_text.specs.OperatorLines.{is_comma};
ghost use Rattle.firm_text.specs.Rosters.{last_fields};
ghost use Rattle.firm_text.specs.inner.Fields.{AreFields, are_fields, behind_sixth, rest_fields, seen};

use crate::records::Fields;

/// The fields of a row, which stand between its commas. None where they are fewer than six or more than eight.
pub fn row_fields(row: &[u8]) -> Option<Fields<'_>>
    ensures { MatchOption result (are_fields (slice_split is_comma row.now) ≡ false) (λ f.
        AreFields (slice_split is_comma row.now) f.tenant.now f.nodes.now f.arcs.now f.life.now f.spread.now
        f.churn.now (seen f.remote) (seen f.patience)) }
{
    let (tenant, rest) = first_field(row);
    let (nodes, rest) = first_field(rest?);
    let (arcs, rest) = first_field(rest?);
    let (life, rest) = first_field(rest?);
    let (spread, rest) = first_field(rest?);
    let (churn, rest) = first_field(rest?);
    let (remote, patience) = last_fields(rest)?;
    Some(Fields {
        tenant,
        nodes,
        arcs,
        life,
        spread,
        churn,
        remote,
        patience,
    })
}

// The fields that the rest of a row is, where there is a rest. None where they are more than two.
fn last_fields(rest: Option<&[u8]>) -> Option<(Option<&[u8]>, Option<&[u8]>)>
    ensures fields { MatchOption result (3 ≤ length (rest_fields rest.entry))
        (λ last. rest_fields rest.entry ≡ behind_sixth (seen last.0) (seen last.1)) }
    ensures told { MatchOption result (3 ≤ length (rest_fields rest.entry))
        (λ last. last_fields (rest_fields rest.entry) ≡ Ok (seen last.0, seen last.1)) }
{
    let Some(rest) = rest else {
        return Some((None, None));
    };
    let (remote, rest) = first_field(rest);
    let Some(rest) = rest else {
        return Some((Some(remote), None));
    };
    match first_field(rest) {
        (patience, None) => Some((Some(remote), Some(patience))),
        (_, Some(_)) => None,
    }
}

// The first field of a row, and what stands behind its comma, where it has one.
fn first_field(row: &[u8]) -> (&[u8], Option<&[u8]>)
    ensures { MatchOption result.1 (slice_split is_comma row.now ≡ result.0.now ∷ [])
        (λ rest. slice_split is_comma row.now ≡ result.0.now ∷ slice_split is_comma rest.now) }
{
    let (field, behind) = row.split_at(length_to_comma(row));
    match behind {
        [] => (field, None),
        [_, rest @ ..] => (field, Some(rest)),
    }
}

fn length_to_comma(row: &[u8]) -> usize
    ensures place { result ≡ position_or_len is_comma row.now }
    ensures within { result ≤ length row.now }
{
    row.iter().take_while(|byte| **byte != b',').count()
}
