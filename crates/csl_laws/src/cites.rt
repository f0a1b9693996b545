//! Equality, hash and order of what a cite is made of, and of its rendering.
//! Definitions: crates/csl_entry/specs/NameForm.antt, crates/csl_entry/specs/NameProperties.antt,
//! crates/csl_entry/specs/NumberResult.antt, crates/csl_context/specs/State.antt.

ghost use Rattle.std.specs.Prelude.{◌≡◌, ◌↔◌, IsTrue, ◌<◌};
ghost use Rattle.csl_entry.specs.NameForm.{form_place, form_cmp};
ghost use Rattle.csl_entry.specs.NameProperties.{name_properties};
ghost use Rattle.csl_entry.specs.contracts.forms.name_properties.NameDisambiguationPropertiesHash.TheImpl.{hash_input-value as hash_properties};
ghost use Rattle.csl_entry.specs.NumberResult.{result_view, number_or_page_view};
ghost use Rattle.csl_tree.specs.Tokens.{tokens};
ghost use Rattle.csl_context.specs.State.{left_state_view};

use csl_context::{LeftState, Rendered};
use csl_entry::{
    Alphanumerical, DisambiguatedNameForm, NameDisambiguationProperties,
    NumberOrPageVariableResult, NumberVariableResult,
};
use std::cmp::Ordering;

/// Whether the rules for labels are equal: exactly if they take the same number of letters.
pub fn same_rule(a: Alphanumerical, b: Alphanumerical) -> bool
    ensures { IsTrue result ↔ (a ≡ b) }
{
    a == b
}

/// Whether the first form comes before the second: exactly if its place is lower.
pub fn is_lesser_form(a: DisambiguatedNameForm, b: DisambiguatedNameForm) -> bool
    ensures { IsTrue result ↔ (form_place a < form_place b) }
{
    a < b
}

/// The order of the forms, which is that of their places.
pub fn form_order(a: DisambiguatedNameForm, b: DisambiguatedNameForm) -> Ordering
    ensures { result ≡ form_cmp a b }
{
    a.cmp(&b)
}

/// Whether the name forms of two cites are equal: exactly if their default forms, variables and
/// forms are. Equal ones have the same hash.
#[tactic(auto, using(csl_entry::proofs::PropertiesEqual::properties_decide))]
pub fn same_name_properties(
    a: &NameDisambiguationProperties,
    b: &NameDisambiguationProperties,
) -> bool
    ensures equal { IsTrue result ↔ (name_properties a.now ≡ name_properties b.now) }
    ensures hashed { name_properties a.now ≡ name_properties b.now
        → hash_properties.it a.now ≡ hash_properties.it b.now }
{
    *a == *b
}

/// Whether the answers are equal: exactly if both are the same number, the same text or the same
/// index.
#[tactic(auto, using(csl_entry::proofs::ResultEqual::result_decides))]
pub fn same_number_result(a: &NumberVariableResult<'_>, b: &NumberVariableResult<'_>) -> bool
    ensures { IsTrue result ↔ (result_view a.now ≡ result_view b.now) }
{
    *a == *b
}

/// Whether the answers to number or page variables are equal: exactly if their views are.
#[tactic(auto, using(csl_entry::proofs::ResultEqual::either_decides))]
pub fn same_number_or_page(
    a: &NumberOrPageVariableResult<'_>,
    b: &NumberOrPageVariableResult<'_>,
) -> bool
    ensures { IsTrue result ↔ (number_or_page_view a.now ≡ number_or_page_view b.now) }
{
    *a == *b
}

/// Whether the states are equal: exactly if their values are.
pub fn same_state(a: &LeftState, b: &LeftState) -> bool
    ensures { IsTrue result ↔ (left_state_view a.now ≡ left_state_view b.now) }
{
    // The length of a set gives the prover that its variables are in order, each once.
    let _length = a.suppressed.len();
    let _other = b.suppressed.len();
    *a == *b
}

/// Whether the renderings are equal: exactly if their contents and their states are.
pub fn same_rendered(a: &Rendered, b: &Rendered) -> bool
    ensures { IsTrue result ↔ ((tokens a.now.content ≡ tokens b.now.content)
        × (left_state_view a.now.state ≡ left_state_view b.now.state)) }
{
    // As in `same_state`.
    let _length = a.state.suppressed.len();
    let _other = b.state.suppressed.len();
    *a == *b
}
