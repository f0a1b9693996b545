//! The forms of the names of one list. The form of a name that is not shown is absent.
//! Definitions: specs/NameProperties.antt, specs/LentForm.antt.

ghost use Rattle.std.specs.Prelude.{◌≡◌, ◌≤◌, ◌<◌, ◌↔◌, Bool, Some, is_some, length, All, IsTrue, IsSome, option_and_then, slice_get, count_by};
ghost use Rattle.std.specs.Borrow.{sem};
ghost use Rattle.csl_entry.specs.LentForm.{lends_shown};
ghost use Rattle.csl_entry.specs.NameForm.{further_form};
ghost use Rattle.csl_entry.specs.NameProperties.{all_shown, first_shown, disambiguated_forms};

use crate::forms::name_form::DisambiguatedNameForm;

/// Replaces each absent form with this form.
fn show_all(forms: &mut [Option<DisambiguatedNameForm>], form: DisambiguatedNameForm)
    ensures { forms.new ≡ all_shown form forms.old }
{
    for shown in forms.iter_mut() {
        *shown = Some(shown.unwrap_or(form));
    }
}

/// Replaces each absent form among the first `num` with this form.
pub(crate) fn show_first(
    forms: &mut [Option<DisambiguatedNameForm>],
    num: usize,
    form: DisambiguatedNameForm,
)
    requires { num ≤ length forms.old }
    ensures { forms.new ≡ first_shown form num forms.old }
{
    let (first, _others) = forms.split_at_mut(num);
    show_all(first, form);
}

/// The form that disambiguates a name further, if there is one. An absent form becomes the default
/// form.
fn further(
    form: Option<DisambiguatedNameForm>,
    default: DisambiguatedNameForm,
) -> Option<DisambiguatedNameForm>
    ensures { result ≡ further_form default form }
{
    match form {
        None => Some(default),
        Some(form) => form.disambiguate(true),
    }
}

/// Gives the name at each of these places its form by `further`, if there is one, place by place.
/// Returns whether any form changed.
pub(crate) fn disambiguate_forms(
    forms: &mut [Option<DisambiguatedNameForm>],
    default: DisambiguatedNameForm,
    places: &[usize],
) -> bool
    requires { All (λ k. k < length forms.old) places.now }
    ensures forms { forms.new ≡ disambiguated_forms default places.now forms.old }
    ensures answer { (result ≡ Bool.false) ↔ (forms.new ≡ forms.old) }
{
    let mut changed = false;
    for &place in places {
        let next = further(forms[place], default);
        changed |= next.is_some();
        forms[place] = next.or(forms[place]);
    }
    changed
}

/// Whether the list has each of these places.
pub(crate) fn holds_each(forms: &[Option<DisambiguatedNameForm>], places: &[usize]) -> bool
    ensures { IsTrue result ↔ All (λ k. k < length forms.now) places.now }
{
    places.iter().all(|place| *place < forms.len())
}

/// The number of names that are shown.
pub(crate) fn count_shown(forms: &[Option<DisambiguatedNameForm>]) -> usize
    ensures { result ≡ count_by is_some forms.now }
{
    forms.iter().filter(|form| form.is_some()).count()
}

/// Returns a mutable reference to the form at this place, which must not be absent. Nothing else
/// changes.
pub(crate) fn shown_mut(
    forms: &mut Vec<Option<DisambiguatedNameForm>>,
    place: usize,
) -> &mut DisambiguatedNameForm
    requires { IsSome (option_and_then (λ f. f) (slice_get forms.old.items place)) }
    ensures* writes_back { sem 𝓛 (lends_shown forms.entry place result) }
    ensures value { slice_get forms.old.items place ≡ Some (Some result.now) }
{
    match &mut forms[place] {
        Some(form) => form,
        None => unreachable!(),
    }
}
