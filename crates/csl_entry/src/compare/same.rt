//! Equality of two answers, whichever entries give them, borrowed or owned. They are equal if both
//! are absent, or both are present and have the same content. Texts are compared by the text and
//! the kind of each chunk; numbers by their numbers, separators, prefix and suffix; pages by the
//! pages, ranges and separators in order; dates by year, month, day, season and whether they are
//! approximate; persons, one by one, by every text and the comma. A number never equals a text that
//! is not a number, and pages never equal a text that is not pages.
//! Definitions: specs/Answers.antt, crates/lit_model/specs/SamePerson.antt.

ghost use Rattle.std.specs.Prelude.{◌≡◌, ◌↔◌, map, option_map, option_copied, IsTrue};
ghost use Rattle.lit_model.specs.Date.{date_view};
ghost use Rattle.lit_model.specs.MaybeTyped.{maybe_view};
ghost use Rattle.lit_model.specs.Numeric.{numeric_view};
ghost use Rattle.lit_model.specs.Page.{pages_view};
ghost use Rattle.lit_model.specs.Person.{person_view};
ghost use Rattle.lit_model.specs.SamePerson as spec;
ghost use Rattle.lit_model.specs.Text.{chunks};
ghost use Rattle.std.specs.Cow.{cow_value};
ghost use Rattle.csl_entry.specs.Answers.{cow_view};

use crate::number_result::PageVariableResult;
use lit_model::{ChunkedString, Date, MaybeTyped, Numeric, Person};
use std::borrow::Cow;

/// Whether two lists of persons have the same length and the persons at each place are equal: in
/// every text, and in whether a comma comes before the suffix (CSL 1.0.2, Name Variables).
pub fn same_persons(persons: &[Cow<'_, Person>], others: &[Cow<'_, Person>]) -> bool
    ensures texts { IsTrue result
        ↔ (map (cow_view person_view) persons.now ≡ map (cow_view person_view) others.now) }
    ensures test { result
        ≡ spec.same_persons (map (cow_view person_view) persons.now)
        (map (cow_view person_view) others.now) }
{
    same_each(persons, others)
}

/// Whether two lists of persons are equal, person by person.
fn same_each(persons: &[Cow<'_, Person>], others: &[Cow<'_, Person>]) -> bool
    ensures { result ≡ spec.same_persons (map (cow_view person_view) persons.now)
        (map (cow_view person_view) others.now) }
{
    if persons.len() != others.len() {
        return false;
    }
    for place in 0..persons.len() {
        if !persons[place]
            .as_ref()
            .is_same_person(others[place].as_ref())
        {
            return false;
        }
    }
    true
}

/// Whether both texts are absent, or both are present and equal in the text and the kind of each
/// chunk (CSL 1.0.2, Standard Variables).
pub fn same_text(
    text: &Option<Cow<'_, ChunkedString>>,
    other: &Option<Cow<'_, ChunkedString>>,
) -> bool
    ensures { IsTrue result
        ↔ (option_map (cow_view chunks) text.now ≡ option_map (cow_view chunks) other.now) }
{
    *text == *other
}

/// Whether both numbers are absent, or both are present and equal: as numbers with their
/// separators, prefix and suffix, or as texts (CSL 1.0.2, Number Variables).
pub fn same_number(
    number: &Option<MaybeTyped<Cow<'_, Numeric>>>,
    other: &Option<MaybeTyped<Cow<'_, Numeric>>>,
) -> bool
    ensures { IsTrue result
        ↔ (option_map (maybe_view (cow_view numeric_view)) number.now
        ≡ option_map (maybe_view (cow_view numeric_view)) other.now) }
{
    *number == *other
}

/// Whether both answers to the page variable are absent, or both are present and equal: as pages,
/// ranges and separators in order, or as texts (CSL 1.0.2, Number Variables: page).
pub fn same_pages(pages: &Option<PageVariableResult>, others: &Option<PageVariableResult>) -> bool
    ensures { IsTrue result
        ↔ (option_map (maybe_view pages_view) pages.now
        ≡ option_map (maybe_view pages_view) others.now) }
{
    *pages == *others
}

/// Whether both dates are absent, or both are present and equal in year, month, day, season and
/// whether they are approximate (CSL 1.0.2, Date Variables).
pub fn same_date(date: &Option<Cow<'_, Date>>, other: &Option<Cow<'_, Date>>) -> bool
    ensures { IsTrue result
        ↔ (option_map (cow_view date_view) date.now ≡ option_map (cow_view date_view) other.now) }
{
    as_deref(date) == as_deref(other)
}

/// Returns a reference to the answer, whether it is borrowed or owned.
pub fn as_deref<'a, T: Drop>(found: &'a Option<Cow<'_, T>>) -> Option<&'a T>
    ensures { option_copied result ≡ option_map cow_value found.now }
{
    match found {
        Some(value) => Some(value.as_ref()),
        None => None,
    }
}
