//! Sort keys of dates (CSL 1.0.2, Sorting).

ghost use Rattle.std.specs.Prelude.{◌≡◌, ◌++◌, IfOk, string_bytes};
ghost use Rattle.lit_model.specs.Date.{date_view};
ghost use Rattle.csl_elements.specs.View.{view_date};
ghost use Rattle.csl_nodes.specs.DateKey as spec;

use crate::date_text::{names_part, two_digits};
use csl_entry::Sorting;
use csl_style::{Date, DatePartName, DateParts};
use lit_model::Memory;
use std::alloc::Global;

/// A number in at least nine places, its sign included.
fn nine_places(alloc: Global, number: i32) -> Result<String, Memory>
    ensures { IfOk result (λ s. string_bytes s ≡ spec.nine_places number) }
{
    let text = format!(in alloc; "{number:09}")?;
    Ok(text)
}

/// The key of a year.
fn year_key(alloc: Global, year: i32) -> Result<String, Memory>
    ensures { IfOk result (λ s. string_bytes s ≡ spec.year_key year) }
{
    if year >= 0 {
        let places = nine_places(alloc, year)?;
        let key = format!(in alloc; "P{places}")?;
        Ok(key)
    } else {
        let places = nine_places(alloc, i32::MAX + year)?;
        let key = format!(in alloc; "N{places}")?;
        Ok(key)
    }
}

/// The key of a month or a day, or `00` if there is none.
fn place_key(alloc: Global, place: Option<u8>) -> Result<String, Memory>
    ensures { IfOk result (λ s. string_bytes s ≡ spec.place_key place) }
{
    match place {
        Some(place) => two_digits(alloc, u32::from(place) + 1),
        None => {
            let key = String::from_str(alloc, "00")?;
            Ok(key)
        }
    }
}

/// Whether a date lists a part with that name.
fn lists_part(node: &Date, name: DatePartName) -> bool
    ensures { result ≡ spec.lists_part (view_date node.now).date_part name }
{
    for part in &node.date_part {
        if part.name == name {
            return true;
        }
    }
    false
}

/// Whether the sort key of a date has the part. With a form, a key has the parts that the node's
/// `date-parts` includes, or all if that is not set. Otherwise it has all for a variable, and the
/// listed parts for a macro.
fn is_keyed(node: &Date, sorting: Sorting, part: DatePartName) -> bool
    ensures { result ≡ spec.is_keyed (view_date node.now) sorting part }
{
    match node.form {
        Some(_) => names_part(node.parts.unwrap_or(DateParts::YearMonthDay), part),
        None => match sorting {
            Sorting::Variable => true,
            Sorting::Macro => lists_part(node, part),
        },
    }
}

/// The key of a year with its suffix, or an empty text if the sort key has no year.
fn optional_year_key(alloc: Global, has: bool, suffix: &str, year: i32) -> Result<String, Memory>
    ensures { IfOk result (λ s. string_bytes s
        ≡ spec.key_if has (spec.year_key year ++ suffix.now)) }
{
    if !has {
        return Ok(String::new(alloc));
    }
    let mut key = year_key(alloc, year)?;
    key.push_str(suffix)?;
    Ok(key)
}

/// The key of a month or a day, or an empty text if the sort key has no such part.
fn optional_place_key(alloc: Global, has: bool, place: Option<u8>) -> Result<String, Memory>
    ensures { IfOk result (λ s. string_bytes s ≡ spec.key_if has (spec.place_key place)) }
{
    if has {
        place_key(alloc, place)
    } else {
        Ok(String::new(alloc))
    }
}

/// The sort key of a date, with the suffix after its year.
#[tactic(auto, unfolding(crate::specs::DateKey::sort_key))]
pub(crate) fn sort_key(
    alloc: Global,
    node: &Date,
    sorting: Sorting,
    suffix: &str,
    date: &lit_model::Date,
) -> Result<String, Memory>
    ensures { IfOk result (λ s. string_bytes s
        ≡ spec.sort_key (view_date node.now) sorting suffix.now (date_view date.now)) }
{
    let has_year = is_keyed(node, sorting, DatePartName::Year);
    let has_month = is_keyed(node, sorting, DatePartName::Month);
    let has_day = is_keyed(node, sorting, DatePartName::Day);
    let year = optional_year_key(alloc, has_year, suffix, date.year())?;
    let month = optional_place_key(alloc, has_month, date.month())?;
    let day = optional_place_key(alloc, has_day, date.day())?;
    let key = format!(in alloc; "{year}{month}{day}")?;
    Ok(key)
}

/// The sort key of a date with all its parts. For the years -1147483647 to 999999999, the bytes of
/// two such keys are in the order of time: by year, month and day, an absent one first.
pub fn full_sort_key(alloc: Global, date: &lit_model::Date) -> Result<String, Memory>
    ensures key { IfOk result (λ s. string_bytes s ≡ spec.full_key (date_view date.now)) }
    ensures order { IfOk result (λ s. spec.SortsByTime (string_bytes s) date.now) }
{
    let year = year_key(alloc, date.year())?;
    let month = place_key(alloc, date.month())?;
    let day = place_key(alloc, date.day())?;
    let key = format!(in alloc; "{year}{month}{day}")?;
    Ok(key)
}
