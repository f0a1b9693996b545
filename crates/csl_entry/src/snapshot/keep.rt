//! The answers of an entry to the variables in a set, in the order of the set, and owned.
//! Definitions: specs/Snapshot.antt.

ghost use Rattle.std.specs.Prelude.{◌≡◌, ◌++◌, map, option_map, option_to_list, IfOk, OnOk};
ghost use Rattle.std.specs.List.{filter};
ghost use Rattle.lit_model.specs.Date.{date_view};
ghost use Rattle.lit_model.specs.MaybeTyped.{maybe_view};
ghost use Rattle.lit_model.specs.Numeric.{numeric_view};
ghost use Rattle.lit_model.specs.Page.{pages_view};
ghost use Rattle.lit_model.specs.Person.{person_view};
ghost use Rattle.lit_model.specs.Text.{chunks};
ghost use Rattle.csl_entry.specs.Answers.{cow_view};
ghost use Rattle.csl_entry.specs.Snapshot as spec;

use crate::taxonomy::EntryLike;
use csl_elements::{
    DateVariable, Kind, NameVariable, NumberVariable, PageVariable, StandardVariable,
};
use lit_model::{
    ChunkedString, Date, LongShortForm, MaybeTyped, Memory, Numeric, PageRanges, Person,
};
use std::alloc::Global;
use std::borrow::Cow;
use std::collections::BTreeSet;

/// The number, owned.
fn owned_number(
    alloc: Global,
    found: Option<MaybeTyped<Cow<'_, Numeric>>>,
) -> Result<Option<MaybeTyped<Numeric>>, Memory>
    ensures { IfOk result (λ own. option_map (maybe_view numeric_view) own
        ≡ option_map (maybe_view (cow_view numeric_view)) found.entry) }
{
    match found {
        None => Ok(None),
        Some(MaybeTyped::String(text)) => Ok(Some(MaybeTyped::String(text))),
        Some(MaybeTyped::Typed(Cow::Owned(number))) => Ok(Some(MaybeTyped::Typed(number))),
        Some(MaybeTyped::Typed(Cow::Borrowed(number))) => {
            let copy = number.clone(alloc)?;
            Ok(Some(MaybeTyped::Typed(copy)))
        }
    }
}

/// The text, owned.
fn owned_text(
    alloc: Global,
    found: Option<Cow<'_, ChunkedString>>,
) -> Result<Option<ChunkedString>, Memory>
    ensures { IfOk result (λ own. option_map chunks own
        ≡ option_map (cow_view chunks) found.entry) }
{
    match found {
        None => Ok(None),
        Some(Cow::Owned(text)) => Ok(Some(text)),
        Some(Cow::Borrowed(text)) => {
            let copy = text.clone(alloc)?;
            Ok(Some(copy))
        }
    }
}

/// The person, owned.
fn owned_person(alloc: Global, person: Cow<'_, Person>) -> Result<Person, Memory>
    ensures { IfOk result (λ own. person_view own ≡ cow_view person_view person.entry) }
{
    match person {
        Cow::Owned(person) => Ok(person),
        Cow::Borrowed(person) => person.clone(alloc),
    }
}

/// The persons, owned.
fn owned_persons(alloc: Global, persons: Vec<Cow<'_, Person>>) -> Result<Vec<Person>, Memory>
    ensures { IfOk result (λ own. map person_view own.items
        ≡ map (cow_view person_view) persons.entry.items) }
{
    let mut own = Vec::with_capacity(alloc, persons.len())?;
    for person in persons {
        let person = owned_person(alloc, person)?;
        own.push(person)?;
    }
    Ok(own)
}

/// The persons, or `None` if there are none.
fn unless_empty(persons: Vec<Person>) -> Option<Vec<Person>>
    ensures { option_map (λ persons. map person_view persons.items) result
        ≡ spec.unless_empty (map person_view persons.items) }
{
    if persons.is_empty() {
        None
    } else {
        Some(persons)
    }
}

/// Appends the variable with its answer, if there is one.
fn keep<K: Copy, V: Drop>(
    kept: &mut Vec<(K, V)>,
    variable: K,
    answer: Option<V>,
) -> Result<(), Memory>
    ensures { OnOk result (kept.new.items
        ≡ kept.old.items ++ option_to_list (option_map (spec.paired variable) answer)) }
{
    if let Some(answer) = answer {
        kept.push((variable, answer))?;
    }
    Ok(())
}

/// The answers to number variables.
pub(super) fn numbers<T: EntryLike>(
    alloc: Global,
    entry: &T,
    variables: &BTreeSet<NumberVariable>,
) -> Result<Vec<(NumberVariable, MaybeTyped<Numeric>)>, Memory>
    ensures { IfOk result (λ kept. map (spec.keyed (maybe_view numeric_view)) kept.items
        ≡ spec.kept_answers (T.answers entry.now).numbers variables.now.keys) }
{
    let mut kept = Vec::new(alloc);
    for variable in variables {
        let found = entry.resolve_number_variable(alloc, *variable)?;
        let own = owned_number(alloc, found)?;
        keep(&mut kept, *variable, own)?;
    }
    Ok(kept)
}

/// The answers to page variables.
pub(super) fn pages<T: EntryLike>(
    alloc: Global,
    entry: &T,
    variables: &BTreeSet<PageVariable>,
) -> Result<Vec<(PageVariable, MaybeTyped<PageRanges>)>, Memory>
    ensures { IfOk result (λ kept. map (spec.keyed (maybe_view pages_view)) kept.items
        ≡ spec.kept_answers (T.answers entry.now).pages variables.now.keys) }
{
    let mut kept = Vec::new(alloc);
    for variable in variables {
        let own = entry.resolve_page_variable(alloc, *variable)?;
        keep(&mut kept, *variable, own)?;
    }
    Ok(kept)
}

/// The answers to standard variables in one form.
pub(super) fn texts<T: EntryLike>(
    alloc: Global,
    entry: &T,
    form: LongShortForm,
    variables: &BTreeSet<StandardVariable>,
) -> Result<Vec<(StandardVariable, ChunkedString)>, Memory>
    ensures { IfOk result (λ kept. map (spec.keyed chunks) kept.items
        ≡ spec.kept_answers ((T.answers entry.now).standards form) variables.now.keys) }
{
    let mut kept = Vec::new(alloc);
    for variable in variables {
        let found = entry.resolve_standard_variable(alloc, form, *variable)?;
        let own = owned_text(alloc, found)?;
        keep(&mut kept, *variable, own)?;
    }
    Ok(kept)
}

/// The answers to name variables. A variable without persons is left out.
pub(super) fn names<T: EntryLike>(
    alloc: Global,
    entry: &T,
    variables: &BTreeSet<NameVariable>,
) -> Result<Vec<(NameVariable, Vec<Person>)>, Memory>
    ensures { IfOk result (λ kept.
        map (spec.keyed (λ persons. map person_view persons.items)) kept.items
        ≡ spec.kept_answers (λ v. spec.unless_empty ((T.answers entry.now).names v))
        variables.now.keys) }
{
    let mut kept = Vec::new(alloc);
    for variable in variables {
        let found = entry.resolve_name_variable(alloc, *variable)?;
        let own = owned_persons(alloc, found)?;
        keep(&mut kept, *variable, unless_empty(own))?;
    }
    Ok(kept)
}

/// The answers to date variables.
pub(super) fn dates<T: EntryLike>(
    alloc: Global,
    entry: &T,
    variables: &BTreeSet<DateVariable>,
) -> Result<Vec<(DateVariable, Date)>, Memory>
    ensures { IfOk result (λ kept. map (spec.keyed date_view) kept.items
        ≡ spec.kept_answers (T.answers entry.now).dates variables.now.keys) }
{
    let mut kept = Vec::new(alloc);
    for variable in variables {
        let found = entry.resolve_date_variable(alloc, *variable)?;
        keep(&mut kept, *variable, owned_date(found))?;
    }
    Ok(kept)
}

/// The date, owned.
fn owned_date(found: Option<Cow<'_, Date>>) -> Option<Date>
    ensures { option_map date_view result ≡ option_map (cow_view date_view) found.entry }
{
    match found {
        None => None,
        Some(Cow::Owned(date)) => Some(date),
        Some(Cow::Borrowed(date)) => Some(*date),
    }
}

/// The kinds that the entry is of.
pub(super) fn kinds<T: EntryLike>(
    alloc: Global,
    entry: &T,
    kinds: &BTreeSet<Kind>,
) -> Result<Vec<Kind>, Memory>
    ensures { IfOk result (λ kept.
        kept.items ≡ filter (T.answers entry.now).kinds kinds.now.keys) }
{
    let mut kept = Vec::new(alloc);
    for kind in kinds {
        if entry.matches_entry_type(*kind) {
            kept.push(*kind)?;
        }
    }
    Ok(kept)
}
