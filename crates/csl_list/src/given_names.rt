//! Names that are expanded wherever the document has them (CSL 1.0.2,
//! givenname-disambiguation-rule: all rules but by-cite).

ghost use Rattle.std.specs.Prelude.{◌≡◌, ◌<◌, IfOk, length};
ghost use Rattle.std.specs.List.{All};
ghost use Rattle.csl_entry.specs.NameProperties.{name_properties};
ghost use Rattle.csl_list.specs.GivenNames as spec;

use crate::equal::first_equals;
use crate::told::ToldCite;
use csl::literature::Person;
use csl_common::Memory;
use csl_entry::{DisambiguatedNameForm, EntryLike, NameDisambiguationProperties};
use std::alloc::Global;

/// A name of the first cite of a work.
#[derive(Drop)]
pub(crate) struct CitedName {
    /// The place of the work in the list.
    pub place: usize,
    family: String,
    initials: String,
    given: String,
}

/// A person as a name of a cite.
fn cited_name(alloc: Global, person: &Person, place: usize) -> Result<CitedName, Memory> {
    let mut initials = String::new(alloc);
    if person.initials(&mut initials, Some("."), true).is_err() {
        return Err(Memory);
    }
    let given = match &person.given_name {
        Some(given) => given.as_str(),
        None => "",
    };
    Ok(CitedName {
        place,
        family: String::from_str(alloc, person.name.as_str())?,
        initials,
        given: String::from_str(alloc, given)?,
    })
}

/// Adds the names of a cite, or the first alone.
fn push_names<T: EntryLike>(
    alloc: Global,
    names: &mut Vec<CitedName>,
    work: &T,
    place: usize,
    cite: &ToldCite,
    is_primary: bool,
) -> Result<(), Memory> {
    let Some(forms) = &cite.forms else {
        return Ok(());
    };
    let Some(variable) = forms.variables().first().copied() else {
        return Ok(());
    };
    let persons = work.resolve_name_variable(alloc, variable)?;
    for (name, person) in persons.iter().enumerate() {
        if name == 0 || !is_primary {
            names.push(cited_name(alloc, person.as_ref(), place)?)?;
        }
    }
    Ok(())
}

/// The names of the first cites, or the first name of each alone.
pub(crate) fn cited_names<T: EntryLike>(
    alloc: Global,
    works: &[T],
    order: &[usize],
    told: &[ToldCite],
    is_primary: bool,
) -> Result<Vec<CitedName>, Memory>
    requires { All (λ work. work < length works.now) order.now }
{
    let mut names = Vec::new(alloc);
    for (place, work) in order.iter().enumerate() {
        if let Some(cite) = told.get(place) {
            push_names(alloc, &mut names, &works[*work], place, cite, is_primary)?;
        }
    }
    Ok(names)
}

/// For each name the index of the first with the same family name, and the same initials too if
/// these count.
fn first_equal_names(
    alloc: Global,
    names: &[CitedName],
    with_initials: bool,
) -> Result<Vec<usize>, Memory> {
    let mut keys = Vec::with_capacity(alloc, names.len())?;
    for name in names {
        let initials = if with_initials {
            name.initials.as_str()
        } else {
            ""
        };
        keys.push((name.family.as_str(), initials))?;
    }
    let firsts = first_equals(alloc, &keys)?;
    Ok(firsts)
}

/// Whether two names are there and have different given names.
fn have_other_given_names(names: &[CitedName], one: usize, other: usize) -> bool {
    match (names.get(one), names.get(other)) {
        (Some(one), Some(other)) => one.given != other.given,
        (Some(_), None) | (None, Some(_)) | (None, None) => false,
    }
}

/// For each index of a first, whether the names that it stands for have several given names.
fn are_ambiguous(
    alloc: Global,
    names: &[CitedName],
    firsts: &[usize],
) -> Result<Vec<bool>, Memory> {
    let mut are_ambiguous = vec![in alloc; false; firsts.len()]?;
    for (index, first) in firsts.iter().enumerate() {
        if have_other_given_names(names, *first, index) {
            if let Some(own) = are_ambiguous.get_mut(*first) {
                *own = true;
            }
        }
    }
    Ok(are_ambiguous)
}

/// Whether the name at an index is among those of an ambiguous first.
fn is_ambiguous(firsts: &[usize], ambiguous: &[bool], index: usize) -> bool {
    match firsts.get(index) {
        Some(first) => ambiguous.get(*first).copied().unwrap_or(false),
        None => false,
    }
}

/// By how many steps a name is expanded: none, its initials, or the whole given name, if the rule
/// has at most so many. A name stays as it is if it takes more to tell it apart.
fn steps_needed(needs_initials: bool, needs_whole: bool, most: usize) -> usize
    ensures { result ≡ spec.steps_needed needs_initials needs_whole most }
{
    let steps = if needs_whole {
        2
    } else if needs_initials {
        1
    } else {
        0
    };
    if steps <= most { steps } else { 0 }
}

/// By how many steps each name is expanded, of at most so many.
pub(crate) fn steps_of_names(
    alloc: Global,
    names: &[CitedName],
    most: usize,
) -> Result<Vec<usize>, Memory>
    ensures { IfOk result (λ steps. length steps.items ≡ length names.now) }
{
    let by_family = first_equal_names(alloc, names, false)?;
    let by_initials = first_equal_names(alloc, names, true)?;
    let families = are_ambiguous(alloc, names, &by_family)?;
    let initials = are_ambiguous(alloc, names, &by_initials)?;
    let mut steps = Vec::with_capacity(alloc, names.len())?;
    for (index, _name) in names.iter().enumerate() {
        let needs_initials = is_ambiguous(&by_family, &families, index);
        let needs_whole = is_ambiguous(&by_initials, &initials, index);
        steps.push(steps_needed(needs_initials, needs_whole, most))?;
    }
    Ok(steps)
}

/// By how many steps from this form of the style a name is expanded that needs so many. A form that
/// has initials already needs one less. A rule of one step needs a form that has some.
fn steps_from(form: DisambiguatedNameForm, steps: usize, most: usize) -> usize
    ensures { result ≡ spec.steps_from form steps most }
{
    match form {
        DisambiguatedNameForm::ShortInitialized => steps,
        DisambiguatedNameForm::LongInitialized => steps.saturating_sub(1),
        DisambiguatedNameForm::ShortFull if most > 1 => steps,
        DisambiguatedNameForm::ShortFull
        | DisambiguatedNameForm::LongFull
        | DisambiguatedNameForm::Count => 0,
    }
}

/// The same from the form in which these forms show a name that was hidden.
pub(crate) fn steps_in_forms(
    forms: &NameDisambiguationProperties,
    steps: usize,
    most: usize,
) -> usize
    ensures { result ≡ spec.steps_from (name_properties forms.now).default_form steps most }
{
    steps_from(forms.default_name_form(), steps, most)
}
