//! The creators of a work, for its label (CSL 1.0.2, Appendix IV: Standard Variables,
//! citation-label).

ghost use Rattle.std.specs.Prelude.{◌≡◌, ◌++◌, map, IfOk};
ghost use Rattle.lit_model.specs.Person.{person_view};
ghost use Rattle.lit_model.specs.Select.{clause_view};
ghost use Rattle.csl_entry.specs.Creators as spec;

use lit_model::{Bind, Clause, Entry, EntryType, Field, Memory, Person, PersonRole};
use std::alloc::Global;

static SERIES: [Clause<'static>; 1] = [Clause {
    own: &[EntryType::Video],
    fields: &[Field::Issue, Field::Volume],
    parent: Some(&[EntryType::Video]),
    bind: Bind::Parent,
}];

/// Selects the series of an episode. An episode is a video with an issue and a volume, and its
/// series is the first parent that is a video.
fn series() -> &'static [Clause<'static>]
    ensures { map clause_view result.now ≡ spec.series }
{
    &SERIES
}

/// The creators, in order: those in the list of authors, else in the list of editors, else the
/// makers. An empty list counts as a list.
#[tactic(auto, using(crate::proofs::Persons::named_each))]
pub(crate) fn creators(alloc: Global, entry: &Entry) -> Result<Vec<&Person>, Memory>
    ensures { IfOk result (λ v. map (λ p. person_view p.now) v.items ≡ spec.creators_of entry.now) }
{
    let creators = match (&entry.authors, &entry.editors) {
        (Some(authors), _) => references(alloc, authors)?,
        (None, Some(editors)) => references(alloc, editors)?,
        (None, None) => makers(alloc, entry)?,
    };
    Ok(creators)
}

fn references(alloc: Global, persons: &[Person]) -> Result<Vec<&Person>, Memory>
    ensures { IfOk result (λ v. map (λ p. p.now) v.items ≡ persons.now) }
{
    let mut list = Vec::with_capacity(alloc, persons.len())?;
    for person in persons {
        list.push(person)?;
    }
    Ok(list)
}

/// The makers of a work, by its type: the creators of a work without lists of authors and editors.
fn makers(alloc: Global, entry: &Entry) -> Result<Vec<&Person>, Memory>
    ensures { IfOk result (λ v. map (λ p. person_view p.now) v.items ≡ spec.makers entry.now) }
{
    if entry.entry_type != EntryType::Video {
        let compilers = by_role(alloc, entry, &PersonRole::Compiler)?;
        return or_role(alloc, compilers, entry, &PersonRole::Translator);
    }
    let directors = by_role(alloc, entry, &PersonRole::Director)?;
    match entry.bound_select(series()) {
        None => or_role(alloc, directors, entry, &PersonRole::ExecutiveProducer),
        Some(series) => {
            let writers = by_role(alloc, entry, &PersonRole::Writer)?;
            let makers = followed_by(directors, writers)?;
            or_role(alloc, makers, series, &PersonRole::ExecutiveProducer)
        }
    }
}

fn followed_by<'a>(
    mut first: Vec<&'a Person>,
    mut second: Vec<&'a Person>,
) -> Result<Vec<&'a Person>, Memory>
    ensures { IfOk result (λ v. map (λ p. person_view p.now) v.items
        ≡ map (λ p. person_view p.now) first.entry.items
        ++ map (λ p. person_view p.now) second.entry.items) }
{
    first.append(&mut second)?;
    Ok(first)
}

/// The given persons; if there are none, the persons of a role in the entry.
fn or_role<'a>(
    alloc: Global,
    persons: Vec<&'a Person>,
    entry: &'a Entry,
    role: &PersonRole,
) -> Result<Vec<&'a Person>, Memory>
    ensures { IfOk result (λ v. map (λ p. person_view p.now) v.items
        ≡ spec.or_else (map (λ p. person_view p.now) persons.entry.items)
        (spec.by_role entry.now role.now)) }
{
    if persons.as_slice().is_empty() {
        return by_role(alloc, entry, role);
    }
    Ok(persons)
}

/// The entry's own persons of a role, in order.
#[tactic(auto, using(crate::proofs::Persons::named_each))]
fn by_role<'a>(
    alloc: Global,
    entry: &'a Entry,
    role: &PersonRole,
) -> Result<Vec<&'a Person>, Memory>
    ensures { IfOk result (λ v. map (λ p. person_view p.now) v.items
        ≡ spec.by_role entry.now role.now) }
{
    let persons = entry.affiliated_with_role(alloc, role)?;
    Ok(persons)
}
