//! The answers of an entry to name variables (CSL 1.0.2, Appendix IV: Name Variables).

ghost use Rattle.std.specs.Prelude.{◌≡◌, ◌==◌, not, map, length, option_copied, IfOk};
ghost use Rattle.lit_model.specs.declared.person.PersonRole.TheVariants as role;
ghost use Rattle.lit_model.specs.Person.{person_view};
ghost use Rattle.lit_model.specs.Select.{clause_view, bound_select, audio_video};
ghost use Rattle.csl_entry.specs.Answers.{cow_view};
ghost use Rattle.csl_entry.specs.Creators.{in_role};
ghost use Rattle.csl_entry.specs.EntryName as spec;

use csl_elements::NameVariable;
use lit_model::select::audio_video;
use lit_model::{Bind, Clause, Entry, EntryType, Memory, Person, PersonRole};
use std::alloc::Global;
use std::borrow::Cow;

/// Returns the persons in order, borrowed from the entry and its parents.
pub(super) fn name_variable(
    alloc: Global,
    entry: &Entry,
    variable: NameVariable,
) -> Result<Vec<Cow<'_, Person>>, Memory>
    ensures { IfOk result (λ found. map (cow_view person_view) found.items
        ≡ spec.names_of entry.now variable) }
{
    match variable {
        NameVariable::Author => name_answer(alloc, authors(Some(entry))),
        NameVariable::Chair => {
            in_role(alloc, entry.bound_select(meeting()), &PersonRole::Director)
        }
        NameVariable::CollectionEditor => name_answer(alloc, editors(entry.get_collection())),
        NameVariable::Compiler => in_role(alloc, Some(entry), &PersonRole::Compiler),
        NameVariable::Composer => in_role(alloc, Some(entry), &PersonRole::Composer),
        NameVariable::ContainerAuthor => name_answer(alloc, authors(entry.get_container())),
        NameVariable::Contributor => in_role(alloc, Some(entry), &PersonRole::Collaborator),
        NameVariable::Curator => {
            in_role(
                alloc,
                entry.bound_select(exhibition()),
                &PersonRole::Organizer,
            )
        }
        NameVariable::Director => in_role(alloc, recording(entry), &PersonRole::Director),
        NameVariable::Editor => name_answer(alloc, editors_or_of_container(entry)),
        NameVariable::EditorTranslator => editor_translators(alloc, entry),
        NameVariable::ExecutiveProducer => {
            in_role(alloc, Some(entry), &PersonRole::ExecutiveProducer)
        }
        NameVariable::Illustrator => in_role(alloc, Some(entry), &PersonRole::Illustrator),
        NameVariable::Narrator => in_role(alloc, Some(entry), &PersonRole::Narrator),
        NameVariable::Organizer => in_role(alloc, Some(entry), &PersonRole::Organizer),
        NameVariable::OriginalAuthor => name_answer(alloc, authors(entry.get_original())),
        NameVariable::Performer => in_role(alloc, Some(entry), &PersonRole::CastMember),
        NameVariable::Producer => in_role(alloc, Some(entry), &PersonRole::Producer),
        NameVariable::ScriptWriter => in_role(alloc, Some(entry), &PersonRole::Writer),
        NameVariable::SeriesCreator => in_role(alloc, recording(entry), &PersonRole::Founder),
        NameVariable::Translator => in_role(alloc, Some(entry), &PersonRole::Translator),
        NameVariable::EditorialDirector
        | NameVariable::Guest
        | NameVariable::Host
        | NameVariable::Interviewer
        | NameVariable::Recipient
        | NameVariable::ReviewedAuthor => Ok(Vec::new(alloc)),
    }
}

/// Whether the answer to a name variable has a person. Authors and editors are not listed for it.
pub(super) fn has_persons(
    alloc: Global,
    entry: &Entry,
    variable: NameVariable,
) -> Result<bool, Memory>
    ensures { IfOk result (λ found. found
        ≡ not (length (spec.names_of entry.now variable) == 0)) }
{
    match variable {
        NameVariable::Author => Ok(!authors(Some(entry)).is_empty()),
        NameVariable::CollectionEditor => Ok(!editors(entry.get_collection()).is_empty()),
        NameVariable::ContainerAuthor => Ok(!authors(entry.get_container()).is_empty()),
        NameVariable::Editor => Ok(!editors_or_of_container(entry).is_empty()),
        NameVariable::OriginalAuthor => Ok(!authors(entry.get_original()).is_empty()),
        _ => Ok(!name_variable(alloc, entry, variable)?.is_empty()),
    }
}

static MEETING: [Clause<'static>; 1] = [Clause {
    own: &[],
    fields: &[],
    parent: Some(&[EntryType::Proceedings, EntryType::Conference]),
    bind: Bind::Parent,
}];

/// Selects the first parent that is proceedings or a conference.
fn meeting() -> &'static [Clause<'static>]
    ensures { map clause_view result.now ≡ spec.conference_clauses }
{
    &MEETING
}

static EXHIBITION: [Clause<'static>; 1] = [Clause {
    own: &[],
    fields: &[],
    parent: Some(&[EntryType::Exhibition]),
    bind: Bind::Parent,
}];

/// Selects the first parent that is an exhibition.
fn exhibition() -> &'static [Clause<'static>]
    ensures { map clause_view result.now ≡ spec.exhibition }
{
    &EXHIBITION
}

/// The recording: the first parent that is one, or else the entry itself if it is one.
fn recording(entry: &Entry) -> Option<&Entry>
    ensures { option_copied result ≡ bound_select audio_video entry.now }
{
    entry.bound_select(audio_video())
}

/// The authors of a work, or nobody if there is no work or it has no list of authors.
fn authors(work: Option<&Entry>) -> &[Person]
    ensures { result.now ≡ spec.persons_of_bound spec.own_authors (option_copied work.entry) }
{
    match work {
        Some(work) => work.authors().unwrap_or(&[]),
        None => &[],
    }
}

/// The editors of a work, or nobody if there is no work or it has no list of editors.
fn editors(work: Option<&Entry>) -> &[Person]
    ensures { result.now ≡ spec.persons_of_bound spec.own_editors (option_copied work.entry) }
{
    match work {
        Some(work) => work.editors().unwrap_or(&[]),
        None => &[],
    }
}

/// The entry's own editors, or those of its container if it has no list of editors.
fn editors_or_of_container(entry: &Entry) -> &[Person]
    ensures { result.now ≡ spec.persons_of entry.now NameVariable.Editor }
{
    match entry.editors() {
        Some(editors) => editors,
        None => editors(entry.get_container()),
    }
}

/// Returns these persons as an answer, each borrowed.
pub(crate) fn name_answer(alloc: Global, persons: &[Person]) -> Result<Vec<Cow<'_, Person>>, Memory>
    ensures { IfOk result (λ found. map (cow_view person_view) found.items
        ≡ map person_view persons.now) }
{
    let mut found = Vec::with_capacity(alloc, persons.len())?;
    for person in persons {
        found.push(Cow::Borrowed(person))?;
    }
    Ok(found)
}

/// Returns these referenced persons as an answer, each borrowed.
fn reference_answer<'a>(
    alloc: Global,
    persons: &[&'a Person],
) -> Result<Vec<Cow<'a, Person>>, Memory>
    ensures { IfOk result (λ found. map (cow_view person_view) found.items
        ≡ map person_view (map (λ p. p.now) persons.now)) }
{
    let mut found = Vec::with_capacity(alloc, persons.len())?;
    for person in persons {
        found.push(Cow::Borrowed(*person))?;
    }
    Ok(found)
}

/// The persons of a role in a work, or nobody if there is no work.
fn in_role<'a>(
    alloc: Global,
    work: Option<&'a Entry>,
    role: &PersonRole,
) -> Result<Vec<Cow<'a, Person>>, Memory>
    ensures { IfOk result (λ found. map (cow_view person_view) found.items
        ≡ map person_view (spec.persons_of_bound (in_role role.now) (option_copied work.entry))) }
{
    match work {
        Some(work) => {
            let persons = work.affiliated_with_role(alloc, role)?;
            reference_answer(alloc, &persons)
        }
        None => Ok(Vec::new(alloc)),
    }
}

/// The entry's own editors who are also among its translators.
fn editor_translators(alloc: Global, entry: &Entry) -> Result<Vec<Cow<'_, Person>>, Memory>
    ensures { IfOk result (λ found. map (cow_view person_view) found.items
        ≡ spec.names_of entry.now NameVariable.EditorTranslator) }
{
    let mut found = Vec::new(alloc);
    let editors = editors(Some(entry));
    for editor in editors {
        if is_translator(entry, editor) {
            found.push(Cow::Borrowed(editor))?;
        }
    }
    Ok(found)
}

/// Whether the person is equal to one of the entry's translators.
fn is_translator(entry: &Entry, person: &Person) -> bool
    ensures { result ≡ spec.is_one_of (in_role role.Translator entry.now) person.now }
{
    if let Some(groups) = &entry.affiliated {
        for group in groups {
            if group.role == PersonRole::Translator && is_one_of(&group.names, person) {
                return true;
            }
        }
    }
    false
}

/// Whether one of the persons is equal to `person`.
fn is_one_of(persons: &[Person], person: &Person) -> bool
    ensures { result ≡ spec.is_one_of persons.now person.now }
{
    persons.contains(person)
}
