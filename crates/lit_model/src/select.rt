//! Selections: an entry, or one of its parents, by their types and fields.

ghost use Rattle.std.specs.Prelude.{◌≡◌, ◌++◌, map, option_copied, IfOk, OnOk};
ghost use Rattle.std.specs.List.{list_all};
ghost use Rattle.lit_model.specs.Entry.{role_groups};
ghost use Rattle.lit_model.specs.Person.{same_role, with_role};
ghost use Rattle.lit_model.specs.Select as spec;

use crate::entry::Entry;
use crate::entry_type::EntryType;
use crate::person::{Person, PersonRole};
use csl_common::Memory;
use std::alloc::Global;

/// A field that a clause may require.
#[derive(Clone, Copy, Debug, PartialEq, Eq, PartialOrd, Ord, Hash)]
pub enum Field {
    Date,
    Url,
    Issue,
    Volume,
}

/// The selection of a clause.
#[derive(Clone, Copy, Debug, PartialEq, Eq, PartialOrd, Ord, Hash)]
pub enum Bind {
    /// Nothing: the clause is a test.
    Nothing,
    /// The entry.
    Child,
    /// The first direct parent of one of the clause's parent types.
    Parent,
}

/// A test of an entry and of its direct parents.
#[derive(Clone, Copy, PartialEq, Eq)]
pub struct Clause<'a> {
    /// The types that the entry may have. An empty list means every type.
    pub own: &'a [EntryType],
    /// The fields that the entry itself must have.
    pub fields: &'a [Field],
    /// The types for a direct parent: at least one direct parent must have one of them. An empty
    /// list means every type. `None` means that no parent is needed.
    pub parent: Option<&'a [EntryType]>,
    /// The selection for an entry that fits the clause.
    pub bind: Bind,
}

static CONTAINER: [Clause<'static>; 5] = [
    Clause {
        own: &[EntryType::Chapter],
        fields: &[],
        parent: Some(&[
            EntryType::Book,
            EntryType::Anthology,
            EntryType::Proceedings,
        ]),
        bind: Bind::Parent,
    },
    Clause {
        own: &[EntryType::Anthos],
        fields: &[],
        parent: Some(&[EntryType::Anthology]),
        bind: Bind::Parent,
    },
    Clause {
        own: &[EntryType::Entry],
        fields: &[],
        parent: Some(&[]),
        bind: Bind::Parent,
    },
    Clause {
        own: &[EntryType::Article],
        fields: &[],
        parent: Some(&[
            EntryType::Proceedings,
            EntryType::Periodical,
            EntryType::Newspaper,
            EntryType::Blog,
            EntryType::Web,
        ]),
        bind: Bind::Parent,
    },
    Clause {
        own: &[],
        fields: &[],
        parent: Some(&[EntryType::Reference, EntryType::Web, EntryType::Blog]),
        bind: Bind::Parent,
    },
];

/// The clauses for the container of an entry: the book of a chapter, the journal of an article, the
/// site of anything.
fn container() -> &'static [Clause<'static>]
    ensures { map spec.clause_view result.now ≡ spec.container }
{
    &CONTAINER
}

static COLLECTION: [Clause<'static>; 1] = [Clause {
    own: &[
        EntryType::Book,
        EntryType::Anthology,
        EntryType::Proceedings,
        EntryType::Reference,
        EntryType::Report,
    ],
    fields: &[],
    parent: Some(&[
        EntryType::Book,
        EntryType::Anthology,
        EntryType::Periodical,
        EntryType::Reference,
    ]),
    bind: Bind::Parent,
}];

/// The clauses for the collection of a work without a container.
fn collection() -> &'static [Clause<'static>]
    ensures { map spec.clause_view result.now ≡ spec.collection }
{
    &COLLECTION
}

static ORIGINAL: [Clause<'static>; 1] = [Clause {
    own: &[],
    fields: &[],
    parent: Some(&[EntryType::Original]),
    bind: Bind::Parent,
}];

/// The clauses for the work that an entry translates or reprints.
fn original() -> &'static [Clause<'static>]
    ensures { map spec.clause_view result.now ≡ spec.original }
{
    &ORIGINAL
}

static EVENT: [Clause<'static>; 1] = [Clause {
    own: &[],
    fields: &[],
    parent: Some(&[
        EntryType::Exhibition,
        EntryType::Conference,
        EntryType::Misc,
    ]),
    bind: Bind::Parent,
}];

/// The clauses for the event of a work: its first parent of type Exhibition, Conference or Misc.
pub fn event() -> &'static [Clause<'static>]
    ensures { map spec.clause_view result.now ≡ spec.event }
{
    &EVENT
}

static CHAPTER: [Clause<'static>; 4] = [
    Clause {
        own: &[EntryType::Anthos],
        fields: &[],
        parent: Some(&[EntryType::Anthology]),
        bind: Bind::Child,
    },
    Clause {
        own: &[],
        fields: &[],
        parent: Some(&[EntryType::Reference]),
        bind: Bind::Child,
    },
    Clause {
        own: &[EntryType::Article],
        fields: &[],
        parent: Some(&[EntryType::Proceedings]),
        bind: Bind::Child,
    },
    Clause {
        own: &[],
        fields: &[],
        parent: Some(&[EntryType::Book]),
        bind: Bind::Child,
    },
];

/// The clauses for an entry whose volume is a chapter number: a work of type Anthos in an
/// anthology, an article in proceedings, or anything in a work of reference or a book.
pub fn chapter() -> &'static [Clause<'static>]
    ensures { map spec.clause_view result.now ≡ spec.chapter }
{
    &CHAPTER
}

static PART: [Clause<'static>; 1] = [Clause {
    own: &[],
    fields: &[],
    parent: Some(&[
        EntryType::Article,
        EntryType::Blog,
        EntryType::Book,
        EntryType::Legislation,
    ]),
    bind: Bind::Child,
}];

/// The clauses for an entry whose volume is a part number: anything in an article, a blog, a book
/// or a law.
pub fn part() -> &'static [Clause<'static>]
    ensures { map spec.clause_view result.now ≡ spec.part }
{
    &PART
}

static VOLUME_TITLE: [Clause<'static>; 4] = [
    Clause {
        own: &[EntryType::Anthos],
        fields: &[],
        parent: Some(&[EntryType::Anthology]),
        bind: Bind::Parent,
    },
    Clause {
        own: &[EntryType::Entry],
        fields: &[],
        parent: Some(&[]),
        bind: Bind::Parent,
    },
    Clause {
        own: &[],
        fields: &[],
        parent: Some(&[EntryType::Reference]),
        bind: Bind::Parent,
    },
    Clause {
        own: &[EntryType::Article],
        fields: &[],
        parent: Some(&[EntryType::Proceedings]),
        bind: Bind::Parent,
    },
];

/// The clauses for the work whose title is a volume title: the parent of a work of type Anthos in
/// an anthology, of an entry (type Entry) in anything, of anything in a work of reference, or of an
/// article in proceedings.
pub fn volume_title() -> &'static [Clause<'static>]
    ensures { map spec.clause_view result.now ≡ spec.volume_title }
{
    &VOLUME_TITLE
}

static AUDIO_VIDEO: [Clause<'static>; 2] = [
    Clause {
        own: &[],
        fields: &[],
        parent: Some(&[EntryType::Audio, EntryType::Video]),
        bind: Bind::Parent,
    },
    Clause {
        own: &[EntryType::Audio, EntryType::Video],
        fields: &[],
        parent: None,
        bind: Bind::Child,
    },
];

/// The clauses for the recording: the first parent of type Audio or Video, else the entry itself if
/// it is of such a type.
pub fn audio_video() -> &'static [Clause<'static>]
    ensures { map spec.clause_view result.now ≡ spec.audio_video }
{
    &AUDIO_VIDEO
}

/// Whether the type is in the list. An empty list means every type.
fn is_among(entry_type: EntryType, types: &[EntryType]) -> bool
    ensures { result ≡ spec.is_among entry_type types.now }
{
    types.is_empty() || types.contains(&entry_type)
}

impl Entry {
    fn has_field(&self, field: Field) -> bool
        ensures { result ≡ spec.has_field self.now field }
    {
        match field {
            Field::Date => self.date.is_some(),
            Field::Url => self.url.is_some(),
            Field::Issue => self.issue.is_some(),
            Field::Volume => self.volume.is_some(),
        }
    }

    fn has_fields(&self, fields: &[Field]) -> bool
        ensures { result ≡ list_all (spec.has_field self.now) fields.now }
    {
        fields.iter().all(|field| self.has_field(*field))
    }

    /// The first direct parent of one of these types. An empty list means every type.
    fn parent_among(&self, types: &[EntryType]) -> Option<&Entry>
        ensures { option_copied result ≡ spec.parent_among types.now self.now }
    {
        self.parents.iter().find(|p| is_among(p.entry_type, types))
    }
}

impl Clause<'_> {
    /// Whether the entry has one of the types, all the fields, and the parent that is needed, if
    /// any.
    fn fits(&self, entry: &Entry) -> bool
        ensures { result ≡ spec.fits entry.now (spec.clause_view self.now) }
    {
        is_among(entry.entry_type, self.own)
            && entry.has_fields(self.fields)
            && self.has_parent(entry)
    }

    fn has_parent(&self, entry: &Entry) -> bool
        ensures { result ≡ spec.has_parent (spec.clause_view self.now).parent entry.now }
    {
        match self.parent {
            None => true,
            Some(types) => entry.parent_among(types).is_some(),
        }
    }

    /// The selection for an entry that fits the clause.
    fn bound<'e>(&self, entry: &'e Entry) -> Option<&'e Entry>
        ensures { option_copied result
            ≡ spec.bound_by self.now.bind (spec.clause_view self.now).parent entry.now }
    {
        match self.bind {
            Bind::Nothing => None,
            Bind::Child => Some(entry),
            Bind::Parent => entry.parent_among(self.parent?),
        }
    }
}

impl Entry {
    /// Whether some clause fits the entry.
    pub fn matches(&self, clauses: &[Clause<'_>]) -> bool
        ensures { result ≡ spec.matches (map spec.clause_view clauses.now) self.now }
    {
        for clause in clauses {
            if clause.fits(self) {
                return true;
            }
        }
        false
    }

    /// The selection of the first clause that fits the entry: nothing, the entry, or its first
    /// direct parent of one of the clause's parent types.
    pub fn bound_select(&self, clauses: &[Clause<'_>]) -> Option<&Entry>
        ensures { option_copied result
            ≡ spec.bound_select (map spec.clause_view clauses.now) self.now }
    {
        for clause in clauses {
            if clause.fits(self) {
                return clause.bound(self);
            }
        }
        None
    }
}

impl Entry {
    fn is_untitled_part(&self) -> bool
        ensures { result ≡ spec.is_untitled_part self.now }
    {
        (self.entry_type == EntryType::Chapter || self.entry_type == EntryType::Scene)
            && self.title.is_none()
    }

    /// The whole that the entry is a part of. For a chapter or a scene without a title, it is the
    /// whole of the first parent, if there is one. For any other entry, it is the entry itself.
    pub fn get_full(&self) -> &Entry
        ensures { result.now ≡ spec.full_of self.now }
    {
        let mut entry = self;
        loop {
            if !entry.is_untitled_part() {
                return entry;
            }
            match entry.parents.first() {
                None => return entry,
                Some(parent) => entry = parent,
            }
        }
    }

    /// The container of the entry, such as the journal of an article.
    pub fn get_container(&self) -> Option<&Entry>
        ensures { option_copied result ≡ spec.container_of self.now }
    {
        self.bound_select(container())
    }

    /// The collection of the entry: the first parent of its container if it has a container, else
    /// the parent that the clauses for a collection select.
    pub fn get_collection(&self) -> Option<&Entry>
        ensures { option_copied result ≡ spec.collection_of self.now }
    {
        match self.get_container() {
            Some(container) => container.parents.first(),
            None => self.bound_select(collection()),
        }
    }

    /// The work that the entry translates or reprints.
    pub fn get_original(&self) -> Option<&Entry>
        ensures { option_copied result ≡ spec.bound_select spec.original self.now }
    {
        self.bound_select(original())
    }

    /// The entry's own further persons with a role, in order.
    pub fn affiliated_with_role(
        &self,
        alloc: Global,
        role: &PersonRole,
    ) -> Result<Vec<&Person>, Memory>
        ensures { IfOk result (λ v. map (λ p. p.now) v.items
            ≡ with_role (λ r. same_role r role.now) (role_groups self.now)) }
    {
        let mut persons = Vec::new(alloc);
        if let Some(groups) = &self.affiliated {
            for group in groups {
                if group.role == *role {
                    push_all(&mut persons, &group.names)?;
                }
            }
        }
        Ok(persons)
    }
}

fn push_all<'a>(persons: &mut Vec<&'a Person>, more: &'a [Person]) -> Result<(), Memory>
    ensures { OnOk result (map (λ p. p.now) persons.new.items
        ≡ map (λ p. p.now) persons.old.items ++ more.now) }
{
    for person in more {
        persons.push(person)?;
    }
    Ok(())
}
