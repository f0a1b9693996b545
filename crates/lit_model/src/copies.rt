//! Copies of entries.
//! Definitions: specs/Work.antt, specs/Source.antt, specs/Person.antt.

ghost use Rattle.std.specs.Prelude.{◌≡◌, ◌∷◌, ◌++◌, [], map, option_map, IfOk, OnOk};
ghost use Rattle.lit_model.specs.Entry.{parents_of};
ghost use Rattle.lit_model.specs.MaybeTyped.{maybe_view};
ghost use Rattle.lit_model.specs.Numeric.{numeric_view};
ghost use Rattle.lit_model.specs.Page.{pages_view};
ghost use Rattle.lit_model.specs.Person.{person_view, role_group};
ghost use Rattle.lit_model.specs.Source.{press_of, address_of, serials, language_of};
ghost use Rattle.lit_model.specs.Work.{own_of, works};

use crate::entry::Entry;
use crate::maybe_typed::MaybeTyped;
use crate::numeric::Numeric;
use crate::page::PageRanges;
use crate::person::{Person, PersonsWithRoles, copy_groups, copy_persons};
use crate::source::{LanguageIdentifier, Publisher, QualifiedUrl, SerialNumber};
use crate::text::copy_forms;
use csl_common::Memory;
use std::alloc::Global;

impl Entry {
    /// A copy, with copies of its parents.
    pub fn clone(&self, alloc: Global) -> Result<Entry, Memory>
        ensures { IfOk result (λ e. works e ≡ works self.now) }
    {
        let parents = self.copy_parents(alloc)?;
        let copy = self.copy_with_parents(parents, alloc)?;
        Ok(copy)
    }

    /// Copies of the parents. It recurses as deep as they are nested, so it keeps no copy in its
    /// own stack frame: [`Entry::push_copy`] builds each one.
    fn copy_parents(&self, alloc: Global) -> Result<Vec<Entry>, Memory>
        ensures { IfOk result
            (λ copies. map works copies.items ≡ map works (parents_of self.now)) }
    {
        let mut copies = Vec::with_capacity(alloc, self.parents.len())?;
        for parent in &self.parents {
            let above = parent.copy_parents(alloc)?;
            parent.push_copy(alloc, above, &mut copies)?;
        }
        Ok(copies)
    }

    /// Appends a copy of the entry to `copies`, given the copies of its parents.
    #[inline(never)]
    fn push_copy(
        &self,
        alloc: Global,
        above: Vec<Entry>,
        copies: &mut Vec<Entry>,
    ) -> Result<(), Memory>
        requires parents { map works above.items ≡ map works (parents_of self.now) }
        ensures ok { OnOk result
            (map works copies.new.items ≡ map works copies.old.items ++ works self.now ∷ []) }
    {
        let copy = self.copy_with_parents(above, alloc)?;
        copies.push(copy)?;
        Ok(())
    }

    /// A copy of the entry's own fields, with the given parents.
    fn copy_with_parents(&self, parents: Vec<Entry>, alloc: Global) -> Result<Entry, Memory>
        ensures own { IfOk result (λ e. own_of e ≡ own_of self.now) }
        ensures parents { IfOk result (λ e. parents_of e ≡ parents.items) }
    {
        let key = String::from_str(alloc, self.key.as_str())?;
        let title = copy_forms(&self.title, alloc)?;
        let authors = copy_creators(&self.authors, alloc)?;
        let editors = copy_creators(&self.editors, alloc)?;
        let url = copy_url(&self.url, alloc)?;
        let affiliated = copy_affiliated(&self.affiliated, alloc)?;
        let publisher = copy_publisher(&self.publisher, alloc)?;
        let location = copy_forms(&self.location, alloc)?;
        let organization = copy_forms(&self.organization, alloc)?;
        let issue = copy_number(&self.issue, alloc)?;
        let volume = copy_number(&self.volume, alloc)?;
        let edition = copy_number(&self.edition, alloc)?;
        let chapter = copy_number(&self.chapter, alloc)?;
        let volume_total = copy_total(&self.volume_total, alloc)?;
        let page_total = copy_total(&self.page_total, alloc)?;
        let page_range = copy_pages(&self.page_range, alloc)?;
        let runtime = copy_forms(&self.runtime, alloc)?;
        let serial_number = copy_serial(&self.serial_number, alloc)?;
        let language = copy_language(&self.language, alloc)?;
        let archive = copy_forms(&self.archive, alloc)?;
        let archive_location = copy_forms(&self.archive_location, alloc)?;
        let call_number = copy_forms(&self.call_number, alloc)?;
        let note = copy_forms(&self.note, alloc)?;
        let abstract_ = copy_forms(&self.abstract_, alloc)?;
        let genre = copy_forms(&self.genre, alloc)?;
        Ok(Entry {
            key,
            entry_type: self.entry_type,
            title,
            authors,
            editors,
            date: self.date,
            url,
            affiliated,
            publisher,
            location,
            organization,
            issue,
            volume,
            edition,
            chapter,
            volume_total,
            page_total,
            page_range,
            runtime,
            serial_number,
            language,
            archive,
            archive_location,
            call_number,
            note,
            abstract_,
            genre,
            parents,
        })
    }
}

fn copy_creators(value: &Option<Vec<Person>>, alloc: Global) -> Result<Option<Vec<Person>>, Memory>
    ensures { IfOk result (λ copy. option_map (λ v. map person_view v.items) copy
        ≡ option_map (λ v. map person_view v.items) value.now) }
{
    match value {
        None => Ok(None),
        Some(value) => {
            let copy = copy_persons(value, alloc)?;
            Ok(Some(copy))
        }
    }
}

fn copy_affiliated(
    value: &Option<Vec<PersonsWithRoles>>,
    alloc: Global,
) -> Result<Option<Vec<PersonsWithRoles>>, Memory>
    ensures { IfOk result (λ copy. option_map (λ v. map role_group v.items) copy
        ≡ option_map (λ v. map role_group v.items) value.now) }
{
    match value {
        None => Ok(None),
        Some(value) => {
            let copy = copy_groups(value, alloc)?;
            Ok(Some(copy))
        }
    }
}

fn copy_url(value: &Option<QualifiedUrl>, alloc: Global) -> Result<Option<QualifiedUrl>, Memory>
    ensures { IfOk result (λ copy. option_map address_of copy ≡ option_map address_of value.now) }
{
    match value {
        None => Ok(None),
        Some(value) => {
            let copy = value.clone(alloc)?;
            Ok(Some(copy))
        }
    }
}

fn copy_publisher(value: &Option<Publisher>, alloc: Global) -> Result<Option<Publisher>, Memory>
    ensures { IfOk result (λ copy. option_map press_of copy ≡ option_map press_of value.now) }
{
    match value {
        None => Ok(None),
        Some(value) => {
            let copy = value.clone(alloc)?;
            Ok(Some(copy))
        }
    }
}

fn copy_number(
    value: &Option<MaybeTyped<Numeric>>,
    alloc: Global,
) -> Result<Option<MaybeTyped<Numeric>>, Memory>
    ensures { IfOk result (λ copy. option_map (maybe_view numeric_view) copy
        ≡ option_map (maybe_view numeric_view) value.now) }
{
    match value {
        None => Ok(None),
        Some(value) => {
            let copy = value.clone(alloc)?;
            Ok(Some(copy))
        }
    }
}

fn copy_total(value: &Option<Numeric>, alloc: Global) -> Result<Option<Numeric>, Memory>
    ensures { IfOk result (λ copy. option_map numeric_view copy
        ≡ option_map numeric_view value.now) }
{
    match value {
        None => Ok(None),
        Some(value) => {
            let copy = value.clone(alloc)?;
            Ok(Some(copy))
        }
    }
}

fn copy_pages(
    value: &Option<MaybeTyped<PageRanges>>,
    alloc: Global,
) -> Result<Option<MaybeTyped<PageRanges>>, Memory>
    ensures { IfOk result (λ copy. option_map (maybe_view pages_view) copy
        ≡ option_map (maybe_view pages_view) value.now) }
{
    match value {
        None => Ok(None),
        Some(value) => {
            let copy = value.clone(alloc)?;
            Ok(Some(copy))
        }
    }
}

fn copy_serial(value: &Option<SerialNumber>, alloc: Global) -> Result<Option<SerialNumber>, Memory>
    ensures { IfOk result (λ copy. option_map serials copy ≡ option_map serials value.now) }
{
    match value {
        None => Ok(None),
        Some(value) => {
            let copy = value.clone(alloc)?;
            Ok(Some(copy))
        }
    }
}

fn copy_language(
    value: &Option<LanguageIdentifier>,
    alloc: Global,
) -> Result<Option<LanguageIdentifier>, Memory>
    ensures { IfOk result (λ copy. option_map language_of copy ≡ option_map language_of value.now) }
{
    match value {
        None => Ok(None),
        Some(value) => {
            let copy = value.clone(alloc)?;
            Ok(Some(copy))
        }
    }
}
