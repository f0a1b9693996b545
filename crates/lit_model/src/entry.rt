//! Entries.

ghost use Rattle.std.specs.Prelude.{◌≡◌, Option, option_copied, option_map, string_bytes, codes, IfOk};
ghost use Rattle.lit_model.specs.declared.entry.Entry.{Entry, out-Entry};
ghost use Rattle.lit_model.specs.Entry.{parents_of, preorder, AnswersBy, IsBare, own_serial};
ghost use Rattle.csl_common.specs.Lists.{first_some};

use crate::date::Date;
use crate::entry_type::EntryType;
use crate::maybe_typed::MaybeTyped;
use crate::numeric::Numeric;
use crate::page::PageRanges;
use crate::person::{Person, PersonsWithRoles};
use crate::source::{LanguageIdentifier, Publisher, QualifiedUrl, SerialNumber};
use crate::text::FormatString;
use csl_common::Memory;
use std::alloc::Global;

mod constructors;
mod serial_numbers;

/// A work, with the works that it is a part of.
///
/// An entry has a `drop` of its own, so no field can be moved out of it, and no `..` takes the rest
/// of a new entry from it. Set its fields one by one, or by calls that chain, as
/// [`Entry::with_authors`].
#[derive(PartialEq, Eq)]
pub struct Entry {
    /// The key that citations use.
    pub key: String,
    /// The type of the work.
    pub entry_type: EntryType,
    /// The title.
    pub title: Option<FormatString>,
    /// The authors.
    pub authors: Option<Vec<Person>>,
    /// The editors.
    pub editors: Option<Vec<Person>>,
    /// The date of publication.
    pub date: Option<Date>,
    /// The address where it can be read.
    pub url: Option<QualifiedUrl>,
    /// Further persons, in groups with one role each.
    pub affiliated: Option<Vec<PersonsWithRoles>>,
    /// The publisher.
    pub publisher: Option<Publisher>,
    /// The place where it was made or kept.
    pub location: Option<FormatString>,
    /// The organization responsible for it.
    pub organization: Option<FormatString>,
    /// The issue.
    pub issue: Option<MaybeTyped<Numeric>>,
    /// The volume.
    pub volume: Option<MaybeTyped<Numeric>>,
    /// The edition.
    pub edition: Option<MaybeTyped<Numeric>>,
    /// The chapter.
    pub chapter: Option<MaybeTyped<Numeric>>,
    /// The number of its volumes.
    pub volume_total: Option<Numeric>,
    /// The number of its pages.
    pub page_total: Option<Numeric>,
    /// The pages that it occupies.
    pub page_range: Option<MaybeTyped<PageRanges>>,
    /// The running time.
    pub runtime: Option<FormatString>,
    /// The serial numbers, such as a DOI.
    pub serial_number: Option<SerialNumber>,
    /// The language of the work.
    pub language: Option<LanguageIdentifier>,
    /// The archive that keeps it.
    pub archive: Option<FormatString>,
    /// The place of the archive.
    pub archive_location: Option<FormatString>,
    /// The call number: its place in the archive.
    pub call_number: Option<FormatString>,
    /// A note.
    pub note: Option<FormatString>,
    /// A summary.
    pub abstract_: Option<FormatString>,
    /// The genre.
    pub genre: Option<FormatString>,
    /// The works that it is a part of.
    pub parents: Vec<Entry>,
}

/// Drops the parents, and theirs, in a loop: a long chain of parents takes no stack and no memory.
/// Where entries with several parents need memory and there is none, one list drops by recursion.
impl Drop for Entry {
    #[tactic(auto, using(crate::proofs::Ancestors::lineage_laws))]
    fn drop(self) {
        let mut remaining = self.into_parents();
        while let Some(entry) = remaining.pop() {
            let mut parents = entry.into_parents();
            if remaining.is_empty() {
                remaining = parents;
            } else if remaining.append(&mut parents).is_err() {
                drop(parents);
            }
        }
    }
}

impl Entry {
    /// The parents. Every other field is dropped.
    fn into_parents(self) -> Vec<Entry>
        ensures { result.items ≡ parents_of self }
    {
        let Entry {
            key: _,
            entry_type: _,
            title: _,
            authors: _,
            editors: _,
            date: _,
            url: _,
            affiliated: _,
            publisher: _,
            location: _,
            organization: _,
            issue: _,
            volume: _,
            edition: _,
            chapter: _,
            volume_total: _,
            page_total: _,
            page_range: _,
            runtime: _,
            serial_number: _,
            language: _,
            archive: _,
            archive_location: _,
            call_number: _,
            note: _,
            abstract_: _,
            genre: _,
            parents,
        } = self;
        parents
    }
}

impl Entry {
    /// An entry with only a key and a type.
    pub fn new(alloc: Global, key: &str, entry_type: EntryType) -> Result<Entry, Memory>
        ensures { IfOk result (IsBare key.now entry_type) }
    {
        let key = String::from_str(alloc, key)?;
        Ok(Entry {
            key,
            entry_type,
            title: None,
            authors: None,
            editors: None,
            date: None,
            url: None,
            affiliated: None,
            publisher: None,
            location: None,
            organization: None,
            issue: None,
            volume: None,
            edition: None,
            chapter: None,
            volume_total: None,
            page_total: None,
            page_range: None,
            runtime: None,
            serial_number: None,
            language: None,
            archive: None,
            archive_location: None,
            call_number: None,
            note: None,
            abstract_: None,
            genre: None,
            parents: Vec::new(alloc),
        })
    }

    /// The key that citations use for the entry.
    pub fn key(&self) -> &str
        ensures { result.now ≡ string_bytes (out-Entry self.now).key }
    {
        self.key.as_str()
    }

    /// The type of the work.
    pub fn entry_type(&self) -> EntryType
        ensures { result ≡ (out-Entry self.now).entry_type }
    {
        self.entry_type
    }

    /// The title.
    pub fn title(&self) -> Option<&FormatString>
        ensures { option_copied result ≡ (out-Entry self.now).title }
    {
        self.title.as_ref()
    }

    /// The authors, in order.
    pub fn authors(&self) -> Option<&[Person]>
        ensures { option_copied result ≡ option_map (λ v. v.items) (out-Entry self.now).authors }
    {
        match &self.authors {
            None => None,
            Some(authors) => Some(authors.as_slice()),
        }
    }

    /// The editors, in order.
    pub fn editors(&self) -> Option<&[Person]>
        ensures { option_copied result ≡ option_map (λ v. v.items) (out-Entry self.now).editors }
    {
        match &self.editors {
            None => None,
            Some(editors) => Some(editors.as_slice()),
        }
    }

    /// The date of publication.
    pub fn date(&self) -> Option<&Date>
        ensures { option_copied result ≡ (out-Entry self.now).date }
    {
        self.date.as_ref()
    }

    /// The address where it can be read.
    pub fn url(&self) -> Option<&QualifiedUrl>
        ensures { option_copied result ≡ (out-Entry self.now).url }
    {
        self.url.as_ref()
    }

    /// Further persons, in groups with one role each.
    pub fn affiliated(&self) -> Option<&[PersonsWithRoles]>
        ensures { option_copied result ≡ option_map (λ v. v.items) (out-Entry self.now).affiliated }
    {
        match &self.affiliated {
            None => None,
            Some(affiliated) => Some(affiliated.as_slice()),
        }
    }

    /// The publisher.
    pub fn publisher(&self) -> Option<&Publisher>
        ensures { option_copied result ≡ (out-Entry self.now).publisher }
    {
        self.publisher.as_ref()
    }

    /// The place where it was made or kept.
    pub fn location(&self) -> Option<&FormatString>
        ensures { option_copied result ≡ (out-Entry self.now).location }
    {
        self.location.as_ref()
    }

    /// The organization responsible for it.
    pub fn organization(&self) -> Option<&FormatString>
        ensures { option_copied result ≡ (out-Entry self.now).organization }
    {
        self.organization.as_ref()
    }

    /// The issue.
    pub fn issue(&self) -> Option<&MaybeTyped<Numeric>>
        ensures { option_copied result ≡ (out-Entry self.now).issue }
    {
        self.issue.as_ref()
    }

    /// The volume.
    pub fn volume(&self) -> Option<&MaybeTyped<Numeric>>
        ensures { option_copied result ≡ (out-Entry self.now).volume }
    {
        self.volume.as_ref()
    }

    /// The edition.
    pub fn edition(&self) -> Option<&MaybeTyped<Numeric>>
        ensures { option_copied result ≡ (out-Entry self.now).edition }
    {
        self.edition.as_ref()
    }

    /// The chapter.
    pub fn chapter(&self) -> Option<&MaybeTyped<Numeric>>
        ensures { option_copied result ≡ (out-Entry self.now).chapter }
    {
        self.chapter.as_ref()
    }

    /// The number of its volumes.
    pub fn volume_total(&self) -> Option<&Numeric>
        ensures { option_copied result ≡ (out-Entry self.now).volume_total }
    {
        self.volume_total.as_ref()
    }

    /// The number of its pages.
    pub fn page_total(&self) -> Option<&Numeric>
        ensures { option_copied result ≡ (out-Entry self.now).page_total }
    {
        self.page_total.as_ref()
    }

    /// The pages that it occupies.
    pub fn page_range(&self) -> Option<&MaybeTyped<PageRanges>>
        ensures { option_copied result ≡ (out-Entry self.now).page_range }
    {
        self.page_range.as_ref()
    }

    /// The running time.
    pub fn runtime(&self) -> Option<&FormatString>
        ensures { option_copied result ≡ (out-Entry self.now).runtime }
    {
        self.runtime.as_ref()
    }

    /// The serial numbers, such as a DOI.
    pub fn serial_number(&self) -> Option<&SerialNumber>
        ensures { option_copied result ≡ (out-Entry self.now).serial_number }
    {
        self.serial_number.as_ref()
    }

    /// The language of the work.
    pub fn language(&self) -> Option<&LanguageIdentifier>
        ensures { option_copied result ≡ (out-Entry self.now).language }
    {
        self.language.as_ref()
    }

    /// The archive that keeps it.
    pub fn archive(&self) -> Option<&FormatString>
        ensures { option_copied result ≡ (out-Entry self.now).archive }
    {
        self.archive.as_ref()
    }

    /// The place of the archive.
    pub fn archive_location(&self) -> Option<&FormatString>
        ensures { option_copied result ≡ (out-Entry self.now).archive_location }
    {
        self.archive_location.as_ref()
    }

    /// The call number: its place in the archive.
    pub fn call_number(&self) -> Option<&FormatString>
        ensures { option_copied result ≡ (out-Entry self.now).call_number }
    {
        self.call_number.as_ref()
    }

    /// A note.
    pub fn note(&self) -> Option<&FormatString>
        ensures { option_copied result ≡ (out-Entry self.now).note }
    {
        self.note.as_ref()
    }

    /// A summary.
    pub fn abstract_(&self) -> Option<&FormatString>
        ensures { option_copied result ≡ (out-Entry self.now).abstract_ }
    {
        self.abstract_.as_ref()
    }

    /// The genre.
    pub fn genre(&self) -> Option<&FormatString>
        ensures { option_copied result ≡ (out-Entry self.now).genre }
    {
        self.genre.as_ref()
    }

    /// The entry's own number under the name of a scheme, if there is one.
    pub fn keyed_serial_number(&self, scheme: &str) -> Option<&str>
        ensures { option_copied result ≡ own_serial scheme.now self.now }
    {
        match &self.serial_number {
            None => None,
            Some(serial_number) => serial_number.get(scheme),
        }
    }

    /// The digital object identifier.
    pub fn doi(&self) -> Option<&str>
        ensures { option_copied result ≡ own_serial (codes "doi") self.now }
    {
        self.keyed_serial_number("doi")
    }

    /// The international standard book number.
    pub fn isbn(&self) -> Option<&str>
        ensures { option_copied result ≡ own_serial (codes "isbn") self.now }
    {
        self.keyed_serial_number("isbn")
    }

    /// The international standard serial number.
    pub fn issn(&self) -> Option<&str>
        ensures { option_copied result ≡ own_serial (codes "issn") self.now }
    {
        self.keyed_serial_number("issn")
    }

    /// The number in PubMed.
    pub fn pmid(&self) -> Option<&str>
        ensures { option_copied result ≡ own_serial (codes "pmid") self.now }
    {
        self.keyed_serial_number("pmid")
    }

    /// The number in PubMed Central.
    pub fn pmcid(&self) -> Option<&str>
        ensures { option_copied result ≡ own_serial (codes "pmcid") self.now }
    {
        self.keyed_serial_number("pmcid")
    }

    /// The works that it is a part of, in order.
    pub fn parents(&self) -> &[Entry]
        ensures { result.now ≡ parents_of self.now }
    {
        self.parents.as_slice()
    }
}

impl Entry {
    /// Returns the first value that `f` returns for the entry and its parents, in preorder. So a
    /// parent's own parents come before the next parent.
    ///
    /// The result is specified only for an `f` that depends on the entry alone.
    pub fn map<'a, X, F: Fn(&Entry) -> Option<&X>>(&'a self, f: F) -> Option<&'a X>
        requires { F.IsAlwaysCallable f }
        ensures { (g : Entry → Option X) → AnswersBy (F.post f) g
            → option_copied result ≡ first_some g (preorder self.now) }
    {
        self.first(&f)
    }

    fn first<'a, X, F: Fn(&Entry) -> Option<&X>>(&'a self, f: &F) -> Option<&'a X>
        requires { F.IsAlwaysCallable f.now }
        ensures { (g : Entry → Option X) → AnswersBy (F.post f.now) g
            → option_copied result ≡ first_some g (preorder self.now) }
    {
        if let Some(found) = f(self) {
            return Some(found);
        }
        for parent in &self.parents {
            if let Some(found) = parent.first(f) {
                return Some(found);
            }
        }
        None
    }

    /// The first date of the entry and its parents, in the order of [`Entry::map`].
    pub fn date_any(&self) -> Option<&Date>
        ensures { option_copied result ≡ first_some (λ e. (out-Entry e).date) (preorder self.now) }
    {
        self.map(|entry| entry.date.as_ref())
    }

    /// The first address of the entry and its parents, in the order of [`Entry::map`].
    pub fn url_any(&self) -> Option<&QualifiedUrl>
        ensures { option_copied result ≡ first_some (λ e. (out-Entry e).url) (preorder self.now) }
    {
        self.map(|entry| entry.url.as_ref())
    }
}
