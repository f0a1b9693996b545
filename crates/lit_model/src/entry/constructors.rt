//! Entries by calls that chain: an entry with a title, then its other common fields one after
//! another. Each call sets one field. The fields that have no such call are set by assignment.
//! Definitions: specs/Entry.antt.

ghost use Rattle.std.specs.Prelude.{◌≡◌, Some, IfOk};
ghost use Rattle.lit_model.specs.declared.entry.Entry.{out-Entry};
ghost use Rattle.lit_model.specs.Entry.{IsTitled};

use crate::date::Date;
use crate::entry::Entry;
use crate::entry_type::EntryType;
use crate::maybe_typed::MaybeTyped;
use crate::numeric::Numeric;
use crate::page::PageRanges;
use crate::person::Person;
use crate::source::{Publisher, QualifiedUrl};
use crate::text::FormatString;
use csl_common::Memory;
use std::alloc::Global;

impl Entry {
    /// An entry with only a key, a type and a title. The title is one text, which a style may
    /// change, without a short form.
    pub fn titled(
        alloc: Global,
        key: &str,
        entry_type: EntryType,
        title: &str,
    ) -> Result<Entry, Memory>
        ensures { IfOk result (IsTitled key.now entry_type title.now) }
    {
        let title = FormatString::plain(alloc, title)?;
        let mut entry = Entry::new(alloc, key, entry_type)?;
        entry.title = Some(title);
        Ok(entry)
    }

    /// The entry with these authors, in this order.
    pub fn with_authors(mut self, authors: Vec<Person>) -> Entry
        ensures { out-Entry result ≡ record (out-Entry self) { authors = Some authors } }
    {
        self.authors = Some(authors);
        self
    }

    /// The entry with these editors, in this order.
    pub fn with_editors(mut self, editors: Vec<Person>) -> Entry
        ensures { out-Entry result ≡ record (out-Entry self) { editors = Some editors } }
    {
        self.editors = Some(editors);
        self
    }

    /// The entry with this date of publication.
    pub fn with_date(mut self, date: Date) -> Entry
        ensures { out-Entry result ≡ record (out-Entry self) { date = Some date } }
    {
        self.date = Some(date);
        self
    }

    /// The entry with this address.
    pub fn with_url(mut self, url: QualifiedUrl) -> Entry
        ensures { out-Entry result ≡ record (out-Entry self) { url = Some url } }
    {
        self.url = Some(url);
        self
    }

    /// The entry with this publisher.
    pub fn with_publisher(mut self, publisher: Publisher) -> Entry
        ensures { out-Entry result ≡ record (out-Entry self) { publisher = Some publisher } }
    {
        self.publisher = Some(publisher);
        self
    }

    /// The entry with this issue.
    pub fn with_issue(mut self, issue: MaybeTyped<Numeric>) -> Entry
        ensures { out-Entry result ≡ record (out-Entry self) { issue = Some issue } }
    {
        self.issue = Some(issue);
        self
    }

    /// The entry with this volume.
    pub fn with_volume(mut self, volume: MaybeTyped<Numeric>) -> Entry
        ensures { out-Entry result ≡ record (out-Entry self) { volume = Some volume } }
    {
        self.volume = Some(volume);
        self
    }

    /// The entry with these pages.
    pub fn with_page_range(mut self, page_range: MaybeTyped<PageRanges>) -> Entry
        ensures { out-Entry result ≡ record (out-Entry self) { page_range = Some page_range } }
    {
        self.page_range = Some(page_range);
        self
    }

    /// The entry with this number of pages.
    pub fn with_page_total(mut self, page_total: Numeric) -> Entry
        ensures { out-Entry result ≡ record (out-Entry self) { page_total = Some page_total } }
    {
        self.page_total = Some(page_total);
        self
    }

    /// The entry as a part of these works, in this order.
    pub fn with_parents(mut self, parents: Vec<Entry>) -> Entry
        ensures { out-Entry result ≡ record (out-Entry self) { parents = parents } }
    {
        self.parents = parents;
        self
    }
}
