//! An entry as its answers.
//! Definitions: crates/csl_entry/specs/Snapshot.antt.

ghost use Rattle.std.specs.Prelude.{string_bytes};
ghost use Rattle.csl_entry.specs.Snapshot.{snapshot_answers};

use csl_elements::{
    DateVariable, Kind, NameVariable, NumberVariable, PageVariable, StandardVariable,
};
use csl_entry::{EntryLike, LentText, Snapshot};
use lit_model::{
    ChunkedString, Date, LongShortForm, MaybeTyped, Memory, Numeric, PageRanges, Person,
};
use std::alloc::Global;
use std::borrow::{Cow, CowStr};

/// An entry as its answers, its language and its key.
#[derive(Drop)]
pub struct WireEntry {
    /// What it answers to variables and types.
    pub answers: Snapshot,
    /// Whether it is in English, if that is known.
    pub english: Option<bool>,
    /// The key by which it is cited.
    pub key: String,
}

impl EntryLike for WireEntry {
    ghost answers = { λ e. snapshot_answers e.answers };

    ghost key_text = { λ e. string_bytes e.key };

    ghost english = { λ e. e.english };

    fn resolve_number_variable(
        &self,
        alloc: Global,
        variable: NumberVariable,
    ) -> Result<Option<MaybeTyped<Cow<'_, Numeric>>>, Memory> {
        self.answers.resolve_number_variable(alloc, variable)
    }

    fn resolve_page_variable(
        &self,
        alloc: Global,
        variable: PageVariable,
    ) -> Result<Option<MaybeTyped<PageRanges>>, Memory> {
        self.answers.resolve_page_variable(alloc, variable)
    }

    fn lend_pages(
        &self,
        alloc: Global,
        variable: PageVariable,
    ) -> Result<Option<Cow<'_, MaybeTyped<PageRanges>>>, Memory> {
        self.answers.lend_pages(alloc, variable)
    }

    fn resolve_standard_variable(
        &self,
        alloc: Global,
        form: LongShortForm,
        variable: StandardVariable,
    ) -> Result<Option<Cow<'_, ChunkedString>>, Memory> {
        self.answers
            .resolve_standard_variable(alloc, form, variable)
    }

    fn lend_text(
        &self,
        alloc: Global,
        form: LongShortForm,
        variable: StandardVariable,
    ) -> Result<Option<LentText<'_>>, Memory> {
        self.answers.lend_text(alloc, form, variable)
    }

    fn resolve_name_variable(
        &self,
        alloc: Global,
        variable: NameVariable,
    ) -> Result<Vec<Cow<'_, Person>>, Memory> {
        self.answers.resolve_name_variable(alloc, variable)
    }

    fn has_persons(&self, alloc: Global, variable: NameVariable) -> Result<bool, Memory> {
        self.answers.has_persons(alloc, variable)
    }

    fn resolve_date_variable(
        &self,
        alloc: Global,
        variable: DateVariable,
    ) -> Result<Option<Cow<'_, Date>>, Memory> {
        self.answers.resolve_date_variable(alloc, variable)
    }

    fn matches_entry_type(&self, kind: Kind) -> bool {
        self.answers.matches_entry_type(kind)
    }

    fn is_english(&self) -> Option<bool> {
        self.english
    }

    fn key(&self) -> CowStr<'_, Global> {
        CowStr::Borrowed(self.key.as_str())
    }
}
