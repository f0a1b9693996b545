//! A kept work, lent to a list.
//! Definitions: crates/csl_entry/specs/Snapshot.antt.

ghost use Rattle.std.specs.Prelude.{string_bytes};
ghost use Rattle.csl_entry.specs.Snapshot.{snapshot_answers};

use csl_elements::{
    DateVariable, Kind, NameVariable, NumberVariable, PageVariable, StandardVariable,
};
use csl_entry::{EntryLike, LentText};
use csl_wire_cite::WireEntry;
use lit_model::{
    ChunkedString, Date, LongShortForm, MaybeTyped, Memory, Numeric, PageRanges, Person,
};
use std::alloc::Global;
use std::borrow::{Cow, CowStr};

/// A kept work, lent.
#[derive(Clone, Copy)]
pub(crate) struct LentWork<'k> {
    pub(crate) work: &'k WireEntry,
}

impl EntryLike for LentWork<'_> {
    ghost answers = { λ lent. snapshot_answers lent.work.now.answers };

    ghost key_text = { λ lent. string_bytes lent.work.now.key };

    ghost english = { λ lent. lent.work.now.english };

    fn resolve_number_variable(
        &self,
        alloc: Global,
        variable: NumberVariable,
    ) -> Result<Option<MaybeTyped<Cow<'_, Numeric>>>, Memory> {
        self.work.resolve_number_variable(alloc, variable)
    }

    fn resolve_page_variable(
        &self,
        alloc: Global,
        variable: PageVariable,
    ) -> Result<Option<MaybeTyped<PageRanges>>, Memory> {
        self.work.resolve_page_variable(alloc, variable)
    }

    fn lend_pages(
        &self,
        alloc: Global,
        variable: PageVariable,
    ) -> Result<Option<Cow<'_, MaybeTyped<PageRanges>>>, Memory> {
        self.work.lend_pages(alloc, variable)
    }

    fn resolve_standard_variable(
        &self,
        alloc: Global,
        form: LongShortForm,
        variable: StandardVariable,
    ) -> Result<Option<Cow<'_, ChunkedString>>, Memory> {
        self.work.resolve_standard_variable(alloc, form, variable)
    }

    fn lend_text(
        &self,
        alloc: Global,
        form: LongShortForm,
        variable: StandardVariable,
    ) -> Result<Option<LentText<'_>>, Memory> {
        self.work.lend_text(alloc, form, variable)
    }

    fn resolve_name_variable(
        &self,
        alloc: Global,
        variable: NameVariable,
    ) -> Result<Vec<Cow<'_, Person>>, Memory> {
        self.work.resolve_name_variable(alloc, variable)
    }

    fn has_persons(&self, alloc: Global, variable: NameVariable) -> Result<bool, Memory> {
        self.work.has_persons(alloc, variable)
    }

    fn resolve_date_variable(
        &self,
        alloc: Global,
        variable: DateVariable,
    ) -> Result<Option<Cow<'_, Date>>, Memory> {
        self.work.resolve_date_variable(alloc, variable)
    }

    fn matches_entry_type(&self, kind: Kind) -> bool {
        self.work.matches_entry_type(kind)
    }

    fn is_english(&self) -> Option<bool> {
        self.work.is_english()
    }

    fn key(&self) -> CowStr<'_, Global> {
        self.work.key()
    }
}
