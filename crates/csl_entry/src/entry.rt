//! The answers of an `Entry` (CSL 1.0.2, Appendix III: Types; Appendix IV: Variables).

ghost use Rattle.csl_entry.specs.Entry.{answers_of, key_of};
ghost use Rattle.csl_entry.specs.Language.{english_of};

pub(crate) mod chunk;
mod date;
mod kind;
pub(crate) mod language;
pub(crate) mod name;
pub(crate) mod number;
pub(crate) mod numeric_text;
mod page;
mod standard;

use crate::lent_text::LentText;
use crate::taxonomy::EntryLike;
use csl_elements::{
    DateVariable, Kind, NameVariable, NumberVariable, PageVariable, StandardVariable,
};
pub(crate) use date::visit_date;
pub use kind::{legislation_kind, recording_kind};
pub use language::csl_language;
use lit_model::{
    ChunkedString, Date, Entry, LongShortForm, MaybeTyped, Memory, Numeric, PageRanges, Person,
};
use std::alloc::Global;
use std::borrow::{Cow, CowStr};

impl EntryLike for Entry {
    ghost answers = { answers_of };

    ghost key_text = { key_of };

    ghost english = { english_of };

    fn resolve_number_variable(
        &self,
        alloc: Global,
        variable: NumberVariable,
    ) -> Result<Option<MaybeTyped<Cow<'_, Numeric>>>, Memory> {
        number::number_variable(alloc, self, variable)
    }

    fn resolve_page_variable(
        &self,
        alloc: Global,
        variable: PageVariable,
    ) -> Result<Option<MaybeTyped<PageRanges>>, Memory> {
        page::page_variable(alloc, self, variable)
    }

    fn lend_pages(
        &self,
        _alloc: Global,
        variable: PageVariable,
    ) -> Result<Option<Cow<'_, MaybeTyped<PageRanges>>>, Memory> {
        Ok(page::lent_pages(self, variable))
    }

    fn resolve_standard_variable(
        &self,
        alloc: Global,
        form: LongShortForm,
        variable: StandardVariable,
    ) -> Result<Option<Cow<'_, ChunkedString>>, Memory> {
        standard::standard_variable(alloc, self, form, variable)
    }

    fn lend_text(
        &self,
        alloc: Global,
        form: LongShortForm,
        variable: StandardVariable,
    ) -> Result<Option<LentText<'_>>, Memory> {
        standard::lent_text(alloc, self, form, variable)
    }

    fn resolve_name_variable(
        &self,
        alloc: Global,
        variable: NameVariable,
    ) -> Result<Vec<Cow<'_, Person>>, Memory> {
        name::name_variable(alloc, self, variable)
    }

    fn has_persons(&self, alloc: Global, variable: NameVariable) -> Result<bool, Memory> {
        name::has_persons(alloc, self, variable)
    }

    fn resolve_date_variable(
        &self,
        _alloc: Global,
        variable: DateVariable,
    ) -> Result<Option<Cow<'_, Date>>, Memory> {
        Ok(date::date_variable(self, variable))
    }

    fn matches_entry_type(&self, kind: Kind) -> bool {
        kind::is_of_kind(self, kind)
    }

    fn is_english(&self) -> Option<bool> {
        language::is_english(self)
    }

    fn key(&self) -> CowStr<'_, Global> {
        CowStr::Borrowed(Entry::key(self))
    }
}
