//! The trait for entries: their answers to a style (CSL 1.0.2, Appendix III: Types; Appendix IV:
//! Variables).
//! Definitions: specs/Answers.antt.

use crate::lent_text::LentText;
use csl_elements::{
    DateVariable, Kind, NameVariable, NumberVariable, PageVariable, StandardVariable,
};
use lit_model::{
    ChunkedString, Date, LongShortForm, MaybeTyped, Memory, Numeric, PageRanges, Person,
};
use std::alloc::Global;
use std::borrow::{Cow, CowStr};

/// An entry that a style can be rendered for. Each answer is a function of the value, which the
/// ghost member `answers` defines. The key and the language are not among the answers, and no
/// rendering asks for them.
pub trait EntryLike {
    ghost use Rattle.std.specs.Prelude.{◌≡◌, ◌==◌, ℕ, Bool, not, List, length, Option, IfOk, map, option_map};
    ghost use Rattle.std.specs.Cow.{cow_str_bytes};
    ghost use Rattle.csl_entry.specs.Answers.{Answers, cow_view};
    ghost use Rattle.csl_entry.specs.LentText.{lent_chunks};
    ghost use Rattle.lit_model.specs.Date.{date_view};
    ghost use Rattle.lit_model.specs.MaybeTyped.{maybe_view};
    ghost use Rattle.lit_model.specs.Numeric.{numeric_view};
    ghost use Rattle.lit_model.specs.Page.{pages_view};
    ghost use Rattle.lit_model.specs.Person.{person_view};
    ghost use Rattle.lit_model.specs.Text.{chunks};

    ghost answers: { Self → Answers };

    ghost key_text: { Self → List ℕ };

    ghost english: { Self → Option Bool };

    /// Returns the number, or the text if it is not a number (CSL 1.0.2, Number Variables).
    fn resolve_number_variable(
        &self,
        alloc: Global,
        variable: NumberVariable,
    ) -> Result<Option<MaybeTyped<Cow<'_, Numeric>>>, Memory>
        ensures { IfOk result (λ found. option_map (maybe_view (cow_view numeric_view)) found
            ≡ (answers self.now).numbers variable) };

    /// Returns the pages, or the text if it is not pages.
    fn resolve_page_variable(
        &self,
        alloc: Global,
        variable: PageVariable,
    ) -> Result<Option<MaybeTyped<PageRanges>>, Memory>
        ensures { IfOk result (λ found. option_map (maybe_view pages_view) found
            ≡ (answers self.now).pages variable) };

    /// Returns the same as [`EntryLike::resolve_page_variable`], lent if the entry holds it.
    /// Labels, tests and dry runs ask this. By default it is the answer of that call, owned.
    fn lend_pages(
        &self,
        alloc: Global,
        variable: PageVariable,
    ) -> Result<Option<Cow<'_, MaybeTyped<PageRanges>>>, Memory>
        ensures { IfOk result (λ found. option_map (cow_view (maybe_view pages_view)) found
            ≡ (answers self.now).pages variable) }
    {
        match self.resolve_page_variable(alloc, variable)? {
            Some(pages) => Ok(Some(Cow::Owned(pages))),
            None => Ok(None),
        }
    }

    /// Returns the text in the requested form (CSL 1.0.2, Standard Variables).
    fn resolve_standard_variable(
        &self,
        alloc: Global,
        form: LongShortForm,
        variable: StandardVariable,
    ) -> Result<Option<Cow<'_, ChunkedString>>, Memory>
        ensures { IfOk result (λ found. option_map (cow_view chunks) found
            ≡ (answers self.now).standards form variable) };

    /// Returns the same as [`EntryLike::resolve_standard_variable`], lent if the entry holds it.
    /// Tests and dry runs ask this. By default it is the answer of that call.
    fn lend_text(
        &self,
        alloc: Global,
        form: LongShortForm,
        variable: StandardVariable,
    ) -> Result<Option<LentText<'_>>, Memory>
        ensures { IfOk result (λ found. option_map lent_chunks found
            ≡ (answers self.now).standards form variable) }
    {
        match self.resolve_standard_variable(alloc, form, variable)? {
            Some(text) => Ok(Some(LentText::Chunks(text))),
            None => Ok(None),
        }
    }

    /// Returns the persons in order, or an empty list if there are none (CSL 1.0.2, Name
    /// Variables).
    fn resolve_name_variable(
        &self,
        alloc: Global,
        variable: NameVariable,
    ) -> Result<Vec<Cow<'_, Person>>, Memory>
        ensures { IfOk result (λ found. map (cow_view person_view) found.items
            ≡ (answers self.now).names variable) };

    /// Whether [`EntryLike::resolve_name_variable`] returns a person. Tests and dry runs ask this.
    /// By default that call answers it.
    fn has_persons(&self, alloc: Global, variable: NameVariable) -> Result<bool, Memory>
        ensures { IfOk result (λ found. found
            ≡ not (length ((answers self.now).names variable) == 0)) }
    {
        Ok(!self.resolve_name_variable(alloc, variable)?.is_empty())
    }

    /// Returns the date (CSL 1.0.2, Date Variables).
    fn resolve_date_variable(
        &self,
        alloc: Global,
        variable: DateVariable,
    ) -> Result<Option<Cow<'_, Date>>, Memory>
        ensures { IfOk result (λ found. option_map (cow_view date_view) found
            ≡ (answers self.now).dates variable) };

    /// Whether the entry is of this kind (CSL 1.0.2, Types). It may be of several kinds, or of
    /// none.
    fn matches_entry_type(&self, kind: Kind) -> bool
        ensures { result ≡ (answers self.now).kinds kind };

    /// Whether the entry is in English, or `None` if its language is unknown.
    fn is_english(&self) -> Option<bool>
        ensures { result ≡ english self.now };

    /// The key by which the entry is cited.
    fn key(&self) -> CowStr<'_, Global>
        ensures { cow_str_bytes result ≡ key_text self.now };
}
