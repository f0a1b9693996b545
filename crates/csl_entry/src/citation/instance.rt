//! A cite with its entry, and its answers to a style.

ghost use Rattle.std.specs.Prelude.{◌≡◌, ◌==◌, not, map, length, IfOk, option_map};
ghost use Rattle.lit_model.specs.Date.{date_view};
ghost use Rattle.lit_model.specs.MaybeTyped.{maybe_view};
ghost use Rattle.lit_model.specs.Page.{pages_view};
ghost use Rattle.lit_model.specs.Person.{person_view};
ghost use Rattle.lit_model.specs.Text.{chunks};
ghost use Rattle.csl_entry.specs.Answers.{cow_view};
ghost use Rattle.csl_entry.specs.Cite.{disambiguation_of, payload_of};
ghost use Rattle.csl_entry.specs.Instance as spec;
ghost use Rattle.csl_entry.specs.LentText.{lent_chunks};
ghost use Rattle.csl_entry.specs.NumberResult.{result_view, number_or_page_view};
ghost use Rattle.csl_entry.specs.Numbers.{IsNoteNumber};

use crate::citation::cite::{
    CiteProperties, DisambiguateState, LocatorPayload, Sorting, SpecialForm,
};
use crate::citation::letters::letter;
use crate::entry::chunk::one_chunk;
use crate::entry::numeric_text::numeric_or_text;
use crate::lent_text::LentText;
use crate::number_result::{NumberOrPageVariableResult, NumberVariableResult, PageVariableResult};
use crate::taxonomy::EntryLike;
use csl_elements::{
    DateVariable, NameVariable, NumberOrPageVariable, NumberVariable, PageVariable,
    StandardVariable,
};
use lit_model::{
    ChunkKind, ChunkedString, Date, LongShortForm, MaybeTyped, Memory, Numeric, Person,
};
use std::alloc::{AllocError, Global};
use std::borrow::Cow;

/// A cite: its entry, and its properties in the citation.
pub struct InstanceContext<'s, T> {
    /// The entry that is cited.
    pub entry: &'s T,
    /// The properties of the cite in its citation.
    pub cite_props: &'s CiteProperties<'s>,
    /// The source of the sort key, if the cite is rendered to be sorted.
    pub sorting: Option<Sorting>,
    /// The special form of the cite, if only a part of it is rendered.
    pub kind: Option<SpecialForm>,
}

impl<'s, T> Clone for InstanceContext<'s, T> {
    ghost use Rattle.std.specs.Prelude.{◌≡◌, ⊤};

    ghost is_clone = { λ instance copy. copy ≡ instance };

    ghost is_infallible = { λ _. ⊤ };

    fn clone(&self) -> Result<Self, AllocError> {
        Ok(*self)
    }
}

impl<'s, T> Copy for InstanceContext<'s, T> {}

impl<'s, T: EntryLike> InstanceContext<'s, T> {
    /// Returns the cite's answer to a number variable (CSL 1.0.2, Number Variables). The citation
    /// answers three: the citation number plus one, the number of the first note that cites the
    /// entry, and the locator. The entry answers all others. The locator is a number if its text
    /// spells one.
    #[tactic(auto, using(crate::proofs::Looks::number_alike))]
    pub fn resolve_number_variable(
        &self,
        alloc: Global,
        variable: NumberVariable,
    ) -> Result<Option<NumberVariableResult<'s>>, Memory>
        ensures value { IfOk result (λ found. option_map result_view found
            ≡ spec.resolve_number (spec.instance_of T.answers self.now) variable) }

        // The answer depends only on the citation and, unless the variable is one of the
        // citation's, on the entry's answer to this variable.
        ensures depends { (i j : spec.Instance) → i.cite ≡ j.cite → spec.SameNumber i j variable
            → spec.resolve_number i variable ≡ spec.resolve_number j variable }
    {
        match variable {
            NumberVariable::CitationNumber => {
                let number = self.cite_props.speculative.citation_number.get() + 1;
                Ok(Some(plain_number(number)))
            }
            NumberVariable::FirstReferenceNoteNumber => {
                match self.cite_props.certain.first_note_number {
                    Some(number) => Ok(Some(plain_number(number.get()))),
                    None => Ok(None),
                }
            }
            NumberVariable::Locator => match &self.cite_props.speculative.locator {
                Some(locator) => {
                    let index = self.cite_props.certain.initial_idx;
                    let answer = locator_answer(alloc, index, locator.1)?;
                    Ok(Some(answer))
                }
                None => Ok(None),
            },
            _ => match self.entry.resolve_number_variable(alloc, variable)? {
                Some(number) => Ok(Some(NumberVariableResult::Regular(number))),
                None => Ok(None),
            },
        }
    }

    /// Returns the cite's answer to a page variable, which is its entry's answer.
    pub fn resolve_page_variable(
        &self,
        alloc: Global,
        variable: PageVariable,
    ) -> Result<Option<PageVariableResult>, Memory>
        ensures { IfOk result (λ found. option_map (maybe_view pages_view) found
            ≡ spec.resolve_page (spec.instance_of T.answers self.now) variable) }
    {
        self.entry.resolve_page_variable(alloc, variable)
    }

    /// Returns the same as [`InstanceContext::resolve_page_variable`], lent if the entry holds it.
    pub fn lend_pages(
        &self,
        alloc: Global,
        variable: PageVariable,
    ) -> Result<Option<Cow<'s, PageVariableResult>>, Memory>
        ensures { IfOk result (λ found. option_map (cow_view (maybe_view pages_view)) found
            ≡ spec.resolve_page (spec.instance_of T.answers self.now) variable) }
    {
        self.entry.lend_pages(alloc, variable)
    }

    /// Returns the cite's answer to a variable that holds a number or pages: its answer to that
    /// number variable or page variable.
    pub fn resolve_number_or_page_variable(
        &self,
        alloc: Global,
        variable: NumberOrPageVariable,
    ) -> Result<Option<NumberOrPageVariableResult<'s>>, Memory>
        ensures { IfOk result (λ found. option_map number_or_page_view found
            ≡ spec.resolve_number_or_page (spec.instance_of T.answers self.now) variable) }
    {
        match variable {
            NumberOrPageVariable::Number(variable) => {
                match self.resolve_number_variable(alloc, variable)? {
                    Some(number) => Ok(Some(NumberOrPageVariableResult::Number(number))),
                    None => Ok(None),
                }
            }
            NumberOrPageVariable::Page(variable) => {
                match self.resolve_page_variable(alloc, variable)? {
                    Some(pages) => Ok(Some(NumberOrPageVariableResult::Page(pages))),
                    None => Ok(None),
                }
            }
        }
    }

    /// Returns the cite's answer to a standard variable (CSL 1.0.2, Standard Variables). The
    /// citation answers the year suffix, if the cite has one. The entry answers all other
    /// variables.
    #[tactic(auto, using(crate::proofs::Looks::standard_alike))]
    pub fn resolve_standard_variable(
        &self,
        alloc: Global,
        form: LongShortForm,
        variable: StandardVariable,
    ) -> Result<Option<Cow<'s, ChunkedString>>, Memory>
        ensures value { IfOk result (λ found. option_map (cow_view chunks) found
            ≡ spec.resolve_standard (spec.instance_of T.answers self.now) form variable) }

        // The answer depends only on the citation and, unless the variable is the citation's, on
        // the entry's answer to this variable in this form.
        ensures depends { (i j : spec.Instance) → i.cite ≡ j.cite
            → spec.SameStandard i j form variable
            → spec.resolve_standard i form variable ≡ spec.resolve_standard j form variable }
    {
        match variable {
            StandardVariable::YearSuffix => {
                year_suffix(alloc, &self.cite_props.speculative.disambiguation)
            }
            _ => self.entry.resolve_standard_variable(alloc, form, variable),
        }
    }

    /// Returns the same as [`InstanceContext::resolve_standard_variable`], lent if the entry holds
    /// it.
    pub fn lend_text(
        &self,
        alloc: Global,
        form: LongShortForm,
        variable: StandardVariable,
    ) -> Result<Option<LentText<'s>>, Memory>
        ensures { IfOk result (λ found. option_map lent_chunks found
            ≡ spec.resolve_standard (spec.instance_of T.answers self.now) form variable) }
    {
        match variable {
            StandardVariable::YearSuffix => lent_suffix(
                alloc,
                &self.cite_props.speculative.disambiguation,
            ),
            _ => self.entry.lend_text(alloc, form, variable),
        }
    }

    /// Returns the cite's answer to a name variable, which is its entry's answer: the persons in
    /// order, or an empty list if there are none (CSL 1.0.2, Name Variables).
    pub fn resolve_name_variable(
        &self,
        alloc: Global,
        variable: NameVariable,
    ) -> Result<Vec<Cow<'s, Person>>, Memory>
        ensures { IfOk result (λ found. map (cow_view person_view) found.items
            ≡ spec.resolve_names (spec.instance_of T.answers self.now) variable) }
    {
        self.entry.resolve_name_variable(alloc, variable)
    }

    /// Whether [`InstanceContext::resolve_name_variable`] returns a person.
    pub fn has_persons(&self, alloc: Global, variable: NameVariable) -> Result<bool, Memory>
        ensures { IfOk result (λ found. found
            ≡ not (length (spec.resolve_names (spec.instance_of T.answers self.now) variable)
            == 0)) }
    {
        self.entry.has_persons(alloc, variable)
    }

    /// Returns the cite's answer to a date variable, which is its entry's answer (CSL 1.0.2, Date
    /// Variables).
    pub fn resolve_date_variable(
        &self,
        alloc: Global,
        variable: DateVariable,
    ) -> Result<Option<Cow<'s, Date>>, Memory>
        ensures { IfOk result (λ found. option_map (cow_view date_view) found
            ≡ spec.resolve_date (spec.instance_of T.answers self.now) variable) }
    {
        self.entry.resolve_date_variable(alloc, variable)
    }
}

/// A number without prefix and suffix. It is at most 2147483647, the largest `i32`.
fn plain_number<'s>(number: u32) -> NumberVariableResult<'s>
    requires { IsNoteNumber number }
    ensures { result_view result ≡ spec.plain_number number }
{
    let number = Numeric::new(number as i32);
    NumberVariableResult::Regular(MaybeTyped::Typed(Cow::Owned(number)))
}

/// The answer of a locator at the cite with this index.
fn locator_answer<'s>(
    alloc: Global,
    index: usize,
    payload: LocatorPayload<'_>,
) -> Result<NumberVariableResult<'s>, Memory>
    ensures { IfOk result (λ found. result_view found
        ≡ spec.locator_answer index (payload_of payload.entry)) }
{
    match payload {
        LocatorPayload::Str(text) => match numeric_or_text(alloc, text)? {
            MaybeTyped::Typed(number) => {
                let number = MaybeTyped::Typed(Cow::Owned(number));
                Ok(NumberVariableResult::Regular(number))
            }
            MaybeTyped::String(text) => {
                Ok(NumberVariableResult::Regular(MaybeTyped::String(text)))
            }
        },
        LocatorPayload::Transparent => Ok(NumberVariableResult::Transparent(index)),
    }
}

/// The letters of the year suffix, if the cite has one.
fn year_suffix<'s>(
    alloc: Global,
    state: &DisambiguateState,
) -> Result<Option<Cow<'s, ChunkedString>>, Memory>
    ensures { IfOk result (λ found. option_map (cow_view chunks) found
        ≡ spec.year_suffix (disambiguation_of state.now)) }
{
    match state {
        DisambiguateState::YearSuffix(number) => {
            let word = letter(alloc, *number)?;
            let text = one_chunk(alloc, word, ChunkKind::Normal)?;
            Ok(Some(Cow::Owned(text)))
        }
        DisambiguateState::None
        | DisambiguateState::NameDisambiguation(_)
        | DisambiguateState::Choose => Ok(None),
    }
}

/// The letters of the year suffix, if the cite has one.
fn lent_suffix<'s>(alloc: Global, state: &DisambiguateState) -> Result<Option<LentText<'s>>, Memory>
    ensures { IfOk result (λ found. option_map lent_chunks found
        ≡ spec.year_suffix (disambiguation_of state.now)) }
{
    match year_suffix(alloc, state)? {
        Some(text) => Ok(Some(LentText::Chunks(text))),
        None => Ok(None),
    }
}
