//! The answers of a snapshot.
//! Definitions: specs/Snapshot.antt.

ghost use Rattle.std.specs.Prelude.{◌≡◌, [], None, map, option_copied};
ghost use Rattle.lit_model.specs.Text.{chunks};
ghost use Rattle.csl_entry.specs.Snapshot as spec;
ghost use Rattle.csl_entry.specs.Snapshot.{snapshot_answers};

use crate::entry::name::name_answer;
use crate::entry::number::number_answer;
use crate::snapshot::Snapshot;
use crate::taxonomy::EntryLike;
use csl_elements::{
    DateVariable, Kind, NameVariable, NumberVariable, PageVariable, StandardVariable,
};
use lit_model::{
    ChunkedString, Date, LongShortForm, MaybeTyped, Memory, Numeric, PageRanges, Person,
};
use std::alloc::Global;
use std::borrow::{Cow, CowStr};

/// The answer that is kept for a variable.
fn answer_at<K: Copy + PartialEq, V>(kept: &[(K, V)], variable: K) -> Option<&V>
    ensures { option_copied result ≡ spec.answer_at K.eq kept.now variable }
{
    for (answered, answer) in kept {
        if *answered == variable {
            return Some(answer);
        }
    }
    None
}

impl Snapshot {
    /// The texts that are kept in this form.
    fn texts(&self, form: LongShortForm) -> &[(StandardVariable, ChunkedString)]
        ensures { map (spec.keyed chunks) result.now ≡ spec.texts_in form (spec.kept_of self.now) }
    {
        match form {
            LongShortForm::Long => &self.long_texts,
            LongShortForm::Short => &self.short_texts,
        }
    }
}

impl EntryLike for Snapshot {
    ghost answers = { snapshot_answers };

    ghost key_text = { λ s. [] };

    ghost english = { λ s. None };

    fn resolve_number_variable(
        &self,
        alloc: Global,
        variable: NumberVariable,
    ) -> Result<Option<MaybeTyped<Cow<'_, Numeric>>>, Memory> {
        number_answer(alloc, answer_at(&self.numbers, variable))
    }

    fn resolve_page_variable(
        &self,
        alloc: Global,
        variable: PageVariable,
    ) -> Result<Option<MaybeTyped<PageRanges>>, Memory> {
        match answer_at(&self.pages, variable) {
            Some(pages) => {
                let copy = pages.clone(alloc)?;
                Ok(Some(copy))
            }
            None => Ok(None),
        }
    }

    fn lend_pages(
        &self,
        _alloc: Global,
        variable: PageVariable,
    ) -> Result<Option<Cow<'_, MaybeTyped<PageRanges>>>, Memory> {
        Ok(answer_at(&self.pages, variable).map(Cow::Borrowed))
    }

    fn resolve_standard_variable(
        &self,
        _alloc: Global,
        form: LongShortForm,
        variable: StandardVariable,
    ) -> Result<Option<Cow<'_, ChunkedString>>, Memory> {
        Ok(answer_at(self.texts(form), variable).map(Cow::Borrowed))
    }

    fn resolve_name_variable(
        &self,
        alloc: Global,
        variable: NameVariable,
    ) -> Result<Vec<Cow<'_, Person>>, Memory> {
        match answer_at(&self.names, variable) {
            Some(persons) => name_answer(alloc, persons),
            None => Ok(Vec::new(alloc)),
        }
    }

    fn has_persons(&self, _alloc: Global, variable: NameVariable) -> Result<bool, Memory> {
        match answer_at(&self.names, variable) {
            Some(persons) => Ok(!persons.as_slice().is_empty()),
            None => Ok(false),
        }
    }

    fn resolve_date_variable(
        &self,
        _alloc: Global,
        variable: DateVariable,
    ) -> Result<Option<Cow<'_, Date>>, Memory> {
        Ok(answer_at(&self.dates, variable).map(Cow::Borrowed))
    }

    fn matches_entry_type(&self, kind: Kind) -> bool {
        self.kinds.contains(&kind)
    }

    fn is_english(&self) -> Option<bool> {
        None
    }

    fn key(&self) -> CowStr<'_, Global> {
        CowStr::Borrowed("")
    }
}
