//! An entry type whose answers are all empty.
//! Definitions: crates/lit_model/specs/Text.antt, crates/lit_model/specs/Person.antt.

ghost use Rattle.std.specs.Prelude.{◌≡◌, [], IfOk};
ghost use Rattle.lit_model.specs.Person.{person_view};
ghost use Rattle.lit_model.specs.Text.{chunks};

use csl_elements::{
    DateVariable, Kind, NameVariable, NumberVariable, PageVariable, StandardVariable,
};
use csl_entry::EntryLike;
use lit_model::{
    ChunkedString, Date, LongShortForm, MaybeTyped, Memory, Numeric, PageRanges, Person,
};
use std::alloc::Global;
use std::borrow::{Cow, CowStr};

/// An entry that answers each number, text and page variable with an empty text, and each name
/// variable with one person whose name is empty. It has no date and is of no kind.
#[derive(Drop)]
pub struct Blank {
    text: ChunkedString,
    person: Person,
}

impl EntryLike for Blank {
    ghost use Rattle.std.specs.Prelude.{[], ◌∷◌, Some, None, false};
    ghost use Rattle.lit_model.specs.MaybeTyped.{text as text_view};
    ghost use Rattle.lit_model.specs.Person.{person_view};
    ghost use Rattle.lit_model.specs.Text.{chunks};

    ghost answers = { λ blank. record {
      numbers = λ _. Some (text_view []);
      pages = λ _. Some (text_view []);
      standards = λ _ _. Some (chunks blank.text);
      names = λ _. person_view blank.person ∷ [];
      dates = λ _. None;
      kinds = λ _. false;
    } };

    ghost key_text = { λ _. [] };

    ghost english = { λ _. None };

    fn resolve_number_variable(
        &self,
        alloc: Global,
        _variable: NumberVariable,
    ) -> Result<Option<MaybeTyped<Cow<'_, Numeric>>>, Memory> {
        Ok(Some(MaybeTyped::String(String::new(alloc))))
    }

    fn resolve_page_variable(
        &self,
        alloc: Global,
        _variable: PageVariable,
    ) -> Result<Option<MaybeTyped<PageRanges>>, Memory> {
        Ok(Some(MaybeTyped::String(String::new(alloc))))
    }

    fn resolve_standard_variable(
        &self,
        _alloc: Global,
        _form: LongShortForm,
        _variable: StandardVariable,
    ) -> Result<Option<Cow<'_, ChunkedString>>, Memory> {
        Ok(Some(Cow::Borrowed(&self.text)))
    }

    fn resolve_name_variable(
        &self,
        alloc: Global,
        _variable: NameVariable,
    ) -> Result<Vec<Cow<'_, Person>>, Memory> {
        let persons = vec![in alloc; Cow::Borrowed(&self.person)]?;
        Ok(persons)
    }

    fn resolve_date_variable(
        &self,
        _alloc: Global,
        _variable: DateVariable,
    ) -> Result<Option<Cow<'_, Date>>, Memory> {
        Ok(None)
    }

    fn matches_entry_type(&self, _kind: Kind) -> bool {
        false
    }

    fn is_english(&self) -> Option<bool> {
        None
    }

    fn key(&self) -> CowStr<'_, Global> {
        CowStr::Borrowed("")
    }
}

impl Blank {
    /// Returns a blank entry.
    pub fn new(alloc: Global) -> Result<Blank, Memory> {
        let text = ChunkedString::plain(alloc, "")?;
        let person = Person::institution(alloc, "")?;
        Ok(Blank { text, person })
    }
}
