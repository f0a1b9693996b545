//! An entry type whose answers are in a table.

ghost use Rattle.std.specs.Prelude.{◌≡◌, IfOk, map, option_copied, option_map};
ghost use Rattle.csl_laws.specs.Table.{date_in, is_in, names_in, number_in, text_in};
ghost use Rattle.csl_entry.specs.Answers.{cow_view};
ghost use Rattle.lit_model.specs.MaybeTyped.{maybe_view};
ghost use Rattle.lit_model.specs.Numeric.{numeric_view};
ghost use Rattle.lit_model.specs.Page.{pages_view};
ghost use Rattle.lit_model.specs.Person.{person_view};

use csl_elements::{
    DateVariable, Kind, NameVariable, NumberVariable, PageVariable, StandardVariable,
};
use csl_entry::EntryLike;
use lit_model::{
    ChunkedString, Date, FormatString, LongShortForm, MaybeTyped, Memory, Numeric, PageRanges,
    Person,
};
use std::alloc::Global;
use std::borrow::{Cow, CowStr};

/// An entry that is a table. The first answer to a variable counts. All page variables have the
/// same answer.
#[derive(Drop)]
pub struct Table {
    pub numbers: Vec<(NumberVariable, MaybeTyped<Numeric>)>,
    pub pages: Option<MaybeTyped<PageRanges>>,
    pub texts: Vec<(StandardVariable, FormatString)>,
    pub names: Vec<(NameVariable, Vec<Person>)>,
    pub dates: Vec<(DateVariable, Date)>,
    pub kinds: Vec<Kind>,
}

impl Table {
    /// Returns a table that answers nothing.
    pub fn new(alloc: Global) -> Table {
        Table {
            numbers: Vec::new(alloc),
            pages: None,
            texts: Vec::new(alloc),
            names: Vec::new(alloc),
            dates: Vec::new(alloc),
            kinds: Vec::new(alloc),
        }
    }
}

/// The first number of a variable.
fn number_in(
    answers: &[(NumberVariable, MaybeTyped<Numeric>)],
    variable: NumberVariable,
) -> Option<&(NumberVariable, MaybeTyped<Numeric>)>
    ensures { option_copied result ≡ number_in variable answers.now }
{
    answers.iter().find(|answer| answer.0 == variable)
}

/// The first text of a variable.
fn text_in(
    answers: &[(StandardVariable, FormatString)],
    variable: StandardVariable,
) -> Option<&(StandardVariable, FormatString)>
    ensures { option_copied result ≡ text_in variable answers.now }
{
    answers.iter().find(|answer| answer.0 == variable)
}

/// The first date of a variable.
fn date_in(
    answers: &[(DateVariable, Date)],
    variable: DateVariable,
) -> Option<&(DateVariable, Date)>
    ensures { option_copied result ≡ date_in variable answers.now }
{
    answers.iter().find(|answer| answer.0 == variable)
}

/// The first persons of a variable.
fn names_in(
    answers: &[(NameVariable, Vec<Person>)],
    variable: NameVariable,
) -> Option<&(NameVariable, Vec<Person>)>
    ensures { option_copied result ≡ names_in variable answers.now }
{
    answers.iter().find(|answer| answer.0 == variable)
}

/// These persons as an answer, each borrowed.
fn name_answer(alloc: Global, persons: &[Person]) -> Result<Vec<Cow<'_, Person>>, Memory>
    ensures { IfOk result (λ found. map (cow_view person_view) found.items
        ≡ map person_view persons.now) }
{
    let mut found = Vec::with_capacity(alloc, persons.len())?;
    for person in persons {
        found.push(Cow::Borrowed(person))?;
    }
    Ok(found)
}

/// A number as an answer, if there is one: borrowed, or copied if it is a text.
fn number_answer(
    alloc: Global,
    found: Option<&(NumberVariable, MaybeTyped<Numeric>)>,
) -> Result<Option<MaybeTyped<Cow<'_, Numeric>>>, Memory>
    ensures { IfOk result (λ r. option_map (maybe_view (cow_view numeric_view)) r
        ≡ option_map (λ p. maybe_view numeric_view p.1) (option_copied found.entry)) }
{
    match found {
        None => Ok(None),
        Some((_, MaybeTyped::Typed(number))) => {
            Ok(Some(MaybeTyped::Typed(Cow::Borrowed(number))))
        }
        Some((_, MaybeTyped::String(text))) => {
            let copy = String::from_str(alloc, text.as_str())?;
            Ok(Some(MaybeTyped::String(copy)))
        }
    }
}

/// A copy of the pages, if there are some.
fn page_answer(
    alloc: Global,
    found: &Option<MaybeTyped<PageRanges>>,
) -> Result<Option<MaybeTyped<PageRanges>>, Memory>
    ensures { IfOk result (λ r. option_map (maybe_view pages_view) r
        ≡ option_map (maybe_view pages_view) found.now) }
{
    match found {
        None => Ok(None),
        Some(pages) => {
            let copy = pages.clone(alloc)?;
            Ok(Some(copy))
        }
    }
}

impl EntryLike for Table {
    ghost use Rattle.std.specs.Prelude.{[], None, option_map};
    ghost use Rattle.csl_laws.specs.Table.{date_in, is_in, names_in, number_in};
    ghost use Rattle.csl_laws.specs.Table.{persons_of, text_in};
    ghost use Rattle.lit_model.specs.Date.{date_view};
    ghost use Rattle.lit_model.specs.MaybeTyped.{maybe_view};
    ghost use Rattle.lit_model.specs.Numeric.{numeric_view};
    ghost use Rattle.lit_model.specs.Page.{pages_view};
    ghost use Rattle.lit_model.specs.Text.{chunks, select};

    ghost answers = { λ table. record {
      numbers = λ v. option_map (λ p. maybe_view numeric_view p.1)
          (number_in v table.numbers.items);
      pages = λ _. option_map (maybe_view pages_view) table.pages;
      standards = λ form v. option_map (λ p. chunks (select form p.1))
          (text_in v table.texts.items);
      names = λ v. persons_of (names_in v table.names.items);
      dates = λ v. option_map (λ p. date_view p.1) (date_in v table.dates.items);
      kinds = λ k. is_in k table.kinds.items;
    } };

    ghost key_text = { λ _. [] };

    ghost english = { λ _. None };

    fn resolve_number_variable(
        &self,
        alloc: Global,
        variable: NumberVariable,
    ) -> Result<Option<MaybeTyped<Cow<'_, Numeric>>>, Memory> {
        number_answer(alloc, number_in(&self.numbers, variable))
    }

    fn resolve_page_variable(
        &self,
        alloc: Global,
        _variable: PageVariable,
    ) -> Result<Option<MaybeTyped<PageRanges>>, Memory> {
        page_answer(alloc, &self.pages)
    }

    fn resolve_standard_variable(
        &self,
        _alloc: Global,
        form: LongShortForm,
        variable: StandardVariable,
    ) -> Result<Option<Cow<'_, ChunkedString>>, Memory> {
        match text_in(&self.texts, variable) {
            None => Ok(None),
            Some((_, text)) => Ok(Some(Cow::Borrowed(text.select(form)))),
        }
    }

    fn resolve_name_variable(
        &self,
        alloc: Global,
        variable: NameVariable,
    ) -> Result<Vec<Cow<'_, Person>>, Memory> {
        match names_in(&self.names, variable) {
            None => Ok(Vec::new(alloc)),
            Some(answer) => name_answer(alloc, &answer.1),
        }
    }

    fn resolve_date_variable(
        &self,
        _alloc: Global,
        variable: DateVariable,
    ) -> Result<Option<Cow<'_, Date>>, Memory> {
        let date = match date_in(&self.dates, variable) {
            None => None,
            Some(answer) => Some(&answer.1),
        };
        Ok(date.map(Cow::Borrowed))
    }

    fn matches_entry_type(&self, kind: Kind) -> bool {
        self.kinds.contains(&kind)
    }

    fn is_english(&self) -> Option<bool> {
        None
    }

    fn key(&self) -> CowStr<'_, Global> {
        CowStr::Borrowed("")
    }
}
