//! The answers of a work to the variables (CSL 1.0.2, Appendix IV: Variables).
//! Definitions: specs/Variables.antt.

ghost use Rattle.std.specs.Prelude.{◌≡◌, IfOk};
ghost use Rattle.serde_json.specs.View.{members_view, view};
ghost use Rattle.csl_wire_cite.specs.Variables.{kept_answers, nothing_kept, AddsAnswer, AddsDate, AddsMember, AddsMembers, AddsNumber, AddsPages, AddsPersons, AddsText};

use crate::dates::date;
use crate::limits::WorkLimits;
use crate::numbers::{number, pages};
use crate::persons::persons;
use crate::texts::{long_form, short_form};
use csl_elements::{
    DateVariable, NameVariable, NumberVariable, PageVariable, StandardVariable, Variable,
};
use csl_wire::{Named, Reader, Step, WireError, within};
use lit_model::{ChunkedString, Date, MaybeTyped, Numeric, PageRanges, Person};
use serde_json::{Map, Value};
use std::alloc::Global;

/// The answers that were read so far.
#[derive(Drop)]
pub(crate) struct Answers {
    pub(crate) numbers: Vec<(NumberVariable, MaybeTyped<Numeric>)>,
    pub(crate) pages: Vec<(PageVariable, MaybeTyped<PageRanges>)>,
    pub(crate) long_texts: Vec<(StandardVariable, ChunkedString)>,
    pub(crate) short_texts: Vec<(StandardVariable, ChunkedString)>,
    pub(crate) names: Vec<(NameVariable, Vec<Person>)>,
    pub(crate) dates: Vec<(DateVariable, Date)>,
}

impl Answers {
    /// No answers.
    pub(crate) fn new(alloc: Global) -> Answers
        ensures { kept_answers result ≡ nothing_kept }
    {
        Answers {
            numbers: Vec::new(alloc),
            pages: Vec::new(alloc),
            long_texts: Vec::new(alloc),
            short_texts: Vec::new(alloc),
            names: Vec::new(alloc),
            dates: Vec::new(alloc),
        }
    }

    /// Adds the answer to a standard variable, in both forms.
    #[tactic(auto, using(crate::proofs::Adds::text_added))]
    fn add_text(
        &mut self,
        reader: Reader,
        variable: StandardVariable,
        value: &Value,
    ) -> Result<(), WireError>
        ensures { IfOk result (λ _. AddsText variable (view value.now) (kept_answers self.old)
            (kept_answers self.new)) }
    {
        let long = long_form(reader, value)?;
        let short = short_form(reader, value)?;
        self.long_texts.push((variable, long))?;
        self.short_texts.push((variable, short))?;
        Ok(())
    }

    /// Adds the answer to a number variable.
    #[tactic(auto, using(crate::proofs::Adds::number_added))]
    fn add_number(
        &mut self,
        reader: Reader,
        variable: NumberVariable,
        value: &Value,
    ) -> Result<(), WireError>
        ensures { IfOk result (λ _. AddsNumber variable (view value.now) (kept_answers self.old)
            (kept_answers self.new)) }
    {
        let number = number(reader, value)?;
        self.numbers.push((variable, number))?;
        Ok(())
    }

    /// Adds the answer to a page variable.
    #[tactic(auto, using(crate::proofs::Adds::pages_added))]
    fn add_pages(
        &mut self,
        reader: Reader,
        variable: PageVariable,
        value: &Value,
    ) -> Result<(), WireError>
        ensures { IfOk result (λ _. AddsPages variable (view value.now) (kept_answers self.old)
            (kept_answers self.new)) }
    {
        let pages = pages(reader, value)?;
        self.pages.push((variable, pages))?;
        Ok(())
    }

    /// Adds the answer to a name variable.
    #[tactic(auto, using(crate::proofs::Adds::persons_added))]
    fn add_persons(
        &mut self,
        reader: Reader,
        variable: NameVariable,
        value: &Value,
    ) -> Result<(), WireError>
        ensures { IfOk result (λ _. AddsPersons variable (view value.now) (kept_answers self.old)
            (kept_answers self.new)) }
    {
        let persons = persons(reader, value)?;
        self.names.push((variable, persons))?;
        Ok(())
    }

    /// Adds the answer to a date variable.
    #[tactic(auto, using(crate::proofs::Adds::date_added))]
    fn add_date(
        &mut self,
        reader: Reader,
        variable: DateVariable,
        value: &Value,
    ) -> Result<(), WireError>
        ensures { IfOk result (λ _. AddsDate variable (view value.now) (kept_answers self.old)
            (kept_answers self.new)) }
    {
        let date = date(reader, value)?;
        self.dates.push((variable, date))?;
        Ok(())
    }

    /// Adds the answer to a variable.
    fn add(
        &mut self,
        alloc: Global,
        limits: WorkLimits,
        variable: Variable,
        value: &Value,
    ) -> Result<(), WireError>
        ensures { IfOk result (λ _. AddsAnswer variable (view value.now) (kept_answers self.old)
            (kept_answers self.new)) }
    {
        let (texts, numbers) = (limits.texts(alloc), limits.numbers(alloc));
        match variable {
            Variable::Standard(variable) => {
                self.add_text(texts, variable, value)?;
                Ok(())
            }
            Variable::Number(variable) => {
                self.add_number(numbers, variable, value)?;
                Ok(())
            }
            Variable::Page(variable) => {
                self.add_pages(numbers, variable, value)?;
                Ok(())
            }
            Variable::Name(variable) => {
                self.add_persons(texts, variable, value)?;
                Ok(())
            }
            Variable::Date(variable) => {
                self.add_date(texts, variable, value)?;
                Ok(())
            }
        }
    }

    /// Adds the answer of a member. One that is `null` is absent.
    fn add_member(
        &mut self,
        alloc: Global,
        limits: WorkLimits,
        name: &str,
        value: &Value,
    ) -> Result<(), WireError>
        ensures { IfOk result (λ _. AddsMember name.now (view value.now) (kept_answers self.old)
            (kept_answers self.new)) }
    {
        if value.is_null() {
            return Ok(());
        }
        match Variable::from_name(name) {
            Some(variable) => {
                let step = Step::Member(variable.name());
                within(step, self.add(alloc, limits, variable, value))?;
                Ok(())
            }
            None => Err(Variable::refusal(alloc, name)),
        }
    }

    /// Adds the answers of the members of an object.
    pub(crate) fn add_all(
        &mut self,
        alloc: Global,
        limits: WorkLimits,
        members: &Map<String, Value>,
    ) -> Result<(), WireError>
        ensures { IfOk result (λ _. AddsMembers (members_view members.now.entries)
            (kept_answers self.old) (kept_answers self.new)) }
    {
        for (name, value) in members.iter() {
            self.add_member(alloc, limits, name.as_str(), value)?;
        }
        Ok(())
    }
}
