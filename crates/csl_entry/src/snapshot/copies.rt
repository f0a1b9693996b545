//! Copies of a snapshot.
//! Definitions: specs/Snapshot.antt.

ghost use Rattle.std.specs.Prelude.{◌≡◌, map, IfOk};
ghost use Rattle.lit_model.specs.MaybeTyped.{maybe_view};
ghost use Rattle.lit_model.specs.Numeric.{numeric_view};
ghost use Rattle.lit_model.specs.Page.{pages_view};
ghost use Rattle.lit_model.specs.Person.{person_view};
ghost use Rattle.lit_model.specs.Text.{chunks};
ghost use Rattle.csl_entry.specs.Snapshot.{keyed, kept_of};

use crate::snapshot::Snapshot;
use csl_elements::{NameVariable, NumberVariable, PageVariable, StandardVariable};
use lit_model::{ChunkedString, MaybeTyped, Memory, Numeric, PageRanges, Person};
use std::alloc::Global;

impl Snapshot {
    /// Returns an equal snapshot.
    pub fn clone(&self, alloc: Global) -> Result<Snapshot, Memory>
        ensures { IfOk result (λ copy. kept_of copy ≡ kept_of self.now) }
    {
        let numbers = copy_numbers(alloc, &self.numbers)?;
        let pages = copy_pages(alloc, &self.pages)?;
        let long_texts = copy_texts(alloc, &self.long_texts)?;
        let short_texts = copy_texts(alloc, &self.short_texts)?;
        let names = copy_names(alloc, &self.names)?;
        let dates = self.dates.as_slice().to_vec(alloc)?;
        let kinds = self.kinds.as_slice().to_vec(alloc)?;
        Ok(Snapshot {
            numbers,
            pages,
            long_texts,
            short_texts,
            names,
            dates,
            kinds,
        })
    }
}

fn copy_numbers(
    alloc: Global,
    numbers: &[(NumberVariable, MaybeTyped<Numeric>)],
) -> Result<Vec<(NumberVariable, MaybeTyped<Numeric>)>, Memory>
    ensures { IfOk result (λ copies. map (keyed (maybe_view numeric_view)) copies.items
        ≡ map (keyed (maybe_view numeric_view)) numbers.now) }
{
    let mut copies = Vec::with_capacity(alloc, numbers.len())?;
    for (variable, number) in numbers {
        let copy = number.clone(alloc)?;
        copies.push((*variable, copy))?;
    }
    Ok(copies)
}

fn copy_pages(
    alloc: Global,
    pages: &[(PageVariable, MaybeTyped<PageRanges>)],
) -> Result<Vec<(PageVariable, MaybeTyped<PageRanges>)>, Memory>
    ensures { IfOk result (λ copies. map (keyed (maybe_view pages_view)) copies.items
        ≡ map (keyed (maybe_view pages_view)) pages.now) }
{
    let mut copies = Vec::with_capacity(alloc, pages.len())?;
    for (variable, ranges) in pages {
        let copy = ranges.clone(alloc)?;
        copies.push((*variable, copy))?;
    }
    Ok(copies)
}

fn copy_texts(
    alloc: Global,
    texts: &[(StandardVariable, ChunkedString)],
) -> Result<Vec<(StandardVariable, ChunkedString)>, Memory>
    ensures { IfOk result (λ copies. map (keyed chunks) copies.items
        ≡ map (keyed chunks) texts.now) }
{
    let mut copies = Vec::with_capacity(alloc, texts.len())?;
    for (variable, text) in texts {
        let copy = text.clone(alloc)?;
        copies.push((*variable, copy))?;
    }
    Ok(copies)
}

fn copy_names(
    alloc: Global,
    names: &[(NameVariable, Vec<Person>)],
) -> Result<Vec<(NameVariable, Vec<Person>)>, Memory>
    ensures { IfOk result (λ copies.
        map (keyed (λ persons. map person_view persons.items)) copies.items
        ≡ map (keyed (λ persons. map person_view persons.items)) names.now) }
{
    let mut copies = Vec::with_capacity(alloc, names.len())?;
    for (variable, persons) in names {
        let copy = copy_persons(alloc, persons)?;
        copies.push((*variable, copy))?;
    }
    Ok(copies)
}

fn copy_persons(alloc: Global, persons: &[Person]) -> Result<Vec<Person>, Memory>
    ensures { IfOk result (λ copies.
        map person_view copies.items ≡ map person_view persons.now) }
{
    let mut copies = Vec::with_capacity(alloc, persons.len())?;
    for person in persons {
        let copy = person.clone(alloc)?;
        copies.push(copy)?;
    }
    Ok(copies)
}
