//! A snapshot of an entry: its answers to named variables and kinds, as a value (CSL 1.0.2,
//! Appendix III: Types; Appendix IV: Variables).

ghost use Rattle.std.specs.Prelude.{◌≡◌, Bool, false, map, IfOk};
ghost use Rattle.std.specs.Bool.{Decides};
ghost use Rattle.csl_elements.specs.NamedSet.{NamedItem, named_set};
ghost use Rattle.lit_model.specs.Date.{date_view};
ghost use Rattle.lit_model.specs.MaybeTyped.{maybe_view};
ghost use Rattle.lit_model.specs.Numeric.{numeric_view};
ghost use Rattle.lit_model.specs.Page.{pages_view};
ghost use Rattle.lit_model.specs.Person.{person_view};
ghost use Rattle.lit_model.specs.Text.{chunks};
ghost use Rattle.csl_entry.specs.Answers.{Answers};
ghost use Rattle.csl_entry.specs.Alike.{SameAnswer, SameNamedAnswers};
ghost use Rattle.csl_entry.specs.Snapshot.{
  keyed,
  no_answers,
  kept_of,
  snapshot_of,
  snapshot_answers,
};

mod answers;
mod copies;
mod keep;

use crate::taxonomy::EntryLike;
use csl_elements::{
    DateVariable, Kind, NameVariable, Named, NumberVariable, PageVariable, StandardVariable,
};
use lit_model::{
    ChunkedString, Date, LongShortForm, MaybeTyped, Memory, Numeric, PageRanges, Person,
};
use std::alloc::Global;

/// What an entry answers to named variables and kinds, without the entry. It is an entry itself,
/// which answers nothing else: no other variable, no other kind, no language, and an empty key.
///
/// Two snapshots by the same [`Named`] are equal exactly if their entries answer alike on it. So a
/// layout that names no more renders both alike.
#[derive(PartialEq, Eq, Hash, Drop)]
pub struct Snapshot {
    numbers: Vec<(NumberVariable, MaybeTyped<Numeric>)>,
    pages: Vec<(PageVariable, MaybeTyped<PageRanges>)>,
    long_texts: Vec<(StandardVariable, ChunkedString)>,
    short_texts: Vec<(StandardVariable, ChunkedString)>,
    names: Vec<(NameVariable, Vec<Person>)>,
    dates: Vec<(DateVariable, Date)>,
    kinds: Vec<Kind>,
}

impl Snapshot {
    /// Returns what the entry answers to the named variables and kinds, standard variables in both
    /// forms. Of a layout that names nothing, it is empty.
    pub fn new<T: EntryLike>(alloc: Global, entry: &T, named: &Named) -> Result<Snapshot, Memory>
        ensures kept { IfOk result (λ s.
            kept_of s ≡ snapshot_of named.now (T.answers entry.now)) }

        // The snapshot and the entry answer alike on what is named.
        ensures alike { IfOk result (λ s. SameNamedAnswers (named_set named.now)
            (snapshot_answers s) (T.answers entry.now)) }

        // The snapshot answers nothing else.
        ensures silent { IfOk result (λ s. (q : NamedItem) → named_set named.now q ≡ false
            → SameAnswer (snapshot_answers s) no_answers q) }

        // It equals the snapshot of an entry with other answers exactly if they are alike on what
        // is named.
        ensures equal { IfOk result (λ s. (t : Snapshot) (others : Answers)
            → kept_of t ≡ snapshot_of named.now others → Decides (⟦<Snapshot as PartialEq>⟧.eq s t)
            (SameNamedAnswers (named_set named.now) (T.answers entry.now) others)) }
    {
        let numbers = keep::numbers(alloc, entry, &named.numbers)?;
        let pages = keep::pages(alloc, entry, &named.pages)?;
        let long_texts = keep::texts(alloc, entry, LongShortForm::Long, &named.standards)?;
        let short_texts = keep::texts(alloc, entry, LongShortForm::Short, &named.standards)?;
        let names = keep::names(alloc, entry, &named.names)?;
        let dates = keep::dates(alloc, entry, &named.dates)?;
        let kinds = keep::kinds(alloc, entry, &named.kinds)?;
        Ok(Snapshot {
            numbers,
            pages,
            long_texts,
            short_texts,
            names,
            dates,
            kinds,
        })
    }

    /// The answers that a program has in other ways, as from a file. Of two answers to a variable
    /// the first counts; persons in an empty list are no answer.
    pub fn of_parts(
        numbers: Vec<(NumberVariable, MaybeTyped<Numeric>)>,
        pages: Vec<(PageVariable, MaybeTyped<PageRanges>)>,
        long_texts: Vec<(StandardVariable, ChunkedString)>,
        short_texts: Vec<(StandardVariable, ChunkedString)>,
        names: Vec<(NameVariable, Vec<Person>)>,
        dates: Vec<(DateVariable, Date)>,
        kinds: Vec<Kind>,
    ) -> Snapshot
        ensures { kept_of result ≡ record {
          numbers = map (keyed (maybe_view numeric_view)) numbers.items;
          pages = map (keyed (maybe_view pages_view)) pages.items;
          long_texts = map (keyed chunks) long_texts.items;
          short_texts = map (keyed chunks) short_texts.items;
          names = map (keyed (λ persons. map person_view persons.items)) names.items;
          dates = map (keyed date_view) dates.items;
          kinds = kinds.items;
        } }
    {
        Snapshot {
            numbers,
            pages,
            long_texts,
            short_texts,
            names,
            dates,
            kinds,
        }
    }
}
