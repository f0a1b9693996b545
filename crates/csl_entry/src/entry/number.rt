//! The answers of an entry to number variables.

ghost use Rattle.std.specs.Prelude.{◌≡◌, IfOk, option_map, option_copied};
ghost use Rattle.lit_model.specs.MaybeTyped.{maybe_view, typed};
ghost use Rattle.lit_model.specs.Numeric.{numeric_view};
ghost use Rattle.csl_entry.specs.Answers.{cow_view};
ghost use Rattle.csl_entry.specs.EntryNumber as spec;

use crate::entry::numeric_text::numeric_or_text;
use csl_elements::NumberVariable;
use lit_model::select::{chapter, part};
use lit_model::{Entry, EntryType, MaybeTyped, Memory, Numeric};
use std::alloc::Global;
use std::borrow::Cow;

/// Returns the entry's answer to a number variable (CSL 1.0.2, Number Variables): the number, or
/// the text if it is not a number. The citation answers `CitationNumber`,
/// `FirstReferenceNoteNumber` and `Locator`, and the entry does not. It does not answer `Section`
/// and `SupplementNumber` either.
pub(crate) fn number_variable(
    alloc: Global,
    entry: &Entry,
    variable: NumberVariable,
) -> Result<Option<MaybeTyped<Cow<'_, Numeric>>>, Memory>
    ensures { IfOk result (λ found. option_map (maybe_view (cow_view numeric_view)) found
        ≡ spec.number_of entry.now variable) }
{
    match variable {
        NumberVariable::ChapterNumber => number_answer(alloc, chapter_number(entry)),
        NumberVariable::CollectionNumber => number_answer(alloc, collection_number(entry)),
        NumberVariable::Edition => number_answer(alloc, entry.map(|work| work.edition())),
        NumberVariable::Issue => number_answer(alloc, entry.map(|work| work.issue())),
        NumberVariable::Number => own_number(alloc, entry),
        NumberVariable::NumberOfPages => Ok(numeric_answer(entry.page_total())),
        NumberVariable::NumberOfVolumes => Ok(numeric_answer(entry.volume_total())),
        NumberVariable::PageFirst => Ok(numeric_answer(first_page(entry))),
        NumberVariable::PartNumber => number_answer(alloc, part_number(entry)),
        NumberVariable::PrintingNumber => serial_answer(alloc, printing_number(entry)),
        NumberVariable::Version => serial_answer(alloc, version_number(entry)),
        NumberVariable::Volume => number_answer(alloc, volume_number(entry)),
        NumberVariable::CitationNumber
        | NumberVariable::FirstReferenceNoteNumber
        | NumberVariable::Locator
        | NumberVariable::Section
        | NumberVariable::SupplementNumber => Ok(None),
    }
}

/// The number or text that was found. A number is borrowed, and a text is copied.
pub(crate) fn number_answer(
    alloc: Global,
    found: Option<&MaybeTyped<Numeric>>,
) -> Result<Option<MaybeTyped<Cow<'_, Numeric>>>, Memory>
    ensures { IfOk result (λ r. option_map (maybe_view (cow_view numeric_view)) r
        ≡ spec.number_answer (option_copied found.entry)) }
{
    match found {
        None => Ok(None),
        Some(MaybeTyped::Typed(number)) => Ok(Some(MaybeTyped::Typed(Cow::Borrowed(number)))),
        Some(MaybeTyped::String(text)) => {
            let copy = String::from_str(alloc, text.as_str())?;
            Ok(Some(MaybeTyped::String(copy)))
        }
    }
}

/// The number that was found, borrowed.
fn numeric_answer(found: Option<&Numeric>) -> Option<MaybeTyped<Cow<'_, Numeric>>>
    ensures { option_map (maybe_view (cow_view numeric_view)) result
        ≡ option_map (λ n. typed (numeric_view n)) (option_copied found.entry) }
{
    match found {
        None => None,
        Some(number) => Some(MaybeTyped::Typed(Cow::Borrowed(number))),
    }
}

/// The number that the text of a serial number spells, or the text if it spells none.
fn serial_answer<'a>(
    alloc: Global,
    found: Option<&str>,
) -> Result<Option<MaybeTyped<Cow<'a, Numeric>>>, Memory>
    ensures { IfOk result (λ r. option_map (maybe_view (cow_view numeric_view)) r
        ≡ spec.serial_answer (option_copied found.entry)) }
{
    let Some(text) = found else {
        return Ok(None);
    };
    match numeric_or_text(alloc, text)? {
        MaybeTyped::Typed(number) => Ok(Some(MaybeTyped::Typed(Cow::Owned(number)))),
        MaybeTyped::String(text) => Ok(Some(MaybeTyped::String(text))),
    }
}

/// The entry's own chapter, or else its own volume if that numbers a chapter.
fn chapter_number(entry: &Entry) -> Option<&MaybeTyped<Numeric>>
    ensures { option_copied result ≡ spec.chapter_number entry.now }
{
    entry
        .chapter()
        .or_else(|| entry.bound_select(chapter())?.volume())
}

/// The volume of the entry's collection.
fn collection_number(entry: &Entry) -> Option<&MaybeTyped<Numeric>>
    ensures { option_copied result ≡ spec.collection_number entry.now }
{
    entry.get_collection()?.volume()
}

/// The entry's own number named `serial`, or else a chapter's own chapter.
fn own_number(alloc: Global, entry: &Entry) -> Result<Option<MaybeTyped<Cow<'_, Numeric>>>, Memory>
    ensures { IfOk result (λ r. option_map (maybe_view (cow_view numeric_view)) r
        ≡ spec.own_number entry.now) }
{
    match entry.keyed_serial_number("serial") {
        Some(text) => serial_answer(alloc, Some(text)),
        None if entry.entry_type() == EntryType::Chapter => number_answer(alloc, entry.chapter()),
        None => Ok(None),
    }
}

/// The first of the entry's own pages, if they are pages and not a text.
fn first_page(entry: &Entry) -> Option<&Numeric>
    ensures { option_map (λ page. numeric_view page.now) result ≡ spec.first_page_of entry.now }
{
    match entry.page_range()? {
        MaybeTyped::Typed(pages) => pages.first(),
        MaybeTyped::String(_) => None,
    }
}

/// The entry's own volume, if it numbers a part.
fn part_number(entry: &Entry) -> Option<&MaybeTyped<Numeric>>
    ensures { option_copied result ≡ spec.part_number entry.now }
{
    entry.bound_select(part())?.volume()
}

/// The number named `printing` in the first set of serial numbers along the entry and its parents.
fn printing_number(entry: &Entry) -> Option<&str>
    ensures { option_copied result ≡ spec.printing_number entry.now }
{
    entry.map(|work| work.serial_number())?.get("printing")
}

/// The version of the entry, if it is a repository.
fn version_number(entry: &Entry) -> Option<&str>
    ensures { option_copied result ≡ spec.version_number entry.now }
{
    if entry.entry_type() == EntryType::Repository {
        entry.keyed_serial_number("version")
    } else {
        None
    }
}

/// The volume of the entry's container, or else the entry's own.
fn volume_number(entry: &Entry) -> Option<&MaybeTyped<Numeric>>
    ensures { option_copied result ≡ spec.volume_number entry.now }
{
    entry
        .get_container()
        .and_then(Entry::volume)
        .or(entry.volume())
}
