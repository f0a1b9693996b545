//! The citations of a document (CSL 1.0.2, Citation).
//! Definitions: specs/Citations.antt.

ghost use Rattle.std.specs.Prelude.{◌≡◌, ◌≤◌, Some, IfOk, IfSome, OnOk, codes, map, option_map};
ghost use Rattle.std.specs.List.{AllZip, flat_map};
ghost use Rattle.serde_json.specs.View.{view};
ghost use Rattle.csl_entry.specs.Numbers as numbers;
ghost use Rattle.csl_wire.specs.Reading.{read_member, read_number};
ghost use Rattle.csl_wire_list.specs.Citations.{names_in, IsCitation};
ghost use Rattle.csl_wire_list.specs.Works.{names_of, with_names};

use crate::items::items;
use crate::limits::DocumentLimits;
use crate::works::WorksSoFar;
use csl_entry::NoteNumber;
use csl_list::CitationRequest;
use csl_wire::{Code, Form, Step, WireError, within};
use serde_json::Value;
use std::alloc::Global;

/// The number of a note, which counts from 1.
fn counted_from_one(number: u32) -> Option<NoteNumber>
    ensures { IfSome result (λ n. (numbers.note_number n ≡ number) × (1 ≤ number)) }
{
    if number == 0 {
        return None;
    }
    NoteNumber::new(number)
}

/// The number of the note of a citation.
fn note_number(form: Form<'_>) -> Result<Option<NoteNumber>, WireError>
    ensures { IfOk result (λ n. read_member read_number (codes "note-number")
        (view form.entry.value.now) ≡ Some (option_map numbers.note_number n)) }
{
    let Some(number) = form.number("note-number")? else {
        return Ok(None);
    };
    match counted_from_one(number) {
        Some(number) => Ok(Some(number)),
        None => {
            let reason = "a note number is from 1 to 2147483647";
            let error = WireError::of(form.reader.alloc, Code::OutOfRange, reason);
            Err(error.after(Step::Member("note-number")))
        }
    }
}

/// The members of a citation.
static CITATION: [&str; 2] = ["note-number", "items"];

/// The citation at this index.
#[tactic(auto, using(crate::proofs::Read::citation_read, crate::proofs::Read::names_read))]
fn citation<'v>(
    alloc: Global,
    limits: DocumentLimits,
    works: &mut WorksSoFar<'v>,
    value: &'v Value,
    place: usize,
) -> Result<CitationRequest<'v>, WireError>
    ensures citation { IfOk result (IsCitation (names_of works.new.works.items)
        (view value.now)) }
    ensures names { OnOk result (names_of works.new.works.items
        ≡ with_names (names_of works.old.works.items) (names_in (view value.now))) }
{
    let form = Form::of(limits.texts(alloc), value, &[&CITATION])?;
    let note_number = note_number(form)?;
    let values = form.items("items")?;
    let read = items(alloc, limits, works, values, place);
    let items = within(Step::Member("items"), read)?;
    Ok(CitationRequest { items, note_number })
}

/// The citations of a list.
#[tactic(auto, using(crate::proofs::Longer::one_citation_more, crate::proofs::Longer::names_more))]
pub(crate) fn citations<'v>(
    alloc: Global,
    limits: DocumentLimits,
    works: &mut WorksSoFar<'v>,
    values: &'v [Value],
) -> Result<Vec<CitationRequest<'v>>, WireError>
    ensures citations { IfOk result (λ citations. AllZip
        (IsCitation (names_of works.new.works.items)) (map view values.now) citations.items) }
    ensures names { OnOk result (names_of works.new.works.items
        ≡ with_names (names_of works.old.works.items) (flat_map names_in (map view values.now))) }
{
    let mut citations = Vec::with_capacity(alloc, values.len())?;
    for (place, value) in values.iter().enumerate() {
        let read = citation(alloc, limits, works, value, place);
        citations.push(within(Step::Item(place), read)?)?;
    }
    Ok(citations)
}

/// The number of cites of citations.
fn cite_count(values: &[Value]) -> usize {
    let mut count: usize = 0;
    for value in values {
        if let Some(items) = value.get("items").and_then(|items| items.as_array()) {
            count = count.saturating_add(items.len());
        }
    }
    count
}

/// Refuses citations that are too many, or have too many cites.
pub(crate) fn check_size(
    alloc: Global,
    limits: DocumentLimits,
    values: &[Value],
) -> Result<(), WireError> {
    if values.len() > limits.citations {
        let reason = "there are too many citations";
        return Err(WireError::of(alloc, Code::TooLong, reason));
    }
    if cite_count(values) > limits.cites {
        return Err(WireError::of(alloc, Code::TooLong, "there are too many cites"));
    }
    Ok(())
}
