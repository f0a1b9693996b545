//! Documents: their citations, and the works that they name (CSL 1.0.2, Citation; Bibliography).
//! Definitions: specs/Documents.antt.

ghost use Rattle.std.specs.Prelude.{◌≡◌, IfOk, OnOk, map};
ghost use Rattle.serde_json.specs.View.{view};
ghost use Rattle.csl_wire_list.specs.Documents.{word_in, IsDocument};
ghost use Rattle.csl_wire_list.specs.Works.{names_of, with_names};

use crate::citations::{check_size, citations};
use crate::limits::DocumentLimits;
use crate::unknown::unknown_name;
use crate::works::{Mention, NamedWork, WorksSoFar};
use csl_list::CitationRequest;
use csl_wire::{Code, Form, Reader, Step, WireError, within, word_of};
use serde_json::Value;
use std::alloc::Global;

/// The citations of a document, and the works that it names. It borrows texts from the JSON value.
#[derive(Drop)]
pub struct WireDocument<'v> {
    /// The citations, in order. A cite has the index of its work among the works.
    pub citations: Vec<CitationRequest<'v>>,
    /// The works, each once, as they are first cited, and then those that are listed without a
    /// cite.
    pub works: Vec<NamedWork<'v>>,
}

impl<'v> NamedWork<'v> {
    /// The error of this work, as one of the document: its place is the one where the document
    /// names the work first.
    pub fn refused(&self, error: WireError) -> WireError {
        match self.first {
            Mention::Cite { citation, item } => error
                .after(Step::Member("work"))
                .after(Step::Item(item))
                .after(Step::Member("items"))
                .after(Step::Item(citation))
                .after(Step::Member("citations")),
            Mention::Work(place) => error.after(Step::Item(place)).after(Step::Member("works")),
        }
    }

    /// The refusal of the document for this work, if its name is none of those that are known.
    pub fn unknown(&self, alloc: Global, known: &[&str]) -> WireError {
        self.refused(unknown_name(alloc, self.name, known))
    }
}

/// Refuses a list of more works than the limits allow.
fn check_works(alloc: Global, limits: DocumentLimits, values: &[Value]) -> Result<(), WireError> {
    if values.len() > limits.works {
        return Err(WireError::of(alloc, Code::TooLong, "there are too many works"));
    }
    Ok(())
}

/// Adds the works of a list of names.
#[tactic(auto, using(crate::proofs::Longer::one_word_more, crate::proofs::Read::word_read))]
fn add_works<'v>(
    reader: Reader,
    works: &mut WorksSoFar<'v>,
    values: &'v [Value],
) -> Result<(), WireError>
    ensures { OnOk result (names_of works.new.works.items
        ≡ with_names (names_of works.old.works.items) (map word_in (map view values.now))) }
{
    for (place, value) in values.iter().enumerate() {
        let name = within(Step::Item(place), word_of(reader, value))?;
        works.index_of(name, Mention::Work(place))?;
    }
    Ok(())
}

/// A document among the members of a request, which may have further members.
///
/// # Errors
/// [`WireError::Refused`]: the members are no document within the limits.
#[tactic(auto, using(crate::proofs::Read::document_read))]
pub fn document_in<'v>(
    form: Form<'v>,
    limits: DocumentLimits,
) -> Result<WireDocument<'v>, WireError>
    ensures { IfOk result (λ document. IsDocument (view form.entry.value.now)
        (names_of document.works.items) document.citations.items) }
{
    let alloc = form.reader.alloc;
    let (of_citations, of_works) = (Step::Member("citations"), Step::Member("works"));
    let cited = form.items("citations")?;
    within(of_citations, check_size(alloc, limits, cited))?;
    let listed = form.items("works")?;
    within(of_works, check_works(alloc, limits, listed))?;
    let mut works = WorksSoFar::new(alloc);
    let read = citations(alloc, limits, &mut works, cited);
    let citations = within(of_citations, read)?;
    within(of_works, add_works(form.reader, &mut works, listed))?;
    Ok(WireDocument {
        citations,
        works: works.into_works(),
    })
}

/// The members of a document.
static DOCUMENT: [&str; 2] = ["citations", "works"];

/// A document.
///
/// # Errors
/// [`WireError::Refused`]: the value is no document within the limits.
pub fn document_of<'v>(
    alloc: Global,
    value: &'v Value,
    limits: DocumentLimits,
) -> Result<WireDocument<'v>, WireError>
    ensures { IfOk result (λ document. IsDocument (view value.now)
        (names_of document.works.items) document.citations.items) }
{
    let form = Form::of(limits.texts(alloc), value, &[&DOCUMENT])?;
    Ok(document_in(form, limits)?)
}
