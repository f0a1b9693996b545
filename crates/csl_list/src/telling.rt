//! The cites that works are told apart by: in notes later ones, which say less than the first (CSL
//! 1.0.2, Choose: position; Disambiguation).
//! Definitions: specs/Told.antt.

ghost use Rattle.std.specs.Prelude.{◌≡◌, IfOk, length};
ghost use Rattle.csl_entry.specs.Cite.{cite_state, disambiguation_of};
ghost use Rattle.csl_entry.specs.Numbers.{citation_number};
ghost use Rattle.csl_list.specs.Told as spec;

use crate::request::CitationRequest;
use csl_common::Memory;
use csl_entry::{
    CertainCiteProperties, CitationNumber, CiteProperties, DisambiguateState, IbidState,
    NoteNumber, SpeculativeCiteProperties,
};
use std::alloc::Global;

/// The cite of a work that tells it apart from others.
#[derive(Clone, Copy)]
pub(crate) enum TellingCite {
    /// The first one.
    First,
    /// A later one, with the number of the first note that cites the work, if one does.
    Later(Option<NoteNumber>),
}

/// A later cite with the number of this note, if no note before it has cited the work.
fn noted(own: TellingCite, note: Option<NoteNumber>) -> TellingCite
    ensures { result ≡ spec.noted own note }
{
    match own {
        TellingCite::Later(None) => TellingCite::Later(note),
        TellingCite::Later(Some(_)) | TellingCite::First => own,
    }
}

/// Gives the works of a citation its note, if they have none.
fn note_works(telling: &mut [TellingCite], request: &CitationRequest<'_>) {
    for item in &request.items {
        if let Some(own) = telling.get_mut(item.work) {
            *own = noted(*own, request.note_number);
        }
    }
}

/// For each work the cite that tells it apart: the first one, or a later one if the document has
/// notes.
pub(crate) fn telling_cites(
    alloc: Global,
    requests: &[CitationRequest<'_>],
    works: usize,
) -> Result<Vec<TellingCite>, Memory> {
    if requests.iter().all(|request| request.note_number.is_none()) {
        let telling = vec![in alloc; TellingCite::First; works]?;
        return Ok(telling);
    }
    let mut telling = vec![in alloc; TellingCite::Later(None); works]?;
    for request in requests {
        note_works(&mut telling, request);
    }
    Ok(telling)
}

impl TellingCite {
    /// The properties of the cite, of a work with this number.
    pub fn properties<'d>(
        self,
        number: CitationNumber,
        disambiguation: DisambiguateState,
    ) -> CiteProperties<'d>
        ensures { cite_state result ≡ spec.told_state self (citation_number number)
            (disambiguation_of disambiguation) }
    {
        let (is_first, first_note_number) = match self {
            TellingCite::First => (true, None),
            TellingCite::Later(note) => (false, note),
        };
        CiteProperties {
            certain: CertainCiteProperties {
                first_note_number,
                is_first,
                is_near_note: false,
                initial_idx: 0,
            },
            speculative: SpeculativeCiteProperties {
                citation_number: number,
                disambiguation,
                locator: None,
                ibid: IbidState::Different,
            },
        }
    }
}
