//! The positions of cites (CSL 1.0.2, Choose: position; Number Variables:
//! first-reference-note-number).

ghost use Rattle.std.specs.Prelude.{◌≡◌, option_map};
ghost use Rattle.std.specs.Bool.{Decides};
ghost use Rattle.csl_entry.specs.Cite.{locator_view, payload_of};
ghost use Rattle.csl_list.specs.Position as spec;

use csl_common::Memory;
use csl_entry::{IbidState, LocatorPayload, NoteNumber, SpecificLocator};
use std::alloc::Global;

/// A cite in the order in which the document prints them.
#[derive(Clone, Copy)]
pub(crate) struct PlacedCite<'d> {
    /// The index of its work.
    pub work: usize,
    pub locator: Option<SpecificLocator<'d>>,
    /// The number of its note, if it stands in one.
    pub note: Option<NoteNumber>,
}

/// The position of a cite.
#[derive(Clone, Copy)]
pub(crate) struct Position {
    pub first_note: Option<NoteNumber>,
    pub is_first: bool,
    pub is_near_note: bool,
    pub ibid: IbidState,
}

/// What the earlier cites of a work are.
#[derive(Clone, Copy)]
struct Earlier {
    is_cited: bool,
    first_note: Option<NoteNumber>,
    last_note: Option<NoteNumber>,
}

/// The cites so far.
#[derive(Drop)]
pub(crate) struct CitesSoFar<'d> {
    works: Vec<Earlier>,
    /// The cite that the next one may refer to as `ibid.`.
    before: Option<PlacedCite<'d>>,
    /// The number of notes up to which an earlier note is near.
    distance: u32,
}

/// A work has no cite so far.
const NONE_EARLIER: Earlier = Earlier {
    is_cited: false,
    first_note: None,
    last_note: None,
};

/// Whether two locators are the same text, or both the caller's.
fn is_same_payload(one: LocatorPayload<'_>, other: LocatorPayload<'_>) -> bool
    ensures { Decides result (payload_of one.entry ≡ payload_of other.entry) }
{
    match (one, other) {
        (LocatorPayload::Str(one), LocatorPayload::Str(other)) => one == other,
        (LocatorPayload::Transparent, LocatorPayload::Transparent) => true,
        (LocatorPayload::Str(_), LocatorPayload::Transparent)
        | (LocatorPayload::Transparent, LocatorPayload::Str(_)) => false,
    }
}

/// Whether two locators are the same.
fn is_same_locator(one: SpecificLocator<'_>, other: SpecificLocator<'_>) -> bool
    ensures { Decides result (locator_view one.entry ≡ locator_view other.entry) }
{
    one.0 == other.0 && is_same_payload(one.1, other.1)
}

/// Whether two cites point to the same place in their works.
fn is_same_place(one: Option<SpecificLocator<'_>>, other: Option<SpecificLocator<'_>>) -> bool
    ensures { Decides result (option_map locator_view one.entry
        ≡ option_map locator_view other.entry) }
{
    match (one, other) {
        (None, None) => true,
        (Some(one), Some(other)) => is_same_locator(one, other),
        (Some(_), None) | (None, Some(_)) => false,
    }
}

/// How a cite relates to the cite before it.
fn ibid_state(before: &PlacedCite<'_>, cite: &PlacedCite<'_>) -> IbidState
    ensures { spec.IsIbidState before.now cite.now result }
{
    if before.work != cite.work {
        return IbidState::Different;
    }
    if is_same_place(before.locator, cite.locator) {
        return IbidState::Ibid;
    }
    if cite.locator.is_some() {
        IbidState::IbidWithLocator
    } else {
        IbidState::Different
    }
}

/// Whether two notes are at most this far from each other.
fn is_near(distance: u32, one: Option<NoteNumber>, other: Option<NoteNumber>) -> bool
    ensures { result ≡ spec.is_near distance one other }
{
    match (one, other) {
        (Some(one), Some(other)) => one.get().abs_diff(other.get()) <= distance,
        (Some(_), None) | (None, Some(_)) | (None, None) => false,
    }
}

/// What the earlier cites of a work are after one in this note.
fn earlier_with(earlier: Earlier, note: Option<NoteNumber>) -> Earlier
    ensures { result ≡ spec.earlier_with note earlier }
{
    Earlier {
        is_cited: true,
        first_note: earlier.first_note.or(note),
        last_note: note.or(earlier.last_note),
    }
}

impl<'d> CitesSoFar<'d> {
    /// No cite so far.
    pub fn new(alloc: Global, works: usize, distance: u32) -> Result<CitesSoFar<'d>, Memory> {
        Ok(CitesSoFar {
            works: vec![in alloc; NONE_EARLIER; works]?,
            before: None,
            distance,
        })
    }

    /// Ends a citation of so many cites. The next cite may refer to the last of them if it stands
    /// alone.
    pub fn end_citation(&mut self, cites: usize) {
        if cites != 1 {
            self.before = None;
        }
    }

    /// Takes the next cite of a citation, and returns its position.
    pub fn next_position(&mut self, cite: PlacedCite<'d>) -> Position {
        let earlier = self.works.get(cite.work).copied().unwrap_or(NONE_EARLIER);
        if let Some(own) = self.works.get_mut(cite.work) {
            *own = earlier_with(earlier, cite.note);
        }
        let ibid = match &self.before {
            Some(before) => ibid_state(before, &cite),
            None => IbidState::Different,
        };
        self.before = Some(cite);
        Position {
            first_note: earlier.first_note,
            is_first: !earlier.is_cited,
            is_near_note: is_near(self.distance, earlier.last_note, cite.note),
            ibid,
        }
    }
}
