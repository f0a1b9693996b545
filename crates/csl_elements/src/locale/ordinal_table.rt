//! The ordinals of a style's locales by their slots, so that a lookup goes through those of three
//! slots at most (CSL 1.0.2, Ordinals; Gender-specific Ordinals).

ghost use Rattle.std.specs.Prelude.{◌≡◌, ◌<◌, [], length, map, replicate, slice_index_or, IfOk};
ghost use Rattle.csl_elements.specs.Locale.{ordinal_view, ordinals_of};
ghost use Rattle.csl_elements.specs.OrdinalTable.{row_views, AreRowsOf, IsTableOf};
ghost use Rattle.csl_elements.specs.OrdinalTable as spec;

use crate::locale::ordinals::first_ordinals;
use crate::locale::{Locale, OrdinalSlot, OrdinalTerm};
use std::alloc::{AllocError, Global};

/// The rows of a table: 100 slots, the default, and ten words.
const ROWS: usize = 111;

/// The place of the default.
pub(crate) const DEFAULT: usize = 100;

/// The place of the row of a slot. A slot that no lookup asks for may share that of another, or
/// have none.
fn slot_place(slot: OrdinalSlot) -> usize
    ensures { result ≡ spec.slot_place slot }
{
    match slot {
        OrdinalSlot::Two(slot) => slot as usize,
        OrdinalSlot::Default => DEFAULT,
        OrdinalSlot::Long(word) => DEFAULT + word as usize,
    }
}

/// A copy of an ordinal.
fn copied(ordinal: &OrdinalTerm) -> Result<OrdinalTerm, AllocError>
    ensures { IfOk result (λ copy. ordinal_view copy ≡ ordinal_view ordinal.now) }
{
    Ok(OrdinalTerm {
        slot: ordinal.slot,
        matching: ordinal.matching,
        gender: ordinal.gender,
        text: ordinal.text.clone()?,
    })
}

/// Whether an ordinal of a row has the slot, the match and the gender of this one.
fn has_twin(row: &[OrdinalTerm], ordinal: &OrdinalTerm) -> bool
    ensures { result ≡ spec.has_twin (map ordinal_view row.now) (ordinal_view ordinal.now) }
{
    for other in row {
        if other.slot == ordinal.slot
            && other.matching == ordinal.matching
            && other.gender == ordinal.gender
        {
            return true;
        }
    }
    false
}

/// Adds a copy of an ordinal to a row, unless it has a twin there.
fn add(row: &mut Vec<OrdinalTerm>, ordinal: &OrdinalTerm) -> Result<(), AllocError>
    ensures { IfOk result (λ _. map ordinal_view row.new.items
        ≡ spec.with_ordinal (map ordinal_view row.old.items) (ordinal_view ordinal.now)) }
{
    if !has_twin(row, ordinal) {
        row.push(copied(ordinal)?)?;
    }
    Ok(())
}

/// Rows without ordinals.
fn empty_rows(alloc: Global) -> Result<Vec<Vec<OrdinalTerm>>, AllocError>
    ensures { IfOk result (λ rows. row_views rows.items ≡ replicate 111 []) }
{
    let mut rows = Vec::new(alloc);
    for _ in 0..ROWS {
        rows.push(Vec::new(alloc))?;
    }
    Ok(rows)
}

/// The rows of these ordinals.
fn rows_of(alloc: Global, ordinals: &[OrdinalTerm]) -> Result<Vec<Vec<OrdinalTerm>>, AllocError>
    ensures { IfOk result (λ rows. AreRowsOf rows.items (map ordinal_view ordinals.now)) }
{
    let mut rows = empty_rows(alloc)?;
    for ordinal in ordinals {
        let place = slot_place(ordinal.slot);
        if place < ROWS {
            add(&mut rows[place], ordinal)?;
        }
    }
    Ok(rows)
}

/// The ordinals that lookups in a style's locales find, by their slots. Of those that agree in
/// slot, match and gender, it has the first.
#[derive(Drop)]
pub struct OrdinalTable {
    rows: Vec<Vec<OrdinalTerm>>,
}

impl OrdinalTable {
    /// The table of a style's locales. The number of steps is in proportion to their ordinals.
    pub fn new(alloc: Global, locales: &[Locale]) -> Result<OrdinalTable, AllocError>
        ensures { IfOk result (λ table. IsTableOf table locales.now) }
    {
        Ok(OrdinalTable {
            rows: rows_of(alloc, first_ordinals(locales))?,
        })
    }

    /// The row at a place.
    pub(crate) fn row(&self, place: usize) -> &[OrdinalTerm]
        requires { place < length self.now.rows.items }
        ensures { map ordinal_view result.now
            ≡ slice_index_or (row_views self.now.rows.items) place [] }
    {
        &self.rows[place]
    }
}
