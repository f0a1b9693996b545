//! Year suffixes of works with equal cites (CSL 1.0.2, Disambiguation:
//! disambiguate-add-year-suffix).
//! Definitions: specs/Errors.antt.

ghost use Rattle.std.specs.Prelude.{◌≡◌, IfOk, IfErr};
ghost use Rattle.csl_list.specs.Errors.{IsListingError};

use crate::error::ListError;
use crate::likeness::cite_keys;
use crate::told::ToldCite;
use csl_common::Memory;
use csl_finish::order_of;
use std::alloc::Global;

/// Whether the texts at two places are there, and equal.
fn are_equal_at(texts: &[&str], one: Option<&usize>, other: Option<&usize>) -> bool {
    let (Some(one), Some(other)) = (one, other) else {
        return false;
    };
    match (texts.get(*one), texts.get(*other)) {
        (Some(one), Some(other)) => one == other,
        _ => false,
    }
}

/// For each text its index among those that are equal to it, if there are others.
fn indices_among_equals(alloc: Global, texts: &[&str]) -> Result<Vec<Option<usize>>, Memory> {
    let order = order_of(alloc, texts.to_vec(alloc)?)?;
    let mut indices = vec![in alloc; None; texts.len()]?;
    let mut index: usize = 0;
    let mut before: Option<&usize> = None;
    for (i, place) in order.iter().enumerate() {
        let is_next = are_equal_at(texts, before, Some(place));
        index = if is_next { index.saturating_add(1) } else { 0 };
        let is_before = are_equal_at(texts, Some(place), order.get(i.saturating_add(1)));
        if is_next || is_before {
            if let Some(own) = indices.get_mut(*place) {
                *own = Some(index);
            }
        }
        before = Some(place);
    }
    Ok(indices)
}

/// The year suffix of this index.
fn suffix_at(index: usize) -> Result<u16, ListError>
    ensures ok { IfOk result (λ suffix. suffix ≡ index) }
    ensures err { IfErr result IsListingError }
{
    u16::try_from(index).map_err(|_| ListError::TooManyWorks)
}

/// The year suffixes of the works of a list, in its order, by their first cites: `a`, `b`, .. for
/// works with equal ones.
pub(crate) fn year_suffixes(alloc: Global, told: &[ToldCite]) -> Result<Vec<Option<u16>>, ListError>
    ensures err { IfErr result IsListingError }
{
    let texts = cite_keys(alloc, told)?;
    let indices = indices_among_equals(alloc, &texts)?;
    let mut suffixes = Vec::with_capacity(alloc, indices.len())?;
    for index in indices {
        suffixes.push(match index {
            Some(index) => Some(suffix_at(index)?),
            None => None,
        })?;
    }
    Ok(suffixes)
}
