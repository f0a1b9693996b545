//! The works of a list whose first cites are equal, or have the same names (CSL 1.0.2,
//! Disambiguation; Cite Grouping).

ghost use Rattle.std.specs.Prelude.{◌≡◌, IfOk, length};

use crate::equal::first_equals;
use crate::identity::Likeness;
use crate::told::ToldCite;
use csl_common::Memory;
use std::alloc::Global;

/// The cites as keys that sort them.
pub(crate) fn cite_keys(alloc: Global, told: &[ToldCite]) -> Result<Vec<&str>, Memory>
    ensures { IfOk result (λ keys. length keys.items ≡ length told.now) }
{
    let mut keys = Vec::with_capacity(alloc, told.len())?;
    for cite in told {
        keys.push(cite.text.as_str())?;
    }
    Ok(keys)
}

/// The names of cites as keys that sort them.
fn names_keys(alloc: Global, told: &[ToldCite]) -> Result<Vec<&str>, Memory>
    ensures { IfOk result (λ keys. length keys.items ≡ length told.now) }
{
    let mut keys = Vec::with_capacity(alloc, told.len())?;
    for cite in told {
        keys.push(cite.names.as_str())?;
    }
    Ok(keys)
}

/// The place of the first work with the names of a work, if that has names.
fn names_at(names: &[&str], firsts: &[usize], place: usize) -> Option<usize> {
    match names.get(place) {
        Some(text) if !text.is_empty() => firsts.get(place).copied(),
        Some(_) | None => None,
    }
}

/// The works of a list that the work at each place is like, by their first cites.
pub(crate) fn likenesses(alloc: Global, told: &[ToldCite]) -> Result<Vec<Likeness>, Memory>
    ensures { IfOk result (λ likenesses. length likenesses.items ≡ length told.now) }
{
    let keys = cite_keys(alloc, told)?;
    let cites = first_equals(alloc, &keys)?;
    let keys = names_keys(alloc, told)?;
    let names = first_equals(alloc, &keys)?;
    let mut likenesses = Vec::with_capacity(alloc, cites.len())?;
    for (place, cite) in cites.iter().enumerate() {
        likenesses.push(Likeness {
            names: names_at(&keys, &names, place),
            cite: *cite,
        })?;
    }
    Ok(likenesses)
}
