//! Names that tell a work apart beside its year suffix. Rendering tells a cite apart by a suffix or
//! by the forms of its names, so a cite with a suffix gets its names from one without it.

use crate::citation::PositionedCite;
use crate::told::ToldWorks;
use csl_common::Memory;
use csl_elements::NameVariable;
use csl_tree::{Elem, ElemChild, ElemChildren, ElemMeta};
use std::alloc::Global;

/// The names that a cite begins with, in the forms that tell it apart.
#[derive(Drop)]
pub(crate) struct AddedNames {
    variable: Option<NameVariable>,
    content: ElemChildren,
}

/// The variable of the first list of an element of names.
fn variable_of(elem: &Elem) -> Option<NameVariable> {
    match &elem.meta {
        Some(ElemMeta::Names(lists)) => match lists.first() {
            Some((_, variable)) => Some(*variable),
            None => None,
        },
        Some(_) | None => None,
    }
}

/// The names that a content begins with, if they are not those of the style.
pub(crate) fn added_names(
    alloc: Global,
    content: &ElemChildren,
    are_added: bool,
) -> Result<Option<AddedNames>, Memory> {
    if !are_added {
        return Ok(None);
    }
    match content.find_names() {
        Some(names) => Ok(Some(AddedNames {
            variable: variable_of(names),
            content: names.children.clone(alloc)?,
        })),
        None => Ok(None),
    }
}

/// The names of a cite that stand beside its suffix, if it has one.
fn names_beside<'t, T>(
    told: &'t ToldWorks,
    cite: &PositionedCite<'_, '_, T>,
) -> Option<&'t AddedNames> {
    if !cite.identity.is_marked() {
        return None;
    }
    let place = cite.identity.number.get() as usize;
    let own = told.cites(cite.position.is_first).get(place)?;
    own.added.as_ref()
}

/// Puts names in the place of those that a cite begins with, if both are of one variable: if the
/// author is suppressed, it may begin with other names.
pub(crate) fn put_names(
    alloc: Global,
    cite: &mut ElemChildren,
    names: &AddedNames,
) -> Result<(), Memory> {
    let Some(own) = cite.find_names_mut() else {
        return Ok(());
    };
    if variable_of(own) == names.variable {
        own.children = names.content.clone(alloc)?;
    }
    Ok(())
}

/// Puts the names that tell works apart beside their suffixes into the cites of a citation. `cites`
/// are these cites, and those that print nothing.
pub(crate) fn put_added_names<T>(
    alloc: Global,
    content: &mut ElemChildren,
    cites: &[PositionedCite<'_, '_, T>],
    told: &ToldWorks,
) -> Result<(), Memory> {
    let mut next = cites.iter();
    for child in content.0.iter_mut() {
        if let ElemChild::Elem(elem) = child {
            if let Some(ElemMeta::Entry(work)) = elem.meta {
                let own = next.find(|cite| cite.item.work == work);
                if let Some(names) = own.and_then(|cite| names_beside(told, cite)) {
                    put_names(alloc, &mut elem.children, names)?;
                }
            }
        }
    }
    Ok(())
}
