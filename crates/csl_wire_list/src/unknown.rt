//! Names that are none of those that are known.

use csl_wire::{Code, Limits, Reader, WireError, chosen};
use std::alloc::Global;

/// The names, each as a choice.
fn choices_of<'n>(alloc: Global, names: &[&'n str]) -> Result<Vec<(&'n str, bool)>, WireError> {
    let mut choices = Vec::with_capacity(alloc, names.len())?;
    for name in names {
        choices.push((*name, true))?;
    }
    Ok(choices)
}

/// The refusal of a name that is none of these.
pub(crate) fn unknown_name(alloc: Global, name: &str, known: &[&str]) -> WireError {
    let reader = Reader {
        alloc,
        limits: Limits::none(),
        marks: false,
    };
    match choices_of(alloc, known) {
        Ok(choices) => match chosen(reader, choices.as_slice(), name) {
            Ok(_) => WireError::of(alloc, Code::UnknownName, "nothing here has this name"),
            Err(error) => error,
        },
        Err(error) => error,
    }
}
