//! The name that a word was meant to be.

use crate::refusal::{Code, WireError};
use std::alloc::{AllocError, Global};
use strsim::levenshtein;

/// The longest word that a name is sought for.
const LONGEST: usize = 60;

/// The place of the first name that is nearest to a word, if it takes few edits: at most one, and
/// one more for each four bytes of the word.
fn nearest_place(alloc: Global, names: &[&str], word: &str) -> Result<Option<usize>, AllocError> {
    let mut nearest = None;
    let mut fewest = 2 + word.len() / 4;
    for (place, name) in names.iter().enumerate() {
        let edits = levenshtein(alloc, *name, word)?;
        if edits < fewest {
            fewest = edits;
            nearest = Some(place);
        }
    }
    Ok(nearest)
}

/// The name that is nearest to a word, if one is near.
fn nearest(alloc: Global, names: &[&str], word: &str) -> Result<Option<String>, AllocError> {
    if word.len() > LONGEST {
        return Ok(None);
    }
    match nearest_place(alloc, names, word)? {
        Some(place) => match names.get(place) {
            Some(name) => Ok(Some(String::from_str(alloc, *name)?)),
            None => Ok(None),
        },
        None => Ok(None),
    }
}

/// The names of several lists, as one.
fn joined<'n>(alloc: Global, lists: &[&[&'n str]]) -> Result<Vec<&'n str>, AllocError> {
    let mut names = Vec::new(alloc);
    for list in lists {
        names.extend_from_slice(*list)?;
    }
    Ok(names)
}

/// The refusal of a word that is none of the names.
pub(crate) fn unknown(
    alloc: Global,
    code: Code,
    reason: &'static str,
    names: &[&str],
    word: &str,
) -> WireError {
    match nearest(alloc, names, word) {
        Ok(nearest) => WireError::of_word(alloc, code, reason, word, nearest),
        Err(_) => WireError::Memory,
    }
}

/// The refusal of a word that is none of the names of several lists.
pub(crate) fn unknown_among(
    alloc: Global,
    code: Code,
    reason: &'static str,
    lists: &[&[&str]],
    word: &str,
) -> WireError {
    match joined(alloc, lists) {
        Ok(names) => unknown(alloc, code, reason, names.as_slice(), word),
        Err(_) => WireError::Memory,
    }
}
