//! Locators that are ranges, with the delimiter of ranges in the place of the hyphen (CSL 1.0.2,
//! Locators; Terms: page-range-delimiter).
//!
//! Rendering prints the text of a locator as it stands, and its label is in the plural beside
//! numbers with a hyphen alone. So a range is handed over with a hyphen, between two marks, and the
//! delimiter is put into it afterwards. The marks are noncharacters, which Unicode keeps for a
//! program's own use.

ghost use Rattle.std.specs.Prelude.{◌≡◌, IfOk, length};
ghost use Rattle.csl_list.specs.Locator as spec;

use crate::request::CitationItem;
use csl_common::Memory;
use csl_elements::{OtherTerm, Term, TermForm};
use csl_entry::{LocatorPayload, SpecificLocator};
use csl_style::Style;
use csl_tree::{ElemChild, ElemChildren};
use std::alloc::Global;

/// The mark before a locator that is a range.
const START: char = '\u{1fffe}';

/// The mark after it.
const END: char = '\u{1ffff}';

/// Whether a character is a hyphen or an en dash.
fn is_dash(letter: char) -> bool
    ensures { result ≡ spec.is_dash letter }
{
    letter == '-' || letter == '–'
}

/// Whether what stands between two digits is a dash, alone or between spaces.
fn is_range(between: &str) -> bool {
    let mut letters = between.trim().chars();
    match letters.next() {
        Some(letter) => is_dash(letter) && letters.next().is_none(),
        None => false,
    }
}

/// Adds what stands between two digits: a hyphen, if it makes them a range. Returns whether it
/// does.
fn push_between(marked: &mut String, between: &str) -> Result<bool, Memory> {
    let is_range = is_range(between);
    marked.push_str(if is_range { "-" } else { between })?;
    Ok(is_range)
}

/// The text between marks, with a hyphen in the place of what makes digits a range, if it has some.
fn marked_range(alloc: Global, text: &str) -> Result<Option<String>, Memory> {
    let (mut marked, mut between) = (String::new(alloc), String::new(alloc));
    let (mut has_range, mut is_after_digit) = (false, false);
    marked.push(START)?;
    for letter in text.chars() {
        if letter.is_ascii_digit() {
            has_range = push_between(&mut marked, between.as_str())? || has_range;
            between.clear();
            is_after_digit = true;
            marked.push(letter)?;
        } else if is_after_digit && (letter == ' ' || is_dash(letter)) {
            between.push(letter)?;
        } else {
            marked.push_str(between.as_str())?;
            between.clear();
            is_after_digit = false;
            marked.push(letter)?;
        }
    }
    marked.push_str(between.as_str())?;
    marked.push(END)?;
    Ok(if has_range { Some(marked) } else { None })
}

/// The locator of a cite between marks, if it is a range.
fn marked_locator(alloc: Global, item: &CitationItem<'_>) -> Result<Option<String>, Memory> {
    match item.locator {
        Some(SpecificLocator(_, LocatorPayload::Str(text))) => marked_range(alloc, text),
        Some(_) | None => Ok(None),
    }
}

/// The locators of cites that are ranges, between marks.
pub(crate) fn marked_locators(
    alloc: Global,
    items: &[CitationItem<'_>],
) -> Result<Vec<Option<String>>, Memory>
    ensures { IfOk result (λ marked. length marked.items ≡ length items.now) }
{
    let mut marked = Vec::with_capacity(alloc, items.len())?;
    for item in items {
        marked.push(marked_locator(alloc, item)?)?;
    }
    Ok(marked)
}

/// The locator that a cite is rendered with: its own, or the marked one, if there is one.
pub(crate) fn locator_with_marks<'a>(
    item: &'a CitationItem<'_>,
    marked: Option<&'a Option<String>>,
) -> Option<SpecificLocator<'a>> {
    match (item.locator, marked) {
        (Some(SpecificLocator(kind, _)), Some(Some(text))) => Some(SpecificLocator(
            kind,
            LocatorPayload::Str(text.as_str()),
        )),
        (locator, _) => locator,
    }
}

/// The delimiter of ranges in a style's language: its term, else an en dash.
pub(crate) fn range_delimiter(style: &Style) -> &str {
    let term = Term::Other(OtherTerm::PageRangeDelimiter);
    style.term(term, TermForm::Long, false).unwrap_or("–")
}

/// Whether a text has a mark.
fn has_mark(text: &str) -> bool {
    text.chars().any(|letter| letter == START || letter == END)
}

/// The text without marks, with the delimiter in the place of each hyphen after a digit between
/// marks.
fn with_delimiters(alloc: Global, text: &str, delimiter: &str) -> Result<String, Memory> {
    let mut delimited = String::new(alloc);
    let (mut is_between, mut is_after_digit) = (false, false);
    for letter in text.chars() {
        if letter == START || letter == END {
            is_between = letter == START;
        } else if letter == '-' && is_between && is_after_digit {
            delimited.push_str(delimiter)?;
        } else {
            delimited.push(letter)?;
        }
        is_after_digit = letter.is_ascii_digit();
    }
    Ok(delimited)
}

/// Puts the delimiter into the ranges between marks, wherever they stand in a content, and removes
/// the marks.
#[cycle(delimit)]
pub(crate) fn delimit_ranges(
    alloc: Global,
    content: &mut ElemChildren,
    delimiter: &str,
) -> Result<(), Memory> {
    for child in content.0.iter_mut() {
        match child {
            ElemChild::Text(text) => {
                if has_mark(text.text.as_str()) {
                    text.text = with_delimiters(alloc, text.text.as_str(), delimiter)?;
                }
            }
            ElemChild::Elem(elem) => delimit_ranges(alloc, &mut elem.children, delimiter)?,
            ElemChild::Markup(_) | ElemChild::Link { .. } | ElemChild::Transparent { .. } => {}
        }
    }
    Ok(())
}
