//! Pages in the format of a style (CSL 1.0.2, Terms: page-range-delimiter; Appendix V: Page Range
//! Formats).

ghost use Rattle.std.specs.Prelude.{◌≡◌, ◌-◌, ◌++◌, true, length, take, IfOk, OnOk, string_bytes};
ghost use Rattle.std.specs.Str.{IsAscii};
ghost use Rattle.lit_model.specs.Numeric.{numeric_view};
ghost use Rattle.lit_model.specs.NumericWrite.{numeric_text};
ghost use Rattle.lit_model.specs.Page.{part_view, pages_view};
ghost use Rattle.csl_nodes.specs.Pages as spec;

use csl_context::Context;
use csl_style::{OtherTerm, PageRangeFormat, Term, TermForm};
use lit_model::{Memory, Numeric, PageRanges, PageRangesPart};
use std::alloc::Global;

/// The room made for pages, which is that of a range.
const ROOM_OF_PAGES: usize = 24;

/// The least number of digits that a format keeps of the end of a range, if it drops repeated ones.
/// No style has a Chicago format.
fn kept_digits(format: Option<PageRangeFormat>) -> Option<usize>
    ensures { result ≡ spec.kept_digits format }
{
    match format {
        None => None,
        Some(PageRangeFormat::Expanded) => None,
        Some(PageRangeFormat::Minimal) => Some(1),
        Some(PageRangeFormat::MinimalTwo) => Some(2),
        Some(PageRangeFormat::Chicago15) => None,
        Some(PageRangeFormat::Chicago16) => None,
    }
}

/// Whether the text is a number of ASCII digits: at least one digit, and nothing else.
fn is_digits(text: &str) -> bool
    ensures value { result ≡ spec.is_digits text.now }
    ensures ascii { result ≡ true → IsAscii text.now }
{
    !text.is_empty() && text.bytes().all(|b| b.is_ascii_digit())
}

/// The front of a start that completes a shorter end.
fn missing_front<'t>(from: &'t str, to: &str) -> &'t str
    requires { IsAscii from.now }
    ensures { result.now ≡ take (length from.now - length to.now) from.now }
{
    let missing = from.len().saturating_sub(to.len());
    let (front, _) = from.split_at(missing);
    front
}

/// The end of a range. If it is shorter than the start, the start's front completes it.
fn completed_end(alloc: Global, from: &str, to: &str) -> Result<String, Memory>
    requires from { IsAscii from.now }
    requires to { IsAscii to.now }
    ensures text { IfOk result (λ s. string_bytes s ≡ spec.completed_end from.now to.now) }
    ensures ascii { IfOk result (λ s. IsAscii (string_bytes s)) }
{
    let mut filled = String::from_str(alloc, missing_front(from, to))?;
    filled.push_str(to)?;
    Ok(filled)
}

/// The end of a range that is as long as its start, without the front that repeats the start's. Its
/// last `kept` digits always stay.
fn abbreviated_end<'t>(from: &str, to: &'t str, kept: usize) -> &'t str
    requires ascii { IsAscii to.now }
    requires long { length from.now ≡ length to.now }
    ensures { result.now ≡ spec.abbreviated_end kept from.now to.now }
{
    let start = from.as_bytes();
    let end = to.as_bytes();
    let droppable = end.len().saturating_sub(kept);
    for place in 0..droppable {
        if start[place] != end[place] {
            let (_, rest) = to.split_at(place);
            return rest;
        }
    }
    let (_, rest) = to.split_at(droppable);
    rest
}

/// Appends the end of a range.
fn push_end(
    alloc: Global,
    text: &mut String,
    kept: Option<usize>,
    from: &str,
    to: &str,
) -> Result<(), Memory>
    ensures { OnOk result (string_bytes text.new
        ≡ string_bytes text.old ++ spec.end_text kept from.now to.now) }
{
    if !is_digits(from) || !is_digits(to) {
        text.push_str(to)?;
        return Ok(());
    }
    let Some(kept) = kept else {
        text.push_str(missing_front(from, to))?;
        text.push_str(to)?;
        return Ok(());
    };
    let filled = completed_end(alloc, from, to)?;
    if filled.len() == from.len() {
        text.push_str(abbreviated_end(from, filled.as_str(), kept))?;
    } else {
        text.push_str(filled.as_str())?;
    }
    Ok(())
}

/// Appends a range.
fn push_range(
    alloc: Global,
    text: &mut String,
    kept: Option<usize>,
    delimiter: &str,
    from: &Numeric,
    to: &Numeric,
) -> Result<(), Memory>
    ensures { OnOk result (string_bytes text.new ≡ string_bytes text.old
        ++ spec.range_text kept delimiter.now (numeric_text (numeric_view from.now))
        (numeric_text (numeric_view to.now))) }
{
    let from = from.to_string(alloc)?;
    let to = to.to_string(alloc)?;
    text.push_str(from.as_str())?;
    text.push_str(delimiter)?;
    push_end(alloc, text, kept, from.as_str(), to.as_str())
}

/// Appends a page, a range or a separator.
fn push_part(
    alloc: Global,
    text: &mut String,
    kept: Option<usize>,
    delimiter: &str,
    part: &PageRangesPart,
) -> Result<(), Memory>
    ensures { OnOk result (string_bytes text.new
        ≡ string_bytes text.old ++ spec.part_text kept delimiter.now (part_view part.now)) }
{
    match part {
        PageRangesPart::Ampersand => text.push_str(" & ")?,
        PageRangesPart::Comma => text.push_str(", ")?,
        PageRangesPart::EscapedRange(from, to) => {
            push_range(alloc, text, None, delimiter, from, to)?;
        }
        PageRangesPart::SinglePage(page) => {
            let page = page.to_string(alloc)?;
            text.push_str(page.as_str())?;
        }
        PageRangesPart::Range(from, to) => push_range(alloc, text, kept, delimiter, from, to)?,
    }
    Ok(())
}

/// Pages in a format, with a delimiter between the ends of each range.
fn pages_in_format(
    alloc: Global,
    format: Option<PageRangeFormat>,
    delimiter: &str,
    pages: &PageRanges,
) -> Result<String, Memory>
    ensures { IfOk result (λ s. string_bytes s
        ≡ spec.pages_in_format format delimiter.now (pages_view pages.now)) }
{
    let kept = kept_digits(format);
    let mut text = String::with_capacity(alloc, ROOM_OF_PAGES)?;
    for part in &pages.ranges {
        push_part(alloc, &mut text, kept, delimiter, part)?;
    }
    Ok(text)
}

/// Pages in the format of the context's style. Ranges have the style's delimiter, else an en dash.
#[tactic(auto, unfolding(crate::specs::Pages::pages_in_style))]
pub(crate) fn pages_in_style<T>(ctx: &Context<'_, T>, pages: &PageRanges) -> Result<String, Memory>
    ensures { IfOk result (λ s. string_bytes s
        ≡ spec.pages_in_style ctx.now.style (pages_view pages.now)) }
{
    let delimiter = Term::Other(OtherTerm::PageRangeDelimiter);
    let delimiter = ctx.term(delimiter, TermForm::Long, false).unwrap_or("–");
    let format = ctx.style().settings().page_range_format;
    pages_in_format(ctx.alloc(), format, delimiter, pages)
}

/// The text with an en dash for each hyphen.
pub(crate) fn with_dashes(alloc: Global, text: &str) -> Result<String, Memory>
    ensures { IfOk result (λ s. string_bytes s ≡ spec.with_dashes text.now) }
{
    let dashed = text
        .chars()
        .map(|c| if c == '-' { '–' } else { c })
        .collect(alloc)?;
    Ok(dashed)
}
