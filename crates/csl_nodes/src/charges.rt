//! What numbers and pages take of a context's limit before their text is made (CSL 1.0.2, Number;
//! Text: variable).
//! Definitions: crates/csl_context/specs/Context.antt.

ghost use Rattle.csl_context.specs.Context.{Runs, same_context};

use csl_context::{Context, RenderError};
use csl_entry::{NumberOrPageVariableResult, NumberVariableResult};
use lit_model::{MaybeTyped, Numeric, NumericValue, PageRanges, PageRangesPart};

/// What a number takes beside the texts around it, in bytes. Its own text and a delimiter are
/// mostly shorter.
const BYTES_OF_NUMBER: usize = 24;

/// The bytes of a text, if there is one.
fn len_of(text: &Option<String>) -> usize {
    match text {
        Some(text) => text.len(),
        None => 0,
    }
}

/// What numbers take, with the texts around them.
fn numeric_bytes(number: &Numeric) -> usize {
    let count = match &number.value {
        NumericValue::Number(_) => 1,
        NumericValue::Set(numbers) => numbers.len(),
    };
    count
        .saturating_mul(BYTES_OF_NUMBER)
        .saturating_add(len_of(&number.prefix))
        .saturating_add(len_of(&number.suffix))
}

/// What a page, a range or a separator takes.
fn part_bytes(part: &PageRangesPart) -> usize {
    match part {
        PageRangesPart::Ampersand => BYTES_OF_NUMBER,
        PageRangesPart::Comma => BYTES_OF_NUMBER,
        PageRangesPart::SinglePage(page) => numeric_bytes(page),
        PageRangesPart::EscapedRange(from, to) => {
            numeric_bytes(from).saturating_add(numeric_bytes(to))
        }
        PageRangesPart::Range(from, to) => numeric_bytes(from).saturating_add(numeric_bytes(to)),
    }
}

/// What pages take.
fn pages_bytes(pages: &PageRanges) -> usize {
    let mut bytes: usize = 0;
    for part in &pages.ranges {
        bytes = bytes.saturating_add(part_bytes(part));
    }
    bytes
}

/// What an answer takes.
fn answer_bytes(found: &NumberOrPageVariableResult<'_>) -> usize {
    match found {
        NumberOrPageVariableResult::Number(
            NumberVariableResult::Regular(MaybeTyped::Typed(number)),
        ) => numeric_bytes(number.as_ref()),
        NumberOrPageVariableResult::Number(
            NumberVariableResult::Regular(MaybeTyped::String(words)),
        ) => words.len(),
        NumberOrPageVariableResult::Number(NumberVariableResult::Transparent(_)) => 0,
        NumberOrPageVariableResult::Page(MaybeTyped::Typed(pages)) => pages_bytes(pages),
        NumberOrPageVariableResult::Page(MaybeTyped::String(words)) => words.len(),
    }
}

/// Takes the bytes of an answer from what the context may write, before its text is made.
pub(crate) fn charge_answer<T>(
    ctx: &mut Context<'_, T>,
    found: &NumberOrPageVariableResult<'_>,
) -> Result<(), RenderError>
    ensures { Runs same_context result ctx.old ctx.new }
{
    if !ctx.is_limited() {
        // Without a limit nobody need know them.
        return ctx.ensure_live();
    }
    ctx.charge(answer_bytes(found))
}
