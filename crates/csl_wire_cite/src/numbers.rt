//! Numbers and pages (CSL 1.0.2, Number Variables).

ghost use Rattle.std.specs.Prelude.{◌≡◌, Some, IfOk};
ghost use Rattle.serde_json.specs.View.{view};
ghost use Rattle.lit_model.specs.MaybeTyped.{maybe_view};
ghost use Rattle.lit_model.specs.Numeric.{numeric_view};
ghost use Rattle.lit_model.specs.Page.{pages_view};
ghost use Rattle.csl_wire_cite.specs.Numbers.{read_number, ArePages};
ghost use Rattle.csl_wire_cite.specs.Reads.{read_integer};

use csl_wire::{Code, Reader, WireError, text_of};
use lit_model::{MaybeTyped, Numeric, NumericError, PageRanges};
use serde_json::Value;

/// The whole number that a JSON number is.
pub(crate) fn integer(reader: Reader, value: &Value) -> Result<i32, WireError>
    ensures { IfOk result (λ n. read_integer (view value.now) ≡ Some n) }
{
    if !value.is_number() {
        return Err(WireError::of(reader.alloc, Code::WrongType, "a number goes here"));
    }
    match value.as_i64().and_then(|number| i32::try_from(number).ok()) {
        Some(number) => Ok(number),
        None => Err(WireError::of(
            reader.alloc,
            Code::OutOfRange,
            "a whole number from -2147483648 to 2147483647 goes here",
        )),
    }
}

/// A number, or the text in its place, if that spells none.
pub(crate) fn number(reader: Reader, value: &Value) -> Result<MaybeTyped<Numeric>, WireError>
    ensures { IfOk result (λ n. read_number (view value.now) ≡ Some (maybe_view numeric_view n)) }
{
    if value.is_number() {
        let number = integer(reader, value)?;
        return Ok(MaybeTyped::Typed(Numeric::new(number)));
    }
    let text = text_of(reader, value)?;
    match Numeric::parse(reader.alloc, text.as_str()) {
        Ok(number) => Ok(MaybeTyped::Typed(number)),
        Err(NumericError::NotNumeric) => Ok(MaybeTyped::String(text)),
        Err(NumericError::Memory) => Err(WireError::Memory),
    }
}

/// Pages, or the text in their place, if that spells none.
pub(crate) fn pages(reader: Reader, value: &Value) -> Result<MaybeTyped<PageRanges>, WireError>
    ensures { IfOk result (λ p. ArePages (view value.now) (maybe_view pages_view p)) }
{
    let text = text_of(reader, value)?;
    match PageRanges::parse(reader.alloc, text.as_str()) {
        Ok(pages) => Ok(MaybeTyped::Typed(pages)),
        Err(NumericError::NotNumeric) => Ok(MaybeTyped::String(text)),
        Err(NumericError::Memory) => Err(WireError::Memory),
    }
}
