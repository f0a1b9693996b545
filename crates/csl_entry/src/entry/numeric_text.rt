//! Texts that may spell a number.
//! Definitions: specs/Answers.antt.

ghost use Rattle.std.specs.Prelude.{◌≡◌, ◌↔◌, IfOk, chars};
ghost use Rattle.lit_model.specs.MaybeTyped.{maybe_view, typed};
ghost use Rattle.lit_model.specs.Numeric.{NumericView, numeric_view, Spells};
ghost use Rattle.csl_entry.specs.Answers as spec;

use lit_model::{MaybeTyped, Memory, Numeric, NumericError};
use std::alloc::Global;

/// Returns the number that a text spells, or the text itself if it spells none (CSL 1.0.2, Number).
pub(crate) fn numeric_or_text(alloc: Global, text: &str) -> Result<MaybeTyped<Numeric>, Memory>
    ensures exact { IfOk result (λ found.
        maybe_view numeric_view found ≡ spec.numeric_or_text text.now) }
    // The result is a number exactly if the characters spell that number.
    ensures spells { IfOk result (λ found. (v : NumericView) →
        (maybe_view numeric_view found ≡ typed v) ↔ Spells v (chars text.now)) }
{
    match Numeric::parse(alloc, text) {
        Ok(number) => Ok(MaybeTyped::Typed(number)),
        Err(NumericError::NotNumeric) => {
            let text = String::from_str(alloc, text)?;
            Ok(MaybeTyped::String(text))
        }
        Err(NumericError::Memory) => Err(Memory),
    }
}
