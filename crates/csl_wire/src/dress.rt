//! The attributes of how a node is formatted and placed.
//! Definitions: specs/Dressed.antt.

ghost use Rattle.std.specs.Prelude.{◌≡◌, Some, IfOk};
ghost use Rattle.serde_json.specs.View.{view};
ghost use Rattle.csl_elements.specs.Dressing.{affix_texts};
ghost use Rattle.csl_wire.specs.Dressed.{marked, marked_if, read_affixes, read_cased_affixes, read_display, read_formatting};

use crate::choices::{
    DISPLAYS, FONT_STYLES, FONT_VARIANTS, FONT_WEIGHTS, TEXT_CASES, TEXT_DECORATIONS,
    VERTICAL_ALIGNS,
};
use crate::form::Form;
use crate::refusal::WireError;
use csl_common::Memory;
use csl_elements::{Affixes, Display, Formatting};
use csl_finish::TextCase;
use std::alloc::Global;

/// The members of a formatting (CSL 1.0.2, Formatting).
pub(crate) static FORMATTING: [&str; 5] = [
    "font-style",
    "font-variant",
    "font-weight",
    "text-decoration",
    "vertical-align",
];

/// The members of affixes (CSL 1.0.2, Affixes).
pub(crate) static AFFIXES: [&str; 2] = ["prefix", "suffix"];

/// The formatting among the members.
pub(crate) fn formatting(form: Form<'_>) -> Result<Formatting, WireError>
    ensures { IfOk result (λ f. read_formatting (view form.entry.value.now) ≡ Some f) }
{
    Ok(Formatting {
        font_style: form.choice("font-style", &FONT_STYLES)?,
        font_variant: form.choice("font-variant", &FONT_VARIANTS)?,
        font_weight: form.choice("font-weight", &FONT_WEIGHTS)?,
        text_decoration: form.choice("text-decoration", &TEXT_DECORATIONS)?,
        vertical_align: form.choice("vertical-align", &VERTICAL_ALIGNS)?,
    })
}

/// The affixes among the members.
pub(crate) fn affixes(form: Form<'_>) -> Result<Affixes, WireError>
    ensures { IfOk result (λ a. read_affixes (view form.entry.value.now) ≡ Some (affix_texts a)) }
{
    let prefix = form.text("prefix")?;
    let suffix = form.text("suffix")?;
    Ok(Affixes { prefix, suffix })
}

/// The members of affixes, and that of a case (CSL 1.0.2, Text-case).
pub(crate) static CASED_AFFIXES: [&str; 3] = ["prefix", "suffix", "text-case"];

/// The affixes with the marks of a case: the prefix ends with one, and the suffix begins with the
/// other.
fn marked_affixes(alloc: Global, affixes: Affixes, case: TextCase) -> Result<Affixes, Memory>
    ensures { IfOk result (λ a. affix_texts a ≡ marked case (affix_texts affixes)) }
{
    let mut prefix = affixes.prefix.unwrap_or(String::new(alloc));
    prefix.push(case.start_mark())?;
    let mut suffix = String::new(alloc);
    suffix.push(case.end_mark())?;
    if let Some(text) = affixes.suffix {
        suffix.push_str(text.as_str())?;
    }
    Ok(Affixes {
        prefix: Some(prefix),
        suffix: Some(suffix),
    })
}

/// The affixes among the members, with the marks of the case among them, if marks are wanted.
pub(crate) fn cased_affixes(form: Form<'_>, marks: bool) -> Result<Affixes, WireError>
    ensures { IfOk result (λ a. read_cased_affixes marks (view form.entry.value.now)
        ≡ Some (affix_texts a)) }
{
    let affixes = affixes(form)?;
    match form.choice("text-case", &TEXT_CASES)? {
        Some(case) if marks => Ok(marked_affixes(form.reader.alloc, affixes, case)?),
        _ => Ok(affixes),
    }
}

/// The display among the members.
pub(crate) fn display(form: Form<'_>) -> Result<Option<Display>, WireError>
    ensures { IfOk result (λ o. read_display (view form.entry.value.now) ≡ Some o) }
{
    form.choice("display", &DISPLAYS)
}
