//! The options of the bibliography (CSL 1.0.2, Bibliography-specific Options; Layout; Sorting).
//! Definitions: specs/BibliographyOptions.antt.

ghost use Rattle.std.specs.Prelude.{◌≡◌, Some, IfOk, codes};
ghost use Rattle.serde_json.specs.View.{view};
ghost use Rattle.csl_wire.specs.Reading.{member};
ghost use Rattle.csl_wire_list.specs.BibliographyOptions.{read_spacing, AreBibliographyOptions, AreBibliographyOptionsIf, IsSubstitute};

use crate::choices::{FIELD_ALIGNS, SUBSTITUTE_RULES};
use crate::keys::keys;
use crate::layout::{LayoutTexts, layout_texts};
use crate::limits::OptionLimits;
use csl_list::{AuthorSubstitute, BibliographyOptions, SubstituteRule};
use csl_wire::{Code, Form, Step, WireError, within};
use serde_json::Value;
use std::alloc::Global;

/// The text for names that the work before has too. Without it its rule changes nothing.
fn author_substitute(form: Form<'_>) -> Result<Option<AuthorSubstitute>, WireError>
    ensures { IfOk result (IsSubstitute (view form.entry.value.now)) }
{
    let rule = form.choice("subsequent-author-substitute-rule", &SUBSTITUTE_RULES)?;
    match form.text("subsequent-author-substitute")? {
        Some(text) => Ok(Some(AuthorSubstitute {
            text,
            rule: rule.unwrap_or(SubstituteRule::CompleteAll),
        })),
        None => Ok(None),
    }
}

/// The distance of lines, which is at least 1.
fn line_spacing(form: Form<'_>) -> Result<u32, WireError>
    ensures { IfOk result (λ n.
        read_spacing (codes "line-spacing") (view form.entry.value.now) ≡ Some n) }
{
    let lines = form.number("line-spacing")?.unwrap_or(1);
    if lines == 0 {
        let reason = "a distance of lines is from 1 to 4294967295";
        let error = WireError::of(form.reader.alloc, Code::OutOfRange, reason);
        return Err(error.after(Step::Member("line-spacing")));
    }
    Ok(lines)
}

/// The members of the layout of the bibliography.
static LAYOUT: [&str; 2] = ["prefix", "suffix"];

/// The members of the options of the bibliography.
static BIBLIOGRAPHY: [&str; 8] = [
    "layout",
    "sort",
    "hanging-indent",
    "second-field-align",
    "line-spacing",
    "entry-spacing",
    "subsequent-author-substitute",
    "subsequent-author-substitute-rule",
];

/// The options of the bibliography among the members.
fn options_in(limits: OptionLimits, form: Form<'_>) -> Result<BibliographyOptions, WireError>
    ensures { IfOk result (AreBibliographyOptions (view form.entry.value.now)) }
{
    let hanging_indent = form.is_true("hanging-indent")?;
    let second_field_align = form.choice("second-field-align", &FIELD_ALIGNS)?;
    let line_spacing = line_spacing(form)?;
    let entry_spacing = form.number("entry-spacing")?.unwrap_or(1);
    let author_substitute = author_substitute(form)?;
    let LayoutTexts {
        prefix,
        suffix,
        delimiter: _,
    } = layout_texts(form, &LAYOUT)?;
    let keys = keys(limits, form)?;
    Ok(BibliographyOptions {
        prefix,
        suffix,
        keys,
        hanging_indent,
        second_field_align,
        line_spacing,
        entry_spacing,
        author_substitute,
    })
}

/// The options of the bibliography. One that is absent has CSL's default.
///
/// # Errors
/// [`WireError::Refused`]: the value is no options of a bibliography within the limits.
pub fn bibliography_options_of(
    alloc: Global,
    value: &Value,
    limits: OptionLimits,
) -> Result<BibliographyOptions, WireError>
    ensures { IfOk result (AreBibliographyOptions (view value.now)) }
{
    let form = Form::of(limits.texts(alloc), value, &[&BIBLIOGRAPHY])?;
    Ok(options_in(limits, form)?)
}

/// The options of the bibliography among the members of a style with its options.
pub(crate) fn bibliography_options(
    limits: OptionLimits,
    form: Form<'_>,
) -> Result<BibliographyOptions, WireError>
    ensures { IfOk result (AreBibliographyOptionsIf (member (codes "bibliography")
        (view form.entry.value.now))) }
{
    let alloc = form.reader.alloc;
    match form.member("bibliography") {
        Some(value) => within(
            Step::Member("bibliography"),
            bibliography_options_of(alloc, value, limits),
        ),
        None => Ok(BibliographyOptions::new(alloc)),
    }
}
