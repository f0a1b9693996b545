//! The options of citations (CSL 1.0.2, Citation-specific Options; Layout; Sorting).
//! Definitions: specs/CitationOptions.antt.

ghost use Rattle.std.specs.Prelude.{◌≡◌, false, Some, IfOk, codes};
ghost use Rattle.serde_json.specs.View.{view};
ghost use Rattle.csl_wire.specs.Reading.{member};
ghost use Rattle.csl_wire_list.specs.CitationOptions.{read_class, AreCitationOptions, AreCitationOptionsIf};

use crate::choices::{CLASSES, COLLAPSES, GIVEN_NAME_RULES};
use crate::keys::keys;
use crate::layout::{LayoutTexts, layout_texts};
use crate::limits::OptionLimits;
use csl_list::{CitationOptions, GivenNameRule};
use csl_wire::{Form, Step, WireError, within};
use serde_json::Value;
use std::alloc::Global;

/// The members of the layout of citations.
static LAYOUT: [&str; 3] = ["prefix", "suffix", "delimiter"];

/// The members of the options of citations.
static CITATION: [&str; 11] = [
    "layout",
    "sort",
    "collapse",
    "cite-group-delimiter",
    "year-suffix-delimiter",
    "after-collapse-delimiter",
    "near-note-distance",
    "disambiguate-add-names",
    "disambiguate-add-givenname",
    "givenname-disambiguation-rule",
    "disambiguate-add-year-suffix",
];

/// The options of citations among the members. A citation may begin with a capital.
fn options_in(
    limits: OptionLimits,
    form: Form<'_>,
    begins_with_capital: bool,
) -> Result<CitationOptions, WireError>
    ensures options { IfOk result (AreCitationOptions (view form.entry.value.now)) }
    ensures capital { IfOk result (λ o. o.begins_with_capital ≡ begins_with_capital) }
{
    let rule = form.choice("givenname-disambiguation-rule", &GIVEN_NAME_RULES)?;
    let distance = form.number("near-note-distance")?;
    let LayoutTexts {
        prefix,
        suffix,
        delimiter,
    } = layout_texts(form, &LAYOUT)?;
    let keys = keys(limits, form)?;
    Ok(CitationOptions {
        prefix,
        suffix,
        delimiter,
        keys,
        collapse: form.choice("collapse", &COLLAPSES)?,
        cite_group_delimiter: form.text("cite-group-delimiter")?,
        year_suffix_delimiter: form.text("year-suffix-delimiter")?,
        after_collapse_delimiter: form.text("after-collapse-delimiter")?,
        near_note_distance: distance.unwrap_or(5),
        adds_names: form.is_true("disambiguate-add-names")?,
        adds_given_names: form.is_true("disambiguate-add-givenname")?,
        given_name_rule: rule.unwrap_or(GivenNameRule::ByCite),
        adds_year_suffix: form.is_true("disambiguate-add-year-suffix")?,
        begins_with_capital,
    })
}

/// The options of citations that a value is. A citation may begin with a capital.
fn options_of(
    alloc: Global,
    value: &Value,
    limits: OptionLimits,
    begins_with_capital: bool,
) -> Result<CitationOptions, WireError>
    ensures options { IfOk result (AreCitationOptions (view value.now)) }
    ensures capital { IfOk result (λ o. o.begins_with_capital ≡ begins_with_capital) }
{
    let form = Form::of(limits.texts(alloc), value, &[&CITATION])?;
    let options = options_in(limits, form, begins_with_capital)?;
    Ok(options)
}

/// The options of citations of a style of the class `in-text`. One that is absent has CSL's
/// default.
///
/// # Errors
/// [`WireError::Refused`]: the value is no options of citations within the limits.
pub fn citation_options_of(
    alloc: Global,
    value: &Value,
    limits: OptionLimits,
) -> Result<CitationOptions, WireError>
    ensures options { IfOk result (AreCitationOptions (view value.now)) }
    ensures capital { IfOk result (λ o. o.begins_with_capital ≡ false) }
{
    let options = options_of(alloc, value, limits, false)?;
    Ok(options)
}

/// The options of citations among the members of a style with its options.
#[tactic(auto, using(crate::proofs::Read::citation_options_read))]
pub(crate) fn citation_options(
    limits: OptionLimits,
    form: Form<'_>,
) -> Result<CitationOptions, WireError>
    ensures options { IfOk result (AreCitationOptionsIf (member (codes "citation")
        (view form.entry.value.now))) }
    ensures class { IfOk result (λ o. read_class (view form.entry.value.now)
        ≡ Some o.begins_with_capital) }
{
    let alloc = form.reader.alloc;
    let is_note = form.choice("class", &CLASSES)?.unwrap_or(false);
    match form.member("citation") {
        Some(value) => {
            let read = options_of(alloc, value, limits, is_note);
            let options = within(Step::Member("citation"), read)?;
            Ok(options)
        }
        None => {
            let mut options = CitationOptions::new(alloc);
            options.begins_with_capital = is_note;
            Ok(options)
        }
    }
}
