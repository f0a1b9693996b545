//! Dates and their parts (CSL 1.0.2, Date, Date-part; Localized Date Formats).
//! Definitions: specs/Leaves.antt, specs/Parts.antt.

ghost use Rattle.std.specs.Prelude.{◌≡◌, Some, IfOk, map};
ghost use Rattle.serde_json.specs.View.{view};
ghost use Rattle.csl_elements.specs.View.{view_date, view_date_part};
ghost use Rattle.csl_wire.specs.Parts.{read_date_part};
ghost use Rattle.csl_wire.specs.Leaves.{IsDate, IsDateBody, IsLocalizedDate};

use crate::choices::{DATE_FORMS, DATE_PART_FORMS, DATE_PART_NAMES, DATE_PARTS};
use crate::dress::{
    AFFIXES, CASED_AFFIXES, FORMATTING, affixes, cased_affixes, display, formatting,
};
use crate::form::Form;
use crate::limits::Reader;
use crate::refusal::{Step, WireError, within};
use csl_elements::{Date, DateForm, DatePart, DateVariable};
use serde_json::Value;

/// The members of a part of a date, but its formatting and affixes.
static DATE_PART: [&str; 3] = ["name", "form", "strip-periods"];

/// A part of a date.
fn date_part(reader: Reader, value: &Value) -> Result<DatePart, WireError>
    ensures { IfOk result (λ p. read_date_part reader.marks (view value.now)
        ≡ Some (view_date_part p)) }
{
    let form = Form::of(reader, value, &[&DATE_PART, &FORMATTING, &CASED_AFFIXES])?;
    Ok(DatePart {
        name: form.one_choice("name", &DATE_PART_NAMES)?,
        form: form.choice("form", &DATE_PART_FORMS)?,
        formatting: formatting(form)?,
        strip_periods: form.is_true("strip-periods")?,
        affixes: cased_affixes(form, reader.marks)?,
    })
}

/// The parts of a date.
fn date_parts(reader: Reader, items: &[Value]) -> Result<Vec<DatePart>, WireError>
    ensures { IfOk result (λ parts. map (read_date_part reader.marks) (map view items.now)
        ≡ map Some (map view_date_part parts.items)) }
{
    let mut parts = Vec::with_capacity(reader.alloc, items.len())?;
    for (place, item) in items.iter().enumerate() {
        parts.push(within(Step::Item(place), date_part(reader, item))?)?;
    }
    Ok(parts)
}

/// The date of these members, with this variable and this form.
fn date_of(
    form: Form<'_>,
    variable: Option<DateVariable>,
    date_form: Option<DateForm>,
) -> Result<Date, WireError>
    ensures body { IfOk result (λ r. IsDateBody form.entry.reader.marks
        (view form.entry.value.now) (view_date r)) }
    ensures variable { IfOk result (λ r. r.variable ≡ variable) }
    ensures form { IfOk result (λ r. r.form ≡ date_form) }
{
    let parts = form.choice("date-parts", &DATE_PARTS)?;
    let formatting = formatting(form)?;
    let display = display(form)?;
    let delimiter = form.text("delimiter")?;
    let affixes = affixes(form)?;
    let items = form.items("date-part")?;
    let date_part = within(Step::Member("date-part"), date_parts(form.reader, items))?;
    Ok(Date {
        variable,
        form: date_form,
        parts,
        date_part,
        delimiter,
        formatting,
        affixes,
        display,
    })
}

/// The members of a date of a style.
static DATE: [&str; 6] = [
    "variable",
    "form",
    "date-parts",
    "date-part",
    "delimiter",
    "display",
];

/// A date of a style. It has a variable.
pub(crate) fn date(reader: Reader, value: &Value) -> Result<Date, WireError>
    ensures { IfOk result (λ r. IsDate reader.marks (view value.now) (view_date r)) }
{
    let form = Form::of(reader, value, &[&DATE, &FORMATTING, &AFFIXES])?;
    let variable = form.one_named("variable")?;
    let date_form = form.choice("form", &DATE_FORMS)?;
    let date = date_of(form, Some(variable), date_form)?;
    Ok(date)
}

/// The members of a date of a locale.
static LOCALIZED_DATE: [&str; 3] = ["form", "date-part", "delimiter"];

/// A date of a locale. It has a form.
pub(crate) fn localized_date(reader: Reader, value: &Value) -> Result<Date, WireError>
    ensures { IfOk result (λ r. IsLocalizedDate reader.marks (view value.now) (view_date r)) }
{
    let form = Form::of(reader, value, &[&LOCALIZED_DATE, &FORMATTING, &AFFIXES])?;
    let date_form = form.one_choice("form", &DATE_FORMS)?;
    let date = date_of(form, None, Some(date_form))?;
    Ok(date)
}
