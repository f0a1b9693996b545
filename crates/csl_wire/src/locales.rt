//! Locales: terms, ordinals, dates and options (CSL 1.0.2, Locale).

use crate::choices::{GENDERS, ORDINAL_MATCHES, TERM_FORMS};
use crate::dates::localized_date;
use crate::form::Form;
use crate::limits::{Limits, Reader};
use crate::refusal::{Step, WireError, within};
use csl_elements::{Date, Locale, OrdinalSlot, OrdinalTerm, TermEntry, TermForm};
use serde_json::Value;
use std::alloc::Global;

/// The number of two digits after a prefix.
fn numbered(name: &str, prefix: &str) -> Option<u8> {
    let digits = name.strip_prefix(prefix)?;
    if digits.len() != 2 || digits.starts_with('+') {
        return None;
    }
    digits.parse::<u8>().ok()
}

/// The numbers of an ordinal, if a term is one: `ordinal`, `ordinal-02` or `long-ordinal-02` (CSL
/// 1.0.2, Ordinals).
fn ordinal_slot(name: &str) -> Option<OrdinalSlot> {
    if name == "ordinal" {
        return Some(OrdinalSlot::Default);
    }
    if let Some(number) = numbered(name, "ordinal-") {
        return Some(OrdinalSlot::Two(number));
    }
    match numbered(name, "long-ordinal-") {
        Some(number) if 1 <= number && number <= 10 => Some(OrdinalSlot::Long(number)),
        _ => None,
    }
}

/// The members of an ordinal.
static ORDINAL: [&str; 4] = ["name", "single", "match", "gender-form"];

/// An ordinal for these numbers.
fn ordinal(reader: Reader, value: &Value, slot: OrdinalSlot) -> Result<OrdinalTerm, WireError> {
    let form = Form::of(reader, value, &[&ORDINAL])?;
    Ok(OrdinalTerm {
        slot,
        matching: form.choice("match", &ORDINAL_MATCHES)?,
        gender: form.choice("gender-form", &GENDERS)?,
        text: form.one_text("single")?,
    })
}

/// The members of a term.
static TERM: [&str; 5] = ["name", "form", "single", "multiple", "gender"];

/// A term.
fn term(reader: Reader, value: &Value) -> Result<TermEntry, WireError> {
    let form = Form::of(reader, value, &[&TERM])?;
    Ok(TermEntry {
        term: form.one_named("name")?,
        form: form.choice("form", &TERM_FORMS)?.unwrap_or(TermForm::Long),
        gender: form.choice("gender", &GENDERS)?,
        single: form.one_text("single")?,
        multiple: form.text("multiple")?,
    })
}

/// The numbers of an ordinal, if a value is one.
fn slot_of(value: &Value) -> Option<OrdinalSlot> {
    value
        .get("name")
        .and_then(Value::as_str)
        .and_then(ordinal_slot)
}

/// Adds terms and ordinals to a locale.
fn add_terms(reader: Reader, locale: &mut Locale, items: &[Value]) -> Result<(), WireError> {
    for (place, item) in items.iter().enumerate() {
        let step = Step::Item(place);
        match slot_of(item) {
            Some(slot) => locale
                .ordinals
                .push(within(step, ordinal(reader, item, slot))?)?,
            None => locale.terms.push(within(step, term(reader, item))?)?,
        }
    }
    Ok(())
}

/// The dates of a locale.
fn dates(reader: Reader, items: &[Value]) -> Result<Vec<Date>, WireError> {
    let mut dates = Vec::with_capacity(reader.alloc, items.len())?;
    for (place, item) in items.iter().enumerate() {
        dates.push(within(Step::Item(place), localized_date(reader, item))?)?;
    }
    Ok(dates)
}

/// The options of a locale.
#[derive(Clone, Copy)]
pub(crate) struct LocaleOptions {
    pub(crate) punctuation_in_quote: bool,
    pub(crate) limit_day_ordinals_to_day_1: bool,
}

/// The members of a locale.
static LOCALE: [&str; 4] = [
    "terms",
    "dates",
    "punctuation-in-quote",
    "limit-day-ordinals-to-day-1",
];

/// A locale. An option that it does not set is one of these.
pub(crate) fn locale(
    reader: Reader,
    value: &Value,
    options: LocaleOptions,
) -> Result<Locale, WireError> {
    let form = Form::of(reader, value, &[&LOCALE])?;
    let mut locale = Locale::new(reader.alloc);
    locale.punctuation_in_quote = form
        .boolean("punctuation-in-quote")?
        .unwrap_or(options.punctuation_in_quote);
    locale.limit_day_ordinals_to_day_1 = form
        .boolean("limit-day-ordinals-to-day-1")?
        .unwrap_or(options.limit_day_ordinals_to_day_1);
    let items = form.items("terms")?;
    within(Step::Member("terms"), add_terms(reader, &mut locale, items))?;
    let items = form.items("dates")?;
    locale.dates = within(Step::Member("dates"), dates(reader, items))?;
    Ok(locale)
}

/// No option is set.
pub(crate) const NO_OPTIONS: LocaleOptions = LocaleOptions {
    punctuation_in_quote: false,
    limit_day_ordinals_to_day_1: false,
};

/// A locale, without the marks of cases. An option that it does not set is false.
///
/// # Errors
/// [`WireError::Refused`]: the value is no locale within the limits.
pub fn locale_of(alloc: Global, value: &Value, limits: Limits) -> Result<Locale, WireError> {
    let reader = Reader {
        alloc,
        limits,
        marks: false,
    };
    locale(reader, value, NO_OPTIONS)
}
