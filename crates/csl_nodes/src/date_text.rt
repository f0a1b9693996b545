//! The texts of the parts of a date (CSL 1.0.2, Date; Date-part; Localized Date Formats; Ordinals;
//! AD and BC; Seasons), without affixes.

ghost use Rattle.std.specs.Prelude.{◌≡◌, ◌+◌, ◌++◌, ◌≤◌, IfOk, string_bytes, option_map, decimal};
ghost use Rattle.lit_model.specs.Date.{date_view};
ghost use Rattle.csl_nodes.specs.DateText as spec;

use csl_context::Context;
use csl_style::{DateAnyForm, DatePartName, DateParts, OtherTerm, Term, TermForm};
use lit_model::{Date, GrammarGender, Memory, Season};
use std::alloc::Global;

/// Whether these date-parts include the part.
pub(crate) fn names_part(parts: DateParts, part: DatePartName) -> bool
    ensures { result ≡ spec.names_part parts part }
{
    match parts {
        DateParts::YearMonthDay => true,
        DateParts::YearMonth => match part {
            DatePartName::Day => false,
            DatePartName::Month => true,
            DatePartName::Year => true,
        },
        DateParts::Year => match part {
            DatePartName::Day => false,
            DatePartName::Month => false,
            DatePartName::Year => true,
        },
    }
}

/// Whether a part of a date is written: the year always, any other if the date-parts include it. A
/// month is also written if the date has a season.
pub(crate) fn is_written(parts: DateParts, date: &Date, part: DatePartName) -> bool
    ensures { result ≡ spec.is_written parts (date_view date.now) part }
{
    match part {
        DatePartName::Day => names_part(parts, DatePartName::Day),
        DatePartName::Month => names_part(parts, DatePartName::Month) || date.season().is_some(),
        DatePartName::Year => true,
    }
}

/// A term that names no variable, in the singular.
fn word<'s, T>(ctx: &Context<'s, T>, term: OtherTerm, form: TermForm) -> Option<&'s str>
    ensures { option_map (λ text. text.now) result ≡ spec.word ctx.now.style term form }
{
    ctx.term(Term::Other(term), form, false)
}

/// A number in at least two digits.
pub(crate) fn two_digits(alloc: Global, number: u32) -> Result<String, Memory>
    ensures { IfOk result (λ s. string_bytes s ≡ spec.two_digits number) }
{
    let text = format!(in alloc; "{number:02}")?;
    Ok(text)
}

/// Whether the form shortens a year to its last two digits.
fn is_short(form: Option<DateAnyForm>) -> bool
    ensures { result ≡ spec.is_short form }
{
    match form {
        None => false,
        Some(DateAnyForm::Numeric) => false,
        Some(DateAnyForm::NumericLeadingZeros) => false,
        Some(DateAnyForm::Ordinal) => false,
        Some(DateAnyForm::Long) => false,
        Some(DateAnyForm::Short) => true,
    }
}

/// A year from year 1 on: before 1000 with its era, else in full or, if `short`, its last two
/// digits.
fn common_year<T>(ctx: &Context<'_, T>, short: bool, year: u32) -> Result<String, Memory>
    ensures { IfOk result (λ s. string_bytes s
        ≡ spec.common_year short (spec.ad_text ctx.now.style) year) }
{
    if year < 1000 {
        let ad = word(ctx, OtherTerm::Ad, TermForm::Long).unwrap_or(" AD");
        let text = format!(in ctx.alloc(); "{year}{ad}")?;
        Ok(text)
    } else if short {
        two_digits(ctx.alloc(), year % 100)
    } else {
        let text = format!(in ctx.alloc(); "{year}")?;
        Ok(text)
    }
}

/// The year `count` years before year 1, with its era.
fn year_before<T>(ctx: &Context<'_, T>, count: u32) -> Result<String, Memory>
    ensures { IfOk result (λ s. string_bytes s ≡ decimal count ++ spec.bc_text ctx.now.style) }
{
    let bc = word(ctx, OtherTerm::Bc, TermForm::Long).unwrap_or(" BC");
    let text = format!(in ctx.alloc(); "{count}{bc}")?;
    Ok(text)
}

/// A year in a form.
fn year_text<T>(
    ctx: &Context<'_, T>,
    form: Option<DateAnyForm>,
    year: i32,
) -> Result<String, Memory>
    ensures { IfOk result (λ s. string_bytes s ≡ spec.year_text ctx.now.style form year) }
{
    let distance = year.unsigned_abs();
    if year > 0 {
        let text = common_year(ctx, is_short(form), distance)?;
        Ok(text)
    } else {
        // Year 0 is the first year before year 1.
        let text = year_before(ctx, distance + 1)?;
        Ok(text)
    }
}

/// The term of a month, else its number.
fn month_named<T>(ctx: &Context<'_, T>, form: TermForm, month: u8) -> Result<String, Memory>
    ensures { IfOk result (λ s. string_bytes s ≡ spec.month_named ctx.now.style form month) }
{
    match word(ctx, OtherTerm::Month(month), form) {
        Some(name) => {
            let text = String::from_str(ctx.alloc(), name)?;
            Ok(text)
        }
        None => number_text(ctx.alloc(), month),
    }
}

/// The number of a month or a day. The place counts from 0.
fn number_text(alloc: Global, place: u8) -> Result<String, Memory>
    ensures { IfOk result (λ s. string_bytes s ≡ decimal (place + 1)) }
{
    let number = u32::from(place) + 1;
    let text = format!(in alloc; "{number}")?;
    Ok(text)
}

/// A month in a form.
fn month_text<T>(
    ctx: &Context<'_, T>,
    form: Option<DateAnyForm>,
    month: u8,
) -> Result<String, Memory>
    ensures { IfOk result (λ s. string_bytes s ≡ spec.month_text ctx.now.style form month) }
{
    match form {
        None => month_named(ctx, TermForm::Long, month),
        Some(DateAnyForm::Numeric) => number_text(ctx.alloc(), month),
        Some(DateAnyForm::NumericLeadingZeros) => { two_digits(ctx.alloc(), u32::from(month) + 1) }
        Some(DateAnyForm::Ordinal) => month_named(ctx, TermForm::Long, month),
        Some(DateAnyForm::Long) => month_named(ctx, TermForm::Long, month),
        Some(DateAnyForm::Short) => month_named(ctx, TermForm::Short, month),
    }
}

/// The short term of a season, or an empty text.
fn season_text<T>(ctx: &Context<'_, T>, season: Option<Season>) -> Result<String, Memory>
    ensures { IfOk result (λ s. string_bytes s ≡ spec.season_text ctx.now.style season) }
{
    let term = match season {
        Some(season) => word(ctx, OtherTerm::Season(season), TermForm::Short).unwrap_or(""),
        None => "",
    };
    let text = String::from_str(ctx.alloc(), term)?;
    Ok(text)
}

/// The text of a month, else of the season.
fn month_or_season<T>(
    ctx: &Context<'_, T>,
    form: Option<DateAnyForm>,
    month: Option<u8>,
    season: Option<Season>,
) -> Result<String, Memory>
    ensures { IfOk result (λ s. string_bytes s
        ≡ spec.month_or_season ctx.now.style form month season) }
{
    match month {
        Some(month) => month_text(ctx, form, month),
        None => season_text(ctx, season),
    }
}

/// The gender of a month's term.
fn month_gender<T>(ctx: &Context<'_, T>, month: Option<u8>) -> Option<GrammarGender>
    ensures { result ≡ spec.month_gender ctx.now.style month }
{
    match month {
        Some(month) => ctx.gender(Term::Other(OtherTerm::Month(month))),
        None => None,
    }
}

/// The suffix that makes a number an ordinal, or an empty text.
fn ordinal_suffix<'s, T>(ctx: &Context<'s, T>, gender: Option<GrammarGender>, number: u8) -> &'s str
    ensures { result.now ≡ spec.ordinal_suffix ctx.now.style gender number }
{
    ctx.ordinal_lookup()
        .suffix(i32::from(number), gender)
        .unwrap_or("")
}

/// A day as an ordinal in the gender of the month. A locale may limit ordinals to the first day.
fn ordinal_day<T>(ctx: &Context<'_, T>, month: Option<u8>, day: u8) -> Result<String, Memory>
    requires { day ≤ 30 }
    ensures { IfOk result (λ s. string_bytes s ≡ spec.ordinal_day ctx.now.style month day) }
{
    if ctx.style().are_day_ordinals_limited() && day != 0 {
        return number_text(ctx.alloc(), day);
    }
    let number = day + 1;
    let suffix = ordinal_suffix(ctx, month_gender(ctx, month), number);
    let text = format!(in ctx.alloc(); "{number}{suffix}")?;
    Ok(text)
}

/// A day in a form.
fn day_text<T>(
    ctx: &Context<'_, T>,
    form: Option<DateAnyForm>,
    month: Option<u8>,
    day: u8,
) -> Result<String, Memory>
    requires { day ≤ 30 }
    ensures { IfOk result (λ s. string_bytes s ≡ spec.day_text ctx.now.style form month day) }
{
    match form {
        None => number_text(ctx.alloc(), day),
        Some(DateAnyForm::Numeric) => number_text(ctx.alloc(), day),
        Some(DateAnyForm::NumericLeadingZeros) => two_digits(ctx.alloc(), u32::from(day) + 1),
        Some(DateAnyForm::Ordinal) => ordinal_day(ctx, month, day),
        Some(DateAnyForm::Long) => number_text(ctx.alloc(), day),
        Some(DateAnyForm::Short) => number_text(ctx.alloc(), day),
    }
}

/// The text of a date's day, or an empty text if it has none.
fn optional_day<T>(
    ctx: &Context<'_, T>,
    form: Option<DateAnyForm>,
    date: &Date,
) -> Result<String, Memory>
    ensures { IfOk result (λ s. string_bytes s ≡ spec.optional_day ctx.now.style form
        (date_view date.now).month (date_view date.now).day) }
{
    match date.day() {
        Some(day) => day_text(ctx, form, date.month(), day),
        None => Ok(String::new(ctx.alloc())),
    }
}

/// The text of a date's part in a form, without affixes. It is empty if the date lacks the part.
/// The season replaces a missing month. A form that the part does not know counts as none.
#[tactic(auto, unfolding(crate::specs::DateText::part_text))]
pub(crate) fn part_text<T>(
    ctx: &Context<'_, T>,
    name: DatePartName,
    form: Option<DateAnyForm>,
    date: &Date,
) -> Result<String, Memory>
    ensures { IfOk result (λ s. string_bytes s
        ≡ spec.part_text ctx.now.style name form (date_view date.now)) }
{
    match name {
        DatePartName::Day => optional_day(ctx, form, date),
        DatePartName::Month => month_or_season(ctx, form, date.month(), date.season()),
        DatePartName::Year => year_text(ctx, form, date.year()),
    }
}
