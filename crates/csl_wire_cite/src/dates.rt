//! Dates (CSL 1.0.2, Date Variables).

ghost use Rattle.std.specs.Prelude.{◌≡◌, ◌≤◌, ◌<◌, Some, codes, suc, IfOk, IfSome, map, option_map};
ghost use Rattle.serde_json.specs.View.{view};
ghost use Rattle.lit_model.specs.Date.{date_view};
ghost use Rattle.csl_wire.specs.Reading.{read_member, read_number, read_one};
ghost use Rattle.csl_wire_cite.specs.Dates.{IsDate};
ghost use Rattle.csl_wire_cite.specs.Reads.{read_integer};

use crate::numbers::integer;
use csl_wire::{Code, Form, Reader, Step, WireError, within};
use lit_model::{Date, Season};
use serde_json::Value;

/// The seasons.
static SEASONS: [(&str, Season); 4] = [
    ("spring", Season::Spring),
    ("summer", Season::Summer),
    ("autumn", Season::Autumn),
    ("winter", Season::Winter),
];

/// The year of a date. It has to be there.
fn year(form: Form<'_>) -> Result<i32, WireError>
    ensures { IfOk result (λ y. read_one read_integer (codes "year") (view form.entry.value.now)
        ≡ Some y) }
{
    match form.member("year") {
        Some(value) => within(Step::Member("year"), integer(form.reader, value)),
        None => Err(form.missing("year")),
    }
}

/// A number from 1 to `last`, counted from 0.
fn counted_from_zero(number: u32, last: u8) -> Option<u8>
    ensures { IfSome result (λ n. (suc n ≡ number) × (n < last)) }
{
    let number = u8::try_from(number).ok()?;
    if number > last {
        return None;
    }
    number.checked_sub(1)
}

/// A month or a day, counted from 0.
fn counted(
    form: Form<'_>,
    name: &'static str,
    last: u8,
    reason: &'static str,
) -> Result<Option<u8>, WireError>
    ensures read { IfOk result (λ n. read_member read_number name.now (view form.entry.value.now)
        ≡ Some (option_map suc n)) }
    ensures range { IfOk result (λ n. IfSome n (λ n. n < last)) }
{
    let Some(number) = form.number(name)? else {
        return Ok(None);
    };
    match counted_from_zero(number, last) {
        Some(number) => Ok(Some(number)),
        None => Err(WireError::of(form.reader.alloc, Code::OutOfRange, reason).after(Step::Member(
            name,
        ))),
    }
}

/// The members of a date.
static DATE: [&str; 5] = ["year", "month", "day", "season", "circa"];

/// A date. Months and days count from 1.
pub(crate) fn date(reader: Reader, value: &Value) -> Result<Date, WireError>
    ensures { IfOk result (λ d. IsDate (view value.now) (date_view d)) }
{
    let form = Form::of(reader, value, &[&DATE])?;
    let year = year(form)?;
    let month = counted(form, "month", 12, "a month is from 1 to 12")?;
    let day = counted(form, "day", 31, "a day is from 1 to 31")?;
    let season = form.choice("season", &SEASONS)?;
    let circa = form.is_true("circa")?;
    match Date::new(year, month, day, season, circa) {
        Some(date) => Ok(date),
        None => unreachable!(),
    }
}
