//! Dates.

ghost use Rattle.std.specs.Prelude.{◌≡◌, ◌↔◌, ◌≤◌, IsSome, IfSome};
ghost use Rattle.std.specs.Option.{ForSome};

use csl_common::Season;

/// A date: a year, with a month, a day and a season if they are known.
#[derive(Clone, Copy, Debug, PartialEq, Eq, Hash)]
pub struct Date {
    year: i32,
    month: Option<u8>,
    day: Option<u8>,
    season: Option<Season>,
    approximate: bool,
    pub ghost month_of_year: { ForSome month (λ m. m ≤ 11) },
    pub ghost day_of_month: { ForSome day (λ d. d ≤ 30) },
}

impl Date {
    ghost use Rattle.lit_model.specs.Date.{AreInRange, date_view, year_alone};

    /// Returns a date if a given month is at most 11 and a given day at most 30, else `None`. Both
    /// count from 0, so January is month 0. The length of the month is not checked.
    pub fn new(
        year: i32,
        month: Option<u8>,
        day: Option<u8>,
        season: Option<Season>,
        approximate: bool,
    ) -> Option<Date>
        ensures range { IsSome result ↔ AreInRange month day }
        ensures value { IfSome result (λ d. date_view d ≡ record {
          year = year;
          month = month;
          day = day;
          season = season;
          approximate = approximate;
        }) }
    {
        if month.is_some_and(|m| m > 11) || day.is_some_and(|d| d > 30) {
            return None;
        }
        Some(Date {
            year,
            month,
            day,
            season,
            approximate,
        })
    }

    /// A date with only a year; year 0 is the year before year 1.
    pub fn of_year(year: i32) -> Date
        ensures { date_view result ≡ year_alone year }
    {
        Date {
            year,
            month: None,
            day: None,
            season: None,
            approximate: false,
        }
    }

    /// The year; year 0 is the year before year 1.
    pub fn year(&self) -> i32
        ensures { result ≡ (date_view self.now).year }
    {
        self.year
    }

    /// The month, from 0 for January to 11, if it is known.
    pub fn month(&self) -> Option<u8>
        ensures value { result ≡ (date_view self.now).month }
        ensures range { IfSome result (λ m. m ≤ 11) }
    {
        self.month
    }

    /// The day, from 0 for the first of the month to 30, if it is known.
    pub fn day(&self) -> Option<u8>
        ensures value { result ≡ (date_view self.now).day }
        ensures range { IfSome result (λ d. d ≤ 30) }
    {
        self.day
    }

    /// The season, if it is known.
    pub fn season(&self) -> Option<Season>
        ensures { result ≡ (date_view self.now).season }
    {
        self.season
    }

    /// Whether the date is approximate.
    pub fn approximate(&self) -> bool
        ensures { result ≡ (date_view self.now).approximate }
    {
        self.approximate
    }
}
