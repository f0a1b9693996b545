//! Dates (CSL 1.0.2, Date).
//! Definitions: specs/Constructors.antt.

ghost use Rattle.std.specs.Prelude.{◌≡◌};
ghost use Rattle.csl_elements.specs.Constructors.{date_of, date_of_parts, date_part_of, localized_date_of};

use crate::affixes::Affixes;
use crate::formatting::{Display, Formatting};
use crate::taxonomy::DateVariable;

/// The form of a localized date.
#[derive(Clone, Copy, Debug, PartialEq, Eq, PartialOrd, Ord, Hash)]
pub enum DateForm {
    Numeric,
    Text,
}

/// Which parts of a localized date are written (CSL 1.0.2, Date: date-parts).
#[derive(Clone, Copy, Debug, Default, PartialEq, Eq, PartialOrd, Ord, Hash)]
pub enum DateParts {
    #[default]
    YearMonthDay,
    YearMonth,
    Year,
}

/// A part of a date.
#[derive(Clone, Copy, Debug, PartialEq, Eq, PartialOrd, Ord, Hash)]
pub enum DatePartName {
    Day,
    Month,
    Year,
}

/// How a part of a date is written (CSL 1.0.2, Date-part: form). Each part has some of these forms:
/// a day `Numeric`, `NumericLeadingZeros` and `Ordinal`, a month all but `Ordinal`, a year `Long`
/// and `Short`.
#[derive(Clone, Copy, Debug, PartialEq, Eq, PartialOrd, Ord, Hash)]
pub enum DateAnyForm {
    Numeric,
    NumericLeadingZeros,
    Ordinal,
    Long,
    Short,
}

/// A `cs:date-part`.
#[derive(Drop)]
pub struct DatePart {
    pub name: DatePartName,
    /// How the part is written. If the form is not set, or is not one of the part's, a day is
    /// written as `Numeric`, and a month or a year as `Long`.
    pub form: Option<DateAnyForm>,
    pub formatting: Formatting,
    pub affixes: Affixes,
    /// Whether the part loses its periods (CSL 1.0.2, Strip-periods).
    pub strip_periods: bool,
}

/// A `cs:date`, of a style or of a locale.
#[derive(Drop)]
pub struct Date {
    /// The variable. A date of a locale has none.
    pub variable: Option<DateVariable>,
    /// If it is set, the locale's date of this form is written.
    pub form: Option<DateForm>,
    /// Which parts of the date are written.
    pub parts: Option<DateParts>,
    /// The parts in order.
    pub date_part: Vec<DatePart>,
    /// The text between two parts that print something.
    pub delimiter: Option<String>,
    pub formatting: Formatting,
    pub affixes: Affixes,
    pub display: Option<Display>,
}

impl DatePart {
    /// A part that sets only its name.
    pub fn new(name: DatePartName) -> DatePart
        ensures { result ≡ date_part_of name }
    {
        DatePart {
            name,
            form: None,
            formatting: Formatting::default(),
            affixes: Affixes::default(),
            strip_periods: false,
        }
    }
}

impl Date {
    /// A date that sets only its variable and its list `date_part`.
    pub fn new(variable: DateVariable, parts: Vec<DatePart>) -> Date
        ensures { result ≡ date_of variable parts }
    {
        Date {
            variable: Some(variable),
            ..Date::of_parts(parts)
        }
    }

    /// A date of a locale, which has no variable. It sets only its form and its list `date_part`.
    pub fn localized(form: DateForm, parts: Vec<DatePart>) -> Date
        ensures { result ≡ localized_date_of form parts }
    {
        Date {
            form: Some(form),
            ..Date::of_parts(parts)
        }
    }

    /// A date that sets only its list `date_part`.
    fn of_parts(parts: Vec<DatePart>) -> Date
        ensures { result ≡ date_of_parts parts }
    {
        Date {
            variable: None,
            form: None,
            parts: None,
            date_part: parts,
            delimiter: None,
            formatting: Formatting::default(),
            affixes: Affixes::default(),
            display: None,
        }
    }
}
