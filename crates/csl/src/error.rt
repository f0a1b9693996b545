//! One error type for the errors of all crates.

ghost use Rattle.std.specs.Prelude.{◌≡◌, Some};
ghost use Rattle.csl.specs.Error.{error_text, of_html, of_numeric, of_style};
ghost use Rattle.csl.specs.declared.error.Error.TheVariants as errors;

use csl_context::RenderError;
use csl_style::StyleError;
use csl_tree::HtmlError;
use lit_model::{Memory as OutOfMemory, NumericError};
use std::alloc::{AllocError, AllocFailed};
use std::{error, fmt};

/// Why a call failed, in any crate.
#[derive(Debug, Drop)]
pub enum Error {
    /// Out of memory, in a call or in an entry.
    Memory,
    /// A request would write more than its limit allows.
    Limit,
    /// A text does not parse as a number, or as pages.
    NotNumeric,
    /// A text is not HTML as `write_buf` writes it.
    NotHtml,
    /// The month or the day of a date is out of range. No call returns this error: it is for a
    /// caller whose `Date::new` returned `None`.
    DateOutOfRange,
    /// A style is rejected, for a cyclic macro or for its page format.
    Style(StyleError),
    /// A writer refused a text. A `String` does so if memory runs out.
    Refused,
}

impl fmt::Display for Error {
    ghost output = { λ e. Some (error_text e) };

    fn fmt<W: fmt::Write>(&self, f: &mut fmt::Formatter<W>) -> fmt::Result {
        match self {
            Error::Memory => f.write_str("out of memory"),
            Error::Limit => f.write_str("beyond the limit"),
            Error::NotNumeric => f.write_str("not numeric"),
            Error::NotHtml => f.write_str("not html"),
            Error::DateOutOfRange => f.write_str("month or day out of range"),
            Error::Style(error) => write!(f, "{}", error),
            Error::Refused => f.write_str("a writer refused a text"),
        }
    }
}

impl error::Error for Error {}

impl From<OutOfMemory> for Error {
    ghost from_gives = { λ _ e. e ≡ errors.Memory };

    fn from(_error: OutOfMemory) -> Error {
        Error::Memory
    }
}

impl From<AllocError> for Error {
    ghost from_gives = { λ _ e. e ≡ errors.Memory };

    fn from(_error: AllocError) -> Error {
        Error::Memory
    }
}

impl<T: Drop> From<AllocFailed<T>> for Error {
    ghost from_gives = { λ _ e. e ≡ errors.Memory };

    fn from(_error: AllocFailed<T>) -> Error {
        Error::Memory
    }
}

impl From<NumericError> for Error {
    ghost from_gives = { λ error e. e ≡ of_numeric error };

    fn from(error: NumericError) -> Error {
        match error {
            NumericError::Memory => Error::Memory,
            NumericError::NotNumeric => Error::NotNumeric,
        }
    }
}

impl From<HtmlError> for Error {
    ghost from_gives = { λ error e. e ≡ of_html error };

    fn from(error: HtmlError) -> Error {
        match error {
            HtmlError::Memory => Error::Memory,
            HtmlError::NotHtml => Error::NotHtml,
        }
    }
}

impl From<StyleError> for Error {
    ghost from_gives = { λ error e. e ≡ of_style error };

    fn from(error: StyleError) -> Error {
        match error {
            StyleError::Memory => Error::Memory,
            StyleError::CyclicMacro(name) => Error::Style(StyleError::CyclicMacro(name)),
            StyleError::ChicagoPageFormat => Error::Style(StyleError::ChicagoPageFormat),
        }
    }
}

impl From<RenderError> for Error {
    ghost from_gives = { λ _ e. e ≡ errors.Memory };

    fn from(error: RenderError) -> Error {
        match error {
            // A context fails only if memory runs out.
            RenderError::Memory | RenderError::Failed => Error::Memory,
        }
    }
}

impl From<fmt::Error> for Error {
    ghost from_gives = { λ _ e. e ≡ errors.Refused };

    fn from(_error: fmt::Error) -> Error {
        Error::Refused
    }
}
