//! The error of reading a text as HTML.
//! Definitions: specs/Html.antt.

ghost use Rattle.std.specs.Prelude.{◌≡◌, Some};
ghost use Rattle.csl_tree.specs.Html.{error_text};
ghost use Rattle.csl_tree.specs.declared.html_error.HtmlError.TheVariants as errors;

use lit_model::Memory as OutOfMemory;
use std::alloc::{AllocError, AllocFailed};
use std::error::Error;
use std::fmt;

/// The error of reading a text as HTML.
#[derive(Clone, Copy, Debug, PartialEq, Eq, Hash)]
pub enum HtmlError {
    /// Out of memory.
    Memory,
    /// The text is not HTML as `leaf_text_of_html` defines it.
    NotHtml,
}

impl fmt::Display for HtmlError {
    ghost output = { λ e. Some (error_text e) };

    fn fmt<W: fmt::Write>(&self, f: &mut fmt::Formatter<W>) -> fmt::Result {
        match self {
            HtmlError::Memory => f.write_str("out of memory"),
            HtmlError::NotHtml => f.write_str("not html"),
        }
    }
}

impl Error for HtmlError {}

impl From<OutOfMemory> for HtmlError {
    ghost from_gives = { λ _ e. e ≡ errors.Memory };

    fn from(_error: OutOfMemory) -> HtmlError {
        HtmlError::Memory
    }
}

impl From<AllocError> for HtmlError {
    ghost from_gives = { λ _ e. e ≡ errors.Memory };

    fn from(_error: AllocError) -> HtmlError {
        HtmlError::Memory
    }
}

impl<T: Drop> From<AllocFailed<T>> for HtmlError {
    ghost from_gives = { λ _ e. e ≡ errors.Memory };

    fn from(_error: AllocFailed<T>) -> HtmlError {
        HtmlError::Memory
    }
}
