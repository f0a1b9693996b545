//! The reasons to refuse a style.
//! Definitions: specs/Style.antt.

ghost use Rattle.std.specs.Prelude.{◌≡◌, Some};
ghost use Rattle.csl_style.specs.Style.{refusal_text};
ghost use Rattle.csl_style.specs.declared.style.error.StyleError.TheVariants as errors;

use std::alloc::AllocError;
use std::error::Error;
use std::fmt;

/// The reasons to refuse a style.
#[derive(Debug, Drop)]
pub enum StyleError {
    /// Out of memory.
    Memory,
    /// The macro of this name leads back to itself. It is the first such macro in the style's list.
    CyclicMacro(String),
    /// No macro leads back to itself, but the page format is one of the two Chicago formats, which
    /// are not supported.
    ChicagoPageFormat,
}

impl fmt::Display for StyleError {
    ghost output = { λ e. Some (refusal_text e) };

    fn fmt<W: fmt::Write>(&self, f: &mut fmt::Formatter<W>) -> fmt::Result {
        match self {
            StyleError::Memory => f.write_str("out of memory"),
            StyleError::CyclicMacro(name) => {
                write!(f, "the macro '{}' leads back to itself", name)
            }
            StyleError::ChicagoPageFormat => f.write_str("Chicago page formats are not supported"),
        }
    }
}

impl Error for StyleError {}

impl From<AllocError> for StyleError {
    ghost from_gives = { λ _ e. e ≡ errors.Memory };

    fn from(_error: AllocError) -> StyleError {
        StyleError::Memory
    }
}
