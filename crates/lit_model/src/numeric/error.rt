//! The error of parsing a number or pages.
//! Definitions: specs/Numeric.antt.

ghost use Rattle.std.specs.Prelude.{◌≡◌, Some};
ghost use Rattle.lit_model.specs.Numeric.{error_text};
ghost use Rattle.lit_model.specs.declared.numeric.error.NumericError.TheVariants as errors;

use csl_common::Memory as OutOfMemory;
use std::alloc::{AllocError, AllocFailed};
use std::error::Error;
use std::fmt;

/// The reason why a text was not read as a number or as pages.
#[derive(Clone, Copy, Debug, PartialEq, Eq, Hash)]
pub enum NumericError {
    /// Out of memory.
    Memory,
    /// The text is not in the grammar.
    NotNumeric,
}

impl fmt::Display for NumericError {
    ghost output = { λ e. Some (error_text e) };

    fn fmt<W: fmt::Write>(&self, f: &mut fmt::Formatter<W>) -> fmt::Result {
        match self {
            NumericError::Memory => f.write_str("out of memory"),
            NumericError::NotNumeric => f.write_str("not numeric"),
        }
    }
}

impl Error for NumericError {}

impl From<OutOfMemory> for NumericError {
    ghost from_gives = { λ _ e. e ≡ errors.Memory };

    fn from(_error: OutOfMemory) -> NumericError {
        NumericError::Memory
    }
}

impl From<AllocError> for NumericError {
    ghost from_gives = { λ _ e. e ≡ errors.Memory };

    fn from(_error: AllocError) -> NumericError {
        NumericError::Memory
    }
}

impl<T: Drop> From<AllocFailed<T>> for NumericError {
    ghost from_gives = { λ _ e. e ≡ errors.Memory };

    fn from(_error: AllocFailed<T>) -> NumericError {
        NumericError::Memory
    }
}
