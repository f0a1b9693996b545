//! The errors of a list.
//! Definitions: specs/Errors.antt.

ghost use Rattle.std.specs.Prelude.{◌≡◌};
ghost use Rattle.csl_list.specs.declared.error.ListError.TheVariants as errors;
ghost use Rattle.csl_list.specs.Errors.{of_render};

use csl::Error as RenderingError;
use csl_common::Memory;
use std::alloc::{AllocError, AllocFailed};
use std::error::Error;
use std::fmt;

/// Why a document has no list.
#[derive(Debug, Drop)]
pub enum ListError {
    /// Out of memory, here or in a work.
    Memory,
    /// The list would write more than its limit allows.
    Limit,
    /// A cite is of a work that the document does not have. It is the first such cite.
    NoSuchWork {
        /// The index of its citation.
        citation: usize,
        /// The index of the cite in its citation.
        item: usize,
    },
    /// The document has more works than there are citation numbers, which are 2,147,483,647, or
    /// more works with one cite than there are year suffixes, which are 65,536.
    TooManyWorks,
}

impl fmt::Display for ListError {
    fn fmt<W: fmt::Write>(&self, f: &mut fmt::Formatter<W>) -> fmt::Result {
        match self {
            ListError::Memory => f.write_str("out of memory"),
            ListError::Limit => f.write_str("beyond the limit"),
            ListError::NoSuchWork { citation, item } => {
                let (citation, cite) = (citation.saturating_add(1), item.saturating_add(1));
                write!(f, "citation {citation}, cite {cite}: there is no such work")
            }
            ListError::TooManyWorks => f.write_str("too many works"),
        }
    }
}

impl Error for ListError {}

impl From<Memory> for ListError {
    ghost from_gives = { λ _ e. e ≡ errors.Memory };

    fn from(_error: Memory) -> ListError {
        ListError::Memory
    }
}

impl From<AllocError> for ListError {
    ghost from_gives = { λ _ e. e ≡ errors.Memory };

    fn from(_error: AllocError) -> ListError {
        ListError::Memory
    }
}

impl<T: Drop> From<AllocFailed<T>> for ListError {
    ghost from_gives = { λ _ e. e ≡ errors.Memory };

    fn from(_error: AllocFailed<T>) -> ListError {
        ListError::Memory
    }
}

impl From<RenderingError> for ListError {
    ghost from_gives = { λ error e. e ≡ of_render error };

    fn from(error: RenderingError) -> ListError {
        match error {
            RenderingError::Limit => ListError::Limit,
            // Rendering itself has no other error than these two.
            RenderingError::Memory
            | RenderingError::NotNumeric
            | RenderingError::NotHtml
            | RenderingError::DateOutOfRange
            | RenderingError::Style(_)
            | RenderingError::Refused => ListError::Memory,
        }
    }
}
