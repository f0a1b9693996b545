//! The reasons to refuse a style with its options.

ghost use Rattle.std.specs.Prelude.{◌≡◌};
ghost use Rattle.csl_list.specs.declared.style_error.ListStyleError.TheVariants as errors;

use csl_common::Memory;
use csl_style::Scope;
use std::alloc::{AllocError, AllocFailed};
use std::error::Error;
use std::fmt;

/// The reasons to refuse a style with its options.
#[derive(Debug, Drop)]
pub enum ListStyleError {
    /// Out of memory.
    Memory,
    /// A key is by a macro that the style lacks. It is the first such key, and those of the
    /// citation come first.
    NoSuchMacro {
        /// Whether it is a key of the citation or of the bibliography.
        scope: Scope,
        /// The index of the key among its options' keys.
        key: usize,
    },
}

/// The CSL name of a scope.
fn scope_name(scope: Scope) -> &'static str {
    match scope {
        Scope::Citation => "citation",
        Scope::Bibliography => "bibliography",
    }
}

impl fmt::Display for ListStyleError {
    fn fmt<W: fmt::Write>(&self, f: &mut fmt::Formatter<W>) -> fmt::Result {
        match self {
            ListStyleError::Memory => f.write_str("out of memory"),
            ListStyleError::NoSuchMacro { scope, key } => {
                let name = scope_name(*scope);
                let number = key.saturating_add(1);
                write!(
                    f,
                    "{name}, key {number}: the style has no macro of this name"
                )
            }
        }
    }
}

impl Error for ListStyleError {}

impl From<Memory> for ListStyleError {
    ghost from_gives = { λ _ e. e ≡ errors.Memory };

    fn from(_error: Memory) -> ListStyleError {
        ListStyleError::Memory
    }
}

impl From<AllocError> for ListStyleError {
    ghost from_gives = { λ _ e. e ≡ errors.Memory };

    fn from(_error: AllocError) -> ListStyleError {
        ListStyleError::Memory
    }
}

impl<T: Drop> From<AllocFailed<T>> for ListStyleError {
    ghost from_gives = { λ _ e. e ≡ errors.Memory };

    fn from(_error: AllocFailed<T>) -> ListStyleError {
        ListStyleError::Memory
    }
}
