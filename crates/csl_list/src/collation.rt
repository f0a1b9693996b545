//! Collations: what the texts of sort keys are ordered by (CSL 1.0.2, Sorting).

use csl_common::Memory;
use csl_finish::fold;
use std::alloc::Global;

/// A collation of the caller, such as that of a language.
pub trait Collation {
    /// The text that a key's text is sorted by. The order is that of its bytes, so they may be the
    /// sort key of a collation, written as a text. Texts with one such text stand in their own
    /// order, and works without a text come last.
    ///
    /// # Errors
    /// [`Memory`]: out of memory. It ends the list.
    fn sort_text(&self, alloc: Global, text: &str) -> Result<String, Memory>;
}

/// The collation by [`fold`], which has no language.
#[derive(Clone, Copy, Debug)]
pub(crate) struct Folded;

impl Collation for Folded {
    fn sort_text(&self, alloc: Global, text: &str) -> Result<String, Memory> {
        fold(alloc, text)
    }
}
