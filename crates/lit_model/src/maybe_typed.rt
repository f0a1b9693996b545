//! Typed values, or texts in their place.

ghost use Rattle.std.specs.Prelude.{◌≡◌, IfOk};
ghost use Rattle.lit_model.specs.MaybeTyped.{maybe_view};
ghost use Rattle.lit_model.specs.Numeric.{numeric_view};
ghost use Rattle.lit_model.specs.Page.{pages_view};

use crate::numeric::Numeric;
use crate::page::PageRanges;
use csl_common::Memory;
use std::alloc::Global;

/// A typed value, or a text in its place.
#[derive(PartialEq, Eq, Hash, Drop)]
pub enum MaybeTyped<T> {
    /// The value.
    Typed(T),
    /// A text in place of the value.
    String(String),
}

impl MaybeTyped<Numeric> {
    /// A copy.
    pub fn clone(&self, alloc: Global) -> Result<MaybeTyped<Numeric>, Memory>
        ensures { IfOk result (λ copy. maybe_view numeric_view copy
            ≡ maybe_view numeric_view self.now) }
    {
        match self {
            MaybeTyped::Typed(number) => {
                let copy = number.clone(alloc)?;
                Ok(MaybeTyped::Typed(copy))
            }
            MaybeTyped::String(text) => {
                let copy = String::from_str(alloc, text.as_str())?;
                Ok(MaybeTyped::String(copy))
            }
        }
    }
}

impl MaybeTyped<PageRanges> {
    /// A copy.
    pub fn clone(&self, alloc: Global) -> Result<MaybeTyped<PageRanges>, Memory>
        ensures { IfOk result (λ copy. maybe_view pages_view copy
            ≡ maybe_view pages_view self.now) }
    {
        match self {
            MaybeTyped::Typed(pages) => {
                let copy = pages.clone(alloc)?;
                Ok(MaybeTyped::Typed(copy))
            }
            MaybeTyped::String(text) => {
                let copy = String::from_str(alloc, text.as_str())?;
                Ok(MaybeTyped::String(copy))
            }
        }
    }
}
