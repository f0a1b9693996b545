//! How much is read of the options of a style, and of a document.

ghost use Rattle.std.specs.Prelude.{◌≡◌, ◌+◌, ◌^◌};

use csl_wire::{Limits, Reader};
use std::alloc::Global;

/// How much of a style with its options is read.
#[derive(Clone, Copy, Debug, PartialEq, Eq)]
pub struct OptionLimits {
    /// The most bytes of one text, in the options and in the style.
    pub text: usize,
    /// The most keys that citations are sorted by. The bibliography has no more.
    pub keys: usize,
}

impl OptionLimits {
    /// The limits for a style from a stranger: texts of at most 200 bytes, and 20 keys.
    pub fn of_strangers() -> OptionLimits
        ensures text { result.text ≡ 200 }
        ensures keys { result.keys ≡ 20 }
    {
        OptionLimits {
            text: 200,
            keys: 20,
        }
    }

    /// No limits, for a style that is trusted.
    pub fn none() -> OptionLimits
        ensures text { result.text + 1 ≡ 2 ^ 64 }
        ensures keys { result.keys + 1 ≡ 2 ^ 64 }
    {
        OptionLimits {
            text: usize::MAX,
            keys: usize::MAX,
        }
    }

    /// The limits of the style itself.
    pub(crate) fn style(self) -> Limits
        ensures { result.text ≡ self.text }
    {
        Limits { text: self.text }
    }

    /// The reader of texts.
    pub(crate) fn texts(self, alloc: Global) -> Reader
        ensures { result.limits.text ≡ self.text }
    {
        Reader {
            alloc,
            limits: self.style(),
            marks: false,
        }
    }
}

/// How much of a document is read.
#[derive(Clone, Copy, Debug, PartialEq, Eq)]
pub struct DocumentLimits {
    /// The most citations.
    pub citations: usize,
    /// The most cites of all citations together.
    pub cites: usize,
    /// The most works that are listed without a cite.
    pub works: usize,
    /// The most bytes of a text around a cite.
    pub text: usize,
    /// The most bytes of a locator, which each look-up may read anew.
    pub locator: usize,
}

impl DocumentLimits {
    /// The limits for documents from strangers: 10,000 citations of 20,000 cites together, 10,000
    /// works without a cite, texts of 10,000 bytes, and locators of 500.
    pub fn of_strangers() -> DocumentLimits
        ensures citations { result.citations ≡ 10000 }
        ensures cites { result.cites ≡ 20000 }
        ensures works { result.works ≡ 10000 }
        ensures text { result.text ≡ 10000 }
        ensures locator { result.locator ≡ 500 }
    {
        DocumentLimits {
            citations: 10_000,
            cites: 20_000,
            works: 10_000,
            text: 10_000,
            locator: 500,
        }
    }

    /// No limits, for documents that are trusted.
    pub fn none() -> DocumentLimits
        ensures citations { result.citations + 1 ≡ 2 ^ 64 }
        ensures cites { result.cites + 1 ≡ 2 ^ 64 }
        ensures works { result.works + 1 ≡ 2 ^ 64 }
        ensures text { result.text + 1 ≡ 2 ^ 64 }
        ensures locator { result.locator + 1 ≡ 2 ^ 64 }
    {
        DocumentLimits {
            citations: usize::MAX,
            cites: usize::MAX,
            works: usize::MAX,
            text: usize::MAX,
            locator: usize::MAX,
        }
    }

    /// The reader of the texts around cites.
    pub(crate) fn texts(self, alloc: Global) -> Reader
        ensures { result.limits.text ≡ self.text }
    {
        Reader {
            alloc,
            limits: Limits { text: self.text },
            marks: false,
        }
    }

    /// The reader of locators.
    pub(crate) fn locators(self, alloc: Global) -> Reader
        ensures { result.limits.text ≡ self.locator }
    {
        Reader {
            alloc,
            limits: Limits { text: self.locator },
            marks: false,
        }
    }
}
