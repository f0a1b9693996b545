//! How much of a work and of a cite is read.

ghost use Rattle.std.specs.Prelude.{◌≡◌, ◌+◌, ◌^◌};

use csl_wire::{Limits, Reader};
use std::alloc::Global;

/// How much of a work and of a cite is read.
#[derive(Clone, Copy, Debug, PartialEq, Eq)]
pub struct WorkLimits {
    /// The most bytes of the texts among the variables of a work, each text counted with one more.
    /// Its key has no more.
    pub bytes: usize,
    /// The most bytes of a text for a number, for pages or for a locator, which each look-up may
    /// read anew.
    pub number: usize,
    /// The most persons of a work, and the most forms of names of a cite.
    pub persons: usize,
}

impl WorkLimits {
    /// The limits for works and cites from strangers: 100,000 bytes, 500 of a number, and 2,000
    /// persons.
    pub fn of_strangers() -> WorkLimits
        ensures bytes { result.bytes ≡ 100000 }
        ensures number { result.number ≡ 500 }
        ensures persons { result.persons ≡ 2000 }
    {
        WorkLimits {
            bytes: 100_000,
            number: 500,
            persons: 2_000,
        }
    }

    /// No limits, for works and cites that are trusted.
    pub fn none() -> WorkLimits
        ensures bytes { result.bytes + 1 ≡ 2 ^ 64 }
        ensures number { result.number + 1 ≡ 2 ^ 64 }
        ensures persons { result.persons + 1 ≡ 2 ^ 64 }
    {
        WorkLimits {
            bytes: usize::MAX,
            number: usize::MAX,
            persons: usize::MAX,
        }
    }

    /// The reader of texts.
    pub(crate) fn texts(self, alloc: Global) -> Reader
        ensures { result.limits.text ≡ self.bytes }
    {
        Reader {
            alloc,
            limits: Limits { text: self.bytes },
            marks: false,
        }
    }

    /// The reader of texts for numbers, for pages and for locators.
    pub(crate) fn numbers(self, alloc: Global) -> Reader
        ensures { result.limits.text ≡ self.number }
    {
        Reader {
            alloc,
            limits: Limits { text: self.number },
            marks: false,
        }
    }
}
