//! How much is read.

ghost use Rattle.std.specs.Prelude.{◌≡◌, ◌+◌, ◌^◌};

use std::alloc::Global;

/// How much of a value is read.
#[derive(Clone, Copy, Debug, PartialEq, Eq)]
pub struct Limits {
    /// The most bytes of one text: of an affix, a delimiter, a value, a word of a locale, or the
    /// name of a macro.
    pub text: usize,
}

impl Limits {
    /// The limits for a style from a stranger: texts of at most 200 bytes.
    pub fn of_strangers() -> Limits
        ensures { result.text ≡ 200 }
    {
        Limits { text: 200 }
    }

    /// No limits, for a style that is trusted.
    pub fn none() -> Limits
        ensures { result.text + 1 ≡ 2 ^ 64 }
    {
        Limits { text: usize::MAX }
    }
}

/// What readers of values share.
#[derive(Clone, Copy)]
pub struct Reader {
    /// Where what is read is allocated.
    pub alloc: Global,
    /// How much is read.
    pub limits: Limits,
    /// Whether the text case of a node is read as marks in its affixes, for `csl_finish`.
    pub marks: bool,
}
