//! Forms that a style asks for.

/// Which of two forms of a text a style asks for (CSL 1.0.2, Text: form).
#[derive(Clone, Copy, Debug, Default, PartialEq, Eq, PartialOrd, Ord, Hash)]
pub enum LongShortForm {
    /// The whole text.
    #[default]
    Long,
    /// A shortened text, if there is one.
    Short,
}

/// How a number is written (CSL 1.0.2, Number).
#[derive(Clone, Copy, Debug, Default, PartialEq, Eq, Hash)]
pub enum NumberForm {
    /// `4`.
    #[default]
    Numeric,
    /// `4th`.
    Ordinal,
    /// `fourth`, for one to ten.
    LongOrdinal,
    /// `iv`, for 1 to 3999.
    Roman,
}
