//! The names of the values of options.

use csl_list::{CitePurpose, Collapse, GivenNameRule, SecondFieldAlign, SubstituteRule};

/// How cites in a row are shortened (CSL 1.0.2, Cite Collapsing: collapse).
pub(crate) static COLLAPSES: [(&str, Collapse); 4] = [
    ("citation-number", Collapse::CitationNumber),
    ("year", Collapse::Year),
    ("year-suffix", Collapse::YearSuffix),
    ("year-suffix-ranged", Collapse::YearSuffixRanged),
];

/// The names whose given names tell them apart (CSL 1.0.2, Disambiguation:
/// givenname-disambiguation-rule).
pub(crate) static GIVEN_NAME_RULES: [(&str, GivenNameRule); 5] = [
    ("all-names", GivenNameRule::AllNames),
    (
        "all-names-with-initials",
        GivenNameRule::AllNamesWithInitials,
    ),
    ("primary-name", GivenNameRule::PrimaryName),
    (
        "primary-name-with-initials",
        GivenNameRule::PrimaryNameWithInitials,
    ),
    ("by-cite", GivenNameRule::ByCite),
];

/// The place of the first field of a work (CSL 1.0.2, Whitespace: second-field-align).
pub(crate) static FIELD_ALIGNS: [(&str, SecondFieldAlign); 2] = [
    ("flush", SecondFieldAlign::Flush),
    ("margin", SecondFieldAlign::Margin),
];

/// The names that a substitute replaces (CSL 1.0.2, Reference Grouping:
/// subsequent-author-substitute-rule).
pub(crate) static SUBSTITUTE_RULES: [(&str, SubstituteRule); 4] = [
    ("complete-all", SubstituteRule::CompleteAll),
    ("complete-each", SubstituteRule::CompleteEach),
    ("partial-each", SubstituteRule::PartialEach),
    ("partial-first", SubstituteRule::PartialFirst),
];

/// The directions of a key: whether it is descending (CSL 1.0.2, Sorting: sort).
pub(crate) static DIRECTIONS: [(&str, bool); 2] = [("ascending", false), ("descending", true)];

/// The classes of styles: whether a citation begins with a capital, since it is a note (CSL 1.0.2,
/// Style: class).
pub(crate) static CLASSES: [(&str, bool); 2] = [("in-text", false), ("note", true)];

/// What a cite prints.
pub(crate) static PURPOSES: [(&str, CitePurpose); 5] = [
    ("author", CitePurpose::Author),
    ("year", CitePurpose::Year),
    ("full", CitePurpose::Full),
    ("prose", CitePurpose::Prose),
    ("suppress-author", CitePurpose::SuppressAuthor),
];
