//! How names are written (CSL 1.0.2, Names, Name, Name-part and Et-al).

use crate::affixes::Affixes;
use crate::formatting::Formatting;
use crate::term::OtherTerm;

mod options;

pub use options::{InheritableNameOptions, InheritedNameOptions, NameOptions};

/// How much of each name is written (CSL 1.0.2, Name: form).
#[derive(Clone, Copy, Debug, Default, PartialEq, Eq, PartialOrd, Ord, Hash)]
pub enum NameForm {
    /// The whole name.
    #[default]
    Long,
    /// The family name alone.
    Short,
    /// The number of names.
    Count,
}

/// The word or sign before the last name (CSL 1.0.2, Name: and).
#[derive(Clone, Copy, Debug, PartialEq, Eq, PartialOrd, Ord, Hash)]
pub enum NameAnd {
    /// The term `and`.
    Text,
    /// An ampersand.
    Symbol,
}

/// Which names begin with the family name (CSL 1.0.2, Name: name-as-sort-order).
#[derive(Clone, Copy, Debug, PartialEq, Eq, PartialOrd, Ord, Hash)]
pub enum NameAsSortOrder {
    First,
    All,
}

/// When a delimiter precedes `et al.` or the `and` (CSL 1.0.2, Name: delimiter-precedes-et-al and
/// delimiter-precedes-last).
#[derive(Clone, Copy, Debug, Default, PartialEq, Eq, PartialOrd, Ord, Hash)]
pub enum DelimiterBehavior {
    /// After two or more names.
    #[default]
    Contextual,
    /// After a name that begins with the family name.
    AfterInvertedName,
    Always,
    Never,
}

/// A part of a name.
#[derive(Clone, Copy, Debug, PartialEq, Eq, PartialOrd, Ord, Hash)]
pub enum NamePartName {
    Given,
    Family,
}

/// A `cs:name-part`.
#[derive(Drop)]
pub struct NamePart {
    pub name: NamePartName,
    pub formatting: Formatting,
    pub affixes: Affixes,
}

/// A `cs:name`.
#[derive(Drop)]
pub struct Name {
    pub options: InheritableNameOptions,
    pub formatting: Formatting,
    /// How each part is written. Of several for one part, the first counts.
    pub parts: Vec<NamePart>,
}

/// A `cs:et-al`.
#[derive(Drop)]
pub struct EtAl {
    /// The term that replaces the names that are left out.
    pub term: OtherTerm,
    pub formatting: Formatting,
}
