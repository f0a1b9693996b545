//! The settings for all nodes of a style (CSL 1.0.2, Global Options, Inheritable Name Options).
//! Definitions: specs/Style.antt.

ghost use Rattle.csl_style.specs.Style.{AreDefaults};

use csl_elements::InheritableNameOptions;

/// How the second number of a page range is written (CSL 1.0.2, Appendix V: Page Range Formats).
#[derive(Clone, Copy, Debug, Default, PartialEq, Eq, PartialOrd, Ord, Hash)]
pub enum PageRangeFormat {
    #[default]
    Expanded,
    Minimal,
    MinimalTwo,
    /// Not supported: a style with it is refused.
    Chicago15,
    /// Not supported: a style with it is refused.
    Chicago16,
}

/// When a non-dropping particle is demoted, that is, comes after the given name (CSL 1.0.2, Global
/// Options: demote-non-dropping-particle).
#[derive(Clone, Copy, Debug, Default, PartialEq, Eq, PartialOrd, Ord, Hash)]
pub enum DemoteNonDroppingParticle {
    /// In inverted names, which begin with the family name, and in sorting.
    #[default]
    DisplayAndSort,
    /// Only in sorting.
    SortOnly,
    Never,
}

/// The citation or the bibliography of a style.
#[derive(Clone, Copy, Debug, PartialEq, Eq, PartialOrd, Ord, Hash)]
pub enum Scope {
    Citation,
    Bibliography,
}

/// The settings for all nodes of a style.
#[derive(Drop)]
pub struct StyleSettings {
    pub page_range_format: Option<PageRangeFormat>,
    pub demote_non_dropping_particle: DemoteNonDroppingParticle,
    /// Whether initials keep the hyphen of a given name. They do by default.
    pub initialize_with_hyphen: bool,
    /// The options of names in the whole style.
    pub names: InheritableNameOptions,
    /// The options of names in the citation, over those of the whole style.
    pub citation_names: InheritableNameOptions,
    /// The options of names in the bibliography, over those of the whole style.
    pub bibliography_names: InheritableNameOptions,
}

impl Default for StyleSettings {
    ghost is_default = { λ settings. AreDefaults settings };

    fn default() -> StyleSettings {
        StyleSettings {
            page_range_format: None,
            demote_non_dropping_particle: DemoteNonDroppingParticle::default(),
            initialize_with_hyphen: true,
            names: InheritableNameOptions::default(),
            citation_names: InheritableNameOptions::default(),
            bibliography_names: InheritableNameOptions::default(),
        }
    }
}
