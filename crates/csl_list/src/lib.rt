//! The citations and the bibliography of a document, by CSL 1.0.2: sorted, numbered, with positions
//! and affixes, told apart by names, year suffixes and branches, collapsed, in their cases, and
//! finished.
//!
//! [`ListStyle::new`] joins a style with its options. A [`BibliographyDriver`] takes the citations
//! of a document, and [`BibliographyDriver::finish`] renders them with the bibliography.
//!
//! An error that the docs of a call do not explain means out of memory.
#![tactic(auto)]

mod bibliography;
mod cases;
mod citation;
mod cite;
mod collapse;
mod collation;
mod driver;
mod equal;
mod error;
mod given_names;
mod identity;
mod keys;
mod likeness;
mod line_names;
mod list_style;
mod listed;
mod locator;
mod more_names;
mod options;
mod pieces;
mod position;
mod rendered;
mod request;
mod style_error;
mod substitute;
mod telling;
mod told;
mod told_names;
mod year_suffix;

pub use collation::Collation;
pub use driver::BibliographyDriver;
pub use error::ListError;
pub use list_style::ListStyle;
pub use listed::ListedWorks;
pub use options::{
    AuthorSubstitute, BibliographyOptions, CitationOptions, Collapse, GivenNameRule, KeySource,
    SecondFieldAlign, SortKey, SubstituteRule,
};
pub use rendered::{BibliographyItem, RenderedBibliography, RenderedCitation, RenderedList};
pub use request::{CitationItem, CitationRequest, CitePurpose, plain_affix};
pub use style_error::ListStyleError;
