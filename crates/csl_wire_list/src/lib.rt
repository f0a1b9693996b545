//! The options of a style for its citations and its bibliography, and the citations of a document,
//! from JSON values (docs/WIRE.md is the page of the notation). The names are those of CSL 1.0.2.
//! What the notation does not know is refused, with its place.
//!
//! An error that the docs of a call do not explain means out of memory.
#![tactic(auto)]

mod bibliography;
mod choices;
mod citation;
mod citations;
mod document;
mod items;
mod keys;
mod layout;
mod limits;
mod list_style;
mod unknown;
mod works;

pub use bibliography::bibliography_options_of;
pub use citation::citation_options_of;
pub use document::{WireDocument, document_in, document_of};
pub use limits::{DocumentLimits, OptionLimits};
pub use list_style::{list_style_in, list_style_of};
pub use works::NamedWork;
