//! A cite: its properties in the citation, and its answers together with its entry.

pub(crate) mod cite;
pub(crate) mod instance;
pub(crate) mod letters;
pub(crate) mod numbers;

pub use cite::{
    CertainCiteProperties, CiteProperties, DisambiguateState, IbidState, LocatorPayload, Sorting,
    SpecialForm, SpecificLocator, SpeculativeCiteProperties,
};
pub use instance::InstanceContext;
pub use letters::letter;
pub use numbers::{CitationNumber, NoteNumber};
