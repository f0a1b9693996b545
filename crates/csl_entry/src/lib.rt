//! The answers of entries and cites to a style: the trait for entries of any type, the answers of
//! the built-in entry, and the answers of a cite in its citation.
//!
//! An error that the docs of a call do not explain means out of memory.
#![tactic(auto)]

mod citation;
mod compare;
mod entry;
mod forms;
mod label;
mod lent_text;
mod number_result;
mod snapshot;
mod taxonomy;

pub use citation::{
    CertainCiteProperties, CitationNumber, CiteProperties, DisambiguateState, IbidState,
    InstanceContext, LocatorPayload, NoteNumber, Sorting, SpecialForm, SpecificLocator,
    SpeculativeCiteProperties, letter,
};
pub use compare::{
    as_deref, same_answers, same_date, same_number, same_pages, same_persons, same_text,
};
pub use entry::{csl_language, legislation_kind, recording_kind};
pub use forms::{DisambiguatedNameForm, NameDisambiguationProperties};
pub use label::Alphanumerical;
pub use lent_text::LentText;
pub use number_result::{NumberOrPageVariableResult, NumberVariableResult, PageVariableResult};
pub use snapshot::Snapshot;
pub use taxonomy::EntryLike;
