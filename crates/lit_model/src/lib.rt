//! The literature model: the entries of a bibliography, and the texts of their parts.
//!
//! An error that the docs of a call do not explain means out of memory.
#![tactic(auto)]

mod chunks;
mod copies;
pub mod date;
pub mod entry;
pub mod entry_type;
mod first_names;
mod initials;
pub mod maybe_typed;
pub mod numeric;
pub mod page;
pub mod person;
mod same_person;
mod scan;
pub mod select;
pub mod source;
pub mod text;
pub mod web_address;

pub use csl_common::{GrammarGender, LongShortForm, Memory, NumberForm, Ordinals, Season};
pub use date::Date;
pub use entry::Entry;
pub use entry_type::EntryType;
pub use maybe_typed::MaybeTyped;
pub use numeric::{Numeric, NumericDelimiter, NumericError, NumericValue};
pub use page::{PageRanges, PageRangesPart};
pub use person::{Person, PersonRole, PersonsWithRoles};
pub use same_person::are_same_persons;
pub use select::{Bind, Clause, Field};
pub use source::{LanguageIdentifier, Publisher, QualifiedUrl, SerialNumber};
pub use text::{ChunkKind, ChunkedString, FormatString, StringChunk};
pub use web_address::is_web_address;
