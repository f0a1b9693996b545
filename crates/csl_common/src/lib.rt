//! Types that several crates share: forms, seasons, ordinals, the error for running out of memory,
//! and writers that record whether they refused a text.
#![tactic(auto)]

pub mod form;
pub mod memory;
pub mod ordinal;
pub mod season;
pub mod sink;

pub use form::{LongShortForm, NumberForm};
pub use memory::Memory;
pub use ordinal::{GrammarGender, Ordinals};
pub use season::Season;
pub use sink::{Sink, TrackingFormatter, TrackingWriter, WriteTo, display_text, write_text};
