//! Works and cites from JSON values (docs/WIRE.md is the page of the notation). The names are those
//! of CSL 1.0.2. What the notation does not know is refused, with its place.
//!
//! An error that the docs of a call do not explain means out of memory.
#![tactic(auto)]

mod answers;
mod cites;
mod dates;
mod disambiguation;
mod entries;
mod entry;
mod limits;
mod numbers;
mod persons;
mod sizes;
mod texts;
mod year_suffix;

pub use cites::{WireCite, cite_of};
pub use entries::entry_of;
pub use entry::WireEntry;
pub use limits::WorkLimits;
