//! The built-in data of the program `csl_cite`: entries with their labels and kinds, the styles
//! that they are cited in, and the style that a title is cited in.
//!
//! An error that the docs of a call do not explain means out of memory.
#![tactic(auto)]

mod english;
mod entries;
mod labels;
mod styles;
mod title;

pub use entries::BuiltIn;
pub use styles::BuiltInStyle;
pub use title::{TitleOnly, title_style};
