//! Rendered contents as JSON values (docs/WIRE.md, Replies): as plain text, as HTML, and as the
//! tree of their texts.
//!
//! An error that the docs of a call do not explain means out of memory.
#![tactic(auto)]

mod formats;
mod members;
mod meta;
mod names;
mod tree;

pub use formats::{Formats, content_value};
pub use members::{put, put_number, put_text};
pub use tree::tree_value;
