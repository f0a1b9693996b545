//! The output tree: rendered output as formatted text, elements and links.
//!
//! The *leaf text* of a tree is its texts, markups and link texts in order, joined. Contracts see a
//! tree as its list of tokens (`specs/Tokens.antt`). The tokens leave out only how the texts are
//! stored.
//!
//! An error that the docs of a call do not explain means out of memory.
#![tactic(auto)]

pub mod content;
mod copies;
mod css;
pub mod elem;
mod ends;
mod escapes;
mod find_names;
pub mod flat;
pub mod formatting;
pub mod html_error;
mod last_text;
mod links;
mod marks;
mod places;
pub mod read;
mod search;
pub mod simplify;
pub mod stack;
mod write;

pub use elem::{BufWriteFormat, Elem, ElemChild, ElemChildren, ElemMeta};
pub use flat::FlatTree;
pub use formatting::{Formatted, Formatting};
pub use html_error::HtmlError;
pub use read::leaf_text_of_html;
pub use simplify::{simplify_children, simplify_fully};
pub use stack::NonEmptyStack;
