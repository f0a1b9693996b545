//! The steps between a rendered tree and a printed list: the case of texts (`apply_text_case`),
//! punctuation and quotes (`finish`), texts to sort by (`fold`), the order of sort keys
//! (`order_of`), and which links stay (`with_web_links`).
//!
//! Rendering has no text case. A reader of styles who wants it ends the prefix of a node with the
//! mark of a case (`TextCase::start_mark`), and begins its suffix with the other one
//! (`TextCase::end_mark`). Rendering prints both where the node prints. `apply_text_case` then sets
//! the case of what is between them, and removes them. Call it on each cite and each entry before
//! any other step, and `without_case_marks` on each sort key.
//!
//! Call `finish` on a tree as rendering returns it, before it is simplified. There a text is what
//! one node wrote, and the marks of the nodes around it are texts of their own, so that an ellipsis
//! can be told from the periods of several affixes.
//!
//! An error that the docs of a call do not explain means out of memory.
#![tactic(auto)]

mod case_marks;
mod case_words;
mod finishing;
mod folding;
mod keys;
mod letter_case;
mod letters;
mod links;
mod punctuation;
mod quotes;
mod spaces;
mod text_case;
mod unmarked;

pub use case_marks::{TextCase, has_case_mark, is_case_mark, without_case_marks};
pub use finishing::finish;
pub use folding::fold;
pub use keys::{KeyText, SortDirection, order_of};
pub use links::{with_links_to, with_web_links};
pub use text_case::apply_text_case;
