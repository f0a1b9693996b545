//! Writes persons into a context of the caller (CSL 1.0.2, Names): one name, a list of names, or
//! the lists of a names node.
//!
//! A call that borrows a context mutably returns `Failed` if the context had failed, and changes
//! nothing. It returns `Memory` if memory runs out, here or in the entry: then the context has
//! failed. Docs of a call name these two errors only if they say more about them.
#![tactic(auto)]

mod et_al;
mod given;
mod join;
mod list;
mod list_styles;
mod name;
mod name_styles;
mod names;
mod part;
mod piece;

pub use list_styles::write_name_list;
pub use name_styles::write_name;
pub use names::forms::{may_hide, writes_no_name};
pub use names::lists::{PersonList, all_empty, no_persons, peeked_lists, resolved_lists};
pub use names::node::{commit_names, write_names};
