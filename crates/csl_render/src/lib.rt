//! Renders the nodes of a style for a cite (CSL 1.0.2, Rendering Elements). A node has three calls:
//! its dry run, whether it shows a variable, and its content. They run in a context that the caller
//! lends. This crate has the nodes that hold other nodes or call a macro. The other nodes are in
//! `csl_nodes`, and the writing of persons in `csl_names`. Code that would take stack at each level
//! of nesting, though the nodes inside do not need it, is kept out of line (`inline(never)`).
//!
//! A call that borrows a context mutably returns `Failed` if the context had failed, and changes
//! nothing. It returns `Memory` if memory runs out, here or in the entry: then the context has
//! failed. Docs of a call name these two errors only if they say more about them.
#![tactic(auto)]

mod choose;
mod cites;
mod dry_run;
mod element;
mod flags;
mod group;
mod layout;
mod leaves;
mod limited;
mod names;
mod node;
mod pair;
mod plan;
mod query;
mod render;
mod text;
mod variable_set;

pub use choose::choose_children;
pub use cites::{bibliography_entry, cite, cite_in, cite_pair, cite_pair_with, sort_key};
pub use csl_nodes::{BranchConditionIter, BranchConditionPos, UsageInfo, full_sort_key};
pub use limited::render_within;
pub use pair::{Pair, render_pair};
pub use render::RenderCsl;
