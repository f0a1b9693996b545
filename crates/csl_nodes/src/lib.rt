//! Rendering and dry runs of the nodes that hold no other node (CSL 1.0.2, Rendering Elements):
//! texts of a variable, a term or a value, numbers, labels and dates. The caller lends the context.
//! Also here are the tests of a branch (Choose), usage flags and the group rule (Group).
//! The larger functions are kept out of line (`inline(never)`). Inside the callers, which call one
//! another, their locals would take stack at each level of nesting.
//!
//! A call that borrows a context mutably returns `Failed` if the context had failed, and changes
//! nothing. It returns `Memory` if memory runs out, here or in the entry: then the context has
//! failed. Docs of a call name these two errors only if they say more about them.
//! Elsewhere an error that the docs do not explain means out of memory.
#![tactic(auto)]

mod boxes;
mod branch_conditions;
mod branch_tests;
mod charges;
mod condition;
mod date;
mod date_key;
mod date_parts;
mod date_suffix;
mod date_text;
mod dressing;
mod empty;
mod label;
mod links;
mod number;
mod number_or_page;
mod pages;
mod resolved;
mod silent;
mod special_form;
mod text;
mod usage;

pub use branch_conditions::{BranchConditionIter, BranchConditionPos};
pub use branch_tests::branch_holds;
pub use date::{date_info, date_shows, render_date};
pub use date_key::full_sort_key;
pub use empty::push_nothing;
pub use label::{label_info, render_label};
pub use number::{number_info, number_shows, render_number};
pub use special_form::shows_macro_affixes;
pub use text::{
    render_term, render_value, render_variable, term_info, value_info, variable_info,
    variable_shows,
};
pub use usage::{UsageInfo, no_info, without_group_flag};
