//! What callers of the public types rely on, each as a contract over a call of theirs: `==` is true
//! exactly if the views agree, equal values have the same hash, and orders are those of the views.
//! Also two entry types that answer oddly, and proved calls of functions with a condition that no
//! library meets.
//!
//! A call that borrows a context mutably returns `Failed` if the context had failed, and changes
//! nothing. It returns `Memory` if memory runs out, here or in the entry: then the context has
//! failed. Docs of a call name these two errors only if they say more about them.
//! Elsewhere an error that the docs do not explain means out of memory.
#![tactic(auto)]

pub mod blank;
pub mod calls;
pub mod cites;
pub mod names;
pub mod table;
pub mod trees;
pub mod values;
