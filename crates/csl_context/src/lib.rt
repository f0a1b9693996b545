//! The context in which a cite is rendered: the open parts, the inherited values, and the state
//! that nodes leave for the nodes after them.
//!
//! In contracts a context is one record (`specs/Context.antt`), and each call is one equation
//! on it.
//!
//! A call that borrows a context mutably returns `Failed` if the context had failed, and changes
//! nothing. It returns `Memory` if memory runs out, here or in the entry: then the context has
//! failed. Docs of a call name these two errors only if they say more about them.
//! Elsewhere an error that the docs do not explain means out of memory.
#![tactic(auto)]

mod bodies;
mod context;
mod error;
mod inherited;
mod mark;
mod quotes;
mod state;
mod terms;
mod texts;
mod variables;
mod writing;

pub use bodies::{BodyDressing, OpenBody};
pub use context::{Context, LeftState, Rendered, WritingContext};
pub use error::RenderError;
pub use mark::Mark;
