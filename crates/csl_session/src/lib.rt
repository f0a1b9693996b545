//! Requests and replies as JSON (docs/HOSTS.md): a [`Session`] keeps styles and works by names,
//! and renders cites, lines of a bibliography, sort keys and whole documents by them. [`serve`]
//! answers a request a line; a [`Conversation`] has the reply wait.
//!
//! An error that the docs of a call do not explain means out of memory.
#![tactic(auto)]

mod asked;
mod cases;
mod conversation;
mod documents;
mod hello;
mod keeping;
mod kept;
mod lent;
mod limits;
mod lines;
mod op;
mod rendering;
mod replies;
mod session;
mod style_facts;

pub use conversation::{Conversation, Taken};
pub use hello::PROTOCOL;
pub use limits::{LONGEST_REQUEST, SessionLimits, StyleLimits};
pub use lines::{Ending, serve};
pub use session::Session;
