//! The work of the program `csl_cite` as a library. [`run::run`] does all of it, over any two
//! writers; [`program`] hands it the arguments and the standard streams.
//!
//! An error that the docs of a call do not explain means out of memory.
#![tactic(auto)]

mod answers;
mod command;
mod content;
pub mod program;
pub mod run;
mod streams;
