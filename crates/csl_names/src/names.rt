//! The lists of a names node, and its box (CSL 1.0.2, Names).

pub(crate) mod forms;
pub(crate) mod kept;
pub(crate) mod lists;
pub(crate) mod node;
pub(crate) mod options;
pub(crate) mod written;
