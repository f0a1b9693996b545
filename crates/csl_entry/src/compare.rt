//! Comparison of entries and of their answers.

pub(crate) mod alike;
pub(crate) mod same;

pub use alike::same_answers;
pub use same::{as_deref, same_date, same_number, same_pages, same_persons, same_text};
