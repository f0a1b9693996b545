//! The locales of eleven languages, in the words of CSL's own (CSL 1.0.2, Locale). [`Language`]
//! finds one by its tag, such as `en-US`.
//!
//! An error that the docs of a call do not explain means out of memory.
#![tactic(auto)]

mod language;
mod locale;
mod tag;
mod words;

pub use language::{
    Language, brazilian_portuguese, british_english, dutch, english, french, german, italian,
    japanese, polish, simplified_chinese, spanish,
};
