//! Languages as data: what their locales hold (CSL 1.0.2, Locale). A further language is a file of
//! rows like those here, its contents in `specs/Languages.antt`, its words in `specs/Words.antt`,
//! and a function that returns its locale.
//!
//! The rows have the words, ordinals, dates and options of CSL's own locales;
//! `tools/language` writes them from these, and `tools/compare_locales` lists those that differ.

use csl_elements::{
    DateAnyForm, DatePartName, GrammarGender, OrdinalMatch, OrdinalSlot, OtherTerm, Term, TermForm,
};

/// Rows of words: each word with its forms. A text has a gender after `of`, if it has one.
macro_rules! words {
    (@gender) => { None };
    (@gender $gender:ident) => { Some($gender) };
    ($($word:expr => $($form:ident $text:literal $(of $gender:ident)?),+;)*) => {
        [$($(($word, $form, $text, words!(@gender $($gender)?)),)+)*]
    };
}

/// Rows of terms: each term with its forms. A text has its plural after a slash, if that differs.
macro_rules! terms {
    (@plural) => { None };
    (@plural $many:literal) => { Some($many) };
    ($($term:expr => $($form:ident $one:literal $(/ $many:literal)?),+;)*) => {
        [$($(($term, $form, $one, terms!(@plural $($many)?)),)+)*]
    };
}

/// Rows of terms with a gender, in the long form.
macro_rules! gendered_terms {
    ($($term:expr => $one:literal $(/ $many:literal)? of $gender:ident;)*) => {
        [$(($term, $gender, $one, terms!(@plural $($many)?)),)*]
    };
}

mod brazilian_portuguese;
mod british_english;
mod dutch;
mod english;
mod french;
mod german;
mod italian;
mod japanese;
mod polish;
mod simplified_chinese;
mod spanish;

pub(crate) use brazilian_portuguese::brazilian_portuguese_tables;
pub(crate) use british_english::british_english_tables;
pub(crate) use dutch::dutch_tables;
pub(crate) use english::english_tables;
pub(crate) use french::french_tables;
pub(crate) use german::german_tables;
pub(crate) use italian::italian_tables;
pub(crate) use japanese::japanese_tables;
pub(crate) use polish::polish_tables;
pub(crate) use simplified_chinese::simplified_chinese_tables;
pub(crate) use spanish::spanish_tables;

/// A word that most styles print, its form, its text, and its gender.
pub(crate) type WordRow = (OtherTerm, TermForm, &'static str, Option<GrammarGender>);

/// A term, its form, its singular, and its plural if that differs.
pub(crate) type TermRow = (Term, TermForm, &'static str, Option<&'static str>);

/// A term in the long form, its gender, its singular, and its plural if that differs.
pub(crate) type GenderedTermRow = (Term, GrammarGender, &'static str, Option<&'static str>);

/// The numbers that an ordinal is for, which of their digits count, its gender, and its text.
pub(crate) type OrdinalRow = (
    OrdinalSlot,
    Option<OrdinalMatch>,
    Option<GrammarGender>,
    &'static str,
);

/// A part of a localized date, its form, and the texts before and after it.
pub(crate) type DatePartRow = (
    DatePartName,
    Option<DateAnyForm>,
    Option<&'static str>,
    Option<&'static str>,
);

/// What the locale of a language holds.
#[derive(Clone, Copy)]
pub(crate) struct Tables {
    /// The words that most styles print.
    pub(crate) words: &'static [WordRow],
    /// The other terms without a gender.
    pub(crate) terms: &'static [TermRow],
    /// The other terms with a gender. Other forms than the long one have none.
    pub(crate) gendered_terms: &'static [GenderedTermRow],
    pub(crate) ordinals: &'static [OrdinalRow],
    /// The date format in numbers.
    pub(crate) numeric_date: &'static [DatePartRow],
    /// The date format in words.
    pub(crate) text_date: &'static [DatePartRow],
    pub(crate) punctuation_in_quote: bool,
    pub(crate) limit_day_ordinals_to_day_1: bool,
}
