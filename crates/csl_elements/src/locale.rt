//! Locales: the terms, ordinals and dates of a language (CSL 1.0.2, Locale).

ghost use Rattle.std.specs.Prelude.{◌≡◌, IfOk, None, Some, false, []};
ghost use Rattle.csl_elements.specs.Locale.{ordinals_of, term_view, terms_of};
ghost use Rattle.csl_elements.specs.Term.{entry_text};

use crate::date::Date;
use crate::term::{Term, TermForm};
use csl_common::{GrammarGender, Memory};
use std::alloc::Global;

pub(crate) mod ordinal_table;
pub(crate) mod ordinals;

pub use ordinal_table::OrdinalTable;
pub use ordinals::LocaleOrdinals;

/// A term in one form (CSL 1.0.2, Terms).
#[derive(Drop)]
pub struct TermEntry {
    pub term: Term,
    pub form: TermForm,
    /// The singular text.
    pub single: String,
    /// The plural text, if it differs from the singular.
    pub multiple: Option<String>,
    /// The grammatical gender of the term.
    pub gender: Option<GrammarGender>,
}

impl TermEntry {
    /// A term with one text for the singular and the plural.
    pub fn new(alloc: Global, term: Term, form: TermForm, text: &str) -> Result<TermEntry, Memory>
        ensures { IfOk result (λ made. term_view made ≡ record {
          term = term;
          form = form;
          single = text.now;
          multiple = None;
          gender = None;
        }) }
    {
        Ok(TermEntry {
            term,
            form,
            single: String::from_str(alloc, text)?,
            multiple: None,
            gender: None,
        })
    }

    /// A term with a singular and a plural text.
    pub fn counted(
        alloc: Global,
        term: Term,
        form: TermForm,
        one: &str,
        several: &str,
    ) -> Result<TermEntry, Memory>
        ensures { IfOk result (λ made. term_view made ≡ record {
          term = term;
          form = form;
          single = one.now;
          multiple = Some several.now;
          gender = None;
        }) }
    {
        let single = String::from_str(alloc, one)?;
        let several = String::from_str(alloc, several)?;
        Ok(TermEntry {
            term,
            form,
            single,
            multiple: Some(several),
            gender: None,
        })
    }

    /// The plural text if `plural` is true and there is one, else the singular text.
    pub fn text(&self, plural: bool) -> &str
        ensures { result.now ≡ entry_text plural (term_view self.now) }
    {
        match &self.multiple {
            Some(multiple) if plural => multiple.as_str(),
            _ => self.single.as_str(),
        }
    }
}

/// The numbers that an ordinal is for (CSL 1.0.2, Ordinals).
#[derive(Clone, Copy, Debug, PartialEq, Eq, PartialOrd, Ord, Hash)]
pub enum OrdinalSlot {
    /// The numbers that no other slot fits.
    Default,
    /// The numbers whose compared digits ([`OrdinalMatch`]) are this number, from 0 to 99.
    Two(u8),
    /// This number from 1 to 10. Its ordinal is a word.
    Long(u8),
}

/// The digits of a number that are compared with a slot (CSL 1.0.2, Ordinals: match).
#[derive(Clone, Copy, Debug, PartialEq, Eq, PartialOrd, Ord, Hash)]
pub enum OrdinalMatch {
    LastDigit,
    LastTwoDigits,
    WholeNumber,
}

/// An ordinal: the suffix of a number, or the word for it.
#[derive(Drop)]
pub struct OrdinalTerm {
    pub slot: OrdinalSlot,
    /// If it is not set: the last digit for the slots 0 to 9, the last two for 10 to 99.
    pub matching: Option<OrdinalMatch>,
    /// The gender that the ordinal is for. A neutral ordinal has none.
    pub gender: Option<GrammarGender>,
    pub text: String,
}

/// The terms, ordinals and dates of a language (CSL 1.0.2, Locale).
#[derive(Drop)]
pub struct Locale {
    pub terms: Vec<TermEntry>,
    pub ordinals: Vec<OrdinalTerm>,
    /// The localized dates.
    pub dates: Vec<Date>,
    /// Whether a comma or period after a closing quote goes before it.
    pub punctuation_in_quote: bool,
    /// Whether only the first day of a month is written as an ordinal.
    pub limit_day_ordinals_to_day_1: bool,
}

impl Locale {
    /// A locale without terms, ordinals and dates. Both of its options are false.
    pub fn new(alloc: Global) -> Locale
        ensures terms { terms_of result ≡ [] }
        ensures ordinals { ordinals_of result ≡ [] }
        ensures dates { result.dates.items ≡ [] }
        ensures quote { result.punctuation_in_quote ≡ false }
        ensures days { result.limit_day_ordinals_to_day_1 ≡ false }
    {
        Locale {
            terms: Vec::new(alloc),
            ordinals: Vec::new(alloc),
            dates: Vec::new(alloc),
            punctuation_in_quote: false,
            limit_day_ordinals_to_day_1: false,
        }
    }
}
