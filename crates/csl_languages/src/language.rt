//! The languages that have a locale here (CSL 1.0.2, Locale).
//! Definitions: specs/Contents.antt, specs/Languages.antt, specs/Words.antt.

ghost use Rattle.std.specs.Prelude.{◌≡◌, false, true, IfOk, map};
ghost use Rattle.csl_languages.specs.Contents.{HasContents, contents_of_tables, term_of_word};
ghost use Rattle.csl_languages.specs.Languages.{contents, english_contents, british_english_contents};
ghost use Rattle.csl_languages.specs.Languages.{german_contents};
ghost use Rattle.csl_languages.specs.Languages.{french_contents, spanish_contents, italian_contents};
ghost use Rattle.csl_languages.specs.Languages.{brazilian_portuguese_contents, dutch_contents};
ghost use Rattle.csl_languages.specs.Languages.{polish_contents, japanese_contents};
ghost use Rattle.csl_languages.specs.Languages.{simplified_chinese_contents, first_words};
ghost use Rattle.csl_languages.specs.Words.{BeginsWith, terms_of_words, english_words};
ghost use Rattle.csl_languages.specs.Words.{british_english_words, german_words};
ghost use Rattle.csl_languages.specs.Words.{french_words, spanish_words, italian_words};
ghost use Rattle.csl_languages.specs.Words.{brazilian_portuguese_words, dutch_words, polish_words};
ghost use Rattle.csl_languages.specs.Words.{japanese_words, simplified_chinese_words};

use crate::locale::locale;
use crate::words::{
    Tables, brazilian_portuguese_tables, british_english_tables, dutch_tables, english_tables,
    french_tables, german_tables, italian_tables, japanese_tables, polish_tables,
    simplified_chinese_tables, spanish_tables,
};
use csl_common::Memory;
use csl_elements::Locale;
use std::alloc::Global;

/// A language, in the words of one of CSL's own locales.
#[derive(Clone, Copy, Debug, PartialEq, Eq, PartialOrd, Ord, Hash)]
pub enum Language {
    /// `en-US`.
    English,
    /// `en-GB`.
    BritishEnglish,
    /// `de-DE`.
    German,
    /// `fr-FR`.
    French,
    /// `es-ES`.
    Spanish,
    /// `it-IT`.
    Italian,
    /// `pt-BR`.
    BrazilianPortuguese,
    /// `nl-NL`.
    Dutch,
    /// `pl-PL`.
    Polish,
    /// `ja-JP`.
    Japanese,
    /// `zh-CN`.
    SimplifiedChinese,
}

impl Language {
    /// Its tables.
    fn tables(self) -> Tables
        ensures rows { contents_of_tables result ≡ contents self }
        ensures words { map term_of_word result.words.now ≡ terms_of_words (first_words self) }
    {
        match self {
            Language::English => english_tables(),
            Language::BritishEnglish => british_english_tables(),
            Language::German => german_tables(),
            Language::French => french_tables(),
            Language::Spanish => spanish_tables(),
            Language::Italian => italian_tables(),
            Language::BrazilianPortuguese => brazilian_portuguese_tables(),
            Language::Dutch => dutch_tables(),
            Language::Polish => polish_tables(),
            Language::Japanese => japanese_tables(),
            Language::SimplifiedChinese => simplified_chinese_tables(),
        }
    }

    /// Returns its locale, as the call of its name does: [`english`], [`german`] and so on.
    pub fn locale(self, alloc: Global) -> Result<Locale, Memory>
        ensures whole { IfOk result (HasContents (contents self)) }
        ensures words { IfOk result (BeginsWith (first_words self)) }
    {
        let made = locale(alloc, &self.tables())?;
        Ok(made)
    }
}

/// Returns the English locale. It has the words of CSL's own locale `en-US` (CSL 1.0.2; the file
/// `locales-en-US.xml` of Debian's `citation-style-language-locales` 0~20230122) for each term that
/// a `Term` names, also where they are empty, as those of `timestamp` are. Ordinals, both dates and
/// the place of punctuation, inside a closing quote, are those of `en-US` too.
///
/// As in `en-US`, authors have no noun: styles label the names of `author`, so that the editors
/// whom a substitute puts in their place are labelled. A label of the authors prints nothing, and
/// so does one of any other role or number that has no term there, such as `collection-number`.
pub fn english(alloc: Global) -> Result<Locale, Memory>
    ensures whole { IfOk result (HasContents english_contents) }
    ensures words { IfOk result (BeginsWith english_words) }
    ensures quote { IfOk result (λ locale. locale.punctuation_in_quote ≡ true) }
    ensures days { IfOk result (λ locale. locale.limit_day_ordinals_to_day_1 ≡ false) }
{
    Language::English.locale(alloc)
}

/// Returns the British English locale, as [`english`] does the American one: all that CSL's own
/// locale `en-GB` has. Its outer quotes are the inner ones of `en-US`. A comma or period stays
/// outside a closing quote.
pub fn british_english(alloc: Global) -> Result<Locale, Memory>
    ensures whole { IfOk result (HasContents british_english_contents) }
    ensures words { IfOk result (BeginsWith british_english_words) }
    ensures quote { IfOk result (λ locale. locale.punctuation_in_quote ≡ false) }
    ensures days { IfOk result (λ locale. locale.limit_day_ordinals_to_day_1 ≡ false) }
{
    Language::BritishEnglish.locale(alloc)
}

/// Returns the German locale, as [`english`] does the English one: the terms, ordinals, dates and
/// options of CSL's own locale `de-DE`. Where `de-DE` has English words, such as those for
/// performers, this has them too. A comma or period stays outside a closing quote.
pub fn german(alloc: Global) -> Result<Locale, Memory>
    ensures whole { IfOk result (HasContents german_contents) }
    ensures words { IfOk result (BeginsWith german_words) }
    ensures quote { IfOk result (λ locale. locale.punctuation_in_quote ≡ false) }
    ensures days { IfOk result (λ locale. locale.limit_day_ordinals_to_day_1 ≡ false) }
{
    Language::German.locale(alloc)
}

/// Returns the French locale, as [`english`] does the English one: the terms with their genders,
/// the ordinals of each gender, the dates and the options of CSL's own locale `fr-FR`. A comma or
/// period stays outside a closing quote, and only the first day of a month is written as an
/// ordinal.
pub fn french(alloc: Global) -> Result<Locale, Memory>
    ensures whole { IfOk result (HasContents french_contents) }
    ensures words { IfOk result (BeginsWith french_words) }
    ensures quote { IfOk result (λ locale. locale.punctuation_in_quote ≡ false) }
    ensures days { IfOk result (λ locale. locale.limit_day_ordinals_to_day_1 ≡ true) }
{
    Language::French.locale(alloc)
}

/// Returns the Spanish locale, as [`english`] does the English one: all that CSL's own locale
/// `es-ES` has. A comma or period stays outside a closing quote.
pub fn spanish(alloc: Global) -> Result<Locale, Memory>
    ensures whole { IfOk result (HasContents spanish_contents) }
    ensures words { IfOk result (BeginsWith spanish_words) }
    ensures quote { IfOk result (λ locale. locale.punctuation_in_quote ≡ false) }
    ensures days { IfOk result (λ locale. locale.limit_day_ordinals_to_day_1 ≡ false) }
{
    Language::Spanish.locale(alloc)
}

/// Returns the Italian locale, as [`english`] does the English one: all that CSL's own locale
/// `it-IT` has. A comma or period stays outside a closing quote.
pub fn italian(alloc: Global) -> Result<Locale, Memory>
    ensures whole { IfOk result (HasContents italian_contents) }
    ensures words { IfOk result (BeginsWith italian_words) }
    ensures quote { IfOk result (λ locale. locale.punctuation_in_quote ≡ false) }
    ensures days { IfOk result (λ locale. locale.limit_day_ordinals_to_day_1 ≡ false) }
{
    Language::Italian.locale(alloc)
}

/// Returns the Portuguese locale, as [`english`] does the English one: all that CSL's own locale
/// `pt-BR` has. A comma or period stays outside a closing quote.
pub fn brazilian_portuguese(alloc: Global) -> Result<Locale, Memory>
    ensures whole { IfOk result (HasContents brazilian_portuguese_contents) }
    ensures words { IfOk result (BeginsWith brazilian_portuguese_words) }
    ensures quote { IfOk result (λ locale. locale.punctuation_in_quote ≡ false) }
    ensures days { IfOk result (λ locale. locale.limit_day_ordinals_to_day_1 ≡ true) }
{
    Language::BrazilianPortuguese.locale(alloc)
}

/// Returns the Dutch locale, as [`english`] does the English one: all that CSL's own locale `nl-NL`
/// has. A comma or period stays outside a closing quote.
pub fn dutch(alloc: Global) -> Result<Locale, Memory>
    ensures whole { IfOk result (HasContents dutch_contents) }
    ensures words { IfOk result (BeginsWith dutch_words) }
    ensures quote { IfOk result (λ locale. locale.punctuation_in_quote ≡ false) }
    ensures days { IfOk result (λ locale. locale.limit_day_ordinals_to_day_1 ≡ false) }
{
    Language::Dutch.locale(alloc)
}

/// Returns the Polish locale, as [`english`] does the English one: all that CSL's own locale
/// `pl-PL` has. A comma or period stays outside a closing quote.
pub fn polish(alloc: Global) -> Result<Locale, Memory>
    ensures whole { IfOk result (HasContents polish_contents) }
    ensures words { IfOk result (BeginsWith polish_words) }
    ensures quote { IfOk result (λ locale. locale.punctuation_in_quote ≡ false) }
    ensures days { IfOk result (λ locale. locale.limit_day_ordinals_to_day_1 ≡ false) }
{
    Language::Polish.locale(alloc)
}

/// Returns the Japanese locale, as [`english`] does the English one: all that CSL's own locale
/// `ja-JP` has. A comma or period stays outside a closing quote.
pub fn japanese(alloc: Global) -> Result<Locale, Memory>
    ensures whole { IfOk result (HasContents japanese_contents) }
    ensures words { IfOk result (BeginsWith japanese_words) }
    ensures quote { IfOk result (λ locale. locale.punctuation_in_quote ≡ false) }
    ensures days { IfOk result (λ locale. locale.limit_day_ordinals_to_day_1 ≡ false) }
{
    Language::Japanese.locale(alloc)
}

/// Returns the Chinese locale, as [`english`] does the English one: all that CSL's own locale
/// `zh-CN` has. A comma or period stays outside a closing quote.
pub fn simplified_chinese(alloc: Global) -> Result<Locale, Memory>
    ensures whole { IfOk result (HasContents simplified_chinese_contents) }
    ensures words { IfOk result (BeginsWith simplified_chinese_words) }
    ensures quote { IfOk result (λ locale. locale.punctuation_in_quote ≡ false) }
    ensures days { IfOk result (λ locale. locale.limit_day_ordinals_to_day_1 ≡ false) }
{
    Language::SimplifiedChinese.locale(alloc)
}
