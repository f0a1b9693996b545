//! The tags of languages (CSL 1.0.2, Locale; BCP 47).
//! Definitions: specs/Tag.antt.

ghost use Rattle.std.specs.Prelude.{◌≡◌, Some, bytes_eq};
ghost use Rattle.csl_languages.specs.Tag as spec;

use crate::language::Language;

/// The languages, in the order in which a tag finds them.
static LANGUAGES: [Language; 11] = [
    Language::English,
    Language::BritishEnglish,
    Language::German,
    Language::French,
    Language::Spanish,
    Language::Italian,
    Language::BrazilianPortuguese,
    Language::Dutch,
    Language::Polish,
    Language::Japanese,
    Language::SimplifiedChinese,
];

/// A byte of a tag in a small letter, and `_` as `-`.
fn folded(byte: u8) -> u8
    ensures { result ≡ spec.folded_byte byte }
{
    if byte == b'_' {
        b'-'
    } else {
        byte.to_ascii_lowercase()
    }
}

/// Whether two texts are the same tag.
fn is_same(a: &str, b: &str) -> bool
    ensures { result ≡ bytes_eq (spec.folded a.now) (spec.folded b.now) }
{
    a.len() == b.len()
        && a.bytes()
            .zip(b.bytes())
            .all(|(x, y)| folded(x) == folded(y))
}

impl Language {
    /// Its tag, such as `en-US`: the language and the region of CSL's own locale, which a style
    /// names in `default-locale`.
    pub fn tag(self) -> &'static str
        ensures tag { result.now ≡ spec.tag self }
        ensures found { spec.of_tag result.now ≡ Some self }
    {
        match self {
            Language::English => "en-US",
            Language::BritishEnglish => "en-GB",
            Language::German => "de-DE",
            Language::French => "fr-FR",
            Language::Spanish => "es-ES",
            Language::Italian => "it-IT",
            Language::BrazilianPortuguese => "pt-BR",
            Language::Dutch => "nl-NL",
            Language::Polish => "pl-PL",
            Language::Japanese => "ja-JP",
            Language::SimplifiedChinese => "zh-CN",
        }
    }

    /// Its tag without the region, such as `en`.
    fn primary(self) -> &'static str
        ensures { result.now ≡ spec.primary self }
    {
        match self {
            Language::English => "en",
            Language::BritishEnglish => "en",
            Language::German => "de",
            Language::French => "fr",
            Language::Spanish => "es",
            Language::Italian => "it",
            Language::BrazilianPortuguese => "pt",
            Language::Dutch => "nl",
            Language::Polish => "pl",
            Language::Japanese => "ja",
            Language::SimplifiedChinese => "zh",
        }
    }

    /// Whether this text is its tag, or its tag without the region.
    fn is_named(self, text: &str) -> bool
        ensures { result ≡ spec.is_named text.now self }
    {
        is_same(text, self.tag()) || is_same(text, self.primary())
    }

    /// The language of this tag, such as `pt-BR`, `pt_br` or `PT`. Letters count in either case,
    /// and `_` as `-`. A tag without a region finds the first language here: `en` finds `en-US`.
    /// Another tag, as one of another region (`es-MX`), finds none, and neither does an empty text.
    pub fn from_tag(tag: &str) -> Option<Language>
        ensures { result ≡ spec.of_tag tag.now }
    {
        LANGUAGES
            .iter()
            .find(|language| language.is_named(tag))
            .copied()
    }
}
