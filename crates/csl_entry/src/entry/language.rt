//! The language of an entry.

ghost use Rattle.std.specs.Prelude.{◌≡◌, string_bytes, IfOk};
ghost use Rattle.lit_model.specs.Source.{language_of};
ghost use Rattle.csl_entry.specs.Language.{language_text, english_of};

use lit_model::{Entry, LanguageIdentifier, Memory};
use std::alloc::Global;

/// Returns the text of a language (CSL 1.0.2, Standard Variables: language): the language, then `-`
/// and the region if there is one, such as `en-US`.
pub fn csl_language(alloc: Global, language: &LanguageIdentifier) -> Result<String, Memory>
    ensures { IfOk result (λ s. string_bytes s ≡ language_text (language_of language.now)) }
{
    let mut text = String::from_str(alloc, language.language.as_str())?;
    if let Some(region) = &language.region {
        text.push('-')?;
        text.push_str(region.as_str())?;
    }
    Ok(text)
}

/// Whether the entry's own language is `en`, whatever the region, or `None` if it has no language.
/// CSL has title case for English titles only (CSL 1.0.2, Title Case Conversion).
pub(crate) fn is_english(entry: &Entry) -> Option<bool>
    ensures { result ≡ english_of entry.now }
{
    match &entry.language {
        None => None,
        Some(language) => Some(language.language.as_str() == "en"),
    }
}
