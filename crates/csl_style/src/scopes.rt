//! The settings of a scope, and the options of a style's first locale.

ghost use Rattle.std.specs.Prelude.{◌≡◌};
ghost use Rattle.csl_elements.specs.NamesOptions.{inherited_options};
ghost use Rattle.csl_style.specs.Scopes as spec;

use crate::style::{Scope, Style};
use csl_elements::InheritedNameOptions;

impl Style {
    /// The options that each names node of the scope inherits (CSL 1.0.2, Inheritable Name
    /// Options): each one that the scope sets, else that of the whole style.
    pub fn base_name_options(&self, scope: Scope) -> InheritedNameOptions<'_>
        ensures { inherited_options result ≡ spec.base_options scope self.now.settings }
    {
        let settings = self.settings();
        let own = match scope {
            Scope::Citation => &settings.citation_names,
            Scope::Bibliography => &settings.bibliography_names,
        };
        own.apply(settings.names.as_inherited())
    }

    /// Whether a comma or period after a closing quote goes before it. The first locale decides.
    /// Without a locale it does not.
    pub fn is_punctuation_in_quote(&self) -> bool
        ensures { result ≡ spec.is_punctuation_in_quote self.now.locales }
    {
        match self.locales().first() {
            Some(locale) => locale.punctuation_in_quote,
            None => false,
        }
    }

    /// Whether only the first day of a month is written as an ordinal. The first locale decides.
    /// Without a locale there is no such limit.
    pub fn are_day_ordinals_limited(&self) -> bool
        ensures { result ≡ spec.are_day_ordinals_limited self.now.locales }
    {
        match self.locales().first() {
            Some(locale) => locale.limit_day_ordinals_to_day_1,
            None => false,
        }
    }
}
