//! Lookups in the style and the citation of a context (CSL 1.0.2, Terms, Ordinals, Localized Date
//! Formats; Choose: disambiguate).
//! Definitions: specs/RenderInput.antt.

ghost use Rattle.std.specs.Prelude.{◌≡◌, map, option_map};
ghost use Rattle.csl_elements.specs.Lookup.{date_in_form};
ghost use Rattle.csl_elements.specs.Locale.{ordinals_of};
ghost use Rattle.csl_elements.specs.Ordinals.{ordinals, long_ordinals};
ghost use Rattle.csl_context.specs.RenderInput as spec;

use crate::context::Context;
use csl_entry::DisambiguateState;
use csl_style::{Date, DateForm, LocaleOrdinals, Term, TermForm};
use lit_model::GrammarGender;

impl<'s, T> Context<'s, T> {
    /// The text of a term in the given form, or else in a form that it falls back to.
    pub fn term(&self, term: Term, form: TermForm, plural: bool) -> Option<&'s str>
        ensures { option_map (λ text. text.now) result
            ≡ spec.term_in self.now.style term form plural }
    {
        self.style.term(term, form, plural)
    }

    /// The gender of a term, if it has one.
    pub fn gender(&self, term: Term) -> Option<GrammarGender>
        ensures { result ≡ spec.gender_in self.now.style term }
    {
        self.style.gender(term)
    }

    /// The ordinals of the style.
    pub fn ordinal_lookup(&self) -> LocaleOrdinals<'s>
        ensures suffixes { ordinals (map ordinals_of result.locales.now)
            ≡ ordinals (map ordinals_of self.now.style.locales) }
        ensures words { long_ordinals (map ordinals_of result.locales.now)
            ≡ long_ordinals (map ordinals_of self.now.style.locales) }
    {
        self.style.ordinals()
    }

    /// The first localized date in the given form.
    pub fn localized_date(&self, form: DateForm) -> Option<&'s Date>
        ensures { option_map (λ date. date.now) result ≡ date_in_form self.now.style.locales form }
    {
        self.style.localized_date(form)
    }

    /// Whether the condition `disambiguate` of branches is true.
    pub fn should_disambiguate(&self) -> bool
        ensures { result ≡ spec.should_disambiguate self.now.cite.disambiguation }
    {
        match &self.instance.cite_props.speculative.disambiguation {
            DisambiguateState::Choose => true,
            DisambiguateState::None => false,
            DisambiguateState::NameDisambiguation(_) => false,
            DisambiguateState::YearSuffix(_) => false,
        }
    }
}
