//! The places of terms, so that a look-up of a term goes through no locale (CSL 1.0.2, Terms).

ghost use Rattle.std.specs.Prelude.{◌≡◌, IfOk, map, option_map};
ghost use Rattle.std.specs.HashMap.{get};
ghost use Rattle.csl_elements.specs.Locale.{term_view, terms_of};
ghost use Rattle.csl_elements.specs.Term as spec;
ghost use Rattle.csl_style.specs.TermPlaces.{AreFirstEntries, AreGenders, ArePlacesOfTerms};

use csl_common::GrammarGender;
use csl_elements::{Locale, Term, TermEntry, TermForm, lookup};
use std::alloc::{AllocError, Global};
use std::collections::HashMap;

/// The place of an entry in the locales of a style.
#[derive(Clone, Copy)]
pub(crate) struct TermPlace {
    /// The index of its locale.
    locale: usize,
    /// Its index among the terms of that locale.
    row: usize,
}

/// What the locales of a style have of each term.
#[derive(Drop)]
pub(crate) struct TermPlaces {
    /// The place of the first entry of each term in each form.
    entries: HashMap<(Term, TermForm), TermPlace>,
    /// The gender of each term that has one.
    genders: HashMap<Term, GrammarGender>,
}

/// The place of the first entry of each term in each form. It goes from the last entry to the
/// first, so the first is the one that stays.
fn first_entries(
    alloc: Global,
    locales: &[Locale],
) -> Result<HashMap<(Term, TermForm), TermPlace>, AllocError>
    ensures { IfOk result (λ entries. AreFirstEntries entries locales.now) }
{
    let mut entries = HashMap::new(alloc);
    for i in (0..locales.len()).rev() {
        let terms = &locales[i].terms;
        for row in (0..terms.len()).rev() {
            let entry = &terms[row];
            entries.insert((entry.term, entry.form), TermPlace { locale: i, row })?;
        }
    }
    Ok(entries)
}

/// The gender of each term: that of its first long entry that has one.
fn first_genders(
    alloc: Global,
    locales: &[Locale],
) -> Result<HashMap<Term, GrammarGender>, AllocError>
    ensures { IfOk result (λ genders. AreGenders genders locales.now) }
{
    let mut genders = HashMap::new(alloc);
    for i in (0..locales.len()).rev() {
        let terms = &locales[i].terms;
        for row in (0..terms.len()).rev() {
            let entry = &terms[row];
            if entry.form == TermForm::Long {
                if let Some(gender) = entry.gender {
                    genders.insert(entry.term, gender)?;
                }
            }
        }
    }
    Ok(genders)
}

impl TermPlaces {
    /// The places of the terms of these locales.
    pub(crate) fn new(alloc: Global, locales: &[Locale]) -> Result<TermPlaces, AllocError>
        ensures { IfOk result (λ places. ArePlacesOfTerms places locales.now) }
    {
        let entries = first_entries(alloc, locales)?;
        let genders = first_genders(alloc, locales)?;
        Ok(TermPlaces { entries, genders })
    }

    /// The first entry of a term in one form, over the locales in order.
    fn in_form<'s>(
        &self,
        locales: &'s [Locale],
        term: Term,
        form: TermForm,
    ) -> Option<&'s TermEntry>
        requires { ArePlacesOfTerms self.now locales.now }
        ensures { option_map (λ entry. term_view entry.now) result
            ≡ spec.in_form (map terms_of locales.now) term form }
    {
        let place = self.entries.get(&(term, form))?;
        Some(&locales[place.locale].terms[place.row])
    }

    /// The first entry of a term in a form, else in the first fallback form in which a locale has
    /// it.
    pub(crate) fn found_term<'s>(
        &self,
        locales: &'s [Locale],
        term: Term,
        form: TermForm,
    ) -> Option<&'s TermEntry>
        requires { ArePlacesOfTerms self.now locales.now }
        ensures { option_map (λ entry. term_view entry.now) result
            ≡ spec.found_term (map terms_of locales.now) term form }
    {
        for form in lookup::forms_for(form) {
            if let Some(entry) = self.in_form(locales, term, *form) {
                return Some(entry);
            }
        }
        None
    }

    /// The gender of a term.
    pub(crate) fn gender(&self, term: Term) -> Option<GrammarGender>
        ensures { result ≡ get spec.same_term self.now.genders term }
    {
        self.genders.get(&term).copied()
    }
}
