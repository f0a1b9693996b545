//! Lookups of dates in the locales of a style, in order (CSL 1.0.2, Locale), and the forms in which
//! a term is looked up (CSL 1.0.2, Terms).

ghost use Rattle.std.specs.Prelude.{◌≡◌, find, option_copied};
ghost use Rattle.csl_elements.specs.Term as spec;
ghost use Rattle.csl_elements.specs.Lookup.{is_in_form, date_in_form};

use crate::date::{Date, DateForm};
use crate::locale::Locale;
use crate::term::TermForm;

static LONG: [TermForm; 1] = [TermForm::Long];

static SHORT: [TermForm; 2] = [TermForm::Short, TermForm::Long];

static VERB: [TermForm; 2] = [TermForm::Verb, TermForm::Long];

static VERB_SHORT: [TermForm; 3] = [TermForm::VerbShort, TermForm::Verb, TermForm::Long];

static SYMBOL: [TermForm; 3] = [TermForm::Symbol, TermForm::Short, TermForm::Long];

/// The forms in which a term is looked up, in order. If no locale has the term in one form, the
/// next is tried.
pub fn forms_for(form: TermForm) -> &'static [TermForm]
    ensures { result.now ≡ spec.forms_for form }
{
    match form {
        TermForm::Long => &LONG,
        TermForm::Short => &SHORT,
        TermForm::Verb => &VERB,
        TermForm::VerbShort => &VERB_SHORT,
        TermForm::Symbol => &SYMBOL,
    }
}

impl Locale {
    /// The first localized date of a form.
    fn date(&self, form: DateForm) -> Option<&Date>
        ensures { option_copied result ≡ find (is_in_form form) self.now.dates.items }
    {
        for date in &self.dates {
            if date.form == Some(form) {
                return Some(date);
            }
        }
        None
    }
}

/// The first localized date of a form (CSL 1.0.2, Localized Date Formats).
pub fn localized_date(locales: &[Locale], form: DateForm) -> Option<&Date>
    ensures { option_copied result ≡ date_in_form locales.now form }
{
    for locale in locales {
        if let Some(date) = locale.date(form) {
            return Some(date);
        }
    }
    None
}
