//! The answers of an entry to date variables.

ghost use Rattle.std.specs.Prelude.{◌≡◌, option_map, option_and_then, option_copied};
ghost use Rattle.lit_model.specs.Date.{date_view};
ghost use Rattle.lit_model.specs.Select.{event, original, bound_select};
ghost use Rattle.csl_entry.specs.Answers.{cow_view};
ghost use Rattle.csl_entry.specs.EntryDate as spec;

use csl_elements::DateVariable;
use lit_model::select::event;
use lit_model::{Date, Entry};
use std::borrow::Cow;

/// Returns the entry's answer to a date variable (CSL 1.0.2, Date Variables). Accessed is the visit
/// date of the first address along the entry and its parents, and issued the first date along them.
/// The event date is the date of the parent at which the entry was shown, and the original date
/// that of the parent that was translated or printed again. There is no answer to any other
/// variable.
pub(crate) fn date_variable(entry: &Entry, variable: DateVariable) -> Option<Cow<'_, Date>>
    ensures { option_map (cow_view date_view) result ≡ spec.date_of entry.now variable }
{
    let date = match variable {
        DateVariable::Accessed => visit_date(entry),
        DateVariable::EventDate => event_date(entry),
        DateVariable::Issued => entry.date_any(),
        DateVariable::OriginalDate => original_date(entry),
        DateVariable::AvailableDate | DateVariable::Submitted => None,
    };
    date.map(Cow::Borrowed)
}

/// The visit date of the first address along the entry and its parents.
pub(crate) fn visit_date(entry: &Entry) -> Option<&Date>
    ensures { option_copied result ≡ spec.visit_date entry.now }
{
    entry.url_any()?.visit_date.as_ref()
}

/// The date of the event at which the work was shown.
fn event_date(entry: &Entry) -> Option<&Date>
    ensures { option_copied result ≡ option_and_then spec.date_in (bound_select event entry.now) }
{
    entry.bound_select(event())?.date()
}

/// The date of the work that was translated or printed again.
fn original_date(entry: &Entry) -> Option<&Date>
    ensures { option_copied result
        ≡ option_and_then spec.date_in (bound_select original entry.now) }
{
    entry.get_original()?.date()
}
