//! The options of names (CSL 1.0.2, Name Options).
//! Definitions: specs/Names.antt.

ghost use Rattle.std.specs.Prelude.{IfOk};
ghost use Rattle.serde_json.specs.View.{view};
ghost use Rattle.csl_elements.specs.NamesOptions.{partial_options};
ghost use Rattle.csl_wire.specs.Names.{AreOptions};

use crate::choices::{ANDS, DELIMITER_BEHAVIORS, NAME_FORMS, SORT_ORDERS};
use crate::form::Form;
use crate::refusal::WireError;
use csl_elements::InheritableNameOptions;

/// The options of names, but form and delimiter.
pub(crate) static NAME_OPTIONS: [&str; 13] = [
    "and",
    "delimiter-precedes-et-al",
    "delimiter-precedes-last",
    "et-al-min",
    "et-al-use-first",
    "et-al-subsequent-min",
    "et-al-subsequent-use-first",
    "et-al-use-last",
    "initialize",
    "initialize-with",
    "name-as-sort-order",
    "sort-separator",
    "names-delimiter",
];

/// The options of names among the members. Form and delimiter have these names.
pub(crate) fn name_options(
    form: Form<'_>,
    of_form: &'static str,
    of_delimiter: &'static str,
) -> Result<InheritableNameOptions, WireError>
    ensures { IfOk result (λ o. AreOptions of_form.now of_delimiter.now (view form.entry.value.now)
        (partial_options o)) }
{
    Ok(InheritableNameOptions {
        and: form.choice("and", &ANDS)?,
        delimiter_precedes_et_al: form.choice("delimiter-precedes-et-al", &DELIMITER_BEHAVIORS)?,
        delimiter_precedes_last: form.choice("delimiter-precedes-last", &DELIMITER_BEHAVIORS)?,
        et_al_min: form.number("et-al-min")?,
        et_al_use_first: form.number("et-al-use-first")?,
        et_al_subsequent_min: form.number("et-al-subsequent-min")?,
        et_al_subsequent_use_first: form.number("et-al-subsequent-use-first")?,
        et_al_use_last: form.boolean("et-al-use-last")?,
        form: form.choice(of_form, &NAME_FORMS)?,
        initialize: form.boolean("initialize")?,
        name_as_sort_order: form.choice("name-as-sort-order", &SORT_ORDERS)?,
        delimiter: form.text(of_delimiter)?,
        initialize_with: form.text("initialize-with")?,
        sort_separator: form.text("sort-separator")?,
        names_delimiter: form.text("names-delimiter")?,
    })
}
