//! The texts that a special form of a cite shows.
//! Definitions: specs/Text.antt.

ghost use Rattle.std.specs.Prelude.{◌≡◌};
ghost use Rattle.csl_nodes.specs.Text as spec;

use csl_entry::SpecialForm;
use csl_style::{NumberVariable, StandardVariable, Variable};

/// Whether the forms for the first date and the year suffix show a text of the variable.
pub(crate) fn survives_only_forms(variable: Variable) -> bool
    ensures { result ≡ spec.survives_only_forms variable }
{
    match variable {
        Variable::Standard(variable) => variable == StandardVariable::YearSuffix,
        Variable::Number(variable) => variable == NumberVariable::Locator,
        Variable::Page(_) => false,
        Variable::Name(_) => false,
        Variable::Date(_) => false,
    }
}

/// Whether the form shows a text of the variable.
pub(crate) fn shows_variable(form: Option<SpecialForm>, variable: Variable) -> bool
    ensures { result ≡ spec.shows_variable form variable }
{
    match form {
        None => true,
        Some(SpecialForm::VarOnly(only)) => only == variable,
        Some(SpecialForm::OnlyFirstDate) => survives_only_forms(variable),
        Some(SpecialForm::OnlyYearSuffix) => survives_only_forms(variable),
        Some(SpecialForm::SuppressAuthor) => true,
    }
}

/// Whether the form shows a text of a term or of a value.
pub(crate) fn shows_terms_and_values(form: Option<SpecialForm>) -> bool
    ensures { result ≡ spec.shows_terms_and_values form }
{
    match form {
        None => true,
        Some(SpecialForm::VarOnly(_)) => false,
        Some(SpecialForm::OnlyFirstDate) => false,
        Some(SpecialForm::OnlyYearSuffix) => false,
        Some(SpecialForm::SuppressAuthor) => true,
    }
}

/// Whether the form shows the affixes of a text of a macro.
pub fn shows_macro_affixes(form: Option<SpecialForm>) -> bool
    ensures { result ≡ spec.shows_macro_affixes form }
{
    match form {
        None => true,
        Some(SpecialForm::VarOnly(_)) => false,
        Some(SpecialForm::OnlyFirstDate) => true,
        Some(SpecialForm::OnlyYearSuffix) => true,
        Some(SpecialForm::SuppressAuthor) => true,
    }
}
