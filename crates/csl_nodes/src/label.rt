//! Labels (CSL 1.0.2, Label; Locators).

ghost use Rattle.std.specs.Prelude.{◌≡◌, option_map};
ghost use Rattle.lit_model.specs.MaybeTyped.{maybe_view};
ghost use Rattle.lit_model.specs.Page.{pages_view};
ghost use Rattle.csl_elements.specs.Names.{view_label};
ghost use Rattle.csl_entry.specs.NumberResult.{result_view};
ghost use Rattle.csl_context.specs.Context.{GivesBy, render_input};
ghost use Rattle.csl_nodes.specs.Label as spec;
ghost use Rattle.csl_nodes.specs.Text.{Appends};
ghost use Rattle.csl_nodes.specs.Usage.{info_view};

use crate::boxes::{NodeDressing, render_unquoted};
use crate::dressing::Body;
use crate::empty::push_nothing;
use crate::silent::{peek_number, peek_pages};
use crate::usage::UsageInfo;
use csl_context::{Context, RenderError};
use csl_entry::{EntryLike, NumberVariableResult, PageVariableResult, SpecialForm};
use csl_style::{
    Label, LabelPluralize, Locator, NumberOrPageVariable, NumberVariable, Term, Variable,
};
use csl_tree::ElemMeta;
use lit_model::{MaybeTyped, Memory};

/// The dry run of a label.
///
/// # Errors
/// [`Memory`]: out of memory, here or in the entry, or the context had failed already.
#[inline(never)]
pub fn label_info<'s, T: EntryLike>(
    ctx: &Context<'s, T>,
    label: &Label,
) -> Result<(bool, UsageInfo), Memory>
    ensures { GivesBy info_view result (spec.label_info (render_input T.answers ctx.now)
        ctx.now.state
        label.now.variable (view_label label.now.label)) }
{
    match label_by_special_form(ctx.special_form(), label.variable) {
        Some(prints) => Ok((prints, UsageInfo::default())),
        None => {
            let text = label_text(ctx, label)?;
            Ok((text.is_some(), UsageInfo::default()))
        }
    }
}

/// Renders a label. The lookup of its variable is silent.
#[inline(never)]
pub fn render_label<'s, T: EntryLike>(
    ctx: &mut Context<'s, T>,
    label: &Label,
) -> Result<(), RenderError>
    ensures { Appends T.answers (λ w. spec.label_output w label.now.variable
        (view_label label.now.label))
        result ctx.old ctx.new }
{
    if let Some(false) = label_by_special_form(ctx.special_form(), label.variable) {
        return push_nothing(ctx);
    }
    match ctx.attempt(label_text(ctx, label))? {
        Some(text) => {
            let around = NodeDressing {
                formatting: label.label.formatting,
                affixes: &label.label.affixes,
                display: None,
                strip_periods: label.label.strip_periods,
            };
            render_unquoted(ctx, around, ElemMeta::Label, Body::Str(text))
        }
        None => push_nothing(ctx),
    }
}

/// Whether the variable is the locator.
fn is_locator(variable: NumberOrPageVariable) -> bool
    ensures { result ≡ spec.is_locator variable }
{
    match variable {
        NumberOrPageVariable::Number(variable) => variable == NumberVariable::Locator,
        NumberOrPageVariable::Page(_) => false,
    }
}

/// Whether `only` is a number variable other than `variable`.
fn is_other_number(only: Variable, variable: NumberOrPageVariable) -> bool
    ensures { result ≡ spec.is_other_number only variable }
{
    match only {
        Variable::Standard(_) => false,
        Variable::Number(_) => only != Variable::from(variable),
        Variable::Page(_) => false,
        Variable::Name(_) => false,
        Variable::Date(_) => false,
    }
}

/// Decides that a label prints, but leaves the label of a locator undecided.
fn label_unless_locator(variable: NumberOrPageVariable) -> Option<bool>
    ensures { result ≡ spec.label_unless_locator variable }
{
    if is_locator(variable) {
        None
    } else {
        Some(true)
    }
}

/// Whether a label of the variable prints, if the special form decides it without a lookup.
fn label_by_special_form(form: Option<SpecialForm>, variable: NumberOrPageVariable) -> Option<bool>
    ensures { result ≡ spec.label_by_special_form form variable }
{
    match form {
        None => None,
        Some(SpecialForm::VarOnly(only)) => {
            if is_other_number(only, variable) {
                Some(false)
            } else {
                label_unless_locator(variable)
            }
        }
        Some(SpecialForm::OnlyFirstDate) => label_unless_locator(variable),
        Some(SpecialForm::OnlyYearSuffix) => label_unless_locator(variable),
        Some(SpecialForm::SuppressAuthor) => None,
    }
}

/// The term of a label of the variable. A locator has the term of its kind; the custom kind has
/// none.
fn label_term<T>(ctx: &Context<'_, T>, variable: NumberOrPageVariable) -> Option<Term>
    ensures { result ≡ spec.label_term ctx.now.cite variable }
{
    if !is_locator(variable) {
        return Some(Term::from(variable));
    }
    match ctx.instance().cite_props.speculative.locator {
        Some(place) if place.0 != Locator::Custom => Some(Term::Locator(place.0)),
        _ => None,
    }
}

/// Whether the variable counts pages or volumes.
fn is_count(variable: NumberOrPageVariable) -> bool
    ensures { result ≡ spec.is_count variable }
{
    match variable {
        NumberOrPageVariable::Number(variable) => {
            variable == NumberVariable::NumberOfPages || variable == NumberVariable::NumberOfVolumes
        }
        NumberOrPageVariable::Page(_) => false,
    }
}

/// Whether a term beside the answer to a number variable is in the plural.
fn plural_number(counts: bool, found: &NumberVariableResult<'_>) -> bool
    ensures { result ≡ spec.plural_number counts (result_view found.now) }
{
    match found {
        NumberVariableResult::Regular(MaybeTyped::Typed(number)) => {
            number.as_ref().is_plural(counts)
        }
        NumberVariableResult::Regular(MaybeTyped::String(_)) => false,
        NumberVariableResult::Transparent(_) => false,
    }
}

/// Whether a label is in the plural beside a number.
fn is_plural_beside_number(label: &Label, found: &NumberVariableResult<'_>) -> bool
    ensures { result ≡ spec.plural_by label.now.label.plural (spec.is_count label.now.variable)
        (result_view found.now) }
{
    match label.label.plural {
        LabelPluralize::Contextual => plural_number(is_count(label.variable), found),
        LabelPluralize::Always => true,
        LabelPluralize::Never => false,
    }
}

/// Whether a label is in the plural beside pages: if the pages are, whatever the label sets.
fn is_plural_beside_pages(found: &PageVariableResult) -> bool
    ensures { result ≡ spec.plural_page (maybe_view pages_view found.now) }
{
    match found {
        MaybeTyped::Typed(pages) => pages.is_plural(),
        MaybeTyped::String(_) => false,
    }
}

/// The term of a label, in the singular or the plural, if it is found.
fn term_text<'s, T: EntryLike>(ctx: &Context<'s, T>, label: &Label, plural: bool) -> Option<&'s str>
    ensures { option_map (λ t. t.now) result ≡ spec.term_if (render_input T.answers ctx.now)
        (view_label label.now.label) (spec.label_term ctx.now.cite label.now.variable) plural }
{
    match label_term(ctx, label.variable) {
        Some(term) => ctx.term(term, label.label.form, plural),
        None => None,
    }
}

/// The text of a label, if its variable and its term are found. The lookup is silent.
fn label_text<'s, T: EntryLike>(
    ctx: &Context<'s, T>,
    label: &Label,
) -> Result<Option<&'s str>, Memory>
    ensures { GivesBy (option_map (λ t. t.now)) result (spec.label_text (render_input T.answers
        ctx.now)
        ctx.now.state label.now.variable (view_label label.now.label)) }
{
    match label.variable {
        NumberOrPageVariable::Number(variable) => match peek_number(ctx, variable)? {
            Some(found) => Ok(term_text(ctx, label, is_plural_beside_number(label, &found))),
            None => Ok(None),
        },
        NumberOrPageVariable::Page(variable) => match peek_pages(ctx, variable)? {
            Some(found) => Ok(term_text(ctx, label, is_plural_beside_pages(found.as_ref()))),
            None => Ok(None),
        },
    }
}
