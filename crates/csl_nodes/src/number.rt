//! Numbers (CSL 1.0.2, Number; Sorting).

ghost use Rattle.std.specs.Prelude.{◌≡◌, true, Some, None, IfOk, option_map, string_bytes};
ghost use Rattle.lit_model.specs.Numeric.{value_view};
ghost use Rattle.lit_model.specs.NumericWrite.{integer_text, value_text};
ghost use Rattle.csl_elements.specs.View.{view_number};
ghost use Rattle.csl_tree.specs.Tokens.{meta_of};
ghost use Rattle.csl_entry.specs.NumberResult.{number_or_page_view};
ghost use Rattle.csl_context.specs.Context.{Runs, GivesBy, render_input, with_content};
ghost use Rattle.csl_nodes.specs.Number as spec;
ghost use Rattle.csl_nodes.specs.Text.{Appends};
ghost use Rattle.csl_nodes.specs.Usage.{info_view};

use crate::boxes::{NodeDressing, render_unquoted};
use crate::charges::charge_answer;
use crate::dressing::Body;
use crate::empty::push_nothing;
use crate::number_or_page::{number_node_text, resolve_number_or_page};
use crate::silent::has_number_or_page;
use crate::special_form::survives_only_forms;
use crate::usage::UsageInfo;
use csl_context::{Context, RenderError};
use csl_entry::{EntryLike, NumberOrPageVariableResult, NumberVariableResult, SpecialForm};
use csl_style::{Number, NumberOrPageVariable, NumberVariable, Term, Variable};
use csl_tree::ElemMeta;
use lit_model::{MaybeTyped, Memory, Numeric};
use std::alloc::Global;

/// The dry run of a number.
///
/// # Errors
/// [`Memory`]: out of memory, here or in the entry, or the context had failed already.
#[inline(never)]
pub fn number_info<'s, T: EntryLike>(
    ctx: &Context<'s, T>,
    number: &Number,
) -> Result<(bool, UsageInfo), Memory>
    ensures { GivesBy info_view result
        (spec.number_info (render_input T.answers ctx.now) ctx.now.state (view_number number.now)) }
{
    let own = Variable::from(number.variable);
    if !is_shown(ctx.special_form(), own, own) {
        return Ok(presence_info(false));
    }
    Ok(presence_info(has_number_or_page(ctx, number.variable)?))
}

/// Whether a number shows the variable `asked`.
pub fn number_shows<'s, T: EntryLike>(
    ctx: &Context<'s, T>,
    number: &Number,
    asked: Variable,
) -> bool
    ensures { result ≡ spec.number_shows (render_input T.answers ctx.now) asked
        (view_number number.now) }
{
    is_shown(ctx.special_form(), Variable::from(number.variable), asked)
}

/// Renders a number, with a lookup for printing if the number shows its variable.
#[inline(never)]
pub fn render_number<'s, T: EntryLike>(
    ctx: &mut Context<'s, T>,
    number: &Number,
) -> Result<(), RenderError>
    ensures { Appends T.answers (λ w. spec.number_output w (view_number number.now))
        result ctx.old ctx.new }
{
    let own = Variable::from(number.variable);
    if !is_shown(ctx.special_form(), own, own) {
        return push_nothing(ctx);
    }
    match resolve_number_or_page(ctx, number.variable)? {
        Some(found) => render_found(ctx, number, &found),
        None => push_nothing(ctx),
    }
}

/// Whether a number of the variable `own` shows the variable `asked`.
fn is_shown(form: Option<SpecialForm>, own: Variable, asked: Variable) -> bool
    ensures { result ≡ spec.is_shown form own asked }
{
    match form {
        None => own == asked,
        Some(SpecialForm::VarOnly(only)) => own == asked && only == own,
        Some(SpecialForm::OnlyFirstDate) => survives_only_forms(own),
        Some(SpecialForm::OnlyYearSuffix) => survives_only_forms(own),
        Some(SpecialForm::SuppressAuthor) => own == asked,
    }
}

/// The dry run of a number or a date, by whether its variable is found.
pub(crate) fn presence_info(found: bool) -> (bool, UsageInfo)
    ensures { info_view result ≡ spec.presence_info found }
{
    (found, UsageInfo::of_variable(true, found))
}

/// The sort text of a number.
fn key_of(alloc: Global, number: &Numeric) -> Result<String, Memory>
    ensures { IfOk result (λ s. string_bytes s
        ≡ value_text (integer_text true) (value_view number.now.value)) }
{
    let mut key = String::new(alloc);
    match number.fmt_value(&mut key, true) {
        Ok(()) => Ok(key),
        Err(_) => Err(Memory),
    }
}

/// The sort text of an answer, if the cite is rendered for sorting and the answer is a number or
/// pages.
fn optional_sort_text<T>(
    ctx: &Context<'_, T>,
    found: &NumberOrPageVariableResult<'_>,
) -> Result<Option<String>, Memory>
    ensures { IfOk result (λ key. option_map string_bytes key
        ≡ spec.optional_sort_text ctx.now.sorting (number_or_page_view found.now)) }
{
    if ctx.sorting().is_none() {
        return Ok(None);
    }
    match found {
        NumberOrPageVariableResult::Number(
            NumberVariableResult::Regular(MaybeTyped::Typed(number)),
        ) => {
            let key = key_of(ctx.alloc(), number.as_ref())?;
            Ok(Some(key))
        }
        NumberOrPageVariableResult::Number(NumberVariableResult::Regular(MaybeTyped::String(_))) =>
            Ok(None),
        NumberOrPageVariableResult::Number(NumberVariableResult::Transparent(_)) => Ok(None),
        NumberOrPageVariableResult::Page(MaybeTyped::Typed(pages)) => {
            let key = pages.to_string(ctx.alloc())?;
            Ok(Some(key))
        }
        NumberOrPageVariableResult::Page(MaybeTyped::String(_)) => Ok(None),
    }
}

/// The meta of the box of a number of the variable.
fn number_meta(variable: NumberOrPageVariable) -> ElemMeta
    ensures { meta_of result ≡ spec.number_meta variable }
{
    match variable {
        NumberOrPageVariable::Number(variable) => {
            if variable == NumberVariable::CitationNumber {
                ElemMeta::CitationNumber
            } else {
                ElemMeta::Number
            }
        }
        NumberOrPageVariable::Page(_) => ElemMeta::Number,
    }
}

/// Appends the box of a number around its answer.
fn render_box<'s, T: EntryLike>(
    ctx: &mut Context<'s, T>,
    number: &Number,
    found: &NumberOrPageVariableResult<'_>,
) -> Result<(), RenderError>
    ensures { Runs (λ now. with_content (spec.number_content (render_input T.answers now)
        (view_number number.now) (number_or_page_view found.now) None) now) result ctx.old ctx.new }
{
    let gender = ctx.gender(Term::from(number.variable));
    let around = NodeDressing {
        formatting: number.formatting,
        affixes: &number.affixes,
        display: number.display,
        strip_periods: false,
    };
    let shown = ctx.attempt(number_node_text(ctx, number.form, gender, found))?;
    render_unquoted(
        ctx,
        around,
        number_meta(number.variable),
        Body::Number(&shown),
    )
}

/// Renders a number by its answer: its sort text if there is one, else its box.
fn render_found<'s, T: EntryLike>(
    ctx: &mut Context<'s, T>,
    number: &Number,
    found: &NumberOrPageVariableResult<'_>,
) -> Result<(), RenderError>
    ensures { Runs (λ now. with_content (spec.optional_number_content (render_input T.answers now)
        (view_number
        number.now) (Some (number_or_page_view found.now))) now) result ctx.old ctx.new }
{
    charge_answer(ctx, found)?;
    match ctx.attempt(optional_sort_text(ctx, found))? {
        Some(key) => ctx.push_str(key.as_str()),
        None => render_box(ctx, number, found),
    }
}
