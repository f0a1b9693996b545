//! Lookups of variables that hold numbers or pages, and their answers as a text or a number prints
//! them (CSL 1.0.2, Number Variables; Text: variable; Number).

ghost use Rattle.std.specs.Prelude.{◌≡◌, IfOk, option_map, string_bytes};
ghost use Rattle.lit_model.specs.Numeric.{numeric_view};
ghost use Rattle.csl_elements.specs.Taxonomy.{variable_of};
ghost use Rattle.csl_entry.specs.NumberResult.{result_view, number_or_page_view};
ghost use Rattle.csl_context.specs.RenderInput.{number_text};
ghost use Rattle.csl_context.specs.Context.{Runs, GivesBy, render_input, after_resolve};
ghost use Rattle.csl_nodes.specs.NumberOrPage as spec;

use crate::pages::{pages_in_style, with_dashes};
use csl_context::{Context, RenderError};
use csl_entry::{EntryLike, NumberOrPageVariableResult, NumberVariableResult};
use csl_style::NumberOrPageVariable;
use lit_model::{GrammarGender, MaybeTyped, Memory, NumberForm, Numeric};

/// An answer as it prints.
#[derive(Drop)]
pub(crate) enum NumberText {
    /// A text.
    Text(String),
    /// A place that the caller fills, for the cite of that index.
    Transparent(usize),
}

/// Looks up a number or page variable for printing.
pub(crate) fn resolve_number_or_page<'s, T: EntryLike>(
    ctx: &mut Context<'s, T>,
    variable: NumberOrPageVariable,
) -> Result<Option<NumberOrPageVariableResult<'s>>, RenderError>
    ensures value { GivesBy (option_map number_or_page_view) result
        (spec.peek_number_or_page (render_input T.answers ctx.old) ctx.old.state variable) }
    ensures after { Runs (after_resolve (variable_of variable)) result ctx.old ctx.new }
{
    match variable {
        NumberOrPageVariable::Number(variable) => match ctx.resolve_number_variable(variable)? {
            Some(number) => Ok(Some(NumberOrPageVariableResult::Number(number))),
            None => Ok(None),
        },
        NumberOrPageVariable::Page(variable) => match ctx.resolve_page_variable(variable)? {
            Some(pages) => Ok(Some(NumberOrPageVariableResult::Page(pages))),
            None => Ok(None),
        },
    }
}

/// A number in a form, with the ordinals of the style.
fn number_text<T>(
    ctx: &Context<'_, T>,
    number: &Numeric,
    form: NumberForm,
    gender: Option<GrammarGender>,
) -> Result<String, Memory>
    ensures { IfOk result (λ s. string_bytes s
        ≡ number_text ctx.now.style form gender (numeric_view number.now)) }
{
    let mut text = String::new(ctx.alloc());
    match number.with_form(&mut text, form, gender, &ctx.ordinal_lookup()) {
        Ok(()) => Ok(text),
        Err(_) => Err(Memory),
    }
}

/// An answer to a number variable as it prints: a number in the form, a text unchanged.
fn number_result_text<T>(
    ctx: &Context<'_, T>,
    form: NumberForm,
    gender: Option<GrammarGender>,
    found: &NumberVariableResult<'_>,
) -> Result<NumberText, Memory>
    ensures { IfOk result (λ shown. spec.number_text_view shown
        ≡ spec.number_result_text ctx.now.style form gender (result_view found.now)) }
{
    match found {
        NumberVariableResult::Regular(MaybeTyped::Typed(number)) => {
            let words = number_text(ctx, number.as_ref(), form, gender)?;
            Ok(NumberText::Text(words))
        }
        NumberVariableResult::Regular(MaybeTyped::String(words)) => {
            let words = String::from_str(ctx.alloc(), words.as_str())?;
            Ok(NumberText::Text(words))
        }
        NumberVariableResult::Transparent(index) => Ok(NumberText::Transparent(*index)),
    }
}

/// An answer as a number prints it: a number in the form, pages in the format of the style, a text
/// unchanged.
pub(crate) fn number_node_text<T>(
    ctx: &Context<'_, T>,
    form: NumberForm,
    gender: Option<GrammarGender>,
    found: &NumberOrPageVariableResult<'_>,
) -> Result<NumberText, Memory>
    ensures { IfOk result (λ shown. spec.number_text_view shown
        ≡ spec.number_node_text ctx.now.style form gender (number_or_page_view found.now)) }
{
    match found {
        NumberOrPageVariableResult::Number(number) => number_result_text(ctx, form, gender, number),
        NumberOrPageVariableResult::Page(MaybeTyped::Typed(pages)) => {
            let words = pages_in_style(ctx, pages)?;
            Ok(NumberText::Text(words))
        }
        NumberOrPageVariableResult::Page(MaybeTyped::String(words)) => {
            let words = String::from_str(ctx.alloc(), words.as_str())?;
            Ok(NumberText::Text(words))
        }
    }
}

/// An answer as a text prints it: a number in decimal, pages in the format of the style. A text in
/// place of pages has an en dash for each hyphen.
pub(crate) fn text_node_text<T>(
    ctx: &Context<'_, T>,
    found: &NumberOrPageVariableResult<'_>,
) -> Result<NumberText, Memory>
    ensures { IfOk result (λ shown. spec.number_text_view shown
        ≡ spec.text_node_text ctx.now.style (number_or_page_view found.now)) }
{
    match found {
        NumberOrPageVariableResult::Number(number) => {
            number_result_text(ctx, NumberForm::Numeric, None, number)
        }
        NumberOrPageVariableResult::Page(MaybeTyped::Typed(pages)) => {
            let words = pages_in_style(ctx, pages)?;
            Ok(NumberText::Text(words))
        }
        NumberOrPageVariableResult::Page(MaybeTyped::String(words)) => {
            let words = with_dashes(ctx.alloc(), words.as_str())?;
            Ok(NumberText::Text(words))
        }
    }
}
