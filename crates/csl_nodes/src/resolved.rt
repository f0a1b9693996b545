//! Resolves texts that call no macro (CSL 1.0.2, Text: variable, term, value). Name and date
//! variables resolve to nothing.
//! Definitions: specs/Text.antt.

ghost use Rattle.std.specs.Prelude.{◌≡◌, option_map};
ghost use Rattle.lit_model.specs.Text.{chunks};
ghost use Rattle.csl_elements.specs.Node.{of_variable, of_term, of_value};
ghost use Rattle.csl_entry.specs.Answers.{cow_view};
ghost use Rattle.csl_entry.specs.NumberResult.{number_or_page_view};
ghost use Rattle.csl_context.specs.RenderInput.{peek_standard};
ghost use Rattle.csl_context.specs.Context.{Runs, Gives, GivesBy, render_input};
ghost use Rattle.csl_nodes.specs.Text as spec;
ghost use Rattle.csl_nodes.specs.Usage.{info_view};

use crate::number_or_page::resolve_number_or_page;
use crate::silent::{peek_number, peek_pages, peek_text};
use crate::special_form::{shows_terms_and_values, shows_variable};
use crate::usage::UsageInfo;
use csl_context::{Context, RenderError};
use csl_entry::{EntryLike, NumberOrPageVariableResult};
use csl_style::{NumberOrPageVariable, StandardVariable, Term, TermForm, Variable};
use lit_model::{ChunkedString, LongShortForm, Memory};
use std::borrow::Cow;

/// A resolved text.
#[derive(Drop)]
pub(crate) enum ResolvedText<'a> {
    /// The answer to a standard variable.
    StandardText(StandardVariable, Cow<'a, ChunkedString>),
    /// The answer to a variable that holds a number or pages.
    NumberResult(NumberOrPageVariable, NumberOrPageVariableResult<'a>),
    /// The text of a term.
    Term(&'a str),
    /// The value in the style.
    Value(&'a str),
}

/// Looks up a standard variable silently.
pub(crate) fn peek_standard<'s, T: EntryLike>(
    ctx: &Context<'s, T>,
    form: LongShortForm,
    variable: StandardVariable,
) -> Result<Option<Cow<'s, ChunkedString>>, Memory>
    ensures { GivesBy (option_map (cow_view chunks)) result
        (peek_standard (render_input T.answers ctx.now) ctx.now.state form variable) }
{
    match ctx.peek_standard_variable(form, variable) {
        Ok(found) => Ok(found),
        Err(_) => Err(Memory),
    }
}

/// The resolved text for an answer to a variable that holds a number or pages.
fn resolved_number<'a>(
    variable: NumberOrPageVariable,
    answer: Option<NumberOrPageVariableResult<'a>>,
) -> Option<ResolvedText<'a>>
    ensures { option_map spec.resolved_view result
        ≡ option_map (spec.number_result variable) (option_map number_or_page_view answer.entry) }
{
    match answer {
        Some(answer) => Some(ResolvedText::NumberResult(variable, answer)),
        None => None,
    }
}

/// Whether a text of the variable prints, if it resolves to an answer, by a silent lookup.
pub(crate) fn peek_prints<'s, T: EntryLike>(
    ctx: &Context<'s, T>,
    form: LongShortForm,
    variable: Variable,
) -> Result<Option<bool>, Memory>
    ensures { Gives result (option_map spec.prints (spec.resolved_text (render_input T.answers
        ctx.now) ctx.now.state (of_variable variable form))) }
{
    if !shows_variable(ctx.special_form(), variable) {
        return Ok(None);
    }
    match variable {
        Variable::Standard(variable) => match peek_text(ctx, form, variable)? {
            Some(answer) => Ok(Some(!answer.is_empty())),
            None => Ok(None),
        },
        Variable::Number(variable) => match peek_number(ctx, variable)? {
            Some(_) => Ok(Some(true)),
            None => Ok(None),
        },
        Variable::Page(variable) => match peek_pages(ctx, variable)? {
            Some(_) => Ok(Some(true)),
            None => Ok(None),
        },
        Variable::Name(_) | Variable::Date(_) => Ok(None),
    }
}

/// Resolves a text of the variable by a lookup for printing.
pub(crate) fn resolve_text<'s, T: EntryLike>(
    ctx: &mut Context<'s, T>,
    form: LongShortForm,
    variable: Variable,
) -> Result<Option<ResolvedText<'s>>, RenderError>
    ensures value { GivesBy (option_map spec.resolved_view) result
        (spec.resolved_text (render_input T.answers ctx.old) ctx.old.state (of_variable variable
        form)) }
    ensures after { Runs (λ now. record now {
      state = spec.variable_state (render_input T.answers now) variable now.state;
    }) result ctx.old ctx.new }
{
    ctx.ensure_live()?;
    if !shows_variable(ctx.special_form(), variable) {
        return Ok(None);
    }
    match variable {
        Variable::Standard(variable) => match ctx.resolve_standard_variable(form, variable)? {
            Some(answer) => Ok(Some(ResolvedText::StandardText(variable, answer))),
            None => Ok(None),
        },
        Variable::Number(variable) => {
            let variable = NumberOrPageVariable::Number(variable);
            Ok(resolved_number(variable, resolve_number_or_page(ctx, variable)?))
        }
        Variable::Page(variable) => {
            let variable = NumberOrPageVariable::Page(variable);
            Ok(resolved_number(variable, resolve_number_or_page(ctx, variable)?))
        }
        Variable::Name(_) | Variable::Date(_) => Ok(None),
    }
}

/// Resolves a text of the term.
pub(crate) fn resolved_term<'s, T: EntryLike>(
    ctx: &Context<'s, T>,
    term: Term,
    form: TermForm,
    plural: bool,
) -> Option<ResolvedText<'s>>
    ensures { option_map spec.resolved_view result
        ≡ spec.resolved_text (render_input T.answers ctx.now) ctx.now.state (of_term term form
        plural) }
{
    if !shows_terms_and_values(ctx.special_form()) {
        return None;
    }
    match ctx.term(term, form, plural) {
        Some(words) => Some(ResolvedText::Term(words)),
        None => None,
    }
}

/// Resolves a text of the value.
pub(crate) fn resolved_value<'a, T: EntryLike>(
    ctx: &Context<'_, T>,
    value: &'a str,
) -> Option<ResolvedText<'a>>
    ensures { option_map spec.resolved_view result
        ≡ spec.resolved_text (render_input T.answers ctx.now) ctx.now.state (of_value value.now) }
{
    if shows_terms_and_values(ctx.special_form()) {
        Some(ResolvedText::Value(value))
    } else {
        None
    }
}

/// The dry run of a text of a variable, by whether it prints if it resolves to an answer. `called`
/// is whether a text that resolves to nothing calls its variable.
pub(crate) fn answer_info(called: bool, prints: Option<bool>) -> (bool, UsageInfo)
    ensures { info_view result ≡ spec.answer_info called prints }
{
    match prints {
        None => (false, UsageInfo::of_variable(called, false)),
        Some(prints) => (prints, UsageInfo::of_variable(true, prints)),
    }
}

/// The dry run of a resolved text. `called` is whether a text that resolves to nothing calls its
/// variable.
pub(crate) fn resolved_info(called: bool, found: &Option<ResolvedText<'_>>) -> (bool, UsageInfo)
    ensures { info_view result
        ≡ spec.resolved_info called (option_map spec.resolved_view found.now) }
{
    match found {
        None => (false, UsageInfo::of_variable(called, false)),
        Some(ResolvedText::StandardText(_, text)) => {
            let prints = !text.as_ref().is_empty();
            (prints, UsageInfo::of_variable(true, prints))
        }
        Some(ResolvedText::NumberResult(..)) => (true, UsageInfo::of_variable(true, true)),
        Some(ResolvedText::Term(_)) => (true, UsageInfo::default()),
        Some(ResolvedText::Value(text)) => (!text.is_empty(), UsageInfo::default()),
    }
}
