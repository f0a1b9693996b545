//! Texts that call no macro: of a variable, a term and a value (CSL 1.0.2, Text; Terms; Appendix
//! VI: Links).

ghost use Rattle.std.specs.Prelude.{◌≡◌, ◌++◌, if◌then◌else◌, Some, string_bytes, IfOk};
ghost use Rattle.lit_model.specs.Text.{chunks};
ghost use Rattle.lit_model.specs.Chunks.{chunks_text};
ghost use Rattle.csl_elements.specs.Node.{of_variable, of_term, of_value};
ghost use Rattle.csl_elements.specs.View.{text_dressing};
ghost use Rattle.csl_tree.specs.Tokens.{meta_of};
ghost use Rattle.csl_context.specs.Context.{Runs, Gives, GivesBy, render_input};
ghost use Rattle.csl_nodes.specs.Text as spec;
ghost use Rattle.csl_nodes.specs.Usage.{info_view};

use crate::charges::charge_answer;
use crate::dressing::{Body, render_body};
use crate::empty::push_nothing;
use crate::links::{address, address_prefix, begins_link};
use crate::number_or_page::text_node_text;
use crate::resolved::{
    ResolvedText, answer_info, peek_prints, resolve_text, resolved_info, resolved_term,
    resolved_value,
};
use crate::usage::UsageInfo;
use csl_context::{Context, RenderError};
use csl_entry::EntryLike;
use csl_style::{
    Affixes, NumberOrPageVariable, NumberVariable, StandardVariable, Term, TermForm, Text, Variable,
};
use csl_tree::ElemMeta;
use lit_model::{ChunkedString, LongShortForm, Memory};
use std::alloc::Global;

/// Whether a text calls the variable even if it resolves to nothing.
fn calls_variable(variable: Variable) -> bool
    ensures { result ≡ spec.calls_variable variable }
{
    match variable {
        Variable::Standard(variable) => variable != StandardVariable::YearSuffix,
        Variable::Number(_) => true,
        Variable::Page(_) => true,
        Variable::Name(_) => true,
        Variable::Date(_) => true,
    }
}

/// The dry run of a text of a variable.
///
/// # Errors
/// [`Memory`]: out of memory, here or in the entry, or the context had failed already.
#[inline(never)]
#[tactic(auto, using(crate::proofs::AnswerInfos::answer_info_is))]
pub fn variable_info<'s, T: EntryLike>(
    ctx: &Context<'s, T>,
    form: LongShortForm,
    variable: Variable,
) -> Result<(bool, UsageInfo), Memory>
    ensures { GivesBy info_view result (spec.target_info (render_input T.answers ctx.now)
        ctx.now.state
        (of_variable variable form)) }
{
    let found = peek_prints(ctx, form, variable)?;
    Ok(answer_info(calls_variable(variable), found))
}

/// Whether a text of `variable` shows the variable `asked`.
///
/// # Errors
/// As [`variable_info`].
#[tactic(auto, using(crate::proofs::AnswerInfos::is_found))]
pub fn variable_shows<'s, T: EntryLike>(
    ctx: &Context<'s, T>,
    form: LongShortForm,
    variable: Variable,
    asked: Variable,
) -> Result<bool, Memory>
    ensures { Gives result
        (spec.target_shows (render_input T.answers ctx.now)
        ctx.now.state asked (of_variable variable form)) }
{
    let found = peek_prints(ctx, form, variable)?;
    Ok(found.is_some() && variable == asked)
}

/// The dry run of a text of a term.
pub fn term_info<'s, T: EntryLike>(
    ctx: &Context<'s, T>,
    term: Term,
    form: TermForm,
    plural: bool,
) -> (bool, UsageInfo)
    ensures { info_view result ≡ spec.target_info (render_input T.answers ctx.now) ctx.now.state
        (of_term term form plural) }
{
    resolved_info(false, &resolved_term(ctx, term, form, plural))
}

/// The dry run of a text of a value.
pub fn value_info<'s, T: EntryLike>(ctx: &Context<'s, T>, value: &str) -> (bool, UsageInfo)
    ensures { info_view result ≡ spec.target_info (render_input T.answers ctx.now) ctx.now.state
        (of_value value.now) }
{
    resolved_info(false, &resolved_value(ctx, value))
}

/// Renders a text of a variable. The lookup is for printing.
#[inline(never)]
pub fn render_variable<'s, T: EntryLike>(
    ctx: &mut Context<'s, T>,
    text: &Text,
    form: LongShortForm,
    variable: Variable,
) -> Result<(), RenderError>
    ensures { spec.Appends T.answers (λ w. spec.text_output w
        (of_variable variable form) (text_dressing text.now)) result ctx.old ctx.new }
{
    match resolve_text(ctx, form, variable)? {
        Some(found) => render_found(ctx, text, &found),
        None => push_nothing(ctx),
    }
}

/// Renders a text of a term.
#[inline(never)]
pub fn render_term<'s, T: EntryLike>(
    ctx: &mut Context<'s, T>,
    text: &Text,
    term: Term,
    form: TermForm,
    plural: bool,
) -> Result<(), RenderError>
    ensures { spec.Appends T.answers (λ w. spec.text_output w
        (of_term term form plural) (text_dressing text.now)) result ctx.old ctx.new }
{
    match resolved_term(ctx, term, form, plural) {
        Some(found) => render_found(ctx, text, &found),
        None => push_nothing(ctx),
    }
}

/// Renders a text of a value.
///
/// # Errors
/// As [`render_term`].
#[inline(never)]
pub fn render_value<'s, T: EntryLike>(
    ctx: &mut Context<'s, T>,
    text: &Text,
    value: &str,
) -> Result<(), RenderError>
    ensures { spec.Appends T.answers (λ w. spec.text_output w (of_value value.now) (text_dressing
        text.now))
        result ctx.old ctx.new }
{
    match resolved_value(ctx, value) {
        Some(found) => render_found(ctx, text, &found),
        None => push_nothing(ctx),
    }
}

/// The meta of the box of a text of a standard variable.
fn standard_meta(variable: StandardVariable) -> ElemMeta
    ensures { meta_of result ≡ spec.standard_meta variable }
{
    if variable == StandardVariable::CitationLabel {
        ElemMeta::CitationLabel
    } else {
        ElemMeta::Text
    }
}

/// The meta of the box of a text of a number or page variable.
fn numeral_meta(variable: NumberOrPageVariable) -> ElemMeta
    ensures { meta_of result ≡ spec.numeral_meta variable }
{
    match variable {
        NumberOrPageVariable::Number(variable) => {
            if variable == NumberVariable::CitationNumber {
                ElemMeta::CitationNumber
            } else {
                ElemMeta::Text
            }
        }
        NumberOrPageVariable::Page(_) => ElemMeta::Text,
    }
}

/// The address and the text of a link. The address is the prefix, then the answer. The text is the
/// address if `begins`, else the answer.
fn linked(
    alloc: Global,
    prefix: &str,
    found: &ChunkedString,
    begins: bool,
) -> Result<(String, String), Memory>
    ensures url { IfOk result (λ link. string_bytes link.0
        ≡ prefix.now ++ chunks_text (chunks found.now)) }
    ensures text { IfOk result (λ link. string_bytes link.1 ≡ (if begins
        then prefix.now ++ chunks_text (chunks found.now) else chunks_text (chunks found.now))) }
{
    let url = address(alloc, prefix, found)?;
    let text = if begins {
        address(alloc, prefix, found)?
    } else {
        found.to_text(alloc)?
    };
    Ok((url, text))
}

/// Renders a text of a standard variable by its answer: a link if the variable has an address, else
/// the chunks of the answer.
fn render_answer<'s, T: EntryLike>(
    ctx: &mut Context<'s, T>,
    text: &Text,
    variable: StandardVariable,
    found: &ChunkedString,
) -> Result<(), RenderError>
    ensures { Runs (λ now. spec.with_output (spec.render_output (spec.text_box now.style
        (spec.resolved_affixes
        (text_dressing text.now) (spec.standard_text variable (chunks found.now)))
        (text_dressing text.now)
        (spec.resolved_meta (spec.standard_text variable (chunks found.now))) now.inherited
        (spec.resolved_body now.style
        (text_dressing text.now) (spec.in_body (text_dressing text.now) now.inherited)
        (spec.standard_text variable (chunks found.now)))) now.state) now) result ctx.old ctx.new }
{
    let bare = Affixes::default();
    let begins = begins_link(text, variable);
    let affixes = if begins { &bare } else { &text.affixes };
    let meta = Some(standard_meta(variable));
    let Some(prefix) = address_prefix(variable) else {
        return render_body(ctx, text, affixes, meta, Body::Chunks(found));
    };
    let (url, shown) = ctx.attempt(linked(ctx.alloc(), prefix, found, begins))?;
    let body = Body::Link {
        text: shown.as_str(),
        url: url.as_str(),
    };
    render_body(ctx, text, affixes, meta, body)
}

/// Renders a resolved text.
pub(crate) fn render_found<'s, T: EntryLike>(
    ctx: &mut Context<'s, T>,
    text: &Text,
    found: &ResolvedText<'_>,
) -> Result<(), RenderError>
    ensures { Runs (λ now. spec.with_output (spec.render_output (spec.resolved_content (render_input
        T.answers now)
        (text_dressing text.now) now.inherited (Some (spec.resolved_view found.now))) now.state)
        now)
        result ctx.old ctx.new }
{
    match found {
        ResolvedText::StandardText(variable, answer) => render_answer(
            ctx,
            text,
            *variable,
            answer.as_ref(),
        ),
        ResolvedText::NumberResult(variable, answer) => {
            charge_answer(ctx, answer)?;
            let meta = Some(numeral_meta(*variable));
            let shown = ctx.attempt(text_node_text(ctx, answer))?;
            render_body(ctx, text, &text.affixes, meta, Body::Number(&shown))
        }
        ResolvedText::Term(words) => render_body(ctx, text, &text.affixes, None, Body::Str(words)),
        ResolvedText::Value(words) => render_body(ctx, text, &text.affixes, None, Body::Str(words)),
    }
}
