//! Dates (CSL 1.0.2, Date; Localized Date Formats; Sorting).

ghost use Rattle.std.specs.Prelude.{◌≡◌, Some, option_map};
ghost use Rattle.lit_model.specs.Date.{date_view};
ghost use Rattle.csl_elements.specs.View.{view_date};
ghost use Rattle.csl_entry.specs.Answers.{cow_view};
ghost use Rattle.csl_context.specs.RenderInput.{peek_date};
ghost use Rattle.csl_context.specs.Context.{Runs, GivesBy, render_input, with_content};
ghost use Rattle.csl_nodes.specs.Date as spec;
ghost use Rattle.csl_nodes.specs.Text.{Appends};
ghost use Rattle.csl_nodes.specs.Usage.{info_view};

use crate::date_key::sort_key;
use crate::date_parts::{DateValue, LocalizedDate, render_parts};
use crate::date_suffix::{first_suffix, implicit_suffix};
use crate::empty::push_nothing;
use crate::number::presence_info;
use crate::usage::{UsageInfo, no_info};
use csl_context::{BodyDressing, Context, RenderError};
use csl_entry::{EntryLike, Sorting, SpecialForm, as_deref};
use csl_style::{Date, DateVariable, Variable};
use csl_tree::ElemMeta;
use lit_model::{Date as Given, Memory};
use std::borrow::Cow;

/// The dry run of a date.
///
/// # Errors
/// [`Memory`]: out of memory, here or in the entry, or the context had failed already.
#[inline(never)]
pub fn date_info<'s, T: EntryLike>(
    ctx: &Context<'s, T>,
    node: &Date,
) -> Result<(bool, UsageInfo), Memory>
    ensures { GivesBy info_view result
        (spec.date_info (render_input T.answers ctx.now) ctx.now.state (view_date node.now)) }
{
    let Some(own) = node.variable else {
        return Ok(presence_info(false));
    };
    if !date_shows_own(ctx, own) {
        return Ok(no_info());
    }
    let found = peek_date(ctx, own)?;
    Ok(presence_info(as_deref(&found).is_some()))
}

/// Whether a date shows the variable `asked`.
pub fn date_shows<'s, T: EntryLike>(ctx: &Context<'s, T>, node: &Date, asked: Variable) -> bool
    ensures { result ≡ spec.date_shows (render_input T.answers ctx.now) ctx.now.state asked
        (view_date node.now) }
{
    let first = ctx.peek_is_first_date();
    is_shown(ctx.special_form(), first, node.variable, asked)
}

/// Renders a date, with a lookup for printing if the date shows its variable.
#[inline(never)]
pub fn render_date<'s, T: EntryLike>(
    ctx: &mut Context<'s, T>,
    node: &Date,
) -> Result<(), RenderError>
    ensures { Appends T.answers (λ w. spec.date_output w (view_date node.now)) result ctx.old
        ctx.new }
{
    let Some(own) = node.variable else {
        return push_nothing(ctx);
    };
    if !date_shows_own(ctx, own) {
        return push_nothing(ctx);
    }
    let found = ctx.resolve_date_variable(own)?;
    match as_deref(&found) {
        Some(date) => render_found(ctx, node, date),
        None => push_nothing(ctx),
    }
}

/// Whether the variable is that of the date.
fn is_own(own: Option<DateVariable>, asked: Variable) -> bool
    ensures { result ≡ spec.is_own own asked }
{
    match own {
        Some(own) => Variable::Date(own) == asked,
        None => false,
    }
}

/// Whether a date of the variable `own` shows the variable `asked`. `first` means that no date was
/// rendered before.
fn is_shown(
    form: Option<SpecialForm>,
    first: bool,
    own: Option<DateVariable>,
    asked: Variable,
) -> bool
    ensures { result ≡ spec.date_shows_variable form first own asked }
{
    match form {
        None => is_own(own, asked),
        Some(SpecialForm::VarOnly(only)) => is_own(own, asked) && is_own(own, only),
        Some(SpecialForm::OnlyFirstDate) => first,
        Some(SpecialForm::OnlyYearSuffix) => first,
        Some(SpecialForm::SuppressAuthor) => is_own(own, asked),
    }
}

/// Whether a date shows its own variable.
fn date_shows_own<'s, T: EntryLike>(ctx: &Context<'s, T>, own: DateVariable) -> bool
    ensures { result ≡ spec.date_shows_own (render_input T.answers ctx.now) ctx.now.state own }
{
    let first = ctx.peek_is_first_date();
    is_shown(ctx.special_form(), first, Some(own), Variable::Date(own))
}

/// Looks up a date variable silently.
fn peek_date<'s, T: EntryLike>(
    ctx: &Context<'s, T>,
    variable: DateVariable,
) -> Result<Option<Cow<'s, Given>>, Memory>
    ensures { GivesBy (option_map (cow_view date_view)) result
        (peek_date (render_input T.answers ctx.now) ctx.now.state variable) }
{
    match ctx.peek_date_variable(variable) {
        Ok(found) => Ok(found),
        Err(_) => Err(Memory),
    }
}

/// Appends the sort key of a date.
fn render_key<'s, T: EntryLike>(
    ctx: &mut Context<'s, T>,
    node: &Date,
    sorting: Sorting,
    date: &Given,
) -> Result<(), RenderError>
    ensures { Appends T.answers (λ w. spec.date_or_key w
        (view_date node.now) (Some sorting) (date_view date.now)) result ctx.old ctx.new }
{
    let suffix = ctx.attempt(implicit_suffix(ctx))?;
    let key = ctx.attempt(sort_key(ctx.alloc(), node, sorting, suffix.as_str(), date))?;
    ctx.push_str(key.as_str())
}

/// Appends the box of a date around its parts.
fn write_box<'s, T: EntryLike>(
    ctx: &mut Context<'s, T>,
    date: LocalizedDate<'_>,
    found: DateValue<'_>,
) -> Result<(), RenderError>
    ensures { Runs (λ now. with_content (spec.date_box (render_input T.answers now)
        (spec.localized_node date.entry) found.entry.suffix.now (date_view found.entry.date.now))
        now)
        result ctx.old ctx.new }
{
    let around = BodyDressing {
        formatting: date.formatting(),
        affixes: &date.node.affixes,
        quotes: false,
        strip_periods: false,
    };
    let element = ctx.push_elem()?;
    let before = ctx.open_body(around)?;
    render_parts(ctx, date, found)?;
    ctx.close_body(around, before)?;
    ctx.commit_elem(element, date.node.display, Some(ElemMeta::Date))?;
    Ok(())
}

/// Appends the box of a date. From then on a date counts as rendered.
fn render_box<'s, T: EntryLike>(
    ctx: &mut Context<'s, T>,
    date: LocalizedDate<'_>,
    given: &Given,
) -> Result<(), RenderError>
    ensures { Appends T.answers (λ w. spec.printed_date w
        (Some (spec.localized_node date.entry)) (date_view given.now)) result ctx.old ctx.new }
{
    let suffix = first_suffix(ctx)?;
    let found = DateValue {
        date: given,
        suffix: suffix.as_str(),
    };
    write_box(ctx, date, found)
}

/// Renders a date that was found: its sort key while sorting, else its box. There is no box if the
/// style lacks the localized date of its form.
fn render_found<'s, T: EntryLike>(
    ctx: &mut Context<'s, T>,
    node: &Date,
    date: &Given,
) -> Result<(), RenderError>
    ensures { Appends T.answers (λ w. spec.resolved_date w
        (view_date node.now) (Some (date_view date.now))) result ctx.old ctx.new }
{
    if let Some(sorting) = ctx.sorting() {
        return render_key(ctx, node, sorting, date);
    }
    let Some(form) = node.form else {
        let localized = None;
        return render_box(ctx, LocalizedDate { node, localized }, date);
    };
    let localized = ctx.localized_date(form);
    match localized {
        Some(_) => render_box(ctx, LocalizedDate { node, localized }, date),
        None => push_nothing(ctx),
    }
}
