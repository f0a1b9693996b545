//! The single tests of a branch (CSL 1.0.2, Choose). Their lookups are silent.

ghost use Rattle.std.specs.Prelude.{◌≡◌, false, IfOk, OnOk, IfErr};
ghost use Rattle.lit_model.specs.MaybeTyped.{maybe_view};
ghost use Rattle.lit_model.specs.Page.{pages_view};
ghost use Rattle.lit_model.specs.Text.{chunks};
ghost use Rattle.csl_context.specs.Context.{FailsSilently, render_input};
ghost use Rattle.csl_nodes.specs.Condition as spec;

use csl_context::{Context, RenderError};
use csl_entry::{EntryLike, IbidState, NumberVariableResult, PageVariableResult, as_deref};
use csl_style::{DateVariable, Kind, Locator, Scope, TestPosition, Variable};
use lit_model::{ChunkedString, LongShortForm, MaybeTyped, Memory, Numeric};
use std::alloc::Global;

/// Whether a text spells a number.
fn is_number(alloc: Global, text: &ChunkedString) -> Result<bool, Memory>
    ensures { IfOk result (λ holds. holds ≡ spec.is_number (chunks text.now)) }
{
    let text = text.to_text(alloc)?;
    Ok(Numeric::is_spelled_by(text.as_str()))
}

/// Whether an answer to the page variable is pages and not a text.
fn is_typed(pages: &PageVariableResult) -> bool
    ensures { result ≡ spec.is_typed (maybe_view pages_view pages.now) }
{
    match pages {
        MaybeTyped::Typed(_) => true,
        MaybeTyped::String(_) => false,
    }
}

/// Whether the cite's answer to the variable is numeric. No name and no date is.
pub(crate) fn is_numeric<'s, T: EntryLike>(
    ctx: &Context<'s, T>,
    variable: Variable,
) -> Result<bool, RenderError>
    ensures value { IfOk result (λ holds. holds
        ≡ spec.is_numeric (render_input T.answers ctx.now) ctx.now.state variable) }
    ensures sound { OnOk result (ctx.now.failed ≡ false) }
    ensures err { IfErr result (λ e. FailsSilently e ctx.now) }
{
    match variable {
        Variable::Standard(variable) => {
            match ctx.peek_standard_variable(LongShortForm::Long, variable)? {
                Some(text) => Ok(is_number(ctx.alloc(), text.as_ref())?),
                None => Ok(false),
            }
        }
        Variable::Number(variable) => match ctx.peek_number_variable(variable)? {
            Some(NumberVariableResult::Regular(MaybeTyped::Typed(_))) => Ok(true),
            Some(NumberVariableResult::Regular(MaybeTyped::String(_))) => Ok(false),
            Some(NumberVariableResult::Transparent(_)) => Ok(false),
            None => Ok(false),
        },
        Variable::Page(variable) => match ctx.peek_pages(variable)? {
            Some(pages) => Ok(is_typed(pages.as_ref())),
            None => Ok(false),
        },
        Variable::Name(_) | Variable::Date(_) => {
            ctx.ensure_live()?;
            Ok(false)
        }
    }
}

/// Whether the cite answers the variable with an approximate date.
pub(crate) fn is_uncertain<'s, T: EntryLike>(
    ctx: &Context<'s, T>,
    variable: DateVariable,
) -> Result<bool, RenderError>
    ensures value { IfOk result (λ holds. holds
        ≡ spec.is_uncertain (render_input T.answers ctx.now) ctx.now.state variable) }
    ensures sound { OnOk result (ctx.now.failed ≡ false) }
    ensures err { IfErr result (λ e. FailsSilently e ctx.now) }
{
    let found = ctx.peek_date_variable(variable)?;
    match as_deref(&found) {
        Some(date) => Ok(date.approximate()),
        None => Ok(false),
    }
}

/// Whether the cite points to a part of that kind. A suppressed locator counts.
pub(crate) fn is_located<'s, T: EntryLike>(
    ctx: &Context<'s, T>,
    kind: Locator,
) -> Result<bool, RenderError>
    ensures value { IfOk result (λ holds. holds
        ≡ spec.is_located (render_input T.answers ctx.now) kind) }
    ensures sound { OnOk result (ctx.now.failed ≡ false) }
    ensures err { IfErr result (λ e. FailsSilently e ctx.now) }
{
    ctx.ensure_live()?;
    match ctx.instance().cite_props.speculative.locator {
        Some(locator) => Ok(locator.0 == kind),
        None => Ok(false),
    }
}

/// Whether the cite before this one is of the same entry.
fn is_ibid(state: IbidState) -> bool
    ensures { result ≡ spec.is_ibid state }
{
    match state {
        IbidState::Different => false,
        IbidState::Ibid => true,
        IbidState::IbidWithLocator => true,
    }
}

/// Whether the cite before this one is of the same entry but did not have this cite's locator.
fn is_ibid_with_locator(state: IbidState) -> bool
    ensures { result ≡ spec.is_ibid_with_locator state }
{
    match state {
        IbidState::Different => false,
        IbidState::Ibid => false,
        IbidState::IbidWithLocator => true,
    }
}

/// Whether the cite is in that position. In a bibliography it is in none.
pub(crate) fn is_positioned<'s, T: EntryLike>(
    ctx: &Context<'s, T>,
    position: TestPosition,
) -> Result<bool, RenderError>
    ensures value { IfOk result (λ holds. holds
        ≡ spec.is_positioned (render_input T.answers ctx.now) position) }
    ensures sound { OnOk result (ctx.now.failed ≡ false) }
    ensures err { IfErr result (λ e. FailsSilently e ctx.now) }
{
    ctx.ensure_live()?;
    match ctx.scope() {
        Scope::Bibliography => Ok(false),
        Scope::Citation => {
            let cite = ctx.instance().cite_props;
            match position {
                TestPosition::First => Ok(cite.certain.is_first),
                TestPosition::Subsequent => Ok(!cite.certain.is_first),
                TestPosition::Ibid => Ok(is_ibid(cite.speculative.ibid)),
                TestPosition::IbidWithLocator => Ok(is_ibid_with_locator(cite.speculative.ibid)),
                TestPosition::NearNote => Ok(cite.certain.is_near_note),
            }
        }
    }
}

/// Whether the entry is of that kind.
pub(crate) fn is_of_kind<'s, T: EntryLike>(
    ctx: &Context<'s, T>,
    kind: Kind,
) -> Result<bool, RenderError>
    ensures value { IfOk result (λ holds. holds
        ≡ spec.is_of_kind (render_input T.answers ctx.now) kind) }
    ensures sound { OnOk result (ctx.now.failed ≡ false) }
    ensures err { IfErr result (λ e. FailsSilently e ctx.now) }
{
    ctx.ensure_live()?;
    Ok(ctx.matches_entry_type(kind))
}

/// Whether the cite answers the variable. A text of white space does not count, nor does an empty
/// list of names.
pub(crate) fn is_present<'s, T: EntryLike>(
    ctx: &Context<'s, T>,
    variable: Variable,
) -> Result<bool, RenderError>
    ensures value { IfOk result (λ holds. holds
        ≡ spec.is_present (render_input T.answers ctx.now) ctx.now.state variable) }
    ensures sound { OnOk result (ctx.now.failed ≡ false) }
    ensures err { IfErr result (λ e. FailsSilently e ctx.now) }
{
    match variable {
        Variable::Standard(variable) => {
            match ctx.peek_text(LongShortForm::Long, variable)? {
                Some(text) => Ok(!text.is_white_space()),
                None => Ok(false),
            }
        }
        Variable::Number(variable) => Ok(ctx.peek_number_variable(variable)?.is_some()),
        Variable::Page(variable) => Ok(ctx.peek_pages(variable)?.is_some()),
        Variable::Name(variable) => Ok(ctx.peek_has_persons(variable)?),
        Variable::Date(variable) => {
            let found = ctx.peek_date_variable(variable)?;
            Ok(as_deref(&found).is_some())
        }
    }
}

/// Whether `wanted` equals [`Context::should_disambiguate`].
pub(crate) fn is_disambiguated<'s, T: EntryLike>(
    ctx: &Context<'s, T>,
    wanted: bool,
) -> Result<bool, RenderError>
    ensures value { IfOk result (λ holds. holds
        ≡ spec.is_disambiguated (render_input T.answers ctx.now) wanted) }
    ensures sound { OnOk result (ctx.now.failed ≡ false) }
    ensures err { IfErr result (λ e. FailsSilently e ctx.now) }
{
    ctx.ensure_live()?;
    if wanted {
        Ok(ctx.should_disambiguate())
    } else {
        Ok(!ctx.should_disambiguate())
    }
}
