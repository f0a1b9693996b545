//! Silent lookups whose answers do not print, so pages are not copied (CSL 1.0.2, Appendix IV:
//! Variables).
//! Definitions: specs/NumberOrPage.antt.

ghost use Rattle.std.specs.Prelude.{is_some, option_map};
ghost use Rattle.lit_model.specs.MaybeTyped.{maybe_view};
ghost use Rattle.lit_model.specs.Page.{pages_view};
ghost use Rattle.csl_entry.specs.Answers.{cow_view};
ghost use Rattle.csl_entry.specs.LentText.{lent_chunks};
ghost use Rattle.csl_entry.specs.NumberResult.{result_view};
ghost use Rattle.csl_context.specs.RenderInput.{peek_number, peek_page, peek_standard};
ghost use Rattle.csl_context.specs.Context.{Gives, GivesBy, render_input};
ghost use Rattle.csl_nodes.specs.NumberOrPage.{peek_number_or_page};

use csl_context::Context;
use csl_entry::{EntryLike, LentText, NumberVariableResult, PageVariableResult};
use csl_style::{NumberOrPageVariable, NumberVariable, PageVariable, StandardVariable};
use lit_model::{LongShortForm, Memory};
use std::borrow::Cow;

/// Looks up a number variable.
pub(crate) fn peek_number<'s, T: EntryLike>(
    ctx: &Context<'s, T>,
    variable: NumberVariable,
) -> Result<Option<NumberVariableResult<'s>>, Memory>
    ensures { GivesBy (option_map result_view) result
        (peek_number (render_input T.answers ctx.now) ctx.now.state variable) }
{
    match ctx.peek_number_variable(variable) {
        Ok(found) => Ok(found),
        Err(_) => Err(Memory),
    }
}

/// Looks up a standard variable. The answer is lent if the entry holds it.
pub(crate) fn peek_text<'s, T: EntryLike>(
    ctx: &Context<'s, T>,
    form: LongShortForm,
    variable: StandardVariable,
) -> Result<Option<LentText<'s>>, Memory>
    ensures { GivesBy (option_map lent_chunks) result
        (peek_standard (render_input T.answers ctx.now) ctx.now.state form variable) }
{
    match ctx.peek_text(form, variable) {
        Ok(found) => Ok(found),
        Err(_) => Err(Memory),
    }
}

/// Looks up a page variable. The answer is lent if the entry holds it.
pub(crate) fn peek_pages<'s, T: EntryLike>(
    ctx: &Context<'s, T>,
    variable: PageVariable,
) -> Result<Option<Cow<'s, PageVariableResult>>, Memory>
    ensures { GivesBy (option_map (cow_view (maybe_view pages_view))) result
        (peek_page (render_input T.answers ctx.now) ctx.now.state variable) }
{
    match ctx.peek_pages(variable) {
        Ok(found) => Ok(found),
        Err(_) => Err(Memory),
    }
}

/// Whether a variable that holds a number or pages is found.
pub(crate) fn has_number_or_page<'s, T: EntryLike>(
    ctx: &Context<'s, T>,
    variable: NumberOrPageVariable,
) -> Result<bool, Memory>
    ensures { Gives result (is_some (peek_number_or_page (render_input T.answers ctx.now)
        ctx.now.state variable)) }
{
    match variable {
        NumberOrPageVariable::Number(variable) => match peek_number(ctx, variable)? {
            Some(_) => Ok(true),
            None => Ok(false),
        },
        NumberOrPageVariable::Page(variable) => match peek_pages(ctx, variable)? {
            Some(_) => Ok(true),
            None => Ok(false),
        },
    }
}
