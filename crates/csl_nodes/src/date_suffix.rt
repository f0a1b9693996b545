//! The year suffix after the first year (CSL 1.0.2, Disambiguation: disambiguate-add-year-suffix).
//! Definitions: specs/Date.antt.

ghost use Rattle.std.specs.Prelude.{◌≡◌, string_bytes};
ghost use Rattle.csl_context.specs.Context.{Runs, GivesBy, render_input, with_first_date};
ghost use Rattle.csl_nodes.specs.Date as spec;

use crate::resolved::peek_standard;
use csl_context::{Context, RenderError};
use csl_entry::{EntryLike, SpecialForm};
use csl_style::StandardVariable;
use lit_model::{LongShortForm, Memory};

/// Whether the parts of a date lose all but the year suffix.
pub(crate) fn is_suffix_alone(form: Option<SpecialForm>) -> bool
    ensures { result ≡ spec.is_suffix_alone form }
{
    match form {
        None => false,
        Some(SpecialForm::VarOnly(_)) => false,
        Some(SpecialForm::OnlyFirstDate) => false,
        Some(SpecialForm::OnlyYearSuffix) => true,
        Some(SpecialForm::SuppressAuthor) => false,
    }
}

/// The year suffix after the first year. It is empty if the cite has none, or if the layout reaches
/// a text of it. The lookup is silent.
pub(crate) fn implicit_suffix<'s, T: EntryLike>(ctx: &Context<'s, T>) -> Result<String, Memory>
    ensures { GivesBy string_bytes result
        (spec.implicit_suffix (render_input T.answers ctx.now) ctx.now.state) }
{
    let alloc = ctx.alloc();
    let found = match peek_standard(ctx, LongShortForm::Long, StandardVariable::YearSuffix)? {
        Some(found) => found,
        None => return Ok(String::new(alloc)),
    };
    // The layout is walked only if there is a suffix.
    if !ctx.style().renders_year_suffix_implicitly(ctx.scope()) {
        return Ok(String::new(alloc));
    }
    found.as_ref().to_text(alloc)
}

/// The year suffix of a date that is rendered now: the implicit one if no date was rendered before,
/// else an empty text. From now on a date counts as rendered.
pub(crate) fn first_suffix<'s, T: EntryLike>(
    ctx: &mut Context<'s, T>,
) -> Result<String, RenderError>
    ensures value { GivesBy string_bytes result
        (spec.first_suffix (render_input T.answers ctx.old) ctx.old.state) }
    ensures after { Runs with_first_date result ctx.old ctx.new }
{
    ctx.ensure_live()?;
    if ctx.is_first_date() {
        ctx.attempt(implicit_suffix(ctx))
    } else {
        Ok(String::new(ctx.alloc()))
    }
}
