//! Texts and gaps, written from the left.

ghost use Rattle.std.specs.Prelude.{◌≡◌, ◌∷◌, [], option_map};
ghost use Rattle.csl_elements.specs.NamesParts as spec;
ghost use Rattle.csl_context.specs.Context.{Runs};
ghost use Rattle.csl_names.specs.Piece.{word, gap, with_pieces, optional_word, spaced_word};

use csl_context::{Context, RenderError};
use csl_style::Formatting;

/// The formatting that sets nothing.
pub(crate) fn no_formatting() -> Formatting
    ensures { result ≡ spec.no_formatting }
{
    Formatting::default()
}

/// Writes a text in a formatting over the inherited one.
pub(crate) fn push_word<T>(
    ctx: &mut Context<'_, T>,
    text: &str,
    format: Formatting,
) -> Result<(), RenderError>
    ensures { Runs (with_pieces (word text.now format ∷ [])) result ctx.old ctx.new }
{
    ctx.push_str_in(text, format)
}

/// Writes a text as [`push_word`] does, if there is one.
pub(crate) fn push_optional<T>(
    ctx: &mut Context<'_, T>,
    text: Option<&str>,
    format: Formatting,
) -> Result<(), RenderError>
    ensures { Runs (with_pieces (optional_word (option_map (λ t. t.now) text.entry) format))
        result ctx.old ctx.new }
{
    match text {
        Some(text) => push_word(ctx, text, format),
        None => ctx.ensure_live(),
    }
}

/// Writes a space, unless there is no text yet or the text ends in white space.
pub(crate) fn push_gap<T>(ctx: &mut Context<'_, T>, format: Formatting) -> Result<(), RenderError>
    ensures { Runs (with_pieces (gap format ∷ [])) result ctx.old ctx.new }
{
    ctx.ensure_space_in(format)
}

/// Writes a gap and a text, if there is a text.
pub(crate) fn push_after_gap<T>(
    ctx: &mut Context<'_, T>,
    text: Option<&str>,
    format: Formatting,
) -> Result<(), RenderError>
    ensures { Runs (with_pieces (spaced_word (option_map (λ t. t.now) text.entry) format))
        result ctx.old ctx.new }
{
    match text {
        Some(text) => {
            push_gap(ctx, format)?;
            push_word(ctx, text, format)
        }
        None => ctx.ensure_live(),
    }
}
