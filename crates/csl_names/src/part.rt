//! The parts of a name (CSL 1.0.2, Name-part).
//! Definitions: specs/Name.antt.

ghost use Rattle.std.specs.Prelude.{option_map};
ghost use Rattle.csl_context.specs.Context.{Runs};
ghost use Rattle.csl_names.specs.Piece.{with_pieces};
ghost use Rattle.csl_names.specs.Name.{part_style_view, part_text, separated_word};

use crate::piece::{no_formatting, push_optional, push_word};
use csl_context::{Context, RenderError};
use csl_style::Formatting;

/// The formatting and the affixes of a part of a name.
#[derive(Clone, Copy)]
pub(crate) struct PartStyle<'s> {
    pub(crate) formatting: Formatting,
    pub(crate) prefix: Option<&'s str>,
    pub(crate) suffix: Option<&'s str>,
}

impl PartStyle<'_> {
    /// Writes a text as this part of a name. The suffix is outside the part's formatting.
    pub(crate) fn push_part<T>(
        &self,
        ctx: &mut Context<'_, T>,
        text: &str,
    ) -> Result<(), RenderError>
        ensures { Runs (with_pieces (part_text (part_style_view self.now) text.now))
            result ctx.old ctx.new }
    {
        push_optional(ctx, self.prefix, self.formatting)?;
        push_word(ctx, text, self.formatting)?;
        push_optional(ctx, self.suffix, no_formatting())
    }
}

/// Writes the separator and a text, if there is a text.
pub(crate) fn push_separated<T>(
    ctx: &mut Context<'_, T>,
    separator: &str,
    text: Option<&str>,
) -> Result<(), RenderError>
    ensures { Runs (with_pieces (separated_word separator.now (option_map (λ t. t.now) text.entry)))
        result ctx.old ctx.new }
{
    match text {
        Some(text) => {
            push_word(ctx, separator, no_formatting())?;
            push_word(ctx, text, no_formatting())
        }
        None => ctx.ensure_live(),
    }
}
