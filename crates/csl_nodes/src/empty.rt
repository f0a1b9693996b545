//! A call that appends nothing.
//! Definitions: specs/Text.antt.

ghost use Rattle.std.specs.Prelude.{[]};
ghost use Rattle.csl_context.specs.Context.{Runs};
ghost use Rattle.csl_nodes.specs.Text.{render_output, with_output};

use csl_context::{Context, RenderError};
use csl_entry::EntryLike;

/// Appends nothing.
///
/// # Errors
/// [`RenderError::Failed`]: the context had failed already.
pub fn push_nothing<'s, T: EntryLike>(ctx: &mut Context<'s, T>) -> Result<(), RenderError>
    ensures { Runs (λ now. with_output (render_output [] now.state) now) result ctx.old ctx.new }
{
    ctx.ensure_live()?;
    Ok(())
}
