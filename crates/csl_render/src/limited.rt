//! Renders a cite by a layout, within what a request may still write.
//! Definitions: specs/Cites.antt.

ghost use Rattle.std.specs.Prelude.{◌≡◌, IfOk, IfErr};
ghost use Rattle.csl_entry.specs.Cite.{cite_state};
ghost use Rattle.csl_render.specs.Cites.{new_cite};
ghost use Rattle.csl_render.specs.Pair.{output_of};

use crate::render::RenderCsl;
use csl_context::{Context, RenderError, Rendered};
use csl_entry::{EntryLike, InstanceContext};
use csl_style::{Layout, Scope, Style};
use std::alloc::Global;

/// Renders a cite by a layout, in a new context that may write `room` bytes ([`Context::limit`]).
/// Afterwards `room` is what is left of them, and 0 if they did not suffice.
///
/// # Errors
/// [`RenderError::Memory`]: `room` did not suffice, or out of memory, here or in the entry.
#[tactic(auto, using(crate::proofs::Pairs::rendering_wants_memory, crate::proofs::Pairs::end_wants_memory))]
pub fn render_within<'s, T: EntryLike>(
    alloc: Global,
    style: &'s Style,
    layout: &'s Layout,
    instance: InstanceContext<'s, T>,
    scope: Scope,
    room: &mut u64,
) -> Result<Rendered, RenderError>
    ensures ok { IfOk result (λ r. output_of r ≡ new_cite style.now scope
        (cite_state instance.entry.cite_props.now) instance.entry.sorting instance.entry.kind
        (T.answers instance.entry.entry.now) layout.now) }
    ensures err { IfErr result (λ e. e ≡ RenderError.Memory) }
{
    let mut ctx = Context::new(alloc, style, instance, scope)?;
    ctx.limit(*room);
    let rendered = layout.render(&mut ctx);
    *room = ctx.room();
    rendered?;
    ctx.finish()
}
