//! The box around the body of a node without quotes (CSL 1.0.2, Formatting, Affixes, Display,
//! Strip-periods).

ghost use Rattle.csl_elements.specs.Dressing.{dressing_of};
ghost use Rattle.csl_tree.specs.Tokens.{meta_of};
ghost use Rattle.csl_context.specs.Context.{Runs, with_content};
ghost use Rattle.csl_nodes.specs.Boxes.{body_in, in_plain, plain_box};

use crate::dressing::{Body, write_body};
use csl_context::{BodyDressing, Context, RenderError};
use csl_entry::EntryLike;
use csl_style::{Affixes, Display, Formatting};
use csl_tree::ElemMeta;

/// The attributes of a node without quotes that apply to its box and its body.
#[derive(Clone, Copy)]
pub(crate) struct NodeDressing<'b> {
    pub(crate) formatting: Formatting,
    pub(crate) affixes: &'b Affixes,
    pub(crate) display: Option<Display>,
    pub(crate) strip_periods: bool,
}

/// Appends the box of a node without quotes around its body.
pub(crate) fn render_unquoted<'s, T: EntryLike>(
    ctx: &mut Context<'s, T>,
    around: NodeDressing<'_>,
    meta: ElemMeta,
    body: Body<'_>,
) -> Result<(), RenderError>
    ensures { Runs (with_content (λ inh. plain_box (dressing_of around.entry.formatting
        around.entry.affixes.now around.entry.display) (meta_of meta) inh
        (body_in (in_plain (dressing_of around.entry.formatting around.entry.affixes.now
        around.entry.display) around.entry.strip_periods inh) body.entry))) result ctx.old ctx.new }
{
    let inside = BodyDressing {
        formatting: around.formatting,
        affixes: around.affixes,
        quotes: false,
        strip_periods: around.strip_periods,
    };
    let element = ctx.push_elem()?;
    let before = ctx.open_body(inside)?;
    write_body(ctx, body)?;
    ctx.close_body(inside, before)?;
    ctx.commit_elem(element, around.display, Some(meta))?;
    Ok(())
}
