//! The box, affixes and quotes around the body of a text (CSL 1.0.2, Formatting, Affixes, Display,
//! Quotes, Strip-periods).
//! Definitions: specs/Text.antt, specs/Boxes.antt.

ghost use Rattle.csl_elements.specs.Dressing.{affix_texts};
ghost use Rattle.csl_elements.specs.View.{text_dressing};
ghost use Rattle.csl_tree.specs.Tokens.{optional_meta};
ghost use Rattle.csl_context.specs.Context.{Runs, with_content};
ghost use Rattle.csl_nodes.specs.Text.{render_output, in_body, text_box, with_output};
ghost use Rattle.csl_nodes.specs.Boxes.{body_in};

use crate::number_or_page::NumberText;
use csl_context::{BodyDressing, Context, RenderError};
use csl_entry::EntryLike;
use csl_style::{Affixes, Text};
use csl_tree::ElemMeta;
use lit_model::ChunkedString;

/// The body of a number, a label or a text that calls no macro, inside affixes and any quotes.
#[derive(Clone, Copy)]
pub(crate) enum Body<'b> {
    Str(&'b str),
    Chunks(&'b ChunkedString),
    Link { text: &'b str, url: &'b str },
    Number(&'b NumberText),
}

/// Appends a body.
pub(crate) fn write_body<'s, T: EntryLike>(
    ctx: &mut Context<'s, T>,
    body: Body<'_>,
) -> Result<(), RenderError>
    ensures { Runs (with_content (λ inh. body_in inh body.entry)) result ctx.old ctx.new }
{
    match body {
        Body::Str(words) => ctx.push_str(words),
        Body::Chunks(pieces) => ctx.push_chunked(pieces),
        Body::Link { text, url } => ctx.push_link(text, url),
        Body::Number(NumberText::Text(words)) => ctx.push_str(words.as_str()),
        Body::Number(NumberText::Transparent(index)) => ctx.push_transparent(*index),
    }
}

/// Appends the box of a text around its body.
pub(crate) fn render_body<'s, T: EntryLike>(
    ctx: &mut Context<'s, T>,
    text: &Text,
    affixes: &Affixes,
    meta: Option<ElemMeta>,
    body: Body<'_>,
) -> Result<(), RenderError>
    ensures { Runs (λ now. with_output (render_output (text_box now.style
        (affix_texts affixes.now) (text_dressing text.now) (optional_meta meta) now.inherited
        (body_in (in_body (text_dressing text.now) now.inherited) body.entry)) now.state) now)
        result ctx.old ctx.new }
{
    let around = BodyDressing {
        formatting: text.formatting,
        affixes,
        quotes: text.quotes,
        strip_periods: text.strip_periods,
    };
    let element = ctx.push_elem()?;
    let before = ctx.open_body(around)?;
    write_body(ctx, body)?;
    ctx.close_body(around, before)?;
    ctx.commit_elem(element, text.display, meta)?;
    Ok(())
}
