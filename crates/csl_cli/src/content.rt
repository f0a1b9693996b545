//! The content of cites in the built-in styles and in the style of titles.

ghost use Rattle.std.specs.Prelude.{◌≡◌, IfOk};
ghost use Rattle.csl_tree.specs.Tokens.{tokens};
ghost use Rattle.csl_render.specs.Cites.{cite_content};
ghost use Rattle.csl_cli.specs.Content.{IsEntryContent, IsTitleContent};

use csl_context::{RenderError, Rendered};
use csl_entry::{CiteProperties, DisambiguateState, EntryLike};
use csl_render::cite;
use csl_samples::{BuiltIn, BuiltInStyle, TitleOnly, title_style};
use csl_style::Style;
use csl_tree::ElemChildren;
use lit_model::{ChunkedString, Memory};
use std::alloc::Global;

/// Renders the first cite of an entry in a style.
fn first_cite<T: EntryLike>(
    alloc: Global,
    style: &Style,
    entry: &T,
) -> Result<Rendered, RenderError>
    ensures { IfOk result (λ made. tokens made.content ≡ cite_content style.now
        (T.answers entry.now)) }
{
    let cite_props = CiteProperties::first(DisambiguateState::None);
    let made = cite(alloc, style, entry, &cite_props)?;
    Ok(made)
}

/// The content of the first cite of an entry with only this title, in the style of titles.
pub fn title_content(alloc: Global, title: &str) -> Result<ElemChildren, Memory>
    ensures { IfOk result (λ content. IsTitleContent title.now (tokens content)) }
{
    let title = ChunkedString::plain(alloc, title)?;
    let style = title_style(alloc)?;
    let made = first_cite(alloc, &style, &TitleOnly { title: Some(title) });
    drop(style);
    match made {
        Ok(made) => Ok(made.content),
        // A cite fails only if memory runs out.
        Err(_) => Err(Memory),
    }
}

/// The content of the first cite of a built-in entry, in a built-in style.
pub fn entry_content(
    alloc: Global,
    entry: BuiltIn,
    style: BuiltInStyle,
) -> Result<ElemChildren, Memory>
    ensures { IfOk result (λ content. IsEntryContent entry style (tokens content)) }
{
    let parts = style.style(alloc)?;
    let work = entry.entry(alloc)?;
    let made = first_cite(alloc, &parts, &work);
    drop(work);
    drop(parts);
    match made {
        Ok(made) => Ok(made.content),
        // A cite fails only if memory runs out.
        Err(_) => Err(Memory),
    }
}
