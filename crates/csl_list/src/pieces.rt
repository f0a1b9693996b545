//! Contents that grow by texts, trees and cites.

ghost use Rattle.std.specs.Prelude.{◌≡◌, ◌++◌, OnOk};
ghost use Rattle.csl_tree.specs.Tokens.{child_tokens, tokens};
ghost use Rattle.csl_list.specs.Pieces as spec;

use csl_common::Memory;
use csl_tree::{Elem, ElemChild, ElemChildren, ElemMeta, Formatting};
use std::alloc::Global;

/// Adds a child after the others.
#[tactic(auto, using(crate::proofs::Contents::tokens_more))]
fn push_child(content: &mut ElemChildren, child: ElemChild) -> Result<(), Memory>
    ensures { OnOk result (tokens content.new ≡ tokens content.old ++ child_tokens child) }
{
    content.0.push(child)?;
    Ok(())
}

/// Adds a text after the others, unless it is empty.
#[tactic(auto, using(crate::proofs::Contents::text_of_none, crate::proofs::Contents::text_of_some, crate::proofs::Contents::nothing_after))]
pub(crate) fn push_text(
    alloc: Global,
    content: &mut ElemChildren,
    text: &str,
    formatting: Formatting,
) -> Result<(), Memory>
    ensures { OnOk result (tokens content.new
        ≡ tokens content.old ++ spec.text_of text.now formatting) }
{
    if text.is_empty() {
        return Ok(());
    }
    let text = String::from_str(alloc, text)?;
    push_child(content, formatting.add_text(text).into())?;
    Ok(())
}

/// Adds the children of a tree after the others.
#[tactic(auto, using(crate::proofs::Contents::tokens_joined))]
pub(crate) fn push_tree(content: &mut ElemChildren, tree: ElemChildren) -> Result<(), Memory>
    ensures { OnOk result (tokens content.new ≡ tokens content.old ++ tokens tree) }
{
    let mut tree = tree;
    content.0.append(&mut tree.0)?;
    Ok(())
}

/// Adds a cite of a work, as an element that says which work it is.
#[tactic(auto, using(csl_tree::proofs::Trees::elem_tokens_are))]
pub(crate) fn push_entry(
    content: &mut ElemChildren,
    work: usize,
    cite: ElemChildren,
) -> Result<(), Memory>
    ensures { OnOk result (tokens content.new
        ≡ tokens content.old ++ spec.entry_around work (tokens cite)) }
{
    let entry = Elem {
        children: cite,
        display: None,
        meta: Some(ElemMeta::Entry(work)),
    };
    push_child(content, entry.into())?;
    Ok(())
}
