//! Contents without marks.
//! Definitions: specs/CaseMarks.antt.

ghost use Rattle.std.specs.Prelude.{◌≡◌, ◌++◌, [], false, IfOk, OnOk};
ghost use Rattle.std.specs.List.{flat_map};
ghost use Rattle.csl_tree.specs.Tokens.{child_tokens, tokens};
ghost use Rattle.csl_finish.specs.CaseMarks as spec;

use crate::case_marks::{has_case_mark, without_case_marks};
use crate::letters::copied_meta;
use csl_tree::{Elem, ElemChild, ElemChildren, Formatted};
use lit_model::Memory;
use std::alloc::Global;
use std::vec;

/// Whether a content has a mark.
#[cycle(marks)]
pub(crate) fn has_mark(content: &ElemChildren) -> bool
    ensures { result ≡ spec.have_mark (tokens content.now) }
{
    for child in &content.0 {
        if child_has_mark(child) {
            return true;
        }
    }
    false
}

/// Whether a child has a mark.
#[cycle(marks)]
fn child_has_mark(child: &ElemChild) -> bool
    ensures { result ≡ spec.have_mark (child_tokens child.now) }
{
    match child {
        ElemChild::Text(text) | ElemChild::Link { text, .. } => has_case_mark(text.text.as_str()),
        ElemChild::Elem(elem) => has_mark(&elem.children),
        ElemChild::Markup(markup) => has_case_mark(markup.as_str()),
        ElemChild::Transparent { .. } => false,
    }
}

/// Appends a child, if there is one.
fn push_some(children: &mut Vec<ElemChild>, child: Option<ElemChild>) -> Result<(), Memory>
    ensures { OnOk result (flat_map child_tokens children.new.items
        ≡ flat_map child_tokens children.old.items ++ spec.some_tokens child) }
{
    if let Some(child) = child {
        children.push(child)?;
    }
    Ok(())
}

/// A copy of the content without marks, in which each text is the next of `texts`, and none is
/// empty.
#[cycle(unmarked)]
pub(crate) fn with_unmarked_texts(
    alloc: Global,
    content: &ElemChildren,
    texts: &mut vec::IntoIter<String>,
) -> Result<ElemChildren, Memory>
    ensures unmarked { IfOk result (λ copy. spec.have_mark (tokens copy) ≡ false) }
    ensures solids { IfOk result (λ copy. spec.solids (tokens copy)
        ≡ spec.unmarked_solids (tokens content.now)) }
{
    let mut copies = Vec::with_capacity(alloc, content.0.len())?;
    for child in &content.0 {
        let copy = unmarked_child(alloc, child, texts)?;
        push_some(&mut copies, copy)?;
    }
    Ok(ElemChildren(copies))
}

/// A copy of the child without marks, in which each text is the next of `texts`. A text that is
/// empty has none.
#[cycle(unmarked)]
fn unmarked_child(
    alloc: Global,
    child: &ElemChild,
    texts: &mut vec::IntoIter<String>,
) -> Result<Option<ElemChild>, Memory>
    ensures unmarked { IfOk result (λ copy. spec.have_mark (spec.some_tokens copy) ≡ false) }
    ensures solids { IfOk result (λ copy. spec.solids (spec.some_tokens copy)
        ≡ spec.unmarked_solids (child_tokens child.now)) }
{
    match child {
        ElemChild::Text(text) => match texts.next() {
            Some(new) => unmarked_text(alloc, text, new.as_str()),
            None => unmarked_text(alloc, text, text.text.as_str()),
        },
        ElemChild::Elem(elem) => {
            let children = with_unmarked_texts(alloc, &elem.children, texts)?;
            let meta = copied_meta(alloc, &elem.meta)?;
            Ok(Some(ElemChild::Elem(Elem {
                children,
                display: elem.display,
                meta,
            })))
        }
        ElemChild::Markup(markup) => {
            let markup = without_case_marks(alloc, markup.as_str())?;
            Ok(Some(ElemChild::Markup(markup)))
        }
        ElemChild::Link { text, url } => {
            let url = String::from_str(alloc, url.as_str())?;
            let plain = without_case_marks(alloc, text.text.as_str())?;
            let text = text.formatting.add_text(plain);
            Ok(Some(ElemChild::Link { text, url }))
        }
        ElemChild::Transparent { cite_idx, format } => Ok(Some(ElemChild::Transparent {
            cite_idx: *cite_idx,
            format: *format,
        })),
    }
}

/// A text, with another one in its place without marks, if that is not empty.
fn unmarked_text(alloc: Global, text: &Formatted, new: &str) -> Result<Option<ElemChild>, Memory>
    ensures unmarked { IfOk result (λ copy. spec.have_mark (spec.some_tokens copy) ≡ false) }
    ensures solids { IfOk result (λ copy. spec.solids (spec.some_tokens copy) ≡ []) }
{
    let plain = without_case_marks(alloc, new)?;
    if plain.is_empty() {
        return Ok(None);
    }
    Ok(Some(ElemChild::Text(text.formatting.add_text(plain))))
}
