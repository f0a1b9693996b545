//! The characters of a content in a row, each with the text that it stands in.

ghost use Rattle.std.specs.Prelude.{◌≡◌, ◌++◌, IfOk, OnOk};
ghost use Rattle.csl_tree.specs.Tokens.{child_tokens, optional_meta, tokens};
ghost use Rattle.csl_finish.specs.Letters.{bares, placed, words, words_of};

use csl_tree::{Elem, ElemChild, ElemChildren, ElemMeta};
use lit_model::Memory;
use std::alloc::Global;
use std::vec;

/// What a step has found a character to be.
#[derive(Clone, Copy, PartialEq, Eq)]
pub(crate) enum Role {
    /// Nothing.
    Plain,
    /// The mark that ends a quote.
    Closing,
    /// A comma or period that has moved into a quote.
    Moved,
    /// A letter that keeps its case.
    Fixed,
}

/// A character of a content.
#[derive(Clone, Copy)]
pub(crate) struct Letter {
    pub value: char,
    /// The index of its text among the texts of the content. A character of a link or a markup has
    /// none, and stays.
    pub text: Option<usize>,
    pub role: Role,
}

/// The character for a place that the reader of the tree fills.
const PLACE: char = '\u{fffc}';

/// Appends the characters of one text.
#[tactic(auto, using(crate::proofs::Marks::pushes))]
fn push_letters(letters: &mut Vec<Letter>, text: &str, index: Option<usize>) -> Result<(), Memory>
    ensures { OnOk result (words letters.new.items
        ≡ words letters.old.items ++ placed index (words_of text.now)) }
{
    for value in text.chars() {
        letters.push(Letter {
            value,
            text: index,
            role: Role::Plain,
        })?;
    }
    Ok(())
}

/// Appends the characters of the content, and an empty text for each of its texts.
pub(crate) fn read_letters(
    alloc: Global,
    content: &ElemChildren,
    letters: &mut Vec<Letter>,
    texts: &mut Vec<String>,
) -> Result<(), Memory> {
    for child in &content.0 {
        match child {
            ElemChild::Text(text) => {
                push_letters(letters, text.text.as_str(), Some(texts.len()))?;
                texts.push(String::new(alloc))?;
            }
            ElemChild::Elem(elem) => read_letters(alloc, &elem.children, letters, texts)?,
            ElemChild::Markup(markup) => push_letters(letters, markup.as_str(), None)?,
            ElemChild::Link { text, .. } => push_letters(letters, text.text.as_str(), None)?,
            ElemChild::Transparent { .. } => letters.push(Letter {
                value: PLACE,
                text: None,
                role: Role::Plain,
            })?,
        }
    }
    Ok(())
}

/// The characters of letters as one text.
pub(crate) fn text_of(alloc: Global, letters: &[Letter]) -> Result<String, Memory> {
    let mut text = String::new(alloc);
    for letter in letters {
        text.push(letter.value)?;
    }
    Ok(text)
}

/// Appends a character to its text.
fn write_letter(letter: Letter, texts: &mut [String]) -> Result<(), Memory> {
    let Some(index) = letter.text else {
        return Ok(());
    };
    if index < texts.len() {
        texts[index].push(letter.value)?;
    }
    Ok(())
}

/// Appends each character to its text.
pub(crate) fn write_letters(letters: &[Letter], texts: &mut [String]) -> Result<(), Memory> {
    for letter in letters {
        write_letter(*letter, texts)?;
    }
    Ok(())
}

/// A copy of the meta, if there is one.
pub(crate) fn copied_meta(
    alloc: Global,
    meta: &Option<ElemMeta>,
) -> Result<Option<ElemMeta>, Memory>
    ensures { IfOk result (λ copy. optional_meta copy ≡ optional_meta meta.now) }
{
    match meta {
        None => Ok(None),
        Some(meta) => Ok(Some(meta.clone(alloc)?)),
    }
}

/// A copy of the content in which each text is the next of `texts`.
#[cycle(texts)]
pub(crate) fn with_texts(
    alloc: Global,
    content: &ElemChildren,
    texts: &mut vec::IntoIter<String>,
) -> Result<ElemChildren, Memory>
    ensures { IfOk result (λ copy. bares (tokens copy) ≡ bares (tokens content.now)) }
{
    let mut copies = Vec::with_capacity(alloc, content.0.len())?;
    for child in &content.0 {
        copies.push(child_with_texts(alloc, child, texts)?)?;
    }
    Ok(ElemChildren(copies))
}

/// A copy of the child in which each text is the next of `texts`.
#[cycle(texts)]
fn child_with_texts(
    alloc: Global,
    child: &ElemChild,
    texts: &mut vec::IntoIter<String>,
) -> Result<ElemChild, Memory>
    ensures { IfOk result (λ copy. bares (child_tokens copy) ≡ bares (child_tokens child.now)) }
{
    match child {
        ElemChild::Text(text) => match texts.next() {
            Some(new) => Ok(ElemChild::Text(text.formatting.add_text(new))),
            None => child.clone(alloc),
        },
        ElemChild::Elem(elem) => {
            let children = with_texts(alloc, &elem.children, texts)?;
            let meta = copied_meta(alloc, &elem.meta)?;
            Ok(ElemChild::Elem(Elem {
                children,
                display: elem.display,
                meta,
            }))
        }
        ElemChild::Markup(_) | ElemChild::Link { .. } | ElemChild::Transparent { .. } => {
            child.clone(alloc)
        }
    }
}
