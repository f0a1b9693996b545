//! Texts in a row: one joins the text before it if their formatting is equal.

ghost use Rattle.std.specs.Prelude.{◌≡◌, ◌+◌, ◌<◌, ◌≤◌, [], ◌∷◌, ◌++◌, length, take, drop, OnOk, OnErr, IfOk};
ghost use Rattle.std.specs.Bool.{OnTrue, OnFalse};
ghost use Rattle.std.specs.List.{flat_map};
ghost use Rattle.csl_tree.specs.Content.{◌++>◌, child_content};
ghost use Rattle.csl_tree.specs.Tokens.{child_tokens, text};
ghost use Rattle.csl_tree.specs.FlatChildren.{content_of, tokens_at, IsJoined};

use crate::elem::ElemChild;
use crate::formatting::{Formatted, Formatting};
use lit_model::Memory;
use std::alloc::Global;

impl ElemChild {
    /// Whether the child is a text, markup or link with empty text.
    pub(crate) fn shows_nothing(&self) -> bool
        ensures nothing { OnTrue result (child_content self.now ≡ []) }
        ensures something { OnFalse result (child_content self.now ≡ child_tokens self.now) }
    {
        match self {
            ElemChild::Text(text) => text.text.is_empty(),
            ElemChild::Elem(_) => false,
            ElemChild::Markup(markup) => markup.is_empty(),
            ElemChild::Link { text, .. } => text.text.is_empty(),
            ElemChild::Transparent { .. } => false,
        }
    }
}

/// Appends a text to a child if that is a text of equal formatting. Returns whether it is.
pub(crate) fn join_last(
    last: &mut ElemChild,
    more: &str,
    formatting: Formatting,
) -> Result<bool, Memory>
    ensures joins { IfOk result (λ did. OnTrue did
        (child_tokens last.new ≡ child_tokens last.old ++> text more.now formatting ∷ [])) }
    ensures unchanged { IfOk result (λ did. OnFalse did
        (child_tokens last.new ≡ child_tokens last.old)) }
    ensures apart { IfOk result (λ did. OnFalse did
        (child_tokens last.old ++> text more.now formatting ∷ []
        ≡ child_tokens last.old ++ text more.now formatting ∷ [])) }
    ensures err { OnErr result (child_tokens last.new ≡ child_tokens last.old) }
{
    match last {
        ElemChild::Text(text) => {
            if text.formatting == formatting {
                text.text.push_str(more)?;
                Ok(true)
            } else {
                Ok(false)
            }
        }
        ElemChild::Elem(_) => Ok(false),
        ElemChild::Markup(_) => Ok(false),
        ElemChild::Link { .. } => Ok(false),
        ElemChild::Transparent { .. } => Ok(false),
    }
}

/// Appends a text, even an empty one. It joins a last text of equal formatting.
pub(crate) fn push_text_to(
    children: &mut Vec<ElemChild>,
    alloc: Global,
    more: &str,
    formatting: Formatting,
) -> Result<(), Memory>
    ensures ok { OnOk result (flat_map child_tokens children.new.items
        ≡ flat_map child_tokens children.old.items ++> text more.now formatting ∷ []) }
    ensures err { OnErr result
        (flat_map child_tokens children.new.items ≡ flat_map child_tokens children.old.items) }
{
    let len = children.len();
    if len > 0 {
        let did = join_last(&mut children[len - 1], more, formatting)?;
        if did {
            return Ok(());
        }
    }
    let text = String::from_str(alloc, more)?;
    children.push(ElemChild::Text(Formatted { text, formatting }))?;
    Ok(())
}

/// Joins `right` to `left` if both are texts of equal formatting. Returns whether they are.
fn join_onto(left: &mut ElemChild, right: &ElemChild) -> Result<bool, Memory>
    ensures joins { IfOk result (λ did. OnTrue did
        (child_tokens left.new ≡ child_tokens left.old ++> child_tokens right.now)) }
    ensures unchanged { IfOk result (λ did. OnFalse did
        (child_tokens left.new ≡ child_tokens left.old)) }
    ensures apart { IfOk result (λ did. OnFalse did
        (child_tokens left.old ++> child_tokens right.now
        ≡ child_tokens left.old ++ child_tokens right.now)) }
    ensures err { OnErr result (child_tokens left.new ≡ child_tokens left.old) }
{
    match right {
        ElemChild::Text(more) => join_last(left, more.text.as_str(), more.formatting),
        ElemChild::Elem(_) => Ok(false),
        ElemChild::Markup(_) => Ok(false),
        ElemChild::Link { .. } => Ok(false),
        ElemChild::Transparent { .. } => Ok(false),
    }
}

/// Joins the child at `next` to the one at `last` if both are texts of equal formatting, else swaps
/// it to `last + 1`. Returns whether it joined them. The children between the two have no meaning.
fn join_next(children: &mut Vec<ElemChild>, last: usize, next: usize) -> Result<bool, Memory>
    requires within { (last < next) × (next < length children.old.items) }
    ensures len { length children.new.items ≡ length children.old.items }
    ensures before { take last children.new.items ≡ take last children.old.items }
    ensures after { drop (next + 1) children.new.items ≡ drop (next + 1) children.old.items }
    ensures joins { IfOk result (λ did. OnTrue did (tokens_at children.new.items last
        ≡ tokens_at children.old.items last ++> tokens_at children.old.items next)) }
    ensures unchanged { IfOk result (λ did. OnFalse did (tokens_at children.new.items last
        ≡ tokens_at children.old.items last)) }
    ensures moves { IfOk result (λ did. OnFalse did (tokens_at children.new.items (last + 1)
        ≡ tokens_at children.old.items next)) }
    ensures apart { IfOk result (λ did. OnFalse did
        (tokens_at children.old.items last ++> tokens_at children.old.items next
        ≡ tokens_at children.old.items last ++ tokens_at children.old.items next)) }
    ensures err { OnErr result
        ((tokens_at children.new.items last ≡ tokens_at children.old.items last)
        × (drop next children.new.items ≡ drop next children.old.items)) }
{
    let (kept, rest) = children.split_at_mut(next);
    if join_onto(&mut kept[last], &rest[0])? {
        return Ok(true);
    }
    children.swap(last + 1, next);
    Ok(false)
}

/// Removes the children at `from..to`.
fn close_gap(children: &mut Vec<ElemChild>, from: usize, to: usize)
    requires within { (from ≤ to) × (to ≤ length children.old.items) }
    ensures { children.new.items ≡ take from children.old.items ++ drop to children.old.items }
{
    children.drain(from..to);
}

/// Joins adjacent texts of equal formatting among the children from `from` on.
pub(crate) fn join_texts(children: &mut Vec<ElemChild>, from: usize) -> Result<(), Memory>
    requires within { from ≤ length children.old.items }
    ensures before { take from children.new.items ≡ take from children.old.items }
    ensures same { content_of (drop from children.new.items)
        ≡ content_of (drop from children.old.items) }
    ensures joined { OnOk result (IsJoined (drop from children.new.items)) }
{
    if from == children.len() {
        return Ok(());
    }
    let mut last = from;
    let mut next = from + 1;
    while next < children.len() {
        match join_next(children, last, next) {
            Ok(joined) => {
                if !joined {
                    last += 1;
                }
            }
            Err(error) => {
                close_gap(children, last + 1, next);
                return Err(error);
            }
        }
        next += 1;
    }
    children.truncate(last + 1);
    Ok(())
}
