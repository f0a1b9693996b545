//! Simplification of a tree. Elements without display and meta are replaced by their children, and
//! adjacent texts of equal formatting become one. A tree is *normal* if it has no such elements or
//! texts at any depth.
//!
//! The *styled value* of a tree stays the same: each byte of a text with its formatting, the other
//! leaves, and the elements with display or meta (`specs/Simplify.antt`).

ghost use Rattle.std.specs.Prelude.{◌≡◌, ◌<◌, ◌↔◌, IsTrue, OnOk, IfOk};
ghost use Rattle.std.specs.Bool.{OnFalse};
ghost use Rattle.csl_tree.specs.Tokens.{tokens};
ghost use Rattle.csl_tree.specs.Write.{plain_text};
ghost use Rattle.csl_tree.specs.Tree.{Tree, tree, elem_tree, child_tree, row, tokens_of};
ghost use Rattle.csl_tree.specs.Simplify.{simplify_once, simplify_once_after, simplify_fully_after, tree_inside, with_inside, styled_value, is_normal, has_no_empty_text, normal_form, node_count};

use crate::content::push_text_to;
use crate::copies::clone_meta;
use crate::elem::{Elem, ElemChild, ElemChildren};
use lit_model::Memory;
use std::alloc::Global;

/// Returns the children after one round of simplification. An element without display and meta is
/// replaced by its children, unchanged. Any other element gets a round inside. Each text that was
/// itself a child then joins a text of equal formatting before it. The styled value stays the same.
/// The round changes nothing exactly if the children are normal already.
#[cycle(rounds)]
pub fn simplify_children(alloc: Global, children: &ElemChildren) -> Result<ElemChildren, Memory>
    ensures round { IfOk result (λ r. tree r ≡ simplify_once (tree children.now)) }
    ensures kept { IfOk result (λ r. styled_value (tree r) ≡ styled_value (tree children.now)) }
    ensures normal { IfOk result (λ r.
        (tree r ≡ tree children.now) ↔ IsTrue (is_normal (tree children.now))) }
    ensures fewer { IfOk result (λ r.
        OnFalse (is_normal (tree children.now))
        (node_count (tree r) < node_count (tree children.now))) }
    ensures as_tokens { IfOk result (λ r.
        tokens r ≡ tokens_of (simplify_once (tree children.now))) }
{
    let mut simplified = Vec::new(alloc);
    for child in &children.0 {
        child.simplify_into(alloc, &mut simplified)?;
    }
    Ok(ElemChildren(simplified))
}

impl ElemChild {
    /// Appends the result of a round on the child to `simplified`, that of the children before it.
    #[cycle(rounds)]
    fn simplify_into(&self, alloc: Global, simplified: &mut Vec<ElemChild>) -> Result<(), Memory>
        ensures ok { OnOk result (row simplified.new.items
            ≡ simplify_once_after (row simplified.old.items) (child_tree self.now)) }
    {
        match self {
            ElemChild::Text(text) => {
                push_text_to(simplified, alloc, text.text.as_str(), text.formatting)?;
            }
            ElemChild::Elem(elem) => {
                if elem.may_inline() {
                    let ElemChildren(mut copies) = elem.children.clone(alloc)?;
                    simplified.append(&mut copies)?;
                } else {
                    simplified.push(ElemChild::Elem(elem.simplify(alloc)?))?;
                }
            }
            ElemChild::Markup(_) => {
                simplified.push(self.clone(alloc)?)?;
            }
            ElemChild::Link { .. } => {
                simplified.push(self.clone(alloc)?)?;
            }
            ElemChild::Transparent { .. } => {
                simplified.push(self.clone(alloc)?)?;
            }
        }
        Ok(())
    }
}

impl Elem {
    /// Returns the element with one round of simplification inside.
    #[cycle(rounds)]
    pub fn simplify(&self, alloc: Global) -> Result<Elem, Memory>
        ensures round { IfOk result (λ r.
            elem_tree r ≡ with_inside self.now (simplify_once (tree_inside self.now))) }
        ensures kept { IfOk result (λ r. styled_value (elem_tree r) ≡ styled_value
            (elem_tree self.now)) }
        ensures normal { IfOk result (λ r.
            (elem_tree r ≡ elem_tree self.now) ↔ IsTrue (is_normal (tree_inside self.now))) }
        ensures fewer { IfOk result (λ r. OnFalse (is_normal (tree_inside self.now))
            (node_count (elem_tree r) < node_count (elem_tree self.now))) }
    {
        let children = simplify_children(alloc, &self.children)?;
        let meta = clone_meta(&self.meta, alloc)?;
        Ok(Elem {
            children,
            display: self.display,
            meta,
        })
    }
}

/// Returns the normal form of the children, in one pass: what rounds give once a further one would
/// change nothing. No more rounds are needed than there are nodes. Trees without empty texts have
/// the same normal form exactly if they have the same styled value.
pub fn simplify_fully(alloc: Global, children: &ElemChildren) -> Result<ElemChildren, Memory>
    ensures rounds { IfOk result (λ r. tree r ≡ normal_form (tree children.now)) }
    ensures normal { IfOk result (λ r. IsTrue (is_normal (tree r))) }
    ensures plain { IfOk result (λ r. plain_text (tokens r) ≡ plain_text (tokens children.now)) }
    ensures tells { IfOk result (λ r. (u : Tree) → IsTrue (has_no_empty_text (tree children.now))
        → IsTrue (has_no_empty_text u)
        → (tree r ≡ normal_form u) ↔ (styled_value (tree children.now) ≡ styled_value u)) }
{
    let mut simplified = Vec::new(alloc);
    children.simplify_fully_into(alloc, &mut simplified)?;
    Ok(ElemChildren(simplified))
}

impl ElemChildren {
    /// Appends the children to `simplified`, which is in normal form, so that it stays so.
    #[cycle(pass)]
    fn simplify_fully_into(
        &self,
        alloc: Global,
        simplified: &mut Vec<ElemChild>,
    ) -> Result<(), Memory>
        ensures ok { OnOk result (row simplified.new.items
            ≡ simplify_fully_after (row simplified.old.items) (tree self.now)) }
    {
        for child in &self.0 {
            child.simplify_fully_into(alloc, simplified)?;
        }
        Ok(())
    }
}

impl ElemChild {
    /// Appends the child to `simplified`, which is in normal form, so that it stays so. For a child
    /// other than an element a round does the same.
    #[cycle(pass)]
    fn simplify_fully_into(
        &self,
        alloc: Global,
        simplified: &mut Vec<ElemChild>,
    ) -> Result<(), Memory>
        ensures ok { OnOk result (row simplified.new.items
            ≡ simplify_fully_after (row simplified.old.items) (child_tree self.now)) }
    {
        match self {
            ElemChild::Elem(elem) => {
                if elem.may_inline() {
                    elem.children.simplify_fully_into(alloc, simplified)?;
                } else {
                    let mut inside = Vec::new(alloc);
                    elem.children.simplify_fully_into(alloc, &mut inside)?;
                    let meta = clone_meta(&elem.meta, alloc)?;
                    simplified.push(ElemChild::Elem(Elem {
                        children: ElemChildren(inside),
                        display: elem.display,
                        meta,
                    }))?;
                }
            }
            _ => {
                self.simplify_into(alloc, simplified)?;
            }
        }
        Ok(())
    }
}
