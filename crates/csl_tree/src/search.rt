//! Searches in a tree, in preorder: an element, then the elements inside it, then those to its
//! right.

ghost use Rattle.std.specs.Prelude.{◌≡◌, Bool, false, option_copied, option_map, IfSome, IfNone};
ghost use Rattle.std.specs.List.{find};
ghost use Rattle.csl_tree.specs.Tokens.{tokens, child_tokens};
ghost use Rattle.csl_tree.specs.Search as spec;

use crate::elem::{Elem, ElemChild, ElemChildren, ElemMeta};
use crate::formatting::Formatted;

impl ElemChild {
    /// The element, if the child is one.
    pub(crate) fn as_elem(&self) -> Option<&Elem>
        ensures { option_copied result ≡ spec.elem_of self.now }
    {
        match self {
            ElemChild::Elem(elem) => Some(elem),
            _ => None,
        }
    }
}

impl ElemChildren {
    /// Returns the first element that `f` accepts. The result of `f` should depend on the element
    /// alone.
    pub fn find_elem_by<F: Fn(&Elem) -> bool>(&self, f: &F) -> Option<&Elem>
        requires { F.IsAlwaysCallable f.now }
        ensures { (p : Elem → Bool) → spec.AnswersBy (F.post f.now) p
            → option_copied result ≡ find p (spec.preorder self.now) }
    {
        for child in &self.0 {
            if let Some(elem) = child.as_elem() {
                if f(elem) {
                    return Some(elem);
                }
                if let Some(found) = elem.children.find_elem_by(f) {
                    return Some(found);
                }
            }
        }
        None
    }

    /// Returns the first element with this meta.
    pub fn find_meta(&self, meta: &ElemMeta) -> Option<&Elem>
        ensures { spec.IsFirst (spec.IsMadeBy meta.now) (spec.preorder self.now) (option_copied
            result) }
    {
        self.find_elem_by(&|elem: &Elem| elem.meta.as_ref() == Some(meta))
    }

    /// Returns the first element of a `cs:names`.
    pub fn find_names(&self) -> Option<&Elem>
        ensures { option_copied result ≡ find spec.is_names (spec.preorder self.now) }
    {
        self.find_elem_by(&|elem: &Elem| matches!(elem.meta, Some(ElemMeta::Names(_))))
    }

    /// The last text: the last child if it is a text, the last text inside it if it is an element,
    /// else none.
    pub fn last_text(&self) -> Option<&Formatted>
        ensures { option_copied result ≡ spec.last_text self.now }
    {
        match self.0.last() {
            Some(ElemChild::Text(text)) => Some(text),
            Some(ElemChild::Elem(elem)) => elem.children.last_text(),
            Some(ElemChild::Markup(_)) => None,
            Some(ElemChild::Link { .. }) => None,
            Some(ElemChild::Transparent { .. }) => None,
            None => None,
        }
    }
}

impl ElemChild {
    /// Whether the child is an element with a meta.
    fn has_meta(&self) -> bool
        ensures { result ≡ spec.child_has_meta self.now }
    {
        match self.as_elem() {
            Some(elem) => elem.meta.is_some(),
            None => false,
        }
    }

    /// Removes and returns the first element with a meta inside the child. The child itself must
    /// have no meta.
    #[cycle(removal)]
    fn remove_below(&mut self) -> Option<ElemChild>
        requires { spec.child_has_meta self.old ≡ false }
        ensures found { result
            ≡ option_map spec.as_child (find spec.has_meta (spec.child_preorder self.old)) }
        ensures some { IfSome result (λ child.
            spec.MetaRemoved (child_tokens self.old) (child_tokens child) (child_tokens self.new)) }
        ensures none { IfNone result
            (spec.HasNoMeta (child_tokens self.old) × (self.new ≡ self.old)) }
    {
        if self.as_elem().is_none() {
            return None;
        }
        self.children_mut().remove_any_meta()
    }
}

impl ElemChildren {
    /// Removes and returns the first element with a meta. The rest of the tree stays in order.
    #[cycle(removal)]
    pub fn remove_any_meta(&mut self) -> Option<ElemChild>
        ensures found { result
            ≡ option_map spec.as_child (find spec.has_meta (spec.preorder self.old)) }
        ensures some { IfSome result (λ child.
            spec.MetaRemoved (tokens self.old) (child_tokens child) (tokens self.new)) }
        ensures none { IfNone result (spec.HasNoMeta (tokens self.old) × (self.new ≡ self.old)) }
    {
        for i in 0..self.0.len() {
            if self.0[i].has_meta() {
                return Some(self.0.remove(i));
            }
            if let Some(found) = self.0[i].remove_below() {
                return Some(found);
            }
        }
        None
    }
}
