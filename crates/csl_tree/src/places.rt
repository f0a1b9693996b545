//! Walks down a tree, from children to the children of one of them, as mutable references. Nothing
//! else in the tree changes through them. Definitions: specs/Places.antt, specs/Walks.antt.

ghost use Rattle.std.specs.Prelude.{◌≡◌, ◌<◌, Some, IsTrue, is_some, vec_len, IfSome};
ghost use Rattle.std.specs.Borrow.{sem};
ghost use Rattle.csl_tree.specs.Places as spec;
ghost use Rattle.csl_tree.specs.Walks as walk;

use crate::elem::{ElemChild, ElemChildren};

/// Where a walk down a tree leads.
#[derive(Clone, Copy)]
pub(crate) enum Target {
    /// To the children of which one is the first element of a `cs:names`, or to the outermost if
    /// there is no such element.
    Names,
    /// To the children at the end of the tree: down the last child as long as that is an element.
    End,
}

impl ElemChild {
    /// The children of a child that is an element, as a mutable reference.
    pub(crate) fn children_mut(&mut self) -> &mut ElemChildren
        requires { IsTrue (is_some (spec.children_of self.old)) }
        ensures* writes_back { sem 𝓛 (spec.lends_children self.entry result) }
        ensures value { Some result.now ≡ spec.children_of self.old }
    {
        match self {
            ElemChild::Elem(elem) => &mut elem.children,
            _ => unreachable!(),
        }
    }
}

impl ElemChildren {
    /// The index of the child in which the walk goes on, if it goes on.
    fn next_towards(&self, to: Target) -> Option<usize>
        ensures index { IfSome result (λ i. i < vec_len self.now.0) }
        ensures value { result ≡ walk.next_towards to self.now }
    {
        match to {
            Target::Names => self.next_to_names(),
            Target::End => self.next_to_end(),
        }
    }

    /// Whether the walk goes on in a child.
    fn has_next(&mut self, to: Target) -> bool
        ensures value { result ≡ walk.has_next to self.old }
        ensures unchanged { self.new ≡ self.old }
    {
        self.next_towards(to).is_some()
    }

    /// The child in which the walk goes on, as a mutable reference. It must go on.
    fn child_mut_towards(&mut self, to: Target) -> &mut ElemChild
        requires { IsTrue (walk.has_next to self.old) }
        ensures* writes_back { sem 𝓛 (walk.lends_child_towards to self.entry result) }
        ensures value { result.now ≡ spec.child_at self.old (walk.index_towards to self.old) }
    {
        match self.next_towards(to) {
            Some(i) => &mut self.0[i],
            None => unreachable!(),
        }
    }

    /// The list of the children, as a mutable reference.
    fn items_mut(&mut self) -> &mut Vec<ElemChild>
        ensures* writes_back { sem 𝓛 (spec.lends_items self.entry result) }
        ensures value { result.now ≡ self.old.0 }
    {
        &mut self.0
    }

    /// The list of children to which the walk leads, as a mutable reference.
    #[cycle(towards)]
    pub(crate) fn items_mut_towards(&mut self, to: Target) -> &mut Vec<ElemChild>
        ensures* writes_back { sem 𝓛 (walk.lends_items_towards to self.entry result) }
        ensures value { result.now ≡ walk.items_towards to self.old }
    {
        if self.has_next(to) {
            self.child_mut_towards(to)
                .children_mut()
                .items_mut_towards(to)
        } else {
            self.items_mut()
        }
    }
}
