//! Finds the first element of a `cs:names`, as a mutable reference.

ghost use Rattle.std.specs.Prelude.{◌≡◌, ◌<◌, Some, None, IsTrue, is_some, vec_len, IfSome, IfNone, option_map};
ghost use Rattle.std.specs.Borrow.{sem};
ghost use Rattle.std.specs.List.{find};
ghost use Rattle.csl_tree.specs.Search as spec;
ghost use Rattle.csl_tree.specs.Places.{first_of};
ghost use Rattle.csl_tree.specs.FindNames.{is_here, is_found, find_of_child, find_at, found_or, names_find, names_path, lends_elem, lends_that_names, lends_names, any_is_here, here_index, first_names};

use crate::elem::{Elem, ElemChild, ElemChildren, ElemMeta};
use crate::places::Target;

impl ElemChild {
    /// Whether the child is the element of a `cs:names`.
    fn is_names(&self) -> bool
        ensures { result ≡ is_here (find_of_child self.now) }
    {
        match self {
            ElemChild::Elem(elem) => matches!(elem.meta, Some(ElemMeta::Names(_))),
            _ => false,
        }
    }

    /// Whether the child is the element of a `cs:names`, or contains one.
    #[cycle(find)]
    fn has_names(&self) -> bool
        ensures { result ≡ is_found (find_of_child self.now) }
    {
        if self.is_names() {
            return true;
        }
        match self {
            ElemChild::Elem(elem) => elem.children.names_at().is_some(),
            _ => false,
        }
    }

    /// The child as an element, by mutable reference. It must be the element of a `cs:names`.
    fn elem_mut(&mut self) -> &mut Elem
        requires { IsTrue (is_here (find_of_child self.old)) }
        ensures* writes_back { sem 𝓛 (lends_elem self.entry result) }
        ensures value { Some result.now ≡ spec.elem_of self.old }
    {
        match self {
            ElemChild::Elem(elem) => elem,
            _ => unreachable!(),
        }
    }
}

/// The index of the first child that is the element of a `cs:names`. There must be one.
fn first_of_names(items: &Vec<ElemChild>) -> usize
    requires { IsTrue (any_is_here items.now.items) }
    ensures index { result < vec_len items.now }
    ensures here { result ≡ here_index items.now.items }
{
    for i in 0..items.len() {
        if items[i].is_names() {
            return i;
        }
    }
    unreachable!()
}

impl ElemChildren {
    /// The index of the first child that is or contains the element of a `cs:names`.
    #[cycle(find)]
    fn names_at(&self) -> Option<usize>
        ensures index { IfSome result (λ i. i < vec_len self.now.0) }
        ensures found { IfSome result (λ i. IsTrue (is_found (find_at self.now i))) }
        ensures some { IfSome result (λ i.
            names_find self.now ≡ found_or i (find_at self.now i) None) }
        ensures none { IfNone result (names_find self.now ≡ None) }
    {
        for i in 0..self.0.len() {
            if self.0[i].has_names() {
                return Some(i);
            }
        }
        None
    }

    /// The index of the child that contains the first element of a `cs:names`, if that is inside a
    /// child and not itself a child.
    pub(crate) fn next_to_names(&self) -> Option<usize>
        ensures index { IfSome result (λ i. i < vec_len self.now.0) }
        ensures value { result ≡ first_of (names_path self.now) }
    {
        match self.names_at() {
            Some(i) => { if self.0[i].is_names() { None } else { Some(i) } }
            None => None,
        }
    }

    /// The first element of a `cs:names`, as a mutable reference. There must be one.
    fn existing_names_mut(&mut self) -> &mut Elem
        requires { IsTrue (is_some (names_find self.old)) }
        ensures* writes_back { sem 𝓛 (lends_that_names self.entry result) }
        ensures value { Some result.now ≡ first_names self.old }
    {
        let items = self.items_mut_towards(Target::Names);
        let first = first_of_names(items);
        let child = &mut items[first];
        child.elem_mut()
    }

    /// The element that `find_names` finds, as a mutable reference. Nothing else in the tree
    /// changes through it.
    pub fn find_names_mut(&mut self) -> Option<&mut Elem>
        ensures* writes_back { sem 𝓛 (lends_names self.entry result) }
        ensures value { option_map (λ e. e.now) result
            ≡ find spec.is_names (spec.preorder self.old) }
    {
        if self.names_at().is_some() {
            Some(self.existing_names_mut())
        } else {
            None
        }
    }
}
