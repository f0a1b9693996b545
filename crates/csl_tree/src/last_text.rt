//! Lends the last text, as a mutable reference. Nothing else in the tree changes through it.
//! Definitions: specs/Places.antt, specs/Search.antt.

ghost use Rattle.std.specs.Prelude.{◌≡◌, ◌<◌, Some, IsTrue, is_some, option_map, vec_len, IfSome};
ghost use Rattle.std.specs.Borrow.{sem};
ghost use Rattle.csl_tree.specs.Search.{last_text};
ghost use Rattle.csl_tree.specs.Places as spec;

use crate::elem::{ElemChild, ElemChildren};
use crate::formatting::Formatted;
use crate::places::Target;

impl ElemChild {
    /// The formatted text of a child that is a text, as a mutable reference.
    fn text_mut(&mut self) -> &mut Formatted
        requires { IsTrue (is_some (spec.text_of_child self.old)) }
        ensures* writes_back { sem 𝓛 (spec.lends_text self.entry result) }
        ensures value { Some result.now ≡ spec.text_of_child self.old }
    {
        match self {
            ElemChild::Text(text) => text,
            _ => unreachable!(),
        }
    }
}

impl ElemChildren {
    /// The index of the last child, if it is an element.
    pub(crate) fn next_to_end(&self) -> Option<usize>
        ensures index { IfSome result (λ i. i < vec_len self.now.0) }
        ensures value { result ≡ spec.first_of (spec.last_path self.now) }
    {
        if matches!(self.0.last(), Some(ElemChild::Elem(_))) {
            Some(self.0.len() - 1)
        } else {
            None
        }
    }

    /// The last text, as a mutable reference. There must be one.
    fn existing_text_mut(&mut self) -> &mut Formatted
        requires { IsTrue (is_some (last_text self.old)) }
        ensures* writes_back { sem 𝓛 (spec.lends_that_text self.entry result) }
        ensures value { Some result.now ≡ last_text self.old }
    {
        let items = self.items_mut_towards(Target::End);
        let last = items.len() - 1;
        let child = &mut items[last];
        child.text_mut()
    }

    /// The text that `last_text` finds, as a mutable reference.
    pub fn last_text_mut(&mut self) -> Option<&mut Formatted>
        ensures* writes_back { sem 𝓛 (spec.lends_last_text self.entry result) }
        ensures value { option_map (λ t. t.now) result ≡ last_text self.old }
    {
        if self.last_text().is_some() {
            Some(self.existing_text_mut())
        } else {
            None
        }
    }
}
