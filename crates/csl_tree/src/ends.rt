//! Whether children exist, whether they have text, and the last character of their leaf text.
//! Definitions: specs/Tokens.antt.

ghost use Rattle.std.specs.Prelude.{◌≡◌};
ghost use Rattle.csl_tree.specs.Tokens as spec;

use crate::elem::{Elem, ElemChild, ElemChildren};

/// The last character of a text.
fn last_char(text: &str) -> Option<char>
    ensures { result ≡ spec.last_char text.now }
{
    text.chars().next_back()
}

impl ElemChildren {
    /// Whether there are children, even empty ones.
    pub fn has_children(&self) -> bool
        ensures { result ≡ spec.has_children (spec.tokens self.now) }
    {
        !self.0.is_empty()
    }

    /// Whether the leaf text is not empty.
    pub fn has_text(&self) -> bool
        ensures { result ≡ spec.has_text (spec.tokens self.now) }
    {
        self.str_len() > 0
    }

    /// Whether the leaf text ends in white space.
    pub fn ends_in_white_space(&self) -> bool
        ensures { result ≡ spec.ends_in_white_space (spec.tokens self.now) }
    {
        match self.last_char() {
            Some(c) => c.is_whitespace(),
            None => false,
        }
    }

    /// The last character of the leaf text.
    #[cycle(ends)]
    fn last_char(&self) -> Option<char>
        ensures { result ≡ spec.last_char (spec.leaf_text (spec.tokens self.now)) }
    {
        let mut i = self.0.len();
        while i > 0 {
            i -= 1;
            let last = self.0[i].last_char();
            if last.is_some() {
                return last;
            }
        }
        None
    }
}

impl Elem {
    /// The last character of the leaf text.
    #[cycle(ends)]
    fn last_char(&self) -> Option<char>
        ensures { result ≡ spec.last_char (spec.leaf_text (spec.elem_tokens self.now)) }
    {
        self.children.last_char()
    }
}

impl ElemChild {
    /// The last character of the leaf text.
    #[cycle(ends)]
    pub(crate) fn last_char(&self) -> Option<char>
        ensures { result ≡ spec.last_char (spec.leaf_text (spec.child_tokens self.now)) }
    {
        match self {
            ElemChild::Text(text) => last_char(text.text.as_str()),
            ElemChild::Elem(elem) => elem.last_char(),
            ElemChild::Markup(markup) => last_char(markup.as_str()),
            ElemChild::Link { text, .. } => last_char(text.text.as_str()),
            ElemChild::Transparent { .. } => None,
        }
    }
}
