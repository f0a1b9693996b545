//! The types of the output tree. Their methods return whether a part is empty or has content, and
//! the length of its text.
//! Definitions: specs/Tokens.antt.

ghost use Rattle.std.specs.Prelude.{◌≡◌, ◌↔◌, [], length, min, None, IsTrue};
ghost use Rattle.csl_tree.specs.declared.elem.Elem.{out-Elem};
ghost use Rattle.csl_tree.specs.Tokens as spec;
ghost use Rattle.csl_tree.specs.Tokens.{elem_tokens, child_tokens, text_tokens};

use crate::formatting::{Formatted, Formatting};
use csl_elements::{Display, NameVariable};
use lit_model::Person;
use std::alloc::Global;

/// A list of children.
#[cycle(tree)]
#[derive(PartialEq, Eq, Hash, Drop)]
pub struct ElemChildren(pub Vec<ElemChild>);

/// An element: children in a group, such as the output of one node of a style.
#[cycle(tree)]
#[derive(PartialEq, Eq, Hash, Drop)]
pub struct Elem {
    /// The children of the element.
    pub children: ElemChildren,
    /// The place of the element on the page, if the style sets one (CSL 1.0.2, Display).
    pub display: Option<Display>,
    /// The kind of node that rendered the element, if a reader of the tree needs it.
    pub meta: Option<ElemMeta>,
}

/// One child of an element.
#[cycle(tree)]
#[derive(PartialEq, Eq, Hash, Drop)]
pub enum ElemChild {
    /// A text.
    Text(Formatted),
    /// An element.
    Elem(Elem),
    /// A text that a typesetter reads as markup, for example a formula.
    Markup(String),
    /// A link.
    Link {
        /// The text of the link.
        text: Formatted,
        /// The address that the link leads to.
        url: String,
    },
    /// A place that the reader of the tree fills with text of a cite, such as its locator.
    Transparent {
        /// The index of the cite in the order of the caller.
        cite_idx: usize,
        /// The formatting of the place.
        format: Formatting,
    },
}

/// The kind of node that rendered an element.
#[derive(PartialEq, Eq, Hash, Drop)]
pub enum ElemMeta {
    /// A `cs:names`, with the persons of each of its variables.
    Names(Vec<(Vec<Person>, NameVariable)>),
    /// A `cs:date`.
    Date,
    /// A `cs:text` of a variable.
    Text,
    /// A `cs:number`.
    Number,
    /// A `cs:label`.
    Label,
    /// The number of a citation.
    CitationNumber,
    /// One name of a `cs:names`: its variable, and its index among the persons of that variable.
    Name(NameVariable, usize),
    /// A whole entry, with its index among the items of the citation.
    Entry(usize),
    /// The label of a citation.
    CitationLabel,
}

/// The output format of a tree.
#[derive(Clone, Copy, Debug, Default, PartialEq, Eq)]
pub enum BufWriteFormat {
    /// The text of the tree, with line breaks around blocks.
    #[default]
    Plain,
    /// HTML. Texts, markup and addresses are escaped, so none of them opens or closes a tag. The
    /// scheme of an address is not checked.
    Html,
}

/// Whether the text has a character other than white space.
fn has_visible(text: &str) -> bool
    ensures { result ≡ spec.has_visible text.now }
{
    text.chars().any(|c| !c.is_whitespace())
}

impl ElemChildren {
    /// Returns an empty list of children.
    pub fn new(alloc: Global) -> ElemChildren
        ensures { spec.tokens result ≡ [] }
    {
        ElemChildren(Vec::new(alloc))
    }

    /// Whether each child is empty.
    #[cycle(empty)]
    pub fn is_empty(&self) -> bool
        ensures { result ≡ spec.is_empty (spec.tokens self.now) }
    {
        for child in &self.0 {
            if !child.is_empty() {
                return false;
            }
        }
        true
    }

    /// Whether any child has content ([`ElemChild::has_content`]).
    #[cycle(content)]
    pub fn has_content(&self) -> bool
        ensures { result ≡ spec.has_content (spec.tokens self.now) }
    {
        for child in &self.0 {
            if child.has_content() {
                return true;
            }
        }
        false
    }

    /// The number of bytes in the texts, markups and link texts, at most `usize::MAX`.
    #[cycle(len)]
    pub fn str_len(&self) -> usize
        ensures { result ≡ min (length (spec.leaf_text (spec.tokens self.now))) usize.MAX }
    {
        let mut len: usize = 0;
        for child in &self.0 {
            len = len.saturating_add(child.str_len());
        }
        len
    }
}

impl Elem {
    /// Whether each child is empty.
    #[cycle(empty)]
    pub fn is_empty(&self) -> bool
        ensures { result ≡ spec.is_empty (elem_tokens self.now) }
    {
        self.children.is_empty()
    }

    /// Whether any child has content ([`ElemChild::has_content`]).
    #[cycle(content)]
    pub fn has_content(&self) -> bool
        ensures { result ≡ spec.has_content (elem_tokens self.now) }
    {
        self.children.has_content()
    }

    /// The number of bytes in the texts, markups and link texts, at most `usize::MAX`.
    #[cycle(len)]
    pub fn str_len(&self) -> usize
        ensures { result ≡ min (length (spec.leaf_text (elem_tokens self.now))) usize.MAX }
    {
        self.children.str_len()
    }

    /// Whether the children may replace the element: it has neither display nor meta.
    pub fn may_inline(&self) -> bool
        ensures { IsTrue result ↔ ((out-Elem self.now).display ≡ None)
            × (spec.optional_meta (out-Elem self.now).meta ≡ None) }
    {
        self.display.is_none() && self.meta.is_none()
    }
}

impl ElemChild {
    /// Whether it is a text, markup or link with empty text, or an element whose children are all
    /// empty.
    #[cycle(empty)]
    pub fn is_empty(&self) -> bool
        ensures { result ≡ spec.is_empty (child_tokens self.now) }
    {
        match self {
            ElemChild::Text(text) => text.text.is_empty(),
            ElemChild::Elem(elem) => elem.is_empty(),
            ElemChild::Markup(markup) => markup.is_empty(),
            ElemChild::Link { text, .. } => text.text.is_empty(),
            ElemChild::Transparent { .. } => false,
        }
    }

    /// Whether it is a link, a transparent, a text or markup that is not all white space, or an
    /// element with such a child.
    #[cycle(content)]
    pub fn has_content(&self) -> bool
        ensures { result ≡ spec.has_content (child_tokens self.now) }
    {
        match self {
            ElemChild::Text(text) => has_visible(text.text.as_str()),
            ElemChild::Elem(elem) => elem.has_content(),
            ElemChild::Markup(markup) => has_visible(markup.as_str()),
            ElemChild::Link { .. } => true,
            ElemChild::Transparent { .. } => true,
        }
    }

    /// The number of bytes in the texts, markups and link texts, at most `usize::MAX`.
    #[cycle(len)]
    pub fn str_len(&self) -> usize
        ensures { result ≡ min (length (spec.leaf_text (child_tokens self.now))) usize.MAX }
    {
        match self {
            ElemChild::Text(text) => text.text.len(),
            ElemChild::Elem(elem) => elem.str_len(),
            ElemChild::Markup(markup) => markup.len(),
            ElemChild::Link { text, .. } => text.text.len(),
            ElemChild::Transparent { .. } => 0,
        }
    }
}

impl From<Elem> for ElemChild {
    ghost from_gives = { λ elem child. child_tokens child ≡ elem_tokens elem };

    fn from(inner: Elem) -> ElemChild {
        ElemChild::Elem(inner)
    }
}

impl From<Formatted> for ElemChild {
    ghost from_gives = { λ text child. child_tokens child ≡ text_tokens text };

    fn from(formatted: Formatted) -> ElemChild {
        ElemChild::Text(formatted)
    }
}
