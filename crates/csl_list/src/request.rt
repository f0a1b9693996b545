//! What a document asks for: its citations, each with its cites (CSL 1.0.2, Citation; Locators).

ghost use Rattle.std.specs.Prelude.{◌≡◌, [], IfOk};
ghost use Rattle.csl_tree.specs.Tokens.{tokens};
ghost use Rattle.csl_tree.specs.Formatting.{default_formatting};
ghost use Rattle.csl_list.specs.Pieces.{text_of};
ghost use Rattle.csl_list.specs.Request.{item_of};

use crate::pieces::push_text;
use csl_common::Memory;
use csl_entry::{NoteNumber, SpecificLocator};
use csl_tree::{ElemChildren, Formatting};
use std::alloc::Global;

/// What a cite prints, if it is not the cite as the style has it.
#[derive(Clone, Copy, Debug, PartialEq, Eq, Hash)]
pub enum CitePurpose {
    /// The author alone, as `Doe`.
    Author,
    /// The year alone, as `2014`.
    Year,
    /// The work as the bibliography has it. Without a bibliography it is the cite itself.
    Full,
    /// The author, and the rest as a citation, as `Doe (2014)`.
    Prose,
    /// All but the author, as `(2014)`.
    SuppressAuthor,
}

/// A cite of a citation.
#[derive(Drop)]
pub struct CitationItem<'d> {
    /// The index of the work among the works of the document.
    pub work: usize,
    /// The place in the work that the cite points to.
    pub locator: Option<SpecificLocator<'d>>,
    /// What it prints. Without a purpose it is the cite as the style has it.
    pub purpose: Option<CitePurpose>,
    /// Whether it prints nothing. It counts as a cite all the same: the work is listed, and later
    /// cites of it are no first cites.
    pub hidden: bool,
    /// The text right before the cite, with the spaces that it needs.
    pub prefix: Option<ElemChildren>,
    /// The text right after the cite, with the spaces that it needs.
    pub suffix: Option<ElemChildren>,
}

/// A citation: cites in a row, and the number of their note, if they stand in one.
#[derive(Drop)]
pub struct CitationRequest<'d> {
    /// The cites, as the author wrote them.
    pub items: Vec<CitationItem<'d>>,
    /// The number of the note.
    pub note_number: Option<NoteNumber>,
}

/// A plain text as a tree, for the texts around a cite.
pub fn plain_affix(alloc: Global, text: &str) -> Result<ElemChildren, Memory>
    ensures { IfOk result (λ affix. tokens affix ≡ text_of text.now default_formatting) }
{
    let mut content = ElemChildren::new(alloc);
    push_text(alloc, &mut content, text, Formatting::default())?;
    Ok(content)
}

impl<'d> CitationItem<'d> {
    /// A cite of the whole work of this index, as the style has it.
    pub fn new(work: usize) -> CitationItem<'d>
        ensures { result ≡ item_of work }
    {
        CitationItem {
            work,
            locator: None,
            purpose: None,
            hidden: false,
            prefix: None,
            suffix: None,
        }
    }
}

impl<'d> CitationRequest<'d> {
    /// A citation in the running text, without cites.
    pub fn new(alloc: Global) -> CitationRequest<'d>
        ensures items { result.items.items ≡ [] }
        ensures note { result.note_number ≡ None }
    {
        CitationRequest {
            items: Vec::new(alloc),
            note_number: None,
        }
    }
}
