//! The citations and the bibliography of a document, rendered.

use crate::options::SecondFieldAlign;
use csl_entry::{CitationNumber, NoteNumber};
use csl_tree::ElemChildren;

/// The citations of a document, and its bibliography.
#[derive(Drop)]
pub struct RenderedList {
    /// The citations, in the order in which they were asked for.
    pub citations: Vec<RenderedCitation>,
    /// The bibliography, if the style and its options have one.
    pub bibliography: Option<RenderedBibliography>,
}

/// A citation.
#[derive(Drop)]
pub struct RenderedCitation {
    /// The number of its note, if it stands in one.
    pub note_number: Option<NoteNumber>,
    /// The citation. Each cite that it prints is an element with the meta `Entry`, which holds the
    /// index of the cite's work.
    pub content: ElemChildren,
}

/// A bibliography, and how it is set.
#[derive(Drop)]
pub struct RenderedBibliography {
    /// Whether a work's second line and those after it are indented.
    pub hanging_indent: bool,
    /// Where the first field of a work stands, if it is apart from the others.
    pub second_field_align: Option<SecondFieldAlign>,
    /// The distance of lines, in lines.
    pub line_spacing: u32,
    /// The space between two works, in lines.
    pub entry_spacing: u32,
    /// The works, in their order.
    pub items: Vec<BibliographyItem>,
}

/// A work of a bibliography.
#[derive(Drop)]
pub struct BibliographyItem {
    /// The index of the work among the works of the document.
    pub work: usize,
    /// The number of the work, which is its place in the list.
    pub number: CitationNumber,
    /// The key of the work.
    pub key: String,
    /// The first field, if it is apart from the others.
    pub first_field: Option<ElemChildren>,
    /// The work, without the first field if that is apart.
    pub content: ElemChildren,
}
