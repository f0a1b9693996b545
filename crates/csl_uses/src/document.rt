//! The citations and the bibliography of a document, as HTML: what `csl_list` does for a style with
//! its options.

use csl::EntryLike;
use csl::style::Style;
use csl_finish::with_web_links;
use csl_list::{
    BibliographyDriver, BibliographyOptions, CitationItem, CitationOptions, CitationRequest,
    ListError, ListStyle, ListStyleError, ListedWorks, SortKey,
};
use csl_tree::{BufWriteFormat, ElemChildren};
use std::alloc::Global;

/// A style whose cites are told apart by more names, by given names and by year suffixes, and whose
/// bibliography is sorted by a macro.
///
/// # Errors
/// [`ListStyleError::NoSuchMacro`]: the style lacks the macro.
pub fn told_apart(alloc: Global, style: Style, key: &str) -> Result<ListStyle, ListStyleError> {
    let citation = CitationOptions {
        adds_names: true,
        adds_given_names: true,
        adds_year_suffix: true,
        ..CitationOptions::new(alloc)
    };
    let key = SortKey::by_macro(String::from_str(alloc, key)?);
    let bibliography = BibliographyOptions {
        keys: vec![in alloc; key]?,
        ..BibliographyOptions::new(alloc)
    };
    ListStyle::new(alloc, style, citation, Some(bibliography))
}

/// The texts of a document as HTML, with links to web addresses alone.
#[derive(Drop)]
pub struct Texts {
    /// A citation of each work.
    pub citations: Vec<String>,
    /// The bibliography, a text for each work in its order.
    pub bibliography: Vec<String>,
}

/// A content as HTML.
fn html(alloc: Global, content: ElemChildren) -> Result<String, ListError> {
    let content = with_web_links(alloc, content)?;
    Ok(content.to_text(alloc, BufWriteFormat::Html)?)
}

/// The texts of a document that cites each of these works once, in their order.
///
/// # Errors
/// [`ListError::TooManyWorks`]: there are more works than numbers or year suffixes.
pub fn texts_of<T: EntryLike>(
    alloc: Global,
    style: &ListStyle,
    works: &[T],
) -> Result<Texts, ListError> {
    let mut driver = BibliographyDriver::new(alloc);
    for work in 0..works.len() {
        let mut request = CitationRequest::new(alloc);
        request.items.push(CitationItem::new(work))?;
        driver.citation(request)?;
    }
    let list = driver.finish(alloc, style, works, ListedWorks::All)?;
    let mut texts = Texts {
        citations: Vec::new(alloc),
        bibliography: Vec::new(alloc),
    };
    for citation in list.citations {
        texts.citations.push(html(alloc, citation.content)?)?;
    }
    if let Some(bibliography) = list.bibliography {
        for item in bibliography.items {
            texts.bibliography.push(html(alloc, item.content)?)?;
        }
    }
    Ok(texts)
}
