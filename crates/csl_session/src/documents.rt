//! The citations and the bibliography of a document (docs/HOSTS.md).

use crate::kept::Shelf;
use crate::lent::LentWork;
use crate::limits::SessionLimits;
use csl_common::Memory;
use csl_list::{
    BibliographyDriver, BibliographyItem, CitationRequest, ListError, ListStyle, ListedWorks,
    RenderedBibliography, RenderedCitation, RenderedList, SecondFieldAlign,
};
use csl_wire::{Code, Form, WireError};
use csl_wire_cite::WireEntry;
use csl_wire_list::{NamedWork, WireDocument, document_in};
use csl_wire_reply::{Formats, content_value, put, put_number, put_text};
use serde_json::{Map, Value};
use std::alloc::Global;

/// The kept works that a document names, in its order.
fn works_of<'k>(
    alloc: Global,
    shelf: &'k Shelf<WireEntry>,
    names: &[NamedWork<'_>],
) -> Result<Vec<LentWork<'k>>, WireError> {
    let mut works = Vec::with_capacity(alloc, names.len())?;
    for named in names {
        match shelf.get(named.name) {
            Some(work) => works.push(LentWork { work })?,
            None => {
                let (code, reason) = (Code::UnknownName, "no work is kept by this name");
                let error = WireError::of_word(alloc, code, reason, named.name, None);
                return Err(named.refused(error));
            }
        }
    }
    Ok(works)
}

/// A driver with the citations of a document, which may render so many bytes.
fn driver_of<'d>(
    alloc: Global,
    citations: Vec<CitationRequest<'d>>,
    room: u64,
) -> Result<BibliographyDriver<'d>, Memory> {
    let mut driver = BibliographyDriver::new(alloc).limited(room);
    for citation in citations {
        driver.citation(citation)?;
    }
    Ok(driver)
}

/// Why a document has no list.
fn of_list(alloc: Global, error: ListError) -> WireError {
    match error {
        ListError::Memory => WireError::Memory,
        ListError::Limit => WireError::of(
            alloc,
            Code::TooLarge,
            "the request renders more than is allowed",
        ),
        // Each cite has a work of the document.
        ListError::NoSuchWork { .. } | ListError::TooManyWorks => WireError::of(
            alloc,
            Code::TooLarge,
            "the document has more works than are allowed",
        ),
    }
}

/// The citations of a list, in these formats.
fn citations_value(
    alloc: Global,
    citations: Vec<RenderedCitation>,
    formats: Formats,
) -> Result<Value, WireError> {
    let mut values = Vec::with_capacity(alloc, citations.len())?;
    for citation in citations {
        values.push(content_value(alloc, citation.content, formats)?)?;
    }
    Ok(Value::Array(values))
}

/// The name of the place of a first field.
fn align_name(align: SecondFieldAlign) -> &'static str {
    match align {
        SecondFieldAlign::Flush => "flush",
        SecondFieldAlign::Margin => "margin",
    }
}

/// The name of the work at an index.
fn name_at<'v>(works: &[NamedWork<'v>], index: usize) -> &'v str {
    match works.get(index) {
        Some(work) => work.name,
        None => "",
    }
}

/// A work of the bibliography: its name, its content, and its first field, if that is apart.
fn item_value(
    alloc: Global,
    works: &[NamedWork<'_>],
    item: BibliographyItem,
    formats: Formats,
) -> Result<Value, WireError> {
    let BibliographyItem {
        work,
        number: _,
        key: _,
        first_field,
        content,
    } = item;
    let mut members = Map::new(alloc);
    put_text(alloc, &mut members, "work", name_at(works, work))?;
    let first_field = match first_field {
        Some(field) => content_value(alloc, field, formats)?,
        None => Value::Null,
    };
    put(alloc, &mut members, "first-field", first_field)?;
    let content = content_value(alloc, content, formats)?;
    put(alloc, &mut members, "content", content)?;
    Ok(Value::Object(members))
}

/// The works of the bibliography, in their order.
fn items_value(
    alloc: Global,
    works: &[NamedWork<'_>],
    items: Vec<BibliographyItem>,
    formats: Formats,
) -> Result<Value, WireError> {
    let mut values = Vec::with_capacity(alloc, items.len())?;
    for item in items {
        values.push(item_value(alloc, works, item, formats)?)?;
    }
    Ok(Value::Array(values))
}

/// A bibliography, and how it is set.
fn bibliography_value(
    alloc: Global,
    works: &[NamedWork<'_>],
    bibliography: RenderedBibliography,
    formats: Formats,
) -> Result<Value, WireError> {
    let RenderedBibliography {
        hanging_indent,
        second_field_align,
        line_spacing,
        entry_spacing,
        items,
    } = bibliography;
    let mut members = Map::new(alloc);
    let indent = Value::Bool(hanging_indent);
    put(alloc, &mut members, "hanging-indent", indent)?;
    if let Some(align) = second_field_align {
        let name = align_name(align);
        put_text(alloc, &mut members, "second-field-align", name)?;
    }
    let (lines, entries) = (u64::from(line_spacing), u64::from(entry_spacing));
    put_number(alloc, &mut members, "line-spacing", lines)?;
    put_number(alloc, &mut members, "entry-spacing", entries)?;
    let items = items_value(alloc, works, items, formats)?;
    put(alloc, &mut members, "items", items)?;
    Ok(Value::Object(members))
}

/// The names of works, in their order.
fn names_value(alloc: Global, works: &[NamedWork<'_>]) -> Result<Value, WireError> {
    let mut names = Vec::with_capacity(alloc, works.len())?;
    for work in works {
        names.push(Value::String(String::from_str(alloc, work.name)?))?;
    }
    Ok(Value::Array(names))
}

/// A list: its citations, its bibliography, if there is one, and the names of its works.
fn list_value(
    alloc: Global,
    works: &[NamedWork<'_>],
    list: RenderedList,
    formats: Formats,
) -> Result<Value, WireError> {
    let RenderedList {
        citations,
        bibliography,
    } = list;
    let mut members = Map::new(alloc);
    let bibliography = match bibliography {
        Some(bibliography) => bibliography_value(alloc, works, bibliography, formats)?,
        None => Value::Null,
    };
    put(alloc, &mut members, "bibliography", bibliography)?;
    let citations = citations_value(alloc, citations, formats)?;
    put(alloc, &mut members, "citations", citations)?;
    let names = names_value(alloc, works)?;
    put(alloc, &mut members, "works", names)?;
    Ok(Value::Object(members))
}

/// The list of a document, which the members of a request are, of kept works.
pub(crate) fn document_value(
    style: &ListStyle,
    shelf: &Shelf<WireEntry>,
    form: Form<'_>,
    limits: SessionLimits,
    formats: Formats,
) -> Result<Value, WireError> {
    let alloc = form.reader.alloc;
    let WireDocument { citations, works } = document_in(form, limits.document)?;
    let kept = works_of(alloc, shelf, works.as_slice())?;
    let driver = driver_of(alloc, citations, limits.room)?;
    match driver.finish(alloc, style, kept.as_slice(), ListedWorks::All) {
        Ok(list) => list_value(alloc, works.as_slice(), list, formats),
        Err(error) => Err(of_list(alloc, error)),
    }
}
