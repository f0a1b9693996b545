//! Page ranges.

ghost use Rattle.std.specs.Prelude.{◌≡◌, IfOk, option_map};
ghost use Rattle.lit_model.specs.Numeric.{numeric_view};
ghost use Rattle.lit_model.specs.Page as spec;

mod parse;
mod write;

use crate::numeric::Numeric;
use csl_common::Memory;
use std::alloc::Global;

/// The pages of a work.
#[derive(PartialEq, Eq, Hash, Drop)]
pub struct PageRanges {
    /// The pages, ranges and separators in order.
    pub ranges: Vec<PageRangesPart>,
}

impl PageRanges {
    /// The first page: the one that the first item begins with.
    pub fn first(&self) -> Option<&Numeric>
        ensures { option_map (λ page. numeric_view page.now) result
            ≡ spec.first_page (spec.pages_view self.now) }
    {
        for part in &self.ranges {
            if let Some(page) = part.start() {
                return Some(page);
            }
        }
        None
    }

    /// Whether a term beside the pages is in the plural: beside a range, or beside more than one
    /// part.
    pub fn is_plural(&self) -> bool
        ensures { result ≡ spec.plural_pages (spec.pages_view self.now) }
    {
        match self.ranges.as_slice() {
            [] => false,
            [part] => part.is_range(),
            _ => true,
        }
    }

    /// A copy.
    pub fn clone(&self, alloc: Global) -> Result<PageRanges, Memory>
        ensures { IfOk result (λ copy. spec.pages_view copy ≡ spec.pages_view self.now) }
    {
        let mut ranges = Vec::with_capacity(alloc, self.ranges.len())?;
        for part in &self.ranges {
            let copy = part.clone(alloc)?;
            ranges.push(copy)?;
        }
        Ok(PageRanges { ranges })
    }
}

impl PageRangesPart {
    /// The page that the item begins with; `None` for a separator.
    fn start(&self) -> Option<&Numeric>
        ensures { option_map (λ page. numeric_view page.now) result
            ≡ spec.starting_page (spec.part_view self.now) }
    {
        match self {
            PageRangesPart::Ampersand | PageRangesPart::Comma => None,
            PageRangesPart::EscapedRange(page, _)
            | PageRangesPart::SinglePage(page)
            | PageRangesPart::Range(page, _) => Some(page),
        }
    }

    /// Whether this is a range.
    fn is_range(&self) -> bool
        ensures { result ≡ spec.is_range (spec.part_view self.now) }
    {
        match self {
            PageRangesPart::Ampersand | PageRangesPart::Comma | PageRangesPart::SinglePage(_) => {
                false
            }
            PageRangesPart::EscapedRange(_, _) | PageRangesPart::Range(_, _) => true,
        }
    }

    /// A copy.
    pub fn clone(&self, alloc: Global) -> Result<PageRangesPart, Memory>
        ensures { IfOk result (λ copy. spec.part_view copy ≡ spec.part_view self.now) }
    {
        match self {
            PageRangesPart::Ampersand => Ok(PageRangesPart::Ampersand),
            PageRangesPart::Comma => Ok(PageRangesPart::Comma),
            PageRangesPart::EscapedRange(first, last) => {
                let first = first.clone(alloc)?;
                let last = last.clone(alloc)?;
                Ok(PageRangesPart::EscapedRange(first, last))
            }
            PageRangesPart::SinglePage(page) => {
                let page = page.clone(alloc)?;
                Ok(PageRangesPart::SinglePage(page))
            }
            PageRangesPart::Range(first, last) => {
                let first = first.clone(alloc)?;
                let last = last.clone(alloc)?;
                Ok(PageRangesPart::Range(first, last))
            }
        }
    }
}

/// One part of the pages of a work.
#[derive(PartialEq, Eq, Hash, Drop)]
pub enum PageRangesPart {
    /// A `&` between two items.
    Ampersand,
    /// A `,` between two items.
    Comma,
    /// A range that is written in full, regardless of the style.
    EscapedRange(Numeric, Numeric),
    /// One page.
    SinglePage(Numeric),
    /// A range of pages.
    Range(Numeric, Numeric),
}
