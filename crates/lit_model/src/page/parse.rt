//! Parsing of pages.

ghost use Rattle.std.specs.Prelude.{◌≡◌, Option, List, Some, None, Err, IfOk, MatchOption, MatchResult, IsSome, option_map, count_by, chars};
ghost use Rattle.lit_model.specs.Numeric.{numeric_view};
ghost use Rattle.lit_model.specs.NumericParse.{read_of, rest_of};
ghost use Rattle.lit_model.specs.Page.{PartView, part_view, parts_view, pages_view, is_separator, SpellsPages, AreWritable};
ghost use Rattle.lit_model.specs.PageWrite.{pages_text};
ghost use Rattle.lit_model.specs.PageParse.{page_at, mark_at, separator_at, item_at, parts_at, pages_from};
ghost use Rattle.lit_model.specs.PageParse.{page_of, item_of};
ghost use Rattle.lit_model.specs.Parsing.{Gives};

use super::{PageRanges, PageRangesPart};
use crate::numeric::parse::nonempty;
use crate::numeric::{Numeric, NumericError, NumericValue};
use crate::scan;
use crate::scan::Class;
use std::alloc::{AllocError, Global};

/// A parsed page. Its texts are slices of the input.
#[derive(Clone, Copy)]
struct PageShape<'a> {
    prefix: &'a str,
    number: i32,
    suffix: &'a str,
}

/// A parsed item: a page, or the first and the last page of a range.
#[derive(Clone, Copy)]
enum ItemShape<'a> {
    Single(PageShape<'a>),
    Pair(PageShape<'a>, PageShape<'a>),
}

/// The page at the front, and the text after it.
#[tactic(auto, unfolding(crate::specs::PageParse::page_at))]
fn page(text: &str) -> Option<(PageShape<'_>, &str)>
    ensures { option_map (λ x. (page_of x.0, chars x.1.now)) result ≡ page_at (chars text.now) }
{
    let (prefix, rest) = scan::split_front(text, Class::PageAffix);
    let Some((number, rest)) = scan::integer(rest) else {
        return None;
    };
    let (suffix, rest) = scan::split_front(rest, Class::PageAffix);
    let page = PageShape {
        prefix,
        number,
        suffix,
    };
    Some((page, rest))
}

/// The text after a range mark and the white space around it.
#[tactic(auto, unfolding(crate::specs::PageParse::mark_at))]
fn after_mark(text: &str) -> Option<&str>
    ensures { option_map (λ rest. chars rest.now) result ≡ mark_at (chars text.now) }
{
    let (_, rest) = scan::split_front(text, Class::Blank);
    let Some((c, rest)) = scan::first(rest) else {
        return None;
    };
    if c != '-' && c != '–' {
        return None;
    }
    let (_, rest) = scan::split_front(rest, Class::Blank);
    Some(rest)
}

/// The separator at the front, and the text after it. White space around it is skipped.
#[tactic(auto, unfolding(crate::specs::PageParse::separator_at))]
fn separator(text: &str) -> Option<(PageRangesPart, &str)>
    ensures { option_map (λ x. (part_view x.0, chars x.1.now)) result
        ≡ separator_at (chars text.now) }
{
    let (_, rest) = scan::split_front(text, Class::Blank);
    let Some((c, rest)) = scan::first(rest) else {
        return None;
    };
    let separator = match c {
        ',' => PageRangesPart::Comma,
        '&' => PageRangesPart::Ampersand,
        _ => return None,
    };
    let (_, rest) = scan::split_front(rest, Class::Blank);
    Some((separator, rest))
}

/// The page or the range at the front, and the text after it.
#[tactic(auto, unfolding(crate::specs::PageParse::item_at, crate::specs::PageParse::item_from))]
fn item(text: &str) -> Option<(ItemShape<'_>, &str)>
    ensures { option_map (λ x. (item_of x.0, chars x.1.now)) result ≡ item_at (chars text.now) }
{
    let Some((first, rest)) = page(text) else {
        return None;
    };
    let Some(end) = after_mark(rest) else {
        return Some((ItemShape::Single(first), rest));
    };
    let Some((last, rest)) = page(end) else {
        return None;
    };
    Some((ItemShape::Pair(first, last), rest))
}

/// The text after `separators + 1` items with a separator between each two.
fn skip_parts(separators: usize, text: &str) -> Option<&str>
    ensures { option_map (λ rest. chars rest.now) result
        ≡ rest_of (parts_at separators (chars text.now)) }
{
    let mut rest = text;
    for _ in 0..separators {
        let Some((_, after)) = item(rest) else {
            return None;
        };
        let Some((_, after)) = separator(after) else {
            return None;
        };
        rest = after;
    }
    match item(rest) {
        Some((_, rest)) => Some(rest),
        None => None,
    }
}

/// The number of separator characters in the text.
fn separators(text: &str) -> usize
    ensures { result ≡ count_by is_separator (chars text.now) }
{
    text.chars().filter(|c| matches!(c, ',' | '&')).count()
}

/// The page, with copies of its texts.
fn made_page(alloc: Global, page: &PageShape<'_>) -> Result<Numeric, AllocError>
    ensures { IfOk result (λ n. numeric_view n ≡ page_of page.now) }
{
    let prefix = nonempty(alloc, page.prefix)?;
    let suffix = nonempty(alloc, page.suffix)?;
    Ok(Numeric {
        value: NumericValue::Number(page.number),
        prefix,
        suffix,
    })
}

/// The item, with copies of its texts.
fn made_item(alloc: Global, item: &ItemShape<'_>) -> Result<PageRangesPart, AllocError>
    ensures { IfOk result (λ p. part_view p ≡ item_of item.now) }
{
    match item {
        ItemShape::Single(page) => {
            let page = made_page(alloc, page)?;
            Ok(PageRangesPart::SinglePage(page))
        }
        ItemShape::Pair(first, last) => {
            let first = made_page(alloc, first)?;
            let last = made_page(alloc, last)?;
            Ok(PageRangesPart::Range(first, last))
        }
    }
}

/// The first `separators + 1` items of a text, and the separators between them.
fn parts(alloc: Global, separators: usize, text: &str) -> Result<Vec<PageRangesPart>, NumericError>
    ensures { Gives (λ v. parts_view v.items) result
        (read_of (parts_at separators (chars text.now))) }
{
    let capacity = separators.saturating_mul(2).saturating_add(1);
    let mut parts = Vec::with_capacity(alloc, capacity)?;
    let mut rest = text;
    for _ in 0..separators {
        let Some((shape, after)) = item(rest) else {
            return Err(NumericError::NotNumeric);
        };
        let Some((separator, after)) = separator(after) else {
            return Err(NumericError::NotNumeric);
        };
        let item = made_item(alloc, &shape)?;
        parts.push(item)?;
        parts.push(separator)?;
        rest = after;
    }
    let Some((shape, _)) = item(rest) else {
        return Err(NumericError::NotNumeric);
    };
    let item = made_item(alloc, &shape)?;
    parts.push(item)?;
    Ok(parts)
}

/// The number of separators and the text from the first item on; `None` if the text is not in the
/// grammar.
#[tactic(auto, unfolding(crate::specs::PageParse::pages_from))]
fn items_of(text: &str) -> Option<(usize, &str)>
    ensures { MatchOption result (pages_from (chars text.now) ≡ None)
        (λ x. IsSome (pages_from (chars text.now))
        × (read_of (parts_at x.0 (chars x.1.now)) ≡ pages_from (chars text.now))) }
{
    let separators = separators(text);
    let (_, items) = scan::split_front(text, Class::Blank);
    let Some(rest) = skip_parts(separators, items) else {
        return None;
    };
    if !scan::is_blank(rest) {
        return None;
    }
    Some((separators, items))
}

/// The pages that a text spells.
fn pages_in(alloc: Global, text: &str) -> Result<PageRanges, NumericError>
    ensures exact { Gives pages_view result (pages_from (chars text.now)) }
    ensures none { pages_from (chars text.now) ≡ None → result ≡ Err NumericError.NotNumeric }
{
    let Some((separators, items)) = items_of(text) else {
        return Err(NumericError::NotNumeric);
    };
    let ranges = parts(alloc, separators, items)?;
    Ok(PageRanges { ranges })
}

impl PageRanges {
    /// The pages that a text spells.
    ///
    /// The text is optional white space, items with a `,` or a `&` between each two, and optional
    /// white space. An item is a page, or two pages joined by a `-` or an en dash. Each separator
    /// and each joining mark may have white space around it. A page is one number with an optional
    /// prefix and suffix, as in [`Numeric::parse`], but without an en dash in them.
    ///
    /// # Errors
    /// [`NumericError::NotNumeric`]: the text spells no pages; nothing was allocated.
    /// [`NumericError::Memory`]: out of memory.
    pub fn parse(alloc: Global, text: &str) -> Result<PageRanges, NumericError>
        // The text spells the value that is returned.
        ensures found { IfOk result (λ pages. SpellsPages (pages_view pages) (chars text.now)) }
        // A value that the text spells is returned, unless memory runs out.
        ensures only { (v : List PartView) → SpellsPages v (chars text.now)
            → MatchResult result (λ pages. pages_view pages ≡ v) (λ e. e ≡ NumericError.Memory) }
        // A text spells at most one value.
        ensures unique { (v w : List PartView) → SpellsPages v (chars text.now)
            → SpellsPages w (chars text.now) → v ≡ w }
        // A text that spells no value gives `NotNumeric`, whatever the memory.
        ensures refused { ((v : List PartView) → SpellsPages v (chars text.now) → ⊥)
            → result ≡ Err NumericError.NotNumeric }
        // Each value that is returned is writable. The text that `Display` writes for a writable
        // value is read as that value, unless memory runs out.
        ensures writable { IfOk result (λ pages. AreWritable (pages_view pages)) }
        ensures again { (v : List PartView) → AreWritable v → text.now ≡ pages_text v
            → MatchResult result (λ pages. pages_view pages ≡ v) (λ e. e ≡ NumericError.Memory) }
    {
        pages_in(alloc, text)
    }
}
