//! Cites in a row: which of them stand together, what each leaves out that the one before it says,
//! and the text between them (CSL 1.0.2, Cite Grouping; Cite Collapsing).

ghost use Rattle.std.specs.Prelude.{◌≡◌, ◌<◌, ◌++◌, IfOk, length, get_or, map};
ghost use Rattle.std.specs.List.{range_with_len};
ghost use Rattle.csl_finish.specs.Keys.{ArePlaces};
ghost use Rattle.csl_entry.specs.Numbers.{citation_number};
ghost use Rattle.csl_list.specs.Collapse as spec;

use crate::citation::PositionedCite;
use crate::equal::first_equals;
use crate::identity::Identity;
use crate::keys::items_at;
use crate::options::{CitationOptions, Collapse};
use crate::request::CitationItem;
use csl_common::Memory;
use csl_finish::order_of;
use std::alloc::Global;

/// How a cite goes on from the cite before it in its citation.
#[derive(Clone, Copy)]
pub(crate) enum CiteLink {
    /// It says nothing that is left out.
    Apart,
    /// It has the same names, and both are printed.
    Grouped,
    /// It has the same names, and leaves them out.
    SameNames,
    /// It has the same names and year, and leaves them out.
    SameYear,
    /// The same, and its suffix follows that of the cite before it.
    NextSuffix,
    /// Its number follows that of the cite before it.
    NextNumber,
}

/// The text before a cite that is not the first.
#[derive(Clone, Copy)]
pub(crate) enum Delimiter {
    /// The delimiter of cites.
    Cites,
    /// The one between cites of the same names.
    Group,
    /// The one between year suffixes.
    YearSuffixes,
    /// The one after shortened cites.
    AfterCollapse,
    /// An en dash.
    Range,
}

/// The part of a cite that its citation prints.
#[derive(Clone, Copy)]
pub(crate) enum CitePart {
    Whole,
    WithoutNames,
    YearSuffix,
    Nothing,
}

/// A cite in its citation: the text before it, and what is printed of it.
#[derive(Clone, Copy)]
pub(crate) struct Joint {
    pub delimiter: Delimiter,
    pub part: CitePart,
}

/// Whether cites of the same names stand together.
pub(crate) fn is_grouping(options: &CitationOptions) -> bool
    ensures { result ≡ spec.is_grouping options.now }
{
    match options.collapse {
        Some(Collapse::Year | Collapse::YearSuffix | Collapse::YearSuffixRanged) => true,
        Some(Collapse::CitationNumber) => false,
        None => options.cite_group_delimiter.is_some(),
    }
}

/// Whether two cites are printed as the style has them, with no text of the author between them.
fn are_joined(before: &CitationItem<'_>, item: &CitationItem<'_>) -> bool
    ensures { result ≡ spec.are_joined before.now item.now }
{
    before.purpose.is_none()
        && before.suffix.is_none()
        && item.purpose.is_none()
        && item.prefix.is_none()
}

/// Whether neither of two cites has a locator.
fn have_no_locators(before: &CitationItem<'_>, item: &CitationItem<'_>) -> bool
    ensures { result ≡ spec.have_no_locators before.now item.now }
{
    before.locator.is_none() && item.locator.is_none()
}

/// Whether two works have the same names.
fn have_same_names(before: Identity, identity: Identity) -> bool
    ensures { result ≡ spec.have_same_names before.likeness.names identity.likeness.names }
{
    match (before.likeness.names, identity.likeness.names) {
        (Some(one), Some(other)) => one == other,
        (Some(_), None) | (None, Some(_)) | (None, None) => false,
    }
}

/// How a cite goes on from one of the same names without locators, if year suffixes are shortened.
fn suffix_link(is_ranged: bool, before: Identity, identity: Identity) -> CiteLink
    ensures { result ≡ spec.suffix_link is_ranged before identity }
{
    let (Some(one), Some(other)) = (before.year_suffix, identity.year_suffix) else {
        return CiteLink::SameNames;
    };
    if before.likeness.cite != identity.likeness.cite {
        return CiteLink::SameNames;
    }
    if is_ranged && other.saturating_sub(one) == 1 {
        CiteLink::NextSuffix
    } else {
        CiteLink::SameYear
    }
}

/// How a cite goes on from one of the same names.
fn names_link(
    collapse: Option<Collapse>,
    has_locators: bool,
    before: Identity,
    identity: Identity,
) -> CiteLink
    ensures { result ≡ spec.names_link collapse has_locators before identity }
{
    match collapse {
        None | Some(Collapse::CitationNumber) => CiteLink::Grouped,
        Some(Collapse::Year) => CiteLink::SameNames,
        Some(Collapse::YearSuffix) => {
            if has_locators {
                return CiteLink::SameNames;
            }
            suffix_link(false, before, identity)
        }
        Some(Collapse::YearSuffixRanged) => {
            if has_locators {
                return CiteLink::SameNames;
            }
            suffix_link(true, before, identity)
        }
    }
}

/// Whether the number of a work follows that of another.
fn is_next_number(before: Identity, identity: Identity) -> bool
    ensures { result ≡ spec.is_next (citation_number before.number)
        (citation_number identity.number) }
{
    identity.number.get().saturating_sub(before.number.get()) == 1
}

/// How a cite goes on from another one.
fn link_between<T>(
    options: &CitationOptions,
    before: &PositionedCite<'_, '_, T>,
    cite: &PositionedCite<'_, '_, T>,
) -> CiteLink
    ensures { result ≡ spec.link_between options.now before.now cite.now }
{
    if !are_joined(before.item, cite.item) {
        return CiteLink::Apart;
    }
    let has_locators = !have_no_locators(before.item, cite.item);
    let (one, other) = (before.identity, cite.identity);
    if is_grouping(options) {
        if !have_same_names(one, other) {
            return CiteLink::Apart;
        }
        return names_link(options.collapse, has_locators, one, other);
    }
    if options.collapse.is_some() && !has_locators && is_next_number(one, other) {
        CiteLink::NextNumber
    } else {
        CiteLink::Apart
    }
}

/// How each cite goes on from the one before it.
fn links_between<T>(
    alloc: Global,
    options: &CitationOptions,
    cites: &[PositionedCite<'_, '_, T>],
) -> Result<Vec<CiteLink>, Memory>
    ensures { IfOk result (λ links. length links.items ≡ length cites.now) }
{
    let mut links = Vec::with_capacity(alloc, cites.len())?;
    let mut before: Option<&PositionedCite<'_, '_, T>> = None;
    for cite in cites {
        links.push(match before {
            Some(before) => link_between(options, before, cite),
            None => CiteLink::Apart,
        })?;
        before = Some(cite);
    }
    Ok(links)
}

/// The link at an index. There is none beyond the last.
fn link_at(links: &[CiteLink], index: usize) -> CiteLink
    ensures { result ≡ get_or links.now index CiteLink.Apart }
{
    links.get(index).copied().unwrap_or(CiteLink::Apart)
}

/// Whether a link is one of a range.
fn is_ranged(link: CiteLink) -> bool
    ensures { result ≡ spec.is_ranged link }
{
    match link {
        CiteLink::NextSuffix | CiteLink::NextNumber => true,
        CiteLink::Apart | CiteLink::Grouped | CiteLink::SameNames | CiteLink::SameYear => false,
    }
}

/// The link of the second of two cites that are no range.
fn unranged(link: CiteLink) -> CiteLink
    ensures { result ≡ spec.unranged link }
{
    match link {
        CiteLink::NextSuffix => CiteLink::SameYear,
        CiteLink::NextNumber => CiteLink::Apart,
        CiteLink::Apart | CiteLink::Grouped | CiteLink::SameNames | CiteLink::SameYear => link,
    }
}

/// A link between its neighbours. Two cites alone are no range.
fn link_in_range(before: CiteLink, link: CiteLink, after: CiteLink) -> CiteLink
    ensures { result ≡ spec.link_in_range before link after }
{
    if is_ranged(before) || is_ranged(after) {
        link
    } else {
        unranged(link)
    }
}

/// The links without ranges of two cites.
fn with_long_ranges(alloc: Global, links: &[CiteLink]) -> Result<Vec<CiteLink>, Memory>
    ensures links { IfOk result (λ long. long.items
        ≡ map (spec.long_at links.now) (range_with_len 0 (length links.now))) }
    ensures len { IfOk result (λ long. length long.items ≡ length links.now) }
{
    let mut long = Vec::with_capacity(alloc, links.len())?;
    for (i, link) in links.iter().enumerate() {
        let before = link_at(links, i.saturating_sub(1));
        long.push(link_in_range(before, *link, link_at(links, i + 1)))?;
    }
    Ok(long)
}

/// The links of the cites of a citation.
pub(crate) fn links_of<T>(
    alloc: Global,
    options: &CitationOptions,
    cites: &[PositionedCite<'_, '_, T>],
) -> Result<Vec<CiteLink>, Memory>
    ensures { IfOk result (λ links. length links.items ≡ length cites.now) }
{
    let links = links_between(alloc, options, cites)?;
    let links = with_long_ranges(alloc, &links)?;
    Ok(links)
}

/// The text before a cite that is no part of the group of the one before it.
fn delimiter_after(before: CiteLink) -> Delimiter
    ensures { result ≡ spec.delimiter_after before }
{
    match before {
        CiteLink::Apart | CiteLink::Grouped => Delimiter::Cites,
        CiteLink::SameNames | CiteLink::SameYear | CiteLink::NextSuffix | CiteLink::NextNumber =>
            Delimiter::AfterCollapse,
    }
}

/// The text before a year of the group. After year suffixes it is that after shortened cites.
fn delimiter_of_year(before: CiteLink) -> Delimiter
    ensures { result ≡ spec.delimiter_of_year before }
{
    match before {
        CiteLink::SameYear | CiteLink::NextSuffix => Delimiter::AfterCollapse,
        CiteLink::Apart | CiteLink::Grouped | CiteLink::SameNames | CiteLink::NextNumber =>
            Delimiter::Group,
    }
}

/// A cite of a range. Between its ends nothing is printed.
fn joint_in_range(after: CiteLink, part: CitePart) -> Joint
    ensures { result ≡ spec.joint_in_range after part }
{
    Joint {
        delimiter: Delimiter::Range,
        part: if is_ranged(after) {
            CitePart::Nothing
        } else {
            part
        },
    }
}

/// A cite by its link and its neighbours' links.
fn joint_of(before: CiteLink, link: CiteLink, after: CiteLink) -> Joint
    ensures { result ≡ spec.joint_of before link after }
{
    let (delimiter, part) = match link {
        CiteLink::Apart => (delimiter_after(before), CitePart::Whole),
        CiteLink::Grouped => (Delimiter::Group, CitePart::Whole),
        CiteLink::SameNames => (delimiter_of_year(before), CitePart::WithoutNames),
        CiteLink::SameYear => (Delimiter::YearSuffixes, CitePart::YearSuffix),
        CiteLink::NextSuffix => return joint_in_range(after, CitePart::YearSuffix),
        CiteLink::NextNumber => return joint_in_range(after, CitePart::Whole),
    };
    Joint { delimiter, part }
}

/// The cite at an index, by the links.
pub(crate) fn joint_at(links: &[CiteLink], index: usize) -> Joint
    requires { index < length links.now }
    ensures { result ≡ spec.joint_at links.now index }
{
    let before = link_at(links, index.saturating_sub(1));
    joint_of(before, link_at(links, index), link_at(links, index + 1))
}

/// A text of a style, or another one if the style has none.
fn text_or<'a>(own: &'a Option<String>, other: &'a str) -> &'a str
    ensures { result.now ≡ spec.text_or own.now other.now }
{
    match own {
        Some(own) => own.as_str(),
        None => other,
    }
}

/// The text of a delimiter.
pub(crate) fn delimiter_text(options: &CitationOptions, delimiter: Delimiter) -> &str
    ensures { result.now ≡ spec.delimiter_text options.now delimiter }
{
    let whole = options.delimiter.as_str();
    match delimiter {
        Delimiter::Cites => whole,
        Delimiter::Group => text_or(&options.cite_group_delimiter, ", "),
        Delimiter::YearSuffixes => text_or(&options.year_suffix_delimiter, whole),
        Delimiter::AfterCollapse => text_or(&options.after_collapse_delimiter, whole),
        Delimiter::Range => "–",
    }
}

/// The place of the first work with the names of a cite. A cite that is not printed as the style
/// has it, or without names, has none.
fn names_of(item: &CitationItem<'_>, identities: &[Identity]) -> Option<usize> {
    if item.hidden || item.purpose.is_some() {
        return None;
    }
    let identity = identities.get(item.work)?;
    identity.likeness.names
}

/// For each cite of a citation, in this order, a number that it shares with those of the same
/// names.
fn names_keys(
    alloc: Global,
    items: &[CitationItem<'_>],
    order: &[usize],
    identities: &[Identity],
) -> Result<Vec<usize>, Memory>
    ensures { IfOk result (λ keys. length keys.items ≡ length order.now) }
{
    let mut keys = Vec::with_capacity(alloc, order.len())?;
    for (place, index) in order.iter().enumerate() {
        let names = items
            .get(*index)
            .and_then(|item| names_of(item, identities));
        // A number of its own is beyond those of all works.
        let own = identities.len().saturating_add(place);
        keys.push(names.unwrap_or(own))?;
    }
    Ok(keys)
}

/// The indices of the cites of a citation in an order, those with the same names together, at the
/// place of the first.
#[tactic(auto, using(crate::proofs::Orders::same_places, crate::proofs::Orders::places_again))]
pub(crate) fn grouped_order(
    alloc: Global,
    items: &[CitationItem<'_>],
    order: &[usize],
    identities: &[Identity],
) -> Result<Vec<usize>, Memory>
    requires { ArePlaces items.now order.now }
    ensures { IfOk result (λ grouped. ArePlaces items.now grouped.items) }
{
    let keys = names_keys(alloc, items, order, identities)?;
    let firsts = first_equals(alloc, &keys)?;
    let places = order_of(alloc, firsts)?;
    let grouped = items_at(alloc, order, &places)?;
    Ok(grouped)
}
