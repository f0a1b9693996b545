//! A citation: its cites in a row, between the style's texts (CSL 1.0.2, Citation; Layout).

ghost use Rattle.std.specs.Prelude.{◌≡◌, ◌<◌, ◌++◌, [], IfOk, IfErr, OnOk, length};
ghost use Rattle.std.specs.List.{All};
ghost use Rattle.csl_entry.specs.Cite.{cite_state};
ghost use Rattle.csl_finish.specs.Keys.{ArePlaces};
ghost use Rattle.csl_tree.specs.Tokens.{tokens};
ghost use Rattle.csl_list.specs.Errors.{IsListingError};
ghost use Rattle.csl_list.specs.Citation as spec;
ghost use Rattle.csl_list.specs.Listed.{AreWorksThere};

use crate::cases::{marked_capital, set_cases};
use crate::cite::{citation_content, cite_content};
use crate::collapse::{
    CiteLink, CitePart, delimiter_text, grouped_order, is_grouping, joint_at, links_of,
};
use crate::collation::Collation;
use crate::error::ListError;
use crate::identity::Identity;
use crate::keys::printed_order;
use crate::list_style::ListStyle;
use crate::locator::{delimit_ranges, locator_with_marks, marked_locators, range_delimiter};
use crate::options::CitationOptions;
use crate::pieces::{push_entry, push_text, push_tree};
use crate::position::{CitesSoFar, PlacedCite, Position};
use crate::rendered::RenderedCitation;
use crate::request::{CitationItem, CitationRequest, CitePurpose};
use crate::told::{ToldWorks, forms_at};
use crate::told_names::put_added_names;
use csl::Renderer;
use csl_common::Memory;
use csl_entry::{
    CertainCiteProperties, CiteProperties, EntryLike, NameDisambiguationProperties, SpecialForm,
    SpecificLocator, SpeculativeCiteProperties,
};
use csl_finish::finish;
use csl_tree::{ElemChildren, Formatting};
use std::alloc::Global;

/// A cite of a citation with what its rendering depends on.
#[derive(Drop)]
pub(crate) struct PositionedCite<'a, 'd, T> {
    pub item: &'a CitationItem<'d>,
    pub work: &'a T,
    /// Its index in the citation, as the author wrote it.
    pub index: usize,
    /// The locator that it is rendered with: between marks, if it is a range.
    pub locator: Option<SpecificLocator<'a>>,
    pub position: Position,
    pub identity: Identity,
    /// The forms of its names, if they are not those that the style itself gives.
    pub forms: Option<&'a NameDisambiguationProperties>,
}

/// The properties of a cite of a work with this identity.
fn props_by<'a, T>(
    alloc: Global,
    cite: &PositionedCite<'a, '_, T>,
    identity: Identity,
) -> Result<CiteProperties<'a>, Memory>
    ensures { IfOk result (λ props. cite_state props ≡ spec.state_by cite.now identity) }
{
    let (position, first) = (cite.position, identity.first_cite());
    let disambiguation = identity.told_by(alloc, cite.forms)?;
    Ok(CiteProperties {
        certain: CertainCiteProperties {
            first_note_number: position.first_note,
            is_first: position.is_first,
            is_near_note: position.is_near_note,
            initial_idx: cite.index,
        },
        speculative: SpeculativeCiteProperties {
            locator: cite.locator,
            ibid: position.ibid,
            disambiguation,
            ..first.speculative
        },
    })
}

/// What a citation prints of a cite.
fn content_of<T: EntryLike>(
    alloc: Global,
    renderer: &mut Renderer<'_>,
    cite: &PositionedCite<'_, '_, T>,
    part: CitePart,
) -> Result<ElemChildren, ListError>
    ensures ok { IfOk result (λ content. tokens content
        ≡ spec.content_of T.answers renderer.old.style part cite.now) }
    ensures style { renderer.new.style ≡ renderer.old.style }
    ensures err { IfErr result IsListingError }
{
    let (props, work) = (props_by(alloc, cite, cite.identity)?, cite.work);
    match part {
        CitePart::Whole => cite_content(alloc, renderer, work, &props, cite.item.purpose),
        CitePart::WithoutNames => {
            let form = Some(SpecialForm::SuppressAuthor);
            citation_content(alloc, renderer, work, &props, form)
        }
        CitePart::YearSuffix => {
            let form = Some(SpecialForm::OnlyYearSuffix);
            citation_content(alloc, renderer, work, &props, form)
        }
        CitePart::Nothing => Ok(ElemChildren::new(alloc)),
    }
}

/// Adds a text of the author, if there is one.
#[tactic(auto, using(crate::proofs::Contents::nothing_after))]
fn push_affix(
    alloc: Global,
    content: &mut ElemChildren,
    affix: &Option<ElemChildren>,
) -> Result<(), Memory>
    ensures { OnOk result (tokens content.new ≡ tokens content.old ++ spec.affix_of affix.now) }
{
    match affix {
        Some(affix) => push_tree(content, affix.clone(alloc)?)?,
        None => {}
    }
    Ok(())
}

/// Adds the delimiter, if anything is printed.
#[tactic(auto, using(crate::proofs::Contents::nothing_after))]
fn push_delimiter(
    alloc: Global,
    content: &mut ElemChildren,
    delimiter: &str,
    formatting: Formatting,
) -> Result<(), Memory>
    ensures { OnOk result (tokens content.new ≡ tokens content.old
        ++ spec.delimiter_after delimiter.now formatting (tokens content.old)) }
{
    if content.has_content() {
        push_text(alloc, content, delimiter, formatting)?;
    }
    Ok(())
}

/// Adds a cite between the texts of its author, if it prints anything, and a delimiter before it,
/// if it is not the first that does.
#[tactic(auto, using(crate::proofs::Contents::nothing_after, crate::proofs::Contents::four_after))]
fn push_cite(
    alloc: Global,
    content: &mut ElemChildren,
    item: &CitationItem<'_>,
    cite: ElemChildren,
    delimiter: &str,
    formatting: Formatting,
) -> Result<(), Memory>
    ensures { OnOk result (tokens content.new ≡ tokens content.old
        ++ spec.added_cite delimiter.now formatting (tokens content.old) item.now (tokens cite)) }
{
    if !cite.has_content() {
        return Ok(());
    }
    push_delimiter(alloc, content, delimiter, formatting)?;
    push_affix(alloc, content, &item.prefix)?;
    push_entry(content, item.work, cite)?;
    push_affix(alloc, content, &item.suffix)?;
    Ok(())
}

/// The cites of a citation in a row, by their links.
fn cites_in_a_row<T: EntryLike>(
    alloc: Global,
    renderer: &mut Renderer<'_>,
    options: &CitationOptions,
    formatting: Formatting,
    links: &[CiteLink],
    cites: &[PositionedCite<'_, '_, T>],
) -> Result<ElemChildren, ListError>
    requires { length links.now ≡ length cites.now }
    ensures ok { IfOk result (λ content. tokens content ≡ spec.cites_after T.answers
        renderer.old.style options.now formatting links.now 0 [] cites.now) }
    ensures style { renderer.new.style ≡ renderer.old.style }
    ensures err { IfErr result IsListingError }
{
    let mut content = ElemChildren::new(alloc);
    for (place, cite) in cites.iter().enumerate() {
        let joint = joint_at(links, place);
        let own = content_of(alloc, renderer, cite, joint.part)?;
        let delimiter = delimiter_text(options, joint.delimiter);
        push_cite(alloc, &mut content, cite.item, own, delimiter, formatting)?;
    }
    Ok(content)
}

/// Whether the style's texts stand around cites of which the first has this purpose.
fn has_affixes(purpose: Option<CitePurpose>) -> bool
    ensures { result ≡ spec.has_affixes purpose }
{
    match purpose {
        None | Some(CitePurpose::Prose | CitePurpose::SuppressAuthor) => true,
        Some(CitePurpose::Author | CitePurpose::Year | CitePurpose::Full) => false,
    }
}

/// Whether the author stands in the text.
fn is_prose(purpose: Option<CitePurpose>) -> bool
    ensures { result ≡ spec.is_prose purpose }
{
    match purpose {
        Some(CitePurpose::Prose) => true,
        None
        | Some(
            CitePurpose::Author
            | CitePurpose::Year
            | CitePurpose::Full
            | CitePurpose::SuppressAuthor,
        ) => false,
    }
}

/// An author and a space after it, if it prints anything.
fn with_space(alloc: Global, author: ElemChildren) -> Result<ElemChildren, Memory>
    ensures { IfOk result (λ content. tokens content ≡ spec.with_space (tokens author)) }
{
    let mut content = author;
    if !content.has_content() {
        return Ok(ElemChildren::new(alloc));
    }
    push_text(alloc, &mut content, " ", Formatting::default())?;
    Ok(content)
}

/// The author of a cite in prose, and a space. It is empty for other cites. Forms of names tell it
/// apart without a year suffix.
fn author_in_text<T: EntryLike>(
    alloc: Global,
    renderer: &mut Renderer<'_>,
    cite: &PositionedCite<'_, '_, T>,
) -> Result<ElemChildren, ListError>
    ensures ok { IfOk result (λ content. tokens content
        ≡ spec.author_of T.answers renderer.old.style cite.now) }
    ensures style { renderer.new.style ≡ renderer.old.style }
    ensures err { IfErr result IsListingError }
{
    if !is_prose(cite.item.purpose) {
        return Ok(ElemChildren::new(alloc));
    }
    let identity = if cite.forms.is_some() {
        cite.identity.unmarked()
    } else {
        cite.identity
    };
    let (props, author) = (props_by(alloc, cite, identity)?, Some(CitePurpose::Author));
    let author = cite_content(alloc, renderer, cite.work, &props, author)?;
    Ok(with_space(alloc, author)?)
}

/// The cites between the style's texts, if the first of them wants these and they print anything.
fn between_affixes(
    alloc: Global,
    options: &CitationOptions,
    formatting: Formatting,
    purpose: Option<CitePurpose>,
    inside: ElemChildren,
) -> Result<ElemChildren, Memory>
    ensures { IfOk result (λ content. tokens content
        ≡ spec.between_affixes options.now formatting purpose (tokens inside)) }
{
    if !has_affixes(purpose) || !inside.has_content() {
        return Ok(inside);
    }
    let mut content = ElemChildren::new(alloc);
    push_text(alloc, &mut content, options.prefix.as_str(), formatting)?;
    push_tree(&mut content, inside)?;
    push_text(alloc, &mut content, options.suffix.as_str(), formatting)?;
    Ok(content)
}

/// A citation of these cites before it is finished. It is empty if none of them prints anything.
fn unfinished_citation<T: EntryLike>(
    alloc: Global,
    renderer: &mut Renderer<'_>,
    options: &CitationOptions,
    formatting: Formatting,
    links: &[CiteLink],
    cites: &[PositionedCite<'_, '_, T>],
) -> Result<ElemChildren, ListError>
    requires { length links.now ≡ length cites.now }
    ensures ok { IfOk result (λ content. tokens content ≡ spec.unfinished_citation T.answers
        renderer.old.style options.now formatting links.now cites.now) }
    ensures err { IfErr result IsListingError }
{
    let inside = cites_in_a_row(alloc, renderer, options, formatting, links, cites)?;
    let Some(first) = cites.first() else {
        return Ok(inside);
    };
    let inside = between_affixes(alloc, options, formatting, first.item.purpose, inside)?;
    let mut content = author_in_text(alloc, renderer, first)?;
    push_tree(&mut content, inside)?;
    Ok(content)
}

/// The indices of the cites of a citation in the order in which they are printed: by their keys,
/// and then those of the same names together, if the style has it so.
fn cite_order<T: EntryLike, C: Collation>(
    alloc: Global,
    collation: &C,
    renderer: &mut Renderer<'_>,
    style: &ListStyle,
    works: &[T],
    identities: &[Identity],
    items: &[CitationItem<'_>],
) -> Result<Vec<usize>, ListError>
    requires works { All (λ item. item.work < length works.now) items.now }
    requires identities { length identities.now ≡ length works.now }
    ensures ok { IfOk result (λ order. ArePlaces items.now order.items) }
    ensures err { IfErr result IsListingError }
{
    let keys = style.citation_keys();
    let order = printed_order(alloc, collation, renderer, keys, works, identities, items)?;
    if !is_grouping(style.citation()) {
        return Ok(order);
    }
    let order = grouped_order(alloc, items, &order, identities)?;
    Ok(order)
}

/// The cites of a citation that are printed, in this order, with their positions. Hidden ones have
/// a position too.
#[tactic(auto, using(crate::proofs::Orders::places_within))]
fn positioned_cites<'a, 'd, T>(
    alloc: Global,
    request: &'a CitationRequest<'d>,
    order: &[usize],
    works: &'a [T],
    identities: &[Identity],
    told: &'a ToldWorks,
    marked: &'a [Option<String>],
    so_far: &mut CitesSoFar<'d>,
) -> Result<Vec<PositionedCite<'a, 'd, T>>, Memory>
    requires order { ArePlaces request.now.items.items order.now }
    requires works { AreWorksThere (length works.now) request.now }
    requires identities { length identities.now ≡ length works.now }
{
    let mut cites = Vec::with_capacity(alloc, order.len())?;
    for index in order {
        let item = &request.items[*index];
        let position = so_far.next_position(PlacedCite {
            work: item.work,
            locator: item.locator,
            note: request.note_number,
        });
        let identity = identities[item.work];
        let place = identity.number.get() as usize;
        if !item.hidden {
            cites.push(PositionedCite {
                item,
                work: &works[item.work],
                index: *index,
                locator: locator_with_marks(item, marked.get(*index)),
                position,
                identity,
                forms: forms_at(told.cites(position.is_first), place),
            })?;
        }
    }
    so_far.end_citation(order.len());
    Ok(cites)
}

/// A citation of the document. The first cite may refer to the cite before it if that stands alone.
pub(crate) fn rendered_citation<'d, T: EntryLike, C: Collation>(
    alloc: Global,
    collation: &C,
    renderer: &mut Renderer<'_>,
    style: &ListStyle,
    works: &[T],
    identities: &[Identity],
    told: &ToldWorks,
    request: &CitationRequest<'d>,
    so_far: &mut CitesSoFar<'d>,
) -> Result<RenderedCitation, ListError>
    requires works { AreWorksThere (length works.now) request.now }
    requires identities { length identities.now ≡ length works.now }
    ensures note { IfOk result (λ citation. citation.note_number ≡ request.now.note_number) }
    ensures err { IfErr result IsListingError }
{
    let options = style.citation();
    let order = cite_order(
        alloc,
        collation,
        renderer,
        style,
        works,
        identities,
        &request.items,
    )?;
    let marked = marked_locators(alloc, &request.items)?;
    let cites = positioned_cites(
        alloc, request, &order, works, identities, told, &marked, so_far,
    )?;
    let links = links_of(alloc, options, &cites)?;
    let formatting = Formatting::default().apply(style.style().citation().formatting);
    let mut content = unfinished_citation(alloc, renderer, options, formatting, &links, &cites)?;
    put_added_names(alloc, &mut content, &cites, told)?;
    if options.begins_with_capital {
        content = marked_capital(alloc, content)?;
    }
    let first = cites.first().map(|cite| cite.work);
    set_cases(alloc, &mut content, works, first, style.is_english())?;
    delimit_ranges(alloc, &mut content, range_delimiter(style.style()))?;
    finish(alloc, style.style(), &mut content)?;
    Ok(RenderedCitation {
        note_number: request.note_number,
        content,
    })
}
