//! The driver: from the citations of a document to its list (CSL 1.0.2, Citation; Bibliography).

ghost use Rattle.std.specs.Prelude.{◌≡◌, ◌<◌, ◌++◌, ◌∷◌, [], IfOk, IfErr, IfSome, OnOk, OnErr, length, map};
ghost use Rattle.std.specs.List.Sorted.{IsPermutation};
ghost use Rattle.std.specs.List.{All, range_with_len};
ghost use Rattle.csl_entry.specs.Numbers.{citation_number};
ghost use Rattle.csl_list.specs.Errors.{IsListingError};
ghost use Rattle.csl_list.specs.Listed.{cited_works, listed_works, AreWorksThere, IsRefusal};
ghost use Rattle.csl_list.specs.Driver as spec;

use crate::bibliography::items;
use crate::citation::rendered_citation;
use crate::collation::{Collation, Folded};
use crate::error::ListError;
use crate::identity::{Identity, identities_by};
use crate::keys::{by_first_cites, by_keys};
use crate::likeness::likenesses;
use crate::list_style::ListStyle;
use crate::listed::{ListedWorks, check_works, cited_works, first_cites, listed_works};
use crate::position::CitesSoFar;
use crate::rendered::{RenderedBibliography, RenderedCitation, RenderedList};
use crate::request::CitationRequest;
use crate::telling::telling_cites;
use crate::told::{OrderedWorks, ToldCite, ToldWorks, choices, told_works};
use crate::year_suffix::year_suffixes;
use csl::Renderer;
use csl_common::Memory;
use csl_entry::EntryLike;
use std::alloc::Global;

/// Takes the citations of a document, and renders them and the bibliography.
#[derive(Drop)]
pub struct BibliographyDriver<'d> {
    requests: Vec<CitationRequest<'d>>,
    limit: u64,
}

/// The works of a list as they are first cited.
#[tactic(auto, using(crate::proofs::Works::cited_there, crate::proofs::Works::listed_permuted))]
fn cited_order(
    alloc: Global,
    requests: &[CitationRequest<'_>],
    works: usize,
    listed: ListedWorks,
) -> Result<Vec<usize>, Memory>
    requires { All (AreWorksThere works) requests.now }
    ensures { IfOk result (λ order. IsPermutation
        (listed_works listed (cited_works requests.now) works) order.items) }
{
    let cited = cited_works(alloc, requests)?;
    let first_cites = first_cites(alloc, &cited, works)?;
    let listed = listed_works(alloc, &first_cites, listed)?;
    let order = by_first_cites(alloc, &listed, &first_cites)?;
    Ok(order)
}

/// The works of a list in their order: by the keys of the bibliography, else as they are first
/// cited.
#[tactic(auto, using(crate::proofs::Works::within_list, crate::proofs::Works::permuted_again, crate::proofs::Works::within_again))]
fn listed_order<T: EntryLike, C: Collation>(
    alloc: Global,
    collation: &C,
    renderer: &mut Renderer<'_>,
    style: &ListStyle,
    works: &[T],
    requests: &[CitationRequest<'_>],
    listed: ListedWorks,
) -> Result<Vec<usize>, ListError>
    requires { All (AreWorksThere (length works.now)) requests.now }
    ensures order { IfOk result (λ order. IsPermutation
        (listed_works listed (cited_works requests.now) (length works.now)) order.items) }
    ensures within { IfOk result (λ order. All (λ work. work < length works.now) order.items) }
    ensures err { IfErr result IsListingError }
{
    let order = cited_order(alloc, requests, works.len(), listed)?;
    let keys = style.bibliography_keys();
    if keys.is_empty() {
        return Ok(order);
    }
    let order = by_keys(alloc, collation, renderer, keys, works, &order)?;
    Ok(order)
}

/// The identities of the works of a list in this order. Works whose cites are still equal get year
/// suffixes, if the style has them, or else the branches that test `disambiguate`.
fn identities<T: EntryLike>(
    alloc: Global,
    renderer: &mut Renderer<'_>,
    style: &ListStyle,
    list: &OrderedWorks<'_, T>,
    told: &[ToldCite],
) -> Result<Vec<Identity>, ListError>
    requires { All (λ work. work < length list.now.works.now) list.now.order.now }
    ensures ok { IfOk result (λ identities. length identities.items
        ≡ length list.now.works.now) }
    ensures err { IfErr result IsListingError }
{
    let (order, works) = (list.order, list.works.len());
    let likenesses = likenesses(alloc, told)?;
    if style.citation().adds_year_suffix {
        let suffixes = year_suffixes(alloc, told)?;
        return identities_by(alloc, order, &suffixes, &[], &likenesses, works);
    }
    let choices = choices(alloc, renderer, list, told)?;
    identities_by(alloc, order, &[], &choices, &likenesses, works)
}

/// The citations in the order in which they were asked for.
fn citations_of<T: EntryLike, C: Collation>(
    alloc: Global,
    collation: &C,
    renderer: &mut Renderer<'_>,
    style: &ListStyle,
    works: &[T],
    identities: &[Identity],
    told: &ToldWorks,
    requests: &[CitationRequest<'_>],
) -> Result<Vec<RenderedCitation>, ListError>
    requires works { All (AreWorksThere (length works.now)) requests.now }
    requires identities { length identities.now ≡ length works.now }
    ensures notes { IfOk result (λ citations. map (λ citation. citation.note_number)
        citations.items ≡ map (λ request. request.note_number) requests.now) }
    ensures err { IfErr result IsListingError }
{
    let distance = style.citation().near_note_distance;
    let mut so_far = CitesSoFar::new(alloc, works.len(), distance)?;
    let mut citations = Vec::with_capacity(alloc, requests.len())?;
    for request in requests {
        let citation = rendered_citation(
            alloc,
            collation,
            renderer,
            style,
            works,
            identities,
            told,
            request,
            &mut so_far,
        )?;
        citations.push(citation)?;
    }
    Ok(citations)
}

/// The bibliography of the works in this order, if the style and its options have one.
fn bibliography_of<T: EntryLike>(
    alloc: Global,
    renderer: &mut Renderer<'_>,
    style: &ListStyle,
    works: &[T],
    identities: &[Identity],
    told: &[ToldCite],
    order: &[usize],
) -> Result<Option<RenderedBibliography>, ListError>
    requires works { All (λ work. work < length works.now) order.now }
    requires identities { length identities.now ≡ length works.now }
    ensures works { IfOk result (λ found. IfSome found (λ bibliography.
        map (λ item. item.work) bibliography.items.items ≡ order.now)) }
    ensures numbers { IfOk result (λ found. IfSome found (λ bibliography.
        map (λ item. citation_number item.number) bibliography.items.items
        ≡ range_with_len 0 (length bibliography.items.items))) }
    ensures err { IfErr result IsListingError }
{
    let Some(options) = style.bibliography() else {
        return Ok(None);
    };
    if style.style().bibliography().is_none() {
        return Ok(None);
    }
    let items = items(
        alloc, renderer, style, options, works, order, identities, told,
    )?;
    Ok(Some(RenderedBibliography {
        hanging_indent: options.hanging_indent,
        second_field_align: options.second_field_align,
        line_spacing: options.line_spacing,
        entry_spacing: options.entry_spacing,
        items,
    }))
}

/// The list of the works in this order.
fn rendered_list<T: EntryLike, C: Collation>(
    alloc: Global,
    collation: &C,
    renderer: &mut Renderer<'_>,
    style: &ListStyle,
    works: &[T],
    requests: &[CitationRequest<'_>],
    order: &[usize],
) -> Result<RenderedList, ListError>
    requires order { All (λ work. work < length works.now) order.now }
    requires works { All (AreWorksThere (length works.now)) requests.now }
    ensures notes { IfOk result (λ list. map (λ citation. citation.note_number)
        list.citations.items ≡ map (λ request. request.note_number) requests.now) }
    ensures works { IfOk result (λ list. IfSome list.bibliography (λ bibliography.
        map (λ item. item.work) bibliography.items.items ≡ order.now)) }
    ensures numbers { IfOk result (λ list. IfSome list.bibliography (λ bibliography.
        map (λ item. citation_number item.number) bibliography.items.items
        ≡ range_with_len 0 (length bibliography.items.items))) }
    ensures err { IfErr result IsListingError }
{
    let telling = telling_cites(alloc, requests, works.len())?;
    let list = OrderedWorks {
        works,
        order,
        telling: &telling,
        is_english: style.is_english(),
    };
    let told = told_works(alloc, renderer, style.citation(), &list)?;
    let identities = identities(alloc, renderer, style, &list, &told.telling)?;
    let citations = citations_of(
        alloc,
        collation,
        renderer,
        style,
        works,
        &identities,
        &told,
        requests,
    )?;
    let told = &told.telling;
    let bibliography = bibliography_of(alloc, renderer, style, works, &identities, told, order)?;
    Ok(RenderedList {
        citations,
        bibliography,
    })
}

impl<'d> BibliographyDriver<'d> {
    /// A driver without citations and without a limit.
    pub fn new(alloc: Global) -> BibliographyDriver<'d>
        ensures requests { spec.requests_of result ≡ [] }
        ensures limit { spec.limit_of result ≡ u64.MAX }
    {
        BibliographyDriver {
            requests: Vec::new(alloc),
            limit: u64::MAX,
        }
    }

    /// The driver with a limit: the cites, works and sort keys of a list may write so many bytes in
    /// all. Cites that are rendered to tell works apart count too: one of each work, and of works
    /// with equal cites up to five for each of their names. In notes it is twice as many.
    /// [`csl::context::Context::limit`] says what takes how many. Texts of the author around cites,
    /// and finishing, take none.
    pub fn limited(self, bytes: u64) -> BibliographyDriver<'d>
        ensures requests { spec.requests_of result ≡ spec.requests_of self.entry }
        ensures limit { spec.limit_of result ≡ bytes }
    {
        BibliographyDriver {
            requests: self.requests,
            limit: bytes,
        }
    }

    /// Takes the next citation of the document.
    ///
    /// # Errors
    /// [`Memory`]: out of memory. The citation is dropped, and the driver is unchanged.
    pub fn citation(&mut self, request: CitationRequest<'d>) -> Result<(), Memory>
        ensures ok { OnOk result (spec.requests_of self.new
            ≡ spec.requests_of self.old ++ request.entry ∷ []) }
        ensures err { OnErr result (spec.requests_of self.new ≡ spec.requests_of self.old) }
        ensures limit { spec.limit_of self.new ≡ spec.limit_of self.old }
    {
        self.requests.push(request)?;
        Ok(())
    }

    /// Renders the citations and the bibliography. The works are those of the whole document: a
    /// cite names its work by the index. The driver is unchanged, so that it may take more
    /// citations. The number of steps grows with the works and with the cites, and for sorting with
    /// their logarithm.
    ///
    /// # Errors
    /// [`ListError::NoSuchWork`]: a cite is of a work that is not there.
    /// [`ListError::TooManyWorks`]: there are more works than citation numbers, or more works with
    /// one cite than year suffixes.
    /// [`ListError::Limit`]: it would write more than is allowed.
    /// [`ListError::Memory`]: out of memory, here or in a work.
    pub fn finish<T: EntryLike>(
        &self,
        alloc: Global,
        style: &ListStyle,
        works: &[T],
        listed: ListedWorks,
    ) -> Result<RenderedList, ListError>
        ensures notes { IfOk result (λ list. map (λ citation. citation.note_number)
            list.citations.items
            ≡ map (λ request. request.note_number) (spec.requests_of self.now)) }
        ensures works { IfOk result (λ list. IfSome list.bibliography (λ bibliography. IsPermutation
            (listed_works listed (cited_works (spec.requests_of self.now)) (length works.now))
            (map (λ item. item.work) bibliography.items.items))) }
        ensures numbers { IfOk result (λ list. IfSome list.bibliography (λ bibliography.
            map (λ item. citation_number item.number) bibliography.items.items
            ≡ range_with_len 0 (length bibliography.items.items))) }
        ensures there { OnOk result (All (AreWorksThere (length works.now))
            (spec.requests_of self.now)) }
        ensures refused { IfErr result (IsRefusal (length works.now) (spec.requests_of self.now)) }
    {
        let list = self.finish_by(alloc, style, works, listed, &Folded)?;
        Ok(list)
    }

    /// The same, with the keys of works and cites sorted by a collation of the caller.
    ///
    /// # Errors
    /// As [`BibliographyDriver::finish`].
    pub fn finish_by<T: EntryLike, C: Collation>(
        &self,
        alloc: Global,
        style: &ListStyle,
        works: &[T],
        listed: ListedWorks,
        collation: &C,
    ) -> Result<RenderedList, ListError>
        ensures notes { IfOk result (λ list. map (λ citation. citation.note_number)
            list.citations.items
            ≡ map (λ request. request.note_number) (spec.requests_of self.now)) }
        ensures works { IfOk result (λ list. IfSome list.bibliography (λ bibliography. IsPermutation
            (listed_works listed (cited_works (spec.requests_of self.now)) (length works.now))
            (map (λ item. item.work) bibliography.items.items))) }
        ensures numbers { IfOk result (λ list. IfSome list.bibliography (λ bibliography.
            map (λ item. citation_number item.number) bibliography.items.items
            ≡ range_with_len 0 (length bibliography.items.items))) }
        ensures there { OnOk result (All (AreWorksThere (length works.now))
            (spec.requests_of self.now)) }
        ensures refused { IfErr result (IsRefusal (length works.now) (spec.requests_of self.now)) }
    {
        check_works(&self.requests, works.len())?;
        let mut renderer = Renderer::new(style.style()).limited(self.limit);
        let requests = self.requests.as_slice();
        let order = listed_order(
            alloc,
            collation,
            &mut renderer,
            style,
            works,
            requests,
            listed,
        )?;
        let list = rendered_list(
            alloc,
            collation,
            &mut renderer,
            style,
            works,
            requests,
            &order,
        )?;
        Ok(list)
    }
}
