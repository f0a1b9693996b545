//! The works of a list, and where each is first cited.

ghost use Rattle.std.specs.Prelude.{◌≡◌, ◌<◌, ◌++◌, ℕ, IfErr, OnOk, IfOk, length, is_some, filter, get_or, None};
ghost use Rattle.std.specs.List.{All, range_with_len};
ghost use Rattle.csl_list.specs.Listed as spec;

use crate::error::ListError;
use crate::request::{CitationItem, CitationRequest};
use csl_common::Memory;
use std::alloc::Global;

/// The works that a bibliography lists.
#[derive(Clone, Copy, Debug, PartialEq, Eq, Hash)]
pub enum ListedWorks {
    /// All works of the document.
    All,
    /// The works that a citation has, also hidden.
    Cited,
}

/// The index of the first cite of a work that is not there.
fn unknown_item(items: &[CitationItem<'_>], works: usize) -> Option<usize>
    ensures { spec.IsUnknownPlace works items.now result }
{
    for (i, item) in items.iter().enumerate() {
        if works <= item.work {
            return Some(i);
        }
    }
    None
}

/// Refuses a cite of a work that is not there.
pub(crate) fn check_works(requests: &[CitationRequest<'_>], works: usize) -> Result<(), ListError>
    ensures ok { OnOk result (All (spec.AreWorksThere works) requests.now) }
    ensures refused { IfErr result (spec.IsRefusal works requests.now) }
{
    for (citation, request) in requests.iter().enumerate() {
        if let Some(item) = unknown_item(&request.items, works) {
            return Err(ListError::NoSuchWork { citation, item });
        }
    }
    Ok(())
}

/// Appends the works of the cites of a citation.
fn push_works(cited: &mut Vec<usize>, items: &[CitationItem<'_>]) -> Result<(), Memory>
    ensures { OnOk result (cited.new.items ≡ cited.old.items ++ spec.works_of items.now) }
{
    for item in items {
        cited.push(item.work)?;
    }
    Ok(())
}

/// The works of all cites, in their order.
pub(crate) fn cited_works(
    alloc: Global,
    requests: &[CitationRequest<'_>],
) -> Result<Vec<usize>, Memory>
    ensures { IfOk result (λ cited. cited.items ≡ spec.cited_works requests.now) }
{
    let mut cited = Vec::new(alloc);
    for request in requests {
        push_works(&mut cited, &request.items)?;
    }
    Ok(cited)
}

/// For each work the index of its first cite among all cites.
#[tactic(auto, using(crate::proofs::Firsts::none_noted, crate::proofs::Firsts::noted))]
pub(crate) fn first_cites(
    alloc: Global,
    cited: &[usize],
    works: usize,
) -> Result<Vec<Option<usize>>, Memory>
    requires { All (λ work. work < works) cited.now }
    ensures len { IfOk result (λ firsts. length firsts.items ≡ works) }
    ensures cited { IfOk result (λ firsts. (work : ℕ)
        → is_some (get_or firsts.items work None) ≡ spec.is_cited cited.now work) }
{
    let mut first_cites: Vec<Option<usize>> = vec![in alloc; None; works]?;
    for (place, work) in cited.iter().enumerate() {
        first_cites[*work] = first_cites[*work].or(Some(place));
    }
    Ok(first_cites)
}

/// Whether a work is listed.
fn is_listed(listed: ListedWorks, is_cited: bool) -> bool
    ensures { result ≡ spec.is_listed listed is_cited }
{
    match listed {
        ListedWorks::All => true,
        ListedWorks::Cited => is_cited,
    }
}

/// The works that are listed, by the index of the first cite of each work.
pub(crate) fn listed_works(
    alloc: Global,
    first_cites: &[Option<usize>],
    listed: ListedWorks,
) -> Result<Vec<usize>, Memory>
    ensures { IfOk result (λ works. works.items ≡ filter (λ work. spec.is_listed listed
        (is_some (get_or first_cites.now work None))) (range_with_len 0 (length first_cites.now))) }
{
    let mut works = Vec::new(alloc);
    for (work, first) in first_cites.iter().enumerate() {
        if is_listed(listed, first.is_some()) {
            works.push(work)?;
        }
    }
    Ok(works)
}
