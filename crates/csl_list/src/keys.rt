//! The sort keys of works and cites, and their orders (CSL 1.0.2, Sorting).
//! Definitions: specs/Errors.antt.

ghost use Rattle.std.specs.Prelude.{◌≡◌, ◌<◌, IfOk, IfErr, length};
ghost use Rattle.std.specs.List.{All};
ghost use Rattle.std.specs.List.Sorted.{IsPermutation};
ghost use Rattle.csl_finish.specs.Keys.{ArePlaces};
ghost use Rattle.csl_list.specs.Errors.{IsListingError};

use crate::collation::Collation;
use crate::error::ListError;
use crate::identity::{Identity, number_at};
use crate::list_style::KeyLayout;
use crate::request::CitationItem;
use csl::Renderer;
use csl_common::Memory;
use csl_entry::{CitationNumber, EntryLike};
use csl_finish::{KeyText, SortDirection, order_of, without_case_marks};
use csl_style::Scope;
use std::alloc::Global;

/// The direction of a key.
fn direction_of(key: &KeyLayout) -> SortDirection {
    if key.is_descending {
        SortDirection::Descending
    } else {
        SortDirection::Ascending
    }
}

/// The texts of a work's keys, in no case. They are without a year suffix, which would turn the
/// order of works that differ by it alone in a descending key.
fn key_texts<T: EntryLike, C: Collation>(
    alloc: Global,
    collation: &C,
    renderer: &mut Renderer<'_>,
    work: &T,
    number: CitationNumber,
    keys: &[KeyLayout],
    scope: Scope,
) -> Result<Vec<KeyText>, ListError>
    ensures err { IfErr result IsListingError }
{
    let props = Identity::numbered(number).first_cite();
    let mut texts = Vec::with_capacity(alloc, keys.len())?;
    for key in keys {
        let text = renderer.sort_key(alloc, work, &props, &key.layout, scope, key.sorting)?;
        let text = without_case_marks(alloc, text.as_str())?;
        let sort_text = collation.sort_text(alloc, text.as_str())?;
        texts.push(KeyText::new(sort_text, text, direction_of(key)))?;
    }
    Ok(texts)
}

/// The items at these places, in their order.
#[tactic(auto, using(crate::proofs::Orders::places_within, crate::proofs::Orders::items_permuted))]
pub(crate) fn items_at(
    alloc: Global,
    items: &[usize],
    places: &[usize],
) -> Result<Vec<usize>, Memory>
    requires { ArePlaces items.now places.now }
    ensures { IfOk result (λ picked. IsPermutation items.now picked.items) }
{
    let mut picked = Vec::with_capacity(alloc, places.len())?;
    for place in places {
        picked.push(items[*place])?;
    }
    Ok(picked)
}

/// The works of a list in the order of their keys. Works that all keys are equal for stay as they
/// are. They are numbered as they are.
#[tactic(auto, using(crate::proofs::Orders::same_places))]
pub(crate) fn by_keys<T: EntryLike, C: Collation>(
    alloc: Global,
    collation: &C,
    renderer: &mut Renderer<'_>,
    keys: &[KeyLayout],
    works: &[T],
    cited: &[usize],
) -> Result<Vec<usize>, ListError>
    requires { All (λ work. work < length works.now) cited.now }
    ensures ok { IfOk result (λ order. IsPermutation cited.now order.items) }
    ensures err { IfErr result IsListingError }
{
    let mut texts = Vec::with_capacity(alloc, cited.len())?;
    for (place, index) in cited.iter().enumerate() {
        let (number, scope) = (number_at(place)?, Scope::Bibliography);
        let work = &works[*index];
        texts.push(key_texts(alloc, collation, renderer, work, number, keys, scope)?)?;
    }
    let order = order_of(alloc, texts)?;
    Ok(items_at(alloc, cited, &order)?)
}

/// For each listed work a key by its first cite. Works that are not cited come last.
fn cite_keys(
    alloc: Global,
    listed: &[usize],
    first_cites: &[Option<usize>],
) -> Result<Vec<usize>, Memory>
    ensures { IfOk result (λ keys. length keys.items ≡ length listed.now) }
{
    let mut keys = Vec::with_capacity(alloc, listed.len())?;
    for work in listed {
        let first = first_cites.get(*work).copied().flatten();
        keys.push(first.unwrap_or(usize::MAX))?;
    }
    Ok(keys)
}

/// The listed works as they are first cited.
#[tactic(auto, using(crate::proofs::Orders::same_places))]
pub(crate) fn by_first_cites(
    alloc: Global,
    listed: &[usize],
    first_cites: &[Option<usize>],
) -> Result<Vec<usize>, Memory>
    ensures { IfOk result (λ order. IsPermutation listed.now order.items) }
{
    let keys = cite_keys(alloc, listed, first_cites)?;
    let order = order_of(alloc, keys)?;
    items_at(alloc, listed, &order)
}

/// The indices of the cites of a citation, in the order in which they are printed. Cites that all
/// keys are equal for stay as the author wrote them.
#[tactic(auto, using(crate::proofs::Orders::same_places))]
pub(crate) fn printed_order<T: EntryLike, C: Collation>(
    alloc: Global,
    collation: &C,
    renderer: &mut Renderer<'_>,
    keys: &[KeyLayout],
    works: &[T],
    identities: &[Identity],
    items: &[CitationItem<'_>],
) -> Result<Vec<usize>, ListError>
    requires works { All (λ item. item.work < length works.now) items.now }
    requires identities { length identities.now ≡ length works.now }
    ensures ok { IfOk result (λ order. ArePlaces items.now order.items) }
    ensures err { IfErr result IsListingError }
{
    let mut texts = Vec::with_capacity(alloc, items.len())?;
    for item in items {
        let (work, number) = (&works[item.work], identities[item.work].number);
        texts.push(key_texts(
            alloc,
            collation,
            renderer,
            work,
            number,
            keys,
            Scope::Citation,
        )?)?;
    }
    Ok(order_of(alloc, texts)?)
}
