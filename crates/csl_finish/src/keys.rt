//! Sort keys as data, and their order (CSL 1.0.2, Sorting).

ghost use Rattle.std.specs.Prelude.{◌≡◌, map, IfOk, IsPermutation};
ghost use Rattle.std.specs.List.Sorted.{IsSorted};
ghost use Rattle.csl_finish.specs.Keys as spec;
ghost use Rattle.csl_finish.specs.Keys.{ArePlaces, AreInOrder, by_key_then_place, placed_from};

use crate::folding::fold;
use lit_model::Memory;
use std::alloc::Global;
use std::cmp::Reverse;

/// The direction of a key (CSL 1.0.2, Sorting: sort).
#[derive(Clone, Copy, Debug, Default, PartialEq, Eq)]
pub enum SortDirection {
    /// From a to z.
    #[default]
    Ascending,
    /// From z to a.
    Descending,
}

/// The text of one key: folded, and as it is, which decides between texts that fold to one. The
/// derived order is that of the key. An empty text comes last in both directions. At one place of
/// two lists of keys, both have the same direction.
#[derive(Debug, PartialEq, Eq, PartialOrd, Ord, Drop)]
pub enum KeyText {
    /// A text of an ascending key.
    Up(String, String),
    /// A text of a descending key.
    Down(Reverse<String>, Reverse<String>),
    /// An empty text.
    Empty,
}

impl KeyText {
    /// The key of a text that was folded by the caller, for example to the key of a collation. It
    /// is [`KeyText::Empty`] if the text itself is empty.
    pub fn new(folded: String, text: String, direction: SortDirection) -> KeyText
        ensures { result ≡ spec.key_of direction folded text }
    {
        if text.is_empty() {
            return KeyText::Empty;
        }
        match direction {
            SortDirection::Ascending => KeyText::Up(folded, text),
            SortDirection::Descending => KeyText::Down(Reverse(folded), Reverse(text)),
        }
    }

    /// The key of a text, folded by [`fold`].
    ///
    /// # Errors
    /// [`Memory`]: out of memory.
    pub fn of_text(
        alloc: Global,
        text: String,
        direction: SortDirection,
    ) -> Result<KeyText, Memory> {
        let folded = fold(alloc, text.as_str())?;
        Ok(KeyText::new(folded, text, direction))
    }
}

/// The keys with their places.
#[tactic(auto, using(crate::proofs::Order::placing))]
fn placed<K: Drop>(alloc: Global, keys: Vec<K>) -> Result<Vec<(K, usize)>, Memory>
    ensures { IfOk result (λ placed. placed.items ≡ placed_from 0 keys.items) }
{
    let mut placed = Vec::with_capacity(alloc, keys.len())?;
    for key in keys {
        let place = placed.len();
        placed.push((key, place))?;
    }
    Ok(placed)
}

/// The keys with their places, sorted.
fn sorted<K: Ord + Drop>(alloc: Global, keys: Vec<K>) -> Result<Vec<(K, usize)>, Memory>
    ensures permutation { IfOk result (λ sorted. IsPermutation (placed_from 0 keys.items)
        sorted.items) }
    ensures sorted { IfOk result (λ sorted. IsSorted (by_key_then_place K.cmp) sorted.items) }
{
    let mut placed = placed(alloc, keys)?;
    placed.sort_unstable();
    Ok(placed)
}

/// The places alone.
fn places_of<K>(alloc: Global, placed: &[(K, usize)]) -> Result<Vec<usize>, Memory>
    ensures { IfOk result (λ places. places.items ≡ map (λ p. p.1) placed.now) }
{
    let mut places = Vec::with_capacity(alloc, placed.len())?;
    for pair in placed {
        places.push(pair.1)?;
    }
    Ok(places)
}

/// The places of keys in their order. Places of equal keys stay in their order.
///
/// # Errors
/// [`Memory`]: out of memory.
pub fn order_of<K: Ord + Drop>(alloc: Global, keys: Vec<K>) -> Result<Vec<usize>, Memory>
    ensures permutation { IfOk result (λ order. ArePlaces keys.items order.items) }
    ensures sorted { IfOk result (λ order. AreInOrder K.cmp keys.items order.items) }
{
    let sorted = sorted(alloc, keys)?;
    let order = places_of(alloc, &sorted)?;
    Ok(order)
}
