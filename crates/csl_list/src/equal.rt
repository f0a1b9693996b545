//! Keys that are equal, found by sorting them.

ghost use Rattle.std.specs.Prelude.{◌≡◌, IfOk, length};

use csl_common::Memory;
use csl_finish::order_of;
use std::alloc::Global;

/// Whether the keys at two indices are there, and equal.
fn are_equal_at<K: Ord>(keys: &[K], one: usize, other: usize) -> bool {
    match (keys.get(one), keys.get(other)) {
        (Some(one), Some(other)) => one == other,
        _ => false,
    }
}

/// For each key the index of the first key that is equal to it.
pub(crate) fn first_equals<K: Ord + Copy + Drop>(
    alloc: Global,
    keys: &[K],
) -> Result<Vec<usize>, Memory>
    ensures { IfOk result (λ firsts. length firsts.items ≡ length keys.now) }
{
    let order = order_of(alloc, keys.to_vec(alloc)?)?;
    let mut firsts = vec![in alloc; 0; keys.len()]?;
    let mut first: usize = 0;
    for place in &order {
        if !are_equal_at(keys, first, *place) {
            first = *place;
        }
        if let Some(own) = firsts.get_mut(*place) {
            *own = first;
        }
    }
    Ok(firsts)
}
