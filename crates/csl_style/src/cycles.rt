//! The search for places of a graph that lead back to themselves. It finds macros that call
//! themselves.

ghost use Rattle.std.specs.Prelude.{◌≡◌, ◌<◌, ℕ, length, IfOk, IfSome, IsTrue, None};
ghost use Rattle.csl_style.specs.Cycles.{InRange, IsReach, IsFirstCyclicPlace, ArePlaceRanks, ArePlaceLevels, Falls, HasRanks};

use std::alloc::{AllocError, Global};

/// Returns for each place whether `from` leads to it, by one edge or more.
fn reach(alloc: Global, graph: &[Vec<usize>], from: usize) -> Result<Vec<bool>, AllocError>
    requires graph { InRange graph.now (length graph.now) }
    requires from { from < length graph.now }
    ensures { IfOk result (λ seen. IsReach graph.now from seen.items) }
{
    let mut seen = vec![in alloc; false; graph.len()]?;
    let mut found = vec![in alloc; from]?;
    let mut next = 0;
    while next < found.len() {
        let at = found[next];
        for to in &graph[at] {
            if !seen[*to] {
                seen[*to] = true;
                found.push(*to)?;
            }
        }
        next += 1;
    }
    Ok(seen)
}

/// Whether no edge leads to a place of a higher level, and each level is below the number of
/// places.
fn are_levels(graph: &[Vec<usize>], levels: &[usize]) -> bool
    requires { InRange graph.now (length graph.now) }
    ensures { IsTrue result → ArePlaceLevels graph.now levels.now }
{
    if levels.len() != graph.len() {
        return false;
    }
    for at in 0..graph.len() {
        let level = levels[at];
        if level >= graph.len() {
            return false;
        }
        for to in &graph[at] {
            if levels[*to] > level {
                return false;
            }
        }
    }
    true
}

/// The first place with an edge to a place of its own level, if there is one.
fn first_in_level(graph: &[Vec<usize>], levels: &[usize]) -> Option<usize>
    requires graph { InRange graph.now (length graph.now) }
    requires levels { ArePlaceLevels graph.now levels.now }
    ensures within { IfSome result (λ i. i < length graph.now) }
    ensures earlier { IfSome result (λ i. (k : ℕ) → k < i → Falls graph.now levels.now k) }
    ensures ranks { result ≡ None → ArePlaceRanks graph.now levels.now }
{
    for at in 0..graph.len() {
        let level = levels[at];
        for to in &graph[at] {
            if levels[*to] >= level {
                return Some(at);
            }
        }
    }
    None
}

/// The first place that leads back to itself, if there is one. It searches from each place in turn.
fn first_by_searches(alloc: Global, graph: &[Vec<usize>]) -> Result<Option<usize>, AllocError>
    requires { InRange graph.now (length graph.now) }
    ensures cyclic { IfOk result (λ found. IfSome found (IsFirstCyclicPlace graph.now)) }
    ensures ranks { IfOk result (λ found. found ≡ None → HasRanks graph.now) }
{
    for i in 0..graph.len() {
        let seen = reach(alloc, graph, i)?;
        if seen[i] {
            return Ok(Some(i));
        }
    }
    Ok(None)
}

/// The first place that leads back to itself, if there is one. Row i of the graph lists the places
/// that the edges from place i lead to. The levels are those of the graph's components: the first
/// place with an edge inside its component is the first on a cycle, and one search confirms it.
/// Other levels change no result, but cost a search from each place.
pub(crate) fn first_cyclic(
    alloc: Global,
    graph: &[Vec<usize>],
    levels: &[usize],
) -> Result<Option<usize>, AllocError>
    requires { InRange graph.now (length graph.now) }
    ensures cyclic { IfOk result (λ found. IfSome found (IsFirstCyclicPlace graph.now)) }
    ensures ranks { IfOk result (λ found. found ≡ None → HasRanks graph.now) }
{
    if are_levels(graph, levels) {
        let Some(first) = first_in_level(graph, levels) else {
            return Ok(None);
        };
        let seen = reach(alloc, graph, first)?;
        if seen[first] {
            return Ok(Some(first));
        }
    }
    first_by_searches(alloc, graph)
}
