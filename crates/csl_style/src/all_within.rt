//! Limits for a whole style from a stranger: for its layouts, and for each of its macros, since a
//! sort key may call any of them (CSL 1.0.2, Macro; Sorting).

ghost use Rattle.std.specs.Prelude.{◌≡◌, ℕ, ◌<◌, length, IfOk, IfSome, IfNone, IsTrue, IsFalse};
ghost use Rattle.csl_elements.specs.Node.{LayoutNode};
ghost use Rattle.csl_elements.specs.View.{definitions, view_nodes};
ghost use Rattle.csl_style.specs.CallGraph.{children_at};
ghost use Rattle.csl_style.specs.Expanded.{expanded_nodes};
ghost use Rattle.csl_style.specs.AllWithin.{AreKnownSizes, IsKnownSize, AreNodesWithin, IsLayoutWithin, IsAllWithin, IsOneCall, IsOneVariable};

use crate::depth::depth_of_all;
use crate::reached::nodes_at;
use crate::size::{MacroSize, is_layout_within, room_left_by_all};
use crate::style::Style;
use csl_common::Memory;
use csl_elements::LayoutRenderingElement;
use std::alloc::{AllocError, Global};

/// The size of the nodes of a macro, if a text of the macro is within the limits as a layout of its
/// own.
fn size_of_nodes(
    style: &Style,
    known: &[Option<MacroSize>],
    nodes: &[LayoutRenderingElement],
    rendered: u64,
    size: u64,
    depth: usize,
) -> Option<MacroSize>
    requires known { AreKnownSizes style.now known.now }
    ensures known { IfSome result (IsKnownSize style.now
        (expanded_nodes style.now (view_nodes nodes.now))) }
    ensures within { IfSome result (λ _. AreNodesWithin style.now rendered size depth
        (expanded_nodes style.now (view_nodes nodes.now))) }
    ensures above { IfNone result (¬ AreNodesWithin style.now rendered size depth
        (expanded_nodes style.now (view_nodes nodes.now))) }
{
    let rendered = rendered.checked_sub(3)?;
    let size = size.checked_sub(3)?;
    let depth = depth.checked_sub(2)?;
    let size_left = room_left_by_all::<false>(style, known, nodes, size, depth)?;
    let rendered_left = room_left_by_all::<true>(style, known, nodes, rendered, depth)?;
    let deepest = depth_of_all(style, known, nodes, depth)?;
    Some(MacroSize {
        all: size - size_left,
        rendered: rendered - rendered_left,
        depth: deepest,
    })
}

/// Keeps the size of the macro at a place.
#[tactic(auto, using(crate::proofs::AllWithins::known_set))]
fn keep(style: &Style, known: &mut Vec<Option<MacroSize>>, at: usize, found: MacroSize)
    requires within { at < length known.old.items }
    requires known { AreKnownSizes style.now known.old.items }
    requires size { IsKnownSize style.now (expanded_nodes style.now
        (children_at (definitions style.now.macros) at)) found }
    ensures known { AreKnownSizes style.now known.new.items }
    ensures len { length known.new.items ≡ length known.old.items }
{
    known[at] = Some(found);
}

/// The size of each macro, or `None` if one is above the limits. It goes through no macro twice if
/// each comes after those that it calls; the order changes no result.
#[tactic(auto, using(crate::proofs::AllWithins::none_known, crate::proofs::AllWithins::not_all))]
fn known_sizes(
    alloc: Global,
    style: &Style,
    order: &[usize],
    rendered: u64,
    size: u64,
    depth: usize,
) -> Result<Option<Vec<Option<MacroSize>>>, AllocError>
    ensures known { IfOk result (λ found. IfSome found
        (λ known. AreKnownSizes style.now known.items)) }
    ensures above { IfOk result (λ found. IfNone found
        (¬ IsAllWithin style.now rendered size depth)) }
{
    let macros = style.macros();
    let mut known = vec![in alloc; None; macros.len()]?;
    for at in order {
        if *at < known.len() {
            let nodes = nodes_at(macros, *at);
            match size_of_nodes(style, &known, nodes, rendered, size, depth) {
                Some(found) => keep(style, &mut known, *at, found),
                None => return Ok(None),
            }
        }
    }
    Ok(Some(known))
}

/// Whether each macro is within the limits.
#[tactic(auto, using(crate::proofs::AllWithins::not_all))]
fn are_macros_within(
    style: &Style,
    known: &[Option<MacroSize>],
    rendered: u64,
    size: u64,
    depth: usize,
) -> bool
    requires known { AreKnownSizes style.now known.now }
    ensures within { IsTrue result → (i : ℕ) → i < length style.now.macros
        → AreNodesWithin style.now rendered size depth
        (expanded_nodes style.now (children_at (definitions style.now.macros) i)) }
    ensures above { IsFalse result → ¬ IsAllWithin style.now rendered size depth }
{
    let macros = style.macros();
    for at in 0..macros.len() {
        let nodes = nodes_at(macros, at);
        if size_of_nodes(style, known, nodes, rendered, size, depth).is_none() {
            return false;
        }
    }
    true
}

impl Style {
    /// Whether all layouts that can be rendered with the style are within the limits of
    /// [`Style::rendered_within`]: that of the citation, that of the bibliography, and each that is
    /// one text of a macro or of a variable, as those of sort keys are.
    ///
    /// Check this before you render with a style from a stranger. The number of steps grows with
    /// the nodes of the style, whatever the limits are, and its stack with the smaller of the depth
    /// and its limit.
    #[tactic(auto, using(crate::proofs::AllWithins::not_citation, crate::proofs::AllWithins::not_bibliography))]
    pub fn all_within(
        &self,
        alloc: Global,
        rendered: u64,
        size: u64,
        depth: usize,
    ) -> Result<bool, Memory>
        ensures within { IfOk result (λ within. IsTrue within
            → IsAllWithin self.now rendered size depth) }
        ensures calls { IfOk result (λ within. IsTrue within
            → (l : LayoutNode) → IsOneCall l → IsLayoutWithin self.now rendered size depth l) }
        ensures variables { IfOk result (λ within. IsTrue within
            → (l : LayoutNode) → IsOneVariable l → IsLayoutWithin self.now rendered size depth l) }
        ensures above { IfOk result (λ within. IsFalse within
            → ¬ IsAllWithin self.now rendered size depth) }
    {
        if rendered < 2 || size < 2 || depth < 2 {
            return Ok(false);
        }
        let order = self.callees_first();
        let Some(known) = known_sizes(alloc, self, order, rendered, size, depth)? else {
            return Ok(false);
        };
        if !are_macros_within(self, &known, rendered, size, depth) {
            return Ok(false);
        }
        if !is_layout_within(self, &known, self.citation(), rendered, size, depth) {
            return Ok(false);
        }
        match self.bibliography() {
            Some(layout) => Ok(is_layout_within(self, &known, layout, rendered, size, depth)),
            None => Ok(true),
        }
    }
}
