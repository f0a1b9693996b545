//! The depth of a layout with all macros expanded (CSL 1.0.2, Macro).

ghost use Rattle.std.specs.Prelude.{◌≡◌, ◌<◌, ◌≤◌, max, IfSome, IfNone};
ghost use Rattle.csl_elements.specs.Node.{expand_layout};
ghost use Rattle.csl_elements.specs.View.{view_node, view_nodes, view_names, view_child, view_choose, view_layout};
ghost use Rattle.csl_style.specs.Expanded.{macro_env, expanded, expanded_nodes};
ghost use Rattle.csl_style.specs.Depth.{node_depth, nodes_depth, child_depth, layout_depth};
ghost use Rattle.csl_style.specs.AllWithin.{AreKnownSizes};

use crate::size::{CallSize, MacroSize, known_call};
use crate::style::Style;
use csl_elements::{Choose, Layout, LayoutRenderingElement, Names, NamesChild, TextTarget};

/// The greater of two depths.
fn deeper(a: usize, b: usize) -> usize
    ensures { result ≡ max a b }
{
    if a < b { b } else { a }
}

/// The depth of a node of this depth, or `None` if it is above `most`.
fn depth_of_call(call: CallSize, most: usize) -> Option<usize>
    ensures some { IfSome result (λ depth. (depth ≡ call.depth) × (depth ≤ most)) }
    ensures none { IfNone result (most < call.depth) }
{
    if most < call.depth {
        return None;
    }
    Some(call.depth)
}

/// The depth of an element, or `None` if it is above `most`.
#[cycle(depth)]
fn depth(
    style: &Style,
    known: &[Option<MacroSize>],
    element: &LayoutRenderingElement,
    most: usize,
) -> Option<usize>
    requires known { AreKnownSizes style.now known.now }
    ensures some { IfSome result (λ depth. (depth
        ≡ node_depth (expanded style.now (view_node element.now))) × (depth ≤ most)) }
    ensures none { IfNone result (most < node_depth
        (expanded style.now (view_node element.now))) }
{
    if let Some(call) = known_call::<false>(style, known, element) {
        return depth_of_call(call, most);
    }
    let inside = most.checked_sub(1)?;
    match element {
        LayoutRenderingElement::Text(text) => match &text.target {
            TextTarget::Macro { name } => match style.get_macro(name.as_str()) {
                Some(found) => Some(depth_of_all(style, known, &found.children, inside)? + 1),
                None => Some(1),
            },
            TextTarget::Variable { .. } | TextTarget::Term { .. } | TextTarget::Value { .. } => {
                Some(1)
            }
        },
        LayoutRenderingElement::Number(_)
        | LayoutRenderingElement::Label(_)
        | LayoutRenderingElement::Date(_) => Some(1),
        LayoutRenderingElement::Names(names) => depth_of_names(style, known, names, most),
        LayoutRenderingElement::Choose(choose) => depth_of_choose(style, known, choose, most),
        LayoutRenderingElement::Group(group) => {
            Some(depth_of_all(style, known, &group.children, inside)? + 1)
        }
    }
}

/// The depth of the deepest of a list of elements, or `None` if it is above `most`.
#[cycle(depth)]
pub(crate) fn depth_of_all(
    style: &Style,
    known: &[Option<MacroSize>],
    elements: &[LayoutRenderingElement],
    most: usize,
) -> Option<usize>
    requires known { AreKnownSizes style.now known.now }
    ensures some { IfSome result (λ depth. (depth
        ≡ nodes_depth (expanded_nodes style.now (view_nodes elements.now)))
        × (depth ≤ most)) }
    ensures none { IfNone result (most < nodes_depth
        (expanded_nodes style.now (view_nodes elements.now))) }
{
    let mut deepest = 0;
    for element in elements {
        deepest = deeper(deepest, depth(style, known, element, most)?);
    }
    Some(deepest)
}

/// The depth of a names node, or `None` if it is above `most`. Only its substitutes add to one.
#[cycle(depth)]
fn depth_of_names(
    style: &Style,
    known: &[Option<MacroSize>],
    names: &Names,
    most: usize,
) -> Option<usize>
    requires known { AreKnownSizes style.now known.now }
    ensures some { IfSome result (λ depth. (depth
        ≡ node_depth (expanded style.now (view_names names.now))) × (depth ≤ most)) }
    ensures none { IfNone result (most < node_depth
        (expanded style.now (view_names names.now))) }
{
    let inside = most.checked_sub(1)?;
    let mut deepest = 0;
    for child in &names.children {
        deepest = deeper(deepest, depth_in_child(style, known, child, inside)?);
    }
    Some(deepest + 1)
}

/// The depth of the nodes in a child of names, or `None` if it is above `most`.
#[cycle(depth)]
fn depth_in_child(
    style: &Style,
    known: &[Option<MacroSize>],
    child: &NamesChild,
    most: usize,
) -> Option<usize>
    requires known { AreKnownSizes style.now known.now }
    ensures some { IfSome result (λ depth. (depth
        ≡ child_depth (macro_env style.now) (view_child child.now)) × (depth ≤ most)) }
    ensures none { IfNone result (most < child_depth (macro_env style.now) (view_child child.now)) }
{
    match child {
        NamesChild::Name(_) | NamesChild::EtAl(_) | NamesChild::Label(_) => Some(0),
        NamesChild::Substitute(substitute) => depth_of_all(
            style,
            known,
            &substitute.children,
            most,
        ),
    }
}

/// The depth of a choose, or `None` if it is above `most`: one more than that of the deepest node
/// in its branches.
#[cycle(depth)]
fn depth_of_choose(
    style: &Style,
    known: &[Option<MacroSize>],
    choose: &Choose,
    most: usize,
) -> Option<usize>
    requires known { AreKnownSizes style.now known.now }
    ensures some { IfSome result (λ depth. (depth
        ≡ node_depth (expanded style.now (view_choose choose.now))) × (depth ≤ most)) }
    ensures none { IfNone result (most < node_depth
        (expanded style.now (view_choose choose.now))) }
{
    let inside = most.checked_sub(1)?;
    let mut deepest = depth_of_all(style, known, &choose.if_.children, inside)?;
    for branch in &choose.else_if {
        deepest = deeper(
            deepest,
            depth_of_all(style, known, &branch.children, inside)?,
        );
    }
    match &choose.otherwise {
        Some(otherwise) => Some(
            deeper(deepest, depth_of_all(style, known, otherwise, inside)?) + 1,
        ),
        None => Some(deepest + 1),
    }
}

impl Style {
    /// The depth of a layout with all macros expanded (CSL 1.0.2, Macro), or `None` if the depth is
    /// above `most`.
    ///
    /// The layout counts one, and so does each node of the longest chain of nodes in one another. A
    /// call of a macro that the style has holds the nodes of the macro.
    ///
    /// Ask this only of a layout that [`Style::expanded_size`] limits: the number of steps grows
    /// with the size, even if the depth is small. For a style from a stranger,
    /// [`Style::expanded_within`] checks both at once. The function allocates nothing, and its
    /// stack grows with the smaller of the depth and `most`.
    pub fn expanded_depth(&self, layout: &Layout, most: usize) -> Option<usize>
        ensures some { IfSome result (λ depth. (depth
            ≡ layout_depth (expand_layout (macro_env self.now) (view_layout layout.now)))
            × (depth ≤ most)) }
        ensures none { IfNone result (most
            < layout_depth (expand_layout (macro_env self.now) (view_layout layout.now))) }
    {
        Some(depth_of_all(self, &[], &layout.elements, most.checked_sub(1)?)? + 1)
    }
}
