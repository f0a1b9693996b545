//! The size of a layout with all macros expanded, and how much of it one rendering goes through
//! (CSL 1.0.2, Macro; Choose; Localized Date Formats).

ghost use Prim.Native.Nat.{min};
ghost use Rattle.std.specs.Prelude.{◌≡◌, true, false, [], ◌+◌, ◌<◌, ◌≤◌, ◌⊎◌, length, option_map, IfSome, IfNone, IsTrue, IsFalse, if◌then◌else◌};
ghost use Rattle.csl_elements.specs.Node.{expand_layout};
ghost use Rattle.csl_elements.specs.View.{view_node, view_nodes, view_names, view_child, view_branch, view_choose, view_layout};
ghost use Rattle.csl_style.specs.Expanded.{macro_env, expanded, expanded_nodes};
ghost use Rattle.csl_style.specs.Depth.{node_depth, nodes_depth, child_depth, layout_depth};
ghost use Rattle.csl_style.specs.Size.{counted, list_weight, localized_parts, tests_weight, weight, weights, child_weight, layout_size, rendered_size};
ghost use Rattle.csl_style.specs.AllWithin.{AreKnownSizes, IsLayoutWithin};

use crate::all_nodes::called_name;
use crate::style::Style;
use csl_elements::{
    Choose, ChooseBranch, DateForm, Layout, LayoutRenderingElement, Names, NamesChild, TextTarget,
};

/// The room that is left after the items of a test.
fn room_left_by_test<T>(items: &Option<Vec<T>>, room: u64) -> Option<u64>
    ensures some { IfSome result (λ left. left
        + list_weight (option_map (λ v. v.items) items.now) ≡ room) }
    ensures none { IfNone result (room < list_weight (option_map (λ v. v.items) items.now)) }
{
    match items {
        Some(items) => room.checked_sub(items.len() as u64),
        None => Some(room),
    }
}

/// The room that is left after the tests of a branch.
fn room_left_by_tests(branch: &ChooseBranch, room: u64) -> Option<u64>
    ensures some { IfSome result (λ left. left + tests_weight (view_branch branch.now).tests
        ≡ room) }
    ensures none { IfNone result (room < tests_weight (view_branch branch.now).tests) }
{
    let left = room_left_by_test(&branch.is_numeric, room)?;
    let left = room_left_by_test(&branch.is_uncertain_date, left)?;
    let left = room_left_by_test(&branch.locator, left)?;
    let left = room_left_by_test(&branch.position, left)?;
    let left = room_left_by_test(&branch.type_, left)?;
    room_left_by_test(&branch.variable, left)
}

/// The smaller of two numbers.
fn smaller(a: u64, b: u64) -> u64
    ensures { result ≡ min a b }
{
    if a < b { a } else { b }
}

/// The parts of the style's date of a form, if they count: if `once`.
fn localized_parts(style: &Style, form: Option<DateForm>, once: bool) -> u64
    ensures { result ≡ localized_parts (counted once style.now.locales) form }
{
    if !once {
        return 0;
    }
    match form {
        Some(form) => match style.localized_date(form) {
            Some(localized) => localized.date_part.len() as u64,
            None => 0,
        },
        None => 0,
    }
}

/// The room for what comes after a branch: if `once`, that before the nodes of the branch.
fn room_for_next_branch(before: u64, after: u64, once: bool) -> u64
    ensures { result ≡ (if once then before else after) }
{
    if once { before } else { after }
}

/// What is known of the nodes of a macro: their size, how much of it one rendering goes through,
/// and their depth.
#[derive(Clone, Copy)]
pub(crate) struct MacroSize {
    pub(crate) all: u64,
    pub(crate) rendered: u64,
    pub(crate) depth: usize,
}

/// The size of a node that calls a macro, or how much of it one rendering goes through, and its
/// depth.
#[derive(Clone, Copy)]
pub(crate) struct CallSize {
    size: u64,
    pub(crate) depth: usize,
}

/// What is known of the macro that a node calls. The node is one larger, and one deeper.
fn known_macro(
    style: &Style,
    known: &[Option<MacroSize>],
    element: &LayoutRenderingElement,
) -> Option<MacroSize>
    requires known { AreKnownSizes style.now known.now }
    ensures all { IfSome result (λ found. weight false []
        (expanded style.now (view_node element.now)) ≡ found.all + 1) }
    ensures rendered { IfSome result (λ found. weight true style.now.locales
        (expanded style.now (view_node element.now)) ≡ found.rendered + 1) }
    ensures depth { IfSome result (λ found. node_depth
        (expanded style.now (view_node element.now)) ≡ found.depth + 1) }
{
    let name = called_name(element)?;
    let i = style.macro_index(name)?;
    if i < known.len() { known[i] } else { None }
}

/// The size of a node that calls a macro, if that of the macro is known.
pub(crate) fn known_call<const ONCE: bool>(
    style: &Style,
    known: &[Option<MacroSize>],
    element: &LayoutRenderingElement,
) -> Option<CallSize>
    requires known { AreKnownSizes style.now known.now }
    ensures size { IfSome result (λ call. weight ONCE (counted ONCE style.now.locales)
        (expanded style.now (view_node element.now)) ≡ call.size) }
    ensures depth { IfSome result (λ call. node_depth
        (expanded style.now (view_node element.now)) ≡ call.depth) }
{
    let found = known_macro(style, known, element)?;
    let depth = found.depth.checked_add(1)?;
    let inside = room_for_next_branch(found.rendered, found.all, ONCE);
    let size = inside.checked_add(1)?;
    Some(CallSize { size, depth })
}

/// The room that is left after a node of this size.
fn room_left_by_call(call: CallSize, room: u64, most: usize) -> Option<u64>
    ensures some { IfSome result (λ left. (left + call.size ≡ room) × (call.depth ≤ most)) }
    ensures none { IfNone result ((room < call.size) ⊎ (most < call.depth)) }
{
    if most < call.depth {
        return None;
    }
    room.checked_sub(call.size)
}

/// The room that is left after an element, or `None` if the element is larger than the room or
/// deeper than `most`. If `ONCE`, only what one rendering goes through counts.
#[cycle(size)]
fn room_left_by<const ONCE: bool>(
    style: &Style,
    known: &[Option<MacroSize>],
    element: &LayoutRenderingElement,
    room: u64,
    most: usize,
) -> Option<u64>
    requires known { AreKnownSizes style.now known.now }
    ensures some { IfSome result (λ left. (left + weight ONCE (counted ONCE style.now.locales)
        (expanded style.now (view_node element.now)) ≡ room)
        × (node_depth (expanded style.now (view_node element.now)) ≤ most)) }
    ensures none { IfNone result ((room < weight ONCE (counted ONCE style.now.locales)
        (expanded style.now (view_node element.now)))
        ⊎ (most < node_depth (expanded style.now (view_node element.now)))) }
{
    if let Some(call) = known_call::<ONCE>(style, known, element) {
        return room_left_by_call(call, room, most);
    }
    let inside = most.checked_sub(1)?;
    match element {
        LayoutRenderingElement::Text(text) => match &text.target {
            TextTarget::Macro { name } => match style.get_macro(name.as_str()) {
                Some(found) => room_left_by_all::<ONCE>(
                    style,
                    known,
                    &found.children,
                    room.checked_sub(1)?,
                    inside,
                ),
                None => Some(room),
            },
            TextTarget::Variable { .. } | TextTarget::Term { .. } | TextTarget::Value { .. } => {
                Some(room)
            }
        },
        LayoutRenderingElement::Number(_) | LayoutRenderingElement::Label(_) => Some(room),
        LayoutRenderingElement::Date(date) => room
            .checked_sub(date.date_part.len() as u64)?
            .checked_sub(localized_parts(style, date.form, ONCE)),
        LayoutRenderingElement::Names(names) => room_left_by_names::<ONCE>(
            style, known, names, room, most,
        ),
        LayoutRenderingElement::Choose(choose) => room_left_by_choose::<ONCE>(
            style, known, choose, room, most,
        ),
        LayoutRenderingElement::Group(group) => {
            room_left_by_all::<ONCE>(style, known, &group.children, room.checked_sub(1)?, inside)
        }
    }
}

/// The room that is left after a list of elements. Each counts one more than its own size.
#[cycle(size)]
pub(crate) fn room_left_by_all<const ONCE: bool>(
    style: &Style,
    known: &[Option<MacroSize>],
    elements: &[LayoutRenderingElement],
    room: u64,
    most: usize,
) -> Option<u64>
    requires known { AreKnownSizes style.now known.now }
    ensures some { IfSome result (λ left. (left
        + weights ONCE (counted ONCE style.now.locales)
        (expanded_nodes style.now (view_nodes elements.now)) ≡ room)
        × (nodes_depth (expanded_nodes style.now (view_nodes elements.now)) ≤ most)) }
    ensures none { IfNone result ((room < weights ONCE (counted ONCE style.now.locales)
        (expanded_nodes style.now (view_nodes elements.now)))
        ⊎ (most < nodes_depth (expanded_nodes style.now (view_nodes elements.now)))) }
{
    let mut left = room;
    for element in elements {
        left = room_left_by::<ONCE>(style, known, element, left.checked_sub(1)?, most)?;
    }
    Some(left)
}

/// The room that is left after a names node, which counts one, and one more for each variable.
#[cycle(size)]
fn room_left_by_names<const ONCE: bool>(
    style: &Style,
    known: &[Option<MacroSize>],
    names: &Names,
    room: u64,
    most: usize,
) -> Option<u64>
    requires known { AreKnownSizes style.now known.now }
    ensures some { IfSome result (λ left. (left
        + weight ONCE (counted ONCE style.now.locales)
        (expanded style.now (view_names names.now)) ≡ room)
        × (node_depth (expanded style.now (view_names names.now)) ≤ most)) }
    ensures none { IfNone result ((room < weight ONCE (counted ONCE style.now.locales)
        (expanded style.now (view_names names.now)))
        ⊎ (most < node_depth (expanded style.now (view_names names.now)))) }
{
    let inside = most.checked_sub(1)?;
    let mut left = room
        .checked_sub(1)?
        .checked_sub(names.variable.len() as u64)?;
    for child in &names.children {
        left = room_left_by_child::<ONCE>(style, known, child, left, inside)?;
    }
    Some(left)
}

/// The room that is left after a child of a names node. Each counts one, and a name its parts and a
/// substitute the elements in it too.
#[cycle(size)]
fn room_left_by_child<const ONCE: bool>(
    style: &Style,
    known: &[Option<MacroSize>],
    child: &NamesChild,
    room: u64,
    most: usize,
) -> Option<u64>
    requires known { AreKnownSizes style.now known.now }
    ensures some { IfSome result (λ left. (left
        + child_weight ONCE (counted ONCE style.now.locales) (macro_env style.now)
        (view_child child.now) ≡ room)
        × (child_depth (macro_env style.now) (view_child child.now) ≤ most)) }
    ensures none { IfNone result ((room
        < child_weight ONCE (counted ONCE style.now.locales) (macro_env style.now)
        (view_child child.now))
        ⊎ (most < child_depth (macro_env style.now) (view_child child.now))) }
{
    match child {
        NamesChild::Name(name) => room.checked_sub(1)?.checked_sub(name.parts.len() as u64),
        NamesChild::EtAl(_) | NamesChild::Label(_) => room.checked_sub(1),
        NamesChild::Substitute(substitute) => {
            room_left_by_all::<ONCE>(
                style,
                known,
                &substitute.children,
                room.checked_sub(1)?,
                most,
            )
        }
    }
}

/// The room that is left after a choose, which counts one, and one more for each branch, `cs:else`
/// included. A rendering goes through the tests of the branches in order, and through one branch.
#[cycle(size)]
fn room_left_by_choose<const ONCE: bool>(
    style: &Style,
    known: &[Option<MacroSize>],
    choose: &Choose,
    room: u64,
    most: usize,
) -> Option<u64>
    requires known { AreKnownSizes style.now known.now }
    ensures some { IfSome result (λ left. (left
        + weight ONCE (counted ONCE style.now.locales)
        (expanded style.now (view_choose choose.now)) ≡ room)
        × (node_depth (expanded style.now (view_choose choose.now)) ≤ most)) }
    ensures none { IfNone result ((room < weight ONCE (counted ONCE style.now.locales)
        (expanded style.now (view_choose choose.now)))
        ⊎ (most < node_depth (expanded style.now (view_choose choose.now)))) }
{
    let inside = most.checked_sub(1)?;
    let left = room_left_by_tests(&choose.if_, room.checked_sub(1)?.checked_sub(1)?)?;
    let mut least = room_left_by_all::<ONCE>(style, known, &choose.if_.children, left, inside)?;
    let mut next = room_for_next_branch(left, least, ONCE);
    for branch in &choose.else_if {
        let left = room_left_by_tests(branch, next.checked_sub(1)?)?;
        let after = room_left_by_all::<ONCE>(style, known, &branch.children, left, inside)?;
        next = room_for_next_branch(left, after, ONCE);
        least = smaller(least, after);
    }
    match &choose.otherwise {
        Some(otherwise) => {
            let after = room_left_by_all::<ONCE>(
                style,
                known,
                otherwise,
                next.checked_sub(1)?,
                inside,
            )?;
            Some(smaller(least, after))
        }
        None => Some(smaller(least, next)),
    }
}

/// The room that is left after a layout, which counts one, or `None` if the layout is larger than
/// the room or deeper than `most`.
fn room_left_by_layout(
    style: &Style,
    known: &[Option<MacroSize>],
    layout: &Layout,
    room: u64,
    most: usize,
) -> Option<u64>
    requires known { AreKnownSizes style.now known.now }
    ensures some { IfSome result (λ left. (left
        + layout_size (expand_layout (macro_env style.now) (view_layout layout.now)) ≡ room)
        × (layout_depth (expand_layout (macro_env style.now) (view_layout layout.now)) ≤ most)) }
    ensures none { IfNone result ((room
        < layout_size (expand_layout (macro_env style.now) (view_layout layout.now)))
        ⊎ (most < layout_depth (expand_layout (macro_env style.now) (view_layout layout.now)))) }
{
    let left = room.checked_sub(1)?;
    let inside = most.checked_sub(1)?;
    room_left_by_all::<false>(style, known, &layout.elements, left, inside)
}

/// Whether a layout is within limits of what one rendering goes through, of its size and of its
/// depth.
pub(crate) fn is_layout_within(
    style: &Style,
    known: &[Option<MacroSize>],
    layout: &Layout,
    rendered: u64,
    size: u64,
    depth: usize,
) -> bool
    requires known { AreKnownSizes style.now known.now }
    ensures within { IsTrue result → IsLayoutWithin style.now rendered size depth
        (view_layout layout.now) }
    ensures above { IsFalse result → (rendered < rendered_size style.now.locales
        (expand_layout (macro_env style.now) (view_layout layout.now)))
        ⊎ ((size < layout_size (expand_layout (macro_env style.now) (view_layout layout.now)))
        ⊎ (depth < layout_depth (expand_layout (macro_env style.now) (view_layout layout.now)))) }
{
    if room_left_by_layout(style, known, layout, size, depth).is_none() {
        return false;
    }
    match rendered.checked_sub(1) {
        Some(left) => {
            room_left_by_all::<true>(style, known, &layout.elements, left, depth).is_some()
        }
        None => false,
    }
}

impl Style {
    /// The size of a layout with all macros expanded (CSL 1.0.2, Macro), or `None` if the size is
    /// above `most`.
    ///
    /// The layout counts one, and so does each node of a list. A group, a names node, a choose and
    /// a call of a macro that the style has count one more. So does each branch, `cs:else`
    /// included. The lists that a node holds count too: each part of a date, each item of a test,
    /// and each variable, each child and each `cs:name-part` of a names node.
    ///
    /// Within a limit of depth, the time and memory of a rendering are bounded by this size times
    /// what the entry, the texts of the style and its locales hold. Forty macros that each call the
    /// next twice have a size above 2^40. The function allocates nothing. Its number of steps grows
    /// with the smaller of the size and `most`, and so does its stack. [`Style::expanded_within`]
    /// limits the stack too.
    #[tactic(auto, using(crate::proofs::DepthsWithin::nodes_within))]
    pub fn expanded_size(&self, layout: &Layout, most: u64) -> Option<u64>
        ensures some { IfSome result (λ size. (size
            ≡ layout_size (expand_layout (macro_env self.now) (view_layout layout.now))) ×
            (size ≤ most)) }
        ensures none { IfNone result (most
            < layout_size (expand_layout (macro_env self.now) (view_layout layout.now))) }
    {
        let left = room_left_by_layout(self, &[], layout, most, usize::MAX)?;
        Some(most - left)
    }

    /// Whether a layout with all macros expanded has at most this size and this depth, as
    /// [`Style::expanded_size`] and [`Style::expanded_depth`] count them.
    ///
    /// The function allocates nothing. Its number of steps grows with the smaller of the size and
    /// its limit, and its stack with the smaller of the depth and its limit.
    /// [`Style::rendered_within`] limits what one rendering takes of this size too.
    pub fn expanded_within(&self, layout: &Layout, size: u64, depth: usize) -> bool
        ensures within { IsTrue result
            → (layout_size (expand_layout (macro_env self.now) (view_layout layout.now)) ≤ size)
            × (layout_depth (expand_layout (macro_env self.now) (view_layout layout.now)) ≤ depth) }
        ensures above { IsFalse result
            → (size < layout_size (expand_layout (macro_env self.now) (view_layout layout.now)))
            ⊎ (depth < layout_depth (expand_layout (macro_env self.now) (view_layout layout.now))) }
    {
        room_left_by_layout(self, &[], layout, size, depth).is_some()
    }

    /// Whether a layout with all macros expanded has at most the size `all` and the depth `depth`,
    /// as in [`Style::expanded_within`], and one rendering goes through at most `size` of it.
    ///
    /// A rendering takes one branch of a choose, so of its branches only the largest way through
    /// counts: the tests up to a branch, and the nodes of that branch. A localized date counts the
    /// parts of the style's date of its form too.
    ///
    /// Check this before you render with a style from a stranger. It does not count locales, texts
    /// and what an entry holds: limit the style's file and the entry too. The function allocates
    /// nothing. Its number of steps grows with the smaller of the size of the layout and `all`,
    /// times the locales and dates that the lookup of a localized date goes through, and its stack
    /// with the smaller of the depth and its limit. Forty macros that each call the next in two
    /// branches have a small `size`, but `all` has to be above 2^40.
    pub fn rendered_within(&self, layout: &Layout, size: u64, all: u64, depth: usize) -> bool
        ensures within { IsTrue result → (rendered_size self.now.locales
            (expand_layout (macro_env self.now) (view_layout layout.now)) ≤ size)
            × (layout_size (expand_layout (macro_env self.now) (view_layout layout.now)) ≤ all)
            × (layout_depth (expand_layout (macro_env self.now) (view_layout layout.now)) ≤ depth) }
        ensures above { IsFalse result → (size < rendered_size self.now.locales
            (expand_layout (macro_env self.now) (view_layout layout.now)))
            ⊎ ((all < layout_size (expand_layout (macro_env self.now) (view_layout layout.now)))
            ⊎ (depth < layout_depth (expand_layout (macro_env self.now) (view_layout layout.now)))) }
    {
        is_layout_within(self, &[], layout, size, all, depth)
    }
}
