//! The call graph of a style's macros. The place of a macro is its index in the style's list.

ghost use Rattle.std.specs.Prelude.{◌≡◌, length, option_map, None, IfOk, if◌then◌else◌};
ghost use Rattle.csl_style.specs.Cycles.{InRange};
ghost use Rattle.csl_elements.specs.View.{definitions, view_nodes};
ghost use Rattle.csl_style.specs.Expansion.{macro_index};
ghost use Rattle.csl_style.specs.CallGraph.{calls_in_all, IsCallGraph, ArePlacesByName};
ghost use Rattle.csl_style.specs.Missing.{is_first_at, missing_in_nodes, missing_in_macros};

use crate::all_nodes::{RemainingNodes, called_name};
use crate::places::Places;
use csl_elements::{CslMacro, LayoutRenderingElement};
use std::alloc::{AllocError, Global};
use std::marker::Model;

/// The macros of a style, with the place of the first macro of each name.
#[derive(Drop)]
pub(crate) struct PlacedMacros<'s, 'p> {
    items: &'s [CslMacro],
    places: &'p Places,
}

impl<'s, 'p> Model for PlacedMacros<'s, 'p> {
    ghost use Rattle.std.specs.Prelude.{List};
    ghost use Rattle.std.specs.Coded.{codes};
    ghost use Rattle.csl_elements.specs.contracts.element.CslMacro as of_macro;
    ghost use Rattle.csl_elements.specs.declared.element.CslMacro.{CslMacro};
    ghost use Rattle.csl_elements.specs.View.{definitions};
    ghost use Rattle.csl_style.specs.CallGraph.{ArePlacesByName};

    ghost Value = { List CslMacro };

    ghost coded = { Prim.hlevel (codes, of_macro.the_row.coded) };

    ghost view = { λ m. m.items.now };

    ghost invariant = { λ m. ArePlacesByName m.places.now (definitions m.items.now) };
}

impl<'s, 'p> PlacedMacros<'s, 'p> {
    /// The macros with their places.
    pub(crate) fn new(items: &'s [CslMacro], places: &'p Places) -> PlacedMacros<'s, 'p>
        requires { ArePlacesByName places.now (definitions items.now) }
        ensures { result ≡ items.now }
    {
        PlacedMacros { items, places }
    }

    /// The macros, in order.
    fn items(&self) -> &'s [CslMacro]
        ensures { result.now ≡ self.now }
    {
        self.items
    }

    /// The place of the first macro of a name.
    fn place(&self, name: &str) -> Option<usize>
        ensures { result ≡ macro_index name.now (definitions self.now) }
    {
        self.places.get(name)
    }
}

/// The macros that nodes call.
#[derive(Drop)]
pub(crate) struct Calls<'s> {
    /// The places of those that the style has, in order.
    places: Vec<usize>,
    /// The name of the first that it does not have.
    pub(crate) missing: Option<&'s str>,
}

/// The macros that a list of elements calls, at any depth.
pub(crate) fn calls_of<'s>(
    alloc: Global,
    macros: &PlacedMacros<'_, '_>,
    elements: &'s [LayoutRenderingElement],
) -> Result<Calls<'s>, AllocError>
    ensures places { IfOk result (λ calls. calls.places.items
        ≡ calls_in_all (definitions macros.now) (view_nodes elements.now)) }
    ensures missing { IfOk result (λ calls. option_map (λ name. name.now) calls.missing
        ≡ missing_in_nodes (definitions macros.now) (view_nodes elements.now)) }
{
    let mut places = Vec::new(alloc);
    let mut missing = None;
    let mut left = RemainingNodes::new(alloc, elements);
    while let Some(node) = left.next()? {
        if let Some(name) = called_name(node) {
            match macros.place(name) {
                Some(i) => places.push(i)?,
                None => missing = missing.or(Some(name)),
            }
        }
    }
    Ok(Calls { places, missing })
}

/// The missing name in the nodes of the macro at a place, unless an earlier macro of its name hides
/// that macro.
fn unless_hidden<'s>(
    macros: &PlacedMacros<'_, '_>,
    i: usize,
    name: &str,
    missing: Option<&'s str>,
) -> Option<&'s str>
    ensures { option_map (λ name. name.now) result
        ≡ (if is_first_at (definitions macros.now) i name.now
        then option_map (λ name. name.now) missing.entry else None) }
{
    if macros.place(name) == Some(i) {
        missing
    } else {
        None
    }
}

/// The calls between the macros of a style.
#[derive(Drop)]
pub(crate) struct CallGraph<'s> {
    /// Row i lists the places that the macro at place i calls.
    pub(crate) rows: Vec<Vec<usize>>,
    /// The first name that macros call and the style does not have. A macro that an earlier one of
    /// its name hides does not count.
    pub(crate) missing: Option<&'s str>,
}

/// The calls of each macro.
pub(crate) fn call_graph<'s>(
    alloc: Global,
    macros: &PlacedMacros<'s, '_>,
) -> Result<CallGraph<'s>, AllocError>
    ensures calls { IfOk result (λ graph. IsCallGraph (definitions macros.now) graph.rows.items) }
    ensures range { IfOk result (λ graph. InRange graph.rows.items (length graph.rows.items)) }
    ensures missing { IfOk result (λ graph. option_map (λ name. name.now) graph.missing
        ≡ missing_in_macros (definitions macros.now) 0 (definitions macros.now)) }
{
    let mut rows = Vec::new(alloc);
    let mut missing = None;
    for (i, m) in macros.items().iter().enumerate() {
        let calls = calls_of(alloc, macros, &m.children)?;
        rows.push(calls.places)?;
        missing = missing.or(unless_hidden(macros, i, m.name.as_str(), calls.missing));
    }
    Ok(CallGraph { rows, missing })
}
