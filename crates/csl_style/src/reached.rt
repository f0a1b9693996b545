//! A walk through all nodes of a layout and of each macro that it reaches (CSL 1.0.2, Macro). It
//! goes through no macro twice, and no depth takes stack.

ghost use Rattle.std.specs.Prelude.{◌≡◌, ◌<◌, [], None, length, IfOk, IfSome, OnOk};
ghost use Rattle.csl_elements.specs.View.{definitions, view_node, view_nodes};
ghost use Rattle.csl_style.specs.AllNodes.{called_name};
ghost use Rattle.csl_style.specs.CallGraph.{children_at, own_calls, ArePlacesByName};
ghost use Rattle.csl_style.specs.Expansion.{IsAcyclic};
ghost use Rattle.csl_style.specs.Reached.{IsCall, IsFirstCall, AreMarked, IsStart, Takes, nodes_left};

use crate::all_nodes::{RemainingNodes, called_name};
use crate::places::Places;
use csl_elements::{CslMacro, LayoutRenderingElement};
use std::alloc::{AllocError, Global};
use std::marker::Model;

/// The nodes of the macro at a place.
pub(crate) fn nodes_at(macros: &[CslMacro], i: usize) -> &Vec<LayoutRenderingElement>
    requires { i < length macros.now }
    ensures { view_nodes result.now.items ≡ children_at (definitions macros.now) i }
{
    &macros[i].children
}

/// The macros of a style, none of which leads back to itself, with the place of the first macro of
/// each name.
#[derive(Drop)]
pub(crate) struct AcyclicMacros<'s> {
    items: &'s [CslMacro],
    places: &'s Places,
}

impl<'s> Model for AcyclicMacros<'s> {
    ghost use Rattle.std.specs.Prelude.{List};
    ghost use Rattle.std.specs.Coded.{codes};
    ghost use Rattle.csl_elements.specs.contracts.element.CslMacro as of_macro;
    ghost use Rattle.csl_elements.specs.declared.element.CslMacro.{CslMacro};
    ghost use Rattle.csl_elements.specs.View.{definitions};
    ghost use Rattle.csl_style.specs.Expansion.{IsAcyclic};
    ghost use Rattle.csl_style.specs.CallGraph.{ArePlacesByName};

    ghost Value = { List CslMacro };

    ghost coded = { Prim.hlevel (codes, of_macro.the_row.coded) };

    ghost view = { λ m. m.items.now };

    ghost invariant = { λ m. IsAcyclic (definitions m.items.now)
        × ArePlacesByName m.places.now (definitions m.items.now) };
}

impl<'s> AcyclicMacros<'s> {
    /// The macros with their places.
    pub(crate) fn new(items: &'s [CslMacro], places: &'s Places) -> AcyclicMacros<'s>
        requires ranks { IsAcyclic (definitions items.now) }
        requires places { ArePlacesByName places.now (definitions items.now) }
        ensures { result ≡ items.now }
    {
        AcyclicMacros { items, places }
    }

    /// How many there are.
    fn len(&self) -> usize
        ensures { result ≡ length self.now }
    {
        self.items.len()
    }

    /// The place of the macro that a node calls, if the style has it.
    fn called_place(&self, node: &LayoutRenderingElement) -> Option<usize>
        ensures within { IfSome result (λ i. i < length self.now) }
        ensures call { IfSome result (IsCall (definitions self.now) (view_node node.now)) }
        ensures none { result ≡ None
            → own_calls (definitions self.now) (called_name (view_node node.now)) ≡ [] }
    {
        self.places.get(called_name(node)?)
    }

    /// The nodes of the macro at a place.
    fn nodes_at(&self, i: usize) -> &'s Vec<LayoutRenderingElement>
        requires { i < length self.now }
        ensures { view_nodes result.now.items ≡ children_at (definitions self.now) i }
    {
        nodes_at(self.items, i)
    }
}

/// The nodes that a walk through a layout has still to go through: nodes of the layout and of the
/// macros that it has reached.
#[derive(Drop)]
pub(crate) struct ReachedNodes<'s> {
    macros: &'s AcyclicMacros<'s>,
    /// Whether the macro at each place has been reached.
    seen: Vec<bool>,
    left: RemainingNodes<'s>,
}

impl<'s> ReachedNodes<'s> {
    /// All nodes of a list and of each macro that they reach.
    pub(crate) fn new(
        alloc: Global,
        macros: &'s AcyclicMacros<'s>,
        nodes: &'s [LayoutRenderingElement],
    ) -> Result<ReachedNodes<'s>, AllocError>
        ensures { IfOk result (IsStart macros.now (view_nodes nodes.now)) }
    {
        let seen = vec![in alloc; false; macros.len()]?;
        let left = RemainingNodes::new(alloc, nodes);
        Ok(ReachedNodes { macros, seen, left })
    }

    /// The nodes of the macro that a node calls, if the walk reaches it for the first time.
    fn first_reached(
        &mut self,
        node: &LayoutRenderingElement,
    ) -> Option<&'s Vec<LayoutRenderingElement>>
        requires { length self.old.seen.items ≡ length self.old.macros.now }
        ensures first { IfSome result (λ nodes. IsFirstCall (definitions self.old.macros.now)
            (view_node node.now) (view_nodes nodes.now.items)
            self.old.seen.items self.new.seen.items) }
        ensures known { result ≡ None → AreMarked self.old.seen.items
            (own_calls (definitions self.old.macros.now) (called_name (view_node node.now))) }
        ensures unchanged { result ≡ None → self.new.seen.items ≡ self.old.seen.items }
        ensures macros { self.new.macros ≡ self.old.macros }
        ensures left { self.new.left ≡ self.old.left }
    {
        let i = self.macros.called_place(node)?;
        if self.seen[i] {
            return None;
        }
        self.seen[i] = true;
        Some(self.macros.nodes_at(i))
    }

    /// Takes the next node. If it calls a macro that the walk has not reached before, the nodes of
    /// the macro come next.
    pub(crate) fn next(&mut self) -> Result<Option<&'s LayoutRenderingElement>, AllocError>
        requires { length self.old.seen.items ≡ length self.old.macros.now }
        ensures next { IfOk result (λ next. IfSome next
            (λ node. Takes (view_node node.now) self.old self.new)) }
        ensures end { IfOk result (λ next. next ≡ None → nodes_left self.old ≡ []) }
    {
        let Some(node) = self.left.next()? else {
            return Ok(None);
        };
        if let Some(nodes) = self.first_reached(node) {
            self.left.push(nodes)?;
        }
        Ok(Some(node))
    }
}
