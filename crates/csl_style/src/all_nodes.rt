//! A walk through all nodes of a list, at any depth (CSL 1.0.2, Rendering Elements). It keeps what
//! is left in a list, so that no style is too deep for it.

ghost use Rattle.std.specs.Prelude.{◌≡◌, [], ◌∷◌, ◌++◌, None, IfOk, IfSome, OnOk, option_map};
ghost use Rattle.csl_elements.specs.View.{view_node, view_nodes, view_choose, view_names, view_child};
ghost use Rattle.csl_style.specs.AllNodes as spec;

use csl_elements::{Choose, LayoutRenderingElement, Names, NamesChild, TextTarget};
use std::alloc::{AllocError, Global};

/// The nodes that a walk has still to go through (`remaining_nodes`).
#[derive(Drop)]
pub(crate) struct RemainingNodes<'s> {
    /// The nodes that come first, each with the nodes inside it.
    first: &'s [LayoutRenderingElement],
    /// Lists of nodes that come after them. The last list comes first.
    lists: Vec<&'s [LayoutRenderingElement]>,
}

impl<'s> RemainingNodes<'s> {
    /// All nodes of a list, at any depth.
    pub(crate) fn new(alloc: Global, nodes: &'s [LayoutRenderingElement]) -> RemainingNodes<'s>
        ensures { spec.remaining_nodes result ≡ spec.all_nodes (view_nodes nodes.now) }
    {
        RemainingNodes {
            first: nodes,
            lists: Vec::new(alloc),
        }
    }

    /// Puts the first list to the others.
    #[tactic(auto, using(crate::proofs::AllNodesLaws::next_laws))]
    fn put_off(&mut self) -> Result<(), AllocError>
        ensures { OnOk result (spec.nodes_of_lists self.new.lists.items
            ≡ spec.remaining_nodes self.old) }
    {
        if !self.first.is_empty() {
            self.lists.push(self.first)?;
        }
        Ok(())
    }

    /// Puts a list of nodes, with those inside them, before the others.
    #[tactic(auto, using(crate::proofs::AllNodesLaws::next_laws))]
    pub(crate) fn push(&mut self, nodes: &'s [LayoutRenderingElement]) -> Result<(), AllocError>
        ensures { OnOk result (spec.remaining_nodes self.new
            ≡ spec.all_nodes (view_nodes nodes.now) ++ spec.remaining_nodes self.old) }
    {
        if !nodes.is_empty() {
            self.put_off()?;
            self.first = nodes;
        }
        Ok(())
    }

    /// Puts the nodes inside a choose before the others.
    #[tactic(auto, using(crate::proofs::AllNodesLaws::choose_laws))]
    fn push_branches(&mut self, choose: &'s Choose) -> Result<(), AllocError>
        ensures { OnOk result (spec.remaining_nodes self.new
            ≡ spec.nodes_inside (view_choose choose.now) ++ spec.remaining_nodes self.old) }
    {
        if let Some(otherwise) = &choose.otherwise {
            self.push(otherwise)?;
        }
        let mut i = choose.else_if.len();
        while i > 0 {
            i -= 1;
            self.push(&choose.else_if[i].children)?;
        }
        self.push(&choose.if_.children)
    }

    /// Puts the nodes inside a child of names before the others. Only a substitute has any.
    fn push_child(&mut self, child: &'s NamesChild) -> Result<(), AllocError>
        ensures { OnOk result (spec.remaining_nodes self.new
            ≡ spec.nodes_in_child (view_child child.now) ++ spec.remaining_nodes self.old) }
    {
        match child {
            NamesChild::Name(_) | NamesChild::EtAl(_) | NamesChild::Label(_) => Ok(()),
            NamesChild::Substitute(substitute) => self.push(&substitute.children),
        }
    }

    /// Puts the nodes inside a names node before the others. They are those of its substitutes.
    #[tactic(auto, using(crate::proofs::AllNodesLaws::names_laws))]
    fn push_substitutes(&mut self, names: &'s Names) -> Result<(), AllocError>
        ensures { OnOk result (spec.remaining_nodes self.new
            ≡ spec.nodes_inside (view_names names.now) ++ spec.remaining_nodes self.old) }
    {
        let mut i = names.children.len();
        while i > 0 {
            i -= 1;
            self.push_child(&names.children[i])?;
        }
        Ok(())
    }

    /// Puts the nodes inside a node before the others.
    fn push_inside(&mut self, node: &'s LayoutRenderingElement) -> Result<(), AllocError>
        ensures { OnOk result (spec.remaining_nodes self.new
            ≡ spec.nodes_inside (view_node node.now) ++ spec.remaining_nodes self.old) }
    {
        match node {
            LayoutRenderingElement::Text(_)
            | LayoutRenderingElement::Number(_)
            | LayoutRenderingElement::Label(_)
            | LayoutRenderingElement::Date(_) => Ok(()),
            LayoutRenderingElement::Names(names) => self.push_substitutes(names),
            LayoutRenderingElement::Choose(choose) => self.push_branches(choose),
            LayoutRenderingElement::Group(group) => self.push(&group.children),
        }
    }

    /// Takes the next node.
    #[tactic(auto, using(crate::proofs::AllNodesLaws::next_laws))]
    pub(crate) fn next(&mut self) -> Result<Option<&'s LayoutRenderingElement>, AllocError>
        ensures next { IfOk result (λ next. IfSome next (λ node. spec.remaining_nodes self.old
            ≡ view_node node.now ∷ spec.remaining_nodes self.new)) }
        ensures end { IfOk result (λ next. next ≡ None
            → spec.remaining_nodes self.old ≡ []) }
    {
        while self.first.is_empty() {
            match self.lists.pop() {
                Some(list) => self.first = list,
                None => return Ok(None),
            }
        }
        match self.first.split_first() {
            Some((node, rest)) => {
                self.first = rest;
                self.push_inside(node)?;
                Ok(Some(node))
            }
            None => Ok(None),
        }
    }
}

/// The name of the macro that a node calls. The nodes inside it do not count.
pub(crate) fn called_name(node: &LayoutRenderingElement) -> Option<&str>
    ensures { option_map (λ name. name.now) result ≡ spec.called_name (view_node node.now) }
{
    match node {
        LayoutRenderingElement::Text(text) => match &text.target {
            TextTarget::Macro { name } => Some(name.as_str()),
            TextTarget::Variable { .. } | TextTarget::Term { .. } | TextTarget::Value { .. } =>
                None,
        },
        LayoutRenderingElement::Number(_)
        | LayoutRenderingElement::Label(_)
        | LayoutRenderingElement::Date(_)
        | LayoutRenderingElement::Names(_)
        | LayoutRenderingElement::Choose(_)
        | LayoutRenderingElement::Group(_) => None,
    }
}
