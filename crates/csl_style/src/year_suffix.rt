//! Whether a layout reaches a text of the year suffix (CSL 1.0.2, Disambiguation). If it does, that
//! text renders the suffix. Otherwise the suffix comes after the first year.

ghost use Rattle.std.specs.Prelude.{◌≡◌, IfOk, Some, option_copied};
ghost use Rattle.csl_elements.specs.Node.{expand_nodes};
ghost use Rattle.csl_elements.specs.View.{definitions, view_node, view_nodes};
ghost use Rattle.csl_style.specs.Expansion.{macro_expansion};
ghost use Rattle.csl_style.specs.YearSuffix as spec;
ghost use Rattle.csl_style.specs.AllNodes.{is_suffix_text};

use crate::reached::{AcyclicMacros, ReachedNodes};
use csl_elements::{Layout, LayoutRenderingElement, StandardVariable, TextTarget, Variable};
use std::alloc::{AllocError, Global};

/// Whether the variable is the year suffix.
fn is_year_suffix(variable: Variable) -> bool
    ensures { result ≡ spec.is_year_suffix variable }
{
    matches!(variable, Variable::Standard(StandardVariable::YearSuffix))
}

/// Whether a node is a text of the year suffix. The nodes inside it do not count.
fn is_suffix_text(node: &LayoutRenderingElement) -> bool
    ensures { result ≡ is_suffix_text (view_node node.now) }
{
    match node {
        LayoutRenderingElement::Text(text) => match &text.target {
            TextTarget::Variable { var, .. } => is_year_suffix(*var),
            TextTarget::Macro { .. } | TextTarget::Term { .. } | TextTarget::Value { .. } => false,
        },
        LayoutRenderingElement::Number(_)
        | LayoutRenderingElement::Label(_)
        | LayoutRenderingElement::Date(_)
        | LayoutRenderingElement::Names(_)
        | LayoutRenderingElement::Choose(_)
        | LayoutRenderingElement::Group(_) => false,
    }
}

/// Whether a text of the year suffix is in any of the elements, at any depth, or in a macro that
/// they reach.
fn any_has_year_suffix<'s>(
    alloc: Global,
    macros: &'s AcyclicMacros<'s>,
    elements: &'s [LayoutRenderingElement],
) -> Result<bool, AllocError>
    ensures { IfOk result (λ has. has ≡ spec.any_has_year_suffix
        (expand_nodes (macro_expansion (definitions macros.now)) (view_nodes elements.now))) }
{
    let mut reached = ReachedNodes::new(alloc, macros, elements)?;
    while let Some(node) = reached.next()? {
        if is_suffix_text(node) {
            return Ok(true);
        }
    }
    Ok(false)
}

/// Whether the suffix comes after the first year in a layout, or in a scope without one.
fn is_implicit<'s>(
    alloc: Global,
    macros: &'s AcyclicMacros<'s>,
    layout: Option<&'s Layout>,
) -> Result<bool, AllocError>
    ensures { IfOk result (λ is. is
        ≡ spec.is_implicit_in (definitions macros.now) (option_copied layout.entry)) }
{
    match layout {
        Some(layout) => {
            let has = any_has_year_suffix(alloc, macros, &layout.elements)?;
            Ok(!has)
        }
        None => Ok(true),
    }
}

/// For each scope, whether the year suffix comes after the first year that is printed.
#[derive(Drop)]
pub(crate) struct ImplicitSuffix {
    pub(crate) in_citation: bool,
    pub(crate) in_bibliography: bool,
}

/// Searches the layouts of a style for texts of the year suffix.
pub(crate) fn implicit_suffix<'s>(
    alloc: Global,
    macros: &'s AcyclicMacros<'s>,
    citation: &'s Layout,
    bibliography: &'s Option<Layout>,
) -> Result<ImplicitSuffix, AllocError>
    ensures citation { IfOk result (λ implicit. implicit.in_citation
        ≡ spec.is_implicit_in (definitions macros.now) (Some citation.now)) }
    ensures bibliography { IfOk result (λ implicit. implicit.in_bibliography
        ≡ spec.is_implicit_in (definitions macros.now) bibliography.now) }
{
    let in_citation = is_implicit(alloc, macros, Some(citation))?;
    let in_bibliography = is_implicit(alloc, macros, bibliography.as_ref())?;
    Ok(ImplicitSuffix {
        in_citation,
        in_bibliography,
    })
}
