//! What a cite that shows one variable alone tells beside that variable (CSL 1.0.2, Choose; Label;
//! Names; Substitute).

ghost use Rattle.std.specs.Prelude.{◌≡◌, IfOk, OnOk};
ghost use Rattle.csl_elements.specs.NamedSet.{named_set, named_union};
ghost use Rattle.csl_elements.specs.NamesParts.{names_node, names_substitutes};
ghost use Rattle.csl_elements.specs.View.{view_node, view_nodes, view_names};
ghost use Rattle.csl_style.specs.Named.{the_variable};
ghost use Rattle.csl_style.specs.NamedWalk.{Adds, told_itself};
ghost use Rattle.csl_style.specs.NamesOf as spec;
ghost use Rattle.csl_style.specs.Told.{told_beside};

use crate::named::{
    Part, add_choose, add_names, add_nothing, add_number_or_page, add_variable, named_part,
};
use crate::style::Style;
use csl_common::Memory;
use csl_elements::{Layout, LayoutRenderingElement, NameVariable, Named, Names, Variable};
use std::alloc::Global;

/// Whether the node is a `cs:names` of the variable.
fn is_names_of(variable: NameVariable, node: &LayoutRenderingElement) -> bool
    ensures { result ≡ spec.is_written_names_of variable (view_node node.now) }
{
    match node {
        LayoutRenderingElement::Text(_)
        | LayoutRenderingElement::Number(_)
        | LayoutRenderingElement::Label(_)
        | LayoutRenderingElement::Date(_)
        | LayoutRenderingElement::Choose(_)
        | LayoutRenderingElement::Group(_) => false,
        LayoutRenderingElement::Names(names) => have_variable(variable, names),
    }
}

/// Whether the variable is one of the names node's own.
#[tactic(auto, using(crate::proofs::NamedNodes::names_written))]
fn have_variable(variable: NameVariable, names: &Names) -> bool
    ensures own { result ≡ spec.has_variable variable (names_node names.now).variables }
    ensures node { result ≡ spec.is_written_names_of variable (view_names names.now) }
{
    names.parts().variables.contains(&variable)
}

/// Whether any of the nodes is a `cs:names` of the variable.
fn any_is_names_of(variable: NameVariable, nodes: &[LayoutRenderingElement]) -> bool
    ensures { result ≡ spec.any_is_written_names_of variable (view_nodes nodes.now) }
{
    for node in nodes {
        if is_names_of(variable, node) {
            return true;
        }
    }
    false
}

/// Whether the first substitute directly holds a `cs:names` of the variable.
fn substitute_has_names_of(variable: NameVariable, names: &Names) -> bool
    ensures { result ≡ spec.substitute_has_written_names_of variable
        (names_substitutes names.now) }
{
    match names.substitute() {
        Some(substitute) => any_is_names_of(variable, &substitute.children),
        None => false,
    }
}

/// Whether the names have the variable, or have names of it directly in their substitute.
fn has_alone(variable: Variable, names: &Names) -> bool
    ensures { result ≡ spec.has_written_alone variable (names_node names.now)
        (names_substitutes names.now) }
{
    match variable {
        Variable::Standard(_) | Variable::Number(_) | Variable::Page(_) | Variable::Date(_) =>
            false,
        Variable::Name(v) => have_variable(v, names) || substitute_has_names_of(v, names),
    }
}

/// Adds the variables of names that have the one variable, or have names of it in their substitute.
#[tactic(auto, using(crate::proofs::NamedNodes::told_names_laws))]
fn add_told_names(named: &mut Named, variable: Variable, names: &Names) -> Result<(), Memory>
    ensures { OnOk result (Adds (told_itself variable (view_names names.now)) named.old named.new) }
{
    if has_alone(variable, names) {
        add_names(named, names)
    } else {
        add_nothing(named)
    }
}

/// Adds what a node tells itself in a cite of one variable alone.
#[tactic(auto, using(crate::proofs::NamedNodes::choose_told))]
pub(crate) fn add_told(
    named: &mut Named,
    variable: Variable,
    node: &LayoutRenderingElement,
) -> Result<(), Memory>
    ensures { OnOk result (Adds (told_itself variable (view_node node.now)) named.old named.new) }
{
    match node {
        LayoutRenderingElement::Text(_)
        | LayoutRenderingElement::Number(_)
        | LayoutRenderingElement::Date(_)
        | LayoutRenderingElement::Group(_) => add_nothing(named),
        LayoutRenderingElement::Label(label) => add_number_or_page(named, label.variable),
        LayoutRenderingElement::Names(names) => add_told_names(named, variable, names),
        LayoutRenderingElement::Choose(choose) => add_choose(named, choose),
    }
}

/// Returns what a cite by a layout may tell if it shows one variable alone: the variable itself,
/// what tests of branches name, the variables of labels, and those of names that have the variable
/// or have names of it directly in their substitute (CSL 1.0.2, Choose; Label; Names; Substitute).
/// Entries that answer alike on these have the same such cite.
pub fn named_beside(
    alloc: Global,
    style: &Style,
    layout: &Layout,
    variable: Variable,
) -> Result<Named, Memory>
    ensures { IfOk result (λ named. named_set named ≡ named_union (the_variable variable)
        (told_beside variable style.now layout.now)) }
{
    let mut named = named_part(alloc, style, layout, Part::Beside(variable))?;
    add_variable(&mut named, variable)?;
    Ok(named)
}
