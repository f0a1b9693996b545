//! Names that a special form of the cite refuses, and whether names show the author (CSL 1.0.2,
//! Names; Substitute).
//! Definitions: specs/Names.antt.

ghost use Rattle.std.specs.Prelude.{◌≡◌, Bool, ◌&&◌, ◌||◌, false, true};
ghost use Rattle.csl_elements.specs.NamesParts.{names_node, parts_node};
ghost use Rattle.csl_elements.specs.Node.{expand, expand_nodes, no_expanded_substitutes};
ghost use Rattle.csl_elements.specs.View.{view_node, view_nodes, view_names};
ghost use Rattle.csl_render.specs.Expanded.{expanded_substitutes};
ghost use Rattle.csl_render.specs.Names as spec;
ghost use Rattle.csl_render.specs.Plan.{asks_for_author};

use super::substitute_children;
use csl_context::Context;
use csl_entry::{EntryLike, SpecialForm};
use csl_style::{LayoutRenderingElement, NameVariable, Names, NamesParts, Variable};

/// Whether the variable is in the list.
fn has_variable(wanted: NameVariable, variables: &[NameVariable]) -> bool
    ensures { result ≡ spec.has_variable wanted variables.now }
{
    variables.contains(&wanted)
}

/// Whether the variable is one of these name variables.
pub(super) fn is_of_names(variable: Variable, variables: &[NameVariable]) -> bool
    ensures { result ≡ spec.is_of_names variable variables.now }
{
    match variable {
        Variable::Standard(_) => false,
        Variable::Number(_) => false,
        Variable::Page(_) => false,
        Variable::Name(variable) => has_variable(variable, variables),
        Variable::Date(_) => false,
    }
}

/// Whether the node is a `cs:names` of the variable.
fn is_names_of(variable: NameVariable, node: &LayoutRenderingElement) -> bool
    ensures { (env : spec.Macros) → result
        ≡ spec.is_names_of variable (expand env (view_node node.now)) }
{
    match node {
        LayoutRenderingElement::Text(_) => false,
        LayoutRenderingElement::Number(_) => false,
        LayoutRenderingElement::Label(_) => false,
        LayoutRenderingElement::Date(_) => false,
        LayoutRenderingElement::Names(names) => names_have_variable(variable, names),
        LayoutRenderingElement::Choose(_) => false,
        LayoutRenderingElement::Group(_) => false,
    }
}

/// Whether the variable is one of the names node's own.
#[tactic(auto, using(crate::proofs::NamesOf::names_it_by))]
fn names_have_variable(variable: NameVariable, names: &Names) -> bool
    ensures { (env : spec.Macros) → result
        ≡ spec.is_names_of variable (expand env (view_names names.now)) }
{
    has_variable(variable, names.parts().variables)
}

/// Whether any of the nodes is a `cs:names` of this variable.
fn any_is_names_of(variable: NameVariable, nodes: &[LayoutRenderingElement]) -> bool
    ensures { (env : spec.Macros) → result ≡ spec.any_is_names_of variable
        (expand_nodes env (view_nodes nodes.now)) }
{
    for node in nodes {
        if is_names_of(variable, node) {
            return true;
        }
    }
    false
}

/// Whether the first substitute directly holds a `cs:names` of the variable.
#[tactic(auto, using(crate::proofs::NamesOf::substitutes_by))]
fn substitute_has_names_of(variable: NameVariable, names: &Names) -> bool
    ensures { (env : spec.Macros) → result ≡ spec.substitute_has_names_of variable
        (spec.expanded_substitutes_of env names.now) }
{
    match substitute_children(names) {
        Some(nodes) => any_is_names_of(variable, nodes),
        None => false,
    }
}

/// Whether the names are refused if the cite shows this variable alone.
fn refuses_alone(only: Variable, names: &Names, is_empty: bool) -> bool
    ensures { (env : spec.Macros) → result
        ≡ spec.refuses_alone only (names_node names.now) is_empty
        (spec.expanded_substitutes_of env names.now) }
{
    match only {
        Variable::Standard(_) => true,
        Variable::Number(_) => true,
        Variable::Page(_) => true,
        Variable::Name(variable) => !has_or_substitutes(variable, names, is_empty),
        Variable::Date(_) => true,
    }
}

/// Whether the names have the variable. If they have no persons, a `cs:names` directly in their
/// substitute counts too.
fn has_or_substitutes(variable: NameVariable, names: &Names, is_empty: bool) -> bool
    ensures { (env : spec.Macros) → result
        ≡ (spec.has_variable variable (names_node names.now).variables
        || (is_empty && spec.substitute_has_names_of variable (spec.expanded_substitutes_of env
        names.now))) }
{
    if has_variable(variable, names.parts().variables) {
        return true;
    }
    if !is_empty {
        return false;
    }
    substitute_has_names_of(variable, names)
}

/// Whether the special form refuses names that show the author.
pub(super) fn asks_for_author(special: Option<SpecialForm>) -> bool
    ensures { result ≡ asks_for_author special }
{
    match special {
        None => false,
        Some(SpecialForm::VarOnly(_)) => false,
        Some(SpecialForm::OnlyFirstDate) => false,
        Some(SpecialForm::OnlyYearSuffix) => false,
        Some(SpecialForm::SuppressAuthor) => true,
    }
}

/// Whether names show the author, from whether their substitute does, if the special form asks.
/// `is_empty` is whether they have no persons.
pub(super) fn shows_author<T>(
    ctx: &Context<'_, T>,
    names: &Names,
    is_empty: bool,
    substitute_shows: bool,
) -> bool
    ensures { asks_for_author ctx.now.special ≡ true
        → result ≡ spec.names_show spec.author (names_node names.now) is_empty substitute_shows }
{
    if !asks_for_author(ctx.special_form()) {
        return false;
    }
    has_variable(NameVariable::Author, names.parts().variables) || is_empty && substitute_shows
}

/// Whether the special form of the cite refuses the names. `is_empty` is whether they have no
/// persons, and `shows_author` whether they show the author.
pub(super) fn refuses<T>(
    ctx: &Context<'_, T>,
    names: &Names,
    is_empty: bool,
    shows_author: bool,
) -> bool
    ensures { result ≡ spec.is_refused ctx.now.special (names_node names.now) is_empty
        (expanded_substitutes ctx.now.style names.now) shows_author }
{
    match ctx.special_form() {
        None => false,
        Some(SpecialForm::VarOnly(only)) => refuses_alone(only, names, is_empty),
        Some(SpecialForm::OnlyFirstDate) => true,
        Some(SpecialForm::OnlyYearSuffix) => true,
        Some(SpecialForm::SuppressAuthor) => shows_author,
    }
}

/// Whether the special form of the cite refuses names of these parts, which have no substitute.
#[tactic(auto, using(crate::proofs::NamesOf::unless_substituted))]
pub(super) fn refuses_shorthand<'s, T: EntryLike>(
    ctx: &Context<'s, T>,
    parts: NamesParts<'_>,
) -> bool
    ensures { (is_empty : Bool) → result ≡ spec.is_refused ctx.now.special (parts_node parts.entry)
        is_empty no_expanded_substitutes (spec.names_show spec.author (parts_node parts.entry)
        is_empty false) }
{
    match ctx.special_form() {
        None => false,
        Some(SpecialForm::VarOnly(only)) => !is_of_names(only, parts.variables),
        Some(SpecialForm::OnlyFirstDate) => true,
        Some(SpecialForm::OnlyYearSuffix) => true,
        Some(SpecialForm::SuppressAuthor) => {
            is_of_names(Variable::Name(NameVariable::Author), parts.variables)
        }
    }
}
