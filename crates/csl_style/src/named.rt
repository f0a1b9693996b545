//! The variables and kinds that a layout names, in itself and in the macros that it reaches (CSL
//! 1.0.2, Rendering Elements; Macro; Choose; Substitute): all of them, those in tests of branches,
//! or those that a cite of one variable tells beside it.

ghost use Rattle.std.specs.Prelude.{◌≡◌, IfOk, OnOk, option_map};
ghost use Rattle.csl_elements.specs.Node.{expand_layout};
ghost use Rattle.csl_elements.specs.View.{view_node, view_choose, view_names, view_layout};
ghost use Rattle.csl_elements.specs.NamedSet.{empty_named_set, named_set};
ghost use Rattle.csl_style.specs.Named.{the_variable, the_kind, the_name, the_date, the_number_or_page, each_of, each_if, named_in_nodes};
ghost use Rattle.csl_style.specs.NamedWalk.{Adds, named_in_tests_of, named_itself, part_itself, part_in};
ghost use Rattle.csl_style.specs.Expanded.{macro_env};

use crate::reached::ReachedNodes;
use crate::style::Style;
use crate::tested::add_tested;
use crate::told::add_told;
use csl_common::Memory;
use csl_elements::{
    Choose, ChooseBranch, DateVariable, Kind, Layout, LayoutRenderingElement, NameVariable, Named,
    Names, NumberOrPageVariable, NumberVariable, PageVariable, StandardVariable, TextTarget,
    Variable,
};
use std::alloc::Global;
use std::collections::BTreeSet;

/// A part of what a layout names.
#[derive(Clone, Copy)]
pub(crate) enum Part {
    /// All that it names.
    Whole,
    /// What the tests of branches name.
    Tested,
    /// What a cite that shows this variable alone tells beside it.
    Beside(Variable),
}

/// Returns six empty sets.
#[tactic(auto, using(crate::proofs::Noted::has_nothing))]
fn empty_named(alloc: Global) -> Named
    ensures { named_set result ≡ empty_named_set }
{
    Named {
        numbers: BTreeSet::new(alloc),
        pages: BTreeSet::new(alloc),
        standards: BTreeSet::new(alloc),
        names: BTreeSet::new(alloc),
        dates: BTreeSet::new(alloc),
        kinds: BTreeSet::new(alloc),
    }
}

/// Adds a variable, unless the citation answers it.
#[tactic(auto, using(crate::proofs::Noted::noted_laws))]
pub(crate) fn add_variable(named: &mut Named, variable: Variable) -> Result<(), Memory>
    ensures { OnOk result (Adds (the_variable variable) named.old named.new) }
{
    if variable.is_of_citation() {
        return Ok(());
    }
    match variable {
        Variable::Number(v) => {
            named.numbers.insert(v)?;
        }
        Variable::Page(v) => {
            named.pages.insert(v)?;
        }
        Variable::Standard(v) => {
            named.standards.insert(v)?;
        }
        Variable::Name(v) => {
            named.names.insert(v)?;
        }
        Variable::Date(v) => {
            named.dates.insert(v)?;
        }
    }
    Ok(())
}

/// Adds a kind.
#[tactic(auto, using(crate::proofs::Noted::kind_noted))]
fn add_kind(named: &mut Named, kind: Kind) -> Result<(), Memory>
    ensures { OnOk result (Adds (the_kind kind) named.old named.new) }
{
    named.kinds.insert(kind)?;
    Ok(())
}

/// Adds nothing. The named variables and kinds are for the clause alone.
#[tactic(auto, using(crate::proofs::NamedNodes::adds_nothing))]
pub(crate) fn add_nothing(_named: &mut Named) -> Result<(), Memory>
    ensures { OnOk result (Adds empty_named_set _named.old _named.new) }
{
    Ok(())
}

/// Adds the variables of a test.
#[tactic(auto, using(crate::proofs::NamedNodes::join_laws))]
fn add_variables(named: &mut Named, tested: &Option<Vec<Variable>>) -> Result<(), Memory>
    ensures { OnOk result (Adds (each_if the_variable (option_map (λ vs. vs.items) tested.now))
        named.old named.new) }
{
    match tested {
        Some(variables) => {
            for v in variables {
                add_variable(named, *v)?;
            }
            Ok(())
        }
        None => add_nothing(named),
    }
}

/// Adds the date variables of a test.
#[tactic(auto, using(crate::proofs::NamedNodes::join_laws))]
fn add_dates(named: &mut Named, tested: &Option<Vec<DateVariable>>) -> Result<(), Memory>
    ensures { OnOk result (Adds (each_if the_date (option_map (λ vs. vs.items) tested.now))
        named.old named.new) }
{
    match tested {
        Some(dates) => {
            for v in dates {
                add_variable(named, Variable::Date(*v))?;
            }
            Ok(())
        }
        None => add_nothing(named),
    }
}

/// Adds the kinds of a test.
#[tactic(auto, using(crate::proofs::NamedNodes::join_laws))]
fn add_kinds(named: &mut Named, tested: &Option<Vec<Kind>>) -> Result<(), Memory>
    ensures { OnOk result (Adds (each_if the_kind (option_map (λ vs. vs.items) tested.now))
        named.old named.new) }
{
    match tested {
        Some(kinds) => {
            for kind in kinds {
                add_kind(named, *kind)?;
            }
            Ok(())
        }
        None => add_nothing(named),
    }
}

/// Adds the variable of a number or a label.
pub(crate) fn add_number_or_page(
    named: &mut Named,
    variable: NumberOrPageVariable,
) -> Result<(), Memory>
    ensures { OnOk result (Adds (the_number_or_page variable) named.old named.new) }
{
    match variable {
        NumberOrPageVariable::Number(v) => add_variable(named, Variable::Number(v)),
        NumberOrPageVariable::Page(v) => add_variable(named, Variable::Page(v)),
    }
}

/// Adds the variables of a names node.
#[tactic(auto, using(crate::proofs::NamedNodes::names_laws))]
pub(crate) fn add_names(named: &mut Named, names: &Names) -> Result<(), Memory>
    ensures { OnOk result (Adds (named_itself (view_names names.now)) named.old named.new) }
{
    for v in &names.variable {
        add_variable(named, Variable::Name(*v))?;
    }
    Ok(())
}

/// Adds the variables and kinds that a branch tests.
fn add_tests(named: &mut Named, branch: &ChooseBranch) -> Result<(), Memory>
    ensures { OnOk result (Adds (named_in_tests_of branch.now) named.old named.new) }
{
    add_variables(named, &branch.is_numeric)?;
    add_dates(named, &branch.is_uncertain_date)?;
    add_kinds(named, &branch.type_)?;
    add_variables(named, &branch.variable)?;
    Ok(())
}

/// Adds the variables and kinds that the branches of a choice test.
#[tactic(auto, using(crate::proofs::NamedNodes::choose_laws))]
pub(crate) fn add_choose(named: &mut Named, choose: &Choose) -> Result<(), Memory>
    ensures { OnOk result (Adds (named_itself (view_choose choose.now)) named.old named.new) }
{
    add_tests(named, &choose.if_)?;
    for branch in &choose.else_if {
        add_tests(named, branch)?;
    }
    Ok(())
}

/// Adds the variables and kinds that a node names itself. The nodes inside it do not count, nor do
/// those of the macro that it calls.
fn add_node(named: &mut Named, node: &LayoutRenderingElement) -> Result<(), Memory>
    ensures { OnOk result (Adds (named_itself (view_node node.now)) named.old named.new) }
{
    match node {
        LayoutRenderingElement::Text(text) => match &text.target {
            TextTarget::Variable { var, .. } => add_variable(named, *var),
            TextTarget::Macro { .. } | TextTarget::Term { .. } | TextTarget::Value { .. } => {
                add_nothing(named)
            }
        },
        LayoutRenderingElement::Number(number) => add_number_or_page(named, number.variable),
        LayoutRenderingElement::Label(label) => add_number_or_page(named, label.variable),
        LayoutRenderingElement::Date(date) => match date.variable {
            Some(v) => add_variable(named, Variable::Date(v)),
            None => add_nothing(named),
        },
        LayoutRenderingElement::Names(names) => add_names(named, names),
        LayoutRenderingElement::Choose(choose) => add_choose(named, choose),
        LayoutRenderingElement::Group(_) => add_nothing(named),
    }
}

/// Adds the part of what a node names itself.
fn add_part(named: &mut Named, part: Part, node: &LayoutRenderingElement) -> Result<(), Memory>
    ensures { OnOk result (Adds (part_itself part (view_node node.now)) named.old named.new) }
{
    match part {
        Part::Whole => add_node(named, node),
        Part::Tested => add_tested(named, node),
        Part::Beside(variable) => add_told(named, variable, node),
    }
}

/// Returns a part of what a layout names, in itself and in the macros of the style that it reaches.
/// It goes through no macro twice, and no depth takes stack.
pub(crate) fn named_part(
    alloc: Global,
    style: &Style,
    layout: &Layout,
    part: Part,
) -> Result<Named, Memory>
    ensures { IfOk result (λ named. named_set named ≡ part_in part
        (expand_layout (macro_env style.now) (view_layout layout.now)).elements) }
{
    let mut named = empty_named(alloc);
    let macros = style.acyclic_macros();
    let mut reached = ReachedNodes::new(alloc, &macros, &layout.elements)?;
    while let Some(node) = reached.next()? {
        add_part(&mut named, part, node)?;
    }
    Ok(named)
}

/// Returns the variables and kinds that a layout names, in itself and in the macros of the style
/// that it reaches. Every branch with its tests and every substitute is included. The four
/// variables that the citation answers ([`Variable::is_of_citation`]) are left out. It goes through
/// no macro twice, and no depth takes stack.
pub fn named_by(alloc: Global, style: &Style, layout: &Layout) -> Result<Named, Memory>
    ensures { IfOk result (λ named. named_set named
        ≡ named_in_nodes (expand_layout (macro_env style.now) (view_layout layout.now)).elements) }
{
    named_part(alloc, style, layout, Part::Whole)
}
