//! The variables and kinds that tests of branches name in a layout (CSL 1.0.2, Choose).

ghost use Rattle.std.specs.Prelude.{◌≡◌, IfOk, OnOk};
ghost use Rattle.csl_elements.specs.NamedSet.{named_set};
ghost use Rattle.csl_elements.specs.View.{view_node};
ghost use Rattle.csl_style.specs.NamedWalk.{Adds, tested_itself};
ghost use Rattle.csl_style.specs.Tested.{variables_of_tests};

use crate::named::{Part, add_choose, add_nothing, named_part};
use crate::style::Style;
use csl_common::Memory;
use csl_elements::{Layout, LayoutRenderingElement, Named};
use std::alloc::Global;

/// Adds the variables and kinds that a node tests itself.
#[tactic(auto, using(crate::proofs::NamedNodes::choose_tested))]
pub(crate) fn add_tested(named: &mut Named, node: &LayoutRenderingElement) -> Result<(), Memory>
    ensures { OnOk result (Adds (tested_itself (view_node node.now)) named.old named.new) }
{
    match node {
        LayoutRenderingElement::Text(_)
        | LayoutRenderingElement::Number(_)
        | LayoutRenderingElement::Label(_)
        | LayoutRenderingElement::Date(_)
        | LayoutRenderingElement::Names(_)
        | LayoutRenderingElement::Group(_) => add_nothing(named),
        LayoutRenderingElement::Choose(choose) => add_choose(named, choose),
    }
}

/// Returns the variables and kinds that tests of branches name, in a layout and in the macros of
/// the style that it reaches (CSL 1.0.2, Choose). Every branch is included, chosen or not. What no
/// test names cannot choose a branch: a cite without its author tells nothing of the author if the
/// author is not among these.
pub fn named_by_tests(alloc: Global, style: &Style, layout: &Layout) -> Result<Named, Memory>
    ensures { IfOk result (λ named. named_set named ≡ variables_of_tests style.now layout.now) }
{
    named_part(alloc, style, layout, Part::Tested)
}
