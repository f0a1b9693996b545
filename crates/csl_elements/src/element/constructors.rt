//! Constructors of groups, names, layouts and macros. Every attribute that is not given has its
//! default.

ghost use Rattle.std.specs.Prelude.{◌≡◌, IfOk, None, Some, []};
ghost use Rattle.csl_elements.specs.Constructors.{no_affixes, plain_layout, no_dressing};
ghost use Rattle.csl_elements.specs.Dressing.{text_if};
ghost use Rattle.csl_elements.specs.NamesParts.{no_formatting};
ghost use Rattle.csl_elements.specs.NamesOptions.{partial_options, no_options};
ghost use Rattle.csl_elements.specs.Node.{group, names, no_substitutes};
ghost use Rattle.csl_elements.specs.View.{definition, view_group, view_names, view_nodes};

use crate::affixes::Affixes;
use crate::element::{CslMacro, Group, Layout, LayoutRenderingElement, Names};
use crate::formatting::Formatting;
use crate::names::InheritableNameOptions;
use crate::taxonomy::NameVariable;
use csl_common::Memory;
use std::alloc::Global;

impl Group {
    /// A group that sets only its children.
    #[tactic(auto, using(crate::proofs::Rolled::group_view))]
    pub fn new(children: Vec<LayoutRenderingElement>) -> Group
        ensures view { view_group result ≡ group None no_dressing (view_nodes children.items) }
        ensures children { result.children ≡ children }
        ensures delimiter { result.delimiter ≡ None }
        ensures formatting { result.formatting ≡ no_formatting }
        ensures affixes { result.affixes ≡ no_affixes }
        ensures display { result.display ≡ None }
    {
        Group {
            children,
            delimiter: None,
            formatting: Formatting::default(),
            affixes: Affixes::default(),
            display: None,
        }
    }

    /// A group that sets only its delimiter and its children.
    #[tactic(auto, using(crate::proofs::Rolled::group_view))]
    pub fn delimited(
        alloc: Global,
        delimiter: &str,
        children: Vec<LayoutRenderingElement>,
    ) -> Result<Group, Memory>
        ensures view { IfOk result (λ made. view_group made
            ≡ group (Some delimiter.now) no_dressing (view_nodes children.items)) }
        ensures children { IfOk result (λ made. made.children ≡ children) }
        ensures delimiter { IfOk result (λ made. text_if made.delimiter ≡ Some delimiter.now) }
        ensures formatting { IfOk result (λ made. made.formatting ≡ no_formatting) }
        ensures affixes { IfOk result (λ made. made.affixes ≡ no_affixes) }
        ensures display { IfOk result (λ made. made.display ≡ None) }
    {
        let delimiter = String::from_str(alloc, delimiter)?;
        Ok(Group {
            delimiter: Some(delimiter),
            ..Group::new(children)
        })
    }
}

impl Layout {
    /// A layout that sets only its elements.
    pub fn new(elements: Vec<LayoutRenderingElement>) -> Layout
        ensures { result ≡ plain_layout elements }
    {
        Layout {
            elements,
            delimiter: None,
            formatting: Formatting::default(),
        }
    }
}

impl CslMacro {
    /// A macro with this name and these children.
    pub fn new(
        alloc: Global,
        name: &str,
        children: Vec<LayoutRenderingElement>,
    ) -> Result<CslMacro, Memory>
        ensures { IfOk result (λ made. definition made ≡ (name.now, view_nodes children.items)) }
    {
        let name = String::from_str(alloc, name)?;
        Ok(CslMacro { name, children })
    }
}

impl Names {
    /// A names node that sets only its variables.
    #[tactic(auto, using(crate::proofs::Rolled::names_view))]
    pub fn new(alloc: Global, variables: Vec<NameVariable>) -> Names
        ensures view { view_names result ≡ names (record {
          variables = variables.items;
          options = no_options;
          delimiter = None;
          dressing = no_dressing;
          name_children = [];
          et_al = None;
          label = None;
          child_count = 0;
        }) no_substitutes }
        ensures variable { result.variable ≡ variables }
        ensures children { result.children.items ≡ [] }
        ensures options { partial_options result.options ≡ no_options }
        ensures delimiter { result.delimiter ≡ None }
        ensures formatting { result.formatting ≡ no_formatting }
        ensures affixes { result.affixes ≡ no_affixes }
        ensures display { result.display ≡ None }
    {
        Names {
            variable: variables,
            children: Vec::new(alloc),
            options: InheritableNameOptions::default(),
            delimiter: None,
            formatting: Formatting::default(),
            affixes: Affixes::default(),
            display: None,
        }
    }
}
