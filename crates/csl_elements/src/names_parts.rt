//! The parts of a names node (CSL 1.0.2, Names): its own. A node without children in a substitute
//! also has parts of the names around it.

ghost use Rattle.std.specs.Prelude.{◌≡◌, false, map, option_map};
ghost use Rattle.csl_elements.specs.Names.{NamesNode, first_of, first_name, shorthand_expansion, view_name, view_et_al, view_part};
ghost use Rattle.csl_elements.specs.Node as spec;
ghost use Rattle.csl_elements.specs.View.{view_child, view_names, view_node, view_substitute, name_children, first_et_al, first_label, substitutes};
ghost use Rattle.csl_elements.specs.NamesParts.{names_node, names_substitutes, first_substitute, parts_node, placed_label, default_name, first_part};

use crate::affixes::Affixes;
use crate::element::{LayoutRenderingElement, Names, NamesChild, Substitute};
use crate::formatting::{Display, Formatting};
use crate::names::{
    EtAl, InheritableNameOptions, InheritedNameOptions, Name, NamePart, NamePartName,
};
use crate::number::{LabelPluralize, VariablelessLabel};
use crate::taxonomy::NameVariable;
use crate::term::{OtherTerm, TermForm};
use std::alloc::Global;

/// The parts of a names node except its substitutes, borrowed from the style. If the node is in a
/// substitute and has no children, the parts come from two nodes.
#[derive(Clone, Copy)]
pub struct NamesParts<'s> {
    pub variables: &'s [NameVariable],
    pub options: InheritedNameOptions<'s>,
    pub delimiter: Option<&'s str>,
    pub formatting: Formatting,
    pub prefix: Option<&'s str>,
    pub suffix: Option<&'s str>,
    pub display: Option<Display>,
    /// The children. Their first name, et al. and label are used.
    pub children: &'s [NamesChild],
}

/// The label of names, and whether it is after them.
#[derive(Clone, Copy)]
pub struct PlacedLabel<'s> {
    pub label: &'s VariablelessLabel,
    pub is_after: bool,
}

impl LayoutRenderingElement {
    /// The node, if it is a `cs:names` without children. Directly in a substitute, such names are
    /// rendered in the place of the names around it (CSL 1.0.2, Substitute).
    pub fn childless_names(&self) -> Option<&Names>
        ensures { (original : NamesNode) → (f : spec.ExpandedNode)
            → spec.as_substitute_child original (view_node self.now) f
            ≡ spec.standing_in original f (option_map (λ n. names_node n.now) result) }
    {
        match self {
            LayoutRenderingElement::Names(names) => names.if_childless(),
            LayoutRenderingElement::Text(_)
            | LayoutRenderingElement::Number(_)
            | LayoutRenderingElement::Label(_)
            | LayoutRenderingElement::Date(_)
            | LayoutRenderingElement::Choose(_)
            | LayoutRenderingElement::Group(_) => None,
        }
    }
}

impl Names {
    /// The parts of the names node itself.
    pub fn parts(&self) -> NamesParts<'_>
        ensures value { parts_node result ≡ names_node self.now }
        ensures view { view_names self.now ≡ spec.names (names_node self.now)
            (names_substitutes self.now) }
    {
        NamesParts {
            variables: &self.variable,
            options: self.options.as_inherited(),
            delimiter: self.delimiter.as_deref(),
            formatting: self.formatting,
            prefix: self.affixes.prefix.as_deref(),
            suffix: self.affixes.suffix.as_deref(),
            display: self.display,
            children: &self.children,
        }
    }

    /// Whether the node has no children. Directly in a substitute, such a node takes its name, et
    /// al. and label from the names around it.
    #[tactic(auto, using(crate::proofs::NamesChildren::childless))]
    pub fn is_childless(&self) -> bool
        ensures { result ≡ spec.is_childless (names_node self.now) (names_substitutes self.now) }
    {
        self.children.is_empty()
    }

    /// The node itself, if it has no children.
    #[tactic(auto, using(crate::proofs::Rolled::names_view))]
    fn if_childless(&self) -> Option<&Names>
        ensures { (original : NamesNode) → (f : spec.ExpandedNode)
            → spec.as_substitute_child original (view_names self.now) f
            ≡ spec.standing_in original f (option_map (λ n. names_node n.now) result) }
    {
        if self.is_childless() {
            Some(self)
        } else {
            None
        }
    }

    /// The parts of the node in the place of another: the children of `original`, and the node's
    /// own variables and display. Everything else is the node's own if it is set, field by field,
    /// else that of `original`.
    pub fn parts_in_place_of<'s>(&'s self, original: NamesParts<'s>) -> NamesParts<'s>
        ensures { parts_node result ≡ shorthand_expansion (parts_node original.entry)
            (names_node self.now) }
    {
        NamesParts {
            variables: &self.variable,
            options: self.options.apply(original.options),
            delimiter: self.delimiter.as_deref().or(original.delimiter),
            formatting: self.formatting.apply(original.formatting),
            prefix: self.affixes.prefix.as_deref().or(original.prefix),
            suffix: self.affixes.suffix.as_deref().or(original.suffix),
            display: self.display,
            children: original.children,
        }
    }

    /// The first substitute, which replaces names without persons.
    pub fn substitute(&self) -> Option<&Substitute>
        ensures { option_map (λ s. view_substitute s.now) result
            ≡ first_substitute (names_substitutes self.now) }
    {
        substitute_among(&self.children)
    }
}

impl<'s> NamesParts<'s> {
    /// The first name child, which writes the names.
    pub fn name(self) -> Option<&'s Name>
        ensures { option_map (λ n. view_name n.now) result ≡ first_name (parts_node self.entry) }
    {
        name_among(self.children)
    }

    /// The first et al. child, if there is one.
    pub fn et_al(self) -> Option<&'s EtAl>
        ensures { option_map (λ e. view_et_al e.now) result ≡ (parts_node self.entry).et_al }
    {
        et_al_among(self.children)
    }

    /// The first label child, if there is one.
    pub fn label(self) -> Option<PlacedLabel<'s>>
        ensures { option_map placed_label result ≡ (parts_node self.entry).label }
    {
        label_among(self.children)
    }
}

/// The first name among children of names.
fn name_among(children: &[NamesChild]) -> Option<&Name>
    ensures { option_map (λ n. view_name n.now) result
        ≡ first_of (name_children (map view_child children.now)) }
{
    for child in children {
        match child {
            NamesChild::Name(name) => return Some(name),
            NamesChild::EtAl(_) | NamesChild::Label(_) | NamesChild::Substitute(_) => {}
        }
    }
    None
}

/// The first et al. among children of names.
fn et_al_among(children: &[NamesChild]) -> Option<&EtAl>
    ensures { option_map (λ e. view_et_al e.now) result
        ≡ first_et_al (map view_child children.now) }
{
    for child in children {
        match child {
            NamesChild::EtAl(et_al) => return Some(et_al),
            NamesChild::Name(_) | NamesChild::Label(_) | NamesChild::Substitute(_) => {}
        }
    }
    None
}

/// The first label among children of names. It is after the names if a name child comes before it.
fn label_among(children: &[NamesChild]) -> Option<PlacedLabel<'_>>
    ensures { option_map placed_label result ≡ first_label false (map view_child children.now) }
{
    let mut is_after = false;
    for child in children {
        match child {
            NamesChild::Label(label) => return Some(PlacedLabel { label, is_after }),
            NamesChild::Name(_) => is_after = true,
            NamesChild::EtAl(_) | NamesChild::Substitute(_) => {}
        }
    }
    None
}

/// The first substitute among children of names.
fn substitute_among(children: &[NamesChild]) -> Option<&Substitute>
    ensures { option_map (λ s. view_substitute s.now) result
        ≡ first_substitute (substitutes (map view_child children.now)) }
{
    for child in children {
        match child {
            NamesChild::Substitute(substitute) => return Some(substitute),
            NamesChild::Name(_) | NamesChild::EtAl(_) | NamesChild::Label(_) => {}
        }
    }
    None
}

impl Name {
    /// A name that sets nothing.
    pub fn new(alloc: Global) -> Name
        ensures { view_name result ≡ default_name }
    {
        Name {
            options: InheritableNameOptions::default(),
            formatting: Formatting::default(),
            parts: Vec::new(alloc),
        }
    }

    /// The first `cs:name-part` for this part of the name, if there is one.
    pub fn part(&self, name: NamePartName) -> Option<&NamePart>
        ensures { option_map (λ p. view_part p.now) result
            ≡ first_part name (view_name self.now) }
    {
        for part in &self.parts {
            if part.name == name {
                return Some(part);
            }
        }
        None
    }
}

impl Default for EtAl {
    ghost use Rattle.std.specs.Prelude.{◌≡◌};
    ghost use Rattle.csl_elements.specs.Names.{view_et_al};
    ghost use Rattle.csl_elements.specs.NamesParts.{default_et_al};

    ghost is_default = { λ e. view_et_al e ≡ default_et_al };

    fn default() -> EtAl {
        EtAl {
            term: OtherTerm::EtAl,
            formatting: Formatting::default(),
        }
    }
}

impl Default for VariablelessLabel {
    ghost use Rattle.std.specs.Prelude.{◌≡◌};
    ghost use Rattle.csl_elements.specs.Constructors.{plain_label};

    ghost is_default = { λ label. label ≡ plain_label };

    fn default() -> VariablelessLabel {
        VariablelessLabel {
            form: TermForm::Long,
            plural: LabelPluralize::Contextual,
            formatting: Formatting::default(),
            affixes: Affixes::default(),
            strip_periods: false,
        }
    }
}
