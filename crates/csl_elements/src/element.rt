//! The nodes that hold nodes (CSL 1.0.2, Rendering Elements): groups, choices, names with their
//! substitutes, layouts and macros.

ghost use Rattle.std.specs.Prelude.{◌≡◌, ◌+◌, ◌<◌, ◌++◌, IfSome, max};
ghost use Rattle.std.specs.Iterator.{AlwaysYields};
ghost use Rattle.std.specs.Iterator.Adapters.{chain_steps, once_steps};
ghost use Rattle.std.specs.Slice.Iter.{iter_steps};
ghost use Rattle.csl_elements.specs.Element.{inside_count, inside_depth, node_count, node_counts, node_depth, node_depths, branch_count, branch_counts, branch_depth, branch_depths, child_count, child_counts, child_depth, child_depths};

use crate::affixes::Affixes;
use crate::date::Date;
use crate::formatting::{Display, Formatting};
use crate::names::{EtAl, InheritableNameOptions, Name};
use crate::number::{Label, Number, VariablelessLabel};
use crate::taxonomy::{DateVariable, Kind, Locator, NameVariable, Variable};
use crate::text::Text;
use std::iter::{Chain, Once, once};
use std::mem::swap;
use std::slice::Iter;

mod choices;
mod constructors;
mod conversions;

/// A node that a layout, a macro or a group may hold.
///
/// A node has a `drop` of its own, so a pattern takes it apart by reference alone, as in
/// `match &mut node`.
#[cycle(element)]
pub enum LayoutRenderingElement {
    Text(Text),
    Number(Number),
    Label(Label),
    Date(Date),
    Names(Names),
    Choose(Choose),
    Group(Group),
}

/// Drops the nodes inside, at any level, in a loop: a chain of nodes takes no stack and no memory.
/// Where nodes beside each other need memory and there is none, one list drops by recursion.
impl Drop for LayoutRenderingElement {
    #[cycle(element)]
    #[tactic(auto, using(crate::proofs::InsideLaws::nested_laws))]
    fn drop(self) {
        let Some(inside) = self.into_inside() else {
            return;
        };
        let Inside {
            mut nodes,
            otherwise,
            mut branches,
            mut children,
        } = inside;
        drop(append_nodes(&mut nodes, otherwise));
        'nested: loop {
            if let Some(node) = nodes.pop() {
                if let Some(inside) = node.into_inside() {
                    let Inside {
                        nodes: first,
                        otherwise: last,
                        branches: more_branches,
                        children: more_children,
                    } = inside;
                    drop(append_nodes(&mut nodes, first));
                    drop(append_nodes(&mut nodes, last));
                    drop(append_branches(&mut branches, more_branches));
                    drop(append_children(&mut children, more_children));
                }
            } else if let Some(branch) = branches.pop() {
                drop(append_nodes(&mut nodes, branch.into_nodes()));
            } else if let Some(child) = children.pop() {
                if let Some(inner) = child.into_nodes() {
                    drop(append_nodes(&mut nodes, inner));
                }
            } else {
                return;
            }
        }
    }
}

/// The lists inside a node. Those that a node does not have are empty.
struct Inside {
    /// The children of a group, or the nodes of the first branch of a choice.
    nodes: Vec<LayoutRenderingElement>,
    /// The nodes of the `else` of a choice.
    otherwise: Vec<LayoutRenderingElement>,
    /// The other branches of a choice.
    branches: Vec<ChooseBranch>,
    /// The children of names.
    children: Vec<NamesChild>,
}

/// Moves all of `more` to the end of a list. Returns what is left of `more`: nothing, or all of it
/// if there is no memory.
fn append<T>(list: &mut Vec<T>, mut more: Vec<T>) -> Vec<T>
    ensures { list.new.items ++ result.items ≡ list.old.items ++ more.items }
{
    if list.is_empty() {
        swap(list, &mut more);
        return more;
    }
    let _ = list.append(&mut more);
    more
}

/// Moves nodes to the end of a list, or returns them if there is no memory.
#[tactic(auto, using(crate::proofs::InsideLaws::moved_laws))]
fn append_nodes(
    list: &mut Vec<LayoutRenderingElement>,
    more: Vec<LayoutRenderingElement>,
) -> Vec<LayoutRenderingElement>
    ensures count { node_counts list.new.items + node_counts result.items
        ≡ node_counts list.old.items + node_counts more.items }
    ensures depth { max (node_depths list.new.items) (node_depths result.items)
        ≡ max (node_depths list.old.items) (node_depths more.items) }
{
    append(list, more)
}

/// Moves branches to the end of a list, or returns them if there is no memory.
#[tactic(auto, using(crate::proofs::InsideLaws::moved_laws))]
fn append_branches(list: &mut Vec<ChooseBranch>, more: Vec<ChooseBranch>) -> Vec<ChooseBranch>
    ensures count { branch_counts list.new.items + branch_counts result.items
        ≡ branch_counts list.old.items + branch_counts more.items }
    ensures depth { max (branch_depths list.new.items) (branch_depths result.items)
        ≡ max (branch_depths list.old.items) (branch_depths more.items) }
{
    append(list, more)
}

/// Moves children of names to the end of a list, or returns them if there is no memory.
#[tactic(auto, using(crate::proofs::InsideLaws::moved_laws))]
fn append_children(list: &mut Vec<NamesChild>, more: Vec<NamesChild>) -> Vec<NamesChild>
    ensures count { child_counts list.new.items + child_counts result.items
        ≡ child_counts list.old.items + child_counts more.items }
    ensures depth { max (child_depths list.new.items) (child_depths result.items)
        ≡ max (child_depths list.old.items) (child_depths more.items) }
{
    append(list, more)
}

impl LayoutRenderingElement {
    /// The lists inside, if the node may hold nodes. Everything else is dropped.
    #[tactic(auto, using(crate::proofs::InsideLaws::inside_laws))]
    fn into_inside(self) -> Option<Inside>
        ensures count { IfSome result (λ inside. inside_count inside < node_count self) }
        ensures depth { IfSome result (λ inside. inside_depth inside < node_depth self) }
    {
        match self {
            LayoutRenderingElement::Text(_) => None,
            LayoutRenderingElement::Number(_) => None,
            LayoutRenderingElement::Label(_) => None,
            LayoutRenderingElement::Date(_) => None,
            LayoutRenderingElement::Group(group) => {
                let Group {
                    children: nodes,
                    delimiter: _,
                    formatting: _,
                    affixes: _,
                    display: _,
                } = group;
                let alloc = *nodes.allocator();
                Some(Inside {
                    nodes,
                    otherwise: Vec::new(alloc),
                    branches: Vec::new(alloc),
                    children: Vec::new(alloc),
                })
            }
            LayoutRenderingElement::Choose(choose) => {
                let Choose {
                    if_,
                    else_if,
                    otherwise,
                } = choose;
                let nodes = if_.into_nodes();
                let alloc = *nodes.allocator();
                let otherwise = match otherwise {
                    Some(otherwise) => otherwise,
                    None => Vec::new(alloc),
                };
                Some(Inside {
                    nodes,
                    otherwise,
                    branches: else_if,
                    children: Vec::new(alloc),
                })
            }
            LayoutRenderingElement::Names(names) => {
                let Names {
                    variable: _,
                    children,
                    options: _,
                    delimiter: _,
                    formatting: _,
                    affixes: _,
                    display: _,
                } = names;
                let alloc = *children.allocator();
                Some(Inside {
                    nodes: Vec::new(alloc),
                    otherwise: Vec::new(alloc),
                    branches: Vec::new(alloc),
                    children,
                })
            }
        }
    }
}

impl ChooseBranch {
    /// The nodes of the branch. Its tests are dropped.
    #[tactic(auto, using(crate::proofs::InsideLaws::branch_laws))]
    fn into_nodes(self) -> Vec<LayoutRenderingElement>
        ensures count { node_counts result.items < branch_count self }
        ensures depth { node_depths result.items < branch_depth self }
    {
        let ChooseBranch {
            disambiguate: _,
            is_numeric: _,
            is_uncertain_date: _,
            locator: _,
            position: _,
            type_: _,
            variable: _,
            match_: _,
            children,
        } = self;
        children
    }
}

impl NamesChild {
    /// The nodes of a substitute. Any other child is dropped.
    #[tactic(auto, using(crate::proofs::InsideLaws::child_laws))]
    fn into_nodes(self) -> Option<Vec<LayoutRenderingElement>>
        ensures count { IfSome result (λ nodes. node_counts nodes.items < child_count self) }
        ensures depth { IfSome result (λ nodes. node_depths nodes.items < child_depth self) }
    {
        match self {
            NamesChild::Name(_) => None,
            NamesChild::EtAl(_) => None,
            NamesChild::Label(_) => None,
            NamesChild::Substitute(substitute) => {
                let Substitute { children } = substitute;
                Some(children)
            }
        }
    }
}

/// How the tests of a branch are combined (CSL 1.0.2, Choose: match).
#[derive(Clone, Copy, Debug, Default, PartialEq, Eq, PartialOrd, Ord, Hash)]
pub enum ChooseMatch {
    #[default]
    All,
    Any,
    None,
}

/// The position of a cite among the cites of the same entry (CSL 1.0.2, Choose: position).
#[derive(Clone, Copy, Debug, PartialEq, Eq, PartialOrd, Ord, Hash)]
pub enum TestPosition {
    First,
    Subsequent,
    Ibid,
    IbidWithLocator,
    NearNote,
}

/// A `cs:choose`.
#[cycle(element)]
#[derive(Drop)]
pub struct Choose {
    pub if_: ChooseBranch,
    pub else_if: Vec<ChooseBranch>,
    /// The nodes that are rendered if no branch is chosen.
    pub otherwise: Option<Vec<LayoutRenderingElement>>,
}

impl Choose {
    ghost use Rattle.csl_elements.specs.View as spec;

    /// The `if` branch, then each `else-if` in order.
    pub fn branches(&self) -> Chain<Once<&ChooseBranch>, Iter<'_, ChooseBranch>>
        ensures { AlwaysYields (chain_steps once_steps iter_steps) (λ branch. branch.now) result
            (spec.branches self.now) }
    {
        once(&self.if_).chain(self.else_if.iter())
    }
}

/// A `cs:if` or `cs:else-if`.
#[cycle(element)]
#[derive(Drop)]
pub struct ChooseBranch {
    pub disambiguate: Option<bool>,
    pub is_numeric: Option<Vec<Variable>>,
    pub is_uncertain_date: Option<Vec<DateVariable>>,
    pub locator: Option<Vec<Locator>>,
    pub position: Option<Vec<TestPosition>>,
    pub type_: Option<Vec<Kind>>,
    pub variable: Option<Vec<Variable>>,
    pub match_: ChooseMatch,
    /// The nodes that are rendered if the branch is chosen.
    pub children: Vec<LayoutRenderingElement>,
}

/// A `cs:names`.
#[cycle(element)]
#[derive(Drop)]
pub struct Names {
    /// The variables whose persons are written.
    pub variable: Vec<NameVariable>,
    /// How the persons are written. Rendering uses the first child of each variant. Directly in a
    /// substitute, a `Names` without children takes the name, et al. and label of the names around
    /// it.
    pub children: Vec<NamesChild>,
    pub options: InheritableNameOptions,
    /// The text between the lists of two variables.
    pub delimiter: Option<String>,
    pub formatting: Formatting,
    pub affixes: Affixes,
    pub display: Option<Display>,
}

/// A child of a `cs:names`.
#[cycle(element)]
#[derive(Drop)]
pub enum NamesChild {
    Name(Name),
    EtAl(EtAl),
    /// A label after the names if a `Name` comes before it, else before them.
    Label(VariablelessLabel),
    Substitute(Substitute),
}

/// A `cs:substitute`: the nodes that replace names without persons.
#[cycle(element)]
#[derive(Drop)]
pub struct Substitute {
    pub children: Vec<LayoutRenderingElement>,
}

/// A `cs:group`.
#[cycle(element)]
#[derive(Drop)]
pub struct Group {
    pub children: Vec<LayoutRenderingElement>,
    /// The text between two children that print something.
    pub delimiter: Option<String>,
    pub formatting: Formatting,
    pub affixes: Affixes,
    pub display: Option<Display>,
}

/// A `cs:layout`, without its affixes. A caller that lists several entries writes them.
#[derive(Drop)]
pub struct Layout {
    pub elements: Vec<LayoutRenderingElement>,
    /// The text between two elements that print something.
    pub delimiter: Option<String>,
    pub formatting: Formatting,
}

/// A layout, or a node that it may hold.
#[derive(Drop)]
pub enum RenderingElement {
    Layout(Layout),
    Other(LayoutRenderingElement),
}

/// A `cs:macro`: nodes with a name, by which a text may print them.
#[derive(Drop)]
pub struct CslMacro {
    pub name: String,
    pub children: Vec<LayoutRenderingElement>,
}
