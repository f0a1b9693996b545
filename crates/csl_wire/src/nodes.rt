//! The nodes of a style (CSL 1.0.2, Rendering Elements).

ghost use Rattle.std.specs.Prelude.{◌≡◌, ◌+◌, false, IfOk, codes, map, option_map};
ghost use Rattle.std.specs.List.{AllZip};
ghost use Rattle.serde_json.specs.View.{view};
ghost use Rattle.csl_elements.specs.View.{view_branch, view_child, view_choose, view_group, view_names, view_node, view_nodes};
ghost use Rattle.csl_wire.specs.Nodes.{AreNodes, AreNodesIf, AreNodesIn, IsBranch, IsChild, IsListOf, IsNode, IsNodeOf};

use crate::choices::{MATCHES, POSITIONS};
use crate::dates::date;
use crate::dress::{AFFIXES, FORMATTING, affixes, display, formatting};
use crate::form::{Form, element_of, items_of};
use crate::leaves::{label, number, text, variableless_label};
use crate::limits::{Limits, Reader};
use crate::name_options::{NAME_OPTIONS, name_options};
use crate::name_parts::{et_al, name};
use crate::nearest::unknown_among;
use crate::refusal::{Code, Step, WireError, within};
use csl_elements::{
    Choose, ChooseBranch, ChooseMatch, Group, LayoutRenderingElement, Names, NamesChild, Substitute,
};
use serde_json::Value;
use std::alloc::Global;

/// How many lists of nodes may stand in one another. A list inside another is three levels of JSON
/// deeper at least, so JSON of 127 levels has no more.
const DEPTH: u8 = 43;

/// The lists that may stand inside one, if it is not too deep itself.
fn below(reader: Reader, left: u8) -> Result<u8, WireError>
    ensures { IfOk result (λ lower. lower + 1 ≡ left) }
{
    match left.checked_sub(1) {
        Some(left) => Ok(left),
        None => Err(WireError::of(reader.alloc, Code::TooDeep, "the nodes are too deep")),
    }
}

/// The members of a group, but its formatting and affixes.
static GROUP: [&str; 3] = ["delimiter", "display", "children"];

/// A group.
#[cycle(node)]
#[tactic(auto, using(crate::proofs::NodesRead::group_read))]
fn group(reader: Reader, value: &Value, left: u8) -> Result<Group, WireError>
    ensures { IfOk result (λ g. IsNodeOf reader.marks (AreNodes reader.marks left) (codes "group")
        (view value.now) (view_group g)) }
{
    let form = Form::of(reader, value, &[&GROUP, &FORMATTING, &AFFIXES])?;
    let formatting = formatting(form)?;
    let display = display(form)?;
    let delimiter = form.text("delimiter")?;
    let affixes = affixes(form)?;
    let items = form.items("children")?;
    let children = within(Step::Member("children"), nodes(reader, items, left))?;
    Ok(Group {
        children,
        delimiter,
        formatting,
        affixes,
        display,
    })
}

/// The children of names.
static CHILDREN: [&str; 4] = ["name", "et-al", "label", "substitute"];

/// A child of names.
#[cycle(node)]
#[tactic(auto, using(crate::proofs::NodesRead::substitute_child, crate::proofs::NodesRead::name_child, crate::proofs::NodesRead::label_child))]
fn child(reader: Reader, value: &Value, left: u8) -> Result<NamesChild, WireError>
    ensures { IfOk result (λ c. IsChild reader.marks (AreNodes reader.marks left) (view value.now)
        (view_child c)) }
{
    let (kind, inside) = element_of(reader, value)?;
    match kind {
        "name" => Ok(within(Step::Member("name"), name(reader, inside))?.into()),
        "et-al" => Ok(within(Step::Member("et-al"), et_al(reader, inside))?.into()),
        "label" => Ok(within(Step::Member("label"), variableless_label(reader, inside))?.into()),
        "substitute" => {
            let step = Step::Member("substitute");
            let items = within(step, items_of(reader, inside))?;
            let children = within(step, nodes(reader, items, left))?;
            Ok(Substitute { children }.into())
        }
        _ => Err(unknown_among(
            reader.alloc,
            Code::UnknownName,
            "no child of names has this name",
            &[&CHILDREN],
            kind,
        )),
    }
}

/// The children of names.
#[cycle(node)]
#[tactic(auto, using(crate::proofs::Lists::zip_more_made))]
fn children(reader: Reader, items: &[Value], left: u8) -> Result<Vec<NamesChild>, WireError>
    ensures { IfOk result (λ cs. AllZip (IsChild reader.marks (AreNodes reader.marks left))
        (map view items.now) (map view_child cs.items)) }
{
    let mut children = Vec::with_capacity(reader.alloc, items.len())?;
    for (place, item) in items.iter().enumerate() {
        children.push(within(Step::Item(place), child(reader, item, left))?)?;
    }
    Ok(children)
}

/// The members of names, but their options, formatting and affixes.
static NAMES: [&str; 6] = [
    "variable",
    "delimiter",
    "name-form",
    "name-delimiter",
    "display",
    "children",
];

/// Names.
#[cycle(node)]
#[tactic(auto, using(crate::proofs::NodesRead::names_read))]
fn names(reader: Reader, value: &Value, left: u8) -> Result<Names, WireError>
    ensures { IfOk result (λ n. IsNodeOf reader.marks (AreNodes reader.marks left) (codes "names")
        (view value.now) (view_names n)) }
{
    let form = Form::of(
        reader,
        value,
        &[&NAMES, &NAME_OPTIONS, &FORMATTING, &AFFIXES],
    )?;
    let formatting = formatting(form)?;
    let display = display(form)?;
    let delimiter = form.text("delimiter")?;
    let affixes = affixes(form)?;
    let Some(variable) = form.all_named("variable")? else {
        return Err(form.missing("variable"));
    };
    let options = name_options(form, "name-form", "name-delimiter")?;
    let items = form.items("children")?;
    let children = within(Step::Member("children"), children(reader, items, left))?;
    Ok(Names {
        variable,
        children,
        options,
        delimiter,
        formatting,
        affixes,
        display,
    })
}

/// The members of a branch.
static BRANCH: [&str; 9] = [
    "match",
    "disambiguate",
    "is-numeric",
    "is-uncertain-date",
    "locator",
    "position",
    "type",
    "variable",
    "children",
];

/// A branch of a choice.
#[cycle(node)]
fn branch(reader: Reader, value: &Value, left: u8) -> Result<ChooseBranch, WireError>
    ensures { IfOk result (λ b. IsBranch (AreNodes reader.marks left) (view value.now)
        (view_branch b)) }
{
    let form = Form::of(reader, value, &[&BRANCH])?;
    let disambiguate = form.boolean("disambiguate")?;
    let match_ = form.choice("match", &MATCHES)?.unwrap_or(ChooseMatch::All);
    let is_numeric = form.all_named("is-numeric")?;
    let is_uncertain_date = form.all_named("is-uncertain-date")?;
    let locator = form.all_named("locator")?;
    let position = form.choices("position", &POSITIONS)?;
    let type_ = form.all_named("type")?;
    let variable = form.all_named("variable")?;
    let items = form.items("children")?;
    let children = within(Step::Member("children"), nodes(reader, items, left))?;
    Ok(ChooseBranch {
        disambiguate,
        is_numeric,
        is_uncertain_date,
        locator,
        position,
        type_,
        variable,
        match_,
        children,
    })
}

/// The further branches of a choice.
#[cycle(node)]
#[tactic(auto, using(crate::proofs::Lists::zip_more_made))]
fn branches(reader: Reader, items: &[Value], left: u8) -> Result<Vec<ChooseBranch>, WireError>
    ensures { IfOk result (λ bs. AllZip (IsBranch (AreNodes reader.marks left)) (map view items.now)
        (map view_branch bs.items)) }
{
    let mut branches = Vec::with_capacity(reader.alloc, items.len())?;
    for (place, item) in items.iter().enumerate() {
        branches.push(within(Step::Item(place), branch(reader, item, left))?)?;
    }
    Ok(branches)
}

/// The nodes of a member, if it is there.
#[cycle(node)]
fn nodes_if(
    form: Form<'_>,
    name: &'static str,
    left: u8,
) -> Result<Option<Vec<LayoutRenderingElement>>, WireError>
    ensures { IfOk result (λ o. AreNodesIf (AreNodes form.entry.reader.marks left) name.now
        (view form.entry.value.now) (option_map (λ ns. view_nodes ns.items) o)) }
{
    match form.member(name) {
        Some(value) => {
            let step = Step::Member(name);
            let items = within(step, items_of(form.reader, value))?;
            Ok(Some(within(step, nodes(form.reader, items, left))?))
        }
        None => Ok(None),
    }
}

/// The members of a choice.
static CHOOSE: [&str; 3] = ["if", "else-if", "else"];

/// A choice.
#[cycle(node)]
fn choose(reader: Reader, value: &Value, left: u8) -> Result<Choose, WireError>
    ensures { IfOk result (λ c. IsNodeOf reader.marks (AreNodes reader.marks left) (codes "choose")
        (view value.now) (view_choose c)) }
{
    let form = Form::of(reader, value, &[&CHOOSE])?;
    let Some(first) = form.member("if") else {
        return Err(form.missing("if"));
    };
    let items = form.items("else-if")?;
    let else_if = within(Step::Member("else-if"), branches(reader, items, left))?;
    let otherwise = nodes_if(form, "else", left)?;
    let if_ = within(Step::Member("if"), branch(reader, first, left))?;
    Ok(Choose {
        if_,
        else_if,
        otherwise,
    })
}

/// The elements that are nodes.
static ELEMENTS: [&str; 7] = [
    "text", "number", "label", "date", "names", "choose", "group",
];

/// A node.
#[cycle(node)]
#[tactic(auto, using(crate::proofs::NodesRead::group_node, crate::proofs::NodesRead::names_node, crate::proofs::NodesRead::choose_node))]
fn node(reader: Reader, value: &Value, left: u8) -> Result<LayoutRenderingElement, WireError>
    ensures { IfOk result (λ n. IsNode reader.marks (AreNodes reader.marks left) (view value.now)
        (view_node n)) }
{
    let (kind, inside) = element_of(reader, value)?;
    match kind {
        "text" => Ok(within(Step::Member("text"), text(reader, inside))?.into()),
        "number" => Ok(within(Step::Member("number"), number(reader, inside))?.into()),
        "label" => Ok(within(Step::Member("label"), label(reader, inside))?.into()),
        "date" => Ok(within(Step::Member("date"), date(reader, inside))?.into()),
        "names" => Ok(within(Step::Member("names"), names(reader, inside, left))?.into()),
        "choose" => Ok(within(Step::Member("choose"), choose(reader, inside, left))?.into()),
        "group" => Ok(within(Step::Member("group"), group(reader, inside, left))?.into()),
        _ => Err(unknown_among(
            reader.alloc,
            Code::UnknownName,
            "no node has this name",
            &[&ELEMENTS],
            kind,
        )),
    }
}

/// The nodes of a list.
#[cycle(node)]
#[tactic(auto, using(crate::proofs::Lists::zip_more_made, crate::proofs::NodesRead::nodes_above))]
fn nodes(
    reader: Reader,
    items: &[Value],
    left: u8,
) -> Result<Vec<LayoutRenderingElement>, WireError>
    ensures { IfOk result (λ ns. AreNodes reader.marks left (map view items.now)
        (map view_node ns.items)) }
{
    let lower = below(reader, left)?;
    let mut nodes = Vec::with_capacity(reader.alloc, items.len())?;
    for (place, item) in items.iter().enumerate() {
        nodes.push(within(Step::Item(place), node(reader, item, lower))?)?;
    }
    Ok(nodes)
}

/// The nodes of the member `children`. There are none if there is no such member.
pub(crate) fn children_of(form: Form<'_>) -> Result<Vec<LayoutRenderingElement>, WireError>
    ensures { IfOk result (λ ns. AreNodesIn (AreNodes form.entry.reader.marks 43) (codes "children")
        (view form.entry.value.now) (view_nodes ns.items)) }
{
    let items = form.items("children")?;
    within(Step::Member("children"), nodes(form.reader, items, DEPTH))
}

/// The nodes of a list, without the marks of cases.
///
/// # Errors
/// [`WireError::Refused`]: the value is no list of nodes within the limits.
pub fn nodes_of(
    alloc: Global,
    value: &Value,
    limits: Limits,
) -> Result<Vec<LayoutRenderingElement>, WireError>
    ensures { IfOk result (λ ns. IsListOf (AreNodes false 43) (view value.now)
        (view_nodes ns.items)) }
{
    let reader = Reader {
        alloc,
        limits,
        marks: false,
    };
    nodes(reader, items_of(reader, value)?, DEPTH)
}
