//! Nodes, and lists of nodes.
//! Definitions: specs/Tree.antt, specs/Plan.antt, specs/Render.antt.

ghost use Rattle.std.specs.Prelude.{◌≡◌, true, IfOk, IfSome};
ghost use Rattle.csl_elements.specs.Node.{expand};
ghost use Rattle.csl_elements.specs.View.{view_node, view_nodes, view_rendering};
ghost use Rattle.csl_style.specs.Expanded.{expanded, expanded_nodes};
ghost use Rattle.csl_context.specs.Context.{Runs, Gives, render_input};
ghost use Rattle.csl_render.specs.DryRun.{Adds, dry_of};
ghost use Rattle.csl_render.specs.Names.{Macros};
ghost use Rattle.csl_render.specs.Plan.{IsInfoOfNodes, IsInfoOfTried, IsDryRunOf, IsPlanOf, HasPlansOf};
ghost use Rattle.csl_render.specs.Tree as spec;
ghost use Rattle.csl_render.specs.Render.{element_rendering, prints_in, after_child};
ghost use Rattle.csl_nodes.specs.Text.{Appends};

use crate::dry_run::DryRun;
use crate::node::Node;
use crate::plan::{NodeInfo, NodePlan, OwnedPlan, inside_plan, next_plan};
use crate::query::Query;
use crate::render::RenderCsl;
use csl_context::{Context, RenderError};
use csl_entry::EntryLike;
use csl_nodes::{UsageInfo, no_info};
use csl_style::{LayoutRenderingElement, RenderingElement, Variable, VariableSet};
use lit_model::Memory;

impl RenderCsl for RenderingElement {
    ghost rendering = { λ style e. element_rendering style (view_rendering e) };

    fn will_have_info<'s, T: EntryLike>(
        &'s self,
        ctx: &mut Context<'s, T>,
    ) -> Result<(bool, UsageInfo), RenderError> {
        match self {
            RenderingElement::Layout(layout) => layout.will_have_info(ctx),
            RenderingElement::Other(element) => element.will_have_info(ctx),
        }
    }

    fn will_render<'s, T: EntryLike>(
        &'s self,
        ctx: &mut Context<'s, T>,
        var: Variable,
    ) -> Result<bool, RenderError> {
        match self {
            RenderingElement::Layout(layout) => layout.will_render(ctx, var),
            RenderingElement::Other(element) => element.will_render(ctx, var),
        }
    }

    fn render<'s, T: EntryLike>(&'s self, ctx: &mut Context<'s, T>) -> Result<(), RenderError> {
        match self {
            RenderingElement::Layout(layout) => layout.render(ctx),
            RenderingElement::Other(element) => element.render(ctx),
        }
    }
}

/// Whether the node is a group.
fn is_group(node: &LayoutRenderingElement) -> bool
    ensures { (env : Macros) → result ≡ spec.is_group (expand env (view_node node.now)) }
{
    match node {
        LayoutRenderingElement::Text(_) => false,
        LayoutRenderingElement::Group(_) => true,
        LayoutRenderingElement::Number(_) => false,
        LayoutRenderingElement::Label(_) => false,
        LayoutRenderingElement::Date(_) => false,
        LayoutRenderingElement::Names(_) => false,
        LayoutRenderingElement::Choose(_) => false,
    }
}

/// The dry run of nodes together. It adds the plan of each.
#[cycle(info)]
pub(crate) fn nodes_info<'c, 's, T: EntryLike>(
    nodes: &'s [LayoutRenderingElement],
    run: &mut DryRun<'c, 's, T>,
) -> Result<NodeInfo, Memory>
    ensures { IfOk result (λ i. Adds (IsInfoOfNodes (render_input T.answers run.old.now)
        (dry_of run.old) (expanded_nodes run.old.now.style (view_nodes nodes.now)) i)
        run.old run.new) }
{
    let mut sum = NodeInfo::new(no_info(), VariableSet::new());
    for node in nodes {
        let place = run.open_node()?;
        let info = node.node_info(run)?;
        run.close_node(place, info);
        sum = sum.with_child(info, is_group(node));
    }
    Ok(sum)
}

/// The dry run of the children of a substitute together. It adds the plan of each. For a plan it
/// leaves out the children after those that print and have a variable that is not empty.
#[cycle(info)]
pub(crate) fn tried_info<'c, 's, T: EntryLike>(
    nodes: &'s [LayoutRenderingElement],
    run: &mut DryRun<'c, 's, T>,
) -> Result<NodeInfo, Memory>
    ensures { IfOk result (λ i. Adds (IsInfoOfTried (render_input T.answers run.old.now)
        (dry_of run.old) (expanded_nodes run.old.now.style (view_nodes nodes.now)) i)
        run.old run.new) }
{
    let may_stop = run.may_stop();
    let mut sum = NodeInfo::new(no_info(), VariableSet::new());
    for node in nodes {
        if may_stop && sum.flags.prints_variable() {
            return Ok(sum);
        }
        let place = run.open_node()?;
        let info = node.node_info(run)?;
        run.close_node(place, info);
        sum = sum.with_child(info, is_group(node));
    }
    Ok(sum)
}

impl Node for LayoutRenderingElement {
    ghost expansion = { λ style e. expanded style (view_node e) };

    #[cycle(info)]
    fn node_info<'c, 's, T: EntryLike>(
        &'s self,
        run: &mut DryRun<'c, 's, T>,
    ) -> Result<NodeInfo, Memory> {
        match self {
            LayoutRenderingElement::Text(text) => text.node_info(run),
            LayoutRenderingElement::Group(group) => group.node_info(run),
            LayoutRenderingElement::Number(number) => number.node_info(run),
            LayoutRenderingElement::Label(label) => label.node_info(run),
            LayoutRenderingElement::Date(date) => date.node_info(run),
            LayoutRenderingElement::Names(names) => names.node_info(run),
            LayoutRenderingElement::Choose(choose) => choose.node_info(run),
        }
    }

    #[cycle(shows)]
    fn node_shows<'c, 's, T: EntryLike>(
        &'s self,
        query: &mut Query<'c, 's, T>,
    ) -> Result<bool, Memory> {
        match self {
            LayoutRenderingElement::Text(text) => text.node_shows(query),
            LayoutRenderingElement::Group(group) => group.node_shows(query),
            LayoutRenderingElement::Number(number) => number.node_shows(query),
            LayoutRenderingElement::Label(label) => label.node_shows(query),
            LayoutRenderingElement::Date(date) => date.node_shows(query),
            LayoutRenderingElement::Names(names) => names.node_shows(query),
            LayoutRenderingElement::Choose(choose) => choose.node_shows(query),
        }
    }

    #[cycle(render)]
    fn render_with_plan<'p, 's, T: EntryLike>(
        &'s self,
        ctx: &mut Context<'s, T>,
        plan: Option<&NodePlan<'p>>,
    ) -> Result<(), RenderError> {
        match self {
            LayoutRenderingElement::Text(text) => text.render_with_plan(ctx, plan),
            LayoutRenderingElement::Group(group) => group.render_with_plan(ctx, plan),
            LayoutRenderingElement::Number(number) => number.render_with_plan(ctx, plan),
            LayoutRenderingElement::Label(label) => label.render_with_plan(ctx, plan),
            LayoutRenderingElement::Date(date) => date.render_with_plan(ctx, plan),
            LayoutRenderingElement::Names(names) => names.render_with_plan(ctx, plan),
            LayoutRenderingElement::Choose(choose) => choose.render_with_plan(ctx, plan),
        }
    }
}

/// Whether any of the nodes shows the variable.
#[cycle(shows)]
pub(crate) fn any_shows<'c, 's, T: EntryLike>(
    nodes: &'s [LayoutRenderingElement],
    query: &mut Query<'c, 's, T>,
) -> Result<bool, Memory>
    ensures value { Gives result (spec.any_shows
        (render_input T.answers query.old.now) query.old.now.state query.old.variable
        (expanded_nodes query.old.now.style (view_nodes nodes.now))) }
    ensures kept { query.new ≡ query.old }
{
    for node in nodes {
        if node.node_shows(query)? {
            return Ok(true);
        }
    }
    Ok(false)
}

/// The dry run of a node, and the state that it read.
#[inline(never)]
fn plan_node<'s, T: EntryLike>(
    ctx: &Context<'s, T>,
    node: &'s LayoutRenderingElement,
) -> Result<OwnedPlan, Memory>
    ensures { IfOk result (IsDryRunOf T.answers ctx.now (view_node node.now)) }
{
    let mut run = DryRun::for_plan(ctx);
    let info = node.node_info(&mut run)?;
    Ok(run.into_plan(info))
}

/// Renders nodes one after another, each by its plan if it has one. `plan` is that of the node
/// around them.
#[cycle(render)]
pub(crate) fn render_all<'p, 's, T: EntryLike>(
    ctx: &mut Context<'s, T>,
    nodes: &'s [LayoutRenderingElement],
    plan: Option<&NodePlan<'p>>,
) -> Result<(), RenderError>
    requires { IfSome plan (λ p. HasPlansOf T.answers ctx.old (view_nodes nodes.now) p.now) }
    ensures { Appends T.answers (λ w. spec.nodes_output w
        (expanded_nodes w.style (view_nodes nodes.now))) result ctx.old ctx.new }
{
    ctx.ensure_live()?;
    let mut plans = inside_plan(plan);
    for node in nodes {
        let known = next_plan(ctx, &mut plans);
        node.render_with_plan(ctx, known.as_ref())?;
    }
    Ok(())
}

/// Renders the nodes that print something, with the inherited delimiter between them. `plan` is
/// that of the node around them.
#[cycle(render)]
pub(crate) fn render_with_delimiter<'p, 's, T: EntryLike>(
    ctx: &mut Context<'s, T>,
    nodes: &'s [LayoutRenderingElement],
    plan: Option<&NodePlan<'p>>,
) -> Result<(), RenderError>
    requires { IfSome plan (λ p. HasPlansOf T.answers ctx.old (view_nodes nodes.now) p.now) }
    ensures { Appends T.answers (λ w inherited. spec.delimited_output w
        (expanded_nodes w.style (view_nodes nodes.now)) inherited true) result ctx.old ctx.new }
{
    ctx.ensure_live()?;
    let mut plans = inside_plan(plan);
    let mut first = true;
    for node in nodes {
        let known = next_plan(ctx, &mut plans);
        if render_if_it_prints(ctx, node, first, known.as_ref())? {
            first = false;
        }
    }
    Ok(())
}

/// Renders a node if it would print, after the inherited delimiter unless it is the first. Returns
/// whether it would print.
#[cycle(render)]
fn render_if_it_prints<'p, 's, T: EntryLike>(
    ctx: &mut Context<'s, T>,
    node: &'s LayoutRenderingElement,
    first: bool,
    plan: Option<&NodePlan<'p>>,
) -> Result<bool, RenderError>
    requires { IfSome plan (λ p. IsPlanOf T.answers ctx.old (view_node node.now) p.now) }
    ensures value { Gives result (prints_in T.answers ctx.old (view_node node.now)) }
    ensures after { Runs (after_child T.answers first (view_node node.now))
        result ctx.old ctx.new }
{
    match plan {
        Some(plan) => render_by_plan(ctx, node, first, plan),
        None => render_planning(ctx, node, first),
    }
}

/// Renders a node if it would print by a dry run, after the inherited delimiter unless it is the
/// first. Returns whether it would print.
#[cycle(render)]
#[inline(never)]
fn render_planning<'s, T: EntryLike>(
    ctx: &mut Context<'s, T>,
    node: &'s LayoutRenderingElement,
    first: bool,
) -> Result<bool, RenderError>
    ensures value { Gives result (prints_in T.answers ctx.old (view_node node.now)) }
    ensures after { Runs (after_child T.answers first (view_node node.now))
        result ctx.old ctx.new }
{
    let plan = plan_node(ctx, node);
    let plan = ctx.attempt(plan)?;
    render_by_plan(ctx, node, first, &plan.plan())
}

/// Renders a node if it prints by its plan, after the inherited delimiter unless it is the first.
/// Returns whether it prints.
#[cycle(render)]
fn render_by_plan<'p, 's, T: EntryLike>(
    ctx: &mut Context<'s, T>,
    node: &'s LayoutRenderingElement,
    first: bool,
    plan: &NodePlan<'p>,
) -> Result<bool, RenderError>
    requires { IsPlanOf T.answers ctx.old (view_node node.now) plan.now }
    ensures value { Gives result (prints_in T.answers ctx.old (view_node node.now)) }
    ensures after { Runs (after_child T.answers first (view_node node.now))
        result ctx.old ctx.new }
{
    let prints = plan.prints();
    if prints {
        render_child(ctx, node, first, plan)?;
    } else {
        ctx.ensure_live()?;
    }
    Ok(prints)
}

/// Renders a node, after the inherited delimiter unless it is the first.
#[cycle(render)]
fn render_child<'p, 's, T: EntryLike>(
    ctx: &mut Context<'s, T>,
    node: &'s LayoutRenderingElement,
    first: bool,
    plan: &NodePlan<'p>,
) -> Result<(), RenderError>
    requires { IsPlanOf T.answers ctx.old (view_node node.now) plan.now }
    ensures { Appends T.answers (λ w inherited s. spec.delimited_child_output first inherited
        (spec.node_output w (expanded w.style (view_node node.now)) inherited s))
        result ctx.old ctx.new }
{
    match ctx.delimiter() {
        Some(delimiter) if !first => {
            let delimited = ctx.push_elem()?;
            ctx.push_str(delimiter)?;
            let element = ctx.push_elem()?;
            node.render_with_plan(ctx, Some(plan))?;
            ctx.commit_elem(element, None, None)?;
            ctx.commit_elem(delimited, None, None)?;
            Ok(())
        }
        _ => {
            let element = ctx.push_elem()?;
            node.render_with_plan(ctx, Some(plan))?;
            ctx.commit_elem(element, None, None)?;
            Ok(())
        }
    }
}
