//! Groups (CSL 1.0.2, Group).
//! Definitions: specs/Tree.antt, specs/Plan.antt.

ghost use Rattle.std.specs.Prelude.{None, IfOk};
ghost use Rattle.csl_tree.specs.Content.{elem_content};
ghost use Rattle.csl_elements.specs.View.{view_group};
ghost use Rattle.csl_style.specs.Expanded.{expanded};
ghost use Rattle.csl_context.specs.Context.{Runs, IsInnermost, close_part_by};
ghost use Rattle.csl_nodes.specs.Text.{Appends};
ghost use Rattle.csl_render.specs.Plan.{IsDryRunOf, IsPlanOf};
ghost use Rattle.csl_render.specs.Tree.{node_output, shown_if};

use crate::dry_run::DryRun;
use crate::element::{any_shows, nodes_info, render_with_delimiter};
use crate::node::Node;
use crate::plan::{NodeInfo, NodePlan, OwnedPlan};
use crate::query::Query;
use csl_context::{BodyDressing, Context, Mark, RenderError};
use csl_entry::EntryLike;
use csl_style::{Display, Group};
use lit_model::Memory;

impl Node for Group {
    ghost expansion = { λ style g. expanded style (view_group g) };

    #[cycle(info)]
    fn node_info<'c, 's, T: EntryLike>(
        &'s self,
        run: &mut DryRun<'c, 's, T>,
    ) -> Result<NodeInfo, Memory> {
        let info = nodes_info(&self.children, run)?;
        Ok(info.with_flags(info.flags.of_group()))
    }

    #[cycle(shows)]
    fn node_shows<'c, 's, T: EntryLike>(
        &'s self,
        query: &mut Query<'c, 's, T>,
    ) -> Result<bool, Memory> {
        any_shows(&self.children, query)
    }

    #[cycle(render)]
    fn render_with_plan<'p, 's, T: EntryLike>(
        &'s self,
        ctx: &mut Context<'s, T>,
        plan: Option<&NodePlan<'p>>,
    ) -> Result<(), RenderError> {
        match plan {
            Some(plan) => render_group_by_plan(ctx, self, plan),
            None => render_planning_group(ctx, self),
        }
    }
}

/// The dry run of a group, and the state that it read.
#[inline(never)]
fn plan_group<'s, T: EntryLike>(ctx: &Context<'s, T>, group: &'s Group) -> Result<OwnedPlan, Memory>
    ensures { IfOk result (IsDryRunOf T.answers ctx.now (view_group group.now)) }
{
    let mut run = DryRun::for_plan(ctx);
    let info = group.node_info(&mut run)?;
    Ok(run.into_plan(info))
}

/// Renders a group by a dry run.
#[cycle(render)]
#[inline(never)]
fn render_planning_group<'s, T: EntryLike>(
    ctx: &mut Context<'s, T>,
    group: &'s Group,
) -> Result<(), RenderError>
    ensures { Appends T.answers (λ w. node_output w (expanded w.style (view_group group.now)))
        result ctx.old ctx.new }
{
    let plan = plan_group(ctx, group);
    let plan = ctx.attempt(plan)?;
    render_group_by_plan(ctx, group, &plan.plan())
}

/// Renders a group by its plan.
#[cycle(render)]
fn render_group_by_plan<'p, 's, T: EntryLike>(
    ctx: &mut Context<'s, T>,
    group: &'s Group,
    plan: &NodePlan<'p>,
) -> Result<(), RenderError>
    requires { IsPlanOf T.answers ctx.old (view_group group.now) plan.now }
    ensures { Appends T.answers (λ w. node_output w (expanded w.style (view_group group.now)))
        result ctx.old ctx.new }
{
    let usage = plan.usage();
    let around = BodyDressing {
        formatting: group.formatting,
        affixes: &group.affixes,
        quotes: false,
        strip_periods: false,
    };
    let element = ctx.push_elem()?;
    let before = ctx.open_body(around)?;
    let outer_delimiter = ctx.enter_delimiter(group.delimiter.as_deref())?;
    render_with_delimiter(ctx, &group.children, Some(plan))?;
    ctx.leave_delimiter(outer_delimiter);
    ctx.close_body(around, before)?;
    close_group(ctx, element, usage.should_render_group(), group.display)?;
    Ok(())
}

/// Closes the innermost element: keeps it if `shows`, else drops it.
fn close_group<'s, T: EntryLike>(
    ctx: &mut Context<'s, T>,
    mark: Mark,
    shows: bool,
    display: Option<Display>,
) -> Result<(), RenderError>
    requires innermost { IsInnermost mark ctx.old }
    ensures { Runs (close_part_by (λ _ c. shown_if shows (elem_content display None c)))
        result ctx.old ctx.new }
{
    ctx.ensure_live()?;
    if shows {
        return ctx.commit_elem(mark, display, None);
    }
    ctx.discard_elem(mark);
    Ok(())
}
