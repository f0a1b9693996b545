//! The content of a names node (CSL 1.0.2, Names; Substitute).
//! Definitions: specs/Names.antt, specs/Tree.antt, specs/Plan.antt.

ghost use Rattle.std.specs.Prelude.{◌≡◌, [], map, IfOk, IfSome};
ghost use Rattle.csl_elements.specs.Names.{shorthand_expansion};
ghost use Rattle.csl_elements.specs.NamesParts.{names_node, parts_node};
ghost use Rattle.csl_elements.specs.Node.{expand_substitute_nodes, as_substitute_child};
ghost use Rattle.csl_elements.specs.View.{view_node, view_nodes, view_names};
ghost use Rattle.csl_style.specs.Expanded.{macro_env, expanded};
ghost use Rattle.csl_context.specs.Context.{Runs, render_input};
ghost use Rattle.csl_names.specs.NamesLists.{all_empty, list_of};
ghost use Rattle.csl_render.specs.Expanded.{expanded_substitutes};
ghost use Rattle.csl_render.specs.Names as spec;
ghost use Rattle.csl_nodes.specs.Text.{Appends, render_output};
ghost use Rattle.csl_render.specs.Plan.{IsDryRunOf, TellsAuthorOf, IsPlanOf, HasPlansOf, HasPlansWithin};
ghost use Rattle.csl_render.specs.Render.{with_whole_output};
ghost use Rattle.csl_render.specs.Tree.{node_output, substitute_output, output_until_text, refused_in, names_output, shorthand_output};

use super::refused::{asks_for_author, refuses, refuses_shorthand};
use super::substitute_children;
use crate::dry_run::DryRun;
use crate::node::Node;
use crate::plan::{NodePlan, OwnedPlan, inside_plan, next_plan};
use csl_context::{Context, RenderError};
use csl_entry::EntryLike;
use csl_names::{PersonList, all_empty, commit_names, resolved_lists, write_names};
use csl_nodes::push_nothing;
use csl_style::{LayoutRenderingElement, Names, NamesParts};
use lit_model::Memory;

/// The dry run of names, and the state that it read.
#[inline(never)]
fn plan_names<'s, T: EntryLike>(ctx: &Context<'s, T>, names: &'s Names) -> Result<OwnedPlan, Memory>
    ensures { IfOk result (IsDryRunOf T.answers ctx.now (view_names names.now)) }
{
    let mut run = DryRun::for_plan(ctx);
    let info = names.node_info(&mut run)?;
    Ok(run.into_plan(info))
}

/// Renders names without a plan: by a dry run, if the special form asks whether they show the
/// author.
#[cycle(render)]
pub(super) fn render_unplanned_names<'s, T: EntryLike>(
    ctx: &mut Context<'s, T>,
    names: &'s Names,
) -> Result<(), RenderError>
    ensures { Appends T.answers (λ w. node_output w (expanded w.style (view_names names.now)))
        result ctx.old ctx.new }
{
    if asks_for_author(ctx.special_form()) {
        return render_planning_names(ctx, names);
    }
    render_names(ctx, names, None, false)
}

/// Renders names by a dry run.
#[cycle(render)]
#[inline(never)]
fn render_planning_names<'s, T: EntryLike>(
    ctx: &mut Context<'s, T>,
    names: &'s Names,
) -> Result<(), RenderError>
    ensures { Appends T.answers (λ w. node_output w (expanded w.style (view_names names.now)))
        result ctx.old ctx.new }
{
    let plan = plan_names(ctx, names);
    let plan = ctx.attempt(plan)?;
    render_names_by_plan(ctx, names, &plan.plan())
}

/// Renders names by their plan.
#[cycle(render)]
pub(super) fn render_names_by_plan<'p, 's, T: EntryLike>(
    ctx: &mut Context<'s, T>,
    names: &'s Names,
    plan: &NodePlan<'p>,
) -> Result<(), RenderError>
    requires { IsPlanOf T.answers ctx.old (view_names names.now) plan.now }
    ensures { Appends T.answers (λ w. node_output w (expanded w.style (view_names names.now)))
        result ctx.old ctx.new }
{
    render_names(ctx, names, Some(plan), plan.shows_author())
}

/// Renders names. Before the lookups for their lists, `shows_author` is whether they show the
/// author, if the special form asks: the lookups do not change it.
#[cycle(render)]
fn render_names<'p, 's, T: EntryLike>(
    ctx: &mut Context<'s, T>,
    names: &'s Names,
    plan: Option<&NodePlan<'p>>,
    shows_author: bool,
) -> Result<(), RenderError>
    requires planned { IfSome plan (λ p. HasPlansWithin T.answers ctx.old names.now p.now) }
    requires told { TellsAuthorOf T.answers ctx.old (view_names names.now) shows_author }
    ensures { Appends T.answers (λ w. node_output w (expanded w.style (view_names names.now)))
        result ctx.old ctx.new }
{
    let lists = resolved_lists(ctx, &names.variable)?;
    let is_empty = all_empty(&lists);
    let refused = refuses(ctx, names, is_empty, shows_author);
    render_lists(ctx, names, &lists, plan, refused)?;
    Ok(())
}

/// Appends the content of names with these lists, or nothing if they are refused. The plan is from
/// before the lookups for them.
#[cycle(render)]
fn render_lists<'p, 's, T: EntryLike>(
    ctx: &mut Context<'s, T>,
    names: &'s Names,
    lists: &[PersonList<'s>],
    plan: Option<&NodePlan<'p>>,
    refused: bool,
) -> Result<(), RenderError>
    requires planned { IfSome plan (λ p. HasPlansWithin T.answers ctx.old names.now p.now) }
    requires told { refused ≡ refused_in (render_input T.answers ctx.old)
        (names_node names.now) (expanded_substitutes ctx.old.style names.now)
        (all_empty (map list_of lists.now)) ctx.old.state }
    ensures { Appends T.answers (λ w inherited s. names_output w (names_node names.now)
        (expanded_substitutes w.style names.now) inherited
        (substitute_output w (expanded_substitutes w.style names.now)
        (spec.in_substitute (names_node names.now) inherited) (spec.suppressing_from s))
        (map list_of lists.now) s) result ctx.old ctx.new }
{
    if refused {
        return push_nothing(ctx);
    }
    if all_empty(lists) {
        return render_substitute(ctx, names, lists, plan);
    }
    write_names(ctx, names.parts(), lists)
}

/// Renders the substitute of names without persons, if there is one.
#[cycle(render)]
#[tactic(auto, using(crate::proofs::Within::output_of_substitute))]
fn render_substitute<'p, 's, T: EntryLike>(
    ctx: &mut Context<'s, T>,
    names: &'s Names,
    lists: &[PersonList<'s>],
    plan: Option<&NodePlan<'p>>,
) -> Result<(), RenderError>
    requires { IfSome plan (λ p. HasPlansWithin T.answers ctx.old names.now p.now) }
    ensures { Appends T.answers (λ w inherited s. spec.boxed_substitute (names_node names.now)
        (map list_of lists.now) (substitute_output w (expanded_substitutes w.style names.now)
        (spec.in_substitute (names_node names.now) inherited) (spec.suppressing_from s)) s)
        result ctx.old ctx.new }
{
    match substitute_children(names) {
        Some(nodes) => render_first_substitute(ctx, nodes, names, lists, plan),
        None => push_nothing(ctx),
    }
}

/// Appends the box of names with the children of their substitute, up to the first that adds text.
/// Lookups of these children suppress their variables.
#[cycle(render)]
fn render_first_substitute<'p, 's, T: EntryLike>(
    ctx: &mut Context<'s, T>,
    nodes: &'s [LayoutRenderingElement],
    names: &'s Names,
    lists: &[PersonList<'s>],
    plan: Option<&NodePlan<'p>>,
) -> Result<(), RenderError>
    requires { IfSome plan (λ p. HasPlansOf T.answers ctx.old (view_nodes nodes.now) p.now) }
    ensures { Appends T.answers (λ w inherited s. spec.boxed_substitute (names_node names.now)
        (map list_of lists.now) (output_until_text w
        (expand_substitute_nodes (macro_env w.style) (names_node names.now) (view_nodes nodes.now))
        (spec.in_substitute (names_node names.now) inherited) (render_output []
        (spec.suppressing_from s))) s)
        result ctx.old ctx.new }
{
    ctx.push_name_options(&names.options)?;
    let outer_format = ctx.enter_format(names.formatting)?;
    let suppressing = ctx.start_suppressing_queried_variables();
    let element = ctx.push_elem()?;
    render_until_text(ctx, nodes, names, plan)?;
    commit_names(ctx, element, names.display, lists)?;
    ctx.restore_suppressing(suppressing);
    ctx.leave_format(outer_format);
    ctx.pop_name_options();
    Ok(())
}

/// Renders children of a substitute, each by its plan if it has one, for as long as the open part
/// has no text. `plan` is that of the names around them.
#[cycle(render)]
fn render_until_text<'p, 's, T: EntryLike>(
    ctx: &mut Context<'s, T>,
    nodes: &'s [LayoutRenderingElement],
    original: &'s Names,
    plan: Option<&NodePlan<'p>>,
) -> Result<(), RenderError>
    requires { IfSome plan (λ p. HasPlansOf T.answers ctx.old (view_nodes nodes.now) p.now) }
    ensures { Runs (λ now. with_whole_output (output_until_text (render_input T.answers now)
        (expand_substitute_nodes (macro_env now.style) (names_node original.now)
        (view_nodes nodes.now)) now.inherited
        (render_output now.inner now.state)) now) result ctx.old ctx.new }
{
    ctx.ensure_live()?;
    let mut plans = inside_plan(plan);
    for node in nodes {
        if ctx.open_part_has_text() {
            return Ok(());
        }
        let known = next_plan(ctx, &mut plans);
        render_in_place(ctx, node, original, known.as_ref())?;
    }
    Ok(())
}

/// Renders a child of a substitute, by its plan if it has one. Names without children are rendered
/// in the place of the names around the substitute.
#[cycle(render)]
fn render_in_place<'p, 's, T: EntryLike>(
    ctx: &mut Context<'s, T>,
    node: &'s LayoutRenderingElement,
    original: &'s Names,
    plan: Option<&NodePlan<'p>>,
) -> Result<(), RenderError>
    requires { IfSome plan (λ p. IsPlanOf T.answers ctx.old (view_node node.now) p.now) }
    ensures { Appends T.answers (λ w. node_output w (as_substitute_child
        (names_node original.now) (view_node node.now) (expanded w.style (view_node node.now))))
        result ctx.old ctx.new }
{
    match node.childless_names() {
        Some(names) => render_shorthand(ctx, names, original),
        None => node.render_with_plan(ctx, plan),
    }
}

/// Renders names without children in the place of `original`.
#[inline(never)]
fn render_shorthand<'s, T: EntryLike>(
    ctx: &mut Context<'s, T>,
    names: &'s Names,
    original: &'s Names,
) -> Result<(), RenderError>
    ensures { Appends T.answers (λ w. shorthand_output w
        (shorthand_expansion (names_node original.now) (names_node names.now)))
        result ctx.old ctx.new }
{
    render_parts(ctx, names.parts_in_place_of(original.parts()))
}

/// Renders names of these parts, which have no substitute.
fn render_parts<'s, T: EntryLike>(
    ctx: &mut Context<'s, T>,
    parts: NamesParts<'s>,
) -> Result<(), RenderError>
    ensures { Appends T.answers (λ w. shorthand_output w (parts_node parts.entry))
        result ctx.old ctx.new }
{
    let lists = resolved_lists(ctx, parts.variables)?;
    let is_empty = all_empty(&lists);
    if is_empty || refuses_shorthand(ctx, parts) {
        return push_nothing(ctx);
    }
    write_names(ctx, parts, &lists)
}
