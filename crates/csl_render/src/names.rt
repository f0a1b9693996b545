//! Names (CSL 1.0.2, Names; Substitute): the dry run and shown variables of a names node.
//! Definitions: specs/Names.antt, specs/Tree.antt, specs/Plan.antt.

ghost use Rattle.std.specs.Prelude.{◌≡◌, true, IfOk, option_map, if◌then◌else◌};
ghost use Rattle.csl_elements.specs.NamesParts.{names_node, names_substitutes, first_substitute};
ghost use Rattle.csl_elements.specs.View.{view_nodes, view_names};
ghost use Rattle.csl_style.specs.Expanded.{expanded};
ghost use Rattle.csl_context.specs.Context.{Gives, render_input};
ghost use Rattle.csl_names.specs.NamesForms.{writes_no_name};
ghost use Rattle.csl_names.specs.NamesLists.{all_empty, peeked_lists};
ghost use Rattle.csl_render.specs.DryRun.{Adds, dry_of};
ghost use Rattle.csl_render.specs.Expanded.{expanded_substitutes};
ghost use Rattle.csl_render.specs.Names as spec;
ghost use Rattle.csl_nodes.specs.Usage.{info_view, no_info};
ghost use Rattle.csl_render.specs.Plan.{IsInfoOfSubstitutes};
ghost use Rattle.csl_render.specs.Tree.{substitute_shows};

mod refused;
mod rendered;

use self::refused::{is_of_names, refuses, shows_author};
use self::rendered::{render_names_by_plan, render_unplanned_names};
use crate::dry_run::DryRun;
use crate::element::{any_shows, tried_info};
use crate::node::Node;
use crate::plan::{NodeInfo, NodePlan};
use crate::query::Query;
use crate::variable_set::with_names;
use csl_context::{Context, RenderError};
use csl_entry::EntryLike;
use csl_names::{all_empty, may_hide, no_persons, peeked_lists, writes_no_name};
use csl_nodes::{UsageInfo, no_info};
use csl_style::{LayoutRenderingElement, Names, VariableSet};
use lit_model::Memory;

/// A summary of the lists of a names node in a dry run.
#[derive(Clone, Copy)]
struct NamesSummary {
    /// Whether no list has a person.
    is_empty: bool,
    /// Whether the node is void: no name of its lists is written.
    is_void: bool,
}

/// Looks up the lists of a names node silently, and summarizes them.
fn summarize_names<'s, T: EntryLike>(
    ctx: &Context<'s, T>,
    names: &Names,
) -> Result<NamesSummary, Memory>
    ensures empty { IfOk result (λ r. r.is_empty ≡ all_empty (peeked_lists
        (render_input T.answers ctx.now) ctx.now.state (names_node names.now).variables)) }
    ensures void { IfOk result (λ r. r.is_void ≡ writes_no_name (names_node names.now)
        (peeked_lists (render_input T.answers ctx.now) ctx.now.state
        (names_node names.now).variables)) }
{
    if no_persons(ctx, &names.variable)? {
        return Ok(NamesSummary {
            is_empty: true,
            is_void: true,
        });
    }
    if !may_hide(names) {
        return Ok(NamesSummary {
            is_empty: false,
            is_void: false,
        });
    }
    let lists = peeked_lists(ctx, &names.variable)?;
    Ok(NamesSummary {
        is_empty: false,
        is_void: writes_no_name(names.parts(), &lists),
    })
}

/// The dry run of names that are not refused, from the dry run of their substitute.
fn names_or_substitute_info(is_void: bool, inside: (bool, UsageInfo)) -> (bool, UsageInfo)
    ensures { info_view result ≡ spec.names_or_substitute_info is_void (info_view inside) }
{
    let usage = UsageInfo {
        has_vars: true,
        has_non_empty_vars: !is_void || inside.1.has_non_empty_vars,
        has_used_macros: is_void && inside.1.has_used_macros,
        has_non_empty_group: false,
    };
    (!is_void || inside.0, usage)
}

/// The dry run of void names, from whether they are refused and the dry run of their substitute.
fn void_info(refused: bool, inside: (bool, UsageInfo)) -> (bool, UsageInfo)
    ensures { info_view result ≡ (if refused then no_info
        else spec.names_or_substitute_info true (info_view inside)) }
{
    if refused {
        return no_info();
    }
    names_or_substitute_info(true, inside)
}

/// The children of the first `cs:substitute`. The dry run, shown variables and content of the
/// substitutes come from these children alone.
fn substitute_children(names: &Names) -> Option<&[LayoutRenderingElement]>
    ensures { option_map (λ ns. view_nodes ns.now) result
        ≡ first_substitute (names_substitutes names.now) }
{
    match names.substitute() {
        Some(substitute) => Some(substitute.children.as_slice()),
        None => None,
    }
}

/// The dry run of the first substitute, without the group flag. It adds the plan of each child.
#[cycle(info)]
fn substitute_info<'c, 's, T: EntryLike>(
    names: &'s Names,
    run: &mut DryRun<'c, 's, T>,
) -> Result<NodeInfo, Memory>
    ensures { IfOk result (λ i. Adds (IsInfoOfSubstitutes (render_input T.answers run.old.now)
        (dry_of run.old) (expanded_substitutes run.old.now.style names.now) i)
        run.old run.new) }
{
    match substitute_children(names) {
        Some(nodes) => {
            let info = tried_info(nodes, run)?;
            Ok(info.with_flags(info.flags.without_group_flag()))
        }
        None => Ok(NodeInfo::new(no_info(), VariableSet::new())),
    }
}

impl Node for Names {
    ghost expansion = { λ style n. expanded style (view_names n) };

    #[cycle(info)]
    #[inline(never)]
    fn node_info<'c, 's, T: EntryLike>(
        &'s self,
        run: &mut DryRun<'c, 's, T>,
    ) -> Result<NodeInfo, Memory> {
        let ctx = run.context();
        let read = with_names(VariableSet::new(), &self.variable);
        let summary = summarize_names(ctx, self)?;
        let alone = shows_author(ctx, self, summary.is_empty, false);
        if refuses(ctx, self, summary.is_empty, alone) {
            return Ok(NodeInfo::new(no_info(), read).with_author(alone));
        }
        if !summary.is_void {
            let answer = names_or_substitute_info(false, no_info());
            return Ok(NodeInfo::new(answer, read).with_author(alone));
        }
        let tried = substitute_info(self, run)?;
        let shown = shows_author(ctx, self, summary.is_empty, tried.shows_author);
        let refused = refuses(ctx, self, summary.is_empty, shown);
        let answer = void_info(refused, tried.answer());
        let read = read.union(tried.variables_read);
        Ok(NodeInfo::new(answer, read).with_author(shown))
    }

    #[cycle(shows)]
    fn node_shows<'c, 's, T: EntryLike>(
        &'s self,
        query: &mut Query<'c, 's, T>,
    ) -> Result<bool, Memory> {
        let summary = summarize_names(query.context(), self)?;
        names_or_substitute_show(self, query, summary.is_empty)
    }

    #[cycle(render)]
    #[inline(never)]
    fn render_with_plan<'p, 's, T: EntryLike>(
        &'s self,
        ctx: &mut Context<'s, T>,
        plan: Option<&NodePlan<'p>>,
    ) -> Result<(), RenderError> {
        match plan {
            Some(plan) => render_names_by_plan(ctx, self, plan),
            None => render_unplanned_names(ctx, self),
        }
    }
}

/// Whether names show the variable. `is_empty` is whether they have no persons.
#[cycle(shows)]
#[tactic(auto, using(crate::proofs::Within::shows_of_substitute))]
fn names_or_substitute_show<'c, 's, T: EntryLike>(
    names: &'s Names,
    query: &mut Query<'c, 's, T>,
    is_empty: bool,
) -> Result<bool, Memory>
    ensures value { Gives result (spec.names_show query.old.variable
        (names_node names.now) is_empty (substitute_shows (render_input T.answers query.old.now)
        query.old.now.state query.old.variable
        (expanded_substitutes query.old.now.style names.now))) }
    ensures kept { query.new ≡ query.old }
{
    if is_of_names(query.variable(), names.parts().variables) {
        return Ok(true);
    }
    if !is_empty {
        return Ok(false);
    }
    match substitute_children(names) {
        Some(nodes) => any_shows(nodes, query),
        None => Ok(false),
    }
}
