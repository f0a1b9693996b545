//! Choices (CSL 1.0.2, Choose).
//! Definitions: specs/Tree.antt, specs/Plan.antt.

ghost use Rattle.std.specs.Prelude.{◌<◌, ◌≡◌, IfOk, IfErr, IfSome, option_map};
ghost use Rattle.csl_elements.specs.declared.taxonomy.Variable.{Variable};
ghost use Rattle.csl_elements.specs.declared.taxonomy.Variable.TheVariants as variable;
ghost use Rattle.csl_entry.specs.Alike.{Each};
ghost use Rattle.csl_elements.specs.Node.{expand, expand_nodes, size, sizes};
ghost use Rattle.csl_elements.specs.View.{view_nodes, view_branch, view_choose};
ghost use Rattle.csl_context.specs.Context.{Reads, GivesBy, FailsSilently, render_input};
ghost use Rattle.csl_nodes.specs.Condition as spec;
ghost use Rattle.csl_render.specs.Expanded.{expanded_taken};
ghost use Rattle.csl_render.specs.Names.{Macros};
ghost use Rattle.csl_render.specs.Plan.{HasTested, HasAllTested, HasPlansOf, IsPlanOf, TakesBranch, nodes_of_branch};
ghost use Rattle.csl_elements.specs.VariableSet.{Has, IsWithin};
ghost use Rattle.csl_style.specs.Expanded.{expanded, expanded_nodes};
ghost use Rattle.csl_render.specs.Tree.{shows, node_output, choice_shows, choice_output};

use crate::dry_run::DryRun;
use crate::element::{any_shows, nodes_info, render_with_delimiter};
use crate::flags::InfoFlags;
use crate::node::Node;
use crate::plan::{NodeInfo, NodePlan};
use crate::query::Query;
use crate::variable_set::{with_dates, with_each};
use csl_context::{Context, RenderError};
use csl_entry::EntryLike;
use csl_nodes::{branch_holds, push_nothing};
use csl_style::{
    Choose, ChooseBranch, DateVariable, LayoutRenderingElement, Variable, VariableSet,
};
use lit_model::Memory;

/// The branch that a choice takes: the first whose conditions satisfy its match, else the
/// `cs:else`. It is told by the number of branches with conditions before it. Lookups are silent.
fn first_taken<'s, T: EntryLike>(
    ctx: &Context<'s, T>,
    choose: &Choose,
) -> Result<usize, RenderError>
    ensures value { GivesBy (nodes_of_branch (view_choose choose.now)) result (spec.chosen_children
        (render_input T.answers ctx.now) ctx.now.state (view_choose choose.now)) }
    ensures err { IfErr result (λ e. FailsSilently e ctx.now) }
{
    if branch_holds(ctx, &choose.if_)? {
        return Ok(0);
    }
    let mut before: usize = 1;
    for branch in &choose.else_if {
        if branch_holds(ctx, branch)? {
            return Ok(before);
        }
        before += 1;
    }
    Ok(before)
}

/// The nodes of a branch of a choice, told by the number of branches with conditions before it. The
/// `cs:else`, if there is one, is after all of them.
fn children_of_branch(choose: &Choose, branch: usize) -> Option<&[LayoutRenderingElement]>
    ensures value { option_map (λ ns. view_nodes ns.now) result
        ≡ nodes_of_branch (view_choose choose.now) branch }
    ensures within { (env : Macros) → IfSome result (λ ns.
        sizes (expand_nodes env (view_nodes ns.now)) < size (expand env (view_choose choose.now))) }
{
    if branch == 0 {
        return Some(choose.if_.children.as_slice());
    }
    match choose.else_if.get(branch - 1) {
        Some(taken) => Some(taken.children.as_slice()),
        None => match &choose.otherwise {
            Some(otherwise) => Some(otherwise.as_slice()),
            None => None,
        },
    }
}

/// Returns the nodes of the first branch whose conditions satisfy its match, else those of
/// `cs:else`, if there is one. Reads no more conditions than this needs. On `Ok` the context is
/// unchanged.
pub fn choose_children<'a, 's, T: EntryLike>(
    choose: &'a Choose,
    ctx: &mut Context<'s, T>,
) -> Result<Option<&'a [LayoutRenderingElement]>, RenderError>
    ensures { Reads (option_map (λ ns. view_nodes ns.now)) result
        (spec.chosen_children (render_input T.answers ctx.old)
        ctx.old.state (view_choose choose.now)) ctx.old ctx.new }
{
    ctx.ensure_live()?;
    let branch = ctx.settle(first_taken(ctx, choose))?;
    Ok(children_of_branch(choose, branch))
}

/// The branch that a choice takes, for a dry run.
fn branch_taken<'s, T: EntryLike>(ctx: &Context<'s, T>, choose: &Choose) -> Result<usize, Memory>
    ensures { GivesBy (nodes_of_branch (view_choose choose.now)) result (spec.chosen_children
        (render_input T.answers ctx.now) ctx.now.state (view_choose choose.now)) }
{
    match first_taken(ctx, choose) {
        Ok(branch) => Ok(branch),
        Err(_) => Err(Memory),
    }
}

/// Returns the nodes that a choice takes. The choice shows the variables they show.
fn chosen_children<'s, T: EntryLike>(
    ctx: &Context<'s, T>,
    choose: &'s Choose,
) -> Result<Option<&'s [LayoutRenderingElement]>, Memory>
    ensures within { IfOk result (λ taken. IfSome taken (λ ns.
        sizes (expanded_nodes ctx.now.style (view_nodes ns.now))
        < size (expanded ctx.now.style (view_choose choose.now)))) }
    ensures shown { IfOk result (λ taken. (v : Variable) → shows (render_input T.answers ctx.now)
        ctx.now.state v (expanded ctx.now.style (view_choose choose.now))
        ≡ choice_shows (render_input T.answers ctx.now) ctx.now.state v
        (expanded_taken ctx.now.style taken)) }
{
    let branch = branch_taken(ctx, choose)?;
    Ok(children_of_branch(choose, branch))
}

/// The branch that a choice takes: that of its plan, or by its conditions if it has no plan.
fn branch_by_plan<'p, 's, T: EntryLike>(
    ctx: &Context<'s, T>,
    choose: &Choose,
    plan: Option<&NodePlan<'p>>,
) -> Result<usize, Memory>
    requires { IfSome plan (λ p. IsPlanOf T.answers ctx.now (view_choose choose.now) p.now) }
    ensures { IfOk result (TakesBranch (render_input T.answers ctx.now) ctx.now.state
        (expanded ctx.now.style (view_choose choose.now))) }
{
    match plan {
        Some(plan) => Ok(plan.branch()),
        None => branch_taken(ctx, choose),
    }
}

/// Returns the nodes that a choice takes, by its plan if it has one. The choice renders them
/// delimited. The plan of the nodes inside the choice is that of these nodes.
fn planned_children<'p, 's, T: EntryLike>(
    ctx: &Context<'s, T>,
    choose: &'s Choose,
    plan: Option<&NodePlan<'p>>,
) -> Result<Option<&'s [LayoutRenderingElement]>, Memory>
    requires { IfSome plan (λ p. IsPlanOf T.answers ctx.now (view_choose choose.now) p.now) }
    ensures within { IfOk result (λ taken. IfSome taken (λ ns.
        sizes (expanded_nodes ctx.now.style (view_nodes ns.now))
        < size (expanded ctx.now.style (view_choose choose.now)))) }
    ensures output { IfOk result (λ taken. node_output (render_input T.answers ctx.now)
        (expanded ctx.now.style (view_choose choose.now)) ctx.now.inherited ctx.now.state
        ≡ choice_output (render_input T.answers ctx.now) (expanded_taken ctx.now.style taken)
        ctx.now.inherited ctx.now.state) }
    ensures plan { IfOk result (λ taken. IfSome taken (λ ns. IfSome plan.entry (λ p.
        HasPlansOf T.answers ctx.now (view_nodes ns.now) p.now))) }
{
    let branch = branch_by_plan(ctx, choose, plan)?;
    Ok(children_of_branch(choose, branch))
}

/// The set with the variables of tests too, if there are any.
fn with_tested(set: VariableSet, tests: &Option<Vec<Variable>>) -> VariableSet
    ensures has { Each (Has result) (spec.all_if (option_map (λ v. v.items) tests.now)) }
    ensures kept { IsWithin set result }
{
    match tests {
        Some(tests) => with_each(set, tests),
        None => set,
    }
}

/// The set with the dates of tests too, if there are any.
fn with_tested_dates(set: VariableSet, tests: &Option<Vec<DateVariable>>) -> VariableSet
    ensures has { Each (λ v. Has result (variable.Date v))
        (spec.all_if (option_map (λ v. v.items) tests.now)) }
    ensures kept { IsWithin set result }
{
    match tests {
        Some(tests) => with_dates(set, tests),
        None => set,
    }
}

/// The variables that the tests of a branch look up.
fn variables_of_tests(branch: &ChooseBranch) -> VariableSet
    ensures { HasTested result (view_branch branch.now).tests }
{
    let set = with_tested(VariableSet::new(), &branch.is_numeric);
    let set = with_tested(set, &branch.variable);
    with_tested_dates(set, &branch.is_uncertain_date)
}

/// The variables that the tests of a choice look up.
fn tested_variables(choose: &Choose) -> VariableSet
    ensures { HasAllTested result choose.now }
{
    let mut set = variables_of_tests(&choose.if_);
    for branch in &choose.else_if {
        set = set.union(variables_of_tests(branch));
    }
    set
}

impl Node for Choose {
    ghost expansion = { λ style c. expanded style (view_choose c) };

    #[cycle(info)]
    fn node_info<'c, 's, T: EntryLike>(
        &'s self,
        run: &mut DryRun<'c, 's, T>,
    ) -> Result<NodeInfo, Memory> {
        let tested = tested_variables(self);
        let branch = branch_taken(run.context(), self)?;
        match children_of_branch(self, branch) {
            Some(nodes) => {
                let info = nodes_info(nodes, run)?;
                let flags = info.flags.without_group_flag();
                let read = tested.union(info.variables_read);
                Ok(NodeInfo::of_choice(flags, read, branch).with_author(info.shows_author))
            }
            None => Ok(NodeInfo::of_choice(InfoFlags::none(), tested, branch)),
        }
    }

    #[cycle(shows)]
    fn node_shows<'c, 's, T: EntryLike>(
        &'s self,
        query: &mut Query<'c, 's, T>,
    ) -> Result<bool, Memory> {
        match chosen_children(query.context(), self)? {
            Some(nodes) => any_shows(nodes, query),
            None => Ok(false),
        }
    }

    #[cycle(render)]
    fn render_with_plan<'p, 's, T: EntryLike>(
        &'s self,
        ctx: &mut Context<'s, T>,
        plan: Option<&NodePlan<'p>>,
    ) -> Result<(), RenderError> {
        let taken = planned_children(ctx, self, plan);
        match ctx.attempt(taken)? {
            Some(nodes) => render_with_delimiter(ctx, nodes, plan),
            None => push_nothing(ctx),
        }
    }
}
