//! One contract for all nodes: dry run, shown variables and content.
//! Definitions: specs/Tree.antt, specs/Plan.antt.

ghost use Rattle.std.specs.Prelude.{◌≡◌, IfOk, IfSome};
ghost use Rattle.csl_elements.specs.Node.{ExpandedNode};
ghost use Rattle.csl_style.specs.Style.{StyleParts};
ghost use Rattle.csl_context.specs.Context.{Gives, render_input};
ghost use Rattle.csl_nodes.specs.Text.{Appends};
ghost use Rattle.csl_render.specs.DryRun.{Adds, dry_of};
ghost use Rattle.csl_render.specs.Plan.{IsInfo, IsPlan};
ghost use Rattle.csl_render.specs.Render.{of_node};
ghost use Rattle.csl_render.specs.Tree.{node_output, shows};

use crate::dry_run::DryRun;
use crate::plan::{NodeInfo, NodePlan};
use crate::query::Query;
use crate::render::RenderCsl;
use csl_context::{Context, RenderError};
use csl_entry::EntryLike;
use csl_nodes::UsageInfo;
use csl_style::Variable;
use lit_model::Memory;

/// A node of a style. All nodes are [`RenderCsl`] by one `impl`.
pub(crate) trait Node {
    /// The node in a style, with each macro's nodes in the place of its name.
    ghost expansion: { StyleParts → Self → ExpandedNode };

    /// The dry run of the node. It adds the plan of the nodes inside.
    fn node_info<'c, 's, T: EntryLike>(
        &'s self,
        run: &mut DryRun<'c, 's, T>,
    ) -> Result<NodeInfo, Memory>
        ensures { IfOk result (λ i. Adds (IsInfo (render_input T.answers run.old.now)
            (dry_of run.old) (expansion run.old.now.style self.now) i) run.old run.new) };

    /// Whether the node shows the variable of the query.
    fn node_shows<'c, 's, T: EntryLike>(
        &'s self,
        query: &mut Query<'c, 's, T>,
    ) -> Result<bool, Memory>
        ensures value { Gives result
            (shows (render_input T.answers query.old.now) query.old.now.state query.old.variable
            (expansion query.old.now.style self.now)) }
        ensures kept { query.new ≡ query.old };

    /// Renders the node, by its plan if it has one.
    fn render_with_plan<'p, 's, T: EntryLike>(
        &'s self,
        ctx: &mut Context<'s, T>,
        plan: Option<&NodePlan<'p>>,
    ) -> Result<(), RenderError>
        requires { IfSome plan (λ p. IsPlan (render_input T.answers ctx.old) ctx.old.state
            (expansion ctx.old.style self.now) p.now) }
        ensures { Appends T.answers (λ w. node_output w (expansion w.style self.now))
            result ctx.old ctx.new };
}

impl<N: Node> RenderCsl for N {
    ghost rendering = { λ style n. of_node (N.expansion style n) };

    fn will_have_info<'s, T: EntryLike>(
        &'s self,
        ctx: &mut Context<'s, T>,
    ) -> Result<(bool, UsageInfo), RenderError> {
        let info = self.node_info(&mut DryRun::whole(ctx));
        let info = ctx.attempt(info)?;
        Ok(info.answer())
    }

    fn will_render<'s, T: EntryLike>(
        &'s self,
        ctx: &mut Context<'s, T>,
        var: Variable,
    ) -> Result<bool, RenderError> {
        let shows = self.node_shows(&mut Query::new(ctx, var));
        ctx.attempt(shows)
    }

    fn render<'s, T: EntryLike>(&'s self, ctx: &mut Context<'s, T>) -> Result<(), RenderError> {
        self.render_with_plan(ctx, None)
    }
}
