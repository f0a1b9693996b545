//! Layouts (CSL 1.0.2, Layout).
//! Definitions: specs/Render.antt.

ghost use Rattle.csl_elements.specs.Node.{expand_layout};
ghost use Rattle.csl_elements.specs.View.{view_layout};
ghost use Rattle.csl_style.specs.Expanded.{macro_env};
ghost use Rattle.csl_render.specs.Render.{of_layout};

use crate::dry_run::DryRun;
use crate::element::{any_shows, nodes_info, render_all};
use crate::query::Query;
use crate::render::RenderCsl;
use csl_context::{Context, RenderError};
use csl_entry::EntryLike;
use csl_nodes::{UsageInfo, without_group_flag};
use csl_style::{Layout, Variable};

impl RenderCsl for Layout {
    ghost rendering = { λ style l. of_layout (expand_layout (macro_env style) (view_layout l)) };

    fn will_have_info<'s, T: EntryLike>(
        &'s self,
        ctx: &mut Context<'s, T>,
    ) -> Result<(bool, UsageInfo), RenderError> {
        let info = nodes_info(&self.elements, &mut DryRun::whole(ctx));
        let info = ctx.attempt(info)?;
        Ok(without_group_flag(info.answer()))
    }

    fn will_render<'s, T: EntryLike>(
        &'s self,
        ctx: &mut Context<'s, T>,
        var: Variable,
    ) -> Result<bool, RenderError> {
        let shows = any_shows(&self.elements, &mut Query::new(ctx, var));
        ctx.attempt(shows)
    }

    fn render<'s, T: EntryLike>(&'s self, ctx: &mut Context<'s, T>) -> Result<(), RenderError> {
        let outer_format = ctx.enter_format(self.formatting)?;
        let outer_delimiter = ctx.enter_delimiter(self.delimiter.as_deref())?;
        render_all(ctx, &self.elements, None)?;
        ctx.leave_delimiter(outer_delimiter);
        ctx.leave_format(outer_format);
        Ok(())
    }
}
