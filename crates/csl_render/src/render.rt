//! The three calls of a node or a layout: dry run, shown variables and content.

ghost use Rattle.csl_style.specs.Style.{StyleParts};
ghost use Rattle.csl_context.specs.Context.{Runs, Reads, render_input};
ghost use Rattle.csl_nodes.specs.Usage.{info_view};
ghost use Rattle.csl_render.specs.Render.{Renderable, info_in, shows_in, after_render};

use csl_context::{Context, RenderError};
use csl_entry::EntryLike;
use csl_nodes::UsageInfo;
use csl_style::Variable;

/// A node of a style, or a whole layout.
pub trait RenderCsl {
    /// The node or layout in a style, with each macro's nodes in the place of its name.
    ghost rendering: { StyleParts → Self → Renderable };

    /// The dry run: whether it would print, and its usage flags (CSL 1.0.2, Group). On `Ok` the
    /// context is unchanged.
    fn will_have_info<'s, T: EntryLike>(
        &'s self,
        ctx: &mut Context<'s, T>,
    ) -> Result<(bool, UsageInfo), RenderError>
        ensures { Reads info_view result (info_in (render_input T.answers ctx.old) ctx.old.state
            (rendering ctx.old.style self.now)) ctx.old ctx.new };

    /// Whether it would show the variable. On `Ok` the context is unchanged.
    ///
    /// # Errors
    /// As [`RenderCsl::will_have_info`].
    fn will_render<'s, T: EntryLike>(
        &'s self,
        ctx: &mut Context<'s, T>,
        var: Variable,
    ) -> Result<bool, RenderError>
        ensures { Reads (λ answer. answer) result (shows_in (render_input T.answers ctx.old)
            ctx.old.state var (rendering ctx.old.style self.now)) ctx.old ctx.new };

    /// Appends the content to the innermost open part and updates the state. On `Ok` nothing else
    /// in the context has changed.
    ///
    /// # Errors
    /// As [`RenderCsl::will_have_info`].
    fn render<'s, T: EntryLike>(&'s self, ctx: &mut Context<'s, T>) -> Result<(), RenderError>
        ensures { Runs (after_render T.answers (rendering ctx.old.style self.now))
            result ctx.old ctx.new };
}
