//! Queries: whether nodes show a variable, over a context that is only read.
//! Definitions: specs/DryRun.antt.

ghost use Rattle.std.specs.Prelude.{◌≡◌, IfSome};
ghost use Rattle.csl_context.specs.Context.{render_input};
ghost use Rattle.csl_render.specs.DryRun.{call_shows, nodes_at};

use csl_context::Context;
use csl_entry::EntryLike;
use csl_style::Variable;
use lit_model::Memory;
use std::collections::BTreeMap;
use std::marker::Model;

/// A query whether nodes show a variable, over a context that is only read. It visits each macro at
/// most once, and keeps the result by the macro's place in the style.
#[derive(Drop)]
pub(crate) struct Query<'c, 's, T: EntryLike> {
    ctx: &'c Context<'s, T>,
    variable: Variable,
    calls: BTreeMap<usize, bool>,
}

impl<'c, 's, T: EntryLike> Model for Query<'c, 's, T> {
    ghost use Rattle.std.specs.Coded.{codes};
    ghost use Rattle.csl_elements.specs.contracts.element.CslMacro as of_macro;
    ghost use Rattle.csl_elements.specs.contracts.element.Layout as of_layout;
    ghost use Rattle.csl_elements.specs.SetCode.{set_code};
    ghost use Rattle.csl_context.specs.Context.{render_input};
    ghost use Rattle.csl_render.specs.DryRun as dry_run;
    ghost use Rattle.csl_render.specs.DryRun.{HasShown};

    ghost Value = { dry_run.Query T };

    ghost coded = { Prim.hlevel
        (codes, set_code, of_macro.the_row.coded, of_layout.the_row.coded) };

    ghost view = { λ q. record { now = q.ctx.now; variable = q.variable } };

    ghost invariant = { λ q.
        HasShown (render_input T.answers q.ctx.now) q.ctx.now.state q.variable q.calls };
}

impl<'c, 's, T: EntryLike> Query<'c, 's, T> {
    /// A query for the variable that knows no macro yet.
    pub(crate) fn new(ctx: &'c Context<'s, T>, variable: Variable) -> Query<'c, 's, T>
        ensures { result ≡ record { now = ctx.now; variable = variable } }
    {
        Query {
            ctx,
            variable,
            calls: BTreeMap::new(ctx.alloc()),
        }
    }

    /// The context.
    pub(crate) fn context(&self) -> &'c Context<'s, T>
        ensures { result.now ≡ self.now.now }
    {
        self.ctx
    }

    /// The variable of the query.
    pub(crate) fn variable(&self) -> Variable
        ensures { result ≡ self.now.variable }
    {
        self.variable
    }

    /// Whether a text that calls the macro at a place shows the variable, if the query has kept it.
    pub(crate) fn cached_call(&self, place: Option<usize>) -> Option<bool>
        ensures { IfSome result (λ shows. shows ≡ call_shows (render_input T.answers self.now.now)
            self.now.now.state self.now.variable (nodes_at self.now.now.style place)) }
    {
        let place = place?;
        self.calls.get(&place).copied()
    }

    /// Keeps whether a text that calls the macro at a place, if there is one, shows the variable.
    pub(crate) fn cache_call(&mut self, place: Option<usize>, shows: bool) -> Result<(), Memory>
        requires { shows ≡ call_shows (render_input T.answers self.old.now) self.old.now.state
            self.old.variable (nodes_at self.old.now.style place) }
        ensures { self.new ≡ self.old }
    {
        if let Some(place) = place {
            self.calls.insert(place, shows)?;
        }
        Ok(())
    }
}
