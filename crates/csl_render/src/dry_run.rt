//! Dry runs over a context that is only read. They write the plan, and keep the result for each
//! macro.

ghost use Rattle.std.specs.Prelude.{◌≡◌, ◌<◌, ◌-◌, true, false, [], length, set, IfOk, IfSome};
ghost use Rattle.csl_style.specs.Expanded.{macro_env};
ghost use Rattle.csl_context.specs.Context.{render_input};
ghost use Rattle.csl_render.specs.DryRun as spec;
ghost use Rattle.csl_render.specs.DryRun.{Adds, IsCallInfo, dry_of, nodes_at, nodes_of};
ghost use Rattle.csl_render.specs.Plan.{dry_now, dry_view};

use crate::plan::{DryState, NodeInfo, OwnedPlan, PlanItem};
use csl_context::Context;
use csl_entry::EntryLike;
use csl_nodes::no_info;
use csl_style::VariableSet;
use lit_model::Memory;
use std::collections::BTreeMap;
use std::marker::Model;

/// The room made for the first items of a plan. In bytes it is below 1,008: for more, malloc first
/// joins all small pieces that are free.
const ROOM_OF_A_PLAN: usize = 20;

/// The room made for more items. Most plans need no more than both.
const MORE_ROOM: usize = 44;

/// The most macros of a style whose results are kept in a list, as many as the largest published
/// style has. To search it costs less than to look up the places of so few names.
const MOST_LISTED: usize = 67;

/// The room made for results in a list. It is what most cites need.
const ROOM_FOR_CALLS: usize = 20;

/// The place of the macro of a name, if the style has it.
#[tactic(auto, using(crate::proofs::DryRuns::nodes_called))]
pub(crate) fn macro_place<T>(ctx: &Context<'_, T>, name: &str) -> Option<usize>
    ensures { nodes_at ctx.now.style result ≡ macro_env ctx.now.style name.now }
{
    ctx.style().macro_index(name)
}

/// Makes room for more items in a list, if it has just so many.
fn make_room_at<X>(list: &mut Vec<X>, len: usize, more: usize) -> Result<(), Memory>
    ensures { list.new.items ≡ list.old.items }
{
    if list.len() == len {
        list.reserve(more)?;
    }
    Ok(())
}

/// How a dry run finds its result for a text that calls a macro: by the macro's name if the style
/// has few macros, else by its place in the style.
#[derive(Clone, Copy)]
pub(crate) enum CallKey<'s> {
    /// The macro's name.
    Name(&'s str),
    /// Its place, if the style has the macro.
    Place(Option<usize>),
}

/// The result for a text that calls the macro of a name.
#[derive(Clone, Copy)]
pub(crate) struct KeptCall<'s> {
    name: &'s str,
    info: NodeInfo,
}

/// A dry run over a context that is only read. It visits each macro at most once, and keeps the
/// result: in a list by the macro's name if the style has few macros, else in a map by the macro's
/// place in the style.
#[derive(Drop)]
pub(crate) struct DryRun<'c, 's, T: EntryLike> {
    ctx: &'c Context<'s, T>,
    /// Whether the run is to tell all flags, and not only what groups count.
    whole: bool,
    /// The results for macros, if the style has few.
    by_name: Vec<KeptCall<'s>>,
    /// The results for macros, if the style has many.
    by_place: BTreeMap<usize, NodeInfo>,
    /// The plan so far.
    items: Vec<PlanItem>,
}

impl<'c, 's, T: EntryLike> Model for DryRun<'c, 's, T> {
    ghost use Rattle.std.specs.Coded.{codes};
    ghost use Rattle.csl_elements.specs.contracts.element.CslMacro as of_macro;
    ghost use Rattle.csl_elements.specs.contracts.element.Layout as of_layout;
    ghost use Rattle.csl_elements.specs.SetCode.{set_code};
    ghost use Rattle.csl_context.specs.Context.{render_input};
    ghost use Rattle.csl_render.specs.DryRun.{HasInfos, HasListed, Run};
    ghost use Rattle.csl_render.specs.Plan.{state_for_dry_run};

    ghost Value = { Run T };

    ghost coded = { Prim.hlevel
        (codes, set_code, of_macro.the_row.coded, of_layout.the_row.coded) };

    ghost view = { λ r. record { now = r.ctx.now; whole = r.whole; items = r.items.items } };

    ghost invariant = { λ r.
        HasListed (render_input T.answers r.ctx.now)
        (state_for_dry_run r.whole r.ctx.now.special r.ctx.now.state) r.by_name.items
        × HasInfos (render_input T.answers r.ctx.now)
        (state_for_dry_run r.whole r.ctx.now.special r.ctx.now.state) r.by_place };
}

impl<'c, 's, T: EntryLike> DryRun<'c, 's, T> {
    /// A dry run that tells all flags. It knows no macro yet, and its plan is empty.
    pub(crate) fn whole(ctx: &'c Context<'s, T>) -> DryRun<'c, 's, T>
        ensures { result ≡ record { now = ctx.now; whole = true; items = [] } }
    {
        DryRun::new(ctx, true)
    }

    /// A dry run that tells what groups count. It knows no macro yet, and its plan is empty.
    pub(crate) fn for_plan(ctx: &'c Context<'s, T>) -> DryRun<'c, 's, T>
        ensures { result ≡ record { now = ctx.now; whole = false; items = [] } }
    {
        DryRun::new(ctx, false)
    }

    /// A dry run that knows no macro yet, with an empty plan.
    fn new(ctx: &'c Context<'s, T>, whole: bool) -> DryRun<'c, 's, T>
        ensures { result ≡ record { now = ctx.now; whole = whole; items = [] } }
    {
        DryRun {
            ctx,
            whole,
            by_name: Vec::new(ctx.alloc()),
            by_place: BTreeMap::new(ctx.alloc()),
            items: Vec::new(ctx.alloc()),
        }
    }

    /// The context.
    pub(crate) fn context(&self) -> &'c Context<'s, T>
        ensures { result.now ≡ self.now.now }
    {
        self.ctx
    }

    /// Whether the run may leave out nodes that change no group: it is for a plan, and there is no
    /// special form.
    pub(crate) fn may_stop(&self) -> bool
        ensures { result ≡ spec.may_stop self.now }
    {
        !self.whole && self.ctx.special_form().is_none()
    }

    /// Makes room in the plan for a node, before the nodes inside it. Returns its place.
    pub(crate) fn open_node(&mut self) -> Result<usize, Memory>
        ensures place { IfOk result (λ place. place ≡ length self.old.items) }
        ensures adds { IfOk result (λ _. Adds (λ is. length is ≡ 1) self.old self.new) }
    {
        make_room_at(&mut self.items, 0, ROOM_OF_A_PLAN)?;
        make_room_at(&mut self.items, ROOM_OF_A_PLAN, MORE_ROOM)?;
        let place = self.items.len();
        let info = NodeInfo::new(no_info(), VariableSet::new());
        self.items.push(PlanItem {
            info,
            descendants: 0,
        })?;
        Ok(place)
    }

    /// Puts the result for a node into its place. The items after it are for the nodes inside it.
    pub(crate) fn close_node(&mut self, place: usize, info: NodeInfo)
        requires { place < length self.old.items }
        ensures { self.new ≡ record {
          now = self.old.now;
          whole = self.old.whole;
          items = set self.old.items place
              (record { info = info; descendants = length self.old.items - place - 1 });
        } }
    {
        let descendants = self.items.len() - place - 1;
        self.items[place] = PlanItem { info, descendants };
    }

    /// The plan of a node, from the node's result. All items are for the nodes inside it.
    pub(crate) fn into_plan(self, info: NodeInfo) -> OwnedPlan
        ensures at { dry_view result.at ≡ dry_now self.entry.now }
        ensures flags { result.flags ≡ info.flags }
        ensures author { result.shows_author ≡ info.shows_author }
        ensures branch { result.branch ≡ info.branch }
        ensures inside { result.inside.items ≡ self.entry.items }
    {
        OwnedPlan::new(DryState::of(self.ctx), info, self.items)
    }

    /// How the result for a text that calls the macro of a name is found.
    pub(crate) fn key_of(&self, name: &'s str) -> CallKey<'s>
        ensures { nodes_of self.now.now.style result ≡ macro_env self.now.now.style name.now }
    {
        if self.ctx.style().macros().len() <= MOST_LISTED {
            CallKey::Name(name)
        } else {
            CallKey::Place(macro_place(self.ctx, name))
        }
    }

    /// The result for a text that calls a macro, if the dry run has kept it.
    pub(crate) fn cached_call(&self, key: CallKey<'s>) -> Option<NodeInfo>
        ensures { IfSome result (IsCallInfo (render_input T.answers self.now.now)
            (dry_of self.now) (nodes_of self.now.now.style key.entry)) }
    {
        match key {
            CallKey::Name(name) => self.call_by_name(name),
            CallKey::Place(place) => self.call_by_place(place),
        }
    }

    /// The result for a text that calls the macro of a name, if the list has it.
    fn call_by_name(&self, name: &str) -> Option<NodeInfo>
        ensures { IfSome result (IsCallInfo (render_input T.answers self.now.now)
            (dry_of self.now) (macro_env self.now.now.style name.now)) }
    {
        for call in &self.by_name {
            if call.name == name {
                return Some(call.info);
            }
        }
        None
    }

    /// The result for a text that calls the macro at a place, if the map has it.
    fn call_by_place(&self, place: Option<usize>) -> Option<NodeInfo>
        ensures { IfSome result (IsCallInfo (render_input T.answers self.now.now)
            (dry_of self.now) (nodes_at self.now.now.style place)) }
    {
        let place = place?;
        self.by_place.get(&place).copied()
    }

    /// Keeps the result for a text that calls a macro.
    pub(crate) fn cache_call(&mut self, key: CallKey<'s>, info: NodeInfo) -> Result<(), Memory>
        requires { IsCallInfo (render_input T.answers self.old.now) (dry_of self.old)
            (nodes_of self.old.now.style key) info }
        ensures { self.new ≡ self.old }
    {
        match key {
            CallKey::Name(name) => self.keep_by_name(name, info),
            CallKey::Place(place) => self.keep_by_place(place, info),
        }
    }

    /// Keeps the result for a text that calls the macro of a name in the list.
    fn keep_by_name(&mut self, name: &'s str, info: NodeInfo) -> Result<(), Memory>
        requires { IsCallInfo (render_input T.answers self.old.now) (dry_of self.old)
            (macro_env self.old.now.style name.now) info }
        ensures { self.new ≡ self.old }
    {
        make_room_at(&mut self.by_name, 0, ROOM_FOR_CALLS)?;
        self.by_name.push(KeptCall { name, info })?;
        Ok(())
    }

    /// Keeps the result for a text that calls the macro at a place in the map, if there is one.
    fn keep_by_place(&mut self, place: Option<usize>, info: NodeInfo) -> Result<(), Memory>
        requires { IsCallInfo (render_input T.answers self.old.now) (dry_of self.old)
            (nodes_at self.old.now.style place) info }
        ensures { self.new ≡ self.old }
    {
        if let Some(place) = place {
            self.by_place.insert(place, info)?;
        }
        Ok(())
    }
}
