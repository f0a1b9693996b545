//! Plans. A plan is the result of a dry run of a node and of the nodes inside it. By its plan the
//! node is rendered without another dry run (CSL 1.0.2, Group).

ghost use Rattle.std.specs.Prelude.{◌≡◌, ◌↔◌, ◌||◌, false, IfSome, IsTrue, option_map};
ghost use Rattle.csl_elements.specs.declared.taxonomy.Variable.{Variable};
ghost use Rattle.csl_elements.specs.Node.{ExpandedNode, ExpandedNodes, expanded_node};
ghost use Rattle.csl_elements.specs.VariableSet.{has};
ghost use Rattle.csl_context.specs.Context.{render_input};
ghost use Rattle.csl_nodes.specs.Usage.{info_view, info_union, as_child_info, usage_flags_of};
ghost use Rattle.csl_render.specs.Flags.{info_of_flags};
ghost use Rattle.csl_render.specs.Plan as spec;

use crate::flags::InfoFlags;
use csl_context::Context;
use csl_entry::{EntryLike, SpecialForm};
use csl_nodes::UsageInfo;
use csl_style::VariableSet;

/// The result of a dry run of a node.
#[derive(Clone, Copy)]
pub(crate) struct NodeInfo {
    /// Whether the node would print, and its usage flags.
    pub(crate) flags: InfoFlags,
    /// Whether the node shows the author, if the special form asks.
    pub(crate) shows_author: bool,
    /// The branch that a choice takes: the number of its branches with conditions before it.
    pub(crate) branch: usize,
    /// The variables that the dry run read. The result holds while the same of them are suppressed.
    pub(crate) variables_read: VariableSet,
}

impl NodeInfo {
    /// The result for a node that does not show the author, with the variables that were read.
    pub(crate) fn new(answer: (bool, UsageInfo), read: VariableSet) -> NodeInfo
        ensures answer { spec.answer_of result ≡ info_view answer }
        ensures read { result.variables_read ≡ read }
        ensures author { result.shows_author ≡ false }
    {
        NodeInfo::of_choice(InfoFlags::of(answer), read, 0)
    }

    /// The result for a choice that takes a branch and does not show the author.
    pub(crate) fn of_choice(flags: InfoFlags, read: VariableSet, branch: usize) -> NodeInfo
        ensures answer { spec.answer_of result ≡ info_of_flags flags }
        ensures read { result.variables_read ≡ read }
        ensures author { result.shows_author ≡ false }
        ensures branch { result.branch ≡ branch }
    {
        NodeInfo {
            flags,
            shows_author: false,
            branch,
            variables_read: read,
        }
    }

    /// Whether the node would print, and its usage flags.
    pub(crate) fn answer(&self) -> (bool, UsageInfo)
        ensures { info_view result ≡ spec.answer_of self.now }
    {
        self.flags.answer()
    }

    /// The result with other flags.
    pub(crate) fn with_flags(self, flags: InfoFlags) -> NodeInfo
        ensures answer { spec.answer_of result ≡ info_of_flags flags }
        ensures read { result.variables_read ≡ self.variables_read }
        ensures author { result.shows_author ≡ self.shows_author }
    {
        NodeInfo {
            flags,
            shows_author: self.shows_author,
            branch: self.branch,
            variables_read: self.variables_read,
        }
    }

    /// The result for a node that shows the author or not.
    pub(crate) fn with_author(self, shows_author: bool) -> NodeInfo
        ensures answer { spec.answer_of result ≡ spec.answer_of self }
        ensures read { result.variables_read ≡ self.variables_read }
        ensures author { result.shows_author ≡ shows_author }
        ensures branch { result.branch ≡ self.branch }
    {
        NodeInfo {
            flags: self.flags,
            shows_author,
            branch: self.branch,
            variables_read: self.variables_read,
        }
    }

    /// The result for nodes together with one more child.
    pub(crate) fn with_child(self, child: NodeInfo, is_group: bool) -> NodeInfo
        ensures answer { spec.answer_of result
            ≡ info_union (spec.answer_of self) (as_child_info is_group (spec.answer_of child)) }
        ensures read { (v : Variable) → has result.variables_read v
            ≡ (has self.variables_read v || has child.variables_read v) }
        ensures author { result.shows_author ≡ (self.shows_author || child.shows_author) }
    {
        NodeInfo {
            flags: self.flags.with_child(child.flags, is_group),
            shows_author: self.shows_author || child.shows_author,
            branch: 0,
            variables_read: self.variables_read.union(child.variables_read),
        }
    }
}

/// An item of a plan, in the order of the nodes: the result for a node, before the items for the
/// nodes inside it.
#[derive(Clone, Copy)]
pub(crate) struct PlanItem {
    /// The result for the node.
    pub(crate) info: NodeInfo,
    /// How many of the next items are for the nodes inside: the children of a group, the nodes of a
    /// macro, the nodes that a choice takes, or the children of the first substitute of names, and
    /// all inside these. They start at the first node and may break off.
    pub(crate) descendants: usize,
}

/// The part of a context's state that dry runs read.
#[derive(Clone, Copy)]
pub(crate) struct DryState {
    suppressed: VariableSet,
    /// Whether a date was rendered. It is `false` if dry runs do not ask.
    first_date_seen: bool,
}

/// Whether dry runs under the special form ask if a date was rendered.
fn asks_for_dates(special: Option<SpecialForm>) -> bool
    ensures { result ≡ spec.asks_for_dates special }
{
    match special {
        None => false,
        Some(SpecialForm::VarOnly(_)) => false,
        Some(SpecialForm::OnlyFirstDate) => true,
        Some(SpecialForm::OnlyYearSuffix) => true,
        Some(SpecialForm::SuppressAuthor) => false,
    }
}

/// Whether a date was rendered, if dry runs in the context ask.
#[tactic(auto, using(crate::proofs::Reading::double_not))]
fn date_seen<'s, T: EntryLike>(ctx: &Context<'s, T>) -> bool
    ensures { result ≡ (spec.dry_now ctx.now).first_date_seen }
{
    asks_for_dates(ctx.special_form()) && !ctx.peek_is_first_date()
}

impl DryState {
    /// The part of the context's state that dry runs read.
    pub(crate) fn of<'s, T: EntryLike>(ctx: &Context<'s, T>) -> DryState
        ensures { spec.dry_view result ≡ spec.dry_now ctx.now }
    {
        DryState {
            suppressed: ctx.suppressed(),
            first_date_seen: date_seen(ctx),
        }
    }

    /// Whether dry runs that read these variables read the same of the context as of this state.
    #[inline(never)]
    pub(crate) fn is_alike<'s, T: EntryLike>(&self, read: VariableSet, ctx: &Context<'s, T>) -> bool
        ensures { IsTrue result ↔ spec.AreAlikeOn
            (render_input T.answers ctx.now) read (spec.dry_view self.now) ctx.now.state }
    {
        let now = DryState::of(ctx);
        self.first_date_seen == now.first_date_seen
            && self.suppressed.is_alike_on(read, now.suppressed)
    }
}

/// What the dry run of a node gave: its answer, the plan of the nodes inside, and the state that it
/// read.
#[derive(Drop)]
pub(crate) struct OwnedPlan {
    at: DryState,
    flags: InfoFlags,
    shows_author: bool,
    branch: usize,
    inside: Vec<PlanItem>,
}

impl OwnedPlan {
    /// A plan that owns its items, from the state that the dry run read, its result, and the plan
    /// of the nodes inside.
    pub(crate) fn new(at: DryState, info: NodeInfo, inside: Vec<PlanItem>) -> OwnedPlan
        ensures at { result.at ≡ at }
        ensures flags { result.flags ≡ info.flags }
        ensures author { result.shows_author ≡ info.shows_author }
        ensures branch { result.branch ≡ info.branch }
        ensures inside { result.inside.items ≡ inside.items }
    {
        OwnedPlan {
            at,
            flags: info.flags,
            shows_author: info.shows_author,
            branch: info.branch,
            inside,
        }
    }

    /// The plan of the node.
    pub(crate) fn plan(&self) -> NodePlan<'_>
        ensures flags { result.flags ≡ self.now.flags }
        ensures author { result.shows_author ≡ self.now.shows_author }
        ensures branch { result.branch ≡ self.now.branch }
        ensures at { result.inside.at.now ≡ self.now.at }
        ensures items { result.inside.items.now ≡ self.now.inside.items }
    {
        NodePlan {
            flags: self.flags,
            shows_author: self.shows_author,
            branch: self.branch,
            inside: ListPlan {
                at: &self.at,
                items: self.inside.as_slice(),
            },
        }
    }
}

/// A plan of a node: what its dry run answered, and the plan of the nodes inside.
#[derive(Clone, Copy)]
pub(crate) struct NodePlan<'p> {
    flags: InfoFlags,
    shows_author: bool,
    branch: usize,
    inside: ListPlan<'p>,
}

impl<'p> NodePlan<'p> {
    /// Whether the node would print.
    pub(crate) fn prints(&self) -> bool
        ensures { result ≡ (info_of_flags self.now.flags).prints }
    {
        self.flags.prints()
    }

    /// The usage flags of the node.
    pub(crate) fn usage(&self) -> UsageInfo
        ensures { usage_flags_of result ≡ (info_of_flags self.now.flags).flags }
    {
        self.flags.usage()
    }

    /// Whether the node shows the author, if the special form asks.
    pub(crate) fn shows_author(&self) -> bool
        ensures { result ≡ self.now.shows_author }
    {
        self.shows_author
    }

    /// The branch that a choice takes: the number of its branches with conditions before it.
    pub(crate) fn branch(&self) -> usize
        ensures { result ≡ self.now.branch }
    {
        self.branch
    }
}

/// A plan of a list of nodes: the items from the first node on, and the state that the dry runs
/// read.
#[derive(Clone, Copy)]
pub(crate) struct ListPlan<'p> {
    at: &'p DryState,
    items: &'p [PlanItem],
}

impl<'p> ListPlan<'p> {
    /// Takes the plan of the first node and leaves the plan of the nodes after it. Returns `None`
    /// if there is no result for the first node, or if the plan does not hold for the context.
    pub(crate) fn next<'s, T: EntryLike>(&mut self, ctx: &Context<'s, T>) -> Option<NodePlan<'p>>
        ensures next { (f : ExpandedNode) → (fs : ExpandedNodes)
            → spec.ArePlans (render_input T.answers ctx.now) (expanded_node f fs) self.old
            → IfSome result (spec.IsPlan (render_input T.answers ctx.now) ctx.now.state f) }
        ensures rest { (f : ExpandedNode) → (fs : ExpandedNodes)
            → spec.ArePlans (render_input T.answers ctx.now) (expanded_node f fs) self.old
            → spec.ArePlans (render_input T.answers ctx.now) fs self.new }
    {
        let (first, rest) = self.items.split_first()?;
        let (inside, after) = rest.split_at_checked(first.descendants)?;
        self.items = after;
        if !self.at.is_alike(first.info.variables_read, ctx) {
            return None;
        }
        Some(NodePlan {
            flags: first.info.flags,
            shows_author: first.info.shows_author,
            branch: first.info.branch,
            inside: ListPlan {
                at: self.at,
                items: inside,
            },
        })
    }
}

/// Takes the plan of the first node and leaves the plan of the nodes after it. Returns `None` if
/// the first node has no plan, or if its plan does not hold for the context.
pub(crate) fn next_plan<'p, 's, T: EntryLike>(
    ctx: &Context<'s, T>,
    plan: &mut Option<ListPlan<'p>>,
) -> Option<NodePlan<'p>>
    ensures next { (f : ExpandedNode) → (fs : ExpandedNodes)
        → IfSome plan.old (spec.ArePlans (render_input T.answers ctx.now) (expanded_node f fs))
        → IfSome result (spec.IsPlan (render_input T.answers ctx.now) ctx.now.state f) }
    ensures rest { (f : ExpandedNode) → (fs : ExpandedNodes)
        → IfSome plan.old (spec.ArePlans (render_input T.answers ctx.now) (expanded_node f fs))
        → IfSome plan.new (spec.ArePlans (render_input T.answers ctx.now) fs) }
{
    match plan {
        Some(plan) => plan.next(ctx),
        None => None,
    }
}

/// The plan of the nodes inside a node, if the node has a plan.
pub(crate) fn inside_plan<'p>(plan: Option<&NodePlan<'p>>) -> Option<ListPlan<'p>>
    ensures { result ≡ option_map (λ p. p.now.inside) plan.entry }
{
    match plan {
        Some(plan) => Some(plan.inside),
        None => None,
    }
}
