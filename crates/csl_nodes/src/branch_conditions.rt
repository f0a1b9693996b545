//! The tests of a branch, one after another (CSL 1.0.2, Choose).

ghost use Rattle.std.specs.Prelude.{◌≡◌, option_map, slice_get};
ghost use Rattle.std.specs.Iterator.{YieldsFirst, item_count};
ghost use Rattle.csl_elements.specs.View.{view_branch};
ghost use Rattle.csl_context.specs.Context.{render_input};
ghost use Rattle.csl_nodes.specs.Condition.{all_if, conditions_at, conditions};
ghost use Rattle.csl_nodes.specs.BranchConditions as spec;
ghost use Rattle.csl_nodes.specs.BranchConditions.{arms_from, remaining_conditions, ReadsNext};

use crate::condition::{
    is_disambiguated, is_located, is_numeric, is_of_kind, is_positioned, is_present, is_uncertain,
};
use csl_context::{Context, RenderError};
use csl_entry::EntryLike;
use csl_style::ChooseBranch;

/// The sorts of tests of a branch, in the order in which they are read. As an iterator it yields
/// the sorts from itself on, without the last.
#[derive(Clone, Copy, Debug, PartialEq, Eq, Drop)]
pub enum BranchConditionPos {
    Disambiguate,
    IsNumeric,
    IsUncertainDate,
    Locator,
    Position,
    Type_,
    Variable,
}

impl BranchConditionPos {
    /// The sort of tests after this one.
    fn next_arm(self) -> Option<BranchConditionPos>
        ensures { result ≡ spec.next_arm self }
    {
        match self {
            BranchConditionPos::Disambiguate => Some(BranchConditionPos::IsNumeric),
            BranchConditionPos::IsNumeric => Some(BranchConditionPos::IsUncertainDate),
            BranchConditionPos::IsUncertainDate => Some(BranchConditionPos::Locator),
            BranchConditionPos::Locator => Some(BranchConditionPos::Position),
            BranchConditionPos::Position => Some(BranchConditionPos::Type_),
            BranchConditionPos::Type_ => Some(BranchConditionPos::Variable),
            BranchConditionPos::Variable => None,
        }
    }
}

impl Iterator for BranchConditionPos {
    type Item = BranchConditionPos;

    ghost next_gives = { YieldsFirst arms_from };

    ghost remaining = { item_count arms_from };

    fn next(&mut self) -> Option<BranchConditionPos> {
        let pos = *self;
        *self = pos.next_arm()?;
        Some(pos)
    }
}

/// An iterator that evaluates the tests of a branch one after another: a boolean for each. It ends
/// after an error.
#[derive(Drop)]
pub struct BranchConditionIter<'a, 's, T> {
    branch: &'a ChooseBranch,
    ctx: &'a Context<'s, T>,
    pos: BranchConditionPos,
    index: usize,
    ended: bool,
}

/// The item at `index` in a list of tests, if there is one.
fn nth_item<A: Copy>(tests: &Option<Vec<A>>, index: usize) -> Option<A>
    ensures { result ≡ slice_get (all_if (option_map (λ v. v.items) tests.now)) index }
{
    match tests {
        Some(tests) => tests.get(index).copied(),
        None => None,
    }
}

impl<'a, 's, T: EntryLike> BranchConditionIter<'a, 's, T> {
    /// An iterator over all tests of a branch. It has read nothing yet.
    pub fn from_branch(
        branch: &'a ChooseBranch,
        ctx: &'a Context<'s, T>,
    ) -> BranchConditionIter<'a, 's, T>
        ensures left { remaining_conditions T.answers result
            ≡ conditions (render_input T.answers ctx.now) ctx.now.state
            (view_branch branch.now).tests }
        ensures context { spec.context_of result ≡ ctx.now }
    {
        BranchConditionIter {
            branch,
            ctx,
            pos: BranchConditionPos::Disambiguate,
            index: 0,
            ended: false,
        }
    }

    /// Evaluates the test at the current place, if there is one.
    fn read(&self) -> Option<Result<bool, RenderError>>
        ensures { spec.ReadsAt self.now.ctx.now (slice_get (conditions_at
            (render_input T.answers self.now.ctx.now) self.now.ctx.now.state
            (spec.tests_of self.now.branch.now) self.now.pos) self.now.index) result }
    {
        let branch = self.branch;
        match self.pos {
            BranchConditionPos::Disambiguate => {
                if self.index == 0 {
                    match branch.disambiguate {
                        Some(wanted) => Some(is_disambiguated(self.ctx, wanted)),
                        None => None,
                    }
                } else {
                    None
                }
            }
            BranchConditionPos::IsNumeric => match nth_item(&branch.is_numeric, self.index) {
                Some(variable) => Some(is_numeric(self.ctx, variable)),
                None => None,
            },
            BranchConditionPos::IsUncertainDate => match nth_item(
                &branch.is_uncertain_date,
                self.index,
            ) {
                Some(variable) => Some(is_uncertain(self.ctx, variable)),
                None => None,
            },
            BranchConditionPos::Locator => match nth_item(&branch.locator, self.index) {
                Some(kind) => Some(is_located(self.ctx, kind)),
                None => None,
            },
            BranchConditionPos::Position => match nth_item(&branch.position, self.index) {
                Some(position) => Some(is_positioned(self.ctx, position)),
                None => None,
            },
            BranchConditionPos::Type_ => match nth_item(&branch.type_, self.index) {
                Some(kind) => Some(is_of_kind(self.ctx, kind)),
                None => None,
            },
            BranchConditionPos::Variable => match nth_item(&branch.variable, self.index) {
                Some(variable) => Some(is_present(self.ctx, variable)),
                None => None,
            },
        }
    }
}

impl<'a, 's, T: EntryLike> Iterator for BranchConditionIter<'a, 's, T> {
    type Item = Result<bool, RenderError>;

    ghost next_gives = { ReadsNext T.answers };

    ghost remaining = { item_count (remaining_conditions T.answers) };

    #[tactic(auto, using(crate::proofs::Readings::reading_laws))]
    fn next(&mut self) -> Option<Result<bool, RenderError>> {
        if self.ended {
            return None;
        }
        loop {
            match self.read() {
                Some(Ok(holds)) => {
                    self.index += 1;
                    return Some(Ok(holds));
                }
                Some(Err(error)) => {
                    self.ended = true;
                    return Some(Err(error));
                }
                None => {
                    self.pos = self.pos.next_arm()?;
                    self.index = 0;
                }
            }
        }
    }
}
