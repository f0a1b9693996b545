//! Whether a branch is taken (CSL 1.0.2, Choose), from its lists of tests, without an iterator.
//! Definitions: specs/Condition.antt, specs/BranchConditions.antt.

ghost use Rattle.std.specs.Prelude.{◌≡◌, map, IfErr, option_map};
ghost use Rattle.csl_elements.specs.View.{view_branch};
ghost use Rattle.csl_context.specs.Context.{Gives, FailsSilently, render_input};
ghost use Rattle.csl_nodes.specs.Condition.{is_numeric, is_uncertain, is_located, is_positioned, is_of_kind, is_present, is_disambiguated, one_if, all_if, conditions, has_outcome, branch_matches};
ghost use Rattle.csl_nodes.specs.BranchConditions.{tests_of};

use crate::condition::{
    is_disambiguated, is_located, is_numeric, is_of_kind, is_positioned, is_present, is_uncertain,
};
use csl_context::{Context, RenderError};
use csl_entry::EntryLike;
use csl_style::{ChooseBranch, ChooseMatch, DateVariable, Kind, Locator, TestPosition, Variable};

/// All items of a test, none if the branch lacks it.
fn all_items<A>(tests: &Option<Vec<A>>) -> &[A]
    ensures { result.now ≡ all_if (option_map (λ v. v.items) tests.now) }
{
    match tests {
        Some(tests) => tests.as_slice(),
        None => &[],
    }
}

/// Whether the test for disambiguation, if there is one, has this outcome.
fn disambiguates<'s, T: EntryLike>(
    ctx: &Context<'s, T>,
    test: Option<bool>,
    outcome: bool,
) -> Result<bool, RenderError>
    ensures value { Gives result (has_outcome outcome
        (map (is_disambiguated (render_input T.answers ctx.now)) (one_if test))) }
    ensures err { IfErr result (λ e. FailsSilently e ctx.now) }
{
    match test {
        Some(wanted) => Ok(is_disambiguated(ctx, wanted)? == outcome),
        None => Ok(false),
    }
}

/// Whether any variable's test for a number has this outcome.
fn any_numeric<'s, T: EntryLike>(
    ctx: &Context<'s, T>,
    variables: &[Variable],
    outcome: bool,
) -> Result<bool, RenderError>
    ensures value { Gives result (has_outcome outcome
        (map (is_numeric (render_input T.answers ctx.now) ctx.now.state) variables.now)) }
    ensures err { IfErr result (λ e. FailsSilently e ctx.now) }
{
    for variable in variables {
        if is_numeric(ctx, *variable)? == outcome {
            return Ok(true);
        }
    }
    Ok(false)
}

/// Whether any date's test for an approximate date has this outcome.
fn any_uncertain<'s, T: EntryLike>(
    ctx: &Context<'s, T>,
    variables: &[DateVariable],
    outcome: bool,
) -> Result<bool, RenderError>
    ensures value { Gives result (has_outcome outcome
        (map (is_uncertain (render_input T.answers ctx.now) ctx.now.state) variables.now)) }
    ensures err { IfErr result (λ e. FailsSilently e ctx.now) }
{
    for variable in variables {
        if is_uncertain(ctx, *variable)? == outcome {
            return Ok(true);
        }
    }
    Ok(false)
}

/// Whether any test for the kind of the locator has this outcome.
fn any_located<'s, T: EntryLike>(
    ctx: &Context<'s, T>,
    kinds: &[Locator],
    outcome: bool,
) -> Result<bool, RenderError>
    ensures value { Gives result (has_outcome outcome
        (map (is_located (render_input T.answers ctx.now)) kinds.now)) }
    ensures err { IfErr result (λ e. FailsSilently e ctx.now) }
{
    for kind in kinds {
        if is_located(ctx, *kind)? == outcome {
            return Ok(true);
        }
    }
    Ok(false)
}

/// Whether any test for the position of the cite has this outcome.
fn any_positioned<'s, T: EntryLike>(
    ctx: &Context<'s, T>,
    positions: &[TestPosition],
    outcome: bool,
) -> Result<bool, RenderError>
    ensures value { Gives result (has_outcome outcome
        (map (is_positioned (render_input T.answers ctx.now)) positions.now)) }
    ensures err { IfErr result (λ e. FailsSilently e ctx.now) }
{
    for position in positions {
        if is_positioned(ctx, *position)? == outcome {
            return Ok(true);
        }
    }
    Ok(false)
}

/// Whether any test for the kind of the entry has this outcome.
fn any_of_kind<'s, T: EntryLike>(
    ctx: &Context<'s, T>,
    kinds: &[Kind],
    outcome: bool,
) -> Result<bool, RenderError>
    ensures value { Gives result (has_outcome outcome
        (map (is_of_kind (render_input T.answers ctx.now)) kinds.now)) }
    ensures err { IfErr result (λ e. FailsSilently e ctx.now) }
{
    for kind in kinds {
        if is_of_kind(ctx, *kind)? == outcome {
            return Ok(true);
        }
    }
    Ok(false)
}

/// Whether any test for the presence of a variable has this outcome.
fn any_present<'s, T: EntryLike>(
    ctx: &Context<'s, T>,
    variables: &[Variable],
    outcome: bool,
) -> Result<bool, RenderError>
    ensures value { Gives result (has_outcome outcome
        (map (is_present (render_input T.answers ctx.now) ctx.now.state) variables.now)) }
    ensures err { IfErr result (λ e. FailsSilently e ctx.now) }
{
    for variable in variables {
        if is_present(ctx, *variable)? == outcome {
            return Ok(true);
        }
    }
    Ok(false)
}

/// Whether any test of the branch has this outcome. The tests after the first that has it are not
/// read.
#[tactic(auto, using(crate::proofs::Outcomes::outcomes_are))]
fn any_has_outcome<'s, T: EntryLike>(
    ctx: &Context<'s, T>,
    branch: &ChooseBranch,
    outcome: bool,
) -> Result<bool, RenderError>
    ensures value { Gives result (has_outcome outcome
        (conditions (render_input T.answers ctx.now) ctx.now.state (tests_of branch.now))) }
    ensures err { IfErr result (λ e. FailsSilently e ctx.now) }
{
    Ok(
        disambiguates(ctx, branch.disambiguate, outcome)?
            || any_numeric(ctx, all_items(&branch.is_numeric), outcome)?
            || any_uncertain(ctx, all_items(&branch.is_uncertain_date), outcome)?
            || any_located(ctx, all_items(&branch.locator), outcome)?
            || any_positioned(ctx, all_items(&branch.position), outcome)?
            || any_of_kind(ctx, all_items(&branch.type_), outcome)?
            || any_present(ctx, all_items(&branch.variable), outcome)?,
    )
}

/// Whether the branch is taken if no branch before it is: whether its tests satisfy its match. The
/// lookups are silent.
///
/// # Errors
/// [`RenderError::Memory`]: out of memory, here or in the entry.
/// [`RenderError::Failed`]: the context had failed already.
#[tactic(auto, using(crate::proofs::Outcomes::matches_are))]
pub fn branch_holds<'s, T: EntryLike>(
    ctx: &Context<'s, T>,
    branch: &ChooseBranch,
) -> Result<bool, RenderError>
    ensures value { Gives result (branch_matches (render_input T.answers ctx.now) ctx.now.state
        (view_branch branch.now).tests) }
    ensures err { IfErr result (λ e. FailsSilently e ctx.now) }
{
    match branch.match_ {
        ChooseMatch::All => Ok(!any_has_outcome(ctx, branch, false)?),
        ChooseMatch::Any => any_has_outcome(ctx, branch, true),
        ChooseMatch::None => Ok(!any_has_outcome(ctx, branch, true)?),
    }
}
