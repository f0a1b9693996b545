//! Callers of functions with a condition that no library meets: a form that is replaced, the items
//! of a stack, and parts for affixes and quotes.
//! Definitions: crates/csl_entry/specs/NameProperties.antt.

ghost use Rattle.std.specs.Prelude.{◌≡◌, IfOk, IfSome, OnOk, drop};
ghost use Rattle.std.specs.Int.NonZero.{non_zero_usize_get};
ghost use Rattle.csl_entry.specs.NameProperties.{name_properties, with_form};
ghost use Rattle.csl_entry.specs.declared.forms.name_form.DisambiguatedNameForm.TheVariants.{Count};

use csl_context::{Context, RenderError};
use csl_elements::Affixes;
use csl_entry::{DisambiguatedNameForm as Form, NameDisambiguationProperties};
use csl_tree::NonEmptyStack;
use lit_model::Memory;
use std::num::NonZeroUsize;

/// Replaces the form at this index by a count, and returns the replaced form.
pub fn count_form(properties: &mut NameDisambiguationProperties, idx: usize) -> Option<Form>
    ensures { name_properties properties.new
        ≡ with_form idx (name_properties properties.old) Count }
{
    let form = properties.get_form_mut(idx)?;
    let was = *form;
    *form = Form::Count;
    Some(was)
}

/// Removes the items from `idx` on, and returns them in order, or `None` if there are none.
pub fn items_from(
    stack: &mut NonEmptyStack<u8>,
    idx: NonZeroUsize,
) -> Result<Option<Vec<u8>>, Memory>
    ensures { IfOk result (λ taken. IfSome taken (λ items.
        items.items ≡ drop (non_zero_usize_get idx) stack.old)) }
{
    if idx < stack.len() {
        Ok(Some(stack.drain(idx)?))
    } else {
        Ok(None)
    }
}

/// Puts an item in the place of the last odd one. Returns whether there was one.
pub fn replace_last_odd(stack: &mut NonEmptyStack<u8>, item: u8) -> bool {
    match stack.last_mut_predicate(|it| *it % 2 == 1) {
        Some(odd) => {
            *odd = item;
            true
        }
        None => false,
    }
}

/// Writes the text in quotes, between affixes. The parts around it stay open.
#[tactic(auto, unfolding(csl_context::specs::Context::with_quotes))]
pub fn push_quoted<T>(
    ctx: &mut Context<'_, T>,
    affixes: &Affixes,
    text: &str,
) -> Result<(), RenderError>
    ensures { OnOk result (ctx.new.outer ≡ ctx.old.outer) }
{
    let middle = ctx.apply_prefix()?;
    let inside = ctx.push_quotes()?;
    ctx.push_str(text)?;
    let moved = ctx.pop_quotes(inside, affixes.suffix.as_deref())?;
    ctx.apply_suffix(affixes, middle, moved)?;
    Ok(())
}
