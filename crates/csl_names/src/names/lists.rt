//! The lists of persons of a names node, one for each variable or merged (CSL 1.0.2, Names; Name
//! Variables: editortranslator).

ghost use Rattle.std.specs.Prelude.{◌≡◌, [], ◌∷◌, ◌++◌, not, map, IfOk, OnOk};
ghost use Rattle.lit_model.specs.Person.{person_view};
ghost use Rattle.csl_entry.specs.Answers.{cow_view};
ghost use Rattle.csl_context.specs.RenderInput.{peek_names};
ghost use Rattle.csl_context.specs.Context.{Runs, Gives, GivesBy, render_input};
ghost use Rattle.csl_names.specs.NamesLists as spec;

use csl_context::{Context, RenderError};
use csl_entry::{EntryLike, same_persons};
use csl_style::{NameVariable, Term, TermForm};
use lit_model::{Memory, Person};
use std::alloc::Global;
use std::borrow::Cow;

/// The persons of a variable, and the variable.
pub type PersonList<'a> = (Vec<Cow<'a, Person>>, NameVariable);

/// Whether no list has a person.
pub fn all_empty(lists: &[PersonList<'_>]) -> bool
    ensures { result ≡ spec.all_empty (map spec.list_of lists.now) }
{
    for list in lists {
        if !list.0.is_empty() {
            return false;
        }
    }
    true
}

/// Whether the variables are the editors and the translators alone, in either order.
fn is_pair(variables: &[NameVariable]) -> bool
    ensures { result ≡ spec.is_pair variables.now }
{
    variables == [NameVariable::Editor, NameVariable::Translator].as_slice()
        || variables == [NameVariable::Translator, NameVariable::Editor].as_slice()
}

/// Whether the lists of these variables may merge: they are the editors and the translators alone,
/// and the style has the long term `editortranslator`.
fn may_merge<T>(ctx: &Context<'_, T>, variables: &[NameVariable]) -> bool
    ensures { result ≡ spec.may_merge ctx.now.style variables.now }
{
    let both = Term::Name(NameVariable::EditorTranslator);
    is_pair(variables) && ctx.term(both, TermForm::Long, false).is_some()
}

/// The lists of editors and translators. An empty list is dropped, and two lists of the same
/// persons become one.
fn merged_lists<'a>(
    alloc: Global,
    editors: Vec<Cow<'a, Person>>,
    translators: Vec<Cow<'a, Person>>,
) -> Result<Vec<PersonList<'a>>, Memory>
    ensures { IfOk result (λ lists. map spec.list_of lists.items
        ≡ spec.merged_lists (map (cow_view person_view) editors.entry.items)
        (map (cow_view person_view) translators.entry.items)) }
{
    let mut lists = Vec::with_capacity(alloc, 2)?;
    if editors.is_empty() {
        if !translators.is_empty() {
            lists.push((translators, NameVariable::Translator))?;
        }
        return Ok(lists);
    }
    if translators.is_empty() {
        lists.push((editors, NameVariable::Editor))?;
        return Ok(lists);
    }
    if same_persons(&editors, &translators) {
        lists.push((editors, NameVariable::EditorTranslator))?;
        return Ok(lists);
    }
    lists.push((editors, NameVariable::Editor))?;
    lists.push((translators, NameVariable::Translator))?;
    Ok(lists)
}

/// Appends a list to others.
fn add<'a>(
    lists: &mut Vec<PersonList<'a>>,
    persons: Vec<Cow<'a, Person>>,
    variable: NameVariable,
) -> Result<(), Memory>
    ensures { OnOk result (spec.lists_view lists.new ≡ spec.lists_view lists.old
        ++ (map (cow_view person_view) persons.entry.items, variable) ∷ []) }
{
    lists.push((persons, variable))?;
    Ok(())
}

/// Looks up the persons of a variable silently.
fn peek_names<'s, T: EntryLike>(
    ctx: &Context<'s, T>,
    variable: NameVariable,
) -> Result<Vec<Cow<'s, Person>>, Memory>
    ensures { GivesBy (λ found. map (cow_view person_view) found.items) result
        (peek_names (render_input T.answers ctx.now) ctx.now.state variable) }
{
    match ctx.peek_name_variable(variable) {
        Ok(found) => Ok(found),
        Err(_) => Err(Memory),
    }
}

/// Whether a variable has a person, by a silent lookup.
#[tactic(auto, using(crate::proofs::NoPersons::none_by_length))]
fn has_persons<'s, T: EntryLike>(
    ctx: &Context<'s, T>,
    variable: NameVariable,
) -> Result<bool, Memory>
    ensures { Gives result (not (spec.has_none (peek_names (render_input T.answers ctx.now)
        ctx.now.state variable))) }
{
    match ctx.peek_has_persons(variable) {
        Ok(found) => Ok(found),
        Err(_) => Err(Memory),
    }
}

/// The list of each variable, by lookups for printing.
fn each_resolved<'s, T: EntryLike>(
    ctx: &mut Context<'s, T>,
    variables: &[NameVariable],
) -> Result<Vec<PersonList<'s>>, RenderError>
    ensures value { GivesBy spec.lists_view result
        (spec.each_resolved (render_input T.answers ctx.old) ctx.old.state variables.now) }
    ensures after { Runs (λ now. record now {
      state = spec.state_after_resolve_all (render_input T.answers now) now.state variables.now;
    }) result ctx.old ctx.new }
{
    ctx.ensure_live()?;
    let mut lists = Vec::new(ctx.alloc());
    for variable in variables {
        let persons = ctx.resolve_name_variable(*variable)?;
        ctx.attempt(add(&mut lists, persons, *variable))?;
    }
    Ok(lists)
}

/// Whether no variable has a person, by silent lookups. It stops at the first that has one.
///
/// # Errors
/// [`Memory`]: out of memory, here or in the entry, or the context had failed already.
pub fn no_persons<'s, T: EntryLike>(
    ctx: &Context<'s, T>,
    variables: &[NameVariable],
) -> Result<bool, Memory>
    ensures { IfOk result (λ b. b
        ≡ spec.all_empty (spec.peeked_lists (render_input T.answers ctx.now)
        ctx.now.state variables.now)) }
{
    for variable in variables {
        if has_persons(ctx, *variable)? {
            return Ok(false);
        }
    }
    Ok(true)
}

/// The lists of a names node with these variables in a dry run: one for each variable, by silent
/// lookups. Editors and translators are not merged.
///
/// # Errors
/// [`Memory`]: out of memory, here or in the entry, or the context had failed already.
pub fn peeked_lists<'s, T: EntryLike>(
    ctx: &Context<'s, T>,
    variables: &[NameVariable],
) -> Result<Vec<PersonList<'s>>, Memory>
    ensures { GivesBy spec.lists_view result
        (spec.peeked_lists (render_input T.answers ctx.now) ctx.now.state variables.now) }
{
    let mut lists = Vec::new(ctx.alloc());
    for variable in variables {
        let persons = peek_names(ctx, *variable)?;
        add(&mut lists, persons, *variable)?;
    }
    Ok(lists)
}

/// The lists of a names node with these variables for printing. Each lookup may suppress its
/// variable.
pub fn resolved_lists<'s, T: EntryLike>(
    ctx: &mut Context<'s, T>,
    variables: &[NameVariable],
) -> Result<Vec<PersonList<'s>>, RenderError>
    ensures value { GivesBy spec.lists_view result
        (spec.resolved_lists (render_input T.answers ctx.old) ctx.old.state variables.now) }
    ensures after { Runs (λ now. record now {
      state = spec.lists_state (render_input T.answers now) now.state variables.now;
    }) result ctx.old ctx.new }
{
    if may_merge(ctx, variables) {
        let editors = ctx.resolve_name_variable(NameVariable::Editor)?;
        let translators = ctx.resolve_name_variable(NameVariable::Translator)?;
        return ctx.attempt(merged_lists(ctx.alloc(), editors, translators));
    }
    each_resolved(ctx, variables)
}
