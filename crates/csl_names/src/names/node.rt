//! The box of a names node that has persons (CSL 1.0.2, Names; Affixes; Display; Name: form).

ghost use Rattle.std.specs.Prelude.{◌≡◌, [], Some, true, map, option_map, is_some, decimal, IfOk};
ghost use Rattle.std.specs.Bool.{OnFalse};
ghost use Rattle.lit_model.specs.Person.{person_view};
ghost use Rattle.csl_elements.specs.NamesOptions.{inherited_options};
ghost use Rattle.csl_elements.specs.Names.{view_name, view_et_al};
ghost use Rattle.csl_elements.specs.NamesParts.{parts_node, default_name, default_et_al};
ghost use Rattle.csl_tree.specs.Content.{◌++>◌, elem_content};
ghost use Rattle.csl_tree.specs.Tokens.{meta_of};
ghost use Rattle.csl_entry.specs.Answers.{cow_view};
ghost use Rattle.csl_context.specs.Texts.{text_in};
ghost use Rattle.csl_context.specs.Context.{Runs, same_context, IsInnermost, close_part_by, with_content};
ghost use Rattle.csl_names.specs.NamesNode as spec;
ghost use Rattle.csl_names.specs.NamesLists.{list_of};

use crate::names::forms::count_of;
use crate::names::kept::forms_in;
use crate::names::lists::PersonList;
use crate::names::options::{merged_delimiter, merged_options};
use crate::names::written::NamesStyle;
use csl_context::{Context, Mark, RenderError};
use csl_style::{Display, EtAl, InheritedNameOptions, Name, NameForm, NameVariable, NamesParts};
use csl_tree::ElemMeta;
use lit_model::{Memory, Person};
use std::alloc::Global;
use std::borrow::Cow;

/// Copies of the persons.
fn persons_of(alloc: Global, persons: &[Cow<'_, Person>]) -> Result<Vec<Person>, Memory>
    ensures { IfOk result (λ copies. map person_view copies.items ≡ map
        (cow_view person_view) persons.now) }
{
    let mut copies = Vec::with_capacity(alloc, persons.len())?;
    for person in persons {
        copies.push(person.as_ref().clone(alloc)?)?;
    }
    Ok(copies)
}

/// The bytes of a text, if there is one.
fn len_of(text: &Option<String>) -> usize {
    match text {
        Some(text) => text.len(),
        None => 0,
    }
}

/// The bytes of a person's texts.
fn person_len(person: &Person) -> usize {
    person
        .name
        .len()
        .saturating_add(len_of(&person.given_name))
        .saturating_add(len_of(&person.prefix))
        .saturating_add(len_of(&person.suffix))
        .saturating_add(len_of(&person.alias))
}

/// The bytes of the texts of persons.
fn persons_len(persons: &[Cow<'_, Person>]) -> usize {
    let mut len: usize = 0;
    for person in persons {
        len = len.saturating_add(person_len(person.as_ref()));
    }
    len
}

/// The bytes of the texts of all persons of lists.
fn lists_len(lists: &[PersonList<'_>]) -> usize {
    let mut len: usize = 0;
    for list in lists {
        len = len.saturating_add(persons_len(&list.0));
    }
    len
}

/// Takes the bytes of all persons of lists from what the context may write, before they are copied.
fn charge_persons<T>(ctx: &mut Context<'_, T>, lists: &[PersonList<'_>]) -> Result<(), RenderError>
    ensures { Runs same_context result ctx.old ctx.new }
{
    if !ctx.is_limited() {
        // Without a limit nobody need know them.
        return ctx.ensure_live();
    }
    ctx.charge(lists_len(lists))
}

/// The meta of a names node's box: the persons with their variables.
fn lists_meta(alloc: Global, lists: &[PersonList<'_>]) -> Result<ElemMeta, Memory>
    ensures { IfOk result (λ meta. Some (meta_of meta)
        ≡ spec.lists_meta (map list_of lists.now)) }
{
    let mut copies: Vec<(Vec<Person>, NameVariable)> = Vec::with_capacity(alloc, lists.len())?;
    for list in lists {
        let persons = persons_of(alloc, &list.0)?;
        copies.push((persons, list.1))?;
    }
    Ok(ElemMeta::Names(copies))
}

/// The settings for the lists of a names node. The last two arguments replace a name child and an
/// Et-al that the node lacks.
fn names_style<'n>(
    parts: &NamesParts<'n>,
    inherited: &InheritedNameOptions<'n>,
    missing_name: &'n Name,
    missing_et_al: &'n EtAl,
) -> NamesStyle<'n>
    requires name { view_name missing_name.now ≡ default_name }
    requires et_al { view_et_al missing_et_al.now ≡ default_et_al }
    ensures { spec.names_style_view result ≡ spec.names_style (parts_node parts.now)
        (inherited_options inherited.now) }
{
    let name = parts.name().unwrap_or(missing_name);
    let own_delimiter = name.options.names_delimiter.as_deref().or(parts.delimiter);
    NamesStyle {
        name,
        options: merged_options(&name.options, &parts.options, inherited),
        et_al: parts.et_al().unwrap_or(missing_et_al),
        label: parts.label(),
        delimiter: own_delimiter.unwrap_or(merged_delimiter(&parts.options, inherited)),
    }
}

/// Writes a number.
fn push_count<T>(ctx: &mut Context<'_, T>, count: usize) -> Result<(), RenderError>
    ensures { Runs (with_content (λ inh. text_in inh (decimal count))) result ctx.old ctx.new }
{
    let text = ctx.attempt(format!(in ctx.alloc(); "{count}"))?;
    ctx.push_str(text.as_str())
}

/// Writes the lists, each name in its form. Keeps these forms if the state keeps none yet.
fn push_lists_keeping_forms<T>(
    ctx: &mut Context<'_, T>,
    style: &NamesStyle<'_>,
    variables: &[NameVariable],
    lists: &[PersonList<'_>],
) -> Result<(), RenderError>
    ensures { Runs (spec.with_lists_kept (spec.names_style_view style.now) variables.now
        (map list_of lists.now)) result ctx.old ctx.new }
{
    let forms = forms_in(ctx, variables, &style.options, lists)?;
    style.push_lists(ctx, lists, forms.name_forms())?;
    ctx.keep_first_name_properties(forms);
    Ok(())
}

/// Writes the number of names, or the names, into an empty part. Keeps the forms of names that are
/// not counted, if the state keeps none yet.
fn push_body<T>(
    ctx: &mut Context<'_, T>,
    style: &NamesStyle<'_>,
    variables: &[NameVariable],
    lists: &[PersonList<'_>],
) -> Result<(), RenderError>
    requires { OnFalse ctx.old.failed (ctx.old.inner ≡ []) }
    ensures { Runs (spec.with_names_body (spec.names_style_view style.now) variables.now
        (map list_of lists.now)) result ctx.old ctx.new }
{
    match style.options.form {
        NameForm::Count => {
            let later = !ctx.instance().cite_props.certain.is_first;
            push_count(ctx, count_of(&style.options, later, lists))
        }
        NameForm::Short | NameForm::Long => {
            push_lists_keeping_forms(ctx, style, variables, lists)
        }
    }
}

/// Writes the number of names, or the names, between the affixes of the node into an empty part. A
/// part is opened only if there are affixes.
#[tactic(auto, using(csl_context::proofs::Affixes::bare))]
fn push_affixed_body<T>(
    ctx: &mut Context<'_, T>,
    style: &NamesStyle<'_>,
    parts: &NamesParts<'_>,
    lists: &[PersonList<'_>],
) -> Result<(), RenderError>
    requires { OnFalse ctx.old.failed (ctx.old.inner ≡ []) }
    ensures { Runs (spec.with_affixed_body (option_map (λ t. t.now) parts.now.prefix)
        (option_map (λ t. t.now) parts.now.suffix) (spec.names_style_view style.now)
        parts.now.variables.now (map list_of lists.now)) result ctx.old ctx.new }
{
    if parts.prefix.is_none() && parts.suffix.is_none() {
        return push_body(ctx, style, parts.variables, lists);
    }
    let middle = ctx.push_elem()?;
    push_body(ctx, style, parts.variables, lists)?;
    ctx.splice_affixed(middle, parts.prefix, parts.suffix)?;
    Ok(())
}

/// Closes a part as the box of a names node with these lists.
pub fn commit_names<T>(
    ctx: &mut Context<'_, T>,
    mark: Mark,
    display: Option<Display>,
    lists: &[PersonList<'_>],
) -> Result<(), RenderError>
    requires innermost { IsInnermost mark ctx.old }
    ensures { Runs (close_part_by (λ _ c. elem_content display
        (spec.lists_meta (map list_of lists.now)) c))
        result ctx.old ctx.new }
{
    charge_persons(ctx, lists)?;
    let meta = ctx.attempt(lists_meta(ctx.alloc(), lists))?;
    ctx.commit_elem(mark, display, Some(meta))
}

/// Writes the box of a names node that has persons. It holds the affixed lists or, if the form is
/// the count, the affixed number of names. The state keeps the forms of the first names that are
/// not counted.
pub fn write_names<T>(
    ctx: &mut Context<'_, T>,
    parts: NamesParts<'_>,
    lists: &[PersonList<'_>],
) -> Result<(), RenderError>
    ensures { Runs (λ now. record now {
      inner = now.inner ++> spec.names_content now.style
          (is_some now.sorting) now.cite (parts_node parts.entry) (map list_of lists.now)
          now.inherited;
      state = spec.names_state now.cite (parts_node parts.entry) (map list_of lists.now)
          now.inherited
          now.state;
    }) result ctx.old ctx.new }
{
    let missing_name = Name::new(ctx.alloc());
    let missing_et_al = EtAl::default();
    let inherited = ctx.name_options();
    let style = names_style(&parts, &inherited, &missing_name, &missing_et_al);
    let before = ctx.enter_format(parts.formatting)?;
    let element = ctx.push_elem()?;
    push_affixed_body(ctx, &style, &parts, lists)?;
    commit_names(ctx, element, parts.display, lists)?;
    ctx.leave_format(before);
    Ok(())
}
