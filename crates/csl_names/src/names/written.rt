//! The lists of a names node, each with its label, and delimiters between them (CSL 1.0.2, Names;
//! Label in Names).
//! Definitions: specs/NamesNode.antt.

ghost use Rattle.std.specs.Prelude.{◌≡◌, map, slice_get, option_map, true};
ghost use Rattle.lit_model.specs.Person.{person_view};
ghost use Rattle.csl_elements.specs.Names.{view_label};
ghost use Rattle.csl_elements.specs.NamesParts.{placed_label};
ghost use Rattle.csl_entry.specs.Answers.{cow_view};
ghost use Rattle.csl_context.specs.Context.{Runs, with_content};
ghost use Rattle.csl_names.specs.NamesNode as spec;
ghost use Rattle.csl_names.specs.NamesLists.{list_of};

use crate::list_styles::push_list_by;
use crate::names::lists::PersonList;
use csl_context::{BodyDressing, Context, RenderError};
use csl_entry::DisambiguatedNameForm;
use csl_style::{EtAl, Name, NameOptions, NameVariable, PlacedLabel, Term, VariablelessLabel};
use lit_model::Person;
use std::borrow::Cow;

/// The settings for the lists of a names node.
#[derive(Clone, Copy)]
pub(crate) struct NamesStyle<'n> {
    pub(crate) name: &'n Name,
    pub(crate) options: NameOptions<'n>,
    pub(crate) et_al: &'n EtAl,
    pub(crate) label: Option<PlacedLabel<'n>>,
    /// The text between two lists.
    pub(crate) delimiter: &'n str,
}

/// The label, if it is on that side of the names (`after`: after them), and not in a sort key.
fn label_on(
    label: Option<PlacedLabel<'_>>,
    sorting: bool,
    after: bool,
) -> Option<&VariablelessLabel>
    ensures { option_map (λ l. view_label l.now) result
        ≡ spec.label_on sorting after (option_map placed_label label.entry) }
{
    match label {
        None => None,
        Some(placed) => {
            if !sorting && placed.is_after == after {
                Some(placed.label)
            } else {
                None
            }
        }
    }
}

/// Writes the affixed term of a label. The label's strip-periods applies to the term alone.
fn push_term<T>(
    ctx: &mut Context<'_, T>,
    label: &VariablelessLabel,
    term: &str,
) -> Result<(), RenderError>
    ensures { Runs (with_content (spec.label_content (view_label label.now) term.now))
        result ctx.old ctx.new }
{
    let around = BodyDressing {
        formatting: label.formatting,
        affixes: &label.affixes,
        quotes: false,
        strip_periods: label.strip_periods,
    };
    let before = ctx.open_body(around)?;
    ctx.push_str(term)?;
    ctx.close_body(around, before)?;
    Ok(())
}

impl NamesStyle<'_> {
    /// Writes the label of a list, if it is on that side of the names.
    fn push_label<T>(
        &self,
        ctx: &mut Context<'_, T>,
        after: bool,
        variable: NameVariable,
        count: usize,
    ) -> Result<(), RenderError>
        ensures { Runs (spec.with_names_written (λ w. spec.with_label w
            (spec.label_on w.sorting after (spec.names_style_view self.now).label) variable count))
            result ctx.old ctx.new }
    {
        let sorting = ctx.sorting().is_some();
        match label_on(self.label, sorting, after) {
            None => ctx.ensure_live(),
            Some(label) => match ctx.term(Term::Name(variable), label.form, count != 1) {
                None => ctx.ensure_live(),
                Some(term) => push_term(ctx, label, term),
            },
        }
    }

    /// Writes the names of a list in the formatting of the name child.
    fn push_list_names<T>(
        &self,
        ctx: &mut Context<'_, T>,
        persons: &[Cow<'_, Person>],
        variable: NameVariable,
        forms: &[Option<DisambiguatedNameForm>],
    ) -> Result<(), RenderError>
        ensures { Runs (spec.with_names_written (λ w. spec.with_list w (spec.names_style_view
            self.now)
            (map (cow_view person_view) persons.now) variable forms.now)) result ctx.old ctx.new }
    {
        let before = ctx.enter_format(self.name.formatting)?;
        push_list_by(
            ctx,
            self.name,
            &self.options,
            self.et_al,
            variable,
            persons,
            forms,
        )?;
        ctx.leave_format(before);
        Ok(())
    }

    /// Writes a list: the delimiter, unless the list is the first; then label, names, label.
    #[tactic(auto, unfolding(crate::specs::NamesNode::with_labelled_list))]
    fn push_labelled_list<T>(
        &self,
        ctx: &mut Context<'_, T>,
        first: bool,
        persons: &[Cow<'_, Person>],
        variable: NameVariable,
        forms: &[Option<DisambiguatedNameForm>],
    ) -> Result<(), RenderError>
        ensures { Runs (spec.with_names_written (λ w. spec.with_labelled_list w
            (spec.names_style_view self.now)
            first (map (cow_view person_view) persons.now) variable forms.now))
            result ctx.old ctx.new }
    {
        if !first {
            ctx.push_str(self.delimiter)?;
        }
        self.push_label(ctx, false, variable, persons.len())?;
        self.push_list_names(ctx, persons, variable, forms)?;
        self.push_label(ctx, true, variable, persons.len())
    }

    /// Writes a list, unless it is empty or has no forms.
    fn push_list_if_any<T>(
        &self,
        ctx: &mut Context<'_, T>,
        first: bool,
        persons: &[Cow<'_, Person>],
        variable: NameVariable,
        forms: Option<&[Option<DisambiguatedNameForm>]>,
    ) -> Result<(), RenderError>
        ensures { Runs (spec.with_names_written (λ w. spec.with_list_if_any w (spec.names_style_view
            self.now)
            first (map (cow_view person_view) persons.now) variable
            (option_map (λ f. f.now) forms.entry))) result ctx.old ctx.new }
    {
        ctx.ensure_live()?;
        match forms {
            None => Ok(()),
            Some(forms) => {
                if !persons.is_empty() {
                    self.push_labelled_list(ctx, first, persons, variable, forms)?;
                }
                Ok(())
            }
        }
    }

    /// Writes the lists that have persons and forms.
    pub(crate) fn push_lists<T>(
        &self,
        ctx: &mut Context<'_, T>,
        lists: &[PersonList<'_>],
        forms: &[Vec<Option<DisambiguatedNameForm>>],
    ) -> Result<(), RenderError>
        ensures { Runs (spec.with_names_written (λ w. spec.with_lists w (spec.names_style_view
            self.now)
            true 0 (map (λ f. f.items) forms.now) (map list_of lists.now)))
            result ctx.old ctx.new }
    {
        ctx.ensure_live()?;
        let mut first = true;
        let mut place: usize = 0;
        for list in lists {
            let own = forms_at(forms, place);
            let skipped = is_skipped(&list.0, own);
            self.push_list_if_any(ctx, first, &list.0, list.1, own)?;
            first = first && skipped;
            place += 1;
        }
        Ok(())
    }
}

/// The forms of the list at a place, if there are some.
fn forms_at(
    forms: &[Vec<Option<DisambiguatedNameForm>>],
    place: usize,
) -> Option<&[Option<DisambiguatedNameForm>]>
    ensures { option_map (λ f. f.now) result ≡ slice_get (map (λ f. f.items) forms.now) place }
{
    match forms.get(place) {
        Some(forms) => Some(forms.as_slice()),
        None => None,
    }
}

/// Whether a list is left out: it is empty, or has no forms.
fn is_skipped(persons: &[Cow<'_, Person>], forms: Option<&[Option<DisambiguatedNameForm>]>) -> bool
    ensures { result ≡ spec.is_skipped (map (cow_view person_view) persons.now)
        (option_map (λ f. f.now) forms.entry) }
{
    match forms {
        None => true,
        Some(_) => persons.is_empty(),
    }
}
