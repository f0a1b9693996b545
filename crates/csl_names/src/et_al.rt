//! The end of a list that leaves names out: `et al.`, or an ellipsis and the last name (CSL 1.0.2,
//! Et-al; Name: delimiter-precedes-et-al, et-al-use-last).
//! Definitions: specs/List.antt.

ghost use Rattle.std.specs.Prelude.{◌≡◌, ◌-◌, map, length, slice_get};
ghost use Rattle.std.specs.Cow.{cow_value};
ghost use Rattle.lit_model.specs.Person.{person_view};
ghost use Rattle.csl_context.specs.Context.{Runs};
ghost use Rattle.csl_names.specs.Piece.{with_pieces};
ghost use Rattle.csl_names.specs.List as spec;
ghost use Rattle.csl_names.specs.ListStyles.{list_style_view};

use crate::join::delimiter_precedes;
use crate::list::{ListStyle, form_at};
use crate::piece::{no_formatting, push_gap, push_word};
use csl_context::{Context, RenderError};
use csl_entry::DisambiguatedNameForm;
use csl_style::{NameAsSortOrder, Term, TermForm};
use lit_model::Person;
use std::borrow::Cow;

/// Whether every name begins with the family name.
fn is_all(order: Option<NameAsSortOrder>) -> bool
    ensures { result ≡ spec.is_all order }
{
    match order {
        None => false,
        Some(NameAsSortOrder::First) => false,
        Some(NameAsSortOrder::All) => true,
    }
}

impl ListStyle<'_> {
    /// Writes `et al.` if the style has a text for it. There are `names` names before it, and
    /// `shown` of them are shown.
    fn push_et_al<T>(
        &self,
        ctx: &mut Context<'_, T>,
        names: usize,
        shown: usize,
    ) -> Result<(), RenderError>
        ensures { Runs (with_pieces (spec.et_al_pieces (list_style_view self.now) names shown
            (list_style_view self.now).et_al)) result ctx.old ctx.new }
    {
        match self
            .style
            .term(Term::Other(self.et_al), TermForm::Long, false)
        {
            None => ctx.ensure_live(),
            Some(term) => {
                if delimiter_precedes(self.before_et_al, self.order, names, shown) {
                    push_word(ctx, self.delimiter, no_formatting())?;
                }
                push_gap(ctx, self.et_al_formatting)?;
                push_word(ctx, term, self.et_al_formatting)
            }
        }
    }

    /// The last form, if the list keeps its last name.
    fn last_form(&self, forms: &[Option<DisambiguatedNameForm>]) -> Option<DisambiguatedNameForm>
        ensures { result ≡ spec.last_form (list_style_view self.now) forms.now }
    {
        if self.use_last && !forms.is_empty() {
            form_at(forms, forms.len() - 1)
        } else {
            None
        }
    }

    /// Writes the delimiter, an ellipsis and the last name.
    fn push_kept_last<T>(
        &self,
        ctx: &mut Context<'_, T>,
        persons: &[Cow<'_, Person>],
        form: DisambiguatedNameForm,
    ) -> Result<(), RenderError>
        ensures { Runs (λ now. with_pieces (spec.kept_last now.inherited
            (list_style_view self.now) (map (λ p. person_view (cow_value p)) persons.now) form
            (slice_get (map (λ p. person_view (cow_value p)) persons.now) (length
            (map (λ p. person_view (cow_value p)) persons.now) - 1))) now) result ctx.old ctx.new }
    {
        match persons.last() {
            None => ctx.ensure_live(),
            Some(person) => {
                push_word(ctx, self.delimiter, no_formatting())?;
                push_word(ctx, "… ", no_formatting())?;
                let place = persons.len() - 1;
                self.push_name_element(ctx, person.as_ref(), form, is_all(self.order), place)
            }
        }
    }

    /// Writes the end of a list that leaves names out. `names` is the place of the first name
    /// without a form.
    pub(crate) fn push_cut_end<T>(
        &self,
        ctx: &mut Context<'_, T>,
        names: usize,
        forms: &[Option<DisambiguatedNameForm>],
        persons: &[Cow<'_, Person>],
    ) -> Result<(), RenderError>
        ensures { Runs (λ now. with_pieces (spec.cut_end now.inherited
            (list_style_view self.now) names forms.now
            (map (λ p. person_view (cow_value p)) persons.now)
            (spec.last_form (list_style_view self.now) forms.now)) now) result ctx.old ctx.new }
    {
        match self.last_form(forms) {
            Some(form) => self.push_kept_last(ctx, persons, form),
            None => {
                if self.name.sorting {
                    ctx.ensure_live()
                } else {
                    self.push_et_al(ctx, names, names.min(persons.len()))
                }
            }
        }
    }
}
