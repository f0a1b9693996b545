//! A list of names (CSL 1.0.2, Name: delimiter, name-as-sort-order): the names that are shown, each
//! after its separator.

ghost use Rattle.std.specs.Prelude.{◌≡◌, map};
ghost use Rattle.std.specs.Cow.{cow_value};
ghost use Rattle.lit_model.specs.Person.{person_view};
ghost use Rattle.csl_context.specs.Context.{Runs};
ghost use Rattle.csl_names.specs.Piece.{with_pieces};
ghost use Rattle.csl_names.specs.List as spec;
ghost use Rattle.csl_names.specs.ListStyles.{list_style_view};

use crate::name::NameStyle;
use csl_context::{Context, RenderError};
use csl_entry::DisambiguatedNameForm;
use csl_style::{
    DelimiterBehavior, Formatting, NameAnd, NameAsSortOrder, NameVariable, OtherTerm, Style,
};
use csl_tree::ElemMeta;
use lit_model::Person;
use std::borrow::Cow;

/// The settings of a list of names, with all options resolved. A term is looked up in the style
/// only when it is written.
#[derive(Clone, Copy)]
pub(crate) struct ListStyle<'n> {
    pub(crate) style: &'n Style,
    pub(crate) variable: NameVariable,
    pub(crate) name: NameStyle<'n>,
    /// The text between two names.
    pub(crate) delimiter: &'n str,
    /// The kind of word before the last name, if there is one.
    pub(crate) and: Option<NameAnd>,
    /// When a delimiter precedes that word.
    pub(crate) before_last: DelimiterBehavior,
    /// When a delimiter precedes `et al.`.
    pub(crate) before_et_al: DelimiterBehavior,
    /// Whether the last name is kept if others are left out.
    pub(crate) use_last: bool,
    /// The names that begin with the family name.
    pub(crate) order: Option<NameAsSortOrder>,
    /// The term that replaces the names left out, such as `et al.`.
    pub(crate) et_al: OtherTerm,
    pub(crate) et_al_formatting: Formatting,
}

/// The form of the name at a place, if it has one.
pub(crate) fn form_at(
    forms: &[Option<DisambiguatedNameForm>],
    place: usize,
) -> Option<DisambiguatedNameForm>
    ensures { result ≡ spec.form_at forms.now place }
{
    match forms.get(place) {
        Some(form) => *form,
        None => None,
    }
}

/// The place of the first absent form, if any.
fn first_absent(forms: &[Option<DisambiguatedNameForm>]) -> Option<usize>
    ensures { result ≡ spec.first_absent forms.now }
{
    forms.iter().position(|form| form.is_none())
}

/// Whether the name at a place begins with the family name.
pub(crate) fn is_reversed(order: Option<NameAsSortOrder>, place: usize) -> bool
    ensures { result ≡ spec.is_reversed order place }
{
    match order {
        None => false,
        Some(NameAsSortOrder::First) => place == 0,
        Some(NameAsSortOrder::All) => true,
    }
}

impl ListStyle<'_> {
    /// Writes one name in an element of its own.
    pub(crate) fn push_name_element<T>(
        &self,
        ctx: &mut Context<'_, T>,
        person: &Person,
        form: DisambiguatedNameForm,
        reversed: bool,
        place: usize,
    ) -> Result<(), RenderError>
        ensures { Runs (spec.with_whole (list_style_view self.now) form reversed place
            (person_view person.now))
            result ctx.old ctx.new }
    {
        let element = ctx.push_elem()?;
        self.name.push_name(ctx, person, form, reversed)?;
        ctx.commit_elem(element, None, Some(ElemMeta::Name(self.variable, place)))?;
        Ok(())
    }

    /// Writes the names up to the first without a form. `ends` is the number of names if all are
    /// shown.
    fn push_shown_names<T>(
        &self,
        ctx: &mut Context<'_, T>,
        ends: Option<usize>,
        forms: &[Option<DisambiguatedNameForm>],
        persons: &[Cow<'_, Person>],
    ) -> Result<(), RenderError>
        ensures { Runs (λ now. with_pieces (spec.names_from now.inherited
            (list_style_view self.now) ends
            forms.now 0 (map (λ p. person_view (cow_value p)) persons.now)) now) result ctx.old
            ctx.new }
    {
        ctx.ensure_live()?;
        let mut place: usize = 0;
        for person in persons {
            match form_at(forms, place) {
                None => return Ok(()),
                Some(form) => {
                    self.push_join(ctx, ends, place)?;
                    let reversed = is_reversed(self.order, place);
                    self.push_name_element(ctx, person.as_ref(), form, reversed, place)?;
                }
            }
            place += 1;
        }
        Ok(())
    }

    /// Writes a list of names.
    #[tactic(auto, using(crate::proofs::Pieces::written_append))]
    pub(crate) fn push_list<T>(
        &self,
        ctx: &mut Context<'_, T>,
        persons: &[Cow<'_, Person>],
        forms: &[Option<DisambiguatedNameForm>],
    ) -> Result<(), RenderError>
        ensures { Runs (spec.with_names (list_style_view self.now)
            (map (λ p. person_view (cow_value p)) persons.now) forms.now) result ctx.old ctx.new }
    {
        match first_absent(forms) {
            None => self.push_shown_names(ctx, Some(persons.len()), forms, persons),
            Some(names) => {
                self.push_shown_names(ctx, None, forms, persons)?;
                self.push_cut_end(ctx, names, forms, persons)
            }
        }
    }
}
