//! One name (CSL 1.0.2, Name; name-as-sort-order; demote-non-dropping-particle; sort-separator).

ghost use Rattle.std.specs.Prelude.{◌≡◌, option_map};
ghost use Rattle.lit_model.specs.Person.{person_view};
ghost use Rattle.csl_context.specs.Context.{Runs};
ghost use Rattle.csl_names.specs.Piece.{with_pieces};
ghost use Rattle.csl_names.specs.Name as spec;

use crate::part::{PartStyle, push_separated};
use crate::piece::{no_formatting, push_after_gap, push_gap, push_optional, push_word};
use csl_context::{Context, RenderError};
use csl_entry::DisambiguatedNameForm;
use lit_model::Person;

/// The settings of a name, resolved for its style and for sorting.
#[derive(Clone, Copy)]
pub(crate) struct NameStyle<'s> {
    pub(crate) given: PartStyle<'s>,
    pub(crate) family: PartStyle<'s>,
    /// The text after a family name that comes first.
    pub(crate) separator: &'s str,
    /// The text after an initial, if given names are shortened.
    pub(crate) initialize_with: Option<&'s str>,
    /// Whether initials keep a hyphen.
    pub(crate) hyphen: bool,
    /// Whether the particle of a family name that comes first is demoted.
    pub(crate) demotes: bool,
    /// Whether the name is part of a sort key.
    pub(crate) sorting: bool,
}

impl NameStyle<'_> {
    /// The demoted particle, if there is one.
    fn demoted_particle<'p>(&self, person: &'p Person) -> Option<&'p str>
        ensures { option_map (λ t. t.now) result
            ≡ spec.demoted_particle (spec.name_style_view self.now) (person_view person.now) }
    {
        if self.demotes {
            person.name_particle()
        } else {
            None
        }
    }

    /// The family name that comes first, without a demoted particle.
    fn leading_name<'p>(&self, person: &'p Person) -> &'p str
        ensures { result.now
            ≡ spec.leading_name (spec.name_style_view self.now) (person_view person.now) }
    {
        if self.demotes {
            person.name_without_particle()
        } else {
            person.name.as_str()
        }
    }

    /// Writes the given name after a family name that comes first, with separator, demoted particle
    /// and given suffix. Writes nothing if there is no given name.
    fn push_given_after<T>(
        &self,
        ctx: &mut Context<'_, T>,
        person: &Person,
        form: DisambiguatedNameForm,
    ) -> Result<(), RenderError>
        ensures { Runs (with_pieces (spec.given_after_family (spec.name_style_view self.now) form
            (person_view person.now) (person_view person.now).given_name)) result ctx.old ctx.new }
    {
        match &person.given_name {
            None => ctx.ensure_live(),
            Some(_) => {
                push_word(ctx, self.separator, no_formatting())?;
                self.push_given_block(ctx, person, form)?;
                push_after_gap(ctx, self.demoted_particle(person), no_formatting())?;
                push_optional(ctx, self.given.suffix, no_formatting())
            }
        }
    }

    /// Writes a name that begins with the family name.
    #[tactic(auto, using(crate::proofs::Pieces::written_append))]
    fn push_family_first<T>(
        &self,
        ctx: &mut Context<'_, T>,
        person: &Person,
        form: DisambiguatedNameForm,
    ) -> Result<(), RenderError>
        ensures { Runs (with_pieces (spec.family_first (spec.name_style_view self.now) form
            (person_view person.now)))
            result ctx.old ctx.new }
    {
        self.family.push_part(ctx, self.leading_name(person))?;
        self.push_given_after(ctx, person, form)?;
        push_separated(ctx, self.separator, person.suffix.as_deref())
    }

    /// Writes the suffix of a person after a gap. If it wants a comma, the separator is before the
    /// gap.
    fn push_suffix_after<T>(
        &self,
        ctx: &mut Context<'_, T>,
        person: &Person,
    ) -> Result<(), RenderError>
        ensures { Runs (with_pieces (spec.suffix_after_name (spec.name_style_view self.now)
            (person_view person.now).comma_suffix (person_view person.now).suffix)) result ctx.old
            ctx.new }
    {
        match &person.suffix {
            None => ctx.ensure_live(),
            Some(suffix) => {
                if person.comma_suffix {
                    push_word(ctx, self.separator, no_formatting())?;
                }
                push_gap(ctx, no_formatting())?;
                push_word(ctx, suffix.as_str(), no_formatting())
            }
        }
    }

    /// Writes a name that begins with the given name.
    #[tactic(auto, using(crate::proofs::Pieces::written_append))]
    fn push_given_first<T>(
        &self,
        ctx: &mut Context<'_, T>,
        person: &Person,
        form: DisambiguatedNameForm,
    ) -> Result<(), RenderError>
        ensures { Runs (with_pieces (spec.given_first (spec.name_style_view self.now) form
            (person_view person.now)))
            result ctx.old ctx.new }
    {
        self.push_given_block(ctx, person, form)?;
        push_optional(ctx, self.given.suffix, no_formatting())?;
        push_gap(ctx, no_formatting())?;
        push_optional(ctx, self.family.prefix, self.family.formatting)?;
        push_word(ctx, person.name.as_str(), self.family.formatting)?;
        self.push_suffix_after(ctx, person)?;
        push_optional(ctx, self.family.suffix, no_formatting())
    }

    /// Writes a name in a Chinese, Japanese or Korean script, with no gap between its parts.
    fn push_cjk<T>(&self, ctx: &mut Context<'_, T>, person: &Person) -> Result<(), RenderError>
        ensures { Runs (with_pieces (spec.cjk_name (spec.name_style_view self.now)
            (person_view person.now)))
            result ctx.old ctx.new }
    {
        self.family.push_part(ctx, person.name.as_str())?;
        match &person.given_name {
            None => Ok(()),
            Some(given) => self.given.push_part(ctx, given.as_str()),
        }
    }

    /// Writes the name of an institution. In a sort key it has no article and no affixes.
    fn push_institution<T>(
        &self,
        ctx: &mut Context<'_, T>,
        person: &Person,
    ) -> Result<(), RenderError>
        ensures { Runs (with_pieces (spec.institution (spec.name_style_view self.now)
            (person_view person.now)))
            result ctx.old ctx.new }
    {
        if !self.sorting {
            return self.family.push_part(ctx, person.name.as_str());
        }
        push_word(ctx, person.name_without_article(), self.family.formatting)
    }

    /// Writes a name with its given name.
    fn push_long<T>(
        &self,
        ctx: &mut Context<'_, T>,
        person: &Person,
        form: DisambiguatedNameForm,
        reversed: bool,
    ) -> Result<(), RenderError>
        ensures { Runs (with_pieces (spec.long_name (spec.name_style_view self.now) form reversed
            (person_view person.now))) result ctx.old ctx.new }
    {
        if person.is_cjk() {
            self.push_cjk(ctx, person)
        } else if self.sorting || reversed {
            self.push_family_first(ctx, person, form)
        } else {
            self.push_given_first(ctx, person, form)
        }
    }

    /// Writes one name. Its gaps depend on the whole text of the innermost open part.
    pub(crate) fn push_name<T>(
        &self,
        ctx: &mut Context<'_, T>,
        person: &Person,
        form: DisambiguatedNameForm,
        reversed: bool,
    ) -> Result<(), RenderError>
        ensures { Runs (with_pieces (spec.one_name (spec.name_style_view self.now) form reversed
            (person_view person.now))) result ctx.old ctx.new }
    {
        if person.is_institutional() {
            self.push_institution(ctx, person)
        } else if form.is_long() {
            self.push_long(ctx, person, form, reversed)
        } else {
            self.family.push_part(ctx, person.name.as_str())
        }
    }
}
