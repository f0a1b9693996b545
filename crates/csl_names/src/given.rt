//! Given names, in full or shortened (CSL 1.0.2, Name: initialize-with).
//! Definitions: specs/Name.antt.

ghost use Rattle.std.specs.Prelude.{◌∷◌, [], string_bytes};
ghost use Rattle.lit_model.specs.Initials.{initials};
ghost use Rattle.lit_model.specs.Person.{person_view};
ghost use Rattle.csl_context.specs.Context.{Runs, GivesBy};
ghost use Rattle.csl_names.specs.Piece.{word, with_pieces};
ghost use Rattle.csl_names.specs.Name as spec;

use crate::name::NameStyle;
use crate::piece::{push_after_gap, push_optional, push_word};
use csl_context::{Context, RenderError};
use csl_entry::DisambiguatedNameForm;
use lit_model::{Memory, Person};
use std::alloc::Global;

/// The initials of a person's given name.
fn initials_of(alloc: Global, person: &Person, text: &str, hyphen: bool) -> Result<String, Memory>
    ensures { GivesBy string_bytes result
        (initials text.now hyphen (spec.given_or_empty (person_view person.now))) }
{
    let mut short = String::new(alloc);
    match person.initials(&mut short, Some(text), hyphen) {
        Ok(()) => Ok(short),
        Err(_) => Err(Memory),
    }
}

/// The given name of a person. Each word of one capital letter, with or without a dot, becomes that
/// letter and `text`.
fn lettered_name(alloc: Global, person: &Person, text: &str) -> Result<String, Memory>
    ensures { GivesBy string_bytes result
        (spec.lettered_name text.now (spec.given_or_empty (person_view person.now))) }
{
    let mut short = String::new(alloc);
    match person.first_name_with_delimiter(&mut short, Some(text)) {
        Ok(()) => Ok(short),
        Err(_) => Err(Memory),
    }
}

/// The shortened given name: its initials in the form `LongInitialized`, else the result of
/// [`lettered_name`].
fn shorten(
    alloc: Global,
    person: &Person,
    form: DisambiguatedNameForm,
    text: &str,
    hyphen: bool,
) -> Result<String, Memory>
    ensures { GivesBy string_bytes result
        (spec.initialized_given text.now hyphen form (spec.given_or_empty (person_view person.now))) }
{
    match form {
        DisambiguatedNameForm::LongInitialized => initials_of(alloc, person, text, hyphen),
        DisambiguatedNameForm::Count
        | DisambiguatedNameForm::ShortInitialized
        | DisambiguatedNameForm::ShortFull
        | DisambiguatedNameForm::LongFull => lettered_name(alloc, person, text),
    }
}

impl NameStyle<'_> {
    /// Writes the given name, if there is one.
    fn push_given<T>(
        &self,
        ctx: &mut Context<'_, T>,
        person: &Person,
        form: DisambiguatedNameForm,
    ) -> Result<(), RenderError>
        ensures { Runs (with_pieces (spec.given_word (spec.name_style_view self.now) form
            (person_view person.now)))
            result ctx.old ctx.new }
    {
        match &person.given_name {
            None => ctx.ensure_live(),
            Some(given) => match self.initialize_with {
                None => push_word(ctx, given.as_str(), self.given.formatting),
                Some(text) => {
                    // Each byte of the name may be an initial.
                    ctx.charge(given.len().saturating_mul(text.len()))?;
                    self.push_short(ctx, person, form, text)
                }
            },
        }
    }

    /// Writes the shortened given name.
    fn push_short<T>(
        &self,
        ctx: &mut Context<'_, T>,
        person: &Person,
        form: DisambiguatedNameForm,
        text: &str,
    ) -> Result<(), RenderError>
        ensures { Runs (with_pieces (word (spec.initialized_given text.now
            (spec.name_style_view self.now).hyphen form (spec.given_or_empty (person_view
            person.now)))
            (spec.name_style_view self.now).given.formatting ∷ [])) result ctx.old ctx.new }
    {
        let short = shorten(ctx.alloc(), person, form, text, self.hyphen);
        let short = ctx.attempt(short)?;
        push_word(ctx, short.as_str(), self.given.formatting)
    }

    /// Writes the given part's prefix, the given name and, after a gap, the person's prefix, all in
    /// the given part's formatting.
    pub(crate) fn push_given_block<T>(
        &self,
        ctx: &mut Context<'_, T>,
        person: &Person,
        form: DisambiguatedNameForm,
    ) -> Result<(), RenderError>
        ensures { Runs (with_pieces (spec.given_block (spec.name_style_view self.now) form
            (person_view person.now)))
            result ctx.old ctx.new }
    {
        push_optional(ctx, self.given.prefix, self.given.formatting)?;
        self.push_given(ctx, person, form)?;
        push_after_gap(ctx, person.prefix.as_deref(), self.given.formatting)
    }
}
