//! The separator before a name of a list (CSL 1.0.2, Name: and, delimiter,
//! delimiter-precedes-last).
//! Definitions: specs/List.antt.

ghost use Rattle.std.specs.Prelude.{◌≡◌, ◌<◌, option_map};
ghost use Rattle.csl_context.specs.Context.{Runs};
ghost use Rattle.csl_names.specs.Piece.{with_pieces};
ghost use Rattle.csl_names.specs.List.{delimiter_precedes, last_name_separator, name_separator};
ghost use Rattle.csl_names.specs.ListStyles as spec;

use crate::list::{ListStyle, is_reversed};
use crate::piece::{no_formatting, push_gap, push_word};
use csl_context::{Context, RenderError};
use csl_style::{DelimiterBehavior, NameAnd, NameAsSortOrder, OtherTerm, Style, Term, TermForm};

/// Whether a delimiter follows `names` names if `shown` of them are shown.
pub(crate) fn delimiter_precedes(
    behavior: DelimiterBehavior,
    order: Option<NameAsSortOrder>,
    names: usize,
    shown: usize,
) -> bool
    ensures { result ≡ delimiter_precedes behavior order names shown }
{
    match behavior {
        DelimiterBehavior::Contextual => 2 <= names,
        DelimiterBehavior::AfterInvertedName => 0 < shown && is_reversed(order, shown - 1),
        DelimiterBehavior::Always => true,
        DelimiterBehavior::Never => false,
    }
}

/// The word before the last name, if there is an `and`. It is empty if the style lacks the term.
fn and_word(style: &Style, and: Option<NameAnd>) -> Option<&str>
    ensures { option_map (λ t. t.now) result ≡ spec.and_word style.now and }
{
    match and {
        None => None,
        Some(NameAnd::Symbol) => Some("&"),
        Some(NameAnd::Text) => {
            match style.term(Term::Other(OtherTerm::And), TermForm::Long, false) {
                Some(word) => Some(word),
                None => Some(""),
            }
        }
    }
}

impl ListStyle<'_> {
    /// Writes the separator before the last name, which is at `place`: the delimiter or a space,
    /// the word and a gap; or the delimiter alone if there is no word.
    fn push_last_join<T>(&self, ctx: &mut Context<'_, T>, place: usize) -> Result<(), RenderError>
        ensures { Runs (with_pieces (last_name_separator (spec.list_style_view self.now) place
            (spec.list_style_view self.now).and_word)) result ctx.old ctx.new }
    {
        match and_word(self.style, self.and) {
            None => push_word(ctx, self.delimiter, no_formatting()),
            Some(and) => {
                let before = if delimiter_precedes(self.before_last, self.order, place, place) {
                    self.delimiter
                } else {
                    " "
                };
                push_word(ctx, before, no_formatting())?;
                push_word(ctx, and, no_formatting())?;
                push_gap(ctx, no_formatting())
            }
        }
    }

    /// Writes the separator before the name at `place`, and nothing before the first name. `ends`
    /// is the number of names if all are shown.
    pub(crate) fn push_join<T>(
        &self,
        ctx: &mut Context<'_, T>,
        ends: Option<usize>,
        place: usize,
    ) -> Result<(), RenderError>
        requires { place < usize.MAX }
        ensures { Runs (with_pieces (name_separator (spec.list_style_view self.now) ends place))
            result ctx.old ctx.new }
    {
        if place == 0 {
            return ctx.ensure_live();
        }
        match ends {
            Some(count) if place + 1 == count => self.push_last_join(ctx, place),
            Some(_) => push_word(ctx, self.delimiter, no_formatting()),
            None => push_word(ctx, self.delimiter, no_formatting()),
        }
    }
}
