//! The body of a node: what is inside its formatting, affixes, quotes and strip-periods (CSL 1.0.2,
//! Formatting, Affixes, Quotes, Strip-periods). A part is opened only for affixes and for quotes
//! that the node has.

ghost use Rattle.std.specs.Prelude.{◌≡◌, ◌<◌, ◌||◌, length, false, is_some, IfOk};
ghost use Rattle.std.specs.Bool.{OnTrue};
ghost use Rattle.csl_elements.specs.Dressing.{affix_texts};
ghost use Rattle.csl_context.specs.Bodies as spec;
ghost use Rattle.csl_context.specs.Quotes.{toggled_if};
ghost use Rattle.csl_context.specs.Context.{Runs};

use crate::context::Context;
use crate::error::RenderError;
use csl_style::{Affixes, formatting};
use csl_tree::Formatting;

/// The attributes of a node that apply to its body.
#[derive(Clone, Copy)]
pub struct BodyDressing<'b> {
    pub formatting: formatting::Formatting,
    pub affixes: &'b Affixes,
    pub quotes: bool,
    pub strip_periods: bool,
}

/// The inherited values that an open body changes, as they were before it.
#[derive(Clone, Copy)]
pub struct OpenBody {
    formatting: Formatting,
    in_quotes: bool,
    strip_periods: bool,
}

/// Whether there is a prefix or a suffix.
fn has_affixes(affixes: &Affixes) -> bool
    ensures { result ≡ spec.has_affixes (affix_texts affixes.now) }
{
    affixes.prefix.is_some() || affixes.suffix.is_some()
}

/// Whether the number of quotes around is odd, inside these quotes if there are any.
fn parity_inside(quotes: bool, in_quotes: bool) -> bool
    ensures { result ≡ toggled_if quotes in_quotes }
{
    if quotes { !in_quotes } else { in_quotes }
}

impl<'s, T> Context<'s, T> {
    /// Opens the parts of a body: one between the affixes, if there are any, and one inside the
    /// quotes, if there are any.
    fn open_parts(&mut self, around: BodyDressing<'_>) -> Result<(), RenderError>
        requires live { self.old.failed ≡ false }
        ensures { Runs (spec.with_parts_opened (spec.body_attributes around.entry)) result self.old
            self.new }
    {
        if has_affixes(around.affixes) {
            self.open_part()?;
        }
        if around.quotes {
            self.open_part()?;
        }
        Ok(())
    }

    /// Opens the body of a node in its formatting, affixes, quotes and strip-periods.
    /// [`Context::close_body`] closes it, and writes the affixes and the quotes unless the body is
    /// empty.
    #[inline(never)]
    pub fn open_body(&mut self, around: BodyDressing<'_>) -> Result<OpenBody, RenderError>
        ensures after { Runs (spec.with_open_body (spec.body_attributes around.entry)) result
            self.old
            self.new }
        ensures before { IfOk result (λ before. before ≡ spec.values_before self.old.inherited) }
        ensures parts { IfOk result (λ _. spec.HasOpenBody (spec.body_attributes around.entry)
            self.new) }
    {
        self.ensure_live()?;
        let before = self.values_before();
        self.open_parts(around)?;
        self.enter_body(around);
        Ok(before)
    }

    /// The inherited values that a body changes.
    fn values_before(&self) -> OpenBody
        ensures { result ≡ spec.values_before self.now.inherited }
    {
        OpenBody {
            formatting: self.writing.formatting,
            in_quotes: self.writing.in_quotes,
            strip_periods: self.writing.strip_periods,
        }
    }

    /// Sets the inherited values in a body.
    fn enter_body(&mut self, around: BodyDressing<'_>)
        ensures { self.new ≡ spec.with_body_inherited (spec.body_attributes around.entry) self.old }
    {
        self.writing.formatting = self.writing.formatting.apply(around.formatting);
        self.writing.in_quotes = parity_inside(around.quotes, self.writing.in_quotes);
        self.writing.strip_periods = around.strip_periods || self.writing.strip_periods;
    }

    /// Restores the quotes and the stripping of periods around a body.
    fn leave_body(&mut self, before: OpenBody)
        ensures { self.new ≡ spec.around_body before self.old }
    {
        self.writing.in_quotes = before.in_quotes;
        self.writing.strip_periods = before.strip_periods;
    }

    /// Restores the formatting around a body.
    fn leave_formatting(&mut self, before: OpenBody)
        ensures { self.new ≡ spec.with_formatting before self.old }
    {
        self.writing.formatting = before.formatting;
    }

    /// Closes the part inside the quotes, if there are any. Returns whether the front of the suffix
    /// moved into the quotes.
    #[tactic(auto, unfolding(crate::specs::Context::with_quotes))]
    fn close_quotes_if(&mut self, around: BodyDressing<'_>) -> Result<bool, RenderError>
        requires live { self.old.failed ≡ false }
        requires parts { spec.HasOpenBody (spec.body_attributes around) self.old }
        ensures after { Runs (spec.with_quotes_closed (spec.body_attributes around.entry)) result
            self.old
            self.new }
        ensures moved { IfOk result (λ moved. moved
            ≡ spec.moved_in (spec.body_attributes around.entry)
            self.old) }
    {
        if !around.quotes {
            return Ok(false);
        }
        let suffix = around.affixes.suffix.as_deref();
        let moved = self.moves_punctuation(suffix);
        self.close_quotes(suffix)?;
        Ok(moved)
    }

    /// Closes the part between the affixes, if there are any.
    fn close_affixes(&mut self, around: BodyDressing<'_>, moved: bool) -> Result<(), RenderError>
        requires live { self.old.failed ≡ false }
        requires parts { OnTrue (spec.has_affixes (affix_texts around.affixes.now))
            (0 < length self.old.outer) }
        ensures { Runs (spec.with_affixes_closed (spec.body_attributes around.entry) moved) result
            self.old
            self.new }
    {
        if has_affixes(around.affixes) {
            return self.close_affixed(around.affixes, moved);
        }
        Ok(())
    }

    /// Closes the body that [`Context::open_body`] opened with the same attributes, and writes its
    /// content in quotes and affixes, unless it is empty. If the first locale asks for it, a comma
    /// or period at the front of the suffix moves into the quotes (CSL 1.0.2, Locale:
    /// punctuation-in-quote). Restores the inherited values.
    #[inline(never)]
    pub fn close_body(
        &mut self,
        around: BodyDressing<'_>,
        before: OpenBody,
    ) -> Result<(), RenderError>
        requires parts { spec.HasOpenBody (spec.body_attributes around) self.old }
        ensures { Runs (spec.with_closed_body (spec.body_attributes around.entry) before) result
            self.old
            self.new }
    {
        self.ensure_live()?;
        self.leave_body(before);
        let moved = self.close_quotes_if(around)?;
        self.close_affixes(around, moved)?;
        self.leave_formatting(before);
        Ok(())
    }
}
