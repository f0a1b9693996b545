//! Affixes and quotes around a content (CSL 1.0.2, Affixes, Quotes).

ghost use Rattle.std.specs.Prelude.{◌≡◌, ◌+◌, ◌<◌, length, false, option_map, IfOk};
ghost use Rattle.csl_elements.specs.Dressing.{affix_texts};
ghost use Rattle.csl_tree.specs.Content.{◌++>◌, affixed_content};
ghost use Rattle.csl_tree.specs.Flat.{affix_content};
ghost use Rattle.csl_context.specs.Texts.{text_in_if, between_in};
ghost use Rattle.csl_context.specs.Quotes as spec;
ghost use Rattle.csl_context.specs.Context.{Runs, Gives, IsInnermost, with_part, close_part_by, with_quotes_toggled, with_quotes};

use crate::context::Context;
use crate::error::RenderError;
use crate::mark::Mark;
use csl_style::{Affixes, OtherTerm, Term, TermForm};
use csl_tree::Formatted;
use lit_model::Memory;

/// The comma or period that a suffix begins with, if any.
fn leading_punctuation(suffix: &str) -> Option<&'static str>
    ensures { option_map (λ t. t.now) result ≡ spec.leading_punctuation suffix.now }
{
    if suffix.starts_with(',') {
        Some(",")
    } else if suffix.starts_with('.') {
        Some(".")
    } else {
        None
    }
}

/// The suffix without a leading comma or period.
fn after_leading_punctuation(suffix: &str) -> &str
    ensures { result.now ≡ spec.after_leading_punctuation suffix.now }
{
    if let Some(rest) = suffix.strip_prefix(',') {
        return rest;
    }
    match suffix.strip_prefix('.') {
        Some(rest) => rest,
        None => suffix,
    }
}

/// The term for the opening quote: the inner one inside an odd number of quotes.
fn opening_quote(in_quotes: bool) -> OtherTerm
    ensures { result ≡ spec.opening_quote in_quotes }
{
    if in_quotes {
        OtherTerm::OpenInnerQuote
    } else {
        OtherTerm::OpenQuote
    }
}

/// The term for the closing quote: the inner one inside an odd number of quotes.
fn closing_quote(in_quotes: bool) -> OtherTerm
    ensures { result ≡ spec.closing_quote in_quotes }
{
    if in_quotes {
        OtherTerm::CloseInnerQuote
    } else {
        OtherTerm::CloseQuote
    }
}

impl<'s, T> Context<'s, T> {
    /// Opens a part for the content between affixes. [`Context::apply_suffix`] closes it, and
    /// writes the affixes unless the part is empty.
    pub fn apply_prefix(&mut self) -> Result<Mark, RenderError>
        ensures after { Runs with_part result self.old self.new }
        ensures mark { IfOk result (λ mark. length self.new.outer ≡ mark + 1) }
    {
        self.push_elem()
    }

    /// Closes a part, and writes its content between the affixes, unless it is empty. If `moved`,
    /// the suffix is written without a leading `,` or `.`.
    pub fn apply_suffix(
        &mut self,
        affixes: &Affixes,
        mark: Mark,
        moved: bool,
    ) -> Result<(), RenderError>
        requires innermost { IsInnermost mark self.old }
        ensures { Runs (close_part_by (λ inh c. spec.affixed_after moved inh
            (affix_texts affixes.now) c))
            result self.old self.new }
    {
        self.ensure_live()?;
        self.close_affixed(affixes, moved)
    }

    /// Closes a part, and writes its content between two texts into the part around it, unless it
    /// is empty.
    pub fn splice_affixed(
        &mut self,
        mark: Mark,
        prefix: Option<&str>,
        suffix: Option<&str>,
    ) -> Result<(), RenderError>
        requires innermost { IsInnermost mark self.old }
        ensures { Runs (close_part_by (λ inh c. between_in inh
            (option_map (λ t. t.now) prefix.entry)
            (option_map (λ t. t.now) suffix.entry) c)) result self.old self.new }
    {
        self.ensure_live()?;
        self.close_between(prefix, suffix)
    }

    /// Closes the innermost part as [`Context::apply_suffix`] does.
    pub(crate) fn close_affixed(
        &mut self,
        affixes: &Affixes,
        moved: bool,
    ) -> Result<(), RenderError>
        requires live { self.old.failed ≡ false }
        requires is_open { 0 < length self.old.outer }
        ensures { Runs (close_part_by (λ inh c. spec.affixed_after moved inh
            (affix_texts affixes.now) c))
            result self.old self.new }
    {
        let suffix = if moved {
            affixes.suffix.as_deref().map(after_leading_punctuation)
        } else {
            affixes.suffix.as_deref()
        };
        self.close_between(affixes.prefix.as_deref(), suffix)
    }

    /// Closes the innermost part, and writes its content between two texts, unless it is empty.
    fn close_between(
        &mut self,
        prefix: Option<&str>,
        suffix: Option<&str>,
    ) -> Result<(), RenderError>
        requires live { self.old.failed ≡ false }
        requires is_open { 0 < length self.old.outer }
        ensures { Runs (close_part_by (λ inh c. between_in inh
            (option_map (λ t. t.now) prefix.entry)
            (option_map (λ t. t.now) suffix.entry) c)) result self.old self.new }
    {
        let (before, after) = self.or_fail(self.text_writer().affixes(prefix, suffix))?;
        self.splice_between(before, after)
    }

    /// Closes the innermost part, and writes its content between two formatted texts, unless it is
    /// empty.
    fn splice_between(
        &mut self,
        before: Option<Formatted>,
        after: Option<Formatted>,
    ) -> Result<(), RenderError>
        requires live { self.old.failed ≡ false }
        requires is_open { 0 < length self.old.outer }
        ensures { Runs (close_part_by (λ _ c. affixed_content (affix_content before)
            (affix_content after) c))
            result self.old self.new }
    {
        let written = self.writing.content.close_spliced(before, after);
        self.or_fail(written)?;
        Ok(())
    }

    /// Whether the number of quotes around is odd.
    fn in_quotes(&self) -> bool
        ensures { result ≡ self.now.inherited.in_quotes }
    {
        self.writing.in_quotes
    }

    /// Toggles whether the number of quotes around is odd.
    fn turn(&mut self)
        ensures { self.new ≡ with_quotes_toggled self.old }
    {
        self.writing.in_quotes = !self.writing.in_quotes;
    }

    /// The text of a quote, if a locale has its term.
    fn quote_text(&self, term: OtherTerm) -> Option<&'s str>
        ensures { option_map (λ t. t.now) result ≡ spec.quote_text self.now.style term }
    {
        self.style.term(Term::Other(term), TermForm::Long, false)
    }

    /// The comma or period that moves from the front of a suffix into the quotes before it, if the
    /// first locale asks for it.
    fn moved_punctuation(&self, suffix: Option<&str>) -> Option<&'static str>
        ensures { option_map (λ t. t.now) result
            ≡ spec.moved_punctuation self.now.style (option_map (λ t. t.now) suffix.entry) }
    {
        match suffix {
            Some(suffix) => {
                if self.style.is_punctuation_in_quote() {
                    leading_punctuation(suffix)
                } else {
                    None
                }
            }
            None => None,
        }
    }

    /// The opening quote in the inherited formatting, if a locale has its term.
    fn opening_affix(&self) -> Result<Option<Formatted>, Memory>
        ensures { IfOk result (λ t. affix_content t ≡ text_in_if self.now.inherited
            (spec.quote_text self.now.style (spec.opening_quote self.now.inherited.in_quotes))) }
    {
        let open = self.quote_text(opening_quote(self.in_quotes()));
        self.text_writer().affix(open)
    }

    /// The closing quote, after the character that moves from the suffix.
    fn closing_affix(&self, suffix: Option<&str>) -> Result<Option<Formatted>, Memory>
        ensures { IfOk result (λ t. affix_content t ≡ text_in_if self.now.inherited
            (spec.moved_punctuation self.now.style (option_map (λ t. t.now) suffix.entry))
            ++> text_in_if self.now.inherited
            (spec.quote_text self.now.style (spec.closing_quote self.now.inherited.in_quotes))) }
    {
        let front = self.moved_punctuation(suffix);
        let close = self.quote_text(closing_quote(self.in_quotes()));
        let affix = self.text_writer().affix_of_two(front, close)?;
        Ok(affix)
    }

    /// The texts around a content in quotes: the opening quote; the character that moves from the
    /// suffix, and the closing quote.
    fn quotes_around(
        &self,
        suffix: Option<&str>,
    ) -> Result<(Option<Formatted>, Option<Formatted>), Memory>
        ensures before { IfOk result (λ t. affix_content t.0 ≡ text_in_if self.now.inherited
            (spec.quote_text self.now.style (spec.opening_quote self.now.inherited.in_quotes))) }
        ensures after { IfOk result (λ t. affix_content t.1 ≡ text_in_if self.now.inherited
            (spec.moved_punctuation self.now.style (option_map (λ t. t.now) suffix.entry))
            ++> text_in_if self.now.inherited
            (spec.quote_text self.now.style (spec.closing_quote self.now.inherited.in_quotes))) }
    {
        let before = self.opening_affix()?;
        let after = self.closing_affix(suffix)?;
        Ok((before, after))
    }

    /// Whether a character moves from the suffix into the quotes. None moves if the innermost part
    /// is empty.
    pub(crate) fn moves_punctuation(&self, suffix: Option<&str>) -> bool
        ensures { result
            ≡ spec.moves_punctuation self.now.style (option_map (λ t. t.now) suffix.entry)
            self.now.inner }
    {
        self.moved_punctuation(suffix).is_some() && !self.writing.content.is_empty()
    }

    /// Closes the inside of quotes, and writes its content in quotes, unless it is empty. The
    /// current parity chooses the quotes, so `turn` comes first.
    #[tactic(auto, unfolding(crate::specs::Context::with_quotes))]
    pub(crate) fn close_quotes(&mut self, suffix: Option<&str>) -> Result<(), RenderError>
        requires live { self.old.failed ≡ false }
        requires is_open { 0 < length self.old.outer }
        ensures { Runs (with_quotes (option_map (λ t. t.now) suffix.entry))
            result self.old self.new }
    {
        let (before, after) = self.or_fail(self.quotes_around(suffix))?;
        self.splice_between(before, after)
    }

    /// Opens a part for the inside of quotes. [`Context::pop_quotes`] closes it, and writes the
    /// quotes unless the part is empty.
    pub fn push_quotes(&mut self) -> Result<Mark, RenderError>
        ensures after { Runs (λ now. with_part (with_quotes_toggled now)) result self.old self.new }
        ensures mark { IfOk result (λ mark. length self.new.outer ≡ mark + 1) }
    {
        let mark = self.push_elem()?;
        self.writing.in_quotes = !self.writing.in_quotes;
        Ok(mark)
    }

    /// Closes the inside of quotes, and writes its content in quotes, unless it is empty. The
    /// quotes are the inner ones inside an odd number of quotes, else the outer ones. The caller
    /// writes `suffix` after them. If the first locale asks for it, a comma or period at the front
    /// of `suffix` moves before the closing quote (CSL 1.0.2, Locale: punctuation-in-quote).
    /// Returns whether one moved.
    pub fn pop_quotes(&mut self, mark: Mark, suffix: Option<&str>) -> Result<bool, RenderError>
        requires innermost { IsInnermost mark self.old }
        ensures after { Runs (λ now.
            with_quotes (option_map (λ t. t.now) suffix.entry) (with_quotes_toggled now))
            result self.old self.new }
        ensures moved { Gives result (spec.moves_punctuation self.old.style
            (option_map (λ t. t.now) suffix.entry) self.old.inner) }
    {
        self.ensure_live()?;
        let moved = self.moves_punctuation(suffix);
        self.turn();
        self.close_quotes(suffix)?;
        Ok(moved)
    }
}
