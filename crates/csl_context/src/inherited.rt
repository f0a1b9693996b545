//! Calls that set inherited values: formatting, delimiter, options of names, period stripping.
//! Definitions: specs/Context.antt.

ghost use Rattle.std.specs.Prelude.{◌≡◌, ◌<◌, ◌||◌, length, false, true, option_map, IfOk, IfErr};
ghost use Rattle.std.specs.Bool.{OnFalse};
ghost use Rattle.csl_elements.specs.NamesOptions.{partial_options};
ghost use Rattle.csl_context.specs.Context.{Runs, with_format, without_format, with_delimiter, without_delimiter, with_options, without_options, with_stripping, in_format, with_inherited_format, with_inherited_delimiter};

use crate::context::Context;
use crate::error::RenderError;
use csl_style::{InheritableNameOptions, formatting};
use csl_tree::Formatting;

impl<'s, T> Context<'s, T> {
    /// Puts a node's formatting over the inherited one until [`Context::pop_format`].
    pub fn push_format(&mut self, format: formatting::Formatting) -> Result<(), RenderError>
        ensures { Runs (with_format format) result self.old self.new }
    {
        self.ensure_live()?;
        let under = self.writing.formatting;
        let pushed = self.writing.formats.push(under);
        self.or_fail(pushed)?;
        self.writing.formatting = under.apply(format);
        Ok(())
    }

    /// Restores the formatting before the last push not popped yet. A failed context stays
    /// unchanged.
    pub fn pop_format(&mut self)
        requires pushed { OnFalse self.old.failed (0 < length self.old.formats) }
        ensures popped { self.old.failed ≡ false → self.new ≡ without_format self.old }
        ensures unchanged { self.old.failed ≡ true → self.new ≡ self.old }
    {
        if self.writing.failed {
            return;
        }
        match self.writing.formats.pop() {
            None => unreachable!(),
            Some(format) => {
                self.writing.formatting = format;
            }
        }
    }

    /// Replaces the inherited delimiter by this one, or by none, until [`Context::pop_delimiter`].
    pub fn push_delimiter(&mut self, delimiter: Option<&'s str>) -> Result<(), RenderError>
        ensures { Runs (with_delimiter (option_map (λ t. t.now) delimiter.entry))
            result self.old self.new }
    {
        self.ensure_live()?;
        let under = self.writing.delimiter;
        let pushed = self.writing.delimiters.push(under);
        self.or_fail(pushed)?;
        self.writing.delimiter = delimiter;
        Ok(())
    }

    /// Restores the delimiter before the last push not popped yet. A failed context stays
    /// unchanged.
    pub fn pop_delimiter(&mut self)
        requires pushed { OnFalse self.old.failed (0 < length self.old.delimiters) }
        ensures popped { self.old.failed ≡ false → self.new ≡ without_delimiter self.old }
        ensures unchanged { self.old.failed ≡ true → self.new ≡ self.old }
    {
        if self.writing.failed {
            return;
        }
        match self.writing.delimiters.pop() {
            None => unreachable!(),
            Some(delimiter) => {
                self.writing.delimiter = delimiter;
            }
        }
    }

    /// Puts a node's options of names over the inherited ones until [`Context::pop_name_options`]
    /// (CSL 1.0.2, Inheritable Name Options).
    pub fn push_name_options(
        &mut self,
        options: &'s InheritableNameOptions,
    ) -> Result<(), RenderError>
        ensures { Runs (with_options (partial_options options.now)) result self.old self.new }
    {
        self.ensure_live()?;
        let under = self.writing.options;
        let pushed = self.writing.outer_options.push(under);
        self.or_fail(pushed)?;
        self.writing.options = options.apply(under);
        Ok(())
    }

    /// Restores the options of names before the last push not popped yet. A failed context stays
    /// unchanged.
    pub fn pop_name_options(&mut self)
        requires pushed { OnFalse self.old.failed (0 < length self.old.options) }
        ensures popped { self.old.failed ≡ false → self.new ≡ without_options self.old }
        ensures unchanged { self.old.failed ≡ true → self.new ≡ self.old }
    {
        if self.writing.failed {
            return;
        }
        match self.writing.outer_options.pop() {
            None => unreachable!(),
            Some(options) => {
                self.writing.options = options;
            }
        }
    }

    /// Strips the periods of texts from now on if `strip` is true (CSL 1.0.2, Strip-periods).
    /// Returns whether they were stripped before.
    pub fn may_strip_periods(&mut self, strip: bool) -> bool
        ensures value { result ≡ self.old.inherited.strip_periods }
        ensures after { self.new ≡ with_stripping
            (strip || self.old.inherited.strip_periods) self.old }
    {
        let old = self.writing.strip_periods;
        self.writing.strip_periods = strip || old;
        old
    }

    /// Sets back whether texts lose their periods to `old`, which [`Context::may_strip_periods`]
    /// returned.
    pub fn stop_stripping_periods(&mut self, old: bool)
        ensures { self.new ≡ with_stripping old self.old }
    {
        self.writing.strip_periods = old;
    }

    /// Puts a node's formatting over the inherited one, and returns the inherited one. The caller
    /// keeps it for [`Context::leave_format`]. Unlike [`Context::push_format`], this never runs out
    /// of memory.
    ///
    /// # Errors
    /// [`RenderError::Failed`]: the context had failed already.
    pub fn enter_format(
        &mut self,
        format: formatting::Formatting,
    ) -> Result<Formatting, RenderError>
        ensures after { Runs (in_format format) result self.old self.new }
        ensures before { IfOk result (λ before. before ≡ self.old.inherited.formatting) }
        ensures err { IfErr result (λ e. e ≡ RenderError.Failed) }
    {
        self.ensure_live()?;
        let before = self.writing.formatting;
        self.writing.formatting = before.apply(format);
        Ok(before)
    }

    /// Restores the formatting that [`Context::enter_format`] returned.
    pub fn leave_format(&mut self, before: Formatting)
        ensures { self.new ≡ with_inherited_format before self.old }
    {
        self.writing.formatting = before;
    }

    /// Replaces the inherited delimiter by this one, or by none, and returns the inherited one. The
    /// caller keeps it for [`Context::leave_delimiter`]. Unlike [`Context::push_delimiter`], this
    /// never runs out of memory.
    ///
    /// # Errors
    /// [`RenderError::Failed`]: the context had failed already.
    pub fn enter_delimiter(
        &mut self,
        delimiter: Option<&'s str>,
    ) -> Result<Option<&'s str>, RenderError>
        ensures after { Runs (with_inherited_delimiter (option_map (λ t. t.now) delimiter.entry))
            result self.old self.new }
        ensures before { IfOk result (λ before. option_map (λ t. t.now) before
            ≡ self.old.inherited.delimiter) }
        ensures err { IfErr result (λ e. e ≡ RenderError.Failed) }
    {
        self.ensure_live()?;
        let before = self.writing.delimiter;
        self.writing.delimiter = delimiter;
        Ok(before)
    }

    /// Restores the delimiter that [`Context::enter_delimiter`] returned.
    pub fn leave_delimiter(&mut self, before: Option<&'s str>)
        ensures { self.new
            ≡ with_inherited_delimiter (option_map (λ t. t.now) before.entry) self.old }
    {
        self.writing.delimiter = before;
    }
}
