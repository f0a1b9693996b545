//! Lookups of variables, for printing or silent (CSL 1.0.2, Appendix IV: Variables).
//! Definitions: specs/RenderInput.antt, specs/Context.antt.

ghost use Rattle.std.specs.Prelude.{◌≡◌, ◌==◌, not, map, length, option_map};
ghost use Rattle.lit_model.specs.Date.{date_view};
ghost use Rattle.lit_model.specs.MaybeTyped.{maybe_view};
ghost use Rattle.lit_model.specs.Page.{pages_view};
ghost use Rattle.lit_model.specs.Person.{person_view};
ghost use Rattle.lit_model.specs.Text.{chunks};
ghost use Rattle.csl_elements.specs.declared.taxonomy.Variable.{Variable};
ghost use Rattle.csl_entry.specs.Answers.{cow_view};
ghost use Rattle.csl_entry.specs.LentText.{lent_chunks};
ghost use Rattle.csl_entry.specs.NumberResult.{result_view};
ghost use Rattle.csl_context.specs.RenderInput.{peek_number, peek_page, peek_standard, peek_names, peek_date};
ghost use Rattle.csl_context.specs.Context.{Looks, GivesBy, Runs, render_input, after_resolve};

use crate::context::Context;
use crate::error::RenderError;
use csl_entry::{EntryLike, LentText, NumberVariableResult, PageVariableResult};
use csl_style::{
    DateVariable, Kind, NameVariable, NumberVariable, PageVariable, StandardVariable, Variable,
};
use lit_model::{ChunkedString, Date, LongShortForm, Person};
use std::borrow::Cow;

impl<'s, T: EntryLike> Context<'s, T> {
    /// Looks up a number variable silently (CSL 1.0.2, Number Variables). Returns the cite's
    /// answer, or `None` if the variable is suppressed.
    ///
    /// # Errors
    /// [`RenderError::Memory`]: out of memory, here or in the entry. The context is unchanged.
    /// [`RenderError::Failed`]: the context had failed already.
    pub fn peek_number_variable(
        &self,
        variable: NumberVariable,
    ) -> Result<Option<NumberVariableResult<'s>>, RenderError>
        ensures { Looks (option_map result_view) result
            (peek_number (render_input T.answers self.now) self.now.state variable) self.now }
    {
        self.ensure_live()?;
        let alloc = self.writing.alloc;
        if self.is_suppressed(Variable::Number(variable)) {
            return Ok(None);
        }
        Ok(self.instance.resolve_number_variable(alloc, variable)?)
    }

    /// Looks up a page variable silently (CSL 1.0.2, Number Variables). Returns the cite's answer,
    /// or `None` if the variable is suppressed.
    ///
    /// # Errors
    /// [`RenderError::Memory`]: out of memory, here or in the entry. The context is unchanged.
    /// [`RenderError::Failed`]: the context had failed already.
    pub fn peek_page_variable(
        &self,
        variable: PageVariable,
    ) -> Result<Option<PageVariableResult>, RenderError>
        ensures { Looks (option_map (maybe_view pages_view)) result
            (peek_page (render_input T.answers self.now) self.now.state variable) self.now }
    {
        self.ensure_live()?;
        let alloc = self.writing.alloc;
        if self.is_suppressed(Variable::Page(variable)) {
            return Ok(None);
        }
        Ok(self.instance.resolve_page_variable(alloc, variable)?)
    }

    /// Looks up a page variable silently. Returns the same as [`Context::peek_page_variable`], lent
    /// if the entry holds it.
    ///
    /// # Errors
    /// As [`Context::peek_page_variable`].
    pub fn peek_pages(
        &self,
        variable: PageVariable,
    ) -> Result<Option<Cow<'s, PageVariableResult>>, RenderError>
        ensures { Looks (option_map (cow_view (maybe_view pages_view))) result
            (peek_page (render_input T.answers self.now) self.now.state variable) self.now }
    {
        self.ensure_live()?;
        let pages = Variable::Page(variable);
        if self.is_suppressed(pages) {
            return Ok(None);
        }
        Ok(self.instance.lend_pages(self.writing.alloc, variable)?)
    }

    /// Looks up a standard variable in a form silently (CSL 1.0.2, Standard Variables). Returns the
    /// cite's answer, or `None` if the variable is suppressed.
    ///
    /// # Errors
    /// [`RenderError::Memory`]: out of memory, here or in the entry. The context is unchanged.
    /// [`RenderError::Failed`]: the context had failed already.
    pub fn peek_standard_variable(
        &self,
        form: LongShortForm,
        variable: StandardVariable,
    ) -> Result<Option<Cow<'s, ChunkedString>>, RenderError>
        ensures { Looks (option_map (cow_view chunks)) result
            (peek_standard (render_input T.answers self.now) self.now.state form variable) self.now }
    {
        self.ensure_live()?;
        let alloc = self.writing.alloc;
        if self.is_suppressed(Variable::Standard(variable)) {
            return Ok(None);
        }
        Ok(
            self.instance
                .resolve_standard_variable(alloc, form, variable)?,
        )
    }

    /// Looks up a standard variable in a form silently. Returns the same as
    /// [`Context::peek_standard_variable`], lent if the entry holds it.
    ///
    /// # Errors
    /// As [`Context::peek_standard_variable`].
    pub fn peek_text(
        &self,
        form: LongShortForm,
        variable: StandardVariable,
    ) -> Result<Option<LentText<'s>>, RenderError>
        ensures { Looks (option_map lent_chunks) result
            (peek_standard (render_input T.answers self.now) self.now.state form variable) self.now }
    {
        self.ensure_live()?;
        let text = Variable::Standard(variable);
        if self.is_suppressed(text) {
            return Ok(None);
        }
        Ok(self.instance.lend_text(self.writing.alloc, form, variable)?)
    }

    /// Looks up a name variable silently (CSL 1.0.2, Name Variables). Returns the cite's answer, or
    /// no names if the variable is suppressed.
    ///
    /// # Errors
    /// [`RenderError::Memory`]: out of memory, here or in the entry. The context is unchanged.
    /// [`RenderError::Failed`]: the context had failed already.
    pub fn peek_name_variable(
        &self,
        variable: NameVariable,
    ) -> Result<Vec<Cow<'s, Person>>, RenderError>
        ensures { Looks (λ found. map (cow_view person_view) found.items) result
            (peek_names (render_input T.answers self.now) self.now.state variable) self.now }
    {
        self.ensure_live()?;
        let alloc = self.writing.alloc;
        if self.is_suppressed(Variable::Name(variable)) {
            return Ok(Vec::new(alloc));
        }
        Ok(self.instance.resolve_name_variable(alloc, variable)?)
    }

    /// Whether [`Context::peek_name_variable`] returns a person.
    ///
    /// # Errors
    /// As [`Context::peek_name_variable`].
    pub fn peek_has_persons(&self, variable: NameVariable) -> Result<bool, RenderError>
        ensures { Looks (λ found. found) result (not (length (peek_names
            (render_input T.answers self.now) self.now.state variable) == 0)) self.now }
    {
        self.ensure_live()?;
        let names = Variable::Name(variable);
        if self.is_suppressed(names) {
            return Ok(false);
        }
        Ok(self.instance.has_persons(self.writing.alloc, variable)?)
    }

    /// Looks up a date variable silently (CSL 1.0.2, Date Variables). Returns the cite's answer, or
    /// `None` if the variable is suppressed.
    ///
    /// # Errors
    /// [`RenderError::Memory`]: out of memory, here or in the entry. The context is unchanged.
    /// [`RenderError::Failed`]: the context had failed already.
    pub fn peek_date_variable(
        &self,
        variable: DateVariable,
    ) -> Result<Option<Cow<'s, Date>>, RenderError>
        ensures { Looks (option_map (cow_view date_view)) result
            (peek_date (render_input T.answers self.now) self.now.state variable) self.now }
    {
        self.ensure_live()?;
        let alloc = self.writing.alloc;
        if self.is_suppressed(Variable::Date(variable)) {
            return Ok(None);
        }
        Ok(self.instance.resolve_date_variable(alloc, variable)?)
    }
}

impl<'s, T: EntryLike> Context<'s, T> {
    /// Looks up a number variable for printing. Returns the same as
    /// [`Context::peek_number_variable`], and suppresses the variable if the suppressing switch is
    /// on.
    pub fn resolve_number_variable(
        &mut self,
        variable: NumberVariable,
    ) -> Result<Option<NumberVariableResult<'s>>, RenderError>
        ensures value { GivesBy (option_map result_view) result
            (peek_number (render_input T.answers self.old) self.old.state variable) }
        ensures after { Runs (after_resolve (Variable.Number variable)) result self.old self.new }
    {
        let found = self.settle(self.peek_number_variable(variable))?;
        self.suppress_if_queried(Variable::Number(variable));
        Ok(found)
    }

    /// Looks up a page variable for printing. Returns the same as [`Context::peek_page_variable`],
    /// and suppresses the variable if the suppressing switch is on.
    pub fn resolve_page_variable(
        &mut self,
        variable: PageVariable,
    ) -> Result<Option<PageVariableResult>, RenderError>
        ensures value { GivesBy (option_map (maybe_view pages_view)) result
            (peek_page (render_input T.answers self.old) self.old.state variable) }
        ensures after { Runs (after_resolve (Variable.Page variable)) result self.old self.new }
    {
        let found = self.settle(self.peek_page_variable(variable))?;
        self.suppress_if_queried(Variable::Page(variable));
        Ok(found)
    }

    /// Looks up a standard variable for printing. Returns the same as
    /// [`Context::peek_standard_variable`], and suppresses the variable if the suppressing switch
    /// is on.
    pub fn resolve_standard_variable(
        &mut self,
        form: LongShortForm,
        variable: StandardVariable,
    ) -> Result<Option<Cow<'s, ChunkedString>>, RenderError>
        ensures value { GivesBy (option_map (cow_view chunks)) result
            (peek_standard (render_input T.answers self.old) self.old.state form variable) }
        ensures after { Runs (after_resolve (Variable.Standard variable)) result self.old self.new }
    {
        let found = self.settle(self.peek_standard_variable(form, variable))?;
        self.suppress_if_queried(Variable::Standard(variable));
        Ok(found)
    }

    /// Looks up a name variable for printing. Returns the same as [`Context::peek_name_variable`],
    /// and suppresses the variable if the suppressing switch is on.
    pub fn resolve_name_variable(
        &mut self,
        variable: NameVariable,
    ) -> Result<Vec<Cow<'s, Person>>, RenderError>
        ensures value { GivesBy (λ found. map (cow_view person_view) found.items) result
            (peek_names (render_input T.answers self.old) self.old.state variable) }
        ensures after { Runs (after_resolve (Variable.Name variable)) result self.old self.new }
    {
        let found = self.settle(self.peek_name_variable(variable))?;
        self.suppress_if_queried(Variable::Name(variable));
        Ok(found)
    }

    /// Looks up a date variable for printing. Returns the same as [`Context::peek_date_variable`],
    /// and suppresses the variable if the suppressing switch is on.
    pub fn resolve_date_variable(
        &mut self,
        variable: DateVariable,
    ) -> Result<Option<Cow<'s, Date>>, RenderError>
        ensures value { GivesBy (option_map (cow_view date_view)) result
            (peek_date (render_input T.answers self.old) self.old.state variable) }
        ensures after { Runs (after_resolve (Variable.Date variable)) result self.old self.new }
    {
        let found = self.settle(self.peek_date_variable(variable))?;
        self.suppress_if_queried(Variable::Date(variable));
        Ok(found)
    }

    /// Whether the entry is of that kind (CSL 1.0.2, Types).
    pub fn matches_entry_type(&self, kind: Kind) -> bool
        ensures { result ≡ (T.answers self.now.entry).kinds kind }
    {
        self.instance.entry.matches_entry_type(kind)
    }
}
