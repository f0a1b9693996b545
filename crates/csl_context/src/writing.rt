//! Opening, filling and closing of the parts of a context.
//! Definitions: specs/Context.antt, specs/Texts.antt.

ghost use Rattle.std.specs.Prelude.{◌≡◌, ◌+◌, ◌<◌, not, [], length, false, true, IfOk, OnOk, IfErr, OnErr, IsOk};
ghost use Rattle.lit_model.specs.Text.{chunk_of, chunks};
ghost use Rattle.csl_tree.specs.Content.{elem_content, text_content, markup_content};
ghost use Rattle.csl_tree.specs.Flat.{close_part};
ghost use Rattle.csl_tree.specs.Tokens.{optional_meta, has_text, has_children, is_empty};
ghost use Rattle.csl_context.specs.State.{with_node_formatting};
ghost use Rattle.csl_context.specs.Texts as spec;
ghost use Rattle.csl_context.specs.Context.{Runs, IsSilent, IsInnermost, same_context, with_content, with_space, with_space_in, with_part, close_part_by, no_content};

use crate::context::Context;
use crate::error::RenderError;
use crate::mark::Mark;
use crate::texts::TextWriter;
use csl_style::{Display, formatting};
use csl_tree::{ElemMeta, FlatTree};
use lit_model::{ChunkKind, ChunkedString, Memory, StringChunk};

/// Closes the innermost part, and appends its content to the part around it.
fn splice_part(parts: &mut FlatTree) -> Result<(), Memory>
    requires is_open { 0 < length parts.old.outer }
    ensures ok { OnOk result (parts.new ≡ close_part parts.old.inner parts.old) }
    ensures err { OnErr result (parts.new ≡ parts.old) }
{
    parts.close_spliced(None, None)?;
    Ok(())
}

/// Closes the innermost part, and drops its content.
fn drop_part(parts: &mut FlatTree)
    requires is_open { 0 < length parts.old.outer }
    ensures { parts.new ≡ close_part [] parts.old }
{
    parts.discard();
}

impl<'s, T> Context<'s, T> {
    /// Returns an error if the context has failed.
    ///
    /// # Errors
    /// [`RenderError::Failed`]: the context had failed already.
    pub fn ensure_live(&self) -> Result<(), RenderError>
        ensures { Runs same_context result self.now self.now }
    {
        if self.has_failed() {
            return Err(RenderError::Failed);
        }
        Ok(())
    }

    /// Returns the value of a call that allocates. If that call failed, the context fails.
    ///
    /// # Errors
    /// [`RenderError::Memory`]: the outcome is an error. The context has failed.
    /// [`RenderError::Failed`]: the context had failed already.
    pub fn attempt<R: Drop, E: Drop>(&mut self, outcome: Result<R, E>) -> Result<R, RenderError>
    where
        Memory: From<E>,
        ensures value { IfOk result (λ value. outcome ≡ Ok value) }
        ensures after { Runs same_context result self.old self.new }
        ensures live { OnOk outcome (IfErr result (λ e. e ≡ RenderError.Failed)) }
    {
        self.ensure_live()?;
        self.or_fail(outcome)
    }

    /// Returns the value of a call that allocates, in a context that has not failed. If that call
    /// failed, the context fails.
    pub(crate) fn or_fail<R: Drop, E: Drop>(
        &mut self,
        outcome: Result<R, E>,
    ) -> Result<R, RenderError>
    where
        Memory: From<E>,
        requires live { self.old.failed ≡ false }
        ensures value { IfOk result (λ value. outcome ≡ Ok value) }
        ensures after { Runs same_context result self.old self.new }
        ensures ok { OnOk outcome (IsOk result) }
    {
        match outcome {
            Ok(value) => Ok(value),
            Err(_) => {
                self.writing.failed = true;
                Err(RenderError::Memory)
            }
        }
    }

    /// Returns the outcome of a lookup on the shared context. If it is an error, the context fails.
    ///
    /// # Errors
    /// The error of the outcome.
    pub fn settle<R: Drop>(&mut self, outcome: Result<R, RenderError>) -> Result<R, RenderError>
        requires silent { IsSilent outcome self.old }
        ensures value { result ≡ outcome }
        ensures after { Runs same_context result self.old self.new }
    {
        match outcome {
            Ok(value) => Ok(value),
            Err(error) => {
                self.fail();
                Err(error)
            }
        }
    }

    /// Takes bytes from those that this context may still write, for a text that is made before it
    /// is written.
    ///
    /// # Errors
    /// [`RenderError::Memory`]: fewer are left. The context has failed.
    /// [`RenderError::Failed`]: the context had failed already.
    pub fn charge(&mut self, bytes: usize) -> Result<(), RenderError>
        ensures { Runs same_context result self.old self.new }
    {
        self.ensure_live()?;
        let taken = self.writing.content.take(bytes);
        self.or_fail(taken)
    }

    /// A writer of texts with the inherited formatting and stripping.
    pub(crate) fn text_writer(&self) -> TextWriter
        ensures formatting { result.formatting ≡ self.now.inherited.formatting }
        ensures strip_periods { result.strip_periods ≡ self.now.inherited.strip_periods }
    {
        TextWriter {
            alloc: self.writing.alloc,
            formatting: self.writing.formatting,
            strip_periods: self.writing.strip_periods,
        }
    }

    /// Writes a text in the inherited formatting (CSL 1.0.2, Formatting, Strip-periods).
    pub fn push_str(&mut self, text: &str) -> Result<(), RenderError>
        ensures { Runs (with_content (λ inh. spec.text_in inh text.now)) result self.old self.new }
    {
        self.ensure_live()?;
        let pen = self.text_writer();
        let written = pen.write(&mut self.writing.content, text);
        self.or_fail(written)
    }

    /// Writes a text in a formatting over the inherited one.
    pub fn push_str_in(
        &mut self,
        text: &str,
        format: formatting::Formatting,
    ) -> Result<(), RenderError>
        ensures { Runs (with_content (λ inh. spec.text_in (with_node_formatting format inh)
            text.now))
            result self.old self.new }
    {
        self.ensure_live()?;
        let pen = self.text_writer_in(format);
        let written = pen.write(&mut self.writing.content, text);
        self.or_fail(written)
    }

    /// A writer of texts in a formatting over the inherited one.
    fn text_writer_in(&self, format: formatting::Formatting) -> TextWriter
        ensures formatting { result.formatting
            ≡ (with_node_formatting format self.now.inherited).formatting }
        ensures strip_periods { result.strip_periods ≡ self.now.inherited.strip_periods }
    {
        TextWriter {
            alloc: self.writing.alloc,
            formatting: self.writing.formatting.apply(format),
            strip_periods: self.writing.strip_periods,
        }
    }

    /// Writes a text in the inherited formatting, and keeps its periods.
    fn push_verbatim(&mut self, text: &str) -> Result<(), RenderError>
        ensures { Runs (with_content (λ inh. text_content text.now inh.formatting))
            result self.old self.new }
    {
        self.ensure_live()?;
        let pen = self.text_writer();
        let written = self.writing.content.push_text(text, pen.formatting);
        self.or_fail(written)
    }

    /// Writes a markup, unless it is empty.
    fn push_markup(&mut self, text: &str) -> Result<(), RenderError>
        ensures { Runs (with_content (λ _. markup_content text.now)) result self.old self.new }
    {
        self.ensure_live()?;
        let pen = self.text_writer();
        let written = pen.write_markup(&mut self.writing.content, text);
        self.or_fail(written)
    }

    /// Writes a piece of a text. Mathematics becomes markup.
    fn push_chunk(&mut self, chunk: &StringChunk) -> Result<(), RenderError>
        ensures { Runs (with_content (λ inh. spec.chunk_in inh (chunk_of chunk.now)))
            result self.old self.new }
    {
        match chunk.kind {
            ChunkKind::Normal => self.push_str(chunk.value.as_str()),
            ChunkKind::Verbatim => self.push_verbatim(chunk.value.as_str()),
            ChunkKind::Math => self.push_markup(chunk.value.as_str()),
        }
    }

    /// Writes the pieces of a text: normal ones as [`Context::push_str`] does, verbatim ones with
    /// their periods, mathematics as markup.
    pub fn push_chunked(&mut self, text: &ChunkedString) -> Result<(), RenderError>
        ensures { Runs (with_content (λ inh. spec.chunks_in inh (chunks text.now)))
            result self.old self.new }
    {
        self.ensure_live()?;
        for chunk in &text.0 {
            self.push_chunk(chunk)?;
        }
        Ok(())
    }

    /// Writes a link, unless its text is empty. The text is in the inherited formatting, and keeps
    /// its periods.
    pub fn push_link(&mut self, text: &str, url: &str) -> Result<(), RenderError>
        ensures { Runs (with_content (λ inh. spec.link_in inh text.now url.now))
            result self.old self.new }
    {
        self.ensure_live()?;
        let pen = self.text_writer();
        let written = pen.write_link(&mut self.writing.content, text, url);
        self.or_fail(written)
    }

    /// Writes a place in the inherited formatting. The caller fills it for the cite of index
    /// `cite_idx`.
    pub fn push_transparent(&mut self, cite_idx: usize) -> Result<(), RenderError>
        ensures { Runs (with_content (λ inh. spec.transparent_in inh cite_idx))
            result self.old self.new }
    {
        self.ensure_live()?;
        let pen = self.text_writer();
        let written = pen.write_transparent(&mut self.writing.content, cite_idx);
        self.or_fail(written)
    }

    /// Writes a space, unless the text of the innermost open part is empty or ends in white space.
    pub fn ensure_space(&mut self) -> Result<(), RenderError>
        ensures { Runs with_space result self.old self.new }
    {
        let gap = self.wanted_space();
        self.push_str(gap)
    }

    /// Writes a space as [`Context::ensure_space`] does, in a formatting over the inherited one.
    pub fn ensure_space_in(&mut self, format: formatting::Formatting) -> Result<(), RenderError>
        ensures { Runs (with_space_in format) result self.old self.new }
    {
        let gap = self.wanted_space();
        self.push_str_in(gap, format)
    }

    /// The text that [`Context::ensure_space`] writes: a space or nothing.
    fn wanted_space(&self) -> &'static str
        ensures { result.now ≡ spec.wanted_space self.now.inner }
    {
        if self.writing.content.has_text() && !self.writing.content.ends_in_white_space() {
            " "
        } else {
            ""
        }
    }

    /// Whether the text of the innermost open part is not empty.
    pub fn open_part_has_text(&self) -> bool
        ensures { result ≡ has_text self.now.inner }
    {
        self.writing.content.has_text()
    }

    /// Whether nothing is written in the innermost open part.
    pub fn open_part_is_empty(&self) -> bool
        ensures { result ≡ not (has_children self.now.inner) }
    {
        self.writing.content.is_empty()
    }

    /// Opens a part and returns its mark. [`Context::commit_elem`] closes it as an element.
    #[inline(never)]
    pub fn push_elem(&mut self) -> Result<Mark, RenderError>
        ensures after { Runs with_part result self.old self.new }
        ensures mark { IfOk result (λ mark. length self.new.outer ≡ mark + 1) }
    {
        self.ensure_live()?;
        let depth = self.writing.content.depth() - 1;
        self.open_part()?;
        Ok(Mark::new(depth))
    }

    /// Opens a part.
    pub(crate) fn open_part(&mut self) -> Result<(), RenderError>
        requires live { self.old.failed ≡ false }
        ensures { Runs with_part result self.old self.new }
    {
        let opened = self.writing.content.open();
        self.or_fail(opened)
    }

    /// Closes a part as an element of the part around it (CSL 1.0.2, Display). A part without
    /// content is dropped. The content of any other part is not empty by
    /// [`csl_tree::ElemChildren::is_empty`].
    pub fn commit_elem(
        &mut self,
        mark: Mark,
        display: Option<Display>,
        meta: Option<ElemMeta>,
    ) -> Result<(), RenderError>
        requires innermost { IsInnermost mark self.old }
        ensures after { Runs (close_part_by (λ _ c. elem_content display (optional_meta meta) c))
            result self.old self.new }
        ensures empty { is_empty self.old.inner ≡ not (has_children self.old.inner) }
    {
        self.ensure_live()?;
        let written = self.writing.content.close_elem(display, meta);
        self.or_fail(written)?;
        Ok(())
    }

    /// Closes a part, and drops its content. A failed context stays unchanged.
    pub fn discard_elem(&mut self, mark: Mark)
        requires innermost { IsInnermost mark self.old }
        ensures closed { self.old.failed ≡ false → self.new ≡ close_part_by no_content self.old }
        ensures unchanged { self.old.failed ≡ true → self.new ≡ self.old }
    {
        if self.writing.failed {
            return;
        }
        drop_part(&mut self.writing.content);
    }

    /// Closes a part, and appends its content to the part around it.
    pub fn splice(&mut self, mark: Mark) -> Result<(), RenderError>
        requires innermost { IsInnermost mark self.old }
        ensures { Runs (close_part_by (λ _ c. c)) result self.old self.new }
    {
        self.ensure_live()?;
        let written = splice_part(&mut self.writing.content);
        self.or_fail(written)?;
        Ok(())
    }
}
