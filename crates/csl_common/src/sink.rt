//! Writers that record whether they have refused a text.
//!
//! The contract of `fmt::Write` says nothing about errors. So no contract over it can state that a
//! call fails only if the writer refused a text. A [`Sink`] can, and [`TrackingWriter`] turns any
//! writer into one.

ghost use Rattle.std.specs.Prelude.{◌≡◌, ℕ, List, Bool, false, true, OnOk, OnErr};
ghost use Rattle.std.specs.Fmt.{WritesInCalls, WritesOnOk, WritesStyledOnOk, HasWrittenStyled, IsFlush};
ghost use Rattle.csl_common.specs.Sink.{concat_texts};
ghost use Rattle.csl_common.specs.Sink.{writer_of, has_refused, formatter_of, has_refused_part};

use std::fmt;

/// A writer whose contract covers whether it has refused a text.
pub trait Sink: fmt::Write {
    /// Whether the writer has refused a text.
    ghost refused: { Self → Bool };

    /// Writes a text.
    ///
    /// # Errors
    /// [`fmt::Error`]: the writer refused it.
    fn put(&mut self, text: &str) -> fmt::Result
        ensures ok { OnOk result (WritesInCalls Self.write_str_gives self.old text.now self.new) }
        ensures kept { OnOk result (refused self.new ≡ refused self.old) }
        ensures err { OnErr result (refused self.new ≡ true) };

    /// Writes texts one after another.
    ///
    /// # Errors
    /// [`fmt::Error`]: the writer refused one of them.
    final fn write_all(&mut self, texts: &[&str]) -> fmt::Result
    where
        Self: Sized,
        ensures ok { OnOk result (WritesInCalls Self.write_str_gives self.old
            (concat_texts texts.now) self.new) }
        ensures kept { OnOk result (refused self.new ≡ refused self.old) }
        ensures err { OnErr result (refused self.new ≡ true) }
    {
        for text in texts {
            self.put(text)?;
        }
        Ok(())
    }
}

/// Any writer, and whether it has refused a text.
#[derive(Drop)]
pub struct TrackingWriter<'a, W> {
    inner: &'a mut W,
    refused: bool,
}

impl<'a, W: fmt::Write> TrackingWriter<'a, W> {
    /// A writer that has refused nothing yet.
    pub fn new(inner: &'a mut W) -> Self
        ensures lent { writer_of result ≡ inner.entry }
        ensures fresh { has_refused result ≡ false }
    {
        TrackingWriter {
            inner,
            refused: false,
        }
    }

    /// Returns the writer.
    pub fn into_inner(self) -> &'a mut W
        ensures { result ≡ writer_of self.entry }
    {
        self.inner
    }

    /// Writes a text to the writer inside, and records a refusal.
    fn pass(&mut self, text: &str) -> fmt::Result
        ensures ok { OnOk result
            (W.write_str_gives self.old.inner.now text.now self.new.inner.now) }
        ensures same { self.new.inner.ghost_name ≡ self.old.inner.ghost_name }
        ensures kept { OnOk result (self.new.refused ≡ self.old.refused) }
        ensures err { OnErr result (self.new.refused ≡ true) }
    {
        match self.inner.write_str(text) {
            Ok(()) => Ok(()),
            Err(error) => {
                self.refused = true;
                Err(error)
            }
        }
    }
}

impl<W: fmt::Write> fmt::Write for TrackingWriter<'_, W> {
    ghost write_str_gives = { λ s bs t. ((writer_of t).ghost_name ≡ (writer_of s).ghost_name)
        × W.write_str_gives (writer_of s).now bs (writer_of t).now };

    fn write_str(&mut self, s: &str) -> fmt::Result {
        self.pass(s)
    }
}

impl<W: fmt::Write> Sink for TrackingWriter<'_, W> {
    ghost refused = { has_refused };

    fn put(&mut self, text: &str) -> fmt::Result {
        self.pass(text)
    }
}

/// A formatter as a sink, for the `Display` of types that write into sinks.
#[derive(Drop)]
pub struct TrackingFormatter<'a, W> {
    inner: &'a mut fmt::Formatter<W>,
    refused: bool,
}

impl<'a, W: fmt::Write> TrackingFormatter<'a, W> {
    /// A formatter that has refused nothing yet.
    pub fn new(inner: &'a mut fmt::Formatter<W>) -> Self
        ensures lent { formatter_of result ≡ inner.entry }
        ensures fresh { has_refused_part result ≡ false }
    {
        TrackingFormatter {
            inner,
            refused: false,
        }
    }

    /// Returns the formatter.
    pub fn into_inner(self) -> &'a mut fmt::Formatter<W>
        ensures { result ≡ formatter_of self.entry }
    {
        self.inner
    }

    /// Writes a part of a displayed text to the formatter, and records a refusal.
    fn pass(&mut self, part: &str) -> fmt::Result
        ensures ok { OnOk result (IsFlush self.old.inner.now
            → HasWrittenStyled W.write_str_gives self.old.inner.now part.now self.new.inner.now) }
        ensures same { self.new.inner.ghost_name ≡ self.old.inner.ghost_name }
        ensures kept { OnOk result (self.new.refused ≡ self.old.refused) }
        ensures err { OnErr result (self.new.refused ≡ true) }
    {
        match self.inner.write_str(part) {
            Ok(()) => Ok(()),
            Err(error) => {
                self.refused = true;
                Err(error)
            }
        }
    }
}

impl<W: fmt::Write> fmt::Write for TrackingFormatter<'_, W> {
    ghost write_str_gives = { λ s bs t.
        ((formatter_of t).ghost_name ≡ (formatter_of s).ghost_name)
        × (IsFlush (formatter_of s).now
        → HasWrittenStyled W.write_str_gives (formatter_of s).now bs (formatter_of t).now) };

    fn write_str(&mut self, s: &str) -> fmt::Result {
        self.pass(s)
    }
}

impl<W: fmt::Write> Sink for TrackingFormatter<'_, W> {
    ghost refused = { has_refused_part };

    fn put(&mut self, text: &str) -> fmt::Result {
        self.pass(text)
    }
}

/// A type with a text that can be written to a sink.
pub trait WriteTo {
    /// The bytes of the text.
    ghost text: { Self → List ℕ };

    /// Writes the text to a sink.
    ///
    /// # Errors
    /// [`fmt::Error`]: the sink refused a part of it; the sink's contents are then unspecified.
    fn write_to<S: Sink>(&self, sink: &mut S) -> fmt::Result
        ensures ok { OnOk result (WritesInCalls S.write_str_gives sink.old
            (text self.now) sink.new) }
        ensures kept { OnOk result (S.refused sink.new ≡ S.refused sink.old) }
        ensures err { OnErr result (S.refused sink.new ≡ true) };
}

/// Writes a text to any writer.
///
/// # Errors
/// [`fmt::Error`]: the writer refused a part of it; the writer's contents are then unspecified.
pub fn write_text<T: WriteTo, W: fmt::Write>(text: &T, w: &mut W) -> fmt::Result
    ensures { OnOk result (WritesInCalls W.write_str_gives w.old (T.text text.now) w.new) }
{
    let mut sink = TrackingWriter::new(w);
    let written = text.write_to(&mut sink);
    // Does nothing. The proof reads the content of `w` from the returned reference.
    sink.into_inner();
    written
}

/// Writes a text as `{}` does, whatever options the formatter has.
///
/// # Errors
/// [`fmt::Error`]: the formatter refused a part of it; the formatter's output is then unspecified.
pub fn display_text<T: WriteTo, W: fmt::Write>(text: &T, f: &mut fmt::Formatter<W>) -> fmt::Result
    ensures plain { WritesOnOk W.write_str_gives f.old result (T.text text.now) f.new }
    ensures styled { WritesStyledOnOk W.write_str_gives f.old result (T.text text.now) f.new }
{
    let mut sink = TrackingFormatter::new(f);
    let displayed = text.write_to(&mut sink);
    // Does nothing. The proof reads the content of `f` from the returned reference.
    sink.into_inner();
    displayed
}
