//! Writing of numbers.

ghost use Rattle.std.specs.Prelude.{◌≡◌, ◌<◌, Some, true, [], OnOk, OnErr, replicate, unwrap_or, option_map, string_bytes};
ghost use Rattle.std.specs.Fmt.{WritesInCalls};
ghost use Rattle.lit_model.specs.Numeric.{numeric_view, value_view};
ghost use Rattle.lit_model.specs.Characters.{zero_char};
ghost use Rattle.lit_model.specs.NumericWrite.{integer_text, delimiter_text, numbers_text, value_text, numeric_text};

use super::{Numeric, NumericDelimiter, NumericValue};
use csl_common::{Sink, TrackingWriter, WriteTo, display_text};
use itoa::Buffer;
use std::fmt;

/// The given number of zeros, to pad a number.
fn zeros(count: usize) -> &'static str
    requires { count < 5 }
    ensures { result.now ≡ replicate count zero_char }
{
    match count {
        0 => "",
        1 => "0",
        2 => "00",
        3 => "000",
        _ => "0000",
    }
}

/// Writes a number; for sorting (`machine_readable`) padded with zeros to at least four places.
#[tactic(auto, using(csl_common::proofs::Writes::two_writes, csl_common::proofs::Writes::three_writes))]
pub fn write_integer<S: Sink>(sink: &mut S, number: i32, machine_readable: bool) -> fmt::Result
    ensures ok { OnOk result (WritesInCalls S.write_str_gives sink.old
        (integer_text machine_readable number) sink.new) }
    ensures kept { OnOk result (S.refused sink.new ≡ S.refused sink.old) }
    ensures err { OnErr result (S.refused sink.new ≡ true) }
{
    let mut buffer = Buffer::new();
    if !machine_readable {
        return sink.put(buffer.format(number));
    }
    let digits = buffer.format(number.unsigned_abs());
    if number < 0 {
        sink.put("-")?;
        sink.put(zeros(3usize.saturating_sub(digits.len())))?;
        sink.put(digits)?;
        return Ok(());
    }
    sink.put(zeros(4usize.saturating_sub(digits.len())))?;
    sink.put(digits)?;
    Ok(())
}

/// The text between two numbers.
pub fn delimiter_str(delimiter: Option<NumericDelimiter>) -> &'static str
    ensures { result.now ≡ delimiter_text delimiter }
{
    match delimiter {
        None => "",
        Some(NumericDelimiter::Comma) => ", ",
        Some(NumericDelimiter::Ampersand) => " & ",
        Some(NumericDelimiter::Hyphen) => "-",
    }
}

/// The text, or an empty one if there is none.
fn text_or_empty(text: &Option<String>) -> &str
    ensures { result.now ≡ unwrap_or (option_map string_bytes text.now) [] }
{
    match text {
        Some(text) => text.as_str(),
        None => "",
    }
}

impl NumericValue {
    /// Writes the number or the numbers to a sink, for sorting or for display.
    fn write_into<S: Sink>(&self, sink: &mut S, machine_readable: bool) -> fmt::Result
        ensures ok { OnOk result (WritesInCalls S.write_str_gives sink.old
            (value_text (integer_text machine_readable) (value_view self.now)) sink.new) }
        ensures kept { OnOk result (S.refused sink.new ≡ S.refused sink.old) }
        ensures err { OnErr result (S.refused sink.new ≡ true) }
    {
        match self {
            NumericValue::Number(number) => write_integer(sink, *number, machine_readable),
            NumericValue::Set(numbers) => write_numbers(sink, numbers.as_slice(), machine_readable),
        }
    }
}

/// Writes numbers with their delimiters.
fn write_numbers<S: Sink>(
    sink: &mut S,
    numbers: &[(i32, Option<NumericDelimiter>)],
    machine_readable: bool,
) -> fmt::Result
    ensures ok { OnOk result (WritesInCalls S.write_str_gives sink.old
        (numbers_text (integer_text machine_readable) numbers.now) sink.new) }
    ensures kept { OnOk result (S.refused sink.new ≡ S.refused sink.old) }
    ensures err { OnErr result (S.refused sink.new ≡ true) }
{
    for (number, delimiter) in numbers {
        write_integer(sink, *number, machine_readable)?;
        sink.put(delimiter_str(*delimiter))?;
    }
    Ok(())
}

impl Numeric {
    /// Writes the number or the numbers to a sink, without prefix and suffix. For sorting
    /// (`machine_readable`), each number is padded with zeros to at least four places.
    ///
    /// # Errors
    /// [`fmt::Error`]: the sink refused a text; the contents of the sink are then unspecified.
    pub fn fmt_value_into<S: Sink>(&self, sink: &mut S, machine_readable: bool) -> fmt::Result
        ensures ok { OnOk result (WritesInCalls S.write_str_gives sink.old
            (value_text (integer_text machine_readable) (value_view self.now.value)) sink.new) }
        ensures kept { OnOk result (S.refused sink.new ≡ S.refused sink.old) }
        ensures err { OnErr result (S.refused sink.new ≡ true) }
    {
        self.value.write_into(sink, machine_readable)
    }

    /// Writes the number or the numbers to any writer, as [`Numeric::fmt_value_into`] does to a
    /// sink.
    ///
    /// # Errors
    /// [`fmt::Error`]: the writer refused a text; its contents are then unspecified.
    pub fn fmt_value<W: fmt::Write>(&self, w: &mut W, machine_readable: bool) -> fmt::Result
        ensures { OnOk result (WritesInCalls W.write_str_gives w.old
            (value_text (integer_text machine_readable) (value_view self.now.value)) w.new) }
    {
        let mut sink = TrackingWriter::new(w);
        let result = self.fmt_value_into(&mut sink, machine_readable);
        // No effect: the proof gets the contents of `w` from the returned reference.
        sink.into_inner();
        result
    }
}

/// Writes the number with its prefix and suffix.
impl WriteTo for Numeric {
    ghost text = { λ n. numeric_text (numeric_view n) };

    #[tactic(auto, using(csl_common::proofs::Writes::three_writes))]
    fn write_to<S: Sink>(&self, sink: &mut S) -> fmt::Result {
        sink.put(text_or_empty(&self.prefix))?;
        self.value.write_into(sink, false)?;
        sink.put(text_or_empty(&self.suffix))?;
        Ok(())
    }
}

impl fmt::Display for Numeric {
    ghost output = { λ n. Some (numeric_text (numeric_view n)) };

    ghost styled_output = { λ n spec. Some (numeric_text (numeric_view n)) };

    fn fmt<W: fmt::Write>(&self, f: &mut fmt::Formatter<W>) -> fmt::Result {
        display_text(self, f)
    }
}
