//! Numbers in the forms that a style requests.

ghost use Rattle.std.specs.Prelude.{◌≡◌, Option, true, OnOk, OnErr};
ghost use Rattle.std.specs.Fmt.{WritesInCalls};
ghost use Rattle.lit_model.specs.Numeric.{numeric_view};
ghost use Rattle.lit_model.specs.NumericWrite.{numbers_text};
ghost use Rattle.lit_model.specs.NumericForm.{roman_text, ordinal_text, long_ordinal_text, form_text, numeric_in_form};

use super::roman::write_roman;
use super::write::{delimiter_str, write_integer};
use super::{Numeric, NumericDelimiter, NumericValue};
use csl_common::{GrammarGender, NumberForm, Ordinals, Sink, TrackingWriter, WriteTo};
use std::fmt;

/// Writes a number as a roman numeral if it has one, else in decimal.
fn write_in_roman<S: Sink>(sink: &mut S, number: i32) -> fmt::Result
    ensures ok { OnOk result (WritesInCalls S.write_str_gives sink.old
        (roman_text number) sink.new) }
    ensures kept { OnOk result (S.refused sink.new ≡ S.refused sink.old) }
    ensures err { OnErr result (S.refused sink.new ≡ true) }
{
    if number >= 1 && number <= 3999 {
        return write_roman(sink, number.unsigned_abs());
    }
    write_integer(sink, number, false)
}

/// Writes a number and the suffix of its ordinal, if there is one.
#[tactic(auto, using(csl_common::proofs::Writes::two_writes))]
fn write_ordinal<S: Sink, O: Ordinals>(
    sink: &mut S,
    number: i32,
    gender: Option<GrammarGender>,
    ordinals: &O,
) -> fmt::Result
    ensures ok { OnOk result (WritesInCalls S.write_str_gives sink.old
        (ordinal_text (O.ordinals ordinals.now) gender number) sink.new) }
    ensures kept { OnOk result (S.refused sink.new ≡ S.refused sink.old) }
    ensures err { OnErr result (S.refused sink.new ≡ true) }
{
    let suffix = ordinals.lookup(number, gender).unwrap_or("");
    write_integer(sink, number, false)?;
    sink.put(suffix)?;
    Ok(())
}

/// Writes the long ordinal of a number if it has one, else its ordinal.
fn write_long_ordinal<S: Sink, O: Ordinals>(
    sink: &mut S,
    number: i32,
    gender: Option<GrammarGender>,
    ordinals: &O,
) -> fmt::Result
    ensures ok { OnOk result (WritesInCalls S.write_str_gives sink.old
        (long_ordinal_text (O.ordinals ordinals.now)
        (O.long_ordinals ordinals.now) gender number) sink.new) }
    ensures kept { OnOk result (S.refused sink.new ≡ S.refused sink.old) }
    ensures err { OnErr result (S.refused sink.new ≡ true) }
{
    if number >= 1 && number <= 10 {
        return match ordinals.long(number, gender) {
            Some(word) => sink.put(word),
            None => write_ordinal(sink, number, gender, ordinals),
        };
    }
    write_ordinal(sink, number, gender, ordinals)
}

/// Writes one number in a form, or in the fallback of that form.
fn write_in_form<S: Sink, O: Ordinals>(
    sink: &mut S,
    number: i32,
    form: NumberForm,
    gender: Option<GrammarGender>,
    ordinals: &O,
) -> fmt::Result
    ensures ok { OnOk result (WritesInCalls S.write_str_gives sink.old
        (form_text (O.ordinals ordinals.now)
        (O.long_ordinals ordinals.now) form gender number) sink.new) }
    ensures kept { OnOk result (S.refused sink.new ≡ S.refused sink.old) }
    ensures err { OnErr result (S.refused sink.new ≡ true) }
{
    match form {
        NumberForm::Numeric => write_integer(sink, number, false),
        NumberForm::Ordinal => write_ordinal(sink, number, gender, ordinals),
        NumberForm::LongOrdinal => write_long_ordinal(sink, number, gender, ordinals),
        NumberForm::Roman => write_in_roman(sink, number),
    }
}

/// Writes numbers in a form, with their delimiters.
fn write_numbers_in_form<S: Sink, O: Ordinals>(
    sink: &mut S,
    numbers: &[(i32, Option<NumericDelimiter>)],
    form: NumberForm,
    gender: Option<GrammarGender>,
    ordinals: &O,
) -> fmt::Result
    ensures ok { OnOk result (WritesInCalls S.write_str_gives sink.old
        (numbers_text (form_text (O.ordinals ordinals.now)
        (O.long_ordinals ordinals.now) form gender) numbers.now) sink.new) }
    ensures kept { OnOk result (S.refused sink.new ≡ S.refused sink.old) }
    ensures err { OnErr result (S.refused sink.new ≡ true) }
{
    for (number, delimiter) in numbers {
        write_in_form(sink, *number, form, gender, ordinals)?;
        sink.put(delimiter_str(*delimiter))?;
    }
    Ok(())
}

impl Numeric {
    /// Writes the number, or each number of several, in a form to a sink (CSL 1.0.2, Number). A
    /// number without a text in the form is written in the form's fallback. The fallback is the
    /// ordinal for LongOrdinal, and the number in decimal for Ordinal and Roman. A number with a
    /// prefix or a suffix is written as `Display` writes it.
    ///
    /// # Errors
    /// [`fmt::Error`]: the sink refused a text; the contents of the sink are then unspecified.
    pub fn with_form_into<S: Sink, O: Ordinals>(
        &self,
        sink: &mut S,
        form: NumberForm,
        gender: Option<GrammarGender>,
        ordinals: &O,
    ) -> fmt::Result
        ensures ok { OnOk result (WritesInCalls S.write_str_gives sink.old
            (numeric_in_form (O.ordinals ordinals.now)
            (O.long_ordinals ordinals.now) form gender (numeric_view self.now)) sink.new) }
        ensures kept { OnOk result (S.refused sink.new ≡ S.refused sink.old) }
        ensures err { OnErr result (S.refused sink.new ≡ true) }
    {
        if !self.will_transform() {
            return self.write_to(sink);
        }
        match &self.value {
            NumericValue::Number(number) => write_in_form(sink, *number, form, gender, ordinals),
            NumericValue::Set(numbers) => {
                write_numbers_in_form(sink, numbers.as_slice(), form, gender, ordinals)
            }
        }
    }

    /// Writes the number in a form to any writer, as [`Numeric::with_form_into`] does to a sink.
    ///
    /// # Errors
    /// [`fmt::Error`]: the writer refused a text; its contents are then unspecified.
    pub fn with_form<W: fmt::Write, O: Ordinals>(
        &self,
        w: &mut W,
        form: NumberForm,
        gender: Option<GrammarGender>,
        ordinals: &O,
    ) -> fmt::Result
        ensures { OnOk result (WritesInCalls W.write_str_gives w.old
            (numeric_in_form (O.ordinals ordinals.now)
            (O.long_ordinals ordinals.now) form gender (numeric_view self.now)) w.new) }
    {
        let mut sink = TrackingWriter::new(w);
        let result = self.with_form_into(&mut sink, form, gender, ordinals);
        // No effect: the proof gets the contents of `w` from the returned reference.
        sink.into_inner();
        result
    }
}
