//! Given names with their single letters marked, such as `Karl J.`.

ghost use Rattle.std.specs.Prelude.{◌≡◌, true, option_copied, chars, OnOk, OnErr};
ghost use Rattle.unicode.specs.GeneralCategory.{general_category};
ghost use Rattle.std.specs.Fmt.{WritesInCalls};
ghost use Rattle.lit_model.specs.FirstNames as spec;
ghost use Rattle.lit_model.specs.Initials.{given_words};
ghost use Rattle.lit_model.specs.Marked.{gap_after};
ghost use Rattle.lit_model.specs.Person.{person_view};

use crate::person::Person;
use csl_common::{Sink, TrackingWriter};
use std::fmt;
use unicode::properties::GeneralCategory;

fn is_capital(c: char) -> bool
    ensures { result ≡ spec.is_capital (general_category c) }
{
    matches!(
        GeneralCategory::for_char(c),
        GeneralCategory::UppercaseLetter
    )
}

/// Whether the text is one uppercase letter.
fn is_single_capital(text: &str) -> bool
    ensures { result ≡ spec.is_single_capital (chars text.now) }
{
    let mut rest = text.chars();
    match rest.next() {
        None => false,
        Some(first) => match rest.next() {
            None => is_capital(first),
            Some(_second) => false,
        },
    }
}

fn without_dot(word: &str) -> &str
    ensures { result.now ≡ spec.without_dot word.now }
{
    match word.strip_suffix('.') {
        Some(front) => front,
        None => word,
    }
}

/// The letter of a word that is one uppercase letter, with or without a dot.
fn single_letter(word: &str) -> Option<&str>
    ensures { option_copied result ≡ spec.single_letter word.now }
{
    let letter = without_dot(word);
    if is_single_capital(letter) {
        Some(letter)
    } else {
        None
    }
}

/// The gap between a word and the next. After a single letter it is the white space at the end of
/// `text`, if there is any. Otherwise it is a space.
fn gap_after<'a>(text: &'a str, letter: Option<&str>) -> &'a str
    ensures { result.now ≡ gap_after text.now (option_copied letter.entry) }
{
    if letter.is_none() {
        return " ";
    }
    let end = text.trim_end().len();
    if end < text.len() { &text[end..] } else { " " }
}

fn write_name<S: Sink>(sink: &mut S, text: &str, letter: Option<&str>, word: &str) -> fmt::Result
    ensures ok { OnOk result (WritesInCalls S.write_str_gives sink.old
        (spec.last_letter_or_word text.now (option_copied letter.entry) word.now) sink.new) }
    ensures kept { OnOk result (S.refused sink.new ≡ S.refused sink.old) }
    ensures err { OnErr result (S.refused sink.new ≡ true) }
{
    match letter {
        None => sink.put(word),
        Some(letter) => sink.write_all(&[letter, text.trim_end()]),
    }
}

fn write_names<S: Sink>(sink: &mut S, text: &str, given: &str) -> fmt::Result
    ensures ok { OnOk result (WritesInCalls S.write_str_gives sink.old
        (spec.lettered_words text.now (given_words given.now)) sink.new) }
    ensures kept { OnOk result (S.refused sink.new ≡ S.refused sink.old) }
    ensures err { OnErr result (S.refused sink.new ≡ true) }
{
    let mut gap = "";
    for word in given.split_whitespace() {
        let letter = single_letter(word);
        sink.put(gap)?;
        write_name(sink, text, letter, word)?;
        gap = gap_after(text, letter);
    }
    Ok(())
}

impl Person {
    /// Writes the given name to a sink. A word that is one uppercase letter (general category Lu),
    /// with or without a dot, becomes the letter and the text `delimiter`. Any other word is
    /// unchanged. A space separates two words, unless `delimiter` follows the first of them and
    /// ends in white space. After the last word `delimiter` loses its trailing white space.
    ///
    /// # Errors
    /// [`fmt::Error`]: the sink refused a text; the contents of the sink are then unspecified.
    pub fn first_name_with_delimiter_into<S: Sink>(
        &self,
        sink: &mut S,
        delimiter: Option<&str>,
    ) -> fmt::Result
        ensures ok { OnOk result (WritesInCalls S.write_str_gives sink.old
            (spec.person_first_name (option_copied delimiter.entry) (person_view self.now))
            sink.new) }
        ensures kept { OnOk result (S.refused sink.new ≡ S.refused sink.old) }
        ensures err { OnErr result (S.refused sink.new ≡ true) }
    {
        let text = delimiter.unwrap_or("");
        match &self.given_name {
            None => Ok(()),
            Some(given) => write_names(sink, text, given.as_str()),
        }
    }

    /// Writes the given name to any writer, as [`Person::first_name_with_delimiter_into`] does to a
    /// sink.
    ///
    /// # Errors
    /// [`fmt::Error`]: the writer refused a text; its contents are then unspecified.
    pub fn first_name_with_delimiter<W: fmt::Write>(
        &self,
        w: &mut W,
        delimiter: Option<&str>,
    ) -> fmt::Result
        ensures { OnOk result (WritesInCalls W.write_str_gives w.old
            (spec.person_first_name (option_copied delimiter.entry) (person_view self.now)) w.new) }
    {
        let mut sink = TrackingWriter::new(w);
        let result = self.first_name_with_delimiter_into(&mut sink, delimiter);
        // No effect: the proof gets the contents of `w` from the returned reference.
        sink.into_inner();
        result
    }
}
