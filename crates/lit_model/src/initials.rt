//! The initials of given names.

ghost use Rattle.std.specs.Prelude.{◌≡◌, true, option_to_list, option_copied, OnOk, OnErr, IfOk};
ghost use Rattle.std.specs.Fmt.{WritesInCalls};
ghost use Rattle.lit_model.specs.Initials.{first_grapheme, initials_of, initials, person_initials};
ghost use Rattle.lit_model.specs.Person.{person_view};
ghost use Rattle.lit_model.specs.Shortened as spec;

use crate::person::Person;
use csl_common::{Sink, TrackingWriter};
use std::fmt;
use unicode_segmentation::UnicodeSegmentation;

/// The position of an initial, by what precedes it.
#[derive(Clone, Copy)]
enum Before {
    /// No other initial.
    Nothing,
    /// An initial of an earlier word.
    Word,
    /// An initial of the same word.
    Piece,
}

/// The settings for writing initials.
#[derive(Clone, Copy)]
struct Shortened<'a> {
    /// The text that follows each initial.
    text: &'a str,
    /// Whether a hyphen in a name is kept.
    hyphen: bool,
}

impl Shortened<'_> {
    fn write_gap<S: Sink>(&self, sink: &mut S, before: Before) -> fmt::Result
        ensures ok { OnOk result (WritesInCalls S.write_str_gives sink.old
            (spec.gap self.now.text.now self.now.hyphen before) sink.new) }
        ensures kept { OnOk result (S.refused sink.new ≡ S.refused sink.old) }
        ensures err { OnErr result (S.refused sink.new ≡ true) }
    {
        match before {
            Before::Nothing => Ok(()),
            Before::Word => sink.put(self.text),
            Before::Piece if self.hyphen => sink.write_all(&[self.text.trim_end(), "-"]),
            Before::Piece => sink.put(self.text),
        }
    }

    /// Writes the initial of a piece, unless the piece is empty. Returns the position of the next
    /// initial in the word.
    fn write_piece<S: Sink>(
        &self,
        sink: &mut S,
        piece: &str,
        before: Before,
    ) -> Result<Before, fmt::Error>
        ensures place { IfOk result
            (λ b. b ≡ spec.before_piece before (option_to_list (first_grapheme piece.now))) }
        ensures ok { OnOk result (WritesInCalls S.write_str_gives sink.old
            (spec.word_text self.now.text.now self.now.hyphen before
            (option_to_list (first_grapheme piece.now))) sink.new) }
        ensures kept { OnOk result (S.refused sink.new ≡ S.refused sink.old) }
        ensures err { OnErr result (S.refused sink.new ≡ true) }
    {
        match piece.graphemes(true).next() {
            None => Ok(before),
            Some(initial) => {
                self.write_gap(sink, before)?;
                sink.put(initial)?;
                Ok(Before::Piece)
            }
        }
    }

    /// Writes the initials of a word. Returns the position that a further initial in the word would
    /// have.
    fn write_word<S: Sink>(
        &self,
        sink: &mut S,
        word: &str,
        before: Before,
    ) -> Result<Before, fmt::Error>
        ensures place { IfOk result (λ b. b ≡ spec.before_piece before (initials_of word.now)) }
        ensures ok { OnOk result (WritesInCalls S.write_str_gives sink.old
            (spec.word_text self.now.text.now self.now.hyphen before (initials_of word.now))
            sink.new) }
        ensures kept { OnOk result (S.refused sink.new ≡ S.refused sink.old) }
        ensures err { OnErr result (S.refused sink.new ≡ true) }
    {
        let mut rest = word;
        let mut place = before;
        while let Some((piece, after)) = rest.split_once('-') {
            place = self.write_piece(sink, piece, place)?;
            rest = after;
        }
        let last = self.write_piece(sink, rest, place)?;
        Ok(last)
    }

    /// Writes the initials of all words of a given name.
    fn write_words<S: Sink>(&self, sink: &mut S, given: &str) -> fmt::Result
        ensures ok { OnOk result (WritesInCalls S.write_str_gives sink.old
            (initials self.now.text.now self.now.hyphen given.now) sink.new) }
        ensures kept { OnOk result (S.refused sink.new ≡ S.refused sink.old) }
        ensures err { OnErr result (S.refused sink.new ≡ true) }
    {
        let mut place = Before::Nothing;
        for word in given.split_whitespace() {
            let last = self.write_word(sink, word, place)?;
            place = last.before_word();
        }
        self.write_end(sink, place)?;
        Ok(())
    }

    fn write_end<S: Sink>(&self, sink: &mut S, place: Before) -> fmt::Result
        ensures ok { OnOk result (WritesInCalls S.write_str_gives sink.old
            (spec.end_text self.now.text.now place) sink.new) }
        ensures kept { OnOk result (S.refused sink.new ≡ S.refused sink.old) }
        ensures err { OnErr result (S.refused sink.new ≡ true) }
    {
        match place {
            Before::Nothing => Ok(()),
            Before::Word | Before::Piece => sink.put(self.text.trim_end()),
        }
    }
}

impl Before {
    /// The position of the first initial of the next word.
    fn before_word(self) -> Before
        ensures { result ≡ spec.before_word self }
    {
        match self {
            Before::Nothing => Before::Nothing,
            Before::Word | Before::Piece => Before::Word,
        }
    }
}

impl Person {
    /// Writes the initials of the given name to a sink: the first grapheme of each piece between
    /// white space or `-`. The text `delimiter` follows each initial; at the end it loses its
    /// trailing white space. If `with_hyphen`, the text between two initials of one word is
    /// `delimiter` without its trailing white space, then a `-`.
    ///
    /// # Errors
    /// [`fmt::Error`]: the sink refused a text; the contents of the sink are then unspecified.
    pub fn initials_into<S: Sink>(
        &self,
        sink: &mut S,
        delimiter: Option<&str>,
        with_hyphen: bool,
    ) -> fmt::Result
        ensures ok { OnOk result (WritesInCalls S.write_str_gives sink.old
            (person_initials (option_copied delimiter.entry) with_hyphen (person_view self.now)) sink.new) }
        ensures kept { OnOk result (S.refused sink.new ≡ S.refused sink.old) }
        ensures err { OnErr result (S.refused sink.new ≡ true) }
    {
        let text = delimiter.unwrap_or("");
        match &self.given_name {
            None => Ok(()),
            Some(given) => {
                let shortened = Shortened {
                    text,
                    hyphen: with_hyphen,
                };
                shortened.write_words(sink, given.as_str())
            }
        }
    }

    /// Writes the initials of the given name to any writer, as [`Person::initials_into`] does to a
    /// sink.
    ///
    /// # Errors
    /// [`fmt::Error`]: the writer refused a text; its contents are then unspecified.
    pub fn initials<W: fmt::Write>(
        &self,
        w: &mut W,
        delimiter: Option<&str>,
        with_hyphen: bool,
    ) -> fmt::Result
        ensures { OnOk result (WritesInCalls W.write_str_gives w.old
            (person_initials (option_copied delimiter.entry) with_hyphen (person_view self.now)) w.new) }
    {
        let mut sink = TrackingWriter::new(w);
        let result = self.initials_into(&mut sink, delimiter, with_hyphen);
        // No effect: the proof gets the contents of `w` from the returned reference.
        sink.into_inner();
        result
    }
}
