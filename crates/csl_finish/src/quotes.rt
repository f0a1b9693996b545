//! Quotes inside of quotes, and commas and periods at the end of quotes.
//! Definitions: specs/Letters.antt.

ghost use Rattle.std.specs.Prelude.{◌≡◌, [], ◌++◌, false, true, IfOk, IfSome, OnOk};
ghost use Rattle.csl_finish.specs.Letters.{is_word_char};
ghost use Rattle.csl_finish.specs.Letters.{word_of, words};

use crate::letters::{Letter, Role};
use csl_style::{OtherTerm, Style, Term, TermForm};
use lit_model::Memory;
use std::alloc::Global;

/// The texts before and after what is quoted.
#[derive(Clone, Copy)]
pub(crate) struct Quote<'s> {
    open: &'s str,
    close: &'s str,
    /// The mark in the text before.
    open_mark: Option<char>,
    /// The mark in the text after.
    close_mark: Option<char>,
}

/// The quotes of a style's language.
#[derive(Clone, Copy)]
pub(crate) struct Quotes<'s> {
    outer: Quote<'s>,
    /// Those inside of outer ones.
    inner: Quote<'s>,
}

/// Marks that open a quote inside of this many others stay as they are.
const MOST_OPEN: usize = 8;

/// The mark in the text of a quote, which in some languages has a space beside it.
fn mark_of(text: &str) -> Option<char>
    ensures { IfSome result (λ mark. is_word_char mark ≡ false) }
{
    text.chars()
        .find(|it| !it.is_whitespace() && !it.is_alphanumeric())
}

/// The text of a quote.
fn quote_text(style: &Style, term: OtherTerm) -> Option<&str> {
    style.term(Term::Other(term), TermForm::Long, false)
}

impl<'s> Quote<'s> {
    /// The quote of two terms, if the style has both.
    fn of(style: &'s Style, before: OtherTerm, after: OtherTerm) -> Option<Quote<'s>> {
        let open = quote_text(style, before)?;
        let close = quote_text(style, after)?;
        Some(Quote {
            open,
            close,
            open_mark: mark_of(open),
            close_mark: mark_of(close),
        })
    }
}

impl<'s> Quotes<'s> {
    /// The quotes of the style's language, if it has both.
    pub(crate) fn of(style: &'s Style) -> Option<Quotes<'s>> {
        let outer = Quote::of(style, OtherTerm::OpenQuote, OtherTerm::CloseQuote)?;
        let inner = Quote::of(style, OtherTerm::OpenInnerQuote, OtherTerm::CloseInnerQuote)?;
        Some(Quotes { outer, inner })
    }

    /// Whether they are those of French, with a space inside.
    pub(crate) fn are_french(&self) -> bool {
        match self.outer.open.strip_prefix("«") {
            Some(inside) => inside.chars().any(|it| it.is_whitespace()),
            None => false,
        }
    }

    /// The mark that closes a quote that this mark opens, in this language, in English or in
    /// French.
    fn closing(&self, mark: char) -> Option<char> {
        if self.outer.open_mark == Some(mark) {
            return self.outer.close_mark;
        }
        if self.inner.open_mark == Some(mark) {
            return self.inner.close_mark;
        }
        match mark {
            '“' => Some('”'),
            '«' => Some('»'),
            _ => None,
        }
    }

    /// The quote inside of this many others.
    fn inside_of(&self, others: usize) -> Quote<'s> {
        if others % 2 == 0 {
            self.outer
        } else {
            self.inner
        }
    }
}

/// Whether the mark at this index is before a letter or a digit of its text.
fn is_before_letter(letters: &[Letter], index: usize, mark: Letter) -> bool {
    match letters.get(index.saturating_add(1)) {
        Some(after) => after.text == mark.text && after.value.is_alphanumeric(),
        None => false,
    }
}

/// Whether the mark at this index is after a space, a bracket, or a mark that opens a quote.
fn is_after_opening(letters: &[Letter], index: usize, quotes: Quotes<'_>) -> bool {
    if index == 0 {
        return true;
    }
    match letters.get(index - 1) {
        Some(before) => {
            let is_bracket = matches!(before.value, '(' | '[');
            is_bracket || before.value.is_whitespace() || quotes.closing(before.value).is_some()
        }
        None => true,
    }
}

/// Whether a mark before a letter closes no quote: an apostrophe, or one that opens a quote, as the
/// English mark does that is the closing one in German.
fn closes_none(letters: &[Letter], index: usize, mark: Letter, quotes: Quotes<'_>) -> bool {
    if matches!(mark.value, '’' | '\'') {
        return true;
    }
    quotes.closing(mark.value).is_some() && is_after_opening(letters, index, quotes)
}

/// How many quotes are open after the mark at this index, if it closes one.
fn open_after(
    letters: &[Letter],
    index: usize,
    mark: Letter,
    quotes: Quotes<'_>,
    open: &[char],
) -> Option<usize> {
    if is_before_letter(letters, index, mark) && closes_none(letters, index, mark, quotes) {
        return None;
    }
    open.iter().rposition(|it| *it == mark.value)
}

/// Appends a quote's text in the place of a mark. If the mark is already that quote's, a space
/// beside it stays as it is.
#[tactic(auto, using(crate::proofs::Marks::pushes))]
fn push_quote(
    letters: &mut Vec<Letter>,
    mark: Letter,
    quote: &str,
    role: Role,
) -> Result<(), Memory>
    ensures { OnOk result (words letters.new.items ≡ words letters.old.items) }
{
    let own = mark_of(quote);
    if own == Some(mark.value) {
        letters.push(Letter { role, ..mark })?;
        return Ok(());
    }
    for value in quote.chars() {
        if !value.is_alphanumeric() {
            let is_own = own == Some(value);
            letters.push(Letter {
                value,
                role: if is_own { role } else { Role::Plain },
                ..mark
            })?;
        }
    }
    Ok(())
}

/// Appends the letter at an index, or a quote of the language in its place if the letter opens or
/// closes one. `open` has the marks that close the quotes around it.
#[tactic(auto, using(crate::proofs::Marks::pushes))]
fn push_nested(
    nested: &mut Vec<Letter>,
    open: &mut Vec<char>,
    letters: &[Letter],
    index: usize,
    letter: Letter,
    quotes: Quotes<'_>,
) -> Result<(), Memory>
    ensures { OnOk result (words nested.new.items ≡ words nested.old.items ++ word_of letter) }
{
    if letter.text.is_none() || letter.value.is_alphanumeric() {
        nested.push(letter)?;
        return Ok(());
    }
    if let Some(rest) = open_after(letters, index, letter, quotes, open) {
        open.truncate(rest);
        return push_quote(nested, letter, quotes.inside_of(rest).close, Role::Closing);
    }
    if open.len() < MOST_OPEN {
        if let Some(closing) = quotes.closing(letter.value) {
            let quote = quotes.inside_of(open.len()).open;
            open.push(closing)?;
            return push_quote(nested, letter, quote, Role::Plain);
        }
    }
    nested.push(letter)?;
    Ok(())
}

/// The letters with the quotes of the language, the inner ones inside of outer ones, in turn.
#[tactic(auto, using(crate::proofs::Marks::pushes))]
pub(crate) fn nested_quotes(
    alloc: Global,
    letters: &[Letter],
    quotes: Quotes<'_>,
) -> Result<Vec<Letter>, Memory>
    ensures { IfOk result (λ nested. words nested.items ≡ words letters.now) }
{
    let mut nested = Vec::new(alloc);
    let mut open = Vec::new(alloc);
    for (index, letter) in letters.iter().enumerate() {
        push_nested(&mut nested, &mut open, letters, index, *letter, quotes)?;
    }
    Ok(nested)
}

/// Whether a letter moves into the quotes before it: a comma or a period of a text.
#[tactic(auto, using(crate::proofs::Marks::silent_marks))]
fn moves(letter: Letter) -> bool
    ensures { result ≡ true → word_of letter ≡ [] }
{
    match letter.value {
        ',' | '.' => letter.text.is_some(),
        _ => false,
    }
}

/// Appends a letter after the closing quotes that were read last, or before them if it moves.
fn push_moved(
    moved: &mut Vec<Letter>,
    closing: &mut Vec<Letter>,
    letter: Letter,
) -> Result<(), Memory> {
    if letter.role == Role::Closing {
        closing.push(letter)?;
        return Ok(());
    }
    if let Some(quote) = closing.first() {
        if moves(letter) {
            let text = quote.text;
            moved.push(moved_into(letter, text))?;
            return Ok(());
        }
    }
    moved.append(closing)?;
    moved.push(letter)?;
    Ok(())
}

/// A mark that has moved into the quotes of a text.
fn moved_into(mark: Letter, text: Option<usize>) -> Letter {
    Letter {
        text,
        role: Role::Moved,
        ..mark
    }
}

/// The letters with each comma and period after closing quotes before them (CSL 1.0.2, Locale
/// Options: punctuation-in-quote).
pub(crate) fn with_marks_in_quotes(
    alloc: Global,
    letters: &[Letter],
) -> Result<Vec<Letter>, Memory> {
    let mut moved = Vec::new(alloc);
    let mut closing = Vec::new(alloc);
    for letter in letters {
        push_moved(&mut moved, &mut closing, *letter)?;
    }
    moved.append(&mut closing)?;
    Ok(moved)
}
