//! The words of a text, as its case sees them: letters and digits in a row, with the accents over
//! them, and an apostrophe or a period between two of them. A hyphen ends a word.

ghost use Rattle.std.specs.Prelude.{◌≤◌, ◌<◌, length, IfSome};

use crate::letters::{Letter, text_of};
use crate::links::is_one_of;
use lit_model::Memory;
use std::alloc::Global;

/// The first word of letters, with what is before and after it.
#[derive(Clone, Copy)]
pub(crate) struct Word<'s> {
    pub before: &'s [Letter],
    pub letters: &'s [Letter],
    pub after: &'s [Letter],
}

/// The words that are small in titles (CSL 1.0.2, Text-case: title).
static STOP_WORDS: [&str; 26] = [
    "a", "an", "and", "as", "at", "but", "by", "down", "for", "from", "in", "into", "nor", "of",
    "on", "onto", "or", "over", "so", "the", "till", "to", "up", "via", "with", "yet",
];

/// Whether the letter is of the word that the letter before it is of.
fn goes_on(letter: Letter, after: Option<&Letter>) -> bool {
    match letter.value {
        '\u{300}'..='\u{36f}' => true,
        '\'' | '’' | '.' => after.is_some_and(|it| it.value.is_alphanumeric()),
        value => value.is_alphanumeric(),
    }
}

/// How many letters are of the word that the letter before them begins.
fn rest_len(letters: &[Letter]) -> usize
    ensures { result ≤ length letters.now }
{
    for (index, letter) in letters.iter().enumerate() {
        if !goes_on(*letter, letters.get(index.saturating_add(1))) {
            return index;
        }
    }
    letters.len()
}

/// The first word of the letters, if they have one.
pub(crate) fn first_word(letters: &[Letter]) -> Option<Word<'_>>
    ensures { IfSome result (λ word. length word.after.now < length letters.now) }
{
    let start = letters.iter().position(|it| it.value.is_alphanumeric())?;
    let (before, from_word) = letters.split_at(start);
    let len = 1 + rest_len(&from_word[1..]);
    let (word, after) = from_word.split_at(len);
    Some(Word {
        before,
        letters: word,
        after,
    })
}

impl Word<'_> {
    /// Whether no word comes after it.
    pub(crate) fn is_last(&self) -> bool {
        !self.after.iter().any(|it| it.value.is_alphanumeric())
    }

    /// Whether it has no capital.
    pub(crate) fn is_lowercase(&self) -> bool {
        !self.letters.iter().any(|it| it.value.is_uppercase())
    }

    /// Whether a colon is before it, with spaces, quotes and brackets alone in between.
    pub(crate) fn follows_colon(&self) -> bool {
        let before = self.before.iter().rev().find(|it| !opens(it.value));
        before.is_some_and(|it| it.value == ':')
    }

    /// Whether it is small in titles.
    pub(crate) fn is_stop_word(&self, alloc: Global) -> Result<bool, Memory> {
        let text = text_of(alloc, self.letters)?;
        let small = text.as_str().to_ascii_lowercase(alloc)?;
        Ok(is_one_of(small.as_str(), &STOP_WORDS))
    }
}

/// Whether a character may be between a colon and the word that follows it.
fn opens(c: char) -> bool {
    c.is_whitespace()
        || matches!(
            c,
            '"' | '\'' | '‘' | '“' | '‚' | '„' | '‹' | '«' | '(' | '['
        )
}
