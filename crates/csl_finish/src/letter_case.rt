//! Letters in another case (Unicode, 3.13, Default Case Algorithms). A letter of a link or a markup
//! stays as it is, and so does one in `nocase`.

ghost use Rattle.std.specs.Prelude.{◌≡◌};
ghost use Rattle.csl_finish.specs.LetterCase as spec;

use crate::case_words::{Word, first_word};
use crate::letters::{Letter, Role, text_of};
use lit_model::Memory;
use std::alloc::Global;
use std::str::Chars;
use unicode::properties::changes_when_titlecased;

/// Whether a letter keeps its case.
fn is_fixed(letter: Letter) -> bool {
    letter.text.is_none() || letter.role == Role::Fixed
}

/// Whether a letter is small, and may change.
fn is_small(letter: Letter) -> bool {
    letter.value.is_lowercase() && !is_fixed(letter)
}

/// Appends letters that keep their case from now on.
pub(crate) fn push_fixed(cased: &mut Vec<Letter>, letters: &[Letter]) -> Result<(), Memory> {
    for letter in letters {
        cased.push(Letter {
            role: Role::Fixed,
            ..*letter
        })?;
    }
    Ok(())
}

/// Appends a letter as a capital.
fn push_upper_letter(cased: &mut Vec<Letter>, letter: Letter) -> Result<(), Memory> {
    if is_fixed(letter) {
        cased.push(letter)?;
        return Ok(());
    }
    for value in letter.value.to_uppercase() {
        cased.push(Letter { value, ..letter })?;
    }
    Ok(())
}

/// Appends letters as capitals.
pub(crate) fn push_upper(cased: &mut Vec<Letter>, letters: &[Letter]) -> Result<(), Memory> {
    for letter in letters {
        push_upper_letter(cased, *letter)?;
    }
    Ok(())
}

/// Appends a letter in small, as the next characters of `small`.
fn push_lower_letter(
    cased: &mut Vec<Letter>,
    letter: Letter,
    small: &mut Chars<'_>,
) -> Result<(), Memory> {
    for value in letter.value.to_lowercase() {
        let value = small.next().unwrap_or(value);
        if !is_fixed(letter) {
            cased.push(Letter { value, ..letter })?;
        }
    }
    if is_fixed(letter) {
        cased.push(letter)?;
    }
    Ok(())
}

/// Appends letters in small. A sigma at the end of a word has a form of its own.
pub(crate) fn push_lower(
    alloc: Global,
    cased: &mut Vec<Letter>,
    letters: &[Letter],
) -> Result<(), Memory> {
    let text = text_of(alloc, letters)?;
    let small = text.as_str().to_lowercase(alloc)?;
    let mut small = small.as_str().chars();
    for letter in letters {
        push_lower_letter(cased, *letter, &mut small)?;
    }
    Ok(())
}

/// A small letter that is two letters in one character, where the first alone is a capital.
fn digraph_capital(letter: char) -> Option<char>
    ensures { result ≡ spec.digraph_capital letter }
{
    match letter {
        'ǆ' => Some('ǅ'),
        'ǉ' => Some('ǈ'),
        'ǌ' => Some('ǋ'),
        'ǳ' => Some('ǲ'),
        _ => None,
    }
}

/// Appends a letter as the first one of a capitalized word. If it becomes several letters, the
/// first alone is a capital: `ß` is `Ss`, and `ﬁ` is `Fi`.
fn push_capital(cased: &mut Vec<Letter>, letter: Letter) -> Result<(), Memory> {
    if is_fixed(letter) || !changes_when_titlecased(letter.value) {
        cased.push(letter)?;
        return Ok(());
    }
    if let Some(value) = digraph_capital(letter.value) {
        cased.push(Letter { value, ..letter })?;
        return Ok(());
    }
    let mut upper = letter.value.to_uppercase();
    if let Some(value) = upper.next() {
        cased.push(Letter { value, ..letter })?;
    }
    for value in upper {
        let value = value.to_lowercase().next().unwrap_or(value);
        cased.push(Letter { value, ..letter })?;
    }
    Ok(())
}

/// Appends the letters of a word, which begins with a capital if it had none.
fn push_capitalized(cased: &mut Vec<Letter>, word: Word<'_>) -> Result<(), Memory> {
    match word.letters.split_first() {
        Some((first, rest)) if word.is_lowercase() => {
            push_capital(cased, *first)?;
            cased.extend_from_slice(rest)?;
        }
        _ => cased.extend_from_slice(word.letters)?,
    }
    Ok(())
}

/// Appends letters of which the first word is capitalized.
pub(crate) fn push_first_capitalized(
    cased: &mut Vec<Letter>,
    letters: &[Letter],
) -> Result<(), Memory> {
    let mut rest = letters;
    if let Some(word) = first_word(letters) {
        cased.extend_from_slice(word.before)?;
        push_capitalized(cased, word)?;
        rest = word.after;
    }
    cased.extend_from_slice(rest)?;
    Ok(())
}

/// Appends letters of which each word is capitalized.
pub(crate) fn push_all_capitalized(
    cased: &mut Vec<Letter>,
    letters: &[Letter],
) -> Result<(), Memory> {
    let mut rest = letters;
    while let Some(word) = first_word(rest) {
        cased.extend_from_slice(word.before)?;
        push_capitalized(cased, word)?;
        rest = word.after;
    }
    cased.extend_from_slice(rest)?;
    Ok(())
}

/// Appends a word of a title.
fn push_title_word(
    alloc: Global,
    cased: &mut Vec<Letter>,
    word: Word<'_>,
    is_first: bool,
) -> Result<(), Memory> {
    let is_inside = !is_first && !word.is_last() && !word.follows_colon();
    if is_inside && word.is_stop_word(alloc)? {
        push_lower(alloc, cased, word.letters)
    } else {
        push_capitalized(cased, word)
    }
}

/// Appends letters in title case. If none is small, they stay.
pub(crate) fn push_title(
    alloc: Global,
    cased: &mut Vec<Letter>,
    letters: &[Letter],
) -> Result<(), Memory> {
    let mut rest = letters;
    let mut is_first = true;
    if letters.iter().any(|it| is_small(*it)) {
        while let Some(word) = first_word(rest) {
            cased.extend_from_slice(word.before)?;
            push_title_word(alloc, cased, word, is_first)?;
            rest = word.after;
            is_first = false;
        }
    }
    cased.extend_from_slice(rest)?;
    Ok(())
}
