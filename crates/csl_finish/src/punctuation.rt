//! Marks in a row, as citeproc-js merges them.

ghost use Rattle.std.specs.Prelude.{◌≡◌, ◌++◌, [], ◌∷◌, IfOk, OnOk};
ghost use Rattle.csl_finish.specs.Letters.{words, word_of};
ghost use Rattle.csl_finish.specs.Punctuation.{KeepsWords};

use crate::letters::{Letter, Role};
use lit_model::Memory;
use std::alloc::Global;

/// Which of two characters in a row stay.
enum Kept {
    Both,
    First,
    Second,
}

/// Which of a character and the one right before it stay.
#[tactic(auto, using(crate::proofs::Marks::silent_marks))]
fn kept_of(before: Letter, letter: Letter) -> Kept
    ensures { KeepsWords result before letter }
{
    match (before.value, letter.value) {
        ('?' | '!', ',' | '.') if letter.role == Role::Moved => Kept::First,
        ('.' | '?' | '!' | ':' | ';', '.')
        | ('?' | '!' | ';', ':')
        | (',', ',')
        | (';', ';')
        | (':', ':')
        | (' ', ' ') => Kept::First,
        (' ', ',' | '.') | (':' | ';', '!' | '?') if before.text.is_some() => Kept::Second,
        _ => Kept::Both,
    }
}

/// Whether the characters from an index on are these, all of one text.
fn is_at(letters: &[Letter], index: usize, wanted: &str, text: Option<usize>) -> bool {
    wanted.chars().enumerate().all(|(far, value)| match letters.get(index.saturating_add(far)) {
        Some(letter) => letter.value == value && letter.text == text,
        None => false,
    })
}

/// Whether the period at the index is one of three in one text. A fourth one is not.
fn is_of_ellipsis(letters: &[Letter], index: usize, text: Option<usize>) -> bool {
    let is_part = |before: usize, ellipsis: &str| {
        index >= before && is_at(letters, index - before, ellipsis, text)
    };
    let is_close = is_part(0, "...") || is_part(1, "...") || is_part(2, "...");
    let is_spaced = is_part(0, ". . .") || is_part(2, ". . .") || is_part(4, ". . .");
    is_close && !is_part(3, "....") || is_spaced
}

/// Whether the period at the index is inside a number, a name or an address.
fn is_inside(letters: &[Letter], index: usize, text: Option<usize>) -> bool {
    match letters.get(index.saturating_add(1)) {
        Some(after) => {
            after.text == text && (after.value == '/' || after.value.is_alphanumeric())
        }
        None => false,
    }
}

/// Whether the character at the index stays, whatever is before it.
fn is_fixed(letters: &[Letter], index: usize, letter: Letter) -> bool {
    letter.text.is_none()
        || letter.value == '.'
            && (is_inside(letters, index, letter.text)
                || is_of_ellipsis(letters, index, letter.text))
}

/// Appends a letter. It or those right before it are left out, where they do not stay beside each
/// other.
#[tactic(auto, using(crate::proofs::Marks::pushes))]
fn push_merged(stay: &mut Vec<Letter>, letter: Letter) -> Result<(), Memory>
    ensures { OnOk result (words stay.new.items ≡ words stay.old.items ++ word_of letter) }
{
    while let Some(before) = stay.last() {
        match kept_of(*before, letter) {
            Kept::Both => break,
            Kept::First => return Ok(()),
            Kept::Second => {
                stay.pop();
            }
        }
    }
    stay.push(letter)?;
    Ok(())
}

/// The letters without those that do not stay beside their neighbours.
#[tactic(auto, using(crate::proofs::Marks::pushes))]
pub(crate) fn merged_letters(alloc: Global, letters: &[Letter]) -> Result<Vec<Letter>, Memory>
    ensures { IfOk result (λ merged. words merged.items ≡ words letters.now) }
{
    let mut stay = Vec::new(alloc);
    for (index, letter) in letters.iter().enumerate() {
        if is_fixed(letters, index, *letter) {
            stay.push(*letter)?;
        } else {
            push_merged(&mut stay, *letter)?;
        }
    }
    Ok(stay)
}
