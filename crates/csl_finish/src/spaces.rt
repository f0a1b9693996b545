//! The narrow spaces of French punctuation.
//! Definitions: specs/Letters.antt.

ghost use Rattle.std.specs.Prelude.{◌≡◌, IfOk};
ghost use Rattle.csl_finish.specs.Letters.{word_of, words};

use crate::letters::Letter;
use lit_model::Memory;
use std::alloc::Global;

/// The space before a mark in French: a narrow one, at which no line breaks.
const NARROW_SPACE: char = '\u{202f}';

/// The character at an index, or a space after the last.
fn char_at(letters: &[Letter], index: usize) -> char {
    match letters.get(index) {
        Some(letter) => letter.value,
        None => ' ',
    }
}

/// The letter, or a narrow space for a space beside a mark.
#[tactic(auto, using(crate::proofs::Marks::silent_marks))]
fn narrowed(letter: Letter, is_beside_mark: bool) -> Letter
    ensures { word_of result ≡ word_of letter }
{
    if letter.value == ' ' && is_beside_mark {
        return Letter {
            value: NARROW_SPACE,
            ..letter
        };
    }
    letter
}

/// The letters with a narrow space for each space before a French mark, or after the mark that
/// opens a quote.
#[tactic(auto, using(crate::proofs::Marks::pushes))]
pub(crate) fn with_narrow_spaces(alloc: Global, letters: &[Letter]) -> Result<Vec<Letter>, Memory>
    ensures { IfOk result (λ narrow. words narrow.items ≡ words letters.now) }
{
    let mut narrow = Vec::new(alloc);
    let mut before = ' ';
    for (index, letter) in letters.iter().enumerate() {
        let after = char_at(letters, index + 1);
        let is_beside_mark = before == '«' || matches!(after, ';' | ':' | '!' | '?' | '»');
        before = letter.value;
        narrow.push(narrowed(*letter, is_beside_mark))?;
    }
    Ok(narrow)
}
