//! Texts to sort by, in which case, accents and punctuation do not count.

ghost use Rattle.std.specs.Prelude.{◌≡◌, ◌++◌, encode_utf8_all, option_map, IfOk, OnOk, string_bytes};
ghost use Rattle.std.specs.Char.{is_ascii_digit};
ghost use Rattle.std.specs.List.{list_all};
ghost use Rattle.csl_finish.specs.Folding as spec;

use caseless::default_case_fold_str;
use lit_model::Memory;
use std::alloc::Global;
use unicode_normalization::to_nfkd;

/// The number of digits of a year in a sort key.
const YEAR_DIGITS: usize = 9;

/// Whether characters are digits.
fn are_digits(text: &[char]) -> bool
    ensures { result ≡ list_all is_ascii_digit text.now }
{
    text.iter().all(|it| it.is_ascii_digit())
}

/// Whether a text begins with the digits of a year.
fn begins_with_year(text: &[char]) -> bool
    ensures { result ≡ spec.begins_with_year text.now }
{
    match text.split_at_checked(YEAR_DIGITS) {
        Some((year, _)) => are_digits(year),
        None => false,
    }
}

/// The mark of the era whose keys begin with this letter.
fn era_mark(letter: char) -> Option<char>
    ensures { result ≡ spec.era_mark letter }
{
    match letter {
        'n' => Some('!'),
        'p' => Some('#'),
        _ => None,
    }
}

/// The mark of an era, if the letter begins the key of a year, where `after` follows. It comes
/// before all letters, as a year does.
fn era_of(letter: char, after: &[char]) -> Option<char>
    ensures { result ≡ spec.era_of letter after.now }
{
    if begins_with_year(after) {
        era_mark(letter)
    } else {
        None
    }
}

/// The letters that a Latin letter sorts as that Unicode does not decompose.
fn base_of(letter: char) -> Option<&'static str>
    ensures { option_map (λ base. base.now) result
        ≡ option_map encode_utf8_all (spec.base_of letter) }
{
    let base = match letter {
        'æ' => "ae",
        'ð' | 'đ' => "d",
        'ħ' => "h",
        'ı' => "i",
        'ł' => "l",
        'ŋ' => "n",
        'ø' => "o",
        'œ' => "oe",
        'þ' => "th",
        'ŧ' => "t",
        _ => return None,
    };
    Some(base)
}

/// Whether a character counts: a letter, a digit or a space.
fn counts(letter: char) -> bool
    ensures { result ≡ spec.counts letter }
{
    letter == ' ' || letter.is_alphanumeric()
}

/// Appends what a letter sorts as, where `after` follows.
fn push_folded(folded: &mut String, letter: char, after: &[char]) -> Result<(), Memory>
    ensures { OnOk result (string_bytes folded.new
        ≡ string_bytes folded.old ++ encode_utf8_all (spec.folded_char letter after.now)) }
{
    if let Some(era) = era_of(letter, after) {
        folded.push(era)?;
    } else if let Some(base) = base_of(letter) {
        folded.push_str(base)?;
    } else if counts(letter) {
        folded.push(letter)?;
    }
    Ok(())
}

/// What letters sort as.
fn folded_letters(alloc: Global, letters: &[char]) -> Result<String, Memory>
    ensures { IfOk result (λ folded. string_bytes folded
        ≡ encode_utf8_all (spec.folded_chars letters.now)) }
{
    let mut folded = String::new(alloc);
    for (index, letter) in letters.iter().enumerate() {
        push_folded(&mut folded, *letter, &letters[index + 1..])?;
    }
    Ok(folded)
}

/// A text to sort by, character for character. Case, accents and punctuation do not count:
///
/// - letters are small ones (full case folding, so `ß` is `ss`), without the accents that Unicode
///   decomposes (NFKD): `É` is `e`, `ñ` is `n`, `ё` is `е`, and `ﬁ` is `fi`;
/// - `æ` is `ae`, `œ` is `oe`, `þ` is `th`, `ð` and `đ` are `d`, `ħ` is `h`, `ı` is `i`, `ł` is
///   `l`, `ŋ` is `n`, `ø` is `o`, `ŧ` is `t`;
/// - of the rest letters, digits and spaces stay, and nothing else.
///
/// The letter before nine digits that begins the key of a year, as in `P000002015`, becomes `#`, or
/// `!` before year 0, so that a year comes before each word.
///
/// # Errors
/// [`Memory`]: out of memory.
pub fn fold(alloc: Global, text: &str) -> Result<String, Memory>
    ensures { IfOk result (λ folded. string_bytes folded ≡ spec.folded text.now) }
{
    let decomposed = to_nfkd(alloc, text)?;
    let small = default_case_fold_str(alloc, decomposed.as_str())?;
    let letters = small.chars().collect::<Vec<char>>(alloc)?;
    folded_letters(alloc, &letters)
}
