//! The letters of a year suffix.

ghost use Rattle.std.specs.Prelude.{◌≡◌, ◌↔◌, ◌<◌, ℕ, List, IfOk, string_bytes};
ghost use Rattle.csl_entry.specs.Letters.{IsWord, StandsBefore, word_index, letters};

use lit_model::Memory;
use std::alloc::Global;

/// Returns word number `n` of the words over a to z, ordered by length and then by alphabet: `a` is
/// number 0, `z` 25, `aa` 26 and `aaa` 702 (CSL 1.0.2, Disambiguation:
/// disambiguate-add-year-suffix).
pub fn letter(alloc: Global, n: u16) -> Result<String, Memory>
    ensures letters { IfOk result (λ s. string_bytes s ≡ letters n) }
    ensures word { IfOk result (λ s. IsWord (string_bytes s)) }
    ensures place { IfOk result (λ s. word_index (string_bytes s) ≡ n) }
    ensures order { IfOk result (λ s. (w : List ℕ) → IsWord w →
        StandsBefore w (string_bytes s) ↔ (word_index w < n)) }
    ensures only { IfOk result (λ s. (w : List ℕ) → IsWord w →
        word_index w ≡ n → w ≡ string_bytes s) }
{
    let word = word_at(alloc, n)?;
    Ok(word)
}

/// Returns word number `n`. The letters before its last one, if any, are word number `n / 26 - 1`.
fn word_at(alloc: Global, n: u16) -> Result<String, Memory>
    ensures word { IfOk result (λ s. IsWord (string_bytes s)) }
    ensures place { IfOk result (λ s. word_index (string_bytes s) ≡ n) }
{
    let mut word = String::new(alloc);
    let mut rest = n;
    loop {
        let last = b'a' + (rest % 26) as u8;
        word.insert(0, char::from(last))?;
        if rest < 26 {
            return Ok(word);
        }
        rest = rest / 26 - 1;
    }
}
