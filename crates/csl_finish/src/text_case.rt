//! The case that a style sets for texts (CSL 1.0.2, Text-case).
//! Definitions: specs/CaseMarks.antt.

ghost use Rattle.std.specs.Prelude.{◌≡◌, false, IfOk, OnErr, OnOk};
ghost use Rattle.csl_tree.specs.Tokens.{tokens};
ghost use Rattle.csl_finish.specs.CaseMarks as spec;

use crate::case_marks::{CaseMark, TextCase, mark_of};
use crate::letter_case::{
    push_all_capitalized, push_first_capitalized, push_fixed, push_lower, push_title, push_upper,
};
use crate::letters::{Letter, read_letters, write_letters};
use crate::unmarked::{has_mark, with_unmarked_texts};
use csl_tree::ElemChildren;
use lit_model::Memory;
use std::alloc::Global;

/// A text in a case, of which the end is still to come.
#[derive(Clone, Copy)]
struct OpenText {
    case: TextCase,
    /// The number of letters before it.
    start: usize,
}

/// A text inside of this many others has no case of its own.
const MOST_OPEN: usize = 16;

/// Appends letters in a case.
fn push_in_case(
    alloc: Global,
    cased: &mut Vec<Letter>,
    letters: &[Letter],
    case: TextCase,
    is_english: bool,
) -> Result<(), Memory> {
    match case {
        TextCase::Lowercase => push_lower(alloc, cased, letters),
        TextCase::Uppercase => push_upper(cased, letters),
        TextCase::CapitalizeFirst | TextCase::SentenceCase => {
            push_first_capitalized(cased, letters)
        }
        TextCase::CapitalizeAll => push_all_capitalized(cased, letters),
        TextCase::TitleCase if is_english => push_title(alloc, cased, letters),
        TextCase::TitleCase => Ok(cased.extend_from_slice(letters)?),
        TextCase::NoCase => push_fixed(cased, letters),
    }
}

/// The start of the innermost open text in a case. It is open no longer, and neither are those
/// inside of it.
fn ended(open: &mut Vec<OpenText>, case: TextCase) -> Option<usize> {
    let index = open.iter().rposition(|it| it.case == case)?;
    let start = open.get(index)?.start;
    open.truncate(index);
    Some(start)
}

/// Puts the letters from a start on into a case.
fn set_case(
    alloc: Global,
    cased: &mut Vec<Letter>,
    start: usize,
    case: TextCase,
    is_english: bool,
) -> Result<(), Memory> {
    let inside = cased.split_off(start.min(cased.len()))?;
    push_in_case(alloc, cased, &inside, case, is_english)
}

/// The meaning of a letter, if it is a mark of a text.
fn meaning(letter: Letter) -> Option<CaseMark> {
    letter.text?;
    mark_of(letter.value)
}

/// The letters in the cases that the marks among them set. A mark without its partner sets none.
fn cased_letters(
    alloc: Global,
    letters: &[Letter],
    is_english: bool,
) -> Result<Vec<Letter>, Memory> {
    let mut cased = Vec::new(alloc);
    let mut open = Vec::new(alloc);
    for letter in letters {
        match meaning(*letter) {
            Some(CaseMark::Start(case)) if open.len() < MOST_OPEN => open.push(OpenText {
                case,
                start: cased.len(),
            })?,
            Some(CaseMark::Start(_)) => {}
            Some(CaseMark::End(case)) => {
                if let Some(start) = ended(&mut open, case) {
                    set_case(alloc, &mut cased, start, case, is_english)?;
                }
            }
            None => cased.push(*letter)?,
        }
    }
    Ok(cased)
}

/// Puts the texts between marks into their cases, and removes the marks.
///
/// A text may be in several leaves of the content, and in one part of a leaf. Of texts in one
/// another the inner ones are put into their cases first: an `in` in lowercase that begins a text
/// in `capitalize-first` is `In`. The words of a text are letters and digits in a row, with the
/// accents over them, and an apostrophe or a period between two of them.
///
/// `is_english` is whether the text is English (CSL 1.0.2, Text-case: Non-English Items), and
/// decides on title case alone. A title without a small letter stays, as `PLOS` does, where CSL has
/// `Plos`. Letters change as Unicode has it for languages without rules of their own, so `i`
/// becomes `I` in Turkish too.
///
/// Links, markup and places for texts of cites keep their case. A text that is left empty is
/// removed. A mark without its partner sets no case. A text inside of sixteen others has none.
///
/// # Errors
/// [`Memory`]: out of memory. The content is unchanged.
pub fn apply_text_case(
    alloc: Global,
    content: &mut ElemChildren,
    is_english: bool,
) -> Result<(), Memory>
    // No mark is left.
    ensures unmarked { OnOk result (spec.have_mark (tokens content.new) ≡ false) }
    // A content without marks stays as it is.
    ensures same { spec.have_mark (tokens content.old) ≡ false → content.new ≡ content.old }
    // What is no text stays, without marks.
    ensures solids { OnOk result (spec.solids (tokens content.new)
        ≡ spec.unmarked_solids (tokens content.old)) }
    ensures err { OnErr result (content.new ≡ content.old) }
{
    if !has_mark(content) {
        return Ok(());
    }
    let mut letters = Vec::new(alloc);
    let mut texts = Vec::new(alloc);
    read_letters(alloc, content, &mut letters, &mut texts)?;
    let letters = cased_letters(alloc, &letters, is_english)?;
    write_letters(&letters, &mut texts)?;
    *content = with_unmarked_texts(alloc, content, &mut texts.into_iter())?;
    Ok(())
}
