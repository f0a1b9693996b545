//! Marks around a text whose case a style sets (CSL 1.0.2, Text-case). They are noncharacters,
//! which Unicode keeps for a program's own use. A reader of styles ends the prefix of a node with
//! one, and begins its suffix with another.
//! Definitions: specs/CaseMarks.antt.

ghost use Rattle.std.specs.Prelude.{◌≡◌, false, IfOk, string_bytes};
ghost use Rattle.csl_finish.specs.CaseMarks as spec;

use lit_model::Memory;
use std::alloc::Global;

/// The case of a text (CSL 1.0.2, Text-case). A *lowercase* word has no capital.
#[derive(Clone, Copy, Debug, PartialEq, Eq)]
pub enum TextCase {
    /// Small letters.
    Lowercase,
    /// Capitals.
    Uppercase,
    /// The first word begins with a capital if it is lowercase.
    CapitalizeFirst,
    /// Each lowercase word begins with a capital.
    CapitalizeAll,
    /// Title case, for English alone: each lowercase word begins with a capital. Stop words are in
    /// small letters, but for the first and the last word and those that follow a colon. A text all
    /// in capitals keeps them.
    TitleCase,
    /// As `CapitalizeFirst`. A text all in capitals keeps them.
    SentenceCase,
    /// The letters stay as they are, in whatever case the text around them is (`nocase` in
    /// CSL-JSON).
    NoCase,
}

impl TextCase {
    /// The mark before a text in this case.
    pub fn start_mark(self) -> char
        ensures { result ≡ spec.start_mark self }
    {
        match self {
            TextCase::Lowercase => '\u{fdd0}',
            TextCase::Uppercase => '\u{fdd2}',
            TextCase::CapitalizeFirst => '\u{fdd4}',
            TextCase::CapitalizeAll => '\u{fdd6}',
            TextCase::TitleCase => '\u{fdd8}',
            TextCase::SentenceCase => '\u{fdda}',
            TextCase::NoCase => '\u{fddc}',
        }
    }

    /// The mark after a text in this case.
    pub fn end_mark(self) -> char
        ensures { result ≡ spec.end_mark self }
    {
        match self {
            TextCase::Lowercase => '\u{fdd1}',
            TextCase::Uppercase => '\u{fdd3}',
            TextCase::CapitalizeFirst => '\u{fdd5}',
            TextCase::CapitalizeAll => '\u{fdd7}',
            TextCase::TitleCase => '\u{fdd9}',
            TextCase::SentenceCase => '\u{fddb}',
            TextCase::NoCase => '\u{fddd}',
        }
    }
}

/// What a mark means.
pub(crate) enum CaseMark {
    /// A text in a case begins.
    Start(TextCase),
    /// It ends.
    End(TextCase),
}

/// The mark that a character is, if it has a meaning.
pub(crate) fn mark_of(c: char) -> Option<CaseMark>
    ensures { result ≡ spec.mark_of c }
{
    let mark = match c {
        '\u{fdd0}' => CaseMark::Start(TextCase::Lowercase),
        '\u{fdd1}' => CaseMark::End(TextCase::Lowercase),
        '\u{fdd2}' => CaseMark::Start(TextCase::Uppercase),
        '\u{fdd3}' => CaseMark::End(TextCase::Uppercase),
        '\u{fdd4}' => CaseMark::Start(TextCase::CapitalizeFirst),
        '\u{fdd5}' => CaseMark::End(TextCase::CapitalizeFirst),
        '\u{fdd6}' => CaseMark::Start(TextCase::CapitalizeAll),
        '\u{fdd7}' => CaseMark::End(TextCase::CapitalizeAll),
        '\u{fdd8}' => CaseMark::Start(TextCase::TitleCase),
        '\u{fdd9}' => CaseMark::End(TextCase::TitleCase),
        '\u{fdda}' => CaseMark::Start(TextCase::SentenceCase),
        '\u{fddb}' => CaseMark::End(TextCase::SentenceCase),
        '\u{fddc}' => CaseMark::Start(TextCase::NoCase),
        '\u{fddd}' => CaseMark::End(TextCase::NoCase),
        _ => return None,
    };
    Some(mark)
}

/// Whether a character is a mark: one of U+FDD0 to U+FDEF. Those from U+FDDE on have no meaning.
pub fn is_case_mark(c: char) -> bool
    ensures { result ≡ spec.is_case_mark c }
{
    '\u{fdd0}' <= c && c <= '\u{fdef}'
}

/// Whether a text has a mark.
pub fn has_case_mark(text: &str) -> bool
    ensures { result ≡ spec.has_mark text.now }
{
    text.chars().any(is_case_mark)
}

/// The text without marks, for a text to sort by or to compare.
///
/// # Errors
/// [`Memory`]: out of memory.
pub fn without_case_marks(alloc: Global, text: &str) -> Result<String, Memory>
    ensures value { IfOk result (λ plain. string_bytes plain ≡ spec.without_marks text.now) }
    ensures unmarked { IfOk result (λ plain. spec.has_mark (string_bytes plain) ≡ false) }
{
    if !has_case_mark(text) {
        let copy = String::from_str(alloc, text)?;
        return Ok(copy);
    }
    let plain = text
        .chars()
        .filter(|it| !is_case_mark(*it))
        .collect::<String>(alloc)?;
    Ok(plain)
}
