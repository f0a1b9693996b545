//! The numbers of citations and of notes.

ghost use Rattle.std.specs.Prelude.{◌≡◌, ◌↔◌, ◌≤◌, IsSome, IfSome};

/// The index of a cited entry in the bibliography, from 0 (CSL 1.0.2, Number Variables:
/// citation-number).
#[derive(Clone, Copy, Debug, PartialEq, Eq, PartialOrd, Ord, Hash)]
pub struct CitationNumber {
    number: u32,
    pub ghost range: { number ≤ 2147483646 },
}

impl CitationNumber {
    ghost use Rattle.csl_entry.specs.Numbers.{IsCitationNumber, citation_number};

    /// Returns the citation number, or `None` if `number` is above 2147483646. The printed number
    /// is one more, and fits an `i32`.
    pub fn new(number: u32) -> Option<CitationNumber>
        ensures range { IsSome result ↔ IsCitationNumber number }
        ensures value { IfSome result (λ c. citation_number c ≡ number) }
    {
        if number > 2147483646 {
            return None;
        }
        Some(CitationNumber { number })
    }

    /// The number itself, which counts from 0. The printed number is one more.
    pub fn get(self) -> u32
        ensures value { result ≡ citation_number self }
        ensures range { IsCitationNumber result }
    {
        self.number
    }
}

/// The number of a note (CSL 1.0.2, Number Variables: first-reference-note-number).
#[derive(Clone, Copy, Debug, PartialEq, Eq, PartialOrd, Ord, Hash)]
pub struct NoteNumber {
    number: u32,
    pub ghost range: { number ≤ 2147483647 },
}

impl NoteNumber {
    ghost use Rattle.csl_entry.specs.Numbers.{IsNoteNumber, note_number};

    /// Returns the note number, or `None` if `number` is above 2147483647. It fits an `i32`.
    pub fn new(number: u32) -> Option<NoteNumber>
        ensures range { IsSome result ↔ IsNoteNumber number }
        ensures value { IfSome result (λ n. note_number n ≡ number) }
    {
        if number > 2147483647 {
            return None;
        }
        Some(NoteNumber { number })
    }

    /// The number itself.
    pub fn get(self) -> u32
        ensures value { result ≡ note_number self }
        ensures range { IsNoteNumber result }
    {
        self.number
    }
}
