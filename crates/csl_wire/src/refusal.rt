//! Why a value is refused, and where.
//! Definitions: specs/Refusals.antt.

ghost use Rattle.std.specs.Prelude.{◌≡◌, ◌++◌, IfOk, IfErr, Ok, Err, string_bytes};
ghost use Rattle.csl_wire.specs.Refusals.{code_name, pointer_of, step_text, IsFurtherOut};
ghost use Rattle.csl_wire.specs.declared.refusal.WireError.{WireError};

use csl_common::Memory;
use std::alloc::{AllocError, AllocFailed, Global};
use std::error::Error;
use std::fmt;

/// A step from a value to one inside it.
#[derive(Clone, Copy, Debug, PartialEq, Eq)]
pub enum Step {
    /// To the member of an object. Its name has no `~` and no `/`, which a JSON Pointer escapes.
    Member(&'static str),
    /// To the item of a list, from 0.
    Item(usize),
}

impl Step {
    /// Appends the step to a JSON Pointer.
    fn write_to(self, alloc: Global, pointer: &mut String) -> Result<(), AllocError>
        ensures { IfOk result (λ _. string_bytes pointer.new
            ≡ string_bytes pointer.old ++ step_text self) }
    {
        pointer.push_str("/")?;
        match self {
            Step::Member(name) => pointer.push_str(name)?,
            Step::Item(place) => {
                let place = format!(in alloc; "{place}")?;
                pointer.push_str(place.as_str())?;
            }
        }
        Ok(())
    }
}

/// The kind of a refusal. No others come.
#[derive(Clone, Copy, Debug, PartialEq, Eq, PartialOrd, Ord, Hash)]
pub enum Code {
    /// The text is no JSON, or JSON of more than 127 levels.
    NotJson,
    /// A value has another type than the one that goes there.
    WrongType,
    /// An object has a member that is not known there.
    UnknownMember,
    /// An object lacks a member that it must have.
    MissingMember,
    /// A word is none of the names that may stand there.
    UnknownName,
    /// A number is none from 0 to 4294967295.
    OutOfRange,
    /// A text is longer than [`Limits`](crate::Limits) allow.
    TooLong,
    /// A text has a character from U+FDD0 to U+FDEF, which are for a program's own use.
    ReservedCharacter,
    /// Nodes stand too deep in one another.
    TooDeep,
    /// A macro leads back to itself.
    CyclicMacro,
    /// The library does not have this part of CSL.
    Unsupported,
    /// A request, what it renders, its reply or a style is larger than a session allows.
    TooLarge,
    /// What is kept would be larger than a session allows.
    Full,
}

impl Code {
    /// Its name in a reply, such as `unknown-name`.
    pub fn name(self) -> &'static str
        ensures { result.now ≡ code_name self }
    {
        match self {
            Code::NotJson => "not-json",
            Code::WrongType => "wrong-type",
            Code::UnknownMember => "unknown-member",
            Code::MissingMember => "missing-member",
            Code::UnknownName => "unknown-name",
            Code::OutOfRange => "out-of-range",
            Code::TooLong => "too-long",
            Code::ReservedCharacter => "reserved-character",
            Code::TooDeep => "too-deep",
            Code::CyclicMacro => "cyclic-macro",
            Code::Unsupported => "unsupported",
            Code::TooLarge => "too-large",
            Code::Full => "full",
        }
    }
}

/// What the words of a refusal name.
#[derive(Debug, Drop)]
enum Detail {
    /// Nothing: the reason says all.
    Plain,
    /// A word of the value.
    Word(String),
    /// A word of the value, and the name that is nearest to it.
    Near { word: String, nearest: String },
    /// A place in a text.
    Place { line: usize, column: usize },
}

/// Why a value is refused, and where. Its text is the reason, in words.
#[derive(Debug, Drop)]
pub struct Refusal {
    code: Code,
    reason: &'static str,
    detail: Detail,
    /// The steps to the value that is refused, the last one first.
    steps: Vec<Step>,
}

impl Refusal {
    /// The kind of the refusal.
    pub fn code(&self) -> Code {
        self.code
    }

    /// The place of the value that is refused, as a JSON Pointer (RFC 6901), such as
    /// `/macros/3/children/0/text/variable`. For a member that is not known, or that is missing, it
    /// is the place of the object.
    #[tactic(auto, using(crate::proofs::Lists::steps_text_from))]
    pub fn pointer(&self, alloc: Global) -> Result<String, Memory>
        ensures { IfOk result (λ pointer. string_bytes pointer ≡ pointer_of self.now) }
    {
        let mut pointer = String::new(alloc);
        let mut left = self.steps.len();
        while left > 0 {
            left -= 1;
            self.steps[left].write_to(alloc, &mut pointer)?;
        }
        Ok(pointer)
    }
}

impl fmt::Display for Refusal {
    fn fmt<W: fmt::Write>(&self, f: &mut fmt::Formatter<W>) -> fmt::Result {
        f.write_str(self.reason)?;
        match &self.detail {
            Detail::Plain => Ok(()),
            Detail::Word(word) => write!(f, ": \"{word}\""),
            Detail::Near { word, nearest } => {
                write!(f, ": \"{word}\" (the nearest is \"{nearest}\")")
            }
            Detail::Place { line, column } => write!(f, " at line {line}, column {column}"),
        }
    }
}

/// Why nothing was read.
#[derive(Debug, Drop)]
pub enum WireError {
    /// Out of memory.
    Memory,
    /// The value is refused.
    Refused(Refusal),
}

impl fmt::Display for WireError {
    fn fmt<W: fmt::Write>(&self, f: &mut fmt::Formatter<W>) -> fmt::Result {
        match self {
            WireError::Memory => f.write_str("out of memory"),
            WireError::Refused(refusal) => write!(f, "{refusal}"),
        }
    }
}

impl Error for WireError {}

impl From<Memory> for WireError {
    fn from(_error: Memory) -> WireError {
        WireError::Memory
    }
}

impl From<AllocError> for WireError {
    fn from(_error: AllocError) -> WireError {
        WireError::Memory
    }
}

impl<T: Drop> From<AllocFailed<T>> for WireError {
    fn from(_error: AllocFailed<T>) -> WireError {
        WireError::Memory
    }
}

impl WireError {
    /// The refusal of a value with this detail.
    fn with(alloc: Global, code: Code, reason: &'static str, detail: Detail) -> WireError {
        WireError::Refused(Refusal {
            code,
            reason,
            detail,
            steps: Vec::new(alloc),
        })
    }

    /// The refusal of a value.
    pub fn of(alloc: Global, code: Code, reason: &'static str) -> WireError {
        WireError::with(alloc, code, reason, Detail::Plain)
    }

    /// The refusal of a value for a word, and perhaps the name that is nearest to it. A long word
    /// is not named.
    pub fn of_word(
        alloc: Global,
        code: Code,
        reason: &'static str,
        word: &str,
        nearest: Option<String>,
    ) -> WireError {
        if word.len() > 200 {
            return WireError::of(alloc, code, reason);
        }
        let Ok(word) = String::from_str(alloc, word) else {
            return WireError::Memory;
        };
        let detail = match nearest {
            Some(nearest) => Detail::Near { word, nearest },
            None => Detail::Word(word),
        };
        WireError::with(alloc, code, reason, detail)
    }

    /// The refusal of a text that is no JSON from this place on.
    pub(crate) fn of_text(alloc: Global, line: usize, column: usize) -> WireError {
        WireError::with(
            alloc,
            Code::NotJson,
            "no JSON of at most 127 levels",
            Detail::Place { line, column },
        )
    }

    /// The same error, seen from one step further out.
    pub fn after(self, step: Step) -> WireError
        ensures { IsFurtherOut step self result }
    {
        match self {
            WireError::Memory => WireError::Memory,
            WireError::Refused(refusal) => {
                let Refusal {
                    code,
                    reason,
                    detail,
                    mut steps,
                } = refusal;
                match steps.push(step) {
                    Ok(()) => WireError::Refused(Refusal {
                        code,
                        reason,
                        detail,
                        steps,
                    }),
                    Err(_) => WireError::Memory,
                }
            }
        }
    }
}

/// The result of reading what this step leads to: an error is seen from one step further out.
pub fn within<T: Drop>(step: Step, read: Result<T, WireError>) -> Result<T, WireError>
    ensures ok { IfOk result (λ v. read ≡ Ok v) }
    ensures err { IfErr result (λ f. (e : WireError) × (read ≡ Err e) × IsFurtherOut step e f) }
{
    match read {
        Ok(value) => Ok(value),
        Err(error) => Err(error.after(step)),
    }
}
