//! The terms that a locale may translate (CSL 1.0.2, Terms).
//! Definitions: specs/Taxonomy.antt.

ghost use Rattle.std.specs.Prelude.{◌≡◌};
ghost use Rattle.csl_elements.specs.Taxonomy.{term_of};
ghost use Rattle.csl_elements.specs.declared.term.Term.TheVariants as terms;

use crate::taxonomy::{Locator, NameVariable, NumberOrPageVariable, NumberVariable, PageVariable};
use csl_common::Season;

mod term_names;

/// A term.
#[derive(Clone, Copy, Debug, PartialEq, Eq, PartialOrd, Ord, Hash)]
pub enum Term {
    /// The term for a name variable, such as `editor`.
    Name(NameVariable),
    /// The term for a number variable, such as `volume`.
    Number(NumberVariable),
    /// The term for a page variable.
    Page(PageVariable),
    /// The term for a kind of locator, such as `paragraph`.
    Locator(Locator),
    /// Any other term.
    Other(OtherTerm),
}

impl From<NameVariable> for Term {
    ghost from_gives = { λ variable result. result ≡ terms.Name variable };

    fn from(variable: NameVariable) -> Term {
        Term::Name(variable)
    }
}

impl From<NumberVariable> for Term {
    ghost from_gives = { λ variable result. result ≡ terms.Number variable };

    fn from(variable: NumberVariable) -> Term {
        Term::Number(variable)
    }
}

impl From<PageVariable> for Term {
    ghost from_gives = { λ variable result. result ≡ terms.Page variable };

    fn from(variable: PageVariable) -> Term {
        Term::Page(variable)
    }
}

impl From<NumberOrPageVariable> for Term {
    ghost from_gives = { λ variable result. result ≡ term_of variable };

    fn from(variable: NumberOrPageVariable) -> Term {
        match variable {
            NumberOrPageVariable::Number(number) => Term::Number(number),
            NumberOrPageVariable::Page(page) => Term::Page(page),
        }
    }
}

impl From<OtherTerm> for Term {
    ghost from_gives = { λ term result. result ≡ terms.Other term };

    fn from(term: OtherTerm) -> Term {
        Term::Other(term)
    }
}

/// A term that names no variable.
#[derive(Clone, Copy, Debug, PartialEq, Eq, PartialOrd, Ord, Hash)]
pub enum OtherTerm {
    And,
    EtAl,
    /// The era after the years 1 to 999.
    Ad,
    /// The era after the years before year 1.
    Bc,
    PageRangeDelimiter,
    OpenQuote,
    CloseQuote,
    OpenInnerQuote,
    CloseInnerQuote,
    /// The month of this number, from 0 for January to 11 for December. No month has a higher
    /// number.
    Month(u8),
    Season(Season),
    Accessed,
    AndOthers,
    Anonymous,
    At,
    AvailableAt,
    By,
    Circa,
    Cited,
    Forthcoming,
    From,
    Ibid,
    In,
    InPress,
    Internet,
    Interview,
    Letter,
    NoDate,
    Online,
    PresentedAt,
    Reference,
    Retrieved,
    Scale,
    Version,
}

/// The form of a term (CSL 1.0.2, Terms: form).
#[derive(Clone, Copy, Debug, Default, PartialEq, Eq, PartialOrd, Ord, Hash)]
pub enum TermForm {
    #[default]
    Long,
    Short,
    Verb,
    VerbShort,
    Symbol,
}
