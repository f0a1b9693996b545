//! The values of the library that have names in CSL.
//! Definitions: specs/Named.antt.

ghost use Rattle.csl_wire.specs.Named.{date_variable_has, kind_has, language_has, locator_has, name_variable_has, number_or_page_has, term_has, variable_has};

use crate::names::{
    DATE_VARIABLES, KINDS, LANGUAGES, LOCATORS, NAME_VARIABLES, NUMBER_VARIABLES, OTHER_TERMS,
    PAGE_VARIABLES, STANDARD_VARIABLES,
};
use crate::nearest::unknown_among;
use crate::refusal::{Code, WireError};
use csl_elements::{
    DateVariable, Kind, Locator, NameVariable, NumberOrPageVariable, NumberVariable, PageVariable,
    Term, Variable,
};
use csl_languages::Language;
use std::alloc::Global;

/// A value that a name stands for.
pub trait Named: Copy + Drop {
    ghost use Rattle.std.specs.Prelude.{ℕ, List, IfSome};

    /// Whether a name is the value's.
    ghost is_named: { List ℕ → Self → Type 0 };

    /// The value of a name.
    fn named(name: &str) -> Option<Self>
        ensures { IfSome result (is_named name.now) };

    /// The refusal of a word that is no name.
    fn refusal(alloc: Global, word: &str) -> WireError;
}

impl Named for Variable {
    ghost is_named = { variable_has };

    fn named(name: &str) -> Option<Variable> {
        Variable::from_name(name)
    }

    fn refusal(alloc: Global, word: &str) -> WireError {
        let names: [&[&str]; 5] = [
            &STANDARD_VARIABLES,
            &NUMBER_VARIABLES,
            &PAGE_VARIABLES,
            &DATE_VARIABLES,
            &NAME_VARIABLES,
        ];
        unknown_among(
            alloc,
            Code::UnknownName,
            "no variable has this name",
            &names,
            word,
        )
    }
}

impl Named for NumberOrPageVariable {
    ghost is_named = { number_or_page_has };

    fn named(name: &str) -> Option<NumberOrPageVariable> {
        match NumberVariable::from_name(name) {
            Some(variable) => Some(NumberOrPageVariable::Number(variable)),
            None => PageVariable::from_name(name).map(NumberOrPageVariable::Page),
        }
    }

    fn refusal(alloc: Global, word: &str) -> WireError {
        let names: [&[&str]; 2] = [&NUMBER_VARIABLES, &PAGE_VARIABLES];
        unknown_among(
            alloc,
            Code::UnknownName,
            "no number variable has this name",
            &names,
            word,
        )
    }
}

impl Named for NameVariable {
    ghost is_named = { name_variable_has };

    fn named(name: &str) -> Option<NameVariable> {
        NameVariable::from_name(name)
    }

    fn refusal(alloc: Global, word: &str) -> WireError {
        let names: [&[&str]; 1] = [&NAME_VARIABLES];
        unknown_among(
            alloc,
            Code::UnknownName,
            "no name variable has this name",
            &names,
            word,
        )
    }
}

impl Named for DateVariable {
    ghost is_named = { date_variable_has };

    fn named(name: &str) -> Option<DateVariable> {
        DateVariable::from_name(name)
    }

    fn refusal(alloc: Global, word: &str) -> WireError {
        let names: [&[&str]; 1] = [&DATE_VARIABLES];
        unknown_among(
            alloc,
            Code::UnknownName,
            "no date variable has this name",
            &names,
            word,
        )
    }
}

impl Named for Kind {
    ghost is_named = { kind_has };

    fn named(name: &str) -> Option<Kind> {
        Kind::from_name(name)
    }

    fn refusal(alloc: Global, word: &str) -> WireError {
        let names: [&[&str]; 1] = [&KINDS];
        unknown_among(
            alloc,
            Code::UnknownName,
            "no type has this name",
            &names,
            word,
        )
    }
}

impl Named for Locator {
    ghost is_named = { locator_has };

    fn named(name: &str) -> Option<Locator> {
        Locator::from_name(name)
    }

    fn refusal(alloc: Global, word: &str) -> WireError {
        let names: [&[&str]; 1] = [&LOCATORS];
        unknown_among(
            alloc,
            Code::UnknownName,
            "no locator has this name",
            &names,
            word,
        )
    }
}

/// `locator:page` is the term of a locator that has the name of a variable too.
impl Named for Term {
    ghost is_named = { term_has };

    fn named(name: &str) -> Option<Term> {
        match name.strip_prefix("locator:") {
            Some(locator) => Locator::from_name(locator).map(Term::Locator),
            None => Term::from_name(name),
        }
    }

    fn refusal(alloc: Global, word: &str) -> WireError {
        let names: [&[&str]; 5] = [
            &NAME_VARIABLES,
            &NUMBER_VARIABLES,
            &PAGE_VARIABLES,
            &LOCATORS,
            &OTHER_TERMS,
        ];
        unknown_among(
            alloc,
            Code::UnknownName,
            "no term has this name",
            &names,
            word,
        )
    }
}

impl Named for Language {
    ghost is_named = { language_has };

    fn named(name: &str) -> Option<Language> {
        Language::from_tag(name)
    }

    fn refusal(alloc: Global, word: &str) -> WireError {
        let names: [&[&str]; 1] = [&LANGUAGES];
        unknown_among(
            alloc,
            Code::UnknownName,
            "no language has this tag",
            &names,
            word,
        )
    }
}
