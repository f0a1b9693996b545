//! The names of terms (CSL 1.0.2, Appendix II: Terms).

ghost use Rattle.std.specs.Prelude.{◌≡◌, ◌↔◌, Some, option_map, slice_get};
ghost use Rattle.csl_elements.specs.TermNames as spec;

use crate::taxonomy::variable_names::NAME_VARIABLES;
use crate::taxonomy::{Locator, NameVariable, NumberVariable, PageVariable};
use crate::term::{OtherTerm, Term};
use csl_common::Season;

/// The other terms that have a name.
static OTHER_TERMS: [OtherTerm; 48] = each! {
    OtherTerm:
    And, EtAl, Ad, Bc, PageRangeDelimiter, OpenQuote, CloseQuote, OpenInnerQuote, CloseInnerQuote,
    Accessed, AndOthers, Anonymous, At, AvailableAt, By, Circa, Cited, Forthcoming, From, Ibid, In,
    InPress, Internet, Interview, Letter, NoDate, Online, PresentedAt, Reference, Retrieved, Scale,
    Version, Month(0), Month(1), Month(2), Month(3), Month(4), Month(5), Month(6), Month(7),
    Month(8), Month(9), Month(10), Month(11), Season(Season::Spring), Season(Season::Summer),
    Season(Season::Autumn), Season(Season::Winter),
};

/// The name of the term for a month, from 0 for January to 11 for December.
fn month_name(month: u8) -> Option<&'static str>
    ensures { option_map (λ t. t.now) result ≡ slice_get spec.months month }
{
    match month {
        0 => Some("month-01"),
        1 => Some("month-02"),
        2 => Some("month-03"),
        3 => Some("month-04"),
        4 => Some("month-05"),
        5 => Some("month-06"),
        6 => Some("month-07"),
        7 => Some("month-08"),
        8 => Some("month-09"),
        9 => Some("month-10"),
        10 => Some("month-11"),
        11 => Some("month-12"),
        _ => None,
    }
}

/// The name of the term for a season.
fn season_name(season: Season) -> &'static str
    ensures { result.now ≡ spec.season_name season }
{
    match season {
        Season::Spring => "season-01",
        Season::Summer => "season-02",
        Season::Autumn => "season-03",
        Season::Winter => "season-04",
    }
}

/// The name of a term in the spelling of CSL's locales: `editortranslator` for the variable
/// `editor-translator`.
fn term_spelling(name: &str) -> &str
    ensures { result.now ≡ spec.term_spelling name.now }
{
    if name == "editor-translator" {
        "editortranslator"
    } else {
        name
    }
}

/// The name of the term of a name variable.
fn role_name(variable: NameVariable) -> &'static str
    ensures { result.now ≡ spec.role_name variable }
{
    term_spelling(variable.name())
}

/// The name variable whose term has this name.
fn role_of_name(name: &str) -> Option<NameVariable>
    ensures { (variable : NameVariable) → (result ≡ Some variable)
        ↔ (name.now ≡ spec.role_name variable) }
{
    NAME_VARIABLES
        .iter()
        .find(|variable| role_name(**variable) == name)
        .copied()
}

impl OtherTerm {
    /// The term of this name, such as `no date`, that is of no variable and no locator, if there is
    /// one.
    pub fn from_name(name: &str) -> Option<OtherTerm>
        ensures { (term : OtherTerm) → (result ≡ Some term) ↔ (spec.other_name term
            ≡ Some name.now) }
    {
        OTHER_TERMS
            .iter()
            .find(|term| term.name() == Some(name))
            .copied()
    }

    /// Its name in CSL, such as `no date`, unless it is a month of a number above 11.
    pub fn name(&self) -> Option<&'static str>
        ensures { option_map (λ t. t.now) result ≡ spec.other_name self.now }
    {
        match self {
            OtherTerm::And => Some("and"),
            OtherTerm::EtAl => Some("et-al"),
            OtherTerm::Ad => Some("ad"),
            OtherTerm::Bc => Some("bc"),
            OtherTerm::PageRangeDelimiter => Some("page-range-delimiter"),
            OtherTerm::OpenQuote => Some("open-quote"),
            OtherTerm::CloseQuote => Some("close-quote"),
            OtherTerm::OpenInnerQuote => Some("open-inner-quote"),
            OtherTerm::CloseInnerQuote => Some("close-inner-quote"),
            OtherTerm::Accessed => Some("accessed"),
            OtherTerm::AndOthers => Some("and others"),
            OtherTerm::Anonymous => Some("anonymous"),
            OtherTerm::At => Some("at"),
            OtherTerm::AvailableAt => Some("available at"),
            OtherTerm::By => Some("by"),
            OtherTerm::Circa => Some("circa"),
            OtherTerm::Cited => Some("cited"),
            OtherTerm::Forthcoming => Some("forthcoming"),
            OtherTerm::From => Some("from"),
            OtherTerm::Ibid => Some("ibid"),
            OtherTerm::In => Some("in"),
            OtherTerm::InPress => Some("in press"),
            OtherTerm::Internet => Some("internet"),
            OtherTerm::Interview => Some("interview"),
            OtherTerm::Letter => Some("letter"),
            OtherTerm::NoDate => Some("no date"),
            OtherTerm::Online => Some("online"),
            OtherTerm::PresentedAt => Some("presented at"),
            OtherTerm::Reference => Some("reference"),
            OtherTerm::Retrieved => Some("retrieved"),
            OtherTerm::Scale => Some("scale"),
            OtherTerm::Version => Some("version"),
            OtherTerm::Month(month) => month_name(*month),
            OtherTerm::Season(season) => Some(season_name(*season)),
        }
    }
}

impl Term {
    /// The term of this name, such as `editor`, `sub-verbo` or `no date`, if there is one. Some
    /// names, such as `page`, `volume` and `version`, are those of several terms. The term of a
    /// variable then comes before that of a locator, which `Locator::from_name` finds, and both
    /// come before any other. The term of editors who translate may be spelled `editortranslator`
    /// or `editor-translator`.
    #[tactic(auto, using(crate::proofs::FirstTerm::first_term_laws))]
    pub fn from_name(name: &str) -> Option<Term>
        ensures { (term : Term) → (result ≡ Some term)
            ↔ spec.IsTermOf (spec.term_spelling name.now) term }
    {
        let name = term_spelling(name);
        if let Some(variable) = role_of_name(name) {
            return Some(Term::Name(variable));
        }
        if let Some(variable) = NumberVariable::from_name(name) {
            return Some(Term::Number(variable));
        }
        if let Some(variable) = PageVariable::from_name(name) {
            return Some(Term::Page(variable));
        }
        if let Some(locator) = Locator::from_name(name) {
            return Some(Term::Locator(locator));
        }
        match OtherTerm::from_name(name) {
            Some(term) => Some(Term::Other(term)),
            None => None,
        }
    }

    /// Its name in CSL, such as `editor`, `sub-verbo` or `no date`, unless it is a month of a
    /// number above 11.
    pub fn name(&self) -> Option<&'static str>
        ensures { option_map (λ t. t.now) result ≡ spec.term_name self.now }
    {
        match self {
            Term::Name(variable) => Some(role_name(*variable)),
            Term::Number(variable) => Some(variable.name()),
            Term::Page(variable) => Some(variable.name()),
            Term::Locator(locator) => Some(locator.name()),
            Term::Other(term) => term.name(),
        }
    }
}
