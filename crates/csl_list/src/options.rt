//! The options of a style for the citations and the bibliography of a document (CSL 1.0.2,
//! Citation-specific Options; Bibliography-specific Options; Layout; Sorting).

ghost use Rattle.std.specs.Prelude.{◌≡◌, [], false, None};
ghost use Rattle.csl_list.specs.Options.{HasNoTexts, HasNoDisambiguation, IsNotShortened, HasNoOptions};

use csl_elements::Variable;
use std::alloc::Global;

/// The source of a sort key's text (CSL 1.0.2, Sorting: `macro`, `variable`).
#[derive(Drop)]
pub enum KeySource {
    /// The macro of this name.
    Macro(String),
    /// A variable.
    Variable(Variable),
}

/// A key that works or cites are sorted by (CSL 1.0.2, Sorting). For one that limits names
/// (`names-min`, `names-use-first`, `names-use-last`) take a macro with these limits, as
/// `tools/style` does.
#[derive(Drop)]
pub struct SortKey {
    /// The source of its text.
    pub source: KeySource,
    /// Whether it sorts downwards. A work without the text comes last in both directions.
    pub is_descending: bool,
}

/// How cites in a row are shortened (CSL 1.0.2, Cite Collapsing: collapse). A cite with a text of
/// its author between it and the cite before it, or with a purpose, is not.
#[derive(Clone, Copy, Debug, PartialEq, Eq, Hash)]
pub enum Collapse {
    /// Of three cites or more whose numbers follow one another, the first and the last are printed.
    /// None of them has a locator.
    CitationNumber,
    /// Of cites with the same names, the first prints them.
    Year,
    /// As `Year`. Of these, cites that have the same year too and no locators print their year
    /// suffix alone, but for the first.
    YearSuffix,
    /// As `YearSuffix`. Of three suffixes or more that follow one another, the first and the last
    /// are printed.
    YearSuffixRanged,
}

/// The names whose given names are shown to tell them apart (CSL 1.0.2,
/// givenname-disambiguation-rule). A given name is shown as initials first, and whole if that does
/// not suffice, if the style has initials.
#[derive(Clone, Copy, Debug, PartialEq, Eq, Hash)]
pub enum GivenNameRule {
    /// Each name that is that of several persons of the document.
    AllNames,
    /// The same, by initials alone. Names that these do not tell apart stay as they are.
    AllNamesWithInitials,
    /// The first name of each cite, if it is that of several first persons.
    PrimaryName,
    /// The same, by initials alone.
    PrimaryNameWithInitials,
    /// The names of equal cites, one by one, if that tells some of these cites apart.
    ByCite,
}

/// The options of citations (CSL 1.0.2, Citation-specific Options; Layout).
#[derive(Drop)]
pub struct CitationOptions {
    /// The text before the cites of a citation.
    pub prefix: String,
    /// The text after the cites of a citation.
    pub suffix: String,
    /// The text between two cites.
    pub delimiter: String,
    /// The keys that the cites of a citation are sorted by. Without keys they stay as the author
    /// wrote them.
    pub keys: Vec<SortKey>,
    /// How cites in a row are shortened, if they are (collapse).
    pub collapse: Option<Collapse>,
    /// The text between two cites of the same names (cite-group-delimiter), else a comma and a
    /// space. With it such cites stand together, at the place of the first, even if they are not
    /// shortened.
    pub cite_group_delimiter: Option<String>,
    /// The text between two year suffixes of one year (year-suffix-delimiter), else the delimiter.
    pub year_suffix_delimiter: Option<String>,
    /// The text after cites that are shortened (after-collapse-delimiter), else the delimiter.
    pub after_collapse_delimiter: Option<String>,
    /// The number of notes up to which an earlier note is near (near-note-distance).
    pub near_note_distance: u32,
    /// Whether equal first cites show more of their names, if that tells some of them apart
    /// (disambiguate-add-names).
    pub adds_names: bool,
    /// Whether names are told apart by given names (disambiguate-add-givenname). With `adds_names`,
    /// by cite, hidden names are added for their given names, too.
    pub adds_given_names: bool,
    /// Which names these are (givenname-disambiguation-rule).
    pub given_name_rule: GivenNameRule,
    /// Whether works with equal first cites get year suffixes, in the order of the list
    /// (disambiguate-add-year-suffix).
    pub adds_year_suffix: bool,
    /// Whether each citation begins with a capital. CSL does not say so, but a note begins a
    /// sentence.
    pub begins_with_capital: bool,
}

/// The place of the first field of a work in the bibliography (CSL 1.0.2, second-field-align).
#[derive(Clone, Copy, Debug, PartialEq, Eq, Hash)]
pub enum SecondFieldAlign {
    /// It stands in the margin.
    Margin,
    /// It stands before the other fields, which are aligned.
    Flush,
}

/// The names that a substitute replaces (CSL 1.0.2, subsequent-author-substitute-rule).
#[derive(Clone, Copy, Debug, PartialEq, Eq, Hash)]
pub enum SubstituteRule {
    /// If all names are those of the work before, one substitute replaces them.
    CompleteAll,
    /// If all names are those of the work before, a substitute replaces each.
    CompleteEach,
    /// A substitute replaces each of the first names that the work before has too.
    PartialEach,
    /// A substitute replaces the first name, if the work before has it too.
    PartialFirst,
}

/// The text for names that the work before has too (CSL 1.0.2, subsequent-author-substitute).
#[derive(Drop)]
pub struct AuthorSubstitute {
    /// The text. If it is empty, the names are left out.
    pub text: String,
    /// The names that it replaces.
    pub rule: SubstituteRule,
}

/// The options of the bibliography (CSL 1.0.2, Bibliography-specific Options; Layout).
#[derive(Drop)]
pub struct BibliographyOptions {
    /// The text before each work.
    pub prefix: String,
    /// The text after each work.
    pub suffix: String,
    /// The keys that the works are sorted by. Without keys they stand in the order in which they
    /// are first cited.
    pub keys: Vec<SortKey>,
    /// Whether a work's second line and those after it are indented.
    pub hanging_indent: bool,
    /// Where the first field of a work stands, if it is apart from the others.
    pub second_field_align: Option<SecondFieldAlign>,
    /// The distance of lines, in lines.
    pub line_spacing: u32,
    /// The space between two works, in lines.
    pub entry_spacing: u32,
    /// The text for names that the work before has too, if the style has one.
    pub author_substitute: Option<AuthorSubstitute>,
}

impl SortKey {
    /// A key of this source, upwards.
    fn upwards(source: KeySource) -> SortKey
        ensures source { result.source ≡ source }
        ensures direction { result.is_descending ≡ false }
    {
        SortKey {
            source,
            is_descending: false,
        }
    }

    /// A key by the macro of this name, upwards.
    pub fn by_macro(name: String) -> SortKey
        ensures source { result.source ≡ KeySource.Macro name }
        ensures direction { result.is_descending ≡ false }
    {
        SortKey::upwards(KeySource::Macro(name))
    }

    /// A key by a variable, upwards.
    pub fn by_variable(variable: Variable) -> SortKey
        ensures source { result.source ≡ KeySource.Variable variable }
        ensures direction { result.is_descending ≡ false }
    {
        SortKey::upwards(KeySource::Variable(variable))
    }
}

impl CitationOptions {
    /// No texts, no keys, nothing shortened, and works told apart by branches that test
    /// `disambiguate` alone. A note is near up to a distance of 5, and the rule of given names is
    /// by cite, as CSL has it.
    pub fn new(alloc: Global) -> CitationOptions
        ensures texts { HasNoTexts result }
        ensures keys { result.keys.items ≡ [] }
        ensures collapse { IsNotShortened result }
        ensures distance { result.near_note_distance ≡ 5 }
        ensures disambiguation { HasNoDisambiguation result }
        ensures capital { result.begins_with_capital ≡ false }
    {
        CitationOptions {
            prefix: String::new(alloc),
            suffix: String::new(alloc),
            delimiter: String::new(alloc),
            keys: Vec::new(alloc),
            collapse: None,
            cite_group_delimiter: None,
            year_suffix_delimiter: None,
            after_collapse_delimiter: None,
            near_note_distance: 5,
            adds_names: false,
            adds_given_names: false,
            given_name_rule: GivenNameRule::ByCite,
            adds_year_suffix: false,
            begins_with_capital: false,
        }
    }
}

impl BibliographyOptions {
    /// No texts, no keys, no field apart, and a space of one line between two works, as CSL has it.
    pub fn new(alloc: Global) -> BibliographyOptions
        ensures { HasNoOptions result }
    {
        BibliographyOptions {
            prefix: String::new(alloc),
            suffix: String::new(alloc),
            keys: Vec::new(alloc),
            hanging_indent: false,
            second_field_align: None,
            line_spacing: 1,
            entry_spacing: 1,
            author_substitute: None,
        }
    }
}
