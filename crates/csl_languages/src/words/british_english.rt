//! British English, in the words of CSL's own locale `en-GB` (CSL 1.0.2, Locale; Appendix II:
//! Terms).
//! Definitions: specs/Contents.antt, specs/Languages.antt, specs/Words.antt.

ghost use Rattle.std.specs.Prelude.{◌≡◌, map};
ghost use Rattle.csl_languages.specs.Contents.{contents_of_tables, term_of_word};
ghost use Rattle.csl_languages.specs.Languages.{british_english_contents};
ghost use Rattle.csl_languages.specs.Words.{terms_of_words, british_english_words};

use crate::words::{DatePartRow, GenderedTermRow, OrdinalRow, Tables, TermRow, WordRow};
use csl_elements::DateAnyForm::NumericLeadingZeros;
use csl_elements::Term::{Locator, Name, Number, Other, Page};
use csl_elements::TermForm::{Long, Short, Symbol, Verb, VerbShort};
use csl_elements::{
    DatePartName, Locator as Place, NameVariable as Role, NumberVariable, OrdinalSlot,
    OtherTerm as Word, PageVariable, Season,
};

/// The words that most styles print.
pub(crate) static WORDS: [WordRow; 30] = words! {
    Word::And => Long "and";
    Word::EtAl => Long "et al.";
    Word::OpenQuote => Long "‘";
    Word::CloseQuote => Long "’";
    Word::OpenInnerQuote => Long "“";
    Word::CloseInnerQuote => Long "”";
    Word::Month(0) => Long "January", Short "Jan.";
    Word::Month(1) => Long "February", Short "Feb.";
    Word::Month(2) => Long "March", Short "Mar.";
    Word::Month(3) => Long "April", Short "Apr.";
    Word::Month(4) => Long "May", Short "May";
    Word::Month(5) => Long "June", Short "Jun.";
    Word::Month(6) => Long "July", Short "Jul.";
    Word::Month(7) => Long "August", Short "Aug.";
    Word::Month(8) => Long "September", Short "Sep.";
    Word::Month(9) => Long "October", Short "Oct.";
    Word::Month(10) => Long "November", Short "Nov.";
    Word::Month(11) => Long "December", Short "Dec.";
};

/// The other terms without a gender.
pub(crate) static TERMS: [TermRow; 174] = terms! {
    // Eras, seasons, and words in sentences.
    Other(Word::Ad) => Long "AD";
    Other(Word::Bc) => Long "BC";
    Other(Word::PageRangeDelimiter) => Long "–";
    Other(Word::Season(Season::Spring)) => Long "Spring";
    Other(Word::Season(Season::Summer)) => Long "Summer";
    Other(Word::Season(Season::Autumn)) => Long "Autumn";
    Other(Word::Season(Season::Winter)) => Long "Winter";
    Other(Word::Accessed) => Long "accessed";
    Other(Word::AndOthers) => Long "and others";
    Other(Word::Anonymous) => Long "anonymous", Short "anon.";
    Other(Word::At) => Long "at";
    Other(Word::AvailableAt) => Long "available at";
    Other(Word::By) => Long "by";
    Other(Word::Circa) => Long "circa", Short "c.";
    Other(Word::Cited) => Long "cited";
    Other(Word::Forthcoming) => Long "forthcoming";
    Other(Word::From) => Long "from";
    Other(Word::Ibid) => Long "ibid.";
    Other(Word::In) => Long "in";
    Other(Word::InPress) => Long "in press";
    Other(Word::Internet) => Long "internet";
    Other(Word::Interview) => Long "interview", Short "interv.";
    Other(Word::Letter) => Long "letter";
    Other(Word::NoDate) => Long "no date", Short "n.d.";
    Other(Word::Online) => Long "online";
    Other(Word::PresentedAt) => Long "presented at the";
    Other(Word::Reference) => Long "reference" / "references", Short "ref." / "refs.";
    Other(Word::Retrieved) => Long "retrieved";
    Other(Word::Scale) => Long "scale";
    Other(Word::Version) => Long "version";
    // The roles of persons.
    Name(Role::Chair) => Long "chair" / "chairs", Verb "chaired by";
    Name(Role::Compiler) => Long "compiler" / "compilers", Short "comp." / "comps.",
        Verb "compiled by", VerbShort "comp. by";
    Name(Role::ContainerAuthor) => Verb "by";
    Name(Role::Contributor) => Long "contributor" / "contributors", Short "contrib." / "contribs.",
        Verb "with", VerbShort "w.";
    Name(Role::Curator) => Long "curator" / "curators", Short "cur." / "curs.", Verb "curated by",
        VerbShort "cur. by";
    Name(Role::Director) => Long "director" / "directors", Short "dir." / "dirs.",
        Verb "directed by", VerbShort "dir. by";
    Name(Role::Editor) => Long "editor" / "editors", Short "ed." / "eds.", Verb "edited by",
        VerbShort "ed. by";
    Name(Role::EditorialDirector) => Long "editor" / "editors", Short "ed." / "eds.",
        Verb "edited by", VerbShort "ed. by";
    Name(Role::EditorTranslator) => Long "editor & translator" / "editors & translators",
        Short "ed. & tran." / "eds. & trans.", Verb "edited & translated by",
        VerbShort "ed. & trans. by";
    Name(Role::ExecutiveProducer) => Long "executive producer" / "executive producers",
        Short "exec. prod." / "exec. prods.", Verb "executive produced by",
        VerbShort "exec. prod. by";
    Name(Role::Guest) => Long "guest" / "guests", Verb "with guest", VerbShort "w. guest";
    Name(Role::Host) => Long "host" / "hosts", Verb "hosted by", VerbShort "hosted by";
    Name(Role::Illustrator) => Long "illustrator" / "illustrators", Short "ill." / "ills.",
        Verb "illustrated by", VerbShort "illus. by";
    Name(Role::Interviewer) => Verb "interview by";
    Name(Role::Narrator) => Long "narrator" / "narrators", Short "narr." / "narrs.",
        Verb "narrated by", VerbShort "narr. by";
    Name(Role::Organizer) => Long "organizer" / "organizers", Short "org." / "orgs.",
        Verb "organized by", VerbShort "org. by";
    Name(Role::Performer) => Long "performer" / "performers", Short "perf." / "perfs.",
        Verb "performed by", VerbShort "perf. by";
    Name(Role::Producer) => Long "producer" / "producers", Short "prod." / "prods.",
        Verb "produced by", VerbShort "prod. by";
    Name(Role::Recipient) => Verb "to";
    Name(Role::ReviewedAuthor) => Verb "by";
    Name(Role::ScriptWriter) => Long "writer" / "writers", Short "writ." / "writs.",
        Verb "written by", VerbShort "writ. by";
    Name(Role::SeriesCreator) => Long "series creator" / "series creators", Short "cre." / "cres.",
        Verb "created by", VerbShort "cre. by";
    Name(Role::Translator) => Long "translator" / "translators", Short "tran." / "trans.",
        Verb "translated by", VerbShort "trans. by";
    // Numbers and pages.
    Number(NumberVariable::Edition) => Long "edition" / "editions", Short "ed.";
    Number(NumberVariable::Issue) => Long "number" / "numbers", Short "no." / "nos.";
    Number(NumberVariable::NumberOfPages) => Long "page" / "pages", Short "p." / "pp.";
    Number(NumberVariable::Section) => Long "section" / "sections", Short "sec." / "secs",
        Symbol "§" / "§§";
    Number(NumberVariable::Version) => Long "version";
    Number(NumberVariable::Volume) => Long "volume" / "volumes", Short "vol." / "vols";
    Page(PageVariable::Page) => Long "page" / "pages", Short "p." / "pp.";
    // Locators.
    Locator(Place::Act) => Long "act" / "acts";
    Locator(Place::Appendix) => Long "appendix" / "appendices", Short "app." / "apps.";
    Locator(Place::Book) => Long "book" / "books", Short "bk." / "bks";
    Locator(Place::Canon) => Long "canon" / "canons";
    Locator(Place::Chapter) => Long "chapter" / "chapters", Short "chap." / "chaps";
    Locator(Place::Column) => Long "column" / "columns", Short "col." / "cols";
    Locator(Place::Equation) => Long "equation" / "equations", Short "eq." / "eqs.";
    Locator(Place::Figure) => Long "figure" / "figures", Short "fig." / "figs";
    Locator(Place::Folio) => Long "folio" / "folios", Short "fol." / "fols";
    Locator(Place::Issue) => Long "number" / "numbers", Short "no." / "nos.";
    Locator(Place::Line) => Long "line" / "lines", Short "l." / "ll.";
    Locator(Place::Note) => Long "note" / "notes", Short "n." / "nn.";
    Locator(Place::Opus) => Long "opus" / "opera", Short "op." / "opp.";
    Locator(Place::Page) => Long "page" / "pages", Short "p." / "pp.";
    Locator(Place::Paragraph) => Long "paragraph" / "paragraphs", Short "para." / "paras",
        Symbol "¶" / "¶¶";
    Locator(Place::Part) => Long "part" / "parts", Short "pt." / "pts";
    Locator(Place::Rule) => Long "rule" / "rules", Short "r." / "rr.";
    Locator(Place::Scene) => Long "scene" / "scenes", Short "sc." / "scs.";
    Locator(Place::Section) => Long "section" / "sections", Short "sec." / "secs",
        Symbol "§" / "§§";
    Locator(Place::SubVerbo) => Long "sub verbo" / "sub verbis", Short "s.v." / "s.vv.";
    Locator(Place::Table) => Long "table" / "tables", Short "tbl." / "tbls.";
    Locator(Place::Timestamp) => Long "", Short "";
    Locator(Place::Verse) => Long "verse" / "verses", Short "v." / "vv.";
    Locator(Place::Version) => Long "version";
    Locator(Place::Volume) => Long "volume" / "volumes", Short "vol." / "vols";
};

/// The other terms with a gender.
pub(crate) static GENDERED_TERMS: [GenderedTermRow; 0] = [];

/// The ordinals.
pub(crate) static ORDINALS: [OrdinalRow; 17] = [
    (OrdinalSlot::Default, None, None, "th"),
    (OrdinalSlot::Two(1), None, None, "st"),
    (OrdinalSlot::Two(2), None, None, "nd"),
    (OrdinalSlot::Two(3), None, None, "rd"),
    (OrdinalSlot::Two(11), None, None, "th"),
    (OrdinalSlot::Two(12), None, None, "th"),
    (OrdinalSlot::Two(13), None, None, "th"),
    (OrdinalSlot::Long(1), None, None, "first"),
    (OrdinalSlot::Long(2), None, None, "second"),
    (OrdinalSlot::Long(3), None, None, "third"),
    (OrdinalSlot::Long(4), None, None, "fourth"),
    (OrdinalSlot::Long(5), None, None, "fifth"),
    (OrdinalSlot::Long(6), None, None, "sixth"),
    (OrdinalSlot::Long(7), None, None, "seventh"),
    (OrdinalSlot::Long(8), None, None, "eighth"),
    (OrdinalSlot::Long(9), None, None, "ninth"),
    (OrdinalSlot::Long(10), None, None, "tenth"),
];

/// The date format in numbers.
pub(crate) static NUMERIC_DATE: [DatePartRow; 3] = [
    (
        DatePartName::Day,
        Some(NumericLeadingZeros),
        None,
        Some("/"),
    ),
    (
        DatePartName::Month,
        Some(NumericLeadingZeros),
        None,
        Some("/"),
    ),
    (DatePartName::Year, None, None, None),
];

/// The date format in words.
pub(crate) static TEXT_DATE: [DatePartRow; 3] = [
    (DatePartName::Day, None, None, Some(" ")),
    (DatePartName::Month, None, None, Some(" ")),
    (DatePartName::Year, None, None, None),
];

/// What the locale of British English holds.
pub(crate) fn british_english_tables() -> Tables
    ensures rows { contents_of_tables result ≡ british_english_contents }
    ensures words { map term_of_word result.words.now ≡ terms_of_words british_english_words }
{
    Tables {
        words: &WORDS,
        terms: &TERMS,
        gendered_terms: &GENDERED_TERMS,
        ordinals: &ORDINALS,
        numeric_date: &NUMERIC_DATE,
        text_date: &TEXT_DATE,
        punctuation_in_quote: false,
        limit_day_ordinals_to_day_1: false,
    }
}
