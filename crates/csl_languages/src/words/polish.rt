//! Polish, in the words of CSL's own locale `pl-PL` (CSL 1.0.2, Locale; Appendix II: Terms).
//! Definitions: specs/Contents.antt, specs/Languages.antt, specs/Words.antt.

ghost use Rattle.std.specs.Prelude.{◌≡◌, map};
ghost use Rattle.csl_languages.specs.Contents.{contents_of_tables, term_of_word};
ghost use Rattle.csl_languages.specs.Languages.{polish_contents};
ghost use Rattle.csl_languages.specs.Words.{terms_of_words, polish_words};

use crate::words::{DatePartRow, GenderedTermRow, OrdinalRow, Tables, TermRow, WordRow};
use csl_elements::DateAnyForm::NumericLeadingZeros;
use csl_elements::Term::{Locator, Name, Number, Other, Page};
use csl_elements::TermForm::{Long, Short, Symbol, Verb, VerbShort};
use csl_elements::{
    DatePartName, Locator as Place, NameVariable as Role, NumberVariable, OrdinalSlot,
    OtherTerm as Word, PageVariable, Season,
};

/// The words that most styles print.
pub(crate) static WORDS: [WordRow; 30] = words! {
    Word::And => Long "i";
    Word::EtAl => Long "i in.";
    Word::OpenQuote => Long "„";
    Word::CloseQuote => Long "”";
    Word::OpenInnerQuote => Long "«";
    Word::CloseInnerQuote => Long "»";
    Word::Month(0) => Long "styczeń", Short "sty.";
    Word::Month(1) => Long "luty", Short "luty";
    Word::Month(2) => Long "marzec", Short "mar.";
    Word::Month(3) => Long "kwiecień", Short "kwi.";
    Word::Month(4) => Long "maj", Short "maj";
    Word::Month(5) => Long "czerwiec", Short "cze.";
    Word::Month(6) => Long "lipiec", Short "lip.";
    Word::Month(7) => Long "sierpień", Short "sie.";
    Word::Month(8) => Long "wrzesień", Short "wrz.";
    Word::Month(9) => Long "październik", Short "paź.";
    Word::Month(10) => Long "listopad", Short "lis.";
    Word::Month(11) => Long "grudzień", Short "grudz.";
};

/// The other terms without a gender.
pub(crate) static TERMS: [TermRow; 174] = terms! {
    // Eras, seasons, and words in sentences.
    Other(Word::Ad) => Long "n.e.";
    Other(Word::Bc) => Long "p.n.e.";
    Other(Word::PageRangeDelimiter) => Long "–";
    Other(Word::Season(Season::Spring)) => Long "wiosna";
    Other(Word::Season(Season::Summer)) => Long "lato";
    Other(Word::Season(Season::Autumn)) => Long "jesień";
    Other(Word::Season(Season::Winter)) => Long "zima";
    Other(Word::Accessed) => Long "dostęp";
    Other(Word::AndOthers) => Long "i inni";
    Other(Word::Anonymous) => Long "anonim", Short "anon.";
    Other(Word::At) => Long "na";
    Other(Word::AvailableAt) => Long "dostępne na";
    Other(Word::By) => Long "przez";
    Other(Word::Circa) => Long "około", Short "ok";
    Other(Word::Cited) => Long "cytowane";
    Other(Word::Forthcoming) => Long "w przygotowaniu";
    Other(Word::From) => Long "z";
    Other(Word::Ibid) => Long "ibid.";
    Other(Word::In) => Long "w";
    Other(Word::InPress) => Long "w druku";
    Other(Word::Internet) => Long "internet";
    Other(Word::Interview) => Long "wywiad", Short "interv.";
    Other(Word::Letter) => Long "list";
    Other(Word::NoDate) => Long "brak daty", Short "b.d.";
    Other(Word::Online) => Long "online";
    Other(Word::PresentedAt) => Long "zaprezentowano na";
    Other(Word::Reference) => Long "referencja" / "referencje", Short "ref.";
    Other(Word::Retrieved) => Long "pobrano";
    Other(Word::Scale) => Long "skala";
    Other(Word::Version) => Long "wersja";
    // The roles of persons.
    Name(Role::Chair) => Long "chair" / "chairs", Verb "chaired by";
    Name(Role::Compiler) => Long "compiler" / "compilers", Short "comp." / "comps.",
        Verb "compiled by", VerbShort "comp. by";
    Name(Role::ContainerAuthor) => Verb "przez";
    Name(Role::Contributor) => Long "contributor" / "contributors", Short "contrib." / "contribs.",
        Verb "with", VerbShort "w.";
    Name(Role::Curator) => Long "curator" / "curators", Short "cur." / "curs.", Verb "curated by",
        VerbShort "cur. by";
    Name(Role::Director) => Long "reżyser" / "reżyserzy", Short "reż.", Verb "reżyserowane przez",
        VerbShort "reż.";
    Name(Role::Editor) => Long "redaktor" / "redaktorzy", Short "red.", Verb "zredagowane przez",
        VerbShort "red.";
    Name(Role::EditorialDirector) => Long "edytor" / "edytorzy", Short "red.",
        Verb "zredagowane przez", VerbShort "red.";
    Name(Role::EditorTranslator) => Long "redaktor & tłumacz" / "redaktorzy & tłumacze",
        Short "red.tłum.", Verb "zredagowane i przetłumaczone przez", VerbShort "red.tłum.";
    Name(Role::ExecutiveProducer) => Long "executive producer" / "executive producers",
        Short "exec. prod." / "exec. prods.", Verb "executive produced by",
        VerbShort "exec. prod. by";
    Name(Role::Guest) => Long "guest" / "guests", Verb "with guest", VerbShort "w. guest";
    Name(Role::Host) => Long "host" / "hosts", Verb "hosted by", VerbShort "hosted by";
    Name(Role::Illustrator) => Long "ilustrator" / "ilustratorzy", Short "il.",
        Verb "ilustrowane przez", VerbShort "il.";
    Name(Role::Interviewer) => Verb "przeprowadzony przez";
    Name(Role::Narrator) => Long "narrator" / "narrators", Short "narr." / "narrs.",
        Verb "narrated by", VerbShort "narr. by";
    Name(Role::Organizer) => Long "organizer" / "organizers", Short "org." / "orgs.",
        Verb "organized by", VerbShort "org. by";
    Name(Role::Performer) => Long "performer" / "performers", Short "perf." / "perfs.",
        Verb "performed by", VerbShort "perf. by";
    Name(Role::Producer) => Long "producer" / "producers", Short "prod." / "prods.",
        Verb "produced by", VerbShort "prod. by";
    Name(Role::Recipient) => Verb "dla";
    Name(Role::ReviewedAuthor) => Verb "przez";
    Name(Role::ScriptWriter) => Long "writer" / "writers", Short "writ." / "writs.",
        Verb "written by", VerbShort "writ. by";
    Name(Role::SeriesCreator) => Long "series creator" / "series creators", Short "cre." / "cres.",
        Verb "created by", VerbShort "cre. by";
    Name(Role::Translator) => Long "tłumacz" / "tłumacze", Short "tłum.",
        Verb "przetłumaczone przez", VerbShort "tłum.";
    // Numbers and pages.
    Number(NumberVariable::Edition) => Long "wydanie" / "wydania", Short "wyd.";
    Number(NumberVariable::Issue) => Long "numer" / "numery", Short "nr";
    Number(NumberVariable::NumberOfPages) => Long "strona" / "strony", Short "s." / "ss.";
    Number(NumberVariable::Section) => Long "sekcja" / "sekcje", Short "sekc.", Symbol "§" / "§§";
    Number(NumberVariable::Version) => Long "wersja";
    Number(NumberVariable::Volume) => Long "tom" / "tomy", Short "t.";
    Page(PageVariable::Page) => Long "strona" / "strony", Short "s.";
    // Locators.
    Locator(Place::Act) => Long "act" / "acts";
    Locator(Place::Appendix) => Long "appendix" / "appendices", Short "app." / "apps.";
    Locator(Place::Book) => Long "książka" / "książki", Short "książka";
    Locator(Place::Canon) => Long "canon" / "canons";
    Locator(Place::Chapter) => Long "rozdział" / "rozdziały", Short "rozdz.";
    Locator(Place::Column) => Long "kolumna" / "kolumny", Short "kol.";
    Locator(Place::Equation) => Long "equation" / "equations", Short "eq." / "eqs.";
    Locator(Place::Figure) => Long "rycina" / "ryciny", Short "ryc.";
    Locator(Place::Folio) => Long "folio", Short "fol.";
    Locator(Place::Issue) => Long "numer" / "numery", Short "nr";
    Locator(Place::Line) => Long "wiersz" / "wiersze", Short "l.";
    Locator(Place::Note) => Long "notatka" / "notatki", Short "n.";
    Locator(Place::Opus) => Long "opus" / "opera", Short "op.";
    Locator(Place::Page) => Long "strona" / "strony", Short "s.";
    Locator(Place::Paragraph) => Long "akapit" / "akapity", Short "akap.", Symbol "¶" / "¶¶";
    Locator(Place::Part) => Long "część" / "części", Short "cz.";
    Locator(Place::Rule) => Long "rule" / "rules", Short "r." / "rr.";
    Locator(Place::Scene) => Long "scene" / "scenes", Short "sc." / "scs.";
    Locator(Place::Section) => Long "sekcja" / "sekcje", Short "sekc.", Symbol "§" / "§§";
    Locator(Place::SubVerbo) => Long "sub verbo" / "sub verbis", Short "s.v." / "s.vv.";
    Locator(Place::Table) => Long "table" / "tables", Short "tbl." / "tbls.";
    Locator(Place::Timestamp) => Long "", Short "";
    Locator(Place::Verse) => Long "wers" / "wersy", Short "w.";
    Locator(Place::Version) => Long "wersja";
    Locator(Place::Volume) => Long "tom" / "tomy", Short "t.";
};

/// The other terms with a gender.
pub(crate) static GENDERED_TERMS: [GenderedTermRow; 0] = [];

/// The ordinals.
pub(crate) static ORDINALS: [OrdinalRow; 11] = [
    (OrdinalSlot::Default, None, None, "."),
    (OrdinalSlot::Long(1), None, None, "pierwszy"),
    (OrdinalSlot::Long(2), None, None, "drugi"),
    (OrdinalSlot::Long(3), None, None, "trzeci"),
    (OrdinalSlot::Long(4), None, None, "czwarty"),
    (OrdinalSlot::Long(5), None, None, "piąty"),
    (OrdinalSlot::Long(6), None, None, "szósty"),
    (OrdinalSlot::Long(7), None, None, "siódmy"),
    (OrdinalSlot::Long(8), None, None, "ósmy"),
    (OrdinalSlot::Long(9), None, None, "dziewiąty"),
    (OrdinalSlot::Long(10), None, None, "dziesiąty"),
];

/// The date format in numbers.
pub(crate) static NUMERIC_DATE: [DatePartRow; 3] = [
    (
        DatePartName::Day,
        Some(NumericLeadingZeros),
        None,
        Some("."),
    ),
    (
        DatePartName::Month,
        Some(NumericLeadingZeros),
        None,
        Some("."),
    ),
    (DatePartName::Year, None, None, None),
];

/// The date format in words.
pub(crate) static TEXT_DATE: [DatePartRow; 3] = [
    (DatePartName::Day, None, None, Some(" ")),
    (DatePartName::Month, None, None, Some(" ")),
    (DatePartName::Year, None, None, None),
];

/// What the locale of Polish holds.
pub(crate) fn polish_tables() -> Tables
    ensures rows { contents_of_tables result ≡ polish_contents }
    ensures words { map term_of_word result.words.now ≡ terms_of_words polish_words }
{
    Tables {
        words: &WORDS,
        terms: &TERMS,
        gendered_terms: &GENDERED_TERMS,
        ordinals: &ORDINALS,
        numeric_date: &NUMERIC_DATE,
        text_date: &TEXT_DATE,
        punctuation_in_quote: false,
        limit_day_ordinals_to_day_1: false,
    }
}
