//! German, in the words of CSL's own locale `de-DE` (CSL 1.0.2, Locale; Appendix II: Terms).
//! Definitions: specs/Contents.antt, specs/Languages.antt, specs/Words.antt.

ghost use Rattle.std.specs.Prelude.{◌≡◌, map};
ghost use Rattle.csl_languages.specs.Contents.{contents_of_tables, term_of_word};
ghost use Rattle.csl_languages.specs.Languages.{german_contents};
ghost use Rattle.csl_languages.specs.Words.{terms_of_words, german_words};

use crate::words::{DatePartRow, GenderedTermRow, OrdinalRow, Tables, TermRow, WordRow};
use csl_elements::DateAnyForm::{NumericLeadingZeros, Ordinal};
use csl_elements::Term::{Locator, Name, Number, Other, Page};
use csl_elements::TermForm::{Long, Short, Symbol, Verb, VerbShort};
use csl_elements::{
    DatePartName, Locator as Place, NameVariable as Role, NumberVariable, OrdinalSlot,
    OtherTerm as Word, PageVariable, Season,
};

/// The words that most styles print.
pub(crate) static WORDS: [WordRow; 30] = words! {
    Word::And => Long "und";
    Word::EtAl => Long "u.\u{a0}a.";
    Word::OpenQuote => Long "„";
    Word::CloseQuote => Long "“";
    Word::OpenInnerQuote => Long "‚";
    Word::CloseInnerQuote => Long "‘";
    Word::Month(0) => Long "Januar", Short "Jan.";
    Word::Month(1) => Long "Februar", Short "Feb.";
    Word::Month(2) => Long "März", Short "März";
    Word::Month(3) => Long "April", Short "Apr.";
    Word::Month(4) => Long "Mai", Short "Mai";
    Word::Month(5) => Long "Juni", Short "Juni";
    Word::Month(6) => Long "Juli", Short "Juli";
    Word::Month(7) => Long "August", Short "Aug.";
    Word::Month(8) => Long "September", Short "Sep.";
    Word::Month(9) => Long "Oktober", Short "Okt.";
    Word::Month(10) => Long "November", Short "Nov.";
    Word::Month(11) => Long "Dezember", Short "Dez.";
};

/// The other terms without a gender.
pub(crate) static TERMS: [TermRow; 178] = terms! {
    // Eras, seasons, and words in sentences.
    Other(Word::Ad) => Long "\u{a0}n.\u{a0}Chr.";
    Other(Word::Bc) => Long "\u{a0}v.\u{a0}Chr.";
    Other(Word::PageRangeDelimiter) => Long "–";
    Other(Word::Season(Season::Spring)) => Long "Frühjahr";
    Other(Word::Season(Season::Summer)) => Long "Sommer";
    Other(Word::Season(Season::Autumn)) => Long "Herbst";
    Other(Word::Season(Season::Winter)) => Long "Winter";
    Other(Word::Accessed) => Long "zugegriffen";
    Other(Word::AndOthers) => Long "und andere";
    Other(Word::Anonymous) => Long "ohne Autor", Short "o.\u{a0}A.";
    Other(Word::At) => Long "auf";
    Other(Word::AvailableAt) => Long "verfügbar unter";
    Other(Word::By) => Long "von";
    Other(Word::Circa) => Long "circa", Short "ca.";
    Other(Word::Cited) => Long "zitiert";
    Other(Word::Forthcoming) => Long "i.\u{a0}E.";
    Other(Word::From) => Long "von";
    Other(Word::Ibid) => Long "ebd.";
    Other(Word::In) => Long "in";
    Other(Word::InPress) => Long "im Druck";
    Other(Word::Internet) => Long "Internet";
    Other(Word::Interview) => Long "Interview", Short "interv.";
    Other(Word::Letter) => Long "Brief";
    Other(Word::NoDate) => Long "ohne Datum", Short "o.\u{a0}J.";
    Other(Word::Online) => Long "online";
    Other(Word::PresentedAt) => Long "gehalten auf der";
    Other(Word::Reference) => Long "Referenz" / "Referenzen", Short "Ref.";
    Other(Word::Retrieved) => Long "abgerufen";
    Other(Word::Scale) => Long "Maßstab";
    Other(Word::Version) => Long "Version";
    // The roles of persons.
    Name(Role::Chair) => Long "chair" / "chairs", Verb "chaired by";
    Name(Role::CollectionEditor) => Long "Reihenherausgeber", Short "Hrsg.",
        Verb "herausgegeben von", VerbShort "hg. von";
    Name(Role::Compiler) => Long "compiler" / "compilers", Short "comp." / "comps.",
        Verb "compiled by", VerbShort "comp. by";
    Name(Role::ContainerAuthor) => Verb "von";
    Name(Role::Contributor) => Long "contributor" / "contributors", Short "contrib." / "contribs.",
        Verb "with", VerbShort "w.";
    Name(Role::Curator) => Long "curator" / "curators", Short "cur." / "curs.", Verb "curated by",
        VerbShort "cur. by";
    Name(Role::Director) => Long "Regisseur" / "Regisseure", Short "Reg.", Verb "Regie von",
        VerbShort "Reg.";
    Name(Role::Editor) => Long "Herausgeber", Short "Hrsg.", Verb "herausgegeben von",
        VerbShort "hg. von";
    Name(Role::EditorialDirector) => Long "Herausgeber", Short "Hrsg.", Verb "herausgegeben von",
        VerbShort "hg. von";
    Name(Role::EditorTranslator) => Long "Herausgeber\u{a0}& Übersetzer",
        Short "Hrsg.\u{a0}& Übers.", Verb "herausgegeben und übersetzt von",
        VerbShort "hg.\u{a0}& übers. von";
    Name(Role::ExecutiveProducer) => Long "executive producer" / "executive producers",
        Short "exec. prod." / "exec. prods.", Verb "executive produced by",
        VerbShort "exec. prod. by";
    Name(Role::Guest) => Long "guest" / "guests", Verb "with guest", VerbShort "w. guest";
    Name(Role::Host) => Long "host" / "hosts", Verb "hosted by", VerbShort "hosted by";
    Name(Role::Illustrator) => Long "Illustrator" / "Illustratoren", Short "Ill.",
        Verb "illustriert von", VerbShort "illus. von";
    Name(Role::Interviewer) => Verb "interviewt von";
    Name(Role::Narrator) => Long "narrator" / "narrators", Short "narr." / "narrs.",
        Verb "narrated by", VerbShort "narr. by";
    Name(Role::Organizer) => Long "organizer" / "organizers", Short "org." / "orgs.",
        Verb "organized by", VerbShort "org. by";
    Name(Role::Performer) => Long "performer" / "performers", Short "perf." / "perfs.",
        Verb "performed by", VerbShort "perf. by";
    Name(Role::Producer) => Long "producer" / "producers", Short "prod." / "prods.",
        Verb "produced by", VerbShort "prod. by";
    Name(Role::Recipient) => Verb "an";
    Name(Role::ReviewedAuthor) => Verb "von";
    Name(Role::ScriptWriter) => Long "writer" / "writers", Short "writ." / "writs.",
        Verb "written by", VerbShort "writ. by";
    Name(Role::SeriesCreator) => Long "series creator" / "series creators", Short "cre." / "cres.",
        Verb "created by", VerbShort "cre. by";
    Name(Role::Translator) => Long "Übersetzer", Short "Übers.", Verb "übersetzt von",
        VerbShort "übers. von";
    // Numbers and pages.
    Number(NumberVariable::Edition) => Long "Auflage" / "Auflagen", Short "Aufl.";
    Number(NumberVariable::Issue) => Long "Nummer" / "Nummern", Short "Nr.";
    Number(NumberVariable::NumberOfPages) => Long "Seite" / "Seiten", Short "S.";
    Number(NumberVariable::Section) => Long "Abschnitt" / "Abschnitte", Short "Abschn.",
        Symbol "§" / "§§";
    Number(NumberVariable::Version) => Long "Version";
    Number(NumberVariable::Volume) => Long "Band" / "Bände", Short "Bd." / "Bde.";
    Page(PageVariable::Page) => Long "Seite" / "Seiten", Short "S.";
    // Locators.
    Locator(Place::Act) => Long "act" / "acts";
    Locator(Place::Appendix) => Long "appendix" / "appendices", Short "app." / "apps.";
    Locator(Place::Book) => Long "Buch" / "Bücher", Short "B.";
    Locator(Place::Canon) => Long "canon" / "canons";
    Locator(Place::Chapter) => Long "Kapitel", Short "Kap.";
    Locator(Place::Column) => Long "Spalte" / "Spalten", Short "Sp.";
    Locator(Place::Equation) => Long "equation" / "equations", Short "eq." / "eqs.";
    Locator(Place::Figure) => Long "Abbildung" / "Abbildungen", Short "Abb.";
    Locator(Place::Folio) => Long "Blatt" / "Blätter", Short "Fol.";
    Locator(Place::Issue) => Long "Nummer" / "Nummern", Short "Nr.";
    Locator(Place::Line) => Long "Zeile" / "Zeilen", Short "Z.";
    Locator(Place::Note) => Long "Note" / "Noten", Short "N.";
    Locator(Place::Opus) => Long "Opus" / "Opera", Short "op.";
    Locator(Place::Page) => Long "Seite" / "Seiten", Short "S.";
    Locator(Place::Paragraph) => Long "Absatz" / "Absätze", Short "Abs.", Symbol "¶" / "¶¶";
    Locator(Place::Part) => Long "Teil" / "Teile", Short "Teil";
    Locator(Place::Rule) => Long "rule" / "rules", Short "r." / "rr.";
    Locator(Place::Scene) => Long "scene" / "scenes", Short "sc." / "scs.";
    Locator(Place::Section) => Long "Abschnitt" / "Abschnitte", Short "Abschn.", Symbol "§" / "§§";
    Locator(Place::SubVerbo) => Long "sub verbo" / "sub verbis", Short "s.\u{a0}v." / "s.\u{a0}vv.";
    Locator(Place::Table) => Long "table" / "tables", Short "tbl." / "tbls.";
    Locator(Place::Timestamp) => Long "", Short "";
    Locator(Place::Verse) => Long "Vers" / "Verse", Short "V.";
    Locator(Place::Version) => Long "Version";
    Locator(Place::Volume) => Long "Band" / "Bände", Short "Bd." / "Bde.";
};

/// The other terms with a gender.
pub(crate) static GENDERED_TERMS: [GenderedTermRow; 0] = [];

/// The ordinals.
pub(crate) static ORDINALS: [OrdinalRow; 11] = [
    (OrdinalSlot::Default, None, None, "."),
    (OrdinalSlot::Long(1), None, None, "erster"),
    (OrdinalSlot::Long(2), None, None, "zweiter"),
    (OrdinalSlot::Long(3), None, None, "dritter"),
    (OrdinalSlot::Long(4), None, None, "vierter"),
    (OrdinalSlot::Long(5), None, None, "fünfter"),
    (OrdinalSlot::Long(6), None, None, "sechster"),
    (OrdinalSlot::Long(7), None, None, "siebter"),
    (OrdinalSlot::Long(8), None, None, "achter"),
    (OrdinalSlot::Long(9), None, None, "neunter"),
    (OrdinalSlot::Long(10), None, None, "zehnter"),
];

/// The date format in numbers.
pub(crate) static NUMERIC_DATE: [DatePartRow; 3] = [
    (
        DatePartName::Day,
        Some(NumericLeadingZeros),
        None,
        Some("."),
    ),
    (
        DatePartName::Month,
        Some(NumericLeadingZeros),
        None,
        Some("."),
    ),
    (DatePartName::Year, None, None, None),
];

/// The date format in words.
pub(crate) static TEXT_DATE: [DatePartRow; 3] = [
    (DatePartName::Day, Some(Ordinal), None, Some(" ")),
    (DatePartName::Month, None, None, Some(" ")),
    (DatePartName::Year, None, None, None),
];

/// What the locale of German holds.
pub(crate) fn german_tables() -> Tables
    ensures rows { contents_of_tables result ≡ german_contents }
    ensures words { map term_of_word result.words.now ≡ terms_of_words german_words }
{
    Tables {
        words: &WORDS,
        terms: &TERMS,
        gendered_terms: &GENDERED_TERMS,
        ordinals: &ORDINALS,
        numeric_date: &NUMERIC_DATE,
        text_date: &TEXT_DATE,
        punctuation_in_quote: false,
        limit_day_ordinals_to_day_1: false,
    }
}
