//! Dutch, in the words of CSL's own locale `nl-NL` (CSL 1.0.2, Locale; Appendix II: Terms).
//! Definitions: specs/Contents.antt, specs/Languages.antt, specs/Words.antt.

ghost use Rattle.std.specs.Prelude.{◌≡◌, map};
ghost use Rattle.csl_languages.specs.Contents.{contents_of_tables, term_of_word};
ghost use Rattle.csl_languages.specs.Languages.{dutch_contents};
ghost use Rattle.csl_languages.specs.Words.{terms_of_words, dutch_words};

use crate::words::{DatePartRow, GenderedTermRow, OrdinalRow, Tables, TermRow, WordRow};
use csl_elements::DateAnyForm::Numeric;
use csl_elements::OrdinalMatch::{LastTwoDigits, WholeNumber};
use csl_elements::Term::{Locator, Name, Number, Other, Page};
use csl_elements::TermForm::{Long, Short, Symbol, Verb, VerbShort};
use csl_elements::{
    DatePartName, Locator as Place, NameVariable as Role, NumberVariable, OrdinalSlot,
    OtherTerm as Word, PageVariable, Season,
};

/// The words that most styles print.
pub(crate) static WORDS: [WordRow; 30] = words! {
    Word::And => Long "en";
    Word::EtAl => Long "e.a.";
    Word::OpenQuote => Long "‘";
    Word::CloseQuote => Long "’";
    Word::OpenInnerQuote => Long "“";
    Word::CloseInnerQuote => Long "”";
    Word::Month(0) => Long "januari", Short "jan.";
    Word::Month(1) => Long "februari", Short "feb.";
    Word::Month(2) => Long "maart", Short "mrt.";
    Word::Month(3) => Long "april", Short "apr.";
    Word::Month(4) => Long "mei", Short "mei";
    Word::Month(5) => Long "juni", Short "jun.";
    Word::Month(6) => Long "juli", Short "jul.";
    Word::Month(7) => Long "augustus", Short "aug.";
    Word::Month(8) => Long "september", Short "sep.";
    Word::Month(9) => Long "oktober", Short "okt.";
    Word::Month(10) => Long "november", Short "nov.";
    Word::Month(11) => Long "december", Short "dec.";
};

/// The other terms without a gender.
pub(crate) static TERMS: [TermRow; 174] = terms! {
    // Eras, seasons, and words in sentences.
    Other(Word::Ad) => Long "AD";
    Other(Word::Bc) => Long "BC";
    Other(Word::PageRangeDelimiter) => Long "–";
    Other(Word::Season(Season::Spring)) => Long "lente";
    Other(Word::Season(Season::Summer)) => Long "zomer";
    Other(Word::Season(Season::Autumn)) => Long "herst";
    Other(Word::Season(Season::Winter)) => Long "winter";
    Other(Word::Accessed) => Long "geraadpleegd";
    Other(Word::AndOthers) => Long "en anderen";
    Other(Word::Anonymous) => Long "anoniem", Short "anon.";
    Other(Word::At) => Long "bij";
    Other(Word::AvailableAt) => Long "beschikbaar op";
    Other(Word::By) => Long "door";
    Other(Word::Circa) => Long "circa", Short "c.";
    Other(Word::Cited) => Long "geciteerd";
    Other(Word::Forthcoming) => Long "in voorbereiding";
    Other(Word::From) => Long "van";
    Other(Word::Ibid) => Long "ibid.";
    Other(Word::In) => Long "in";
    Other(Word::InPress) => Long "in druk";
    Other(Word::Internet) => Long "internet";
    Other(Word::Interview) => Long "interview", Short "interv.";
    Other(Word::Letter) => Long "brief";
    Other(Word::NoDate) => Long "zonder datum", Short "z.d.";
    Other(Word::Online) => Long "online";
    Other(Word::PresentedAt) => Long "gepresenteerd bij";
    Other(Word::Reference) => Long "referentie" / "referenties", Short "ref." / "refs.";
    Other(Word::Retrieved) => Long "geraadpleegd";
    Other(Word::Scale) => Long "schaal";
    Other(Word::Version) => Long "versie";
    // The roles of persons.
    Name(Role::Chair) => Long "chair" / "chairs", Verb "chaired by";
    Name(Role::Compiler) => Long "compiler" / "compilers", Short "comp." / "comps.",
        Verb "compiled by", VerbShort "comp. by";
    Name(Role::ContainerAuthor) => Verb "door";
    Name(Role::Contributor) => Long "contributor" / "contributors", Short "contrib." / "contribs.",
        Verb "with", VerbShort "w.";
    Name(Role::Curator) => Long "curator" / "curators", Short "cur." / "curs.", Verb "curated by",
        VerbShort "cur. by";
    Name(Role::Director) => Long "regisseur" / "regisseurs", Short "reg.", Verb "geregisseerd door",
        VerbShort "geregisseerd door";
    Name(Role::Editor) => Long "redacteur" / "redacteuren", Short "red.", Verb "onder redactie van",
        VerbShort "onder redactie van";
    Name(Role::EditorialDirector) => Long "redacteur" / "redacteuren", Short "red.",
        Verb "onder redactie van", VerbShort "bewerkt door";
    Name(Role::EditorTranslator) => Long "redacteur & vertaler" / "redacteuren & vertalers",
        Short "red. & vert.", Verb "bewerkt & vertaald door", VerbShort "bewerkt & vertaald door";
    Name(Role::ExecutiveProducer) => Long "executive producer" / "executive producers",
        Short "exec. prod." / "exec. prods.", Verb "executive produced by",
        VerbShort "exec. prod. by";
    Name(Role::Guest) => Long "guest" / "guests", Verb "with guest", VerbShort "w. guest";
    Name(Role::Host) => Long "host" / "hosts", Verb "hosted by", VerbShort "hosted by";
    Name(Role::Illustrator) => Long "illustrator" / "illustrators", Short "ill.",
        Verb "geïllustreerd door", VerbShort "geïllustreerd door";
    Name(Role::Interviewer) => Verb "geïnterviewd door";
    Name(Role::Narrator) => Long "narrator" / "narrators", Short "narr." / "narrs.",
        Verb "narrated by", VerbShort "narr. by";
    Name(Role::Organizer) => Long "organizer" / "organizers", Short "org." / "orgs.",
        Verb "organized by", VerbShort "org. by";
    Name(Role::Performer) => Long "performer" / "performers", Short "perf." / "perfs.",
        Verb "performed by", VerbShort "perf. by";
    Name(Role::Producer) => Long "producer" / "producers", Short "prod." / "prods.",
        Verb "produced by", VerbShort "prod. by";
    Name(Role::Recipient) => Verb "ontvangen door";
    Name(Role::ReviewedAuthor) => Verb "door";
    Name(Role::ScriptWriter) => Long "writer" / "writers", Short "writ." / "writs.",
        Verb "written by", VerbShort "writ. by";
    Name(Role::SeriesCreator) => Long "series creator" / "series creators", Short "cre." / "cres.",
        Verb "created by", VerbShort "cre. by";
    Name(Role::Translator) => Long "vertaler" / "vertalers", Short "vert.", Verb "vertaald door",
        VerbShort "vertaald door";
    // Numbers and pages.
    Number(NumberVariable::Edition) => Long "druk" / "drukken", Short "dr.";
    Number(NumberVariable::Issue) => Long "nummer" / "nummers", Short "nr.";
    Number(NumberVariable::NumberOfPages) => Long "pagina" / "pagina's", Short "p." / "pp.";
    Number(NumberVariable::Section) => Long "sectie" / "secties", Short "sec.", Symbol "§" / "§§";
    Number(NumberVariable::Version) => Long "versie";
    Number(NumberVariable::Volume) => Long "volume" / "volumes", Short "vol." / "vols.";
    Page(PageVariable::Page) => Long "pagina" / "pagina's", Short "p." / "pp.";
    // Locators.
    Locator(Place::Act) => Long "act" / "acts";
    Locator(Place::Appendix) => Long "appendix" / "appendices", Short "app." / "apps.";
    Locator(Place::Book) => Long "boek" / "boeken", Short "bk.";
    Locator(Place::Canon) => Long "canon" / "canons";
    Locator(Place::Chapter) => Long "hoofdstuk" / "hoofdstukken", Short "hfdst.";
    Locator(Place::Column) => Long "column" / "columns", Short "col.";
    Locator(Place::Equation) => Long "equation" / "equations", Short "eq." / "eqs.";
    Locator(Place::Figure) => Long "figuur" / "figuren", Short "fig.";
    Locator(Place::Folio) => Long "folio" / "folio's", Short "f.";
    Locator(Place::Issue) => Long "nummer" / "nummers", Short "nr.";
    Locator(Place::Line) => Long "regel" / "regels", Short "l.";
    Locator(Place::Note) => Long "aantekening" / "aantekeningen", Short "n.";
    Locator(Place::Opus) => Long "opus" / "opera", Short "op.";
    Locator(Place::Page) => Long "pagina" / "pagina's", Short "p." / "pp.";
    Locator(Place::Paragraph) => Long "paragraaf" / "paragrafen", Short "par.", Symbol "¶" / "¶¶";
    Locator(Place::Part) => Long "deel" / "delen", Short "deel";
    Locator(Place::Rule) => Long "rule" / "rules", Short "r." / "rr.";
    Locator(Place::Scene) => Long "scene" / "scenes", Short "sc." / "scs.";
    Locator(Place::Section) => Long "sectie" / "secties", Short "sec.", Symbol "§" / "§§";
    Locator(Place::SubVerbo) => Long "sub verbo" / "sub verbis", Short "s.v." / "s.vv.";
    Locator(Place::Table) => Long "table" / "tables", Short "tbl." / "tbls.";
    Locator(Place::Timestamp) => Long "", Short "";
    Locator(Place::Verse) => Long "vers" / "versen", Short "v." / "vv.";
    Locator(Place::Version) => Long "versie";
    Locator(Place::Volume) => Long "volume" / "volumes", Short "vol." / "vols.";
};

/// The other terms with a gender.
pub(crate) static GENDERED_TERMS: [GenderedTermRow; 0] = [];

/// The ordinals.
pub(crate) static ORDINALS: [OrdinalRow; 29] = [
    (OrdinalSlot::Default, None, None, "ste"),
    (OrdinalSlot::Two(0), Some(WholeNumber), None, "de"),
    (OrdinalSlot::Two(2), Some(LastTwoDigits), None, "de"),
    (OrdinalSlot::Two(3), Some(LastTwoDigits), None, "de"),
    (OrdinalSlot::Two(4), Some(LastTwoDigits), None, "de"),
    (OrdinalSlot::Two(5), Some(LastTwoDigits), None, "de"),
    (OrdinalSlot::Two(6), Some(LastTwoDigits), None, "de"),
    (OrdinalSlot::Two(7), Some(LastTwoDigits), None, "de"),
    (OrdinalSlot::Two(9), Some(LastTwoDigits), None, "de"),
    (OrdinalSlot::Two(10), None, None, "de"),
    (OrdinalSlot::Two(11), None, None, "de"),
    (OrdinalSlot::Two(12), None, None, "de"),
    (OrdinalSlot::Two(13), None, None, "de"),
    (OrdinalSlot::Two(14), None, None, "de"),
    (OrdinalSlot::Two(15), None, None, "de"),
    (OrdinalSlot::Two(16), None, None, "de"),
    (OrdinalSlot::Two(17), None, None, "de"),
    (OrdinalSlot::Two(18), None, None, "de"),
    (OrdinalSlot::Two(19), None, None, "de"),
    (OrdinalSlot::Long(1), None, None, "eerste"),
    (OrdinalSlot::Long(2), None, None, "tweede"),
    (OrdinalSlot::Long(3), None, None, "derde"),
    (OrdinalSlot::Long(4), None, None, "vierde"),
    (OrdinalSlot::Long(5), None, None, "vijfde"),
    (OrdinalSlot::Long(6), None, None, "zesde"),
    (OrdinalSlot::Long(7), None, None, "zevende"),
    (OrdinalSlot::Long(8), None, None, "achtste"),
    (OrdinalSlot::Long(9), None, None, "negende"),
    (OrdinalSlot::Long(10), None, None, "tiende"),
];

/// The date format in numbers.
pub(crate) static NUMERIC_DATE: [DatePartRow; 3] = [
    (DatePartName::Day, None, None, Some("-")),
    (DatePartName::Month, Some(Numeric), None, Some("-")),
    (DatePartName::Year, None, None, None),
];

/// The date format in words.
pub(crate) static TEXT_DATE: [DatePartRow; 3] = [
    (DatePartName::Day, None, None, Some(" ")),
    (DatePartName::Month, None, None, Some(" ")),
    (DatePartName::Year, None, None, None),
];

/// What the locale of Dutch holds.
pub(crate) fn dutch_tables() -> Tables
    ensures rows { contents_of_tables result ≡ dutch_contents }
    ensures words { map term_of_word result.words.now ≡ terms_of_words dutch_words }
{
    Tables {
        words: &WORDS,
        terms: &TERMS,
        gendered_terms: &GENDERED_TERMS,
        ordinals: &ORDINALS,
        numeric_date: &NUMERIC_DATE,
        text_date: &TEXT_DATE,
        punctuation_in_quote: false,
        limit_day_ordinals_to_day_1: false,
    }
}
