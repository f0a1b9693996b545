//! Spanish, in the words of CSL's own locale `es-ES` (CSL 1.0.2, Locale; Appendix II: Terms).
//! Definitions: specs/Contents.antt, specs/Languages.antt, specs/Words.antt.

ghost use Rattle.std.specs.Prelude.{◌≡◌, map};
ghost use Rattle.csl_languages.specs.Contents.{contents_of_tables, term_of_word};
ghost use Rattle.csl_languages.specs.Languages.{spanish_contents};
ghost use Rattle.csl_languages.specs.Words.{terms_of_words, spanish_words};

use crate::words::{DatePartRow, GenderedTermRow, OrdinalRow, Tables, TermRow, WordRow};
use csl_elements::DateAnyForm::NumericLeadingZeros;
use csl_elements::Term::{Locator, Name, Number, Other, Page};
use csl_elements::TermForm::{Long, Short, Symbol, Verb, VerbShort};
use csl_elements::{
    DatePartName, Locator as Place, NameVariable as Role, NumberVariable, OrdinalSlot,
    OtherTerm as Word, PageVariable, Season,
};

/// The words that most styles print.
pub(crate) static WORDS: [WordRow; 30] = words! {
    Word::And => Long "y";
    Word::EtAl => Long "et\u{a0}al.";
    Word::OpenQuote => Long "«";
    Word::CloseQuote => Long "»";
    Word::OpenInnerQuote => Long "“";
    Word::CloseInnerQuote => Long "”";
    Word::Month(0) => Long "enero", Short "ene.";
    Word::Month(1) => Long "febrero", Short "feb.";
    Word::Month(2) => Long "marzo", Short "mar.";
    Word::Month(3) => Long "abril", Short "abr.";
    Word::Month(4) => Long "mayo", Short "may";
    Word::Month(5) => Long "junio", Short "jun.";
    Word::Month(6) => Long "julio", Short "jul.";
    Word::Month(7) => Long "agosto", Short "ago.";
    Word::Month(8) => Long "septiembre", Short "sep.";
    Word::Month(9) => Long "octubre", Short "oct.";
    Word::Month(10) => Long "noviembre", Short "nov.";
    Word::Month(11) => Long "diciembre", Short "dic.";
};

/// The other terms without a gender.
pub(crate) static TERMS: [TermRow; 174] = terms! {
    // Eras, seasons, and words in sentences.
    Other(Word::Ad) => Long "d.\u{a0}C.";
    Other(Word::Bc) => Long "a.\u{a0}C.";
    Other(Word::PageRangeDelimiter) => Long "-";
    Other(Word::Season(Season::Spring)) => Long "primavera";
    Other(Word::Season(Season::Summer)) => Long "verano";
    Other(Word::Season(Season::Autumn)) => Long "otoño";
    Other(Word::Season(Season::Winter)) => Long "invierno";
    Other(Word::Accessed) => Long "accedido";
    Other(Word::AndOthers) => Long "y otros";
    Other(Word::Anonymous) => Long "anónimo", Short "anón.";
    Other(Word::At) => Long "en";
    Other(Word::AvailableAt) => Long "disponible en";
    Other(Word::By) => Long "de";
    Other(Word::Circa) => Long "circa", Short "c.";
    Other(Word::Cited) => Long "citado";
    Other(Word::Forthcoming) => Long "previsto";
    Other(Word::From) => Long "a partir de";
    Other(Word::Ibid) => Long "ibid.";
    Other(Word::In) => Long "en";
    Other(Word::InPress) => Long "en imprenta";
    Other(Word::Internet) => Long "internet";
    Other(Word::Interview) => Long "entrevista", Short "interv.";
    Other(Word::Letter) => Long "carta";
    Other(Word::NoDate) => Long "sin fecha", Short "s.\u{a0}f.";
    Other(Word::Online) => Long "en línea";
    Other(Word::PresentedAt) => Long "presentado en";
    Other(Word::Reference) => Long "referencia" / "referencias", Short "ref." / "refs.";
    Other(Word::Retrieved) => Long "recuperado";
    Other(Word::Scale) => Long "escala";
    Other(Word::Version) => Long "versión";
    // The roles of persons.
    Name(Role::Chair) => Long "chair" / "chairs", Verb "chaired by";
    Name(Role::Compiler) => Long "compiler" / "compilers", Short "comp." / "comps.",
        Verb "compiled by", VerbShort "comp. by";
    Name(Role::ContainerAuthor) => Verb "de";
    Name(Role::Contributor) => Long "contributor" / "contributors", Short "contrib." / "contribs.",
        Verb "with", VerbShort "w.";
    Name(Role::Curator) => Long "curator" / "curators", Short "cur." / "curs.", Verb "curated by",
        VerbShort "cur. by";
    Name(Role::Director) => Long "director" / "directores", Short "dir." / "dirs.",
        Verb "dirigido por", VerbShort "dir.";
    Name(Role::Editor) => Long "editor" / "editores", Short "ed." / "eds.", Verb "editado por",
        VerbShort "ed.";
    Name(Role::EditorialDirector) => Long "editor" / "editores", Short "ed." / "eds.",
        Verb "editado por", VerbShort "ed.";
    Name(Role::EditorTranslator) => Long "editor y traductor" / "editores y traductores",
        Short "ed. y trad." / "eds. y trads.", Verb "editado y traducido por",
        VerbShort "ed. y trad.";
    Name(Role::ExecutiveProducer) => Long "executive producer" / "executive producers",
        Short "exec. prod." / "exec. prods.", Verb "executive produced by",
        VerbShort "exec. prod. by";
    Name(Role::Guest) => Long "guest" / "guests", Verb "with guest", VerbShort "w. guest";
    Name(Role::Host) => Long "host" / "hosts", Verb "hosted by", VerbShort "hosted by";
    Name(Role::Illustrator) => Long "ilustrador" / "ilustradores", Short "ilust." / "ilusts.",
        Verb "ilustrado por", VerbShort "ilust.";
    Name(Role::Interviewer) => Verb "entrevistado por";
    Name(Role::Narrator) => Long "narrator" / "narrators", Short "narr." / "narrs.",
        Verb "narrated by", VerbShort "narr. by";
    Name(Role::Organizer) => Long "organizer" / "organizers", Short "org." / "orgs.",
        Verb "organized by", VerbShort "org. by";
    Name(Role::Performer) => Long "performer" / "performers", Short "perf." / "perfs.",
        Verb "performed by", VerbShort "perf. by";
    Name(Role::Producer) => Long "producer" / "producers", Short "prod." / "prods.",
        Verb "produced by", VerbShort "prod. by";
    Name(Role::Recipient) => Verb "a";
    Name(Role::ReviewedAuthor) => Verb "por";
    Name(Role::ScriptWriter) => Long "writer" / "writers", Short "writ." / "writs.",
        Verb "written by", VerbShort "writ. by";
    Name(Role::SeriesCreator) => Long "series creator" / "series creators", Short "cre." / "cres.",
        Verb "created by", VerbShort "cre. by";
    Name(Role::Translator) => Long "traductor" / "traductores", Short "trad." / "trads.",
        Verb "traducido por", VerbShort "trad.";
    // Numbers and pages.
    Number(NumberVariable::Edition) => Long "edición" / "ediciones", Short "ed.";
    Number(NumberVariable::Issue) => Long "número" / "números", Short "n.º";
    Number(NumberVariable::NumberOfPages) => Long "página" / "páginas", Short "p." / "pp.";
    Number(NumberVariable::Section) => Long "sección" / "secciones", Short "sec.", Symbol "§";
    Number(NumberVariable::Version) => Long "versión";
    Number(NumberVariable::Volume) => Long "volumen" / "volúmenes", Short "vol." / "vols.";
    Page(PageVariable::Page) => Long "página" / "páginas", Short "p." / "pp.";
    // Locators.
    Locator(Place::Act) => Long "act" / "acts";
    Locator(Place::Appendix) => Long "appendix" / "appendices", Short "app." / "apps.";
    Locator(Place::Book) => Long "libro" / "libros", Short "lib.";
    Locator(Place::Canon) => Long "canon" / "canons";
    Locator(Place::Chapter) => Long "capítulo" / "capítulos", Short "cap.";
    Locator(Place::Column) => Long "columna" / "columnas", Short "col.";
    Locator(Place::Equation) => Long "equation" / "equations", Short "eq." / "eqs.";
    Locator(Place::Figure) => Long "figura" / "figuras", Short "fig.";
    Locator(Place::Folio) => Long "folio" / "folios", Short "f.";
    Locator(Place::Issue) => Long "número" / "números", Short "n.º";
    Locator(Place::Line) => Long "línea" / "líneas", Short "l.";
    Locator(Place::Note) => Long "nota" / "notas", Short "n.";
    Locator(Place::Opus) => Long "opus" / "opera", Short "op.";
    Locator(Place::Page) => Long "página" / "páginas", Short "p." / "pp.";
    Locator(Place::Paragraph) => Long "párrafo" / "párrafos", Short "párr.", Symbol "§";
    Locator(Place::Part) => Long "parte" / "partes", Short "pt.";
    Locator(Place::Rule) => Long "rule" / "rules", Short "r." / "rr.";
    Locator(Place::Scene) => Long "scene" / "scenes", Short "sc." / "scs.";
    Locator(Place::Section) => Long "sección" / "secciones", Short "sec.", Symbol "§";
    Locator(Place::SubVerbo) => Long "sub voce" / "sub vocibus", Short "s.\u{a0}v." / "s.\u{a0}vv.";
    Locator(Place::Table) => Long "table" / "tables", Short "tbl." / "tbls.";
    Locator(Place::Timestamp) => Long "", Short "";
    Locator(Place::Verse) => Long "verso" / "versos", Short "v." / "vv.";
    Locator(Place::Version) => Long "versión";
    Locator(Place::Volume) => Long "volumen" / "volúmenes", Short "vol." / "vols.";
};

/// The other terms with a gender.
pub(crate) static GENDERED_TERMS: [GenderedTermRow; 0] = [];

/// The ordinals.
pub(crate) static ORDINALS: [OrdinalRow; 11] = [
    (OrdinalSlot::Default, None, None, ".ª"),
    (OrdinalSlot::Long(1), None, None, "primera"),
    (OrdinalSlot::Long(2), None, None, "segunda"),
    (OrdinalSlot::Long(3), None, None, "tercera"),
    (OrdinalSlot::Long(4), None, None, "cuarta"),
    (OrdinalSlot::Long(5), None, None, "quinta"),
    (OrdinalSlot::Long(6), None, None, "sexta"),
    (OrdinalSlot::Long(7), None, None, "séptima"),
    (OrdinalSlot::Long(8), None, None, "octava"),
    (OrdinalSlot::Long(9), None, None, "novena"),
    (OrdinalSlot::Long(10), None, None, "décima"),
];

/// The date format in numbers.
pub(crate) static NUMERIC_DATE: [DatePartRow; 3] = [
    (
        DatePartName::Day,
        Some(NumericLeadingZeros),
        None,
        Some("/"),
    ),
    (
        DatePartName::Month,
        Some(NumericLeadingZeros),
        None,
        Some("/"),
    ),
    (DatePartName::Year, None, None, None),
];

/// The date format in words.
pub(crate) static TEXT_DATE: [DatePartRow; 3] = [
    (DatePartName::Day, None, None, Some(" de ")),
    (DatePartName::Month, None, None, Some(" de ")),
    (DatePartName::Year, None, None, None),
];

/// What the locale of Spanish holds.
pub(crate) fn spanish_tables() -> Tables
    ensures rows { contents_of_tables result ≡ spanish_contents }
    ensures words { map term_of_word result.words.now ≡ terms_of_words spanish_words }
{
    Tables {
        words: &WORDS,
        terms: &TERMS,
        gendered_terms: &GENDERED_TERMS,
        ordinals: &ORDINALS,
        numeric_date: &NUMERIC_DATE,
        text_date: &TEXT_DATE,
        punctuation_in_quote: false,
        limit_day_ordinals_to_day_1: false,
    }
}
