//! Italian, in the words of CSL's own locale `it-IT` (CSL 1.0.2, Locale; Appendix II: Terms).
//! Definitions: specs/Contents.antt, specs/Languages.antt, specs/Words.antt.

ghost use Rattle.std.specs.Prelude.{◌≡◌, map};
ghost use Rattle.csl_languages.specs.Contents.{contents_of_tables, term_of_word};
ghost use Rattle.csl_languages.specs.Languages.{italian_contents};
ghost use Rattle.csl_languages.specs.Words.{terms_of_words, italian_words};

use crate::words::{DatePartRow, GenderedTermRow, OrdinalRow, Tables, TermRow, WordRow};
use csl_elements::DateAnyForm::NumericLeadingZeros;
use csl_elements::GrammarGender::{Feminine, Masculine};
use csl_elements::Term::{Locator, Name, Number, Other, Page};
use csl_elements::TermForm::{Long, Short, Symbol, Verb, VerbShort};
use csl_elements::{
    DatePartName, Locator as Place, NameVariable as Role, NumberVariable, OrdinalSlot,
    OtherTerm as Word, PageVariable, Season,
};

/// The words that most styles print.
pub(crate) static WORDS: [WordRow; 30] = words! {
    Word::And => Long "e";
    Word::EtAl => Long "et al.";
    Word::OpenQuote => Long "«";
    Word::CloseQuote => Long "»";
    Word::OpenInnerQuote => Long "“";
    Word::CloseInnerQuote => Long "”";
    Word::Month(0) => Long "gennaio" of Masculine, Short "gen.";
    Word::Month(1) => Long "febbraio" of Masculine, Short "feb.";
    Word::Month(2) => Long "marzo" of Masculine, Short "mar.";
    Word::Month(3) => Long "aprile" of Masculine, Short "apr.";
    Word::Month(4) => Long "maggio" of Masculine, Short "mag.";
    Word::Month(5) => Long "giugno" of Masculine, Short "giu.";
    Word::Month(6) => Long "luglio" of Masculine, Short "lug.";
    Word::Month(7) => Long "agosto" of Masculine, Short "ago.";
    Word::Month(8) => Long "settembre" of Masculine, Short "set.";
    Word::Month(9) => Long "ottobre" of Masculine, Short "ott.";
    Word::Month(10) => Long "novembre" of Masculine, Short "nov.";
    Word::Month(11) => Long "dicembre" of Masculine, Short "dic.";
};

/// The other terms without a gender.
pub(crate) static TERMS: [TermRow; 171] = terms! {
    // Eras, seasons, and words in sentences.
    Other(Word::Ad) => Long "d.C.";
    Other(Word::Bc) => Long "a.C.";
    Other(Word::PageRangeDelimiter) => Long "–";
    Other(Word::Season(Season::Spring)) => Long "primavera";
    Other(Word::Season(Season::Summer)) => Long "estate";
    Other(Word::Season(Season::Autumn)) => Long "autunno";
    Other(Word::Season(Season::Winter)) => Long "inverno";
    Other(Word::Accessed) => Long "consultato";
    Other(Word::AndOthers) => Long "e altri";
    Other(Word::Anonymous) => Long "anonimo", Short "anon.";
    Other(Word::At) => Long "a";
    Other(Word::AvailableAt) => Long "disponibile su", Short "su";
    Other(Word::By) => Long "di";
    Other(Word::Circa) => Long "circa", Short "c.";
    Other(Word::Cited) => Long "citato";
    Other(Word::Forthcoming) => Long "in corso di pubblicazione";
    Other(Word::From) => Long "da";
    Other(Word::Ibid) => Long "ibidem", Short "ibid.";
    Other(Word::In) => Long "in";
    Other(Word::InPress) => Long "in stampa";
    Other(Word::Internet) => Long "internet";
    Other(Word::Interview) => Long "intervista", Short "interv.";
    Other(Word::Letter) => Long "lettera";
    Other(Word::NoDate) => Long "sine data", Short "s.d.";
    Other(Word::Online) => Long "online";
    Other(Word::PresentedAt) => Long "presentato al";
    Other(Word::Reference) => Long "riferimento" / "riferimenti", Short "rif.";
    Other(Word::Retrieved) => Long "recuperato";
    Other(Word::Scale) => Long "scala";
    Other(Word::Version) => Long "versione";
    // The roles of persons.
    Name(Role::Chair) => Long "presidente" / "presidenti", Verb "presieduto da";
    Name(Role::Compiler) => Long "compilatore" / "compilatori", Short "comp.", Verb "compilato da",
        VerbShort "comp. da";
    Name(Role::ContainerAuthor) => Verb "di";
    Name(Role::Contributor) => Long "collaboratore" / "collaboratori", Short "collab.",
        Verb "con un contributo di", VerbShort "con un contrib. di";
    Name(Role::Curator) => Long "curatore" / "curatori", Short "cur.", Verb "a cura di",
        VerbShort "a c. di";
    Name(Role::Director) => Long "regista" / "registi", Short "reg.", Verb "diretto da",
        VerbShort "dir. da";
    Name(Role::Editor) => Long "curatore" / "curatori", Short "a c. di", Verb "a cura di",
        VerbShort "a c. di";
    Name(Role::EditorialDirector) => Long "direttore editoriale" / "direttori editoriali",
        Short "dir. ed.", Verb "direzione editoriale di", VerbShort "dir. ed. di";
    Name(Role::EditorTranslator) => Long "curatore e traduttore" / "curatori e tradutori",
        Short "cur. e trad.", Verb "a cura di e tradotto da", VerbShort "a c. di e trad. da";
    Name(Role::ExecutiveProducer) => Long "produttore esecutivo" / "produttori esecutivi",
        Short "prod.es." / "prod. es.", Verb "produzione esecutiva di", VerbShort "prod. esec. di";
    Name(Role::Guest) => Long "ospite" / "ospiti", Verb "con ospite", VerbShort "con osp.";
    Name(Role::Host) => Long "conduttore" / "conduttori", Verb "condotto da", VerbShort "cond. da";
    Name(Role::Illustrator) => Long "illustratore" / "illustratori", Short "ill.",
        Verb "illustrato da", VerbShort "ill. da";
    Name(Role::Interviewer) => Verb "intervista di";
    Name(Role::Narrator) => Long "narratore" / "narratori", Short "narr.", Verb "narrato da",
        VerbShort "narr. da";
    Name(Role::Organizer) => Long "organizzatore" / "organizzatori", Short "org.",
        Verb "organizzato da", VerbShort "org. da";
    Name(Role::Performer) => Long "esecutore" / "esecutori", Short "esec.", Verb "esecuzione di",
        VerbShort "esec. di";
    Name(Role::Producer) => Long "produttore" / "produttori", Short "prod.", Verb "prodotto da",
        VerbShort "prod. da";
    Name(Role::Recipient) => Verb "a";
    Name(Role::ReviewedAuthor) => Verb "di";
    Name(Role::ScriptWriter) => Long "sceneggiatore" / "sceneggiatori", Short "scen.",
        Verb "scritto da", VerbShort "scr. da";
    Name(Role::SeriesCreator) => Long "autore della serie" / "autori della serie",
        Short "aut. d. serie", Verb "creato da", VerbShort "cre. da";
    Name(Role::Translator) => Long "traduttore" / "traduttori", Short "trad.", Verb "tradotto da",
        VerbShort "trad. da";
    // Numbers and pages.
    Number(NumberVariable::Edition) => Short "ed.";
    Number(NumberVariable::Issue) => Short "fasc.";
    Number(NumberVariable::NumberOfPages) => Long "pagina" / "pagine", Short "p." / "pp.";
    Number(NumberVariable::Section) => Long "sezione" / "sezioni", Short "sez.", Symbol "§" / "§§";
    Number(NumberVariable::Version) => Long "versione";
    Number(NumberVariable::Volume) => Short "vol." / "voll.";
    Page(PageVariable::Page) => Long "pagina" / "pagine", Short "p." / "pp.";
    // Locators.
    Locator(Place::Act) => Long "atto";
    Locator(Place::Appendix) => Long "appendice" / "appendici", Short "app.";
    Locator(Place::Book) => Long "libro" / "libri", Short "lib.";
    Locator(Place::Canon) => Long "canone" / "canoni";
    Locator(Place::Chapter) => Long "capitolo" / "capitoli", Short "cap." / "capp.";
    Locator(Place::Column) => Long "colonna" / "colonne", Short "col.";
    Locator(Place::Equation) => Long "equazione" / "equazioni", Short "eq.";
    Locator(Place::Figure) => Long "figura" / "figure", Short "fig.";
    Locator(Place::Folio) => Long "foglio" / "fogli", Short "fgl.";
    Locator(Place::Issue) => Short "fasc.";
    Locator(Place::Line) => Long "riga" / "righe", Short "r.";
    Locator(Place::Note) => Long "nota" / "note", Short "n.";
    Locator(Place::Opus) => Long "opera" / "opere", Short "op.";
    Locator(Place::Page) => Long "pagina" / "pagine", Short "p." / "pp.";
    Locator(Place::Paragraph) => Long "paragrafo" / "paragrafi", Short "par.", Symbol "¶" / "¶¶";
    Locator(Place::Part) => Long "parte" / "parti", Short "pt.";
    Locator(Place::Rule) => Long "regola" / "regole", Short "r.";
    Locator(Place::Scene) => Long "scena" / "scene", Short "sc.";
    Locator(Place::Section) => Long "sezione" / "sezioni", Short "sez.", Symbol "§" / "§§";
    Locator(Place::SubVerbo) => Long "sub verbo" / "sub verbis", Short "s.v." / "s.vv.";
    Locator(Place::Table) => Long "tavola" / "tavole", Short "tab.";
    Locator(Place::Timestamp) => Long "", Short "";
    Locator(Place::Verse) => Long "verso" / "versi", Short "v." / "vv.";
    Locator(Place::Version) => Long "versione";
    Locator(Place::Volume) => Short "vol." / "voll.";
};

/// The other terms with a gender.
pub(crate) static GENDERED_TERMS: [GenderedTermRow; 5] = gendered_terms! {
    Number(NumberVariable::Edition) => "edizione" / "edizioni" of Feminine;
    Number(NumberVariable::Issue) => "fascicolo" / "fascicoli" of Masculine;
    Number(NumberVariable::Volume) => "volume" / "volumi" of Masculine;
    Locator(Place::Issue) => "fascicolo" / "fascicoli" of Masculine;
    Locator(Place::Volume) => "volume" / "volumi" of Masculine;
};

/// The ordinals.
pub(crate) static ORDINALS: [OrdinalRow; 33] = [
    (OrdinalSlot::Default, None, None, "º"),
    (OrdinalSlot::Default, None, Some(Masculine), "º"),
    (OrdinalSlot::Default, None, Some(Feminine), "ª"),
    (OrdinalSlot::Long(1), None, None, "prima"),
    (OrdinalSlot::Long(1), None, Some(Masculine), "primo"),
    (OrdinalSlot::Long(1), None, Some(Feminine), "prima"),
    (OrdinalSlot::Long(2), None, None, "seconda"),
    (OrdinalSlot::Long(2), None, Some(Masculine), "secondo"),
    (OrdinalSlot::Long(2), None, Some(Feminine), "seconda"),
    (OrdinalSlot::Long(3), None, None, "terza"),
    (OrdinalSlot::Long(3), None, Some(Masculine), "terzo"),
    (OrdinalSlot::Long(3), None, Some(Feminine), "terza"),
    (OrdinalSlot::Long(4), None, None, "quarta"),
    (OrdinalSlot::Long(4), None, Some(Masculine), "quarto"),
    (OrdinalSlot::Long(4), None, Some(Feminine), "quarta"),
    (OrdinalSlot::Long(5), None, None, "quinta"),
    (OrdinalSlot::Long(5), None, Some(Masculine), "quinto"),
    (OrdinalSlot::Long(5), None, Some(Feminine), "quinta"),
    (OrdinalSlot::Long(6), None, None, "sesta"),
    (OrdinalSlot::Long(6), None, Some(Masculine), "sesto"),
    (OrdinalSlot::Long(6), None, Some(Feminine), "sesta"),
    (OrdinalSlot::Long(7), None, None, "settima"),
    (OrdinalSlot::Long(7), None, Some(Masculine), "settimo"),
    (OrdinalSlot::Long(7), None, Some(Feminine), "settima"),
    (OrdinalSlot::Long(8), None, None, "ottava"),
    (OrdinalSlot::Long(8), None, Some(Masculine), "ottavo"),
    (OrdinalSlot::Long(8), None, Some(Feminine), "ottava"),
    (OrdinalSlot::Long(9), None, None, "nona"),
    (OrdinalSlot::Long(9), None, Some(Masculine), "nono"),
    (OrdinalSlot::Long(9), None, Some(Feminine), "nona"),
    (OrdinalSlot::Long(10), None, None, "decima"),
    (OrdinalSlot::Long(10), None, Some(Masculine), "decimo"),
    (OrdinalSlot::Long(10), None, Some(Feminine), "decima"),
];

/// The date format in numbers.
pub(crate) static NUMERIC_DATE: [DatePartRow; 3] = [
    (
        DatePartName::Day,
        Some(NumericLeadingZeros),
        None,
        Some("/"),
    ),
    (
        DatePartName::Month,
        Some(NumericLeadingZeros),
        None,
        Some("/"),
    ),
    (DatePartName::Year, None, None, None),
];

/// The date format in words.
pub(crate) static TEXT_DATE: [DatePartRow; 3] = [
    (DatePartName::Day, None, None, Some(" ")),
    (DatePartName::Month, None, None, Some(" ")),
    (DatePartName::Year, None, None, None),
];

/// What the locale of Italian holds.
pub(crate) fn italian_tables() -> Tables
    ensures rows { contents_of_tables result ≡ italian_contents }
    ensures words { map term_of_word result.words.now ≡ terms_of_words italian_words }
{
    Tables {
        words: &WORDS,
        terms: &TERMS,
        gendered_terms: &GENDERED_TERMS,
        ordinals: &ORDINALS,
        numeric_date: &NUMERIC_DATE,
        text_date: &TEXT_DATE,
        punctuation_in_quote: false,
        limit_day_ordinals_to_day_1: false,
    }
}
