//! Brazilian Portuguese, in the words of CSL's own locale `pt-BR` (CSL 1.0.2, Locale; Appendix II:
//! Terms).
//! Definitions: specs/Contents.antt, specs/Languages.antt, specs/Words.antt.

ghost use Rattle.std.specs.Prelude.{◌≡◌, map};
ghost use Rattle.csl_languages.specs.Contents.{contents_of_tables, term_of_word};
ghost use Rattle.csl_languages.specs.Languages.{brazilian_portuguese_contents};
ghost use Rattle.csl_languages.specs.Words.{terms_of_words, brazilian_portuguese_words};

use crate::words::{DatePartRow, GenderedTermRow, OrdinalRow, Tables, TermRow, WordRow};
use csl_elements::DateAnyForm::{NumericLeadingZeros, Ordinal};
use csl_elements::GrammarGender::{Feminine, Masculine};
use csl_elements::OrdinalMatch::WholeNumber;
use csl_elements::Term::{Locator, Name, Number, Other, Page};
use csl_elements::TermForm::{Long, Short, Symbol, Verb, VerbShort};
use csl_elements::{
    DatePartName, Locator as Place, NameVariable as Role, NumberVariable, OrdinalSlot,
    OtherTerm as Word, PageVariable, Season,
};

/// The words that most styles print.
pub(crate) static WORDS: [WordRow; 30] = words! {
    Word::And => Long "e";
    Word::EtAl => Long "et al.";
    Word::OpenQuote => Long "“";
    Word::CloseQuote => Long "”";
    Word::OpenInnerQuote => Long "‘";
    Word::CloseInnerQuote => Long "’";
    Word::Month(0) => Long "janeiro", Short "jan.";
    Word::Month(1) => Long "fevereiro", Short "fev.";
    Word::Month(2) => Long "março", Short "mar.";
    Word::Month(3) => Long "abril", Short "abr.";
    Word::Month(4) => Long "maio", Short "maio";
    Word::Month(5) => Long "junho", Short "jun.";
    Word::Month(6) => Long "julho", Short "jul.";
    Word::Month(7) => Long "agosto", Short "ago.";
    Word::Month(8) => Long "setembro", Short "set.";
    Word::Month(9) => Long "outubro", Short "out.";
    Word::Month(10) => Long "novembro", Short "nov.";
    Word::Month(11) => Long "dezembro", Short "dez.";
};

/// The other terms without a gender.
pub(crate) static TERMS: [TermRow; 174] = terms! {
    // Eras, seasons, and words in sentences.
    Other(Word::Ad) => Long "DC";
    Other(Word::Bc) => Long "AC";
    Other(Word::PageRangeDelimiter) => Long "–";
    Other(Word::Season(Season::Spring)) => Long "Primavera";
    Other(Word::Season(Season::Summer)) => Long "Verão";
    Other(Word::Season(Season::Autumn)) => Long "Outono";
    Other(Word::Season(Season::Winter)) => Long "Inverno";
    Other(Word::Accessed) => Long "acessado";
    Other(Word::AndOthers) => Long "e outros";
    Other(Word::Anonymous) => Long "anônimo", Short "anon";
    Other(Word::At) => Long "em";
    Other(Word::AvailableAt) => Long "disponível em";
    Other(Word::By) => Long "por";
    Other(Word::Circa) => Long "circa", Short "c.";
    Other(Word::Cited) => Long "citado";
    Other(Word::Forthcoming) => Long "a ser publicado";
    Other(Word::From) => Long "de";
    Other(Word::Ibid) => Long "ibidem";
    Other(Word::In) => Long "em";
    Other(Word::InPress) => Long "no prelo";
    Other(Word::Internet) => Long "internet";
    Other(Word::Interview) => Long "entrevista", Short "interv.";
    Other(Word::Letter) => Long "carta";
    Other(Word::NoDate) => Long "sem data", Short "[s.d.]";
    Other(Word::Online) => Long "online";
    Other(Word::PresentedAt) => Long "apresentado em";
    Other(Word::Reference) => Long "referência" / "referências", Short "ref." / "refs.";
    Other(Word::Retrieved) => Long "recuperado";
    Other(Word::Scale) => Long "escala";
    Other(Word::Version) => Long "versão";
    // The roles of persons.
    Name(Role::Chair) => Long "chair" / "chairs", Verb "chaired by";
    Name(Role::Compiler) => Long "compiler" / "compilers", Short "comp." / "comps.",
        Verb "compiled by", VerbShort "comp. by";
    Name(Role::ContainerAuthor) => Verb "por";
    Name(Role::Contributor) => Long "contributor" / "contributors", Short "contrib." / "contribs.",
        Verb "with", VerbShort "w.";
    Name(Role::Curator) => Long "curator" / "curators", Short "cur." / "curs.", Verb "curated by",
        VerbShort "cur. by";
    Name(Role::Director) => Long "diretor" / "diretores", Short "dir." / "dirs.",
        Verb "dirigido por", VerbShort "dir.";
    Name(Role::Editor) => Long "organizador" / "organizadores", Short "org." / "orgs.",
        Verb "organizado por", VerbShort "org.";
    Name(Role::EditorialDirector) => Long "editor" / "editores", Short "ed." / "eds.",
        Verb "editado por", VerbShort "ed.";
    Name(Role::EditorTranslator) => Long "editor e tradutor" / "editores e tradutores",
        Short "ed. e trad." / "eds. e trads.", Verb "editado e traduzido por",
        VerbShort "ed. e trad. por";
    Name(Role::ExecutiveProducer) => Long "executive producer" / "executive producers",
        Short "exec. prod." / "exec. prods.", Verb "executive produced by",
        VerbShort "exec. prod. by";
    Name(Role::Guest) => Long "guest" / "guests", Verb "with guest", VerbShort "w. guest";
    Name(Role::Host) => Long "host" / "hosts", Verb "hosted by", VerbShort "hosted by";
    Name(Role::Illustrator) => Long "ilustrador" / "ilustradores", Short "il." / "ils.",
        Verb "ilustrado por", VerbShort "ilus.";
    Name(Role::Interviewer) => Verb "entrevista de";
    Name(Role::Narrator) => Long "narrator" / "narrators", Short "narr." / "narrs.",
        Verb "narrated by", VerbShort "narr. by";
    Name(Role::Organizer) => Long "organizer" / "organizers", Short "org." / "orgs.",
        Verb "organized by", VerbShort "org. by";
    Name(Role::Performer) => Long "performer" / "performers", Short "perf." / "perfs.",
        Verb "performed by", VerbShort "perf. by";
    Name(Role::Producer) => Long "producer" / "producers", Short "prod." / "prods.",
        Verb "produced by", VerbShort "prod. by";
    Name(Role::Recipient) => Verb "para";
    Name(Role::ReviewedAuthor) => Verb "por";
    Name(Role::ScriptWriter) => Long "writer" / "writers", Short "writ." / "writs.",
        Verb "written by", VerbShort "writ. by";
    Name(Role::SeriesCreator) => Long "series creator" / "series creators", Short "cre." / "cres.",
        Verb "created by", VerbShort "cre. by";
    Name(Role::Translator) => Long "tradutor" / "tradutores", Short "trad." / "trads.",
        Verb "traduzido por", VerbShort "trad.";
    // Numbers and pages.
    Number(NumberVariable::Edition) => Long "edição" / "edições", Short "ed";
    Number(NumberVariable::Issue) => Long "número" / "números", Short "nº";
    Number(NumberVariable::NumberOfPages) => Long "página" / "páginas", Short "p.";
    Number(NumberVariable::Section) => Long "seção" / "seções", Short "seç.", Symbol "§" / "§§";
    Number(NumberVariable::Version) => Long "versão";
    Number(NumberVariable::Volume) => Long "volume" / "volumes", Short "vol." / "vols.";
    Page(PageVariable::Page) => Long "página" / "páginas", Short "p.";
    // Locators.
    Locator(Place::Act) => Long "act" / "acts";
    Locator(Place::Appendix) => Long "appendix" / "appendices", Short "app." / "apps.";
    Locator(Place::Book) => Long "livro" / "livros", Short "liv.";
    Locator(Place::Canon) => Long "canon" / "canons";
    Locator(Place::Chapter) => Long "capítulo" / "capítulos", Short "cap.";
    Locator(Place::Column) => Long "coluna" / "colunas", Short "col.";
    Locator(Place::Equation) => Long "equation" / "equations", Short "eq." / "eqs.";
    Locator(Place::Figure) => Long "figura" / "figuras", Short "fig.";
    Locator(Place::Folio) => Long "folio" / "folios", Short "f.";
    Locator(Place::Issue) => Long "número" / "números", Short "nº";
    Locator(Place::Line) => Long "linha" / "linhas", Short "l.";
    Locator(Place::Note) => Long "nota" / "notas", Short "n.";
    Locator(Place::Opus) => Long "opus" / "opera", Short "op.";
    Locator(Place::Page) => Long "página" / "páginas", Short "p.";
    Locator(Place::Paragraph) => Long "parágrafo" / "parágrafos", Short "parag.", Symbol "¶" / "¶¶";
    Locator(Place::Part) => Long "parte" / "partes", Short "pt.";
    Locator(Place::Rule) => Long "rule" / "rules", Short "r." / "rr.";
    Locator(Place::Scene) => Long "scene" / "scenes", Short "sc." / "scs.";
    Locator(Place::Section) => Long "seção" / "seções", Short "seç.", Symbol "§" / "§§";
    Locator(Place::SubVerbo) => Long "sub verbo" / "sub verbis", Short "s.v." / "s.vv.";
    Locator(Place::Table) => Long "table" / "tables", Short "tbl." / "tbls.";
    Locator(Place::Timestamp) => Long "", Short "";
    Locator(Place::Verse) => Long "verso" / "versos", Short "v." / "vv.";
    Locator(Place::Version) => Long "versão";
    Locator(Place::Volume) => Long "volume" / "volumes", Short "vol." / "vols.";
};

/// The other terms with a gender.
pub(crate) static GENDERED_TERMS: [GenderedTermRow; 0] = [];

/// The ordinals.
pub(crate) static ORDINALS: [OrdinalRow; 23] = [
    (OrdinalSlot::Default, None, None, "º"),
    (OrdinalSlot::Two(1), Some(WholeNumber), Some(Feminine), "ª"),
    (OrdinalSlot::Two(1), Some(WholeNumber), Some(Masculine), "º"),
    (OrdinalSlot::Long(1), None, Some(Masculine), "primeiro"),
    (OrdinalSlot::Long(2), None, Some(Masculine), "segundo"),
    (OrdinalSlot::Long(3), None, Some(Masculine), "terceiro"),
    (OrdinalSlot::Long(4), None, Some(Masculine), "quarto"),
    (OrdinalSlot::Long(5), None, Some(Masculine), "quinto"),
    (OrdinalSlot::Long(6), None, Some(Masculine), "sexto"),
    (OrdinalSlot::Long(7), None, Some(Masculine), "sétimo"),
    (OrdinalSlot::Long(8), None, Some(Masculine), "oitavo"),
    (OrdinalSlot::Long(9), None, Some(Masculine), "nono"),
    (OrdinalSlot::Long(10), None, Some(Masculine), "décimo"),
    (OrdinalSlot::Long(1), None, Some(Feminine), "primeira"),
    (OrdinalSlot::Long(2), None, Some(Feminine), "segunda"),
    (OrdinalSlot::Long(3), None, Some(Feminine), "terceira"),
    (OrdinalSlot::Long(4), None, Some(Feminine), "quarta"),
    (OrdinalSlot::Long(5), None, Some(Feminine), "quinta"),
    (OrdinalSlot::Long(6), None, Some(Feminine), "sexta"),
    (OrdinalSlot::Long(7), None, Some(Feminine), "sétima"),
    (OrdinalSlot::Long(8), None, Some(Feminine), "oitava"),
    (OrdinalSlot::Long(9), None, Some(Feminine), "nona"),
    (OrdinalSlot::Long(10), None, Some(Feminine), "décima"),
];

/// The date format in numbers.
pub(crate) static NUMERIC_DATE: [DatePartRow; 3] = [
    (
        DatePartName::Day,
        Some(NumericLeadingZeros),
        None,
        Some("/"),
    ),
    (
        DatePartName::Month,
        Some(NumericLeadingZeros),
        None,
        Some("/"),
    ),
    (DatePartName::Year, None, None, None),
];

/// The date format in words.
pub(crate) static TEXT_DATE: [DatePartRow; 3] = [
    (DatePartName::Day, Some(Ordinal), None, Some(" de ")),
    (DatePartName::Month, None, None, Some(" de ")),
    (DatePartName::Year, None, None, None),
];

/// What the locale of Brazilian Portuguese holds.
pub(crate) fn brazilian_portuguese_tables() -> Tables
    ensures rows { contents_of_tables result ≡ brazilian_portuguese_contents }
    ensures words { map term_of_word result.words.now ≡ terms_of_words brazilian_portuguese_words }
{
    Tables {
        words: &WORDS,
        terms: &TERMS,
        gendered_terms: &GENDERED_TERMS,
        ordinals: &ORDINALS,
        numeric_date: &NUMERIC_DATE,
        text_date: &TEXT_DATE,
        punctuation_in_quote: false,
        limit_day_ordinals_to_day_1: true,
    }
}
