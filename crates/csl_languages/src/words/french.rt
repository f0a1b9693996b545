//! French, in the words of CSL's own locale `fr-FR` (CSL 1.0.2, Locale; Appendix II: Terms).
//! Definitions: specs/Contents.antt, specs/Languages.antt, specs/Words.antt.

ghost use Rattle.std.specs.Prelude.{◌≡◌, map};
ghost use Rattle.csl_languages.specs.Contents.{contents_of_tables, term_of_word};
ghost use Rattle.csl_languages.specs.Languages.{french_contents};
ghost use Rattle.csl_languages.specs.Words.{terms_of_words, french_words};

use crate::words::{DatePartRow, GenderedTermRow, OrdinalRow, Tables, TermRow, WordRow};
use csl_elements::DateAnyForm::NumericLeadingZeros;
use csl_elements::GrammarGender::{Feminine, Masculine};
use csl_elements::OrdinalMatch::WholeNumber;
use csl_elements::Term::{Locator, Name, Number, Other, Page};
use csl_elements::TermForm::{Long, Short, Symbol, Verb, VerbShort};
use csl_elements::{
    DatePartName, Locator as Place, NameVariable as Role, NumberVariable, OrdinalSlot,
    OtherTerm as Word, PageVariable, Season,
};

/// The words that most styles print.
pub(crate) static WORDS: [WordRow; 30] = words! {
    Word::And => Long "et";
    Word::EtAl => Long "et al.";
    Word::OpenQuote => Long "«\u{a0}";
    Word::CloseQuote => Long "\u{a0}»";
    Word::OpenInnerQuote => Long "“";
    Word::CloseInnerQuote => Long "”";
    Word::Month(0) => Long "janvier" of Masculine, Short "janv.";
    Word::Month(1) => Long "février" of Masculine, Short "févr.";
    Word::Month(2) => Long "mars" of Masculine, Short "mars";
    Word::Month(3) => Long "avril" of Masculine, Short "avr.";
    Word::Month(4) => Long "mai" of Masculine, Short "mai";
    Word::Month(5) => Long "juin" of Masculine, Short "juin";
    Word::Month(6) => Long "juillet" of Masculine, Short "juill.";
    Word::Month(7) => Long "août" of Masculine, Short "août";
    Word::Month(8) => Long "septembre" of Masculine, Short "sept.";
    Word::Month(9) => Long "octobre" of Masculine, Short "oct.";
    Word::Month(10) => Long "novembre" of Masculine, Short "nov.";
    Word::Month(11) => Long "décembre" of Masculine, Short "déc.";
};

/// The other terms without a gender.
pub(crate) static TERMS: [TermRow; 169] = terms! {
    // Eras, seasons, and words in sentences.
    Other(Word::Ad) => Long "apr. J.-C.";
    Other(Word::Bc) => Long "av. J.-C.";
    Other(Word::PageRangeDelimiter) => Long "\u{2011}";
    Other(Word::Season(Season::Spring)) => Long "printemps";
    Other(Word::Season(Season::Summer)) => Long "été";
    Other(Word::Season(Season::Autumn)) => Long "automne";
    Other(Word::Season(Season::Winter)) => Long "hiver";
    Other(Word::Accessed) => Long "consulté le";
    Other(Word::AndOthers) => Long "et autres";
    Other(Word::Anonymous) => Long "anonyme", Short "anon.";
    Other(Word::At) => Long "sur";
    Other(Word::AvailableAt) => Long "disponible sur";
    Other(Word::By) => Long "par";
    Other(Word::Circa) => Long "vers", Short "v.";
    Other(Word::Cited) => Long "cité";
    Other(Word::Forthcoming) => Long "à paraître";
    Other(Word::From) => Long "à l'adresse";
    Other(Word::Ibid) => Long "ibid.";
    Other(Word::In) => Long "in";
    Other(Word::InPress) => Long "sous presse";
    Other(Word::Internet) => Long "Internet";
    Other(Word::Interview) => Long "entretien", Short "interv.";
    Other(Word::Letter) => Long "lettre";
    Other(Word::NoDate) => Long "sans date", Short "s.\u{a0}d.";
    Other(Word::Online) => Long "en ligne";
    Other(Word::PresentedAt) => Long "présenté à";
    Other(Word::Reference) => Long "référence" / "références", Short "réf.";
    Other(Word::Retrieved) => Long "consulté";
    Other(Word::Scale) => Long "échelle";
    Other(Word::Version) => Long "version";
    // The roles of persons.
    Name(Role::Chair) => Long "président" / "présidents", Verb "présidé par";
    Name(Role::Compiler) => Long "compilateur" / "compilateurs", Short "compil.",
        Verb "compilé par", VerbShort "compil. par";
    Name(Role::ContainerAuthor) => Verb "par";
    Name(Role::Contributor) => Long "contributeur" / "contributeurs", Short "contrib.", Verb "avec",
        VerbShort "ac";
    Name(Role::Curator) => Long "commissaire" / "commissaires", Short "commiss.",
        Verb "organisé par", VerbShort "org. par";
    Name(Role::Director) => Long "réalisateur" / "réalisateurs", Short "réal.", Verb "réalisé par",
        VerbShort "réal. par";
    Name(Role::Editor) => Long "éditeur" / "éditeurs", Short "éd.", Verb "édité par",
        VerbShort "éd. par";
    Name(Role::EditorialDirector) => Long "directeur" / "directeurs", Short "dir.",
        Verb "sous la direction de", VerbShort "ss la dir. de";
    Name(Role::EditorTranslator) => Long "éditeur et traducteur" / "éditeurs et traducteurs",
        Short "éd. et trad.", Verb "édité et traduit par", VerbShort "éd. et trad. par";
    Name(Role::ExecutiveProducer) => Long "producteur exécutif" / "producteurs exécutifs",
        Short "prod. exé.", Verb "production exécutive par", VerbShort "prod. exé. par";
    Name(Role::Guest) => Long "invité" / "invités", Verb "avec pour invité", VerbShort "ac pr inv.";
    Name(Role::Host) => Long "hôte" / "hôtes", Verb "animé par", VerbShort "anim. par";
    Name(Role::Illustrator) => Long "illustrateur" / "illustrateurs", Short "ill.",
        Verb "illustré par", VerbShort "ill. par";
    Name(Role::Interviewer) => Verb "entretien réalisé par";
    Name(Role::Narrator) => Long "narrateur" / "narrateurs", Short "narr.", Verb "lu par",
        VerbShort "lu par";
    Name(Role::Organizer) => Long "organisateur" / "organisateurs", Short "org.",
        Verb "organisé par", VerbShort "org. par";
    Name(Role::Performer) => Long "interprète" / "interprètes", Short "interpr.",
        Verb "interprété par", VerbShort "interpr. par";
    Name(Role::Producer) => Long "producteur" / "producteurs", Short "prod.", Verb "produit par",
        VerbShort "prod. par";
    Name(Role::Recipient) => Verb "à";
    Name(Role::ReviewedAuthor) => Verb "par";
    Name(Role::ScriptWriter) => Long "scénariste" / "scénaristes", Short "scénar.",
        Verb "scénario de", VerbShort "scénar. de";
    Name(Role::SeriesCreator) => Long "créateur de série" / "créateurs de série", Short "créat.",
        Verb "créé par", VerbShort "créé par";
    Name(Role::Translator) => Long "traducteur" / "traducteurs", Short "trad.", Verb "traduit par",
        VerbShort "trad. par";
    // Numbers and pages.
    Number(NumberVariable::Edition) => Short "éd.";
    Number(NumberVariable::Issue) => Short "nᵒ" / "nᵒˢ";
    Number(NumberVariable::NumberOfPages) => Long "page" / "pages", Short "p.";
    Number(NumberVariable::Section) => Long "section" / "sections", Short "sect.", Symbol "§";
    Number(NumberVariable::Version) => Long "version";
    Number(NumberVariable::Volume) => Short "vol.";
    Page(PageVariable::Page) => Long "page" / "pages", Short "p.";
    // Locators.
    Locator(Place::Act) => Long "acte" / "actes";
    Locator(Place::Appendix) => Long "appendice" / "appendices", Short "append.";
    Locator(Place::Book) => Long "livre" / "livres", Short "liv.";
    Locator(Place::Canon) => Long "canon" / "canons";
    Locator(Place::Chapter) => Long "chapitre" / "chapitres", Short "chap.";
    Locator(Place::Column) => Long "colonne" / "colonnes", Short "col.";
    Locator(Place::Equation) => Long "équation" / "équations", Short "eq.";
    Locator(Place::Figure) => Long "figure" / "figures", Short "fig.";
    Locator(Place::Folio) => Long "folio" / "folios", Short "fᵒ" / "fᵒˢ";
    Locator(Place::Issue) => Short "nᵒ" / "nᵒˢ";
    Locator(Place::Line) => Long "ligne" / "lignes", Short "l.";
    Locator(Place::Note) => Long "note" / "notes", Short "n.";
    Locator(Place::Opus) => Long "opus", Short "op.";
    Locator(Place::Page) => Long "page" / "pages", Short "p.";
    Locator(Place::Paragraph) => Long "paragraphe" / "paragraphes", Short "paragr.", Symbol "§";
    Locator(Place::Part) => Long "partie" / "parties", Short "part.";
    Locator(Place::Rule) => Long "règle" / "règles", Short "règle" / "règles";
    Locator(Place::Scene) => Long "scène" / "scènes", Short "sc.";
    Locator(Place::Section) => Long "section" / "sections", Short "sect.", Symbol "§";
    Locator(Place::SubVerbo) => Long "sub verbo" / "sub verbis", Short "s.\u{a0}v." / "s.\u{a0}vv.";
    Locator(Place::Table) => Long "tableau" / "tableaux", Short "tab.";
    Locator(Place::Timestamp) => Long "", Short "";
    Locator(Place::Verse) => Long "verset" / "versets", Short "v.";
    Locator(Place::Version) => Long "version";
    Locator(Place::Volume) => Short "vol.";
};

/// The other terms with a gender.
pub(crate) static GENDERED_TERMS: [GenderedTermRow; 5] = gendered_terms! {
    Number(NumberVariable::Edition) => "édition" / "éditions" of Feminine;
    Number(NumberVariable::Issue) => "numéro" / "numéros" of Masculine;
    Number(NumberVariable::Volume) => "volume" / "volumes" of Masculine;
    Locator(Place::Issue) => "numéro" / "numéros" of Masculine;
    Locator(Place::Volume) => "volume" / "volumes" of Masculine;
};

/// The ordinals.
pub(crate) static ORDINALS: [OrdinalRow; 13] = [
    (OrdinalSlot::Default, None, None, "ᵉ"),
    (OrdinalSlot::Two(1), Some(WholeNumber), Some(Feminine), "ʳᵉ"),
    (
        OrdinalSlot::Two(1),
        Some(WholeNumber),
        Some(Masculine),
        "ᵉʳ",
    ),
    (OrdinalSlot::Long(1), None, None, "premier"),
    (OrdinalSlot::Long(2), None, None, "deuxième"),
    (OrdinalSlot::Long(3), None, None, "troisième"),
    (OrdinalSlot::Long(4), None, None, "quatrième"),
    (OrdinalSlot::Long(5), None, None, "cinquième"),
    (OrdinalSlot::Long(6), None, None, "sixième"),
    (OrdinalSlot::Long(7), None, None, "septième"),
    (OrdinalSlot::Long(8), None, None, "huitième"),
    (OrdinalSlot::Long(9), None, None, "neuvième"),
    (OrdinalSlot::Long(10), None, None, "dixième"),
];

/// The date format in numbers.
pub(crate) static NUMERIC_DATE: [DatePartRow; 3] = [
    (
        DatePartName::Day,
        Some(NumericLeadingZeros),
        None,
        Some("/"),
    ),
    (
        DatePartName::Month,
        Some(NumericLeadingZeros),
        None,
        Some("/"),
    ),
    (DatePartName::Year, None, None, None),
];

/// The date format in words.
pub(crate) static TEXT_DATE: [DatePartRow; 3] = [
    (DatePartName::Day, None, None, Some(" ")),
    (DatePartName::Month, None, None, Some(" ")),
    (DatePartName::Year, None, None, None),
];

/// What the locale of French holds.
pub(crate) fn french_tables() -> Tables
    ensures rows { contents_of_tables result ≡ french_contents }
    ensures words { map term_of_word result.words.now ≡ terms_of_words french_words }
{
    Tables {
        words: &WORDS,
        terms: &TERMS,
        gendered_terms: &GENDERED_TERMS,
        ordinals: &ORDINALS,
        numeric_date: &NUMERIC_DATE,
        text_date: &TEXT_DATE,
        punctuation_in_quote: false,
        limit_day_ordinals_to_day_1: true,
    }
}
