//! The names of variables (CSL 1.0.2, Appendix IV: Variables).

ghost use Rattle.std.specs.Prelude.{◌≡◌, ◌↔◌, Some};
ghost use Rattle.csl_elements.specs.VariableNames as spec;

use crate::taxonomy::{
    DateVariable, NameVariable, NumberVariable, PageVariable, StandardVariable, Variable,
};

/// The standard variables.
static STANDARD_VARIABLES: [StandardVariable; 47] = each! {
    StandardVariable:
    Abstract, Annote, Archive, ArchiveCollection, ArchiveLocation, ArchivePlace, Authority,
    CallNumber, CitationKey, CitationLabel, CollectionTitle, ContainerTitle, ContainerTitleShort,
    Dimensions, Division, DOI, Event, EventTitle, EventPlace, Genre, ISBN, ISSN, Jurisdiction,
    Keyword, Language, License, Medium, Note, OriginalPublisher, OriginalPublisherPlace,
    OriginalTitle, PartTitle, PMCID, PMID, Publisher, PublisherPlace, References, ReviewedGenre,
    ReviewedTitle, Scale, Source, Status, Title, TitleShort, URL, VolumeTitle, YearSuffix,
};

impl StandardVariable {
    /// The standard variable of this name, such as `container-title`, if there is one.
    pub fn from_name(name: &str) -> Option<StandardVariable>
        ensures { (variable : StandardVariable) → (result ≡ Some variable) ↔ (name.now
            ≡ spec.standard_name variable) }
    {
        STANDARD_VARIABLES
            .iter()
            .find(|standard| standard.name() == name)
            .copied()
    }

    /// Its name in CSL, such as `container-title`.
    pub fn name(&self) -> &'static str
        ensures { result.now ≡ spec.standard_name self.now }
    {
        names! {
            self of StandardVariable:
            Abstract "abstract", Annote "annote", Archive "archive",
            ArchiveCollection "archive_collection", ArchiveLocation "archive_location",
            ArchivePlace "archive-place", Authority "authority", CallNumber "call-number",
            CitationKey "citation-key", CitationLabel "citation-label",
            CollectionTitle "collection-title", ContainerTitle "container-title",
            ContainerTitleShort "container-title-short", Dimensions "dimensions",
            Division "division", DOI "DOI", Event "event", EventTitle "event-title",
            EventPlace "event-place", Genre "genre", ISBN "ISBN", ISSN "ISSN",
            Jurisdiction "jurisdiction", Keyword "keyword", Language "language", License "license",
            Medium "medium", Note "note", OriginalPublisher "original-publisher",
            OriginalPublisherPlace "original-publisher-place", OriginalTitle "original-title",
            PartTitle "part-title", PMCID "PMCID", PMID "PMID", Publisher "publisher",
            PublisherPlace "publisher-place", References "references",
            ReviewedGenre "reviewed-genre", ReviewedTitle "reviewed-title", Scale "scale",
            Source "source", Status "status", Title "title", TitleShort "title-short", URL "URL",
            VolumeTitle "volume-title", YearSuffix "year-suffix",
        }
    }
}

/// The number variables.
static NUMBER_VARIABLES: [NumberVariable; 17] = each! {
    NumberVariable:
    ChapterNumber, CitationNumber, CollectionNumber, Edition, FirstReferenceNoteNumber, Issue,
    Locator, Number, NumberOfPages, NumberOfVolumes, PageFirst, PartNumber, PrintingNumber, Section,
    SupplementNumber, Version, Volume,
};

impl NumberVariable {
    /// The number variable of this name, such as `volume`, if there is one.
    pub fn from_name(name: &str) -> Option<NumberVariable>
        ensures { (variable : NumberVariable) → (result ≡ Some variable) ↔ (name.now
            ≡ spec.number_name variable) }
    {
        NUMBER_VARIABLES
            .iter()
            .find(|number| number.name() == name)
            .copied()
    }

    /// Its name in CSL, such as `volume`.
    pub fn name(&self) -> &'static str
        ensures { result.now ≡ spec.number_name self.now }
    {
        names! {
            self of NumberVariable:
            ChapterNumber "chapter-number", CitationNumber "citation-number",
            CollectionNumber "collection-number", Edition "edition",
            FirstReferenceNoteNumber "first-reference-note-number", Issue "issue",
            Locator "locator", Number "number", NumberOfPages "number-of-pages",
            NumberOfVolumes "number-of-volumes", PageFirst "page-first", PartNumber "part-number",
            PrintingNumber "printing-number", Section "section",
            SupplementNumber "supplement-number", Version "version", Volume "volume",
        }
    }
}

/// The page variables.
static PAGE_VARIABLES: [PageVariable; 1] = [PageVariable::Page];

impl PageVariable {
    /// The page variable of this name, such as `page`, if there is one.
    pub fn from_name(name: &str) -> Option<PageVariable>
        ensures { (variable : PageVariable) → (result ≡ Some variable) ↔ (name.now
            ≡ spec.page_name variable) }
    {
        PAGE_VARIABLES
            .iter()
            .find(|page| page.name() == name)
            .copied()
    }

    /// Its name in CSL, such as `page`.
    pub fn name(&self) -> &'static str
        ensures { result.now ≡ spec.page_name self.now }
    {
        match self {
            PageVariable::Page => "page",
        }
    }
}

/// The date variables.
static DATE_VARIABLES: [DateVariable; 6] = each! {
    DateVariable:
    Accessed, AvailableDate, EventDate, Issued, OriginalDate, Submitted,
};

impl DateVariable {
    /// The date variable of this name, such as `issued`, if there is one.
    pub fn from_name(name: &str) -> Option<DateVariable>
        ensures { (variable : DateVariable) → (result ≡ Some variable) ↔ (name.now
            ≡ spec.date_name variable) }
    {
        DATE_VARIABLES
            .iter()
            .find(|date| date.name() == name)
            .copied()
    }

    /// Its name in CSL, such as `issued`.
    pub fn name(&self) -> &'static str
        ensures { result.now ≡ spec.date_name self.now }
    {
        names! {
            self of DateVariable:
            Accessed "accessed", AvailableDate "available-date", EventDate "event-date",
            Issued "issued", OriginalDate "original-date", Submitted "submitted",
        }
    }
}

/// The name variables.
pub(crate) static NAME_VARIABLES: [NameVariable; 27] = each! {
    NameVariable:
    Author, Chair, CollectionEditor, Compiler, Composer, ContainerAuthor, Contributor, Curator,
    Director, Editor, EditorialDirector, EditorTranslator, ExecutiveProducer, Guest, Host,
    Illustrator, Interviewer, Narrator, Organizer, OriginalAuthor, Performer, Producer, Recipient,
    ReviewedAuthor, ScriptWriter, SeriesCreator, Translator,
};

/// The name of a variable in the spelling of Appendix IV: `editor-translator` for the
/// `editortranslator` of published styles.
fn variable_spelling(name: &str) -> &str
    ensures { result.now ≡ spec.variable_spelling name.now }
{
    if name == "editortranslator" {
        "editor-translator"
    } else {
        name
    }
}

/// The name variable of this name in the spelling of Appendix IV.
fn name_variable(name: &str) -> Option<NameVariable>
    ensures { (variable : NameVariable) → (result ≡ Some variable) ↔ (name.now
        ≡ spec.name_variable_name variable) }
{
    NAME_VARIABLES
        .iter()
        .find(|variable| variable.name() == name)
        .copied()
}

impl NameVariable {
    /// The name variable of this name, such as `author`, if there is one. It may be spelled
    /// `editor-translator` or `editortranslator`.
    pub fn from_name(name: &str) -> Option<NameVariable>
        ensures { (variable : NameVariable) → (result ≡ Some variable)
            ↔ (spec.variable_spelling name.now ≡ spec.name_variable_name variable) }
    {
        name_variable(variable_spelling(name))
    }

    /// Its name in CSL, such as `author`.
    pub fn name(&self) -> &'static str
        ensures { result.now ≡ spec.name_variable_name self.now }
    {
        names! {
            self of NameVariable:
            Author "author", Chair "chair", CollectionEditor "collection-editor",
            Compiler "compiler", Composer "composer", ContainerAuthor "container-author",
            Contributor "contributor", Curator "curator", Director "director", Editor "editor",
            EditorialDirector "editorial-director", EditorTranslator "editor-translator",
            ExecutiveProducer "executive-producer", Guest "guest", Host "host",
            Illustrator "illustrator", Interviewer "interviewer", Narrator "narrator",
            Organizer "organizer", OriginalAuthor "original-author", Performer "performer",
            Producer "producer", Recipient "recipient", ReviewedAuthor "reviewed-author",
            ScriptWriter "script-writer", SeriesCreator "series-creator", Translator "translator",
        }
    }
}

impl Variable {
    /// The variable of this name, such as `container-title`, if there is one. A name variable may
    /// be spelled `editor-translator` or `editortranslator`.
    #[tactic(auto, using(crate::proofs::OneName::given_laws))]
    pub fn from_name(name: &str) -> Option<Variable>
        ensures { (variable : Variable) → (result ≡ Some variable)
            ↔ (spec.variable_spelling name.now ≡ spec.variable_name variable) }
    {
        let name = variable_spelling(name);
        if let Some(variable) = StandardVariable::from_name(name) {
            return Some(Variable::Standard(variable));
        }
        if let Some(variable) = NumberVariable::from_name(name) {
            return Some(Variable::Number(variable));
        }
        if let Some(variable) = PageVariable::from_name(name) {
            return Some(Variable::Page(variable));
        }
        if let Some(variable) = DateVariable::from_name(name) {
            return Some(Variable::Date(variable));
        }
        match name_variable(name) {
            Some(variable) => Some(Variable::Name(variable)),
            None => None,
        }
    }

    /// Its name in CSL, such as `container-title`.
    pub fn name(&self) -> &'static str
        ensures { result.now ≡ spec.variable_name self.now }
    {
        match self {
            Variable::Standard(variable) => variable.name(),
            Variable::Number(variable) => variable.name(),
            Variable::Page(variable) => variable.name(),
            Variable::Date(variable) => variable.name(),
            Variable::Name(variable) => variable.name(),
        }
    }
}
