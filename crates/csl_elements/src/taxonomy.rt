//! The variables that a style may use, and the kinds of entries (CSL 1.0.2, Appendix III: Types;
//! Appendix IV: Variables).

ghost use Rattle.std.specs.Prelude.{◌≡◌};
ghost use Rattle.csl_elements.specs.Taxonomy.{variable_of};
ghost use Rattle.csl_elements.specs.declared.taxonomy.NumberOrPageVariable.TheVariants as numbers_or_pages;
ghost use Rattle.csl_elements.specs.declared.taxonomy.Variable.TheVariants as variables;

pub(crate) mod all_variables;
mod kind_names;
mod locator_names;
pub(crate) mod variable_names;

/// A variable that holds a number.
#[derive(Clone, Copy, Debug, PartialEq, Eq, PartialOrd, Ord, Hash)]
pub enum NumberVariable {
    ChapterNumber,
    CitationNumber,
    CollectionNumber,
    Edition,
    FirstReferenceNoteNumber,
    Issue,
    Locator,
    Number,
    NumberOfPages,
    NumberOfVolumes,
    PageFirst,
    PartNumber,
    PrintingNumber,
    Section,
    SupplementNumber,
    Version,
    Volume,
}

/// A variable that holds pages.
#[derive(Clone, Copy, Debug, PartialEq, Eq, PartialOrd, Ord, Hash)]
pub enum PageVariable {
    Page,
}

/// A variable that holds a text.
#[derive(Clone, Copy, Debug, PartialEq, Eq, PartialOrd, Ord, Hash)]
pub enum StandardVariable {
    Abstract,
    Annote,
    Archive,
    ArchiveCollection,
    ArchiveLocation,
    ArchivePlace,
    Authority,
    CallNumber,
    CitationKey,
    CitationLabel,
    CollectionTitle,
    ContainerTitle,
    ContainerTitleShort,
    Dimensions,
    Division,
    DOI,
    Event,
    EventTitle,
    EventPlace,
    Genre,
    ISBN,
    ISSN,
    Jurisdiction,
    Keyword,
    Language,
    License,
    Medium,
    Note,
    OriginalPublisher,
    OriginalPublisherPlace,
    OriginalTitle,
    PartTitle,
    PMCID,
    PMID,
    Publisher,
    PublisherPlace,
    References,
    ReviewedGenre,
    ReviewedTitle,
    Scale,
    Source,
    Status,
    Title,
    TitleShort,
    URL,
    VolumeTitle,
    YearSuffix,
}

/// A variable that holds persons.
#[derive(Clone, Copy, Debug, PartialEq, Eq, PartialOrd, Ord, Hash)]
pub enum NameVariable {
    Author,
    Chair,
    CollectionEditor,
    Compiler,
    Composer,
    ContainerAuthor,
    Contributor,
    Curator,
    Director,
    Editor,
    EditorialDirector,
    EditorTranslator,
    ExecutiveProducer,
    Guest,
    Host,
    Illustrator,
    Interviewer,
    Narrator,
    Organizer,
    OriginalAuthor,
    Performer,
    Producer,
    Recipient,
    ReviewedAuthor,
    ScriptWriter,
    SeriesCreator,
    Translator,
}

/// A variable that holds a date.
#[derive(Clone, Copy, Debug, PartialEq, Eq, PartialOrd, Ord, Hash)]
pub enum DateVariable {
    Accessed,
    AvailableDate,
    EventDate,
    Issued,
    OriginalDate,
    Submitted,
}

/// A variable of any of the five types.
#[derive(Clone, Copy, Debug, PartialEq, Eq, PartialOrd, Ord, Hash)]
pub enum Variable {
    Standard(StandardVariable),
    Number(NumberVariable),
    Page(PageVariable),
    Date(DateVariable),
    Name(NameVariable),
}

/// A variable that a `cs:number` or a `cs:label` may have.
#[derive(Clone, Copy, Debug, PartialEq, Eq, PartialOrd, Ord, Hash)]
pub enum NumberOrPageVariable {
    Number(NumberVariable),
    Page(PageVariable),
}

impl From<StandardVariable> for Variable {
    ghost from_gives = { λ variable result. result ≡ variables.Standard variable };

    fn from(variable: StandardVariable) -> Variable {
        Variable::Standard(variable)
    }
}

impl From<NumberVariable> for Variable {
    ghost from_gives = { λ variable result. result ≡ variables.Number variable };

    fn from(variable: NumberVariable) -> Variable {
        Variable::Number(variable)
    }
}

impl From<PageVariable> for Variable {
    ghost from_gives = { λ variable result. result ≡ variables.Page variable };

    fn from(variable: PageVariable) -> Variable {
        Variable::Page(variable)
    }
}

impl From<DateVariable> for Variable {
    ghost from_gives = { λ variable result. result ≡ variables.Date variable };

    fn from(variable: DateVariable) -> Variable {
        Variable::Date(variable)
    }
}

impl From<NameVariable> for Variable {
    ghost from_gives = { λ variable result. result ≡ variables.Name variable };

    fn from(variable: NameVariable) -> Variable {
        Variable::Name(variable)
    }
}

impl From<NumberOrPageVariable> for Variable {
    ghost from_gives = { λ variable result. result ≡ variable_of variable };

    fn from(variable: NumberOrPageVariable) -> Variable {
        match variable {
            NumberOrPageVariable::Number(number) => Variable::Number(number),
            NumberOrPageVariable::Page(page) => Variable::Page(page),
        }
    }
}

impl From<NumberVariable> for NumberOrPageVariable {
    ghost from_gives = { λ variable result. result ≡ numbers_or_pages.Number variable };

    fn from(variable: NumberVariable) -> NumberOrPageVariable {
        NumberOrPageVariable::Number(variable)
    }
}

impl From<PageVariable> for NumberOrPageVariable {
    ghost from_gives = { λ variable result. result ≡ numbers_or_pages.Page variable };

    fn from(variable: PageVariable) -> NumberOrPageVariable {
        NumberOrPageVariable::Page(variable)
    }
}

/// The kind of a locator (CSL 1.0.2, Locators).
#[derive(Clone, Copy, Debug, PartialEq, Eq, PartialOrd, Ord, Hash)]
pub enum Locator {
    Act,
    Appendix,
    Book,
    Canon,
    Chapter,
    Column,
    Equation,
    Figure,
    Folio,
    Issue,
    Line,
    Note,
    Number,
    Opus,
    Page,
    Paragraph,
    Part,
    Rule,
    Scene,
    Section,
    SubVerbo,
    Supplement,
    Table,
    Timestamp,
    Verse,
    Version,
    Volume,
    /// A kind that only the locator's own text gives. A label prints no term for it.
    Custom,
}

/// The kind of an entry, as styles name it.
#[derive(Clone, Copy, Debug, PartialEq, Eq, PartialOrd, Ord, Hash)]
pub enum Kind {
    Article,
    ArticleJournal,
    ArticleMagazine,
    ArticleNewspaper,
    Bill,
    Book,
    Broadcast,
    Chapter,
    Classic,
    Collection,
    Dataset,
    Document,
    Entry,
    EntryDictionary,
    EntryEncyclopedia,
    Event,
    Figure,
    Graphic,
    Hearing,
    Interview,
    LegalCase,
    Legislation,
    Manuscript,
    Map,
    MotionPicture,
    MusicalScore,
    Pamphlet,
    PaperConference,
    Patent,
    Performance,
    Periodical,
    PersonalCommunication,
    Post,
    PostWeblog,
    Regulation,
    Report,
    Review,
    ReviewBook,
    Software,
    Song,
    Speech,
    Standard,
    Thesis,
    Treaty,
    Webpage,
}
