//! All variables (CSL 1.0.2, Appendix IV: Variables).

use crate::taxonomy::{
    DateVariable, NameVariable, NumberVariable, PageVariable, StandardVariable, Variable,
};

/// A list of variables of several sorts.
macro_rules! all {
    ($($sort:ident of $type:ident: $($variable:ident),+;)+) => {
        [$($(Variable::$sort($type::$variable),)+)+]
    };
}

/// All variables, in their order.
pub(crate) static VARIABLES: [Variable; 98] = all! {
    Standard of StandardVariable:
    Abstract, Annote, Archive, ArchiveCollection, ArchiveLocation, ArchivePlace, Authority,
    CallNumber, CitationKey, CitationLabel, CollectionTitle, ContainerTitle, ContainerTitleShort,
    Dimensions, Division, DOI, Event, EventTitle, EventPlace, Genre, ISBN, ISSN, Jurisdiction,
    Keyword, Language, License, Medium, Note, OriginalPublisher, OriginalPublisherPlace,
    OriginalTitle, PartTitle, PMCID, PMID, Publisher, PublisherPlace, References, ReviewedGenre,
    ReviewedTitle, Scale, Source, Status, Title, TitleShort, URL, VolumeTitle, YearSuffix;
    Number of NumberVariable:
    ChapterNumber, CitationNumber, CollectionNumber, Edition, FirstReferenceNoteNumber, Issue,
    Locator, Number, NumberOfPages, NumberOfVolumes, PageFirst, PartNumber, PrintingNumber, Section,
    SupplementNumber, Version, Volume;
    Page of PageVariable:
    Page;
    Date of DateVariable:
    Accessed, AvailableDate, EventDate, Issued, OriginalDate, Submitted;
    Name of NameVariable:
    Author, Chair, CollectionEditor, Compiler, Composer, ContainerAuthor, Contributor, Curator,
    Director, Editor, EditorialDirector, EditorTranslator, ExecutiveProducer, Guest, Host,
    Illustrator, Interviewer, Narrator, Organizer, OriginalAuthor, Performer, Producer, Recipient,
    ReviewedAuthor, ScriptWriter, SeriesCreator, Translator;
};
