/// The type of a work.
#[derive(Clone, Copy, Debug, PartialEq, Eq, PartialOrd, Ord, Hash)]
pub enum EntryType {
    /// A short text, as in a journal.
    Article,
    /// A part of a work.
    Chapter,
    /// A short part of a reference work.
    Entry,
    /// A work in an anthology.
    Anthos,
    /// A report.
    Report,
    /// A thesis.
    Thesis,
    /// A web page or site.
    Web,
    /// A part of a show.
    Scene,
    /// A work of art.
    Artwork,
    /// A patent.
    Patent,
    /// A legal case.
    Case,
    /// An issue of a newspaper.
    Newspaper,
    /// A law, or a bill.
    Legislation,
    /// An unpublished text.
    Manuscript,
    /// A post on a microblog.
    Post,
    /// Anything else.
    Misc,
    /// A live performance.
    Performance,
    /// A journal or a magazine.
    Periodical,
    /// The published papers of a conference.
    Proceedings,
    /// A book.
    Book,
    /// A blog.
    Blog,
    /// A dictionary, an encyclopedia or the like.
    Reference,
    /// A conference.
    Conference,
    /// A collection of works.
    Anthology,
    /// A software repository.
    Repository,
    /// A discussion.
    Thread,
    /// A film or another video.
    Video,
    /// Music or another recording.
    Audio,
    /// An exhibition.
    Exhibition,
    /// The work that this one translates or reprints.
    Original,
}
