//! The names of kinds (CSL 1.0.2, Appendix III: Types).
//! Definitions: specs/Taxonomy.antt.

ghost use Rattle.std.specs.Prelude.{◌≡◌, ◌↔◌, Some};
ghost use Rattle.csl_elements.specs.Taxonomy.{name_of};

use crate::taxonomy::Kind;

/// The kinds.
static KINDS: [Kind; 45] = each! {
    Kind:
    Article, ArticleJournal, ArticleMagazine, ArticleNewspaper, Bill, Book, Broadcast, Chapter,
    Classic, Collection, Dataset, Document, Entry, EntryDictionary, EntryEncyclopedia, Event,
    Figure, Graphic, Hearing, Interview, LegalCase, Legislation, Manuscript, Map, MotionPicture,
    MusicalScore, Pamphlet, PaperConference, Patent, Performance, Periodical, PersonalCommunication,
    Post, PostWeblog, Regulation, Report, Review, ReviewBook, Software, Song, Speech, Standard,
    Thesis, Treaty, Webpage,
};

impl Kind {
    /// The kind of this name, such as `article-journal`, if there is one.
    pub fn from_name(name: &str) -> Option<Kind>
        ensures { (kind : Kind) → (result ≡ Some kind) ↔ (name.now ≡ name_of kind) }
    {
        KINDS.iter().find(|kind| kind.name() == name).copied()
    }

    /// Its name in CSL, such as `article-journal`.
    pub fn name(&self) -> &'static str
        ensures { result.now ≡ name_of self.now }
    {
        names! {
            self of Kind:
            Article "article", ArticleJournal "article-journal", ArticleMagazine "article-magazine",
            ArticleNewspaper "article-newspaper", Bill "bill", Book "book", Broadcast "broadcast",
            Chapter "chapter", Classic "classic", Collection "collection", Dataset "dataset",
            Document "document", Entry "entry", EntryDictionary "entry-dictionary",
            EntryEncyclopedia "entry-encyclopedia", Event "event", Figure "figure",
            Graphic "graphic", Hearing "hearing", Interview "interview", LegalCase "legal_case",
            Legislation "legislation", Manuscript "manuscript", Map "map",
            MotionPicture "motion_picture", MusicalScore "musical_score", Pamphlet "pamphlet",
            PaperConference "paper-conference", Patent "patent", Performance "performance",
            Periodical "periodical", PersonalCommunication "personal_communication", Post "post",
            PostWeblog "post-weblog", Regulation "regulation", Report "report", Review "review",
            ReviewBook "review-book", Software "software", Song "song", Speech "speech",
            Standard "standard", Thesis "thesis", Treaty "treaty", Webpage "webpage",
        }
    }
}
