//! The kinds of an entry (CSL 1.0.2, Appendix III: Types).

ghost use Rattle.std.specs.Prelude.{◌≡◌, ◌↔◌, ◌∷◌, [], IsTrue, IsSome, IfSome, IfNone};
ghost use Rattle.lit_model.specs.declared.entry_type.EntryType.TheVariants.{Legislation};
ghost use Rattle.csl_elements.specs.declared.taxonomy.Kind.TheVariants as kind;
ghost use Rattle.csl_entry.specs.EntryKind as spec;

use csl_elements::Kind;
use lit_model::{Bind, Clause, Entry, EntryType};

/// The kind of an audio or a video. Each is of exactly one of `Broadcast`, `MotionPicture`,
/// `MusicalScore` and `Song`. `None` for an entry of another type, which is of none of these (CSL
/// 1.0.2, Appendix III: Types).
pub fn recording_kind(entry: &Entry) -> Option<Kind>
    ensures recording { IsSome result ↔ IsTrue (spec.is_recording (spec.typing_of entry.now)) }
    ensures one { IfSome result (λ kind.
        spec.kinds_among spec.recording_kinds (spec.typing_of entry.now) ≡ kind ∷ []) }
    ensures none { IfNone result (spec.kinds_among spec.recording_kinds (spec.typing_of entry.now)
        ≡ []) }
{
    if !is_recording(entry) {
        return None;
    }
    if is_musical_score(entry) {
        return Some(Kind::MusicalScore);
    }
    if is_motion_picture(entry) {
        return Some(Kind::MotionPicture);
    }
    if is_song(entry) {
        return Some(Kind::Song);
    }
    Some(Kind::Broadcast)
}

/// The kind of a law: `Legislation` if it has a publisher, else `Bill`. No law is both. `None` for
/// an entry of another type, which is neither (CSL 1.0.2, Appendix III: Types).
pub fn legislation_kind(entry: &Entry) -> Option<Kind>
    ensures law { IsSome result ↔ IsTrue (spec.is_a Legislation (spec.typing_of entry.now)) }
    ensures one { IfSome result (λ kind.
        spec.kinds_among spec.legislation_kinds (spec.typing_of entry.now) ≡ kind ∷ []) }
    ensures none { IfNone result (spec.kinds_among spec.legislation_kinds (spec.typing_of entry.now)
        ≡ []) }
{
    if entry.entry_type != EntryType::Legislation {
        return None;
    }
    match entry.publisher {
        Some(_) => Some(Kind::Legislation),
        None => Some(Kind::Bill),
    }
}

/// Whether the entry is of this kind (CSL 1.0.2, Appendix III: Types). It may be of several kinds,
/// or of none.
#[tactic(auto, using(crate::proofs::ShowSame::same_typing))]
pub(crate) fn is_of_kind(entry: &Entry, kind: Kind) -> bool
    ensures value { result ≡ spec.is_kind kind (spec.typing_of entry.now) }

    // The kinds depend only on the fields of the entry and its parents (`works`).
    ensures shown { spec.TypingIsShown entry.now }
{
    match kind {
        Kind::Article => is_article(entry),
        Kind::ArticleJournal => is_journal_article(entry),
        Kind::ArticleNewspaper => is_newspaper_article(entry),
        Kind::Bill => is_bill(entry),
        Kind::Book => is_book(entry),
        Kind::Broadcast => is_broadcast(entry),
        Kind::Chapter => is_chapter(entry),
        Kind::Collection => entry.entry_type == EntryType::Anthology,
        Kind::Document => entry.entry_type == EntryType::Misc,
        Kind::Entry => is_entry(entry),
        Kind::EntryEncyclopedia => is_part_of(entry, &[EntryType::Reference]),
        Kind::Event => entry.entry_type == EntryType::Exhibition,
        Kind::Figure => is_figure(entry),
        Kind::Graphic => is_graphic(entry),
        Kind::LegalCase => entry.entry_type == EntryType::Case,
        Kind::Legislation => is_legislation(entry),
        Kind::Manuscript => entry.entry_type == EntryType::Manuscript,
        Kind::MotionPicture => is_motion_picture(entry),
        Kind::MusicalScore => is_musical_score(entry),
        Kind::PaperConference => is_conference_paper(entry),
        Kind::Patent => entry.entry_type == EntryType::Patent,
        Kind::Periodical => is_periodical(entry),
        Kind::Post => is_post(entry),
        Kind::PostWeblog => is_blog_post(entry),
        Kind::Report => is_report(entry),
        Kind::Software => entry.entry_type == EntryType::Repository,
        Kind::Song => is_song(entry),
        Kind::Thesis => is_thesis(entry),
        Kind::Webpage => is_webpage(entry),
        // No entry is of any other kind, because entry types do not distinguish them.
        _ => false,
    }
}

/// Whether a direct parent of the entry is of one of these types.
fn is_part_of(entry: &Entry, types: &[EntryType]) -> bool
    ensures { result ≡ spec.is_part_of types.now (spec.typing_of entry.now) }
{
    entry.matches(&[Clause {
        own: &[],
        fields: &[],
        parent: Some(types),
        bind: Bind::Nothing,
    }])
}

fn is_journal_article(entry: &Entry) -> bool
    ensures { result ≡ spec.is_journal_article (spec.typing_of entry.now) }
{
    entry.entry_type == EntryType::Article && is_part_of(entry, &[EntryType::Periodical])
}

fn is_newspaper_article(entry: &Entry) -> bool
    ensures { result ≡ spec.is_newspaper_article (spec.typing_of entry.now) }
{
    entry.entry_type == EntryType::Article && is_part_of(entry, &[EntryType::Newspaper])
}

fn is_conference_paper(entry: &Entry) -> bool
    ensures { result ≡ spec.is_conference_paper (spec.typing_of entry.now) }
{
    entry.entry_type == EntryType::Article && is_part_of(entry, &[EntryType::Proceedings])
}

fn is_report(entry: &Entry) -> bool
    ensures { result ≡ spec.is_report (spec.typing_of entry.now) }
{
    entry.entry_type == EntryType::Report || is_part_of(entry, &[EntryType::Report])
}

fn is_thesis(entry: &Entry) -> bool
    ensures { result ≡ spec.is_thesis (spec.typing_of entry.now) }
{
    entry.entry_type == EntryType::Thesis || is_part_of(entry, &[EntryType::Thesis])
}

/// Whether the entry is an article, but of no narrower kind of article, not a report or a thesis,
/// and not in a blog. No article is a manuscript, because that is a type of its own.
fn is_article(entry: &Entry) -> bool
    ensures { result ≡ spec.is_kind kind.Article (spec.typing_of entry.now) }
{
    entry.entry_type == EntryType::Article
        && !(is_journal_article(entry)
            || is_newspaper_article(entry)
            || is_conference_paper(entry)
            || is_report(entry)
            || is_thesis(entry)
            || is_blog_post(entry))
}

fn is_periodical(entry: &Entry) -> bool
    ensures { result ≡ spec.is_periodical (spec.typing_of entry.now) }
{
    entry.entry_type == EntryType::Book && is_part_of(entry, &[EntryType::Periodical])
}

fn is_book(entry: &Entry) -> bool
    ensures { result ≡ spec.is_kind kind.Book (spec.typing_of entry.now) }
{
    (entry.entry_type == EntryType::Book || entry.entry_type == EntryType::Proceedings)
        && !is_periodical(entry)
}

fn is_chapter(entry: &Entry) -> bool
    ensures { result ≡ spec.is_kind kind.Chapter (spec.typing_of entry.now) }
{
    match entry.entry_type {
        EntryType::Anthos => is_part_of(entry, &[EntryType::Anthology]),
        EntryType::Chapter => is_part_of(
            entry,
            &[
                EntryType::Book,
                EntryType::Anthology,
                EntryType::Proceedings,
            ],
        ),
        _ => false,
    }
}

fn is_entry(entry: &Entry) -> bool
    ensures { result ≡ spec.is_kind kind.Entry (spec.typing_of entry.now) }
{
    entry.entry_type == EntryType::Entry && !is_part_of(entry, &[EntryType::Reference])
}

fn is_recording(entry: &Entry) -> bool
    ensures { result ≡ spec.is_recording (spec.typing_of entry.now) }
{
    entry.entry_type == EntryType::Audio || entry.entry_type == EntryType::Video
}

/// Whether the entry is an audio in a book, a periodical, a work of reference, a miscellany, a blog
/// or a site.
fn is_musical_score(entry: &Entry) -> bool
    ensures { result ≡ spec.is_musical_score (spec.typing_of entry.now) }
{
    entry.entry_type == EntryType::Audio
        && is_part_of(
            entry,
            &[
                EntryType::Book,
                EntryType::Periodical,
                EntryType::Reference,
                EntryType::Misc,
                EntryType::Blog,
                EntryType::Web,
            ],
        )
}

#[tactic(auto, using(crate::proofs::Typings::alone_without_parents))]
fn is_motion_picture(entry: &Entry) -> bool
    ensures { result ≡ spec.is_motion_picture (spec.typing_of entry.now) }
{
    entry.entry_type == EntryType::Video && entry.parents.is_empty()
}

#[tactic(auto, using(crate::proofs::Typings::alone_without_parents))]
fn is_song(entry: &Entry) -> bool
    ensures { result ≡ spec.is_song (spec.typing_of entry.now) }
{
    entry.entry_type == EntryType::Audio && entry.parents.is_empty()
}

fn is_broadcast(entry: &Entry) -> bool
    ensures { result ≡ spec.is_kind kind.Broadcast (spec.typing_of entry.now) }
{
    is_recording(entry) && !(is_musical_score(entry) || is_motion_picture(entry) || is_song(entry))
}

/// Whether the entry is a law with a publisher.
fn is_legislation(entry: &Entry) -> bool
    ensures { result ≡ spec.is_kind kind.Legislation (spec.typing_of entry.now) }
{
    entry.entry_type == EntryType::Legislation && entry.publisher.is_some()
}

/// Whether the entry is a law without a publisher.
fn is_bill(entry: &Entry) -> bool
    ensures { result ≡ spec.is_kind kind.Bill (spec.typing_of entry.now) }
{
    entry.entry_type == EntryType::Legislation && entry.publisher.is_none()
}

fn is_blog_post(entry: &Entry) -> bool
    ensures { result ≡ spec.is_blog_post (spec.typing_of entry.now) }
{
    is_part_of(entry, &[EntryType::Blog])
}

fn is_post(entry: &Entry) -> bool
    ensures { result ≡ spec.is_post (spec.typing_of entry.now) }
{
    entry.entry_type == EntryType::Post || is_part_of(entry, &[EntryType::Thread])
}

/// Whether the entry is a site, a blog or a thread, is in a site or a blog, or is of no type of its
/// own (`Misc`) but has an address.
fn is_online(entry: &Entry) -> bool
    ensures { result ≡ spec.is_online (spec.typing_of entry.now) }
{
    (entry.entry_type == EntryType::Misc && entry.url.is_some())
        || is_part_of(entry, &[EntryType::Web, EntryType::Blog])
        || entry.entry_type == EntryType::Web
        || entry.entry_type == EntryType::Blog
        || entry.entry_type == EntryType::Thread
}

fn is_webpage(entry: &Entry) -> bool
    ensures { result ≡ spec.is_kind kind.Webpage (spec.typing_of entry.now) }
{
    is_online(entry) && !(is_blog_post(entry) || is_post(entry))
}

fn is_figure(entry: &Entry) -> bool
    ensures { result ≡ spec.is_figure (spec.typing_of entry.now) }
{
    entry.entry_type == EntryType::Artwork && is_part_of(entry, &[EntryType::Article])
}

fn is_graphic(entry: &Entry) -> bool
    ensures { result ≡ spec.is_kind kind.Graphic (spec.typing_of entry.now) }
{
    entry.entry_type == EntryType::Artwork && !is_figure(entry)
}
