//! A reference list that renders again only the lines that change. Each line is kept by the
//! snapshot of its work: what the work answers to all that the bibliography's layout names.

ghost use Rattle.std.specs.Prelude.{◌≡◌, IfOk, map, string_bytes};
ghost use Rattle.csl_uses.specs.List.{line_html, lines_html, NamedByBibliography, AreLines};

use csl::literature::{Entry, FormatString};
use csl::style::{Named, Style};
use csl::{BufWriteFormat, CiteProperties, DisambiguateState, EntryLike, Error, Memory, Snapshot};
use std::alloc::Global;
use std::collections::HashMap;

/// A line of the list.
#[derive(Drop)]
pub struct Line {
    /// The line, as HTML.
    pub html: String,
    /// Whether it was rendered for this list, and not kept from an earlier one.
    pub is_new: bool,
}

/// The line of an entry as HTML. It is empty if the style has no bibliography.
fn rendered_line<T: EntryLike>(alloc: Global, style: &Style, entry: &T) -> Result<String, Error>
    ensures { IfOk result (λ html. string_bytes html ≡ line_html style.now (T.answers entry.now)) }
{
    let first = CiteProperties::first(DisambiguateState::None);
    match csl::bibliography_entry(alloc, style, entry, &first)? {
        Some(rendered) => Ok(rendered.content.to_text(alloc, BufWriteFormat::Html)?),
        None => Ok(String::new(alloc)),
    }
}

/// The line of a work: the kept one, if a work with an equal snapshot had one, or a new one, which
/// is kept too. A snapshot renders as its work does.
#[tactic(auto, using(crate::proofs::KeptLines::unchanged_lines))]
fn kept_line<T: EntryLike>(
    alloc: Global,
    style: &Style,
    named: &Named,
    work: &T,
    kept: &mut HashMap<Snapshot, String>,
) -> Result<Line, Error>
    ensures line { NamedByBibliography style.now named.now → AreLines style.now kept.old
        → IfOk result (λ line. string_bytes line.html ≡ line_html style.now (T.answers work.now)) }
    ensures kept { AreLines style.now kept.old → AreLines style.now kept.new }
{
    let snapshot = Snapshot::new(alloc, work, named)?;
    if let Some(html) = kept.get(&snapshot) {
        let html = html.clone()?;
        return Ok(Line {
            html,
            is_new: false,
        });
    }
    let html = rendered_line(alloc, style, &snapshot)?;
    kept.insert(snapshot, html.clone()?)?;
    Ok(Line { html, is_new: true })
}

/// The lines of works in a style without citation numbers, in the order of the works. Lines are
/// taken from those kept by earlier calls for this style, and new ones are kept. There are none if
/// the style has no bibliography.
///
/// # Errors
/// [`Error::Memory`]: out of memory, here or in an entry.
#[tactic(auto, using(crate::proofs::KeptLines::named_by_layout))]
pub fn lines<T: EntryLike>(
    alloc: Global,
    style: &Style,
    works: &[T],
    kept: &mut HashMap<Snapshot, String>,
) -> Result<Vec<Line>, Error>
    ensures lines { AreLines style.now kept.old
        → IfOk result (λ lines. map (λ line. string_bytes line.html) lines.items
        ≡ lines_html T.answers style.now works.now) }
    ensures kept { AreLines style.now kept.old → AreLines style.now kept.new }
{
    let mut lines = Vec::new(alloc);
    let Some(layout) = style.bibliography() else {
        return Ok(lines);
    };
    let named = csl::named_by(alloc, style, layout)?;
    for work in works {
        lines.push(kept_line(alloc, style, &named, work, kept)?)?;
    }
    Ok(lines)
}

/// The number of lines that were rendered for this list.
pub fn count_new(lines: &[Line]) -> usize {
    lines.iter().filter(|line| line.is_new).count()
}

/// Gives the first work another title.
pub fn rename_first(alloc: Global, works: &mut [Entry], title: &str) -> Result<(), Memory> {
    let title = FormatString::plain(alloc, title)?;
    if let Some(work) = works.first_mut() {
        work.title = Some(title);
    }
    Ok(())
}

/// Writes a note about the first work. No style of the examples names it.
pub fn annotate_first(alloc: Global, works: &mut [Entry], note: &str) -> Result<(), Memory> {
    let note = FormatString::plain(alloc, note)?;
    if let Some(work) = works.first_mut() {
        work.note = Some(note);
    }
    Ok(())
}
