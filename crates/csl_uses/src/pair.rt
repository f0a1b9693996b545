//! Two entries of any two types, and whether they are alike for a style.
//! Definitions: crates/csl_render/specs/Pair.antt, crates/csl_entry/specs/Alike.antt.

ghost use Rattle.std.specs.Prelude.{◌≡◌, true, IfOk, string_bytes};
ghost use Rattle.std.specs.Bool.{Decides};
ghost use Rattle.csl.specs.Style.Named.{named_in_nodes};
ghost use Rattle.csl.specs.Style.Node.{expand_layout};
ghost use Rattle.csl.specs.Style.Expanded.{macro_env};
ghost use Rattle.csl.specs.Style.View.{view_layout};
ghost use Rattle.csl.specs.Tree.Tokens.{tokens};
ghost use Rattle.csl.specs.Entry.Alike.{SameNamedAnswers};
ghost use Rattle.csl.specs.Render.Cites.{cite_content};
ghost use Rattle.csl.specs.Render.Pair.{PrintsSame};

use csl::literature::{Entry, EntryType, Person};
use csl::style::{Formatting, Layout, StandardVariable, Style, StyleSettings, Text};
use csl::{CiteProperties, DisambiguateState, EntryLike, Error, Pair};
use std::alloc::Global;

/// The novel `Metropolis`.
pub fn the_novel(alloc: Global) -> Result<Entry, Error> {
    let authors = vec![in alloc; Person::new(alloc, "von Harbou", "Thea")?]?;
    let novel = Entry::titled(alloc, "metropolis-novel", EntryType::Book, "Metropolis")?;
    Ok(novel.with_authors(authors))
}

/// A style that cites by the title alone, in italics.
///
/// # Errors
/// [`Error::Memory`]: out of memory.
/// [`Error::Style`]: the style is rejected.
pub fn title_style(alloc: Global) -> Result<Style, Error> {
    let title = Text {
        formatting: Formatting::italic(),
        ..Text::variable(StandardVariable::Title.into())
    };
    let citation = Layout::new(vec![in alloc; title.into()]?);
    let settings = StyleSettings::default();
    let (macros, locales) = (Vec::new(alloc), Vec::new(alloc));
    Ok(Style::new(alloc, settings, macros, citation, None, locales)?)
}

/// The cites of two entries, and whether the entries answer alike on all that the citation layout
/// and the macros it reaches name. Cites of alike entries are equal, so a caller that has one need
/// not render the other.
///
/// # Errors
/// [`Error::Memory`]: out of memory, here or in an entry.
pub fn pair_of<T: EntryLike, U: EntryLike>(
    alloc: Global,
    style: &Style,
    left: &T,
    right: &U,
) -> Result<Pair, Error>
    ensures left { IfOk result (λ p. tokens p.left.content ≡ cite_content style.now
        (T.answers left.now)) }
    ensures right { IfOk result (λ p. tokens p.right.content
        ≡ cite_content style.now (U.answers right.now)) }
    ensures alike { IfOk result (λ p. Decides p.alike (SameNamedAnswers
        (named_in_nodes (expand_layout (macro_env style.now)
        (view_layout style.now.citation)).elements)
        (T.answers left.now) (U.answers right.now))) }
    ensures same { IfOk result (λ p. p.alike ≡ true
        → PrintsSame p.left (string_bytes p.left_html) p.right (string_bytes p.right_html)) }
{
    let first = CiteProperties::first(DisambiguateState::None);
    Ok(csl::cite_pair(alloc, style, &first, left, right)?)
}
