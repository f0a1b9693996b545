//! Cites and sort keys from snapshots, which a caller keeps in place of works: they are those of
//! the works.
//! Definitions: specs/BySnapshot.antt.

ghost use Rattle.std.specs.Prelude.{◌≡◌, IfOk, string_bytes};
ghost use Rattle.csl.specs.Style.NamedSet.{named_set};
ghost use Rattle.csl.specs.Render.Cites.{named_by, Covers};
ghost use Rattle.csl_uses.specs.BySnapshot as spec;

use csl::style::{Layout, Named, Scope, Style};
use csl::{BufWriteFormat, CiteProperties, DisambiguateState, EntryLike, Error, Snapshot, Sorting};
use std::alloc::Global;

/// The HTML of the first cite of a work, rendered from a snapshot by `named`. It is the work's own
/// if `named` has all that the citation layout names.
///
/// # Errors
/// [`Error::Memory`]: out of memory, here or in the work.
pub fn cite_by_snapshot<T: EntryLike>(
    alloc: Global,
    style: &Style,
    named: &Named,
    work: &T,
) -> Result<String, Error>
    ensures { Covers (named_set named.now) (named_by style.now style.now.citation)
        → IfOk result (λ html. string_bytes html ≡ spec.cite_html style.now (T.answers work.now)) }
{
    let snapshot = Snapshot::new(alloc, work, named)?;
    let first = CiteProperties::first(DisambiguateState::None);
    let cite = csl::cite(alloc, style, &snapshot, &first)?;
    Ok(cite.content.to_text(alloc, BufWriteFormat::Html)?)
}

/// The sort key of a work in the bibliography by a layout of one variable, rendered from a snapshot
/// by `named`. It is the work's own if `named` has all that the layout names.
///
/// # Errors
/// [`Error::Memory`]: out of memory, here or in the work.
pub fn key_by_snapshot<T: EntryLike>(
    alloc: Global,
    style: &Style,
    named: &Named,
    layout: &Layout,
    work: &T,
) -> Result<String, Error>
    ensures { Covers (named_set named.now) (named_by style.now layout.now)
        → IfOk result (λ key. string_bytes key
        ≡ spec.key_text style.now layout.now (T.answers work.now)) }
{
    let snapshot = Snapshot::new(alloc, work, named)?;
    let first = CiteProperties::first(DisambiguateState::None);
    let (scope, sorting) = (Scope::Bibliography, Sorting::Variable);
    let key = csl::sort_key(alloc, style, &snapshot, &first, layout, scope, sorting)?;
    Ok(key)
}
