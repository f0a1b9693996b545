//! The answer of an entry to a page variable.
//! Definitions: specs/EntryNumber.antt.

ghost use Rattle.std.specs.Prelude.{◌≡◌, IfOk, option_map};
ghost use Rattle.lit_model.specs.MaybeTyped.{maybe_view};
ghost use Rattle.lit_model.specs.Page.{pages_view};
ghost use Rattle.csl_entry.specs.Answers.{cow_view};
ghost use Rattle.csl_entry.specs.EntryNumber.{pages_of};

use csl_elements::PageVariable;
use lit_model::{Entry, MaybeTyped, Memory, PageRanges};
use std::alloc::Global;
use std::borrow::Cow;

/// Returns the entry's answer to a page variable (CSL 1.0.2, Number Variables: page): a copy of its
/// own pages.
pub(crate) fn page_variable(
    alloc: Global,
    entry: &Entry,
    variable: PageVariable,
) -> Result<Option<MaybeTyped<PageRanges>>, Memory>
    ensures { IfOk result (λ found. option_map (maybe_view pages_view) found
        ≡ pages_of entry.now variable) }
{
    match (variable, entry.page_range()) {
        (PageVariable::Page, Some(pages)) => {
            let copy = pages.clone(alloc)?;
            Ok(Some(copy))
        }
        (PageVariable::Page, None) => Ok(None),
    }
}

/// Lends the entry's answer to a page variable: its own pages.
pub(crate) fn lent_pages(
    entry: &Entry,
    variable: PageVariable,
) -> Option<Cow<'_, MaybeTyped<PageRanges>>>
    ensures { option_map (cow_view (maybe_view pages_view)) result ≡ pages_of entry.now variable }
{
    match variable {
        PageVariable::Page => Some(Cow::Borrowed(entry.page_range()?)),
    }
}
