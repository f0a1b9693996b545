//! Names that a work shows in the bibliography because its cite does (CSL 1.0.2, Disambiguation:
//! disambiguate-add-names).
//! Definitions: specs/Bibliography.antt.

ghost use Rattle.std.specs.Prelude.{◌≡◌, false, None, IfOk, IfErr, option_copied};
ghost use Rattle.csl_tree.specs.Tokens.{tokens};
ghost use Rattle.csl_list.specs.Errors.{IsListingError};
ghost use Rattle.csl_list.specs.Bibliography as spec;

use crate::cite::full_content;
use crate::error::ListError;
use crate::identity::Identity;
use crate::more_names::count_shown;
use crate::told_names::{AddedNames, added_names, put_names};
use csl::{Rendered, Renderer};
use csl_common::Memory;
use csl_entry::{EntryLike, NameDisambiguationProperties};
use csl_tree::ElemChildren;
use std::alloc::Global;

/// The forms with as many names as a cite shows, if they are of the same variable and show fewer.
fn with_names_of(
    alloc: Global,
    own: &NameDisambiguationProperties,
    cite: &NameDisambiguationProperties,
) -> Result<Option<NameDisambiguationProperties>, Memory> {
    let count = count_shown(cite);
    if own.variables().first() != cite.variables().first() || count <= count_shown(own) {
        return Ok(None);
    }
    let mut fuller = own.clone(alloc)?;
    Ok(if fuller.add_name(count) {
        Some(fuller)
    } else {
        None
    })
}

/// The forms of the names of a work in the bibliography, if it would show fewer of them than its
/// cite. `cite` has the forms of the names of the cite, if names were added to it.
pub(crate) fn line_forms<T: EntryLike>(
    alloc: Global,
    renderer: &mut Renderer<'_>,
    work: &T,
    identity: Identity,
    cite: Option<&NameDisambiguationProperties>,
) -> Result<Option<NameDisambiguationProperties>, ListError>
    ensures style { renderer.new.style ≡ renderer.old.style }
    ensures err { IfErr result IsListingError }
{
    let Some(cite) = cite else {
        return Ok(None);
    };
    let props = identity.first_cite();
    let Some(line) = renderer.bibliography_entry(alloc, work, &props)? else {
        return Ok(None);
    };
    let Rendered { content: _, state } = line;
    match &state.first_names {
        Some(own) => Ok(with_names_of(alloc, own, cite)?),
        None => Ok(None),
    }
}

/// The names of a work in these forms, if they tell it apart beside its year suffix or branches.
fn names_beside<T: EntryLike>(
    alloc: Global,
    renderer: &mut Renderer<'_>,
    work: &T,
    identity: Identity,
    forms: Option<&NameDisambiguationProperties>,
) -> Result<Option<AddedNames>, ListError>
    ensures none { spec.has_names_beside identity (option_copied forms.entry) ≡ false
        → IfOk result (λ names. names ≡ None) }
    ensures err { IfErr result IsListingError }
{
    if !identity.is_marked() || forms.is_none() {
        return Ok(None);
    }
    let props = identity.unmarked().first_cite_by(alloc, forms)?;
    let content = full_content(alloc, renderer, work, &props)?;
    Ok(added_names(alloc, &content, true)?)
}

/// The content of a work in the bibliography, with these forms of its names, if there are some.
pub(crate) fn line_content<T: EntryLike>(
    alloc: Global,
    renderer: &mut Renderer<'_>,
    work: &T,
    identity: Identity,
    forms: Option<&NameDisambiguationProperties>,
) -> Result<ElemChildren, ListError>
    ensures content { spec.has_names_beside identity (option_copied forms.entry) ≡ false
        → IfOk result (λ content. tokens content ≡ spec.content_of renderer.old.style identity
        (option_copied forms.entry) (T.answers work.now)) }
    ensures err { IfErr result IsListingError }
{
    let props = identity.first_cite_by(alloc, forms)?;
    let mut content = full_content(alloc, renderer, work, &props)?;
    if let Some(names) = names_beside(alloc, renderer, work, identity, forms)? {
        put_names(alloc, &mut content, &names)?;
    }
    Ok(content)
}
