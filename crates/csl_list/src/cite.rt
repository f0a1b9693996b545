//! The content of a cite by its purpose (CSL 1.0.2, Citation; Bibliography; Layout).
//! Definitions: specs/CiteContent.antt.

ghost use Rattle.std.specs.Prelude.{◌≡◌, IfOk, IfErr};
ghost use Rattle.csl_entry.specs.Cite.{cite_state};
ghost use Rattle.csl_tree.specs.Tokens.{tokens};
ghost use Rattle.csl_list.specs.Errors.{IsListingError};
ghost use Rattle.csl_list.specs.CiteContent as spec;

use crate::error::ListError;
use crate::request::CitePurpose;
use csl::{Rendered, Renderer};
use csl_elements::{NameVariable, Variable};
use csl_entry::{CiteProperties, EntryLike, SpecialForm};
use csl_tree::ElemChildren;
use std::alloc::Global;

/// The form of a cite of this purpose, if it is not the whole.
fn form_of(purpose: CitePurpose) -> Option<SpecialForm>
    ensures { result ≡ spec.form_of purpose }
{
    match purpose {
        CitePurpose::Author => { Some(SpecialForm::VarOnly(Variable::Name(NameVariable::Author))) }
        CitePurpose::Year => Some(SpecialForm::OnlyFirstDate),
        CitePurpose::Prose | CitePurpose::SuppressAuthor => Some(SpecialForm::SuppressAuthor),
        CitePurpose::Full => None,
    }
}

/// The content of a cite in a form, or whole.
pub(crate) fn citation_content<T: EntryLike>(
    alloc: Global,
    renderer: &mut Renderer<'_>,
    work: &T,
    props: &CiteProperties<'_>,
    form: Option<SpecialForm>,
) -> Result<ElemChildren, ListError>
    ensures ok { IfOk result (λ content. tokens content ≡ spec.citation_content renderer.old.style
        (cite_state props.now) form (T.answers work.now)) }
    ensures style { renderer.new.style ≡ renderer.old.style }
    ensures err { IfErr result IsListingError }
{
    let Rendered { content, state: _ } = match form {
        Some(form) => renderer.cite_in(alloc, work, props, form)?,
        None => renderer.cite(alloc, work, props)?,
    };
    Ok(content)
}

/// The content of a work in the bibliography, or its whole cite if the style has no bibliography.
pub(crate) fn full_content<T: EntryLike>(
    alloc: Global,
    renderer: &mut Renderer<'_>,
    work: &T,
    props: &CiteProperties<'_>,
) -> Result<ElemChildren, ListError>
    ensures ok { IfOk result (λ content. tokens content ≡ spec.full_content renderer.old.style
        (cite_state props.now) (T.answers work.now)) }
    ensures style { renderer.new.style ≡ renderer.old.style }
    ensures err { IfErr result IsListingError }
{
    match renderer.bibliography_entry(alloc, work, props)? {
        Some(Rendered { content, state: _ }) => Ok(content),
        None => citation_content(alloc, renderer, work, props, None),
    }
}

/// The content of a cite of this purpose.
pub(crate) fn cite_content<T: EntryLike>(
    alloc: Global,
    renderer: &mut Renderer<'_>,
    work: &T,
    props: &CiteProperties<'_>,
    purpose: Option<CitePurpose>,
) -> Result<ElemChildren, ListError>
    ensures ok { IfOk result (λ content. tokens content ≡ spec.cite_content renderer.old.style
        (cite_state props.now) purpose (T.answers work.now)) }
    ensures style { renderer.new.style ≡ renderer.old.style }
    ensures err { IfErr result IsListingError }
{
    match purpose {
        None => citation_content(alloc, renderer, work, props, None),
        Some(CitePurpose::Full) => full_content(alloc, renderer, work, props),
        Some(purpose) => citation_content(alloc, renderer, work, props, form_of(purpose)),
    }
}
