//! Copies of a tree and of its parts. A copy equals its original.
//! Definitions: specs/Tokens.antt.

ghost use Rattle.std.specs.Prelude.{◌≡◌, map, IfOk};
ghost use Rattle.lit_model.specs.Person.{person_view};
ghost use Rattle.csl_tree.specs.Tokens.{tokens, elem_tokens, child_tokens, text_tokens, names_of, meta_of, optional_meta};

use crate::elem::{Elem, ElemChild, ElemChildren, ElemMeta};
use crate::formatting::Formatted;
use csl_elements::NameVariable;
use lit_model::{Memory, Person};
use std::alloc::Global;

impl Formatted {
    /// Returns a copy of the text.
    pub fn clone(&self, alloc: Global) -> Result<Formatted, Memory>
        ensures { IfOk result (λ copy. text_tokens copy ≡ text_tokens self.now) }
    {
        let text = String::from_str(alloc, self.text.as_str())?;
        Ok(self.formatting.add_text(text))
    }
}

/// Copies the persons, in order.
fn copy_persons(persons: &[Person], alloc: Global) -> Result<Vec<Person>, Memory>
    ensures { IfOk result (λ copies. map person_view copies.items ≡ map person_view persons.now) }
{
    let mut copies = Vec::with_capacity(alloc, persons.len())?;
    for person in persons {
        copies.push(person.clone(alloc)?)?;
    }
    Ok(copies)
}

/// Copies the variables with their persons, in order.
fn copy_names(
    names: &[(Vec<Person>, NameVariable)],
    alloc: Global,
) -> Result<Vec<(Vec<Person>, NameVariable)>, Memory>
    ensures { IfOk result (λ copies. map names_of copies.items ≡ map names_of names.now) }
{
    let mut copies = Vec::with_capacity(alloc, names.len())?;
    for name in names {
        let persons = copy_persons(&name.0, alloc)?;
        copies.push((persons, name.1))?;
    }
    Ok(copies)
}

impl ElemMeta {
    /// Returns a copy of the meta.
    pub fn clone(&self, alloc: Global) -> Result<ElemMeta, Memory>
        ensures { IfOk result (λ copy. meta_of copy ≡ meta_of self.now) }
    {
        Ok(match self {
            ElemMeta::Names(names) => {
                let names = copy_names(names, alloc)?;
                ElemMeta::Names(names)
            }
            ElemMeta::Date => ElemMeta::Date,
            ElemMeta::Text => ElemMeta::Text,
            ElemMeta::Number => ElemMeta::Number,
            ElemMeta::Label => ElemMeta::Label,
            ElemMeta::CitationNumber => ElemMeta::CitationNumber,
            ElemMeta::Name(variable, index) => ElemMeta::Name(*variable, *index),
            ElemMeta::Entry(index) => ElemMeta::Entry(*index),
            ElemMeta::CitationLabel => ElemMeta::CitationLabel,
        })
    }
}

/// Returns a copy of the meta, if there is one.
pub(crate) fn clone_meta(meta: &Option<ElemMeta>, alloc: Global) -> Result<Option<ElemMeta>, Memory>
    ensures { IfOk result (λ copy. optional_meta copy ≡ optional_meta meta.now) }
{
    match meta {
        None => Ok(None),
        Some(meta) => Ok(Some(meta.clone(alloc)?)),
    }
}

impl ElemChildren {
    /// Returns a copy of the children.
    #[cycle(copies)]
    pub fn clone(&self, alloc: Global) -> Result<ElemChildren, Memory>
        ensures { IfOk result (λ copy. tokens copy ≡ tokens self.now) }
    {
        let mut copies = Vec::with_capacity(alloc, self.0.len())?;
        for child in &self.0 {
            copies.push(child.clone(alloc)?)?;
        }
        Ok(ElemChildren(copies))
    }
}

impl Elem {
    /// Returns a copy of the element.
    #[cycle(copies)]
    pub fn clone(&self, alloc: Global) -> Result<Elem, Memory>
        ensures { IfOk result (λ copy. elem_tokens copy ≡ elem_tokens self.now) }
    {
        let children = self.children.clone(alloc)?;
        let meta = clone_meta(&self.meta, alloc)?;
        Ok(Elem {
            children,
            display: self.display,
            meta,
        })
    }
}

impl ElemChild {
    /// Returns a copy of the child.
    #[cycle(copies)]
    pub fn clone(&self, alloc: Global) -> Result<ElemChild, Memory>
        ensures { IfOk result (λ copy. child_tokens copy ≡ child_tokens self.now) }
    {
        match self {
            ElemChild::Text(text) => {
                let text = text.clone(alloc)?;
                Ok(ElemChild::Text(text))
            }
            ElemChild::Elem(elem) => {
                let elem = elem.clone(alloc)?;
                Ok(ElemChild::Elem(elem))
            }
            ElemChild::Markup(markup) => {
                let markup = String::from_str(alloc, markup.as_str())?;
                Ok(ElemChild::Markup(markup))
            }
            ElemChild::Link { text, url } => {
                let text = text.clone(alloc)?;
                let url = String::from_str(alloc, url.as_str())?;
                Ok(ElemChild::Link { text, url })
            }
            ElemChild::Transparent { cite_idx, format } => Ok(ElemChild::Transparent {
                cite_idx: *cite_idx,
                format: *format,
            }),
        }
    }
}
