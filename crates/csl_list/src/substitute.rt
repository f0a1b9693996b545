//! Names that the work before has too (CSL 1.0.2, subsequent-author-substitute;
//! subsequent-author-substitute-rule).

use crate::options::{AuthorSubstitute, SubstituteRule};
use crate::pieces::push_text;
use crate::request::plain_affix;
use csl_common::Memory;
use csl_elements::{OtherTerm, Term, TermForm};
use csl_style::Style;
use csl_tree::{BufWriteFormat, Elem, ElemChild, ElemChildren, ElemMeta, Formatting};
use std::alloc::Global;
use std::mem;

/// The names that a work begins with.
#[derive(Drop)]
struct PrintedNames {
    each: Vec<String>,
    /// Whether `et al.` stands for others.
    are_cut: bool,
}

/// The names that the work before begins with.
#[derive(Drop)]
pub(crate) struct NamesBefore<'s> {
    style: &'s Style,
    names: PrintedNames,
}

/// The names that a content begins with, as one text. It is empty without names.
pub(crate) fn whole_names(alloc: Global, content: &ElemChildren) -> Result<String, Memory> {
    match content.find_names() {
        Some(names) => Ok(names.children.to_text(alloc, BufWriteFormat::Plain)?),
        None => Ok(String::new(alloc)),
    }
}

/// Whether an element is one name.
fn is_name(elem: &Elem) -> bool {
    matches!(elem.meta, Some(ElemMeta::Name(_, _)))
}

/// Whether a child is one name.
fn is_name_child(child: &ElemChild) -> bool {
    match child {
        ElemChild::Elem(elem) => is_name(elem),
        ElemChild::Text(_)
        | ElemChild::Markup(_)
        | ElemChild::Link { .. }
        | ElemChild::Transparent { .. } => false,
    }
}

/// What a text has after a term, if that is in it.
fn after_term<'a>(style: &Style, text: &'a str, term: OtherTerm) -> Option<&'a str> {
    let words = style.term(Term::Other(term), TermForm::Long, false)?;
    let (_, after) = text.split_once(words)?;
    Some(after)
}

/// What a child has after `et al.`, if that is in its text.
fn after_et_al<'a>(style: &Style, child: &'a ElemChild) -> Option<&'a str> {
    match child {
        ElemChild::Text(text) => {
            let text = text.text.as_str();
            after_term(style, text, OtherTerm::EtAl).or(after_term(
                style,
                text,
                OtherTerm::AndOthers,
            ))
        }
        ElemChild::Elem(_)
        | ElemChild::Markup(_)
        | ElemChild::Link { .. }
        | ElemChild::Transparent { .. } => None,
    }
}

/// Adds the names in a content.
#[cycle(names)]
fn add_names(
    alloc: Global,
    style: &Style,
    content: &ElemChildren,
    names: &mut PrintedNames,
) -> Result<(), Memory> {
    for child in &content.0 {
        if let ElemChild::Elem(elem) = child {
            if is_name(elem) {
                let name = elem.children.to_text(alloc, BufWriteFormat::Plain)?;
                names.each.push(name)?;
            } else {
                add_names(alloc, style, &elem.children, names)?;
            }
        } else if after_et_al(style, child).is_some() {
            names.are_cut = true;
        }
    }
    Ok(())
}

/// No names.
fn no_names(alloc: Global) -> PrintedNames {
    PrintedNames {
        each: Vec::new(alloc),
        are_cut: false,
    }
}

/// The names that a content begins with.
fn printed_names(
    alloc: Global,
    style: &Style,
    content: &ElemChildren,
) -> Result<PrintedNames, Memory> {
    let mut names = no_names(alloc);
    if let Some(elem) = content.find_names() {
        add_names(alloc, style, &elem.children, &mut names)?;
    }
    Ok(names)
}

/// Puts the substitute in the place of the first names, as many as are asked for, and returns how
/// many of these a content lacks.
#[cycle(put)]
fn put_for_names(
    alloc: Global,
    content: &mut ElemChildren,
    text: &str,
    count: usize,
) -> Result<usize, Memory> {
    let mut left = count;
    for child in content.0.iter_mut() {
        if let ElemChild::Elem(elem) = child {
            if left > 0 {
                left = put_for_name(alloc, elem, text, left)?;
            }
        }
    }
    Ok(left)
}

/// The same in an element, which may be a name itself.
#[cycle(put)]
fn put_for_name(alloc: Global, elem: &mut Elem, text: &str, count: usize) -> Result<usize, Memory> {
    if is_name(elem) {
        elem.children = plain_affix(alloc, text)?;
        return Ok(count.saturating_sub(1));
    }
    put_for_names(alloc, &mut elem.children, text, count)
}

/// The number of texts that two lists begin with alike.
fn count_alike(one: &[String], other: &[String]) -> usize {
    let mut count: usize = 0;
    for (own, others) in one.iter().zip(other) {
        if own != others {
            return count;
        }
        count = count.saturating_add(1);
    }
    count
}

/// The number of names that a substitute replaces one by one.
fn count_replaced(rule: SubstituteRule, is_same: bool, all: usize, alike: usize) -> usize {
    match rule {
        SubstituteRule::CompleteAll => 0,
        SubstituteRule::CompleteEach => { if is_same { all } else { 0 } }
        SubstituteRule::PartialEach => alike,
        SubstituteRule::PartialFirst => alike.min(1),
    }
}

/// Adds what a child has after `et al.`.
fn push_after_et_al(
    alloc: Global,
    style: &Style,
    list: &mut ElemChildren,
    child: &ElemChild,
) -> Result<(), Memory> {
    if let (Some(after), ElemChild::Text(text)) = (after_et_al(style, child), child) {
        push_text(alloc, list, after, text.formatting)?;
    }
    Ok(())
}

/// Adds what stands after the last name, without `et al.`.
fn push_after_names(
    alloc: Global,
    style: &Style,
    list: &mut ElemChildren,
    children: Vec<ElemChild>,
) -> Result<(), Memory> {
    let et_al = children
        .iter()
        .position(|child| after_et_al(style, child).is_some());
    let mut place: usize = 0;
    for child in children {
        match et_al {
            Some(et_al) if place < et_al => {}
            Some(et_al) if place == et_al => push_after_et_al(alloc, style, list, &child)?,
            Some(_) | None => list.0.push(child)?,
        }
        place = place.saturating_add(1);
    }
    Ok(())
}

/// Puts the substitute in the place of the names among children, from the first to the last, and of
/// `et al.`. What stands around them stays.
fn put_among(
    alloc: Global,
    style: &Style,
    list: &mut ElemChildren,
    text: &str,
) -> Result<(), Memory> {
    let names = list.0.iter().filter(|child| is_name_child(child)).count();
    let children = mem::replace(&mut list.0, Vec::new(alloc));
    let mut after = Vec::new(alloc);
    let mut passed: usize = 0;
    for child in children {
        if is_name_child(&child) {
            if passed == 0 {
                push_text(alloc, list, text, Formatting::default())?;
            }
            passed = passed.saturating_add(1);
        } else if passed == 0 {
            list.0.push(child)?;
        } else if passed == names {
            after.push(child)?;
        }
    }
    push_after_names(alloc, style, list, after)
}

/// The same among the children, or those of the first element inside that has names. Returns
/// whether there are names.
#[cycle(put_all)]
fn put_for_all(
    alloc: Global,
    style: &Style,
    content: &mut ElemChildren,
    text: &str,
) -> Result<bool, Memory> {
    if content.0.iter().any(|child| is_name_child(child)) {
        put_among(alloc, style, content, text)?;
        return Ok(true);
    }
    let mut is_put = false;
    for child in content.0.iter_mut() {
        if let ElemChild::Elem(elem) = child {
            if !is_put {
                is_put = put_for_all(alloc, style, &mut elem.children, text)?;
            }
        }
    }
    Ok(is_put)
}

/// Puts the substitute in the place of all names that a content begins with, as one, or of the
/// first of them, each by itself.
fn put_substitute(
    alloc: Global,
    style: &Style,
    content: &mut ElemChildren,
    text: &str,
    is_whole: bool,
    count: usize,
) -> Result<(), Memory> {
    let Some(names) = content.find_names_mut() else {
        return Ok(());
    };
    if is_whole {
        let _is_put = put_for_all(alloc, style, &mut names.children, text)?;
    } else {
        let _left = put_for_names(alloc, &mut names.children, text, count)?;
    }
    Ok(())
}

impl<'s> NamesBefore<'s> {
    /// No work is before.
    pub fn new(alloc: Global, style: &'s Style) -> NamesBefore<'s> {
        NamesBefore {
            style,
            names: no_names(alloc),
        }
    }

    /// Puts the substitute in the place of the names that the work before has too, by the rule.
    /// From then on this work is the one before.
    pub fn substitute(
        &mut self,
        alloc: Global,
        content: &mut ElemChildren,
        substitute: &AuthorSubstitute,
    ) -> Result<(), Memory> {
        let names = printed_names(alloc, self.style, content)?;
        let (all, alike) = (names.each.len(), count_alike(&names.each, &self.names.each));
        let is_same = alike > 0
            && alike == all
            && alike == self.names.each.len()
            && names.are_cut == self.names.are_cut;
        let count = count_replaced(substitute.rule, is_same, all, alike);
        let is_whole = is_same && substitute.rule == SubstituteRule::CompleteAll;
        if is_whole || count > 0 {
            let text = substitute.text.as_str();
            put_substitute(alloc, self.style, content, text, is_whole, count)?;
        }
        self.names = names;
        Ok(())
    }
}
