//! The cases that a style sets for texts, in the citations and the works of a list (CSL 1.0.2,
//! Text-case). The style has marks of them in its affixes.
//! Definitions: crates/csl_finish/specs/CaseMarks.antt.

ghost use Rattle.std.specs.Prelude.{◌≡◌, false, OnOk};
ghost use Rattle.csl_finish.specs.CaseMarks.{have_mark};
ghost use Rattle.csl_tree.specs.Tokens.{tokens};

use crate::pieces::{push_text, push_tree};
use csl_common::Memory;
use csl_entry::EntryLike;
use csl_finish::{TextCase, apply_text_case};
use csl_tree::{ElemChild, ElemChildren, ElemMeta, Formatting};
use std::alloc::Global;

/// Puts the texts of a work into their cases. `is_english` is whether the works are English that do
/// not say so themselves.
pub(crate) fn set_cases_of_work<T: EntryLike>(
    alloc: Global,
    content: &mut ElemChildren,
    work: &T,
    is_english: bool,
) -> Result<(), Memory>
    ensures { OnOk result (have_mark (tokens content.new) ≡ false) }
{
    let is_english = work.is_english().unwrap_or(is_english);
    apply_text_case(alloc, content, is_english)
}

/// Puts the texts of each cite of a citation into their cases, each as a text of its work.
fn set_cases_of_cites<T: EntryLike>(
    alloc: Global,
    content: &mut ElemChildren,
    works: &[T],
    is_english: bool,
) -> Result<(), Memory> {
    for child in content.0.iter_mut() {
        if let ElemChild::Elem(elem) = child {
            if let Some(ElemMeta::Entry(index)) = elem.meta {
                if let Some(work) = works.get(index) {
                    set_cases_of_work(alloc, &mut elem.children, work, is_english)?;
                }
            }
        }
    }
    Ok(())
}

/// Puts the texts of a citation into their cases: those of each cite as texts of its work, and all
/// others, as the author before cites in prose, as texts of the first cite's.
pub(crate) fn set_cases<T: EntryLike>(
    alloc: Global,
    content: &mut ElemChildren,
    works: &[T],
    first: Option<&T>,
    is_english: bool,
) -> Result<(), Memory>
    ensures { OnOk result (have_mark (tokens content.new) ≡ false) }
{
    set_cases_of_cites(alloc, content, works, is_english)?;
    match first {
        Some(work) => set_cases_of_work(alloc, content, work, is_english),
        None => apply_text_case(alloc, content, is_english),
    }
}

/// Adds a mark as a text.
fn push_mark(alloc: Global, content: &mut ElemChildren, mark: char) -> Result<(), Memory> {
    let mut text = String::new(alloc);
    text.push(mark)?;
    push_text(alloc, content, text.as_str(), Formatting::default())
}

/// The content, marked to begin with a capital.
pub(crate) fn marked_capital(alloc: Global, content: ElemChildren) -> Result<ElemChildren, Memory> {
    let case = TextCase::CapitalizeFirst;
    let mut marked = ElemChildren::new(alloc);
    push_mark(alloc, &mut marked, case.start_mark())?;
    push_tree(&mut marked, content)?;
    push_mark(alloc, &mut marked, case.end_mark())?;
    Ok(marked)
}
