//! The cases that a style sets for texts, in what a request renders (CSL 1.0.2, Text-case). The
//! kept styles have marks of them in their affixes.
//! Definitions: specs/Cases.antt.

ghost use Rattle.std.specs.Prelude.{IfOk, string_bytes};
ghost use Rattle.csl.specs.Tree.Tokens.{tokens};
ghost use Rattle.csl_session.specs.Cases.{IsCased, IsCasedText};

use csl_common::Memory;
use csl_finish::{apply_text_case, has_case_mark, without_case_marks};
use csl_tree::{BufWriteFormat, ElemChildren, Formatting};
use std::alloc::Global;

/// The content with its texts in their cases. `is_english` is whether it is English.
#[tactic(auto, using(crate::proofs::Cased::content_cased))]
pub(crate) fn cased(
    alloc: Global,
    content: ElemChildren,
    is_english: bool,
) -> Result<ElemChildren, Memory>
    ensures { IfOk result (λ cased. IsCased (tokens content) (tokens cased)) }
{
    let mut cased = content;
    apply_text_case(alloc, &mut cased, is_english)?;
    Ok(cased)
}

/// The text of a key in its case.
#[tactic(auto, using(crate::proofs::Cased::text_same, crate::proofs::Cased::text_cased))]
pub(crate) fn cased_text(alloc: Global, text: String, is_english: bool) -> Result<String, Memory>
    ensures { IfOk result (λ cased. IsCasedText (string_bytes text) (string_bytes cased)) }
{
    if !has_case_mark(text.as_str()) {
        return Ok(text);
    }
    let mut content = ElemChildren::new(alloc);
    content.0.push(Formatting::default().add_text(text).into())?;
    apply_text_case(alloc, &mut content, is_english)?;
    let cased = content.to_text(alloc, BufWriteFormat::Plain)?;
    without_case_marks(alloc, cased.as_str())
}
