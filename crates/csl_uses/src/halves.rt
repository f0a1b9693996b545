//! The halves of a cite in the running text, and what each of them tells: `Kwan` and `2014` of
//! `Kwan (2014)`.
//! Definitions: specs/Cite.antt.

ghost use Rattle.std.specs.Prelude.{◌≡◌, false, not, IfOk, string_bytes};
ghost use Rattle.csl.specs.Style.Named.{the_variable};
ghost use Rattle.csl.specs.Style.NamedSet.{a_variable, named_union};
ghost use Rattle.csl.specs.Entry.Alike.{SameNamedAnswers};
ghost use Rattle.csl.specs.Entry.Answers.{Answers};
ghost use Rattle.csl.specs.Render.Cites.{named_by, AgreeButForAuthors};
ghost use Rattle.csl.specs.Render.Names.{author};
ghost use Rattle.csl.specs.Style.Tested.{variables_of_tests};
ghost use Rattle.csl.specs.Style.Told.{told_beside};
ghost use Rattle.csl_uses.specs.Cite as spec;

use csl::style::{NameVariable, Style, Variable};
use csl::{BufWriteFormat, CiteProperties, DisambiguateState, EntryLike, Error, SpecialForm};
use std::alloc::Global;

/// The plain text of the first cite of an entry by its authors alone, as `Kwan`. It tells nothing
/// but these and what the layout tells beside one variable: that of its tests and labels, and of
/// other names with which authors stand.
///
/// # Errors
/// [`Error::Memory`]: out of memory, here or in the entry.
pub fn authors_half<T: EntryLike>(alloc: Global, style: &Style, entry: &T) -> Result<String, Error>
    ensures text { IfOk result (λ text. string_bytes text
        ≡ spec.part_of_cite style.now spec.by_authors (T.answers entry.now)) }
    ensures alone { (others : Answers)
        → SameNamedAnswers (named_union (the_variable author) (told_beside author style.now
        style.now.citation)) (T.answers entry.now) others
        → IfOk result (λ text. string_bytes text
        ≡ spec.part_of_cite style.now spec.by_authors others) }
{
    let first = CiteProperties::first(DisambiguateState::None);
    let form = SpecialForm::VarOnly(Variable::Name(NameVariable::Author));
    let part = csl::cite_in(alloc, style, entry, &first, form)?;
    Ok(part.content.to_text(alloc, BufWriteFormat::Plain)?)
}

/// Whether no test of the style's citation layout names the authors, so that the other half of each
/// cite tells nothing of them.
///
/// # Errors
/// [`Error::Memory`]: out of memory.
pub fn is_other_half_silent(alloc: Global, style: &Style) -> Result<bool, Error>
    ensures { IfOk result (λ silent. silent
        ≡ not (variables_of_tests style.now style.now.citation (a_variable author))) }
{
    let tested = csl::named_by_tests(alloc, style, style.citation())?;
    Ok(!tested.names.contains(&NameVariable::Author))
}

/// The plain text of the first cite of an entry without its authors, as `2014`. It tells nothing of
/// them, unless a test of the layout names them ([`is_other_half_silent`]).
///
/// # Errors
/// [`Error::Memory`]: out of memory, here or in the entry.
pub fn other_half<T: EntryLike>(alloc: Global, style: &Style, entry: &T) -> Result<String, Error>
    ensures text { IfOk result (λ text. string_bytes text
        ≡ spec.part_of_cite style.now spec.without_authors (T.answers entry.now)) }
    ensures silent { variables_of_tests style.now style.now.citation (a_variable author) ≡ false
        → (others : Answers)
        → AgreeButForAuthors (named_by style.now style.now.citation) (T.answers entry.now) others
        → IfOk result (λ text. string_bytes text
        ≡ spec.part_of_cite style.now spec.without_authors others) }
{
    let first = CiteProperties::first(DisambiguateState::None);
    let part = csl::cite_in(alloc, style, entry, &first, SpecialForm::SuppressAuthor)?;
    Ok(part.content.to_text(alloc, BufWriteFormat::Plain)?)
}
