//! The answers to parsed commands.

ghost use Rattle.std.specs.Prelude.{◌≡◌, ◌⊎◌, true, OnOk, OnErr, Err, IfOk, IsErrOf};
ghost use Rattle.csl_cli.specs.Answers as spec;
ghost use Rattle.csl_cli.specs.Command.{command_verdict};

use crate::command::Command;
use crate::content::{entry_content, title_content};
use csl_common::Sink;
use csl_tree::{BufWriteFormat, ElemChildren, HtmlError, leaf_text_of_html};
use std::alloc::Global;
use std::fmt;

/// A complete answer, before any of it is written.
#[derive(Drop)]
pub enum Answer {
    /// Content, and the format to write it in.
    Content(ElemChildren, BufWriteFormat),
    /// A text.
    Text(String),
    /// A boolean, written as `true` or `false`.
    Truth(bool),
}

/// The answer to a command.
///
/// # Errors
/// - [`HtmlError::NotHtml`]: the command asks for the leaf text of a text that is not HTML.
/// - [`HtmlError::Memory`]: out of memory.
#[tactic(auto, using(crate::proofs::Titles::title_is_written))]
pub fn answer_to(alloc: Global, command: Command<'_>) -> Result<Answer, HtmlError>
    ensures ok { IfOk result (λ answer. spec.IsAnswer (command_verdict command.entry)
        (spec.answer_text answer)) }
    ensures not_html { IsErrOf result HtmlError.NotHtml → spec.IsRefused
        (command_verdict command.entry) }
    ensures refused { spec.IsRefused (command_verdict command.entry)
        → (result ≡ Err HtmlError.NotHtml) ⊎ (result ≡ Err HtmlError.Memory) }
{
    match command {
        Command::Title { title, format } => {
            let content = title_content(alloc, title)?;
            Ok(Answer::Content(content, format))
        }
        Command::Cite {
            entry,
            style,
            format,
        } => {
            let content = entry_content(alloc, entry, style)?;
            Ok(Answer::Content(content, format))
        }
        Command::Label(entry) => {
            let label = entry.label(alloc)?;
            Ok(Answer::Text(label))
        }
        Command::Kind { entry, kind } => {
            let truth = entry.is_of_kind(alloc, kind)?;
            Ok(Answer::Truth(truth))
        }
        Command::Leaf(html) => {
            let text = leaf_text_of_html(alloc, html)?;
            Ok(Answer::Text(text))
        }
    }
}

fn truth_text(truth: bool) -> &'static str
    ensures { result.now ≡ spec.truth_text truth }
{
    if truth { "true" } else { "false" }
}

/// Writes an answer and a newline.
#[tactic(auto, using(csl_common::proofs::Writes::two_writes))]
pub fn write_answer<S: Sink>(answer: &Answer, out: &mut S) -> fmt::Result
    ensures ok { OnOk result (spec.TakesLine S.write_str_gives out.old (spec.answer_text answer.now)
        out.new) }
    ensures kept { OnOk result (S.refused out.new ≡ S.refused out.old) }
    ensures err { OnErr result (S.refused out.new ≡ true) }
{
    match answer {
        Answer::Content(content, format) => content.write_into(out, *format)?,
        Answer::Text(text) => out.put(text.as_str())?,
        Answer::Truth(truth) => out.put(truth_text(*truth))?,
    }
    out.put("\n")?;
    Ok(())
}
