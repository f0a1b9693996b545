//! The program's work, over any two writers.
//! Definitions: specs/Answers.antt, specs/Command.antt.

ghost use Rattle.std.specs.Prelude.{◌≡◌, ◌⊎◌, None, OnOk, OnErr, is_ok, true, if◌then◌else◌};
ghost use Rattle.csl_cli.specs.Answers.{Complains, HasNoAnswer, IsRefused, OneRefuses, Replies, TakesLine};
ghost use Rattle.csl_cli.specs.Answers.{complaint, not_html, out_of_memory};
ghost use Rattle.csl_cli.specs.Command.{parse_words, refusal};

use crate::answers::{answer_to, write_answer};
use crate::command::{WordsError, command_of};
use csl_common::{Sink, TrackingWriter};
use csl_tree::HtmlError;
use std::alloc::Global;
use std::fmt;

/// Writes why the words are not a command, and a newline.
#[tactic(auto, using(csl_common::proofs::Writes::three_writes))]
fn write_error<S: Sink>(error: WordsError<'_>, sink: &mut S) -> fmt::Result
    ensures ok { OnOk result (Complains S.write_str_gives (refusal error.entry) sink.old sink.new) }
    ensures kept { OnOk result (S.refused sink.new ≡ S.refused sink.old) }
    ensures err { OnErr result (S.refused sink.new ≡ true) }
{
    match error {
        WordsError::Missing => sink.put("missing word\n"),
        WordsError::Unknown(word) => {
            sink.put("unknown: ")?;
            sink.put(word)?;
            sink.put("\n")?;
            Ok(())
        }
    }
}

/// The given status if the writer took the text, and 4 if it refused it.
fn status_of(written: fmt::Result, status: u8) -> u8
    ensures { result ≡ (if is_ok written then status else 4) }
{
    if written.is_ok() { status } else { 4 }
}

/// Runs the command in the words, over two sinks, and returns the program's status:
/// - 0: `out` took the answer and a newline, and `fault` is unchanged;
/// - 2: the words are not a command, `fault` took a line with the reason, and `out` is unchanged;
/// - 3: memory ran out, `fault` took the line `out of memory`, and `out` is unchanged;
/// - 4: a sink refused a text. The contents of the sinks are unspecified, but if the words have no
///   answer, `out` is unchanged;
/// - 5: the words ask for the leaf text of a text that is not HTML, `fault` took the line
///   `not html`, and `out` is unchanged. For such words the status may also be 3 or 4.
pub fn run_into<S: Sink, F: Sink>(alloc: Global, words: &[String], out: &mut S, fault: &mut F) -> u8
    ensures zero { result ≡ 0 → Replies S.write_str_gives (parse_words words.now) out.old out.new }
    ensures zero_fault { result ≡ 0 → fault.new ≡ fault.old }
    ensures two { result ≡ 2 → Complains F.write_str_gives
        (parse_words words.now) fault.old fault.new }
    ensures two_out { result ≡ 2 → out.new ≡ out.old }
    ensures three { result ≡ 3 → TakesLine F.write_str_gives fault.old out_of_memory fault.new }
    ensures three_words { result ≡ 3 → complaint (parse_words words.now) ≡ None }
    ensures three_out { result ≡ 3 → out.new ≡ out.old }
    ensures four { result ≡ 4 → OneRefuses S.refused out.old out.new F.refused fault.old fault.new }
    ensures four_out { result ≡ 4 → HasNoAnswer (parse_words words.now) → out.new ≡ out.old }
    ensures five { result ≡ 5 → IsRefused (parse_words words.now)
        × TakesLine F.write_str_gives fault.old not_html fault.new }
    ensures five_out { result ≡ 5 → out.new ≡ out.old }
    ensures refused { IsRefused (parse_words words.now) → (result ≡ 5) ⊎
        ((result ≡ 3) ⊎ (result ≡ 4)) }
    ensures no_other { (result ≡ 0) ⊎ ((result ≡ 2) ⊎
        ((result ≡ 3) ⊎ ((result ≡ 4) ⊎ (result ≡ 5)))) }
{
    match command_of(words) {
        Ok(command) => match answer_to(alloc, command) {
            Ok(answer) => status_of(write_answer(&answer, out), 0),
            Err(HtmlError::Memory) => status_of(fault.put("out of memory\n"), 3),
            Err(HtmlError::NotHtml) => status_of(fault.put("not html\n"), 5),
        },
        Err(error) => status_of(write_error(error, fault), 2),
    }
}

/// Runs the command in the words, over any two writers, and returns the program's status:
/// - 0: `out` took the answer and a newline, and `fault` is unchanged;
/// - 2: the words are not a command, `fault` took a line with the reason, and `out` is unchanged;
/// - 3: memory ran out, `fault` took the line `out of memory`, and `out` is unchanged;
/// - 4: a writer refused a text. The contents of the writers are unspecified, but if the words have
///   no answer, `out` is unchanged. Only the contract of [`run_into`] states that 4 implies a
///   refusal, because [`fmt::Write`] does not record refusals;
/// - 5: the words ask for the leaf text of a text that is not HTML, `fault` took the line
///   `not html`, and `out` is unchanged. For such words the status may also be 3 or 4.
pub fn run<W: fmt::Write, F: fmt::Write>(
    alloc: Global,
    words: &[String],
    out: &mut W,
    fault: &mut F,
) -> u8
    ensures zero { result ≡ 0 → Replies W.write_str_gives (parse_words words.now) out.old out.new }
    ensures zero_fault { result ≡ 0 → fault.new ≡ fault.old }
    ensures two { result ≡ 2 → Complains F.write_str_gives
        (parse_words words.now) fault.old fault.new }
    ensures two_out { result ≡ 2 → out.new ≡ out.old }
    ensures three { result ≡ 3 → TakesLine F.write_str_gives fault.old out_of_memory fault.new }
    ensures three_words { result ≡ 3 → complaint (parse_words words.now) ≡ None }
    ensures three_out { result ≡ 3 → out.new ≡ out.old }
    ensures four_out { result ≡ 4 → HasNoAnswer (parse_words words.now) → out.new ≡ out.old }
    ensures five { result ≡ 5 → IsRefused (parse_words words.now)
        × TakesLine F.write_str_gives fault.old not_html fault.new }
    ensures five_out { result ≡ 5 → out.new ≡ out.old }
    ensures refused { IsRefused (parse_words words.now) → (result ≡ 5) ⊎
        ((result ≡ 3) ⊎ (result ≡ 4)) }
    ensures no_other { (result ≡ 0) ⊎ ((result ≡ 2) ⊎
        ((result ≡ 3) ⊎ ((result ≡ 4) ⊎ (result ≡ 5)))) }
{
    let mut out_sink = TrackingWriter::new(out);
    let mut fault_sink = TrackingWriter::new(fault);
    let status = run_into(alloc, words, &mut out_sink, &mut fault_sink);
    // These do nothing. The proof reads the writers' contents from the returned references.
    out_sink.into_inner();
    fault_sink.into_inner();
    status
}
