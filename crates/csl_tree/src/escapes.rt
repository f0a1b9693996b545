//! Escaping in HTML: the four reserved characters and their references.

ghost use Rattle.std.specs.Prelude.{◌≡◌, ◌++◌, true, false, [], IfSome, IfNone, OnOk, OnErr};
ghost use Rattle.std.specs.List.{list_all};
ghost use Rattle.std.specs.Fmt.{WritesInCalls};
ghost use Rattle.csl_tree.specs.Escapes as spec;

use csl_common::Sink;
use std::fmt;

/// Whether the byte is reserved: HTML has a reference in its place.
fn is_reserved(byte: u8) -> bool
    ensures { result ≡ spec.is_reserved byte }
{
    matches!(byte, b'&' | b'<' | b'>' | b'"')
}

/// Splits a text before its first reserved character, or at its end if there is none.
pub fn split_plain(text: &str) -> (&str, &str)
    ensures whole { text.now ≡ result.0.now ++ result.1.now }
    ensures plain { list_all spec.is_plain result.0.now ≡ true }
    ensures longest { spec.starts_plain result.1.now ≡ false }
{
    match text.bytes().position(|byte| is_reserved(byte)) {
        Some(at) => text.split_at(at),
        None => (text, ""),
    }
}

/// The reference of the reserved character that a text begins with, and the rest of the text.
fn reference_of_first(text: &str) -> Option<(&'static str, &str)>
    ensures found { IfSome result (λ x. spec.BeginsEscaped text.now x.0.now x.1.now) }
    ensures none { IfNone result (spec.starts_plain text.now ≡ false → text.now ≡ []) }
{
    if let Some(rest) = text.strip_prefix("&") {
        return Some(("&amp;", rest));
    }
    if let Some(rest) = text.strip_prefix("<") {
        return Some(("&lt;", rest));
    }
    if let Some(rest) = text.strip_prefix(">") {
        return Some(("&gt;", rest));
    }
    match text.strip_prefix("\"") {
        Some(rest) => Some(("&quot;", rest)),
        None => None,
    }
}

/// Writes a text with a reference in place of each reserved character.
///
/// # Errors
/// [`fmt::Error`]: the sink refused a text; the contents of the sink are then unspecified.
pub fn write_escaped<S: Sink>(text: &str, sink: &mut S) -> fmt::Result
    ensures ok { OnOk result (WritesInCalls S.write_str_gives sink.old
        (spec.escape_all text.now) sink.new) }
    ensures kept { OnOk result (S.refused sink.new ≡ S.refused sink.old) }
    ensures err { OnErr result (S.refused sink.new ≡ true) }
{
    let (plain, mut rest) = split_plain(text);
    sink.put(plain)?;
    while let Some((reference, next)) = reference_of_first(rest) {
        sink.put(reference)?;
        let (plain, next) = split_plain(next);
        sink.put(plain)?;
        rest = next;
    }
    Ok(())
}
