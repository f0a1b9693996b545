//! Replies: an answer or an error, with the id of the request.
//! Definitions: specs/Replies.antt.

ghost use Rattle.std.specs.Prelude.{◌≡◌, true, None, Some, IfOk, IfErr, OnOk, string_bytes};
ghost use Rattle.std.specs.Str.{IsUtf8};
ghost use Rattle.serde_json.specs.Read.{read};
ghost use Rattle.serde_json.specs.View.{view};
ghost use Rattle.csl_wire.specs.Refusals.{is_refused};
ghost use Rattle.csl_session.specs.Replies.{answer_reply, error_reply, IsReply, IsReplyText};

use csl_common::Memory;
use csl_wire::{Code, WireError, value_of_text};
use serde_json::{Value, json};
use std::alloc::Global;
use std::str;

/// An error as a value: its code, its place in the request, and its words.
fn error_value(alloc: Global, error: WireError) -> Result<Value, Memory> {
    match error {
        WireError::Memory => {
            let (code, message) = ("out-of-memory", "out of memory");
            Ok(json!(in alloc; {"code": code, "at": "", "message": message})?)
        }
        WireError::Refused(refusal) => {
            let code = refusal.code().name();
            let at = refusal.pointer(alloc)?;
            let message = format!(in alloc; "{refusal}")?;
            Ok(json!(in alloc; {"code": code, "at": at, "message": message})?)
        }
    }
}

/// The outcome of one item of a batch: `{"ok": ..}` or `{"error": ..}`.
pub(crate) fn outcome_value(
    alloc: Global,
    made: Result<Value, WireError>,
) -> Result<Value, Memory> {
    match made {
        Ok(value) => Ok(json!(in alloc; {"ok": value})?),
        Err(error) => {
            let error = error_value(alloc, error)?;
            Ok(json!(in alloc; {"error": error})?)
        }
    }
}

/// The reply with an answer.
fn answer_value(alloc: Global, id: &Value, answer: Value) -> Result<Value, Memory>
    ensures { IfOk result (λ v. view v ≡ answer_reply (view id.now) (view answer)) }
{
    Ok(json!(in alloc; {"id": id, "ok": answer})?)
}

/// The reply with an error.
fn failure_value(alloc: Global, id: &Value, error: Value) -> Result<Value, Memory>
    ensures { IfOk result (λ v. view v ≡ error_reply (view id.now) (view error)) }
{
    Ok(json!(in alloc; {"id": id, "error": error})?)
}

/// A reply.
fn reply_value(alloc: Global, id: &Value, answer: Result<Value, WireError>) -> Result<Value, Memory>
    ensures { IfOk result (λ v. IsReply (view id.now) (view v)) }
{
    match answer {
        Ok(value) => {
            let reply = answer_value(alloc, id, value)?;
            Ok(reply)
        }
        Err(error) => {
            let error = error_value(alloc, error)?;
            let reply = failure_value(alloc, id, error)?;
            Ok(reply)
        }
    }
}

/// The text of a reply.
#[tactic(auto, using(crate::proofs::Replied::text_made))]
fn text_of(alloc: Global, id: &Value, answer: Result<Value, WireError>) -> Result<String, Memory>
    ensures { IfOk result (λ text. IsReplyText (view id.now) (string_bytes text)) }
{
    let reply = reply_value(alloc, id, answer)?;
    Ok(reply.to_string(alloc)?)
}

/// The text of a reply, of at most so many bytes. In the place of a longer one there is an error.
pub(crate) fn reply_text(
    alloc: Global,
    id: &Value,
    answer: Result<Value, WireError>,
    most: usize,
) -> Result<String, Memory>
    ensures { IfOk result (λ text. IsReplyText (view id.now) (string_bytes text)) }
{
    let text = text_of(alloc, id, answer)?;
    if text.len() <= most {
        return Ok(text);
    }
    drop(text);
    let reason = "the reply is longer than is allowed";
    let refusal = WireError::of(alloc, Code::TooLarge, reason);
    text_of(alloc, id, Err(refusal))
}

/// The JSON value of a request.
pub(crate) fn value_of_bytes(alloc: Global, request: &[u8]) -> Result<Value, WireError>
    ensures value { IfOk result (λ v. read request.now ≡ Some (view v)) }
    ensures utf8 { OnOk result (IsUtf8 request.now) }
    ensures refused { IfErr result (λ e. is_refused e ≡ true → IsUtf8 request.now
        → read request.now ≡ None) }
{
    match str::from_utf8(request) {
        Ok(text) => value_of_text(alloc, text),
        Err(_) => Err(WireError::of(alloc, Code::NotJson, "the request is no UTF-8")),
    }
}
