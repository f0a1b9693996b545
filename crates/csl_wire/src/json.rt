//! JSON values from texts.
//! Definitions: specs/Refusals.antt.

ghost use Rattle.std.specs.Prelude.{◌≡◌, ◌≤◌, true, None, Some, IfOk, IfErr};
ghost use Rattle.serde_json.specs.Data.{depth};
ghost use Rattle.serde_json.specs.Read.{max_depth, read};
ghost use Rattle.serde_json.specs.View.{view};
ghost use Rattle.csl_wire.specs.Refusals.{is_refused};

use crate::refusal::WireError;
use serde_json::Value;
use std::alloc::Global;

/// The JSON value of a text. Of several members of one name, the last counts.
///
/// # Errors
/// [`WireError::Refused`], with [`Code::NotJson`](crate::Code::NotJson): the text is no JSON, or
/// JSON of more than 127 levels.
pub fn value_of_text(alloc: Global, text: &str) -> Result<Value, WireError>
    ensures value { IfOk result (λ v. read text.now ≡ Some (view v)) }
    ensures levels { IfOk result (λ v. depth (view v) ≤ max_depth) }
    ensures refused { IfErr result (λ e. is_refused e ≡ true → read text.now ≡ None) }
{
    match Value::from_str(alloc, text) {
        Ok(value) => Ok(value),
        Err(error) => {
            if error.is_memory() {
                return Err(WireError::Memory);
            }
            Err(WireError::of_text(alloc, error.line(), error.column()))
        }
    }
}
