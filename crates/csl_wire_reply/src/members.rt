//! Members of objects.
//! Definitions: specs/Members.antt.

ghost use Rattle.std.specs.Prelude.{◌≡◌, OnOk, option_map};
ghost use Rattle.serde_json.specs.Data.{number as a_number, string, unsigned, put as with_member};
ghost use Rattle.serde_json.specs.View.{view, members_view};
ghost use Rattle.csl_wire_reply.specs.Members as spec;

use lit_model::Memory;
use serde_json::{Map, Value};
use std::alloc::Global;

/// Sets a member.
pub fn put(
    alloc: Global,
    members: &mut Map<String, Value>,
    name: &str,
    value: Value,
) -> Result<(), Memory>
    ensures { OnOk result (members_view members.new.entries
        ≡ with_member name.now (view value) (members_view members.old.entries)) }
{
    serde_json::put(members, alloc, name, value)?;
    Ok(())
}

/// Sets a member to a text.
pub fn put_text(
    alloc: Global,
    members: &mut Map<String, Value>,
    name: &str,
    text: &str,
) -> Result<(), Memory>
    ensures { OnOk result (members_view members.new.entries
        ≡ with_member name.now (string text.now) (members_view members.old.entries)) }
{
    let text = String::from_str(alloc, text)?;
    put(alloc, members, name, Value::String(text))
}

/// Sets a member to a number.
pub fn put_number(
    alloc: Global,
    members: &mut Map<String, Value>,
    name: &str,
    number: u64,
) -> Result<(), Memory>
    ensures { OnOk result (members_view members.new.entries
        ≡ with_member name.now (a_number (unsigned number)) (members_view members.old.entries)) }
{
    put(alloc, members, name, Value::from(number))
}

/// Sets a member to a text, if there is one.
#[tactic(auto, unfolding(crate::specs::Members::put_if))]
pub(crate) fn put_text_if(
    alloc: Global,
    members: &mut Map<String, Value>,
    name: &str,
    text: Option<&str>,
) -> Result<(), Memory>
    ensures { OnOk result (members_view members.new.entries
        ≡ spec.put_if name.now (option_map spec.borrowed text.entry)
        (members_view members.old.entries)) }
{
    if let Some(text) = text {
        put_text(alloc, members, name, text)?;
    }
    Ok(())
}

/// Sets a member to `true`, if it is.
#[tactic(auto, unfolding(crate::specs::Members::put_flag))]
pub(crate) fn put_flag(
    alloc: Global,
    members: &mut Map<String, Value>,
    name: &str,
    flag: bool,
) -> Result<(), Memory>
    ensures { OnOk result (members_view members.new.entries
        ≡ spec.put_flag name.now flag (members_view members.old.entries)) }
{
    if flag {
        put(alloc, members, name, Value::Bool(true))?;
    }
    Ok(())
}
