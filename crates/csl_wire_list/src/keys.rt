//! The keys that cites and works are sorted by (CSL 1.0.2, Sorting).
//! Definitions: specs/Keys.antt.

ghost use Rattle.std.specs.Prelude.{IfOk, map};
ghost use Rattle.std.specs.List.{AllZip};
ghost use Rattle.serde_json.specs.View.{view};
ghost use Rattle.csl_wire_list.specs.Keys.{AreKeys, IsKey, IsSource};

use crate::choices::DIRECTIONS;
use crate::limits::OptionLimits;
use csl_elements::Variable;
use csl_list::{KeySource, SortKey};
use csl_wire::{Code, Form, Reader, Step, WireError, within};
use serde_json::Value;

/// The source of a key: one of a variable and a macro.
fn source(form: Form<'_>) -> Result<KeySource, WireError>
    ensures { IfOk result (IsSource (view form.entry.value.now)) }
{
    match (form.member("variable"), form.member("macro")) {
        (Some(_), None) => Ok(KeySource::Variable(form.one_named::<Variable>("variable")?)),
        (None, Some(_)) => Ok(KeySource::Macro(form.one_text("macro")?)),
        (None, None) => Err(form.missing("variable")),
        (Some(_), Some(_)) => Err(WireError::of(
            form.reader.alloc,
            Code::WrongType,
            "a key has one of variable and macro",
        )),
    }
}

/// The members of a key.
static KEY: [&str; 3] = ["variable", "macro", "sort"];

/// A key.
fn key(reader: Reader, value: &Value) -> Result<SortKey, WireError>
    ensures { IfOk result (IsKey (view value.now)) }
{
    let form = Form::of(reader, value, &[&KEY])?;
    let is_descending = form.choice("sort", &DIRECTIONS)?.unwrap_or(false);
    let source = source(form)?;
    Ok(SortKey {
        source,
        is_descending,
    })
}

/// The keys of a list.
#[tactic(auto, using(csl_wire::proofs::Lists::zip_more))]
fn all_keys(reader: Reader, items: &[Value]) -> Result<Vec<SortKey>, WireError>
    ensures { IfOk result (λ keys. AllZip IsKey (map view items.now) keys.items) }
{
    let mut keys = Vec::with_capacity(reader.alloc, items.len())?;
    for (place, item) in items.iter().enumerate() {
        keys.push(within(Step::Item(place), key(reader, item))?)?;
    }
    Ok(keys)
}

/// The keys among the members.
#[tactic(auto, using(crate::proofs::Read::keys_read))]
pub(crate) fn keys(limits: OptionLimits, form: Form<'_>) -> Result<Vec<SortKey>, WireError>
    ensures { IfOk result (λ keys. AreKeys (view form.entry.value.now) keys.items) }
{
    let items = form.items("sort")?;
    let step = Step::Member("sort");
    if items.len() > limits.keys {
        let reason = "there are too many keys";
        return Err(WireError::of(form.reader.alloc, Code::TooLong, reason).after(step));
    }
    let keys = within(step, all_keys(form.reader, items))?;
    Ok(keys)
}
