//! What a session tells of itself.

use crate::limits::SessionLimits;
use csl_wire::names;
use csl_wire_list::DocumentLimits;
use csl_wire_reply::{put, put_number, put_text};
use lit_model::Memory;
use serde_json::{Map, Value};
use std::alloc::Global;

/// The protocol of requests and replies. It changes if a request that was answered is read
/// otherwise.
pub const PROTOCOL: u64 = 1;

/// The version of the library.
const VERSION: &str = "0.9.1";

/// A list of names, after those that are there.
fn push_names(alloc: Global, items: &mut Vec<Value>, names: &[&str]) -> Result<(), Memory> {
    for name in names {
        let name = String::from_str(alloc, name)?;
        items.push(Value::String(name))?;
    }
    Ok(())
}

/// The names of lists, one after the other, as one list.
fn names_value(alloc: Global, lists: &[&[&str]]) -> Result<Value, Memory> {
    let mut items = Vec::new(alloc);
    for names in lists {
        push_names(alloc, &mut items, names)?;
    }
    Ok(Value::Array(items))
}

/// The names of variables, by their sorts.
fn variables_value(alloc: Global) -> Result<Value, Memory> {
    let mut members = Map::new(alloc);
    let standard = names_value(alloc, &[&names::STANDARD_VARIABLES])?;
    put(alloc, &mut members, "standard", standard)?;
    let number = names_value(alloc, &[&names::NUMBER_VARIABLES])?;
    put(alloc, &mut members, "number", number)?;
    let page = names_value(alloc, &[&names::PAGE_VARIABLES])?;
    put(alloc, &mut members, "page", page)?;
    let date = names_value(alloc, &[&names::DATE_VARIABLES])?;
    put(alloc, &mut members, "date", date)?;
    let name = names_value(alloc, &[&names::NAME_VARIABLES])?;
    put(alloc, &mut members, "name", name)?;
    Ok(Value::Object(members))
}

/// Sets the limits of documents.
fn put_document_limits(
    alloc: Global,
    members: &mut Map<String, Value>,
    limits: DocumentLimits,
) -> Result<(), Memory> {
    put_number(alloc, members, "citations", limits.citations as u64)?;
    put_number(alloc, members, "citation-items", limits.cites as u64)?;
    put_number(alloc, members, "uncited-works", limits.works as u64)?;
    put_number(alloc, members, "affix", limits.text as u64)?;
    put_number(alloc, members, "locator", limits.locator as u64)?;
    Ok(())
}

/// Limits, by their names.
fn limits_value(alloc: Global, limits: SessionLimits) -> Result<Value, Memory> {
    let mut members = Map::new(alloc);
    put_number(alloc, &mut members, "style-text", limits.read.text as u64)?;
    put_number(alloc, &mut members, "style-locales", limits.locales as u64)?;
    put_number(alloc, &mut members, "style-keys", limits.keys as u64)?;
    put_number(alloc, &mut members, "values", limits.values as u64)?;
    put_number(alloc, &mut members, "items", limits.items as u64)?;
    put_number(alloc, &mut members, "work-texts", limits.work.bytes as u64)?;
    put_number(
        alloc,
        &mut members,
        "work-number",
        limits.work.number as u64,
    )?;
    put_number(
        alloc,
        &mut members,
        "work-persons",
        limits.work.persons as u64,
    )?;
    put_document_limits(alloc, &mut members, limits.document)?;
    put_number(alloc, &mut members, "rendered", limits.room)?;
    put_number(alloc, &mut members, "reply", limits.reply as u64)?;
    put_number(alloc, &mut members, "kept-styles", limits.kept_styles)?;
    put_number(alloc, &mut members, "kept-works", limits.kept_works)?;
    Ok(Value::Object(members))
}

/// What a session tells of itself: its protocol, version and limits, and the names that it knows.
pub(crate) fn hello_value(alloc: Global, limits: SessionLimits) -> Result<Value, Memory> {
    let mut members = Map::new(alloc);
    put_number(alloc, &mut members, "protocol", PROTOCOL)?;
    put_text(alloc, &mut members, "version", VERSION)?;
    let limits = limits_value(alloc, limits)?;
    put(alloc, &mut members, "limits", limits)?;
    let languages = names_value(alloc, &[&names::LANGUAGES])?;
    put(alloc, &mut members, "languages", languages)?;
    let variables = variables_value(alloc)?;
    put(alloc, &mut members, "variables", variables)?;
    let types = names_value(alloc, &[&names::KINDS])?;
    put(alloc, &mut members, "types", types)?;
    let terms = names_value(alloc, &[&names::OTHER_TERMS])?;
    put(alloc, &mut members, "terms", terms)?;
    let locators = names_value(alloc, &[&names::LOCATORS])?;
    put(alloc, &mut members, "locators", locators)?;
    Ok(Value::Object(members))
}
