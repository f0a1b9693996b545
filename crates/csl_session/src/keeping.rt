//! The requests that keep and forget styles and works.

ghost use Rattle.std.specs.Prelude.{◌≡◌, OnErr};

use crate::kept::{Refused, Shelf};
use crate::limits::{SessionLimits, items_within};
use crate::replies::outcome_value;
use crate::session::Session;
use csl::Style;
use csl_common::Memory;
use csl_list::ListStyle;
use csl_wire::{Code, Form, Reader, Step, WireError, within, word_of};
use csl_wire_cite::entry_of;
use csl_wire_list::list_style_in;
use serde_json::{Map, Value, json};
use std::alloc::Global;

/// What a value that is kept counts, beside the bytes of its text and of its name.
const BESIDE: u64 = 500;

/// What each locale of a style counts besides: the tag of a language is short, its locale large.
const LOCALE: u64 = 2_000;

/// How many locales the value of a style has.
fn count_of_locales(value: &Value) -> usize {
    match value.get("locales") {
        Some(Value::Array(locales)) => locales.len(),
        _ => 0,
    }
}

/// The refusal of a style that is too large.
fn too_large(alloc: Global, reason: &'static str) -> WireError {
    WireError::of(alloc, Code::TooLarge, reason).after(Step::Member("style"))
}

/// A style with its options, among the members of a request, within the limits.
fn style_within(
    form: Form<'_>,
    value: &Value,
    limits: SessionLimits,
) -> Result<ListStyle, WireError> {
    let alloc = form.reader.alloc;
    if count_of_locales(value) > limits.locales {
        return Err(too_large(alloc, "the style has more locales than are allowed"));
    }
    let style = list_style_in(form, limits.options())?;
    let is_within = match limits.style {
        Some(most) => style.all_within(alloc, most.rendered, most.size, most.depth),
        None => Ok(true),
    };
    match is_within {
        Ok(true) => Ok(style),
        Ok(false) => {
            drop(style);
            Err(too_large(alloc, "the style renders more than is allowed"))
        }
        Err(_) => {
            drop(style);
            Err(WireError::Memory)
        }
    }
}

/// The answer to a request that keeps a style: the first macro that it calls and does not define,
/// or `null`.
fn style_answer(alloc: Global, style: &Style) -> Result<Value, Memory> {
    match style.missing_macro() {
        Some(name) => Ok(json!(in alloc; {"missing-macro": name})?),
        None => Ok(json!(in alloc; {"missing-macro": null})?),
    }
}

/// What a value counts that is kept by a name: the bytes of its text without spaces and of the
/// name, and `BESIDE`.
fn counted_bytes(alloc: Global, name: &str, value: &Value) -> Result<u64, Memory> {
    let text = value.to_string(alloc)?;
    let bytes = (text.len() as u64).saturating_add(name.len() as u64);
    Ok(bytes.saturating_add(BESIDE))
}

/// The bytes of the text of a member without spaces, if it is there.
fn member_bytes(form: Form<'_>, name: &str) -> Result<u64, Memory> {
    match form.member(name) {
        Some(value) => {
            let text = value.to_string(form.reader.alloc)?;
            Ok(text.len() as u64)
        }
        None => Ok(0),
    }
}

/// What a style counts that is kept by a name, with its options.
fn style_bytes(form: Form<'_>, name: &str, style: &Value) -> Result<u64, Memory> {
    let bytes = counted_bytes(form.reader.alloc, name, style)?;
    let locales = (count_of_locales(style) as u64).saturating_mul(LOCALE);
    let citation = member_bytes(form, "citation")?;
    let bibliography = member_bytes(form, "bibliography")?;
    let options = citation.saturating_add(bibliography);
    Ok(bytes.saturating_add(locales).saturating_add(options))
}

/// The names that a list has.
fn names_of(reader: Reader, items: &[Value]) -> Result<Vec<&str>, WireError> {
    let mut names = Vec::with_capacity(reader.alloc, items.len())?;
    for (place, item) in items.iter().enumerate() {
        names.push(within(Step::Item(place), word_of(reader, item))?)?;
    }
    Ok(names)
}

/// The names of a member that is a list.
fn named_in<'v>(form: Form<'v>, member: &'static str) -> Result<Vec<&'v str>, WireError> {
    let items = form.items(member)?;
    within(Step::Member(member), names_of(form.reader, items))
}

/// Forgets the values of these names, and returns how many there were.
fn forget<T: Drop>(shelf: &mut Shelf<T>, names: &[&str]) -> u64 {
    let mut count: u64 = 0;
    for name in names {
        if shelf.remove(*name) {
            count = count.saturating_add(1);
        }
    }
    count
}

/// Why a value is not kept.
fn refusal_of(alloc: Global, refused: Refused) -> WireError {
    match refused {
        Refused::Memory => WireError::Memory,
        Refused::Full => WireError::of(alloc, Code::Full, "no more can be kept"),
    }
}

impl Session {
    /// Keeps a style. If that is refused, all styles are as they were.
    pub(crate) fn keep_style(&mut self, form: Form<'_>) -> Result<Value, WireError>
        ensures { OnErr result (self.new.styles.kept.entries ≡ self.old.styles.kept.entries) }
    {
        let alloc = form.reader.alloc;
        let name = form.one_text("name")?;
        let Some(value) = form.member("style") else {
            return Err(form.missing("style"));
        };
        let bytes = style_bytes(form, name.as_str(), value)?;
        let style = style_within(form, value, self.limits)?;
        match style_answer(alloc, style.style()) {
            Ok(answer) => match self.styles.put(name, style, bytes) {
                Ok(()) => Ok(answer),
                Err(refused) => Err(refusal_of(alloc, refused)),
            },
            Err(_) => {
                drop(style);
                Err(WireError::Memory)
            }
        }
    }

    /// Keeps a work. If that is refused, all works are as they were.
    fn keep_work(&mut self, reader: Reader, value: &Value) -> Result<Value, WireError>
        ensures { OnErr result (self.new.works.kept.entries ≡ self.old.works.kept.entries) }
    {
        let form = Form::of(reader, value, &[&["name", "work"]])?;
        let name = form.one_text("name")?;
        let Some(value) = form.member("work") else {
            return Err(form.missing("work"));
        };
        let bytes = counted_bytes(reader.alloc, name.as_str(), value)?;
        let read = entry_of(reader.alloc, value, self.limits.work);
        let work = within(Step::Member("work"), read)?;
        match self.works.put(name, work, bytes) {
            Ok(()) => Ok(Value::Object(Map::new(reader.alloc))),
            Err(refused) => Err(refusal_of(reader.alloc, refused)),
        }
    }

    /// Keeps works, each with an outcome of its own.
    pub(crate) fn keep_works(&mut self, form: Form<'_>) -> Result<Value, WireError> {
        let alloc = form.reader.alloc;
        let items = items_within(form, "works", self.limits.items)?;
        let mut outcomes = Vec::with_capacity(alloc, items.len())?;
        for (place, item) in items.iter().enumerate() {
            let kept = within(Step::Item(place), self.keep_work(form.reader, item));
            let outcome = outcome_value(alloc, within(Step::Member("works"), kept))?;
            outcomes.push(outcome)?;
        }
        Ok(Value::Array(outcomes))
    }

    /// Forgets styles and works, or none of them if the request is refused.
    pub(crate) fn drop_named(&mut self, form: Form<'_>) -> Result<Value, WireError> {
        let styles = named_in(form, "styles")?;
        let works = named_in(form, "works")?;
        let styles = forget(&mut self.styles, styles.as_slice());
        let works = forget(&mut self.works, works.as_slice());
        Ok(json!(in form.reader.alloc; {"styles": styles, "works": works})?)
    }
}
